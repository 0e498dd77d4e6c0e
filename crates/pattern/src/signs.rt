// The units that mean something of their own in a pattern.
ghost use Rattle.std.specs.Prelude.{◌≡◌, drop, if◌then◌else◌, Some, None};
ghost use Rattle.units.specs.Units.{units};
ghost use Rattle.pattern.specs.Signs.{special as is_special, parting, plainly, simple as simple_at};
ghost use Rattle.automaton.specs.declared.Atom.TheVariants.{Plain};

use automaton::Atom;
use units::unit_at;

pub const DOT: u16 = 0x2E;

pub const STAR: u16 = 0x2A;

pub const PLUS: u16 = 0x2B;

pub const QUERY: u16 = 0x3F;

pub const BAR: u16 = 0x7C;

pub const OPEN: u16 = 0x28;

pub const CLOSE: u16 = 0x29;

pub const ESCAPE: u16 = 0x5C;

pub const HEAD: u16 = 0x5E;

pub const TAIL: u16 = 0x24;

// . * + ? | ( ) [ ] \ ^ $
pub fn special(u: u16) -> bool
    ensures { result ≡ is_special u }
{
    matches!(u, 0x24 | 0x28..=0x2B | 0x2E | 0x3F | 0x5B..=0x5E | 0x7C)
}

// Does the unit part or end sequences?
pub fn parts(u: u16) -> bool
    ensures { result ≡ parting u }
{
    matches!(u, BAR | CLOSE | TAIL)
}

// A dot or a plain unit, written with one unit.
fn unescaped(u: u16) -> Option<(Atom, usize)>
    ensures { result ≡ plainly u }
{
    match u {
        DOT => Some((Atom::Any, 1)),
        _ if special(u) => None,
        _ => Some((Atom::Plain(u), 1)),
    }
}

// A special unit behind its escape, together two units.
fn behind_escape(u: u16) -> Option<(Atom, usize)>
    ensures { result ≡ (if is_special u then Some (Plain u, 2) else None) }
{
    special(u).then_some((Atom::Plain(u), 2))
}

// The atom for one unit of text that stands at the place, and how many units it is written with.
pub fn simple(s: &[u8], at: usize) -> Option<(Atom, usize)>
    ensures { result ≡ simple_at (drop at (units s.now)) }
{
    match unit_at(s, at)? {
        ESCAPE => behind_escape(unit_at(s, at + 1)?),
        u => unescaped(u),
    }
}
