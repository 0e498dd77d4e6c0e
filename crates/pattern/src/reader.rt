// The reader of a pattern: a choice holds sequences, a sequence holds items, and an item may hold a choice.
// Each call goes one step down of the brackets that may still be opened, and each loop on through the units.
// What is read is joined at once into the sets of an automaton; no tree is built.
ghost use Rattle.std.specs.Prelude.{◌≡◌, ℕ, ◌+◌, ◌^◌, ◌<◌, ◌≤◌, [], ◌∷◌, ◌++◌, length, take, drop};
ghost use Rattle.units.specs.Units.{units};
ghost use Rattle.automaton.specs.Places.{atoms, follows};
ghost use Rattle.pattern.specs.Grammar.{choice as Choice, sequence as Sequence, item as Item, atom as Atomic};
ghost use Rattle.pattern.specs.Parts.{piece, Either, Both, Single, Grown};
ghost use Rattle.pattern.specs.Signs.{begins, stops as stops_at};

use super::signs::*;
use automaton::{Atom, Place, has};
use units::unit_at;

// A part that was read: where its runs begin and end, and whether the empty run belongs.
#[derive(Clone, Copy)]
pub struct Part {
    pub first: u64,
    pub last: u64,
    pub null: bool,
}

// Reads a pattern, from `at` on: each atom for one unit takes the next of the places, of which `count` are in use.
// It counts on to where it stands, since what holds of a part names where the part begins and ends; of the units that
// are left, each part would have to work its places out again.
// The places stand in an array, as in the automaton, and not in an ArrayVec, which would only be copied there.
#[derive(Drop)]
pub struct Reader<'a> {
    pub pattern: &'a [u8],
    pub at: usize,
    pub count: usize,
    pub places: [Place; 60],
    ghost inside: { at ≤ length (units pattern.now) },
    ghost room: { count ≤ 60 },
}

// From each place of the first set one may go on to each of the second.
fn link(places: &mut [Place; 60], from: u64, to: u64)
    ensures kept { atoms places.new ≡ atoms places.old }
    ensures leads { Grown (follows places.old) (follows places.new) ((from, to) ∷ []) }
{
    for (p, place) in places.iter_mut().enumerate() {
        if has(from, p) {
            *place = Place::new(place.atom, place.follow() | to);
        }
    }
}

// What the place n takes.
fn put(places: &mut [Place; 60], n: usize, a: Atom)
    requires { n < 60 }
    ensures kept { follows places.new ≡ follows places.old }
    ensures takes { take (n + 1) (atoms places.new) ≡ take n (atoms places.old) ++ a ∷ [] }
{
    places[n].atom = a;
}

impl Part {
    // A choice of two parts, wherever they stand.
    fn either(self, b: Part) -> Part
        ensures { (at next to behind : ℕ) → Either (piece at next self) (piece to behind b) (piece to behind result) }
    {
        Part {
            first: self.first | b.first,
            last: self.last | b.last,
            null: self.null || b.null,
        }
    }

    // One part behind the other.
    fn both(self, b: Part) -> Part
        ensures { (at next to behind : ℕ) → Both (piece at next self) (piece to behind b) (piece to behind result) }
    {
        let begun = if self.null { b.first } else { 0 };
        let ended = if b.null { self.last } else { 0 };
        Part {
            first: self.first | begun,
            last: b.last | ended,
            null: self.null && b.null,
        }
    }

    // An atom at the place n, whatever it is written with.
    fn single(n: usize) -> Part
        requires { n < 60 }
        ensures { (at units : ℕ) → Single at units n (piece (at + units) (n + 1) result) }
    {
        Part {
            first: 1 << n,
            last: 1 << n,
            null: false,
        }
    }
}

// Each of choice, sequence, item and atom reads what stands at `at`, and may open `depth` brackets more. None says that
// no such part stands there within the limits.
impl Reader<'_> {
    ghost use Rattle.pattern.specs.Reading.{Outcome};

    // Does this unit stand next?
    fn stands(&self, u: u16) -> bool
        ensures { result ≡ begins u (drop self.now.at (units self.now.pattern.now)) }
    {
        unit_at(self.pattern, self.at) == Some(u)
    }

    // Does a sequence end here: at the end, a bar, a closing bracket or the closing anchor?
    fn stops(&self) -> bool
        ensures { result ≡ stops_at (drop self.now.at (units self.now.pattern.now)) }
    {
        unit_at(self.pattern, self.at).is_none_or(parts)
    }

    #[cycle(atom_choice_item_sequence)]
    #[tactic(auto, using(crate::proofs::Looks::half))]
    pub fn choice(&mut self, depth: usize) -> Option<Part>
        ensures { Outcome Choice depth self.old self.new result }
    {
        let mut a = self.sequence(depth)?;
        while self.stands(BAR) {
            self.at += 1;
            let b = self.sequence(depth)?;
            a = a.either(b);
        }
        Some(a)
    }

    #[cycle(atom_choice_item_sequence)]
    fn sequence(&mut self, depth: usize) -> Option<Part>
        ensures { Outcome Sequence depth self.old self.new result }
    {
        let mut a = Part {
            first: 0,
            last: 0,
            null: true,
        };
        while !self.stops() {
            let b = self.item(depth)?;
            link(&mut self.places, a.last, b.first);
            a = a.both(b);
        }
        Some(a)
    }

    #[cycle(atom_choice_item_sequence)]
    #[tactic(auto, using(crate::proofs::Looks::half))]
    fn item(&mut self, depth: usize) -> Option<Part>
        ensures { Outcome Item depth self.old self.new result }
    {
        let a = self.atom(depth)?;
        if self.stands(STAR) {
            self.at += 1;
            link(&mut self.places, a.last, a.first);
            return Some(Part { null: true, ..a });
        }
        if self.stands(PLUS) {
            self.at += 1;
            link(&mut self.places, a.last, a.first);
            return Some(a);
        }
        if self.stands(QUERY) {
            self.at += 1;
            return Some(Part { null: true, ..a });
        }
        Some(a)
    }

    #[cycle(atom_choice_item_sequence)]
    #[tactic(auto, using(crate::proofs::Looks::half))]
    fn atom(&mut self, depth: usize) -> Option<Part>
        ensures { Outcome Atomic depth self.old self.new result }
    {
        if self.stands(OPEN) {
            let deeper = depth.checked_sub(1)?;
            self.at += 1;
            let inner = self.choice(deeper)?;
            if self.stands(CLOSE) {
                self.at += 1;
                return Some(inner);
            }
            return None;
        }
        let n = self.count;
        if n >= 60 {
            return None;
        }
        let (a, units) = simple(self.pattern, self.at)?;
        put(&mut self.places, n, a);
        self.at += units;
        self.count += 1;
        Some(Part::single(n))
    }
}
