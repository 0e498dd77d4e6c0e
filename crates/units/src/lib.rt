// UTF-16 text in bytes, high byte first: its units, whether it is well formed, and when two texts are equal.
// A text is a list of units; the bytes of a text are a slice, of which a last odd byte is no unit.
// Every function answers by that list alone.
#![tactic(auto)]

ghost use Rattle.std.specs.Prelude.{◌≡◌, ◌<◌, IsTrue, length, take, drop, slice_index};
ghost use Rattle.std.specs.List.{slice_get};
ghost use Rattle.std.specs.Iterator.{YieldsFirst, item_count};
ghost use Rattle.units.specs.Fold.{fold_unit, FoldAlike, FoldAlikeAt, Same};
ghost use Rattle.units.specs.Form.{ill, first_ill, well_formed, FirstIll};
ghost use Rattle.units.specs.Units.{units};

// The units of a text, one after the other.
#[derive(Clone, Copy)]
pub struct Units<'a> {
    rest: &'a [u8],
}

impl<'a> Units<'a> {
    pub fn of(text: &'a [u8]) -> Units<'a>
        ensures { units result.rest.now ≡ units text.now }
    {
        Units { rest: text }
    }
}

impl Iterator for Units<'_> {
    type Item = u16;

    ghost next_gives = { YieldsFirst (λ s. units s.rest.now) };

    ghost remaining = { item_count (λ s. units s.rest.now) };

    fn next(&mut self) -> Option<u16> {
        let [high, low, rest @ ..] = self.rest else {
            return None;
        };
        let unit = u16::from_be_bytes([*high, *low]);
        self.rest = rest;
        Some(unit)
    }
}

// How many units the bytes hold.
pub fn count(text: &[u8]) -> usize
    ensures { result ≡ length (units text.now) }
{
    text.len() / 2
}

// The unit of a number below the count.
pub fn unit(text: &[u8], i: usize) -> u16
    requires { i < length (units text.now) }
    ensures { result ≡ slice_index (units text.now) i }
{
    u16::from_be_bytes([text[2 * i], text[2 * i + 1]])
}

// The unit of a number from 0, or none past the end.
pub fn unit_at(text: &[u8], i: usize) -> Option<u16>
    ensures { result ≡ slice_get (units text.now) i }
{
    (i < count(text)).then(|| unit(text, i))
}

// The unit of a number, or 0000 past the end.
pub fn unit_or_zero(text: &[u8], i: usize) -> u16
    ensures { result ≡ slice_index (units text.now) i }
{
    unit_at(text, i).unwrap_or(0)
}

// Up to so many units from a place on: fewer where the text ends before.
pub fn run_of(text: &[u8], from: usize, len: u16) -> &[u8]
    ensures { units result.now ≡ take len (drop from (units text.now)) }
{
    let bytes = text.len();
    let count = bytes / 2;
    let from = from.min(count);
    let to = (from + usize::from(len)).min(count);
    &text[2 * from..2 * to]
}

// The unit at `next` is read where the unit before it opens a pair, and nowhere else.
fn is_ill(before: u16, u: u16, text: &[u8], next: usize) -> bool
    ensures { result ≡ ill before u (slice_index (units text.now) next) }
{
    match u {
        0 => true,
        0xD800..=0xDBFF => {
            let after = unit_or_zero(text, next);
            after < 0xDC00 || after > 0xDFFF
        }
        0xDC00..=0xDFFF => before < 0xD800 || before > 0xDBFF,
        _ => false,
    }
}

// The place of the first unit that is 0000 or a surrogate without its other half, if there is one.
pub fn first_ill_formed(text: &[u8]) -> Option<usize>
    ensures value { result ≡ first_ill 0 0 (units text.now) }
    ensures first { FirstIll (units text.now) result }
{
    let mut before = 0;
    for (i, u) in Units::of(text).enumerate() {
        if is_ill(before, u, text, i + 1) {
            return Some(i);
        }
        before = u;
    }
    None
}

// No unit is 0000 and no surrogate is without its other half.
pub fn is_well_formed(text: &[u8]) -> bool
    ensures { result ≡ well_formed (units text.now) }
{
    first_ill_formed(text).is_none()
}

// 0041–005A to 0061–007A, every other unit to itself.
pub fn fold(u: u16) -> u16
    ensures { result ≡ fold_unit u }
{
    if u >= 0x41 && u <= 0x5A { u + 0x20 } else { u }
}

// Are the two texts equal: as many units, folding alike?
pub fn same(a: &[u8], b: &[u8]) -> bool
    ensures { Same (units a.now) (units b.now) result }
{
    folds_alike(a, b)
}

// What the chain proves: each place of its own. That the lists are then alike is proved above it.
// A chain reads to the first difference, so texts of other lengths are told apart before it.
fn folds_alike(a: &[u8], b: &[u8]) -> bool
    ensures alike { IsTrue result → FoldAlike (units a.now) (units b.now) }
    ensures unlike { length (units a.now) ≡ length (units b.now) → FoldAlikeAt (units a.now) (units b.now) → IsTrue result }
{
    count(a) == count(b) && Units::of(a).map(fold).eq(Units::of(b).map(fold))
}

// Does the text spell the name, one byte to a unit, in any case?
pub fn spells(text: &[u8], name: &[u8]) -> bool
    ensures { Same (units text.now) name.now result }
{
    if count(text) != name.len() {
        return false;
    }
    for (i, letter) in name.iter().enumerate() {
        if fold(unit(text, i)) != fold(u16::from(*letter)) {
            return false;
        }
    }
    true
}
