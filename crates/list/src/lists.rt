// The list, and why a call of it is refused.
ghost use Rattle.std.specs.Prelude.{◌≤◌, length};

mod calls;

#[derive(Drop)]
pub struct List<'a, T> {
    slots: &'a mut [T],
    // A length beside its buffer, and no `ArrayVec`: with no heap, whoever calls lends the slots and has them back whole.
    len: usize,
    ghost fits: { len ≤ length slots.now },
}

// No slot is left for an item.
#[derive(Clone, Copy, PartialEq, Eq, Debug)]
pub struct Full;

// There are fewer items than should stay.
#[derive(Clone, Copy, PartialEq, Eq, Debug)]
pub struct TooFew;
