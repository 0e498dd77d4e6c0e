// A list of at most N items in the value itself: a count, and so many slots, of which the first hold the items.
// It is the project's own and not the library's `ArrayVec`, since that can't be copied: what is read of a rule is a plain
// value, and so are the lists in it.
ghost use Rattle.std.specs.Prelude.{◌≡◌, ◌+◌, ◌<◌, ◌≤◌, [], ◌∷◌, ◌++◌, length, take};
ghost use Rattle.std.specs.Cmp.{on_equiv, on_per};
ghost use Rattle.std.specs.Cmp.Lexicographic.{pointwise, lists_per, lists_equiv};

use std::fmt;
use std::marker::Model;
use std::ops::DerefSlice;

#[derive(Clone, Copy)]
pub struct Few<T, const N: usize> {
    slots: [T; N],
    len: usize,
}

// The slots behind the items are seen too: a type can be copied only where what is seen gives its fields back.
impl<T, const N: usize> Model for Few<T, N> {
    ghost use Rattle.std.specs.Prelude.{◌≡◌, ◌≤◌, ◌++◌, length, take, drop};
    ghost use Rattle.std.proofs.Common.{sym, ap, subst};
    ghost use Rattle.list.specs.Few.{Few as Items, few_code, slots_back};

    ghost Value = { Items T };

    ghost coded = { few_code T.code };

    ghost view = { λ v. record { items = take v.len v.slots; spare = drop v.len v.slots } };

    ghost invariant = { λ v. (v.len ≤ N) × (length v.slots ≡ N) };

    ghost inverse = { λ w. record { slots = w.items ++ w.spare; len = length w.items } };

    ghost inverse_ok = { λ v h. ap (λ p. record { slots = p.0; len = p.1 }) (slots_back v.len v.slots (subst (λ n. v.len ≤ n) (sym h.1) h.0)) };
}

impl<T: Copy + Default, const N: usize> Few<T, N> {
    // No item; each slot holds the default until an item does.
    pub fn new() -> Self
        ensures { result.items ≡ [] }
    {
        Few {
            slots: [T::default(); N],
            len: 0,
        }
    }
}

impl<T: Copy, const N: usize> Few<T, N> {
    // One item more at the end; there must be room for it.
    pub fn push(&mut self, item: T)
        requires { length self.old.items < N }
        ensures items { self.new.items ≡ self.old.items ++ item ∷ [] }
        ensures len { length self.new.items ≡ length self.old.items + 1 }
    {
        let len = self.len;
        self.slots[len] = item;
        self.len = len + 1;
    }

    // The first n items stay, or all where there are fewer; a slot that is let go is not written.
    pub fn truncate(&mut self, n: usize)
        ensures { self.new.items ≡ take n self.old.items }
    {
        self.len = self.len.min(n);
    }
}

impl<T, const N: usize> Few<T, N> {
    // How many items there are.
    pub const fn len(&self) -> usize
        ensures value { result ≡ length self.now.items }
        ensures fits { result ≤ N }
    {
        self.len
    }

    // The items in order.
    pub fn as_slice(&self) -> &[T]
        ensures value { result.now ≡ self.now.items }
        ensures fits { length result.now ≤ N }
    {
        &self.slots[..self.len]
    }
}

impl<T, const N: usize> DerefSlice for Few<T, N> {
    type Elem = T;

    ghost deref_gives = { λ v xs. (xs ≡ v.items) × (length xs ≤ N) };

    fn deref(&self) -> &[T] {
        self.as_slice()
    }
}

impl<T: Copy + Default, const N: usize> Default for Few<T, N> {
    ghost is_default = { λ v. v.items ≡ [] };

    fn default() -> Self {
        Self::new()
    }
}

// By their items: what the slots behind these hold is no part of a list.
impl<T: PartialEq, const N: usize> PartialEq for Few<T, N> {
    ghost eq = { λ v w. pointwise T.eq v.items w.items };

    ghost laws = { on_per (λ v. v.items) (lists_per T.laws) };

    fn eq(&self, other: &Self) -> bool {
        self.as_slice() == other.as_slice()
    }
}

impl<T: Eq, const N: usize> Eq for Few<T, N> {
    ghost laws = { on_equiv (λ v. v.items) (lists_equiv T.Eq.laws) };
}

impl<T: fmt::Debug, const N: usize> fmt::Debug for Few<T, N> {
    fn fmt<W: fmt::Write>(&self, f: &mut fmt::Formatter<W>) -> fmt::Result {
        f.debug_list().entries(self.as_slice()).finish()
    }
}
