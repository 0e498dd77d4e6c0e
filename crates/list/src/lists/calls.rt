// What a list is asked and told.
ghost use Rattle.std.specs.Prelude.{◌≡◌, ◌<◌, ◌≤◌, ◌↔◌, [], ◌∷◌, ◌++◌, length, take, replicate, slice_get, slice_set, IsOk, OnOk, OnErr};
ghost use Rattle.list.specs.Held.{items, room};

use super::{Full, List, TooFew};

impl<'a, T: Copy> List<'a, T> {
    // The empty list over the slots.
    pub fn new(slots: &'a mut [T]) -> List<'a, T>
        ensures empty { items result ≡ [] }
        ensures space { room result ≡ length slots.old }
    {
        List { slots, len: 0 }
    }

    pub fn capacity(&self) -> usize
        ensures { result ≡ room self.now }
    {
        self.slots.len()
    }

    pub fn len(&self) -> usize
        ensures value { result ≡ length (items self.now) }
        ensures bound { result ≤ room self.now }
        ensures front { take result self.now.slots.now ≡ items self.now }
    {
        self.as_slice().len()
    }

    // The items.
    pub fn as_slice(&self) -> &[T]
        ensures value { result.now ≡ items self.now }
        ensures bound { length result.now ≤ room self.now }
    {
        &self.slots[..self.len]
    }

    // The item of a number from 0, or none past the end.
    pub fn get(&self, n: usize) -> Option<T>
        ensures { result ≡ slice_get (items self.now) n }
    {
        self.as_slice().get(n).copied()
    }

    // One item at the end. A refusal leaves the list as it was.
    pub fn push(&mut self, x: T) -> Result<(), Full>
        ensures variant { IsOk result ↔ (length (items self.old) < room self.old) }
        ensures after { OnOk result (items self.new ≡ items self.old ++ x ∷ []) }
        ensures slots { OnOk result (self.new.slots.now ≡ slice_set self.old.slots.now (length (items self.old)) x) }
        ensures space { room self.new ≡ room self.old }
        ensures refused { OnErr result (self.new ≡ self.old) }
    {
        if self.len == self.slots.len() {
            return Err(Full);
        }
        self.slots[self.len] = x;
        self.len += 1;
        Ok(())
    }

    // The first n items stay. A refusal leaves the list as it was.
    pub fn cut(&mut self, n: usize) -> Result<(), TooFew>
        ensures variant { IsOk result ↔ (n ≤ length (items self.old)) }
        ensures after { OnOk result (items self.new ≡ take n (items self.old)) }
        ensures slots { self.new.slots.now ≡ self.old.slots.now }
        ensures refused { OnErr result (self.new ≡ self.old) }
    {
        if n > self.len {
            return Err(TooFew);
        }
        self.len = n;
        Ok(())
    }

    // No item, and every slot x.
    pub fn blank(&mut self, x: T)
        ensures empty { items self.new ≡ [] }
        ensures slots { self.new.slots.now ≡ replicate (room self.old) x }
    {
        // The library's `fill` asks that a clone of x cannot fail, which `T: Copy` does not promise.
        for s in self.slots.iter_mut() {
            *s = x;
        }
        self.len = 0;
    }

    // The slots, whole, to be read only from here on.
    pub fn into_slots(self) -> &'a [T]
        ensures { result.now ≡ self.entry.slots.now }
    {
        let slots = self.slots;
        slots
    }
}
