// What a store is: a source with a floor and a capacity, to which claims can be put and from which they can be cut.
ghost use Rattle.std.specs.Prelude.{◌≡◌, ℕ};
ghost use Rattle.store.specs.Bounds.{Bounds, Kept};
ghost use Rattle.store.specs.Calls.{Appended, Cut};

use claims::{Claim, Source};
use faults::Fault;

// The most claims that any store holds.
pub const MOST: usize = 512;

// Floor and capacity never change, and the list's length stays between them. A refusal leaves the whole value as it was.
// The bounds are said at each call, and not once as a law of the trait: the checker refuses a law where an implementation
// has a lifetime, as the table's has.
pub trait Store: Source {
    ghost floor_of: { Self → ℕ };

    ghost cap_of: { Self → ℕ };

    fn floor(&self) -> usize
        ensures value { result ≡ floor_of self.now }
        ensures bounds { Bounds (floor_of self.now) (Self.Source.list self.now) (cap_of self.now) }
        ensures same { self.exit.now ≡ self.entry.now };

    // One claim at the end; refused exactly where the list is as long as the capacity.
    fn append(&mut self, claim: Claim) -> Result<(), Fault>
        ensures cases { Appended (Self.Source.list self.old) (cap_of self.old) claim (Self.Source.list self.new) (self.new ≡ self.old) result }
        ensures bounds { Bounds (floor_of self.new) (Self.Source.list self.new) (cap_of self.new) }
        ensures kept { Kept (floor_of self.old) (cap_of self.old) (floor_of self.new) (cap_of self.new) };

    // The first n claims stay; refused exactly where n lies outside floor to length.
    fn cut(&mut self, n: usize) -> Result<(), Fault>
        ensures cases { Cut (floor_of self.old) (Self.Source.list self.old) n (Self.Source.list self.new) (self.new ≡ self.old) result }
        ensures bounds { Bounds (floor_of self.new) (Self.Source.list self.new) (cap_of self.new) }
        ensures kept { Kept (floor_of self.old) (cap_of self.old) (floor_of self.new) (cap_of self.new) };
}
