// The calls of a store of eight records: floor 1, capacity 8.
ghost use Rattle.std.specs.Prelude.{◌≡◌, [], ◌∷◌};
ghost use Rattle.store_cases.specs.Fixeds.{list_of};

use super::Fixed;
use arrayvec::ArrayVec;
use claims::{Claim, Source};
use faults::{Cause, Fault};
use store::Store;

impl Fixed {
    // The store that holds the claim that stays, and no other.
    pub fn new(claim: Claim) -> Fixed
        ensures { list_of result ≡ claim ∷ [] }
    {
        let mut held = ArrayVec::new();
        held.push(claim);
        Fixed { held }
    }
}

impl Source for Fixed {
    ghost list = { λ f. list_of f };

    fn count(&self) -> usize {
        self.held.len()
    }

    fn claim_at(&self, n: usize) -> Option<Claim> {
        self.held.as_slice().get(n).copied()
    }
}

impl Store for Fixed {
    ghost floor_of = { λ _. 1 };

    ghost cap_of = { λ _. 8 };

    fn floor(&self) -> usize {
        1
    }

    fn append(&mut self, claim: Claim) -> Result<(), Fault> {
        if self.held.is_full() {
            return Err(Fault::at(Cause::StoreFull, 0));
        }
        self.held.push(claim);
        Ok(())
    }

    fn cut(&mut self, n: usize) -> Result<(), Fault> {
        if n < 1 || n > self.held.len() {
            return Err(Fault::at(Cause::CutOutside, 0));
        }
        self.held.truncate(n);
        Ok(())
    }
}
