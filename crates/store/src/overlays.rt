// The overlay: the claims of any source, which stay, and up to 128 more behind them.
ghost use Rattle.std.specs.Prelude.{◌≡◌, ◌+◌, ◌≤◌, min, length};
ghost use Rattle.store.specs.Owned.{owned};
ghost use Rattle.store.specs.Overlays.{laid_over, floor_over, capacity_over};

use super::stores::{MOST, Store};
use arrayvec::ArrayVec;
use claims::{Claim, Source};
use faults::{Cause, Fault};

// The most claims that an overlay puts behind those of its source.
const OWN: usize = 128;

#[derive(Drop)]
pub struct Overlay<S: Source> {
    base: S,
    own: ArrayVec<Claim, OWN>,
    ghost few: { length (owned own) ≤ 128 },
}

impl<S: Source> Overlay<S> {
    // The overlay that holds the claims of the source and none of its own.
    pub fn over(base: S) -> Overlay<S>
        ensures list { laid_over (S.Source.list result.base) (owned result.own) ≡ S.Source.list base }
        ensures floor { floor_over (S.Source.list result.base) ≡ length (S.Source.list base) }
        ensures space { capacity_over (S.Source.list result.base) ≡ min (length (S.Source.list base) + 128) 512 }
    {
        Overlay {
            base,
            own: ArrayVec::new(),
        }
    }
}

impl<S: Source> Source for Overlay<S> {
    ghost list = { λ o. laid_over (S.Source.list o.base) (owned o.own) };

    fn count(&self) -> usize {
        (self.base.count() + self.own.len()).min(MOST)
    }

    fn claim_at(&self, n: usize) -> Option<Claim> {
        let below = self.base.count();
        if n < below {
            self.base.claim_at(n)
        } else if n < MOST {
            self.own.as_slice().get(n - below).copied()
        } else {
            None
        }
    }
}

impl<S: Source> Store for Overlay<S> {
    ghost floor_of = { λ o. floor_over (S.Source.list o.base) };

    ghost cap_of = { λ o. capacity_over (S.Source.list o.base) };

    #[tactic(auto, using(crate::proofs::Laid::laid_bounds))]
    fn floor(&self) -> usize {
        self.base.count()
    }

    fn append(&mut self, claim: Claim) -> Result<(), Fault> {
        let room = (MOST - self.base.count()).min(OWN);
        if self.own.len() >= room {
            return Err(Fault::at(Cause::StoreFull, 0));
        }
        self.own.push(claim);
        Ok(())
    }

    fn cut(&mut self, n: usize) -> Result<(), Fault> {
        let below = self.base.count();
        if n < below || n > self.count() {
            return Err(Fault::at(Cause::CutOutside, 0));
        }
        self.own.truncate(n - below);
        Ok(())
    }
}
