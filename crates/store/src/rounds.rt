// What whoever works over any store relies on, in small: a claim put to it is read back, and a cut takes it away again.
ghost use Rattle.std.specs.Prelude.{◌≡◌};
ghost use Rattle.store.specs.Rounds.{Round};

use super::stores::Store;
use claims::{Claim, Source};
use faults::Fault;

// Puts a claim to the store, reads it back and cuts to the floor. A refusal leaves the store as it was.
pub fn append_read_cut<S: Store>(store: &mut S, claim: Claim) -> Result<Option<Claim>, Fault>
    ensures { Round (S.Store.floor_of store.old) (S.Store.cap_of store.old) (S.Source.list store.old) claim (S.Source.list store.new) (store.new ≡ store.old) result }
{
    let floor = store.floor();
    let at = store.count();
    store.append(claim)?;
    let back = store.claim_at(at);
    store.cut(floor)?;
    Ok(back)
}
