// The calls of a table: floor 0, and as much capacity as the buffer gives.
ghost use Rattle.std.specs.Prelude.{◌≡◌, min, [], length};
ghost use Rattle.store.specs.Tables.{list_in, floor_in, capacity_in};

use super::Table;
use crate::stores::{MOST, Store};
use claims::{Claim, Source};
use faults::{Cause, Fault};
use list::List;

impl<'a> Table<'a> {
    // The empty table over the buffer.
    pub fn new(buffer: &'a mut [Claim]) -> Table<'a>
        ensures empty { list_in result ≡ [] }
        ensures floor { floor_in result ≡ 0 }
        ensures space { capacity_in result ≡ min (length buffer.old) 512 }
    {
        let room = buffer.len().min(MOST);
        Table {
            held: List::new(&mut buffer[..room]),
        }
    }
}

impl Source for Table<'_> {
    ghost list = { λ t. list_in t };

    fn count(&self) -> usize {
        self.held.len()
    }

    fn claim_at(&self, n: usize) -> Option<Claim> {
        self.held.get(n)
    }
}

impl Store for Table<'_> {
    ghost floor_of = { λ t. floor_in t };

    ghost cap_of = { λ t. capacity_in t };

    fn floor(&self) -> usize {
        0
    }

    fn append(&mut self, claim: Claim) -> Result<(), Fault> {
        self.held
            .push(claim)
            .map_err(|_| Fault::at(Cause::StoreFull, 0))
    }

    fn cut(&mut self, n: usize) -> Result<(), Fault> {
        self.held
            .cut(n)
            .map_err(|_| Fault::at(Cause::CutOutside, 0))
    }
}
