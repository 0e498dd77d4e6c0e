// The table: a store in a lent buffer of records.
ghost use Rattle.std.specs.Prelude.{◌≤◌};
ghost use Rattle.list.specs.Held.{room};

use claims::Claim;
use list::List;

mod calls;

// Of a longer buffer the first 512 records are used.
#[derive(Drop)]
pub struct Table<'a> {
    held: List<'a, Claim>,
    ghost few: { room held ≤ 512 },
}
