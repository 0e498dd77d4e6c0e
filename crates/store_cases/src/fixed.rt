// A store that needs no buffer: at most eight records, the first of which stays.
ghost use Rattle.std.specs.Prelude.{◌≤◌};
ghost use Rattle.arrayvec.specs.ArrayVec.{array_vec_len};

use arrayvec::ArrayVec;
use claims::Claim;

mod calls;

#[derive(Drop)]
pub struct Fixed {
    held: ArrayVec<Claim, 8>,
    ghost some: { 1 ≤ array_vec_len held },
    ghost fits: { array_vec_len held ≤ 8 },
}
