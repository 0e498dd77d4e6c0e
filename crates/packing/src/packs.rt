// The packet of a claims list.
ghost use Rattle.std.specs.Prelude.{◌≡◌, ◌≤◌, true, length, take, is_ok, IfOk};
ghost use Rattle.packet.specs.Judge.{judge};
ghost use Rattle.packing.specs.Errors.{of_list};
ghost use Rattle.packing.specs.declared.packs.PackError.TheVariants.{Memory, Refused};

use claims::{Listed, Texts};
use faults::Fault;
use listing::{ClaimsList, ListError, Misplaced, read};
use std::alloc::{AllocError, Global};
use writer::write;

// A packet has at most so many bytes.
const LARGEST: usize = 32768;

// Why a list became no packet.
#[derive(Clone, Copy, PartialEq, Eq, Debug)]
pub enum PackError {
    Memory,
    Line(Misplaced),
    Refused(Fault),
}

// These three are by hand: each says what it gives, and what a derive of thiserror's writes has no contract.
impl From<AllocError> for PackError {
    ghost from_gives = { λ _ e. e ≡ Memory };

    fn from(_e: AllocError) -> PackError {
        PackError::Memory
    }
}

impl From<ListError> for PackError {
    ghost from_gives = { λ e r. r ≡ of_list e };

    fn from(e: ListError) -> PackError {
        match e {
            ListError::Memory => PackError::Memory,
            ListError::Line(found) => PackError::Line(found),
        }
    }
}

impl From<Fault> for PackError {
    ghost from_gives = { λ fault e. e ≡ Refused fault };

    fn from(fault: Fault) -> PackError {
        PackError::Refused(fault)
    }
}

// The packet of the records at the front of a buffer; answers its length.
fn pack_into(list: &ClaimsList, out: &mut [u8]) -> Result<usize, Fault>
    ensures within { IfOk result (λ n. n ≤ length out.old) }
    ensures accepted { IfOk result (λ n. is_ok (judge (take n out.new)) ≡ true) }
{
    let texts = Texts {
        rules: list.text(),
        packet: b"",
    };
    write(&Listed::over(list.claims()), &texts, out)
}

// The packet of a claims list: bytes that a check accepts.
pub fn pack(heap: Global, list: &[u8]) -> Result<Vec<u8>, PackError>
    ensures { IfOk result (λ v. is_ok (judge v.items) ≡ true) }
{
    let list = read(heap, list)?;
    // The writer writes into memory that it is lent, so the vector is made full, and cut to what was written.
    let mut packet = vec![in heap; 0u8; LARGEST]?;
    let size = pack_into(&list, packet.as_mut_slice())?;
    packet.truncate(size);
    Ok(packet)
}
