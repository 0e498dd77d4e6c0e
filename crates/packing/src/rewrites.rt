// An accepted packet written again from its claims.
ghost use Rattle.std.specs.Prelude.{◌≡◌, true, length, IfOk};

use packet::Packet;
use std::alloc::{AllocError, Global};
use writer::rewrite;

// Are the bytes of the packet, written into a buffer of their length, the same again?
fn is_same_in(packet: &Packet, out: &mut [u8]) -> bool
    requires { length out.old ≡ length packet.now.bytes.now }
    ensures { result ≡ true }
{
    rewrite(packet, out).is_ok() && &*out == packet.bytes()
}

// Writes the packet again and compares: true of every accepted packet.
pub fn is_written_back(heap: Global, packet: &Packet) -> Result<bool, AllocError>
    ensures { IfOk result (λ same. same ≡ true) }
{
    let mut out = vec![in heap; 0u8; packet.bytes().len()]?;
    Ok(is_same_in(packet, out.as_mut_slice()))
}
