// A whole packet: judged first, and then written.
ghost use Rattle.std.specs.Prelude.{◌≡◌, ◌≤◌, length};
ghost use Rattle.packet.specs.Format.{head_of};
ghost use Rattle.writer.specs.Rewriting.{Rewrote};
ghost use Rattle.writer.specs.Writing.{written, Wrote};

use super::bodies::{body_size, write_body};
use claims::{Source, Texts};
use faults::{Cause, Fault};
use packet::Packet;

// The version, and the length of what follows.
fn write_head(out: &mut [u8], n: usize)
    requires room { 3 ≤ length out.old }
    requires short { n ≤ 32765 }
    ensures { out.new ≡ written out.old 0 (head_of n) }
{
    out[0] = 1;
    out[1..3].copy_from_slice(&(n as u16).to_be_bytes());
}

// The claims of a source as a packet at the front of the buffer; answers the packet's length.
pub fn write<S: Source>(source: &S, texts: &Texts, out: &mut [u8]) -> Result<usize, Fault>
    ensures { Wrote texts.now.rules.now texts.now.packet.now (S.Source.list source.now) out.old out.new result }
{
    let size = body_size(source, texts).ok_or(Fault::at(Cause::UncarriableClaim, 0))?;
    if source.count() > 256 || size > 32765 {
        return Err(Fault::at(Cause::PacketTooLarge, 0));
    }
    if out.len() < 3 + size {
        return Err(Fault::at(Cause::BufferTooShort, 0));
    }
    write_head(out, size);
    write_body(source, texts, out);
    Ok(3 + size)
}

// The bytes are a parameter, since a clause can speak of a parameter and not of what a call in the body gives.
fn write_back(packet: &Packet, bytes: &[u8], out: &mut [u8]) -> Result<usize, Fault>
    requires { bytes.now ≡ packet.now.bytes.now }
    ensures { Rewrote bytes.now out.old out.new result }
{
    let texts = Texts {
        rules: b"",
        packet: bytes,
    };
    write(packet, &texts, out)
}

// An accepted packet, written again from its claims: the same bytes.
pub fn rewrite(packet: &Packet, out: &mut [u8]) -> Result<usize, Fault>
    ensures { Rewrote packet.now.bytes.now out.old out.new result }
{
    write_back(packet, packet.bytes(), out)
}
