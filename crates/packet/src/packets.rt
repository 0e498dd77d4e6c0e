// A checked packet: its bytes, and how many claims they carry; a source of claims, with places in the packet.
ghost use Rattle.std.specs.Prelude.{◌≡◌, [], ◌∷◌, true, length, is_ok, IfOk};
ghost use Rattle.packet.specs.Exact.{Exact, fault_in, fault_of};
ghost use Rattle.packet.specs.Judge.{judge, claims_in};
ghost use Rattle.packet.specs.Records.{records_in};

use super::claims_in::judged;
use super::fields::Bytes;
use claims::{Claim, Source};
use faults::Fault;

// Only a check makes one, and `empty`: whoever holds it holds bytes that were accepted.
#[derive(Clone, Copy)]
pub struct Packet<'a> {
    bytes: &'a [u8],
    count: u16,
    ghost accepted: { is_ok (judge bytes.now) ≡ true },
    ghost counted: { count ≡ length (claims_in (judge bytes.now)) },
}

impl<'a> Packet<'a> {
    // The packet that carries no claim: what to go on with where bytes were refused.
    pub fn empty() -> Packet<'a>
        ensures { result.bytes.now ≡ 1 ∷ 0 ∷ 0 ∷ [] }
    {
        Packet {
            bytes: b"\x01\x00\x00",
            count: 0,
        }
    }

    // The bytes that were checked.
    pub fn bytes(&self) -> &'a [u8]
        ensures { result.now ≡ self.now.bytes.now }
    {
        self.bytes
    }
}

// The bytes as a packet, or the first fault that keeps them from being one.
pub fn check(bytes: &[u8]) -> Result<Packet<'_>, Fault>
    ensures fault { fault_of result ≡ fault_in (judge bytes.now) }
    ensures packet { IfOk result (λ p. p.bytes.now ≡ bytes.now) }
    ensures exact { Exact bytes.now (fault_of result) }
{
    let count = judged(bytes)?;
    Ok(Packet { bytes, count })
}

impl Source for Packet<'_> {
    ghost list = { λ p. records_in p.bytes.now };

    fn count(&self) -> usize {
        usize::from(self.count)
    }

    fn claim_at(&self, n: usize) -> Option<Claim> {
        Bytes { bytes: self.bytes }.claims().nth(n)?.ok()
    }
}
