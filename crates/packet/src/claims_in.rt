// The claims of a packet, one after the other, and the first fault among them.
ghost use Rattle.std.specs.Prelude.{◌≡◌, drop, IfOk};
ghost use Rattle.std.specs.Iterator.{YieldsFirst, item_count};
ghost use Rattle.packet.specs.Held.{held_value, held_claim, meant, past as past_claim, InsideValue, InsideClaim, ClaimLies};
ghost use Rattle.packet.specs.Judge.{well_formed_value, well_formed_claim, one_claim_in, walk, judge, counted};
ghost use Rattle.packet.specs.Turns.{turns};

use super::fields::{Bytes, past_text};
use claims::{Claim, Value, value_type};
use faults::{Cause, Fault};
use units::is_well_formed;

const MAX_CLAIMS: u16 = 256;

// The claims of a packet, one after the other, and where one is at fault, the fault as the last.
// Where a claim begins depends on the one before it, so a place is kept and no index is counted.
#[derive(Drop)]
pub struct Walk<'a> {
    packet: Bytes<'a>,
    at: usize,
    left: u16,
}

// The place behind a claim.
pub fn past(claim: Claim) -> usize
    ensures { result ≡ past_claim claim }
{
    match claim.value {
        Value::Uint64(_) | Value::Int64(_) => past_text(claim.word) + 8,
        Value::String(t) => past_text(t),
        Value::Boolean(_) => past_text(claim.word) + 1,
    }
}

impl<'a> Bytes<'a> {
    fn holds_value(&self, value: Value) -> bool
        requires { InsideValue self.now.bytes.now value }
        ensures { result ≡ well_formed_value (held_value self.now.bytes.now value) }
    {
        match value {
            Value::String(t) => is_well_formed(self.part(t)),
            Value::Uint64(_) | Value::Int64(_) | Value::Boolean(_) => true,
        }
    }

    // Are all texts of the claim well formed?
    fn holds_claim(&self, claim: Claim) -> bool
        requires { InsideClaim self.now.bytes.now claim }
        ensures { result ≡ well_formed_claim (held_claim self.now.bytes.now claim) }
    {
        is_well_formed(self.part(claim.typ))
            && is_well_formed(self.part(claim.word))
            && self.holds_value(claim.value)
    }

    // The claim whose first byte is at `at`, or the cause of its first fault.
    pub fn claim_at(&self, at: usize) -> Result<Claim, Cause>
        ensures means { meant (held_claim self.now.bytes.now) result ≡ one_claim_in (drop at self.now.bytes.now) }
        ensures lies { IfOk result (λ c. ClaimLies self.now.bytes.now at c) }
    {
        let typ = self.text_at(at)?;
        let word = self.text_at(past_text(typ))?;
        let kind = value_type(self.part(word)).ok_or(Cause::UnknownValueType)?;
        let value = self.value_at(past_text(word), kind)?;
        let claim = Claim { typ, word, value };
        if !self.holds_claim(claim) {
            return Err(Cause::IllFormedText);
        }
        Ok(claim)
    }

    // The claims behind the head.
    pub fn claims(&self) -> Walk<'a>
        ensures { turns result.left result.at (drop result.at result.packet.bytes.now) ≡ turns 256 3 (drop 3 self.now.bytes.now) }
    {
        Walk {
            packet: *self,
            at: 3,
            left: MAX_CLAIMS,
        }
    }

    // The count of the claims behind the head, or their first fault.
    fn check_claims(&self) -> Result<u16, Fault>
        ensures { result ≡ counted 0 (walk 256 3 (drop 3 self.now.bytes.now)) }
    {
        let mut count = 0;
        for claim in self.claims() {
            claim?;
            count += 1;
        }
        Ok(count)
    }
}

impl Iterator for Walk<'_> {
    type Item = Result<Claim, Fault>;

    ghost next_gives = { YieldsFirst (λ w. turns w.left w.at (drop w.at w.packet.bytes.now)) };

    ghost remaining = { item_count (λ w. turns w.left w.at (drop w.at w.packet.bytes.now)) };

    fn next(&mut self) -> Option<Result<Claim, Fault>> {
        let at = self.at;
        let end = self.packet.bytes.len();
        if at >= end {
            return None;
        }
        // After a fault nothing more comes.
        self.at = end;
        if self.left == 0 {
            return Some(Err(Fault::at(Cause::TooManyClaims, at as u16)));
        }
        // By cases: one arm goes on, the other is the last.
        match self.packet.claim_at(at) {
            Ok(claim) => {
                self.at = past(claim);
                self.left -= 1;
                Some(Ok(claim))
            }
            Err(cause) => Some(Err(Fault::at(cause, at as u16))),
        }
    }
}

// The count of the claims, or the first fault of the whole packet.
pub fn judged(bytes: &[u8]) -> Result<u16, Fault>
    ensures { result ≡ counted 0 (judge bytes.now) }
{
    let [1, high, low, body @ ..] = bytes else {
        return Err(Fault::at(Cause::NotAPacket, 0));
    };
    let declared = usize::from(u16::from_be_bytes([*high, *low]));
    if declared > 32765 || declared != body.len() {
        return Err(Fault::at(Cause::LengthMismatch, 1));
    }
    Bytes { bytes }.check_claims()
}
