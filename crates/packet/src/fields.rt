// One field of a claim at a place of the packet: a text, a number, a boolean.
ghost use Rattle.std.specs.Prelude.{◌≡◌, ◌+◌, ◌≤◌, length, take, drop, Ok, Err, IfOk, nat_le, if◌then◌else◌};
ghost use Rattle.std.specs.Int.Digits.{number_from_digits as number_in};
ghost use Rattle.faults.specs.declared.Cause.TheVariants.{ClaimPastEnd};
ghost use Rattle.packet.specs.Held.{held_part, held_text, held_value, meant, after_text, Lies, ValueLies};
ghost use Rattle.packet.specs.Judge.{need, text_in, boolean_in, value_in};

use claims::{Origin, Text, Value, ValueType};
use faults::Cause;

// The bytes of a packet, few enough that a record can hold each place in them.
#[derive(Clone, Copy)]
pub struct Bytes<'a> {
    pub bytes: &'a [u8],
    ghost short: { length bytes.now ≤ 32768 },
}

// The place behind a text.
pub fn past_text(t: Text) -> usize
    ensures { result ≡ after_text t }
{
    usize::from(t.place) + 2 * usize::from(t.len)
}

impl<'a> Bytes<'a> {
    // The bytes of a text of the packet.
    pub fn part(&self, t: Text) -> &'a [u8]
        requires { after_text t ≤ length self.now.bytes.now }
        ensures { result.now ≡ held_part self.now.bytes.now t }
    {
        let from = usize::from(t.place);
        let to = past_text(t);
        &self.bytes[from..to]
    }

    // The text whose length byte is at `at`.
    pub fn text_at(&self, at: usize) -> Result<Text, Cause>
        ensures means { meant (held_text self.now.bytes.now) result ≡ need (text_in (drop at self.now.bytes.now)) ClaimPastEnd (λ us. Ok us) }
        ensures lies { IfOk result (λ t. Lies self.now.bytes.now at t) }
    {
        let n = self.bytes.get(at).ok_or(Cause::ClaimPastEnd)?;
        let len = u16::from(*n);
        if self.bytes.len() < at + 1 + 2 * usize::from(len) {
            return Err(Cause::ClaimPastEnd);
        }
        Ok(Text {
            origin: Origin::Packet,
            place: (at + 1) as u16,
            len,
        })
    }

    // The number that eight bytes write, high byte first.
    fn number_at(&self, at: usize) -> Result<u64, Cause>
        requires { at ≤ length self.now.bytes.now }
        ensures value { result ≡ (if nat_le 8 (length (drop at self.now.bytes.now)) then Ok (number_in 256 (take 8 (drop at self.now.bytes.now))) else Err ClaimPastEnd) }
        ensures inside { IfOk result (λ _. at + 8 ≤ length self.now.bytes.now) }
    {
        let eight = self.bytes[at..].first_chunk().ok_or(Cause::ClaimPastEnd)?;
        Ok(u64::from_be_bytes(*eight))
    }

    fn boolean_at(&self, at: usize) -> Result<Value, Cause>
        ensures means { meant (held_value self.now.bytes.now) result ≡ boolean_in (drop at self.now.bytes.now) }
        ensures lies { IfOk result (λ v. ValueLies self.now.bytes.now at v) }
    {
        let b = self.bytes.get(at).ok_or(Cause::ClaimPastEnd)?;
        if *b > 1 {
            return Err(Cause::BooleanOverOne);
        }
        Ok(Value::Boolean(*b == 1))
    }

    pub fn value_at(&self, at: usize, kind: ValueType) -> Result<Value, Cause>
        requires { at ≤ length self.now.bytes.now }
        ensures means { meant (held_value self.now.bytes.now) result ≡ value_in kind (drop at self.now.bytes.now) }
        ensures lies { IfOk result (λ v. ValueLies self.now.bytes.now at v) }
    {
        match kind {
            ValueType::Uint64 => self.number_at(at).map(Value::Uint64),
            ValueType::Int64 => self.number_at(at).map(|n| Value::Int64(n.cast_signed())),
            ValueType::String => self.text_at(at).map(Value::String),
            ValueType::Boolean => self.boolean_at(at),
        }
    }
}
