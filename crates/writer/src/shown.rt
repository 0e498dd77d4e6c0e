// The bytes of a record's texts, and the sizes that a packet gives them.
ghost use Rattle.std.specs.Prelude.{◌≡◌, ◌*◌, ◌≤◌, length};
ghost use Rattle.packet.specs.Judge.{size_of_text, size_of_value, size};
ghost use Rattle.units.specs.Units.{units};
ghost use Rattle.writer.specs.Shown.{shown_text, shown_value, shown_claim};

use claims::{Claim, Text, Texts, Value};

// The bytes of a text; none where it lies outside.
pub fn bytes_of<'a>(text: Text, texts: &Texts<'a>) -> &'a [u8]
    ensures text { units result.now ≡ shown_text texts.now.rules.now texts.now.packet.now text }
    ensures even { length result.now ≡ 2 * length (units result.now) }
    ensures short { length result.now ≤ 131070 }
{
    texts.part(text).map_or(b"", |part| part.bytes)
}

pub fn text_size(text: Text, texts: &Texts) -> usize
    ensures value { result ≡ size_of_text (shown_text texts.now.rules.now texts.now.packet.now text) }
    ensures bound { result ≤ 131071 }
{
    1 + bytes_of(text, texts).len()
}

pub fn value_size(value: Value, texts: &Texts) -> usize
    ensures value { result ≡ size_of_value (shown_value texts.now.rules.now texts.now.packet.now value) }
    ensures bound { result ≤ 131071 }
{
    match value {
        Value::Uint64(_) | Value::Int64(_) => 8,
        Value::String(text) => text_size(text, texts),
        Value::Boolean(_) => 1,
    }
}

// The bytes that a packet spends on a claim.
pub fn claim_size(claim: Claim, texts: &Texts) -> usize
    ensures value { result ≡ size (shown_claim texts.now.rules.now texts.now.packet.now claim) }
    ensures bound { result ≤ 393213 }
{
    text_size(claim.typ, texts) + text_size(claim.word, texts) + value_size(claim.value, texts)
}
