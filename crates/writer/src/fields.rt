// One field of a claim, written at the front of a buffer; each call answers how many bytes it wrote.
ghost use Rattle.std.specs.Prelude.{◌≡◌, ◌+◌, ◌*◌, ◌≤◌, [], length, if◌then◌else◌};
ghost use Rattle.claims.specs.Meaning.{boolean};
ghost use Rattle.packet.specs.Format.{bytes_before, encode_text, encode_value, encode};
ghost use Rattle.packet.specs.Judge.{size_of_text, size_of_value, size};
ghost use Rattle.units.specs.Units.{units};
ghost use Rattle.writer.specs.Shown.{shown_text, shown_value, shown_claim, TextFits, ValueTextFits, PartsFit};
ghost use Rattle.writer.specs.Writing.{written};

use super::shown::bytes_of;
use claims::{Claim, Text, Texts, Value};
use units::count;

// The count of a text's units, and its bytes.
fn write_text(out: &mut [u8], text: &[u8]) -> usize
    requires even { length text.now ≡ 2 * length (units text.now) }
    requires few { length (units text.now) ≤ 255 }
    requires room { 1 + length text.now ≤ length out.old }
    ensures size { result ≡ length (encode_text (units text.now)) }
    ensures bytes { out.new ≡ written out.old 0 (encode_text (units text.now)) }
{
    let to = 1 + text.len();
    out[0] = count(text) as u8;
    out[1..to].copy_from_slice(text);
    to
}

fn write_part(out: &mut [u8], text: Text, texts: &Texts) -> usize
    requires fits { TextFits texts.now.rules.now texts.now.packet.now text }
    requires room { size_of_text (shown_text texts.now.rules.now texts.now.packet.now text) ≤ length out.old }
    ensures size { result ≡ size_of_text (shown_text texts.now.rules.now texts.now.packet.now text) }
    ensures bytes { out.new ≡ written out.old 0 (encode_text (shown_text texts.now.rules.now texts.now.packet.now text)) }
{
    write_text(out, bytes_of(text, texts))
}

// Eight bytes, high byte first.
fn write_number(out: &mut [u8], n: u64) -> usize
    requires { 8 ≤ length out.old }
    ensures size { result ≡ 8 }
    ensures bytes { out.new ≡ written out.old 0 (bytes_before 8 n []) }
{
    out[..8].copy_from_slice(&n.to_be_bytes());
    8
}

fn write_boolean(out: &mut [u8], b: bool) -> usize
    requires { 1 ≤ length out.old }
    ensures size { result ≡ 1 }
    ensures bytes { out.new ≡ written out.old 0 (encode_value (boolean b)) }
{
    out[0] = u8::from(b);
    1
}

fn write_value(out: &mut [u8], value: Value, texts: &Texts) -> usize
    requires fits { ValueTextFits texts.now.rules.now texts.now.packet.now value }
    requires room { size_of_value (shown_value texts.now.rules.now texts.now.packet.now value) ≤ length out.old }
    ensures size { result ≡ size_of_value (shown_value texts.now.rules.now texts.now.packet.now value) }
    ensures bytes { out.new ≡ written out.old 0 (encode_value (shown_value texts.now.rules.now texts.now.packet.now value)) }
{
    match value {
        Value::Uint64(n) => write_number(out, n),
        Value::Int64(z) => write_number(out, z.cast_unsigned()),
        Value::String(text) => write_part(out, text, texts),
        Value::Boolean(b) => write_boolean(out, b),
    }
}

// A claim's bytes, field after field.
pub fn write_claim(out: &mut [u8], claim: Claim, texts: &Texts) -> usize
    requires fit { PartsFit texts.now.rules.now texts.now.packet.now claim }
    requires room { size (shown_claim texts.now.rules.now texts.now.packet.now claim) ≤ length out.old }
    ensures size { result ≡ size (shown_claim texts.now.rules.now texts.now.packet.now claim) }
    ensures bytes { out.new ≡ written out.old 0 (encode (shown_claim texts.now.rules.now texts.now.packet.now claim)) }
{
    let word = write_part(out, claim.typ, texts);
    let value = word + write_part(&mut out[word..], claim.word, texts);
    value + write_value(&mut out[value..], claim.value, texts)
}
