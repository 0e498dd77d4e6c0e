// Whether a packet can carry the claim of a record.
ghost use Rattle.std.specs.Prelude.{◌≡◌, ℕ, List, ◌↔◌, IsTrue};
ghost use Rattle.packet.specs.Carriable.{Short};
ghost use Rattle.units.specs.Units.{units};
ghost use Rattle.writer.specs.Shown.{TextFits, ValueFits, PartsFit, Names, Writable, shown_value};

use super::shown::bytes_of;
use claims::{Claim, Text, Texts, Value, value_type};
use units::{count, is_well_formed};

const MAX_UNITS: usize = 255;

// At most 255 units, and well formed.
fn is_short(text: &[u8]) -> bool
    ensures { IsTrue result ↔ Short (units text.now) }
{
    count(text) <= MAX_UNITS && is_well_formed(text)
}

fn text_fits(text: Text, texts: &Texts) -> bool
    ensures { IsTrue result ↔ TextFits texts.now.rules.now texts.now.packet.now text }
{
    texts.part(text).is_some_and(|part| is_short(part.bytes))
}

fn value_fits(value: Value, texts: &Texts) -> bool
    ensures { IsTrue result ↔ ValueFits texts.now.rules.now texts.now.packet.now value }
{
    match value {
        Value::String(text) => text_fits(text, texts),
        Value::Uint64(_) | Value::Int64(_) | Value::Boolean(_) => true,
    }
}

// Does the word name the value's own type?
fn names(word: &[u8], value: Value) -> bool
    ensures { (a b : List ℕ) → IsTrue result ↔ Names (units word.now) (shown_value a b value) }
{
    value_type(word) == Some(value.kind())
}

fn parts_fit(claim: Claim, texts: &Texts) -> bool
    ensures { IsTrue result ↔ PartsFit texts.now.rules.now texts.now.packet.now claim }
{
    text_fits(claim.typ, texts) && text_fits(claim.word, texts) && value_fits(claim.value, texts)
}

// Does the record stand for a claim that a packet can carry?
pub fn is_writable(claim: Claim, texts: &Texts) -> bool
    ensures { IsTrue result ↔ Writable texts.now.rules.now texts.now.packet.now claim }
{
    parts_fit(claim, texts) && names(bytes_of(claim.word, texts), claim.value)
}
