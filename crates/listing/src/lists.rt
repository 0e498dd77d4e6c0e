// The whole list: a line becomes a claim whose texts stand in one text, and the lines become the records of a list.
ghost use Rattle.std.specs.Prelude.{◌≡◌, ℕ, ◌≤◌, List, ◌++◌, IfOk, Some, vec_len, OnOk};
ghost use Rattle.claims.specs.Texts.{part_of};
ghost use Rattle.listing.specs.Fields.{Whole};
ghost use Rattle.listing.specs.Inside.{TextInside, ValueInside, Inside, AllInside, AllInside-prop};

use super::fields::{Field, Line};
use super::mistakes::{ListError, Misplaced, Stop};
use claims::{Claim, Origin, Text, Value, ValueType, value_type};
use notation::{Mistake, UnitText, boolean, signed, unsigned};
use std::alloc::Global;

const MOST_CLAIMS: usize = 256;

// Records, and the text that their texts lie in, by units.
#[derive(Drop)]
pub struct ClaimsList {
    text: UnitText,
    claims: Vec<Claim>,
    pub ghost few: { vec_len claims ≤ 256 },
    pub ghost inside: { AllInside (vec_len text.bytes) claims.items } by { AllInside-prop (vec_len text.bytes) claims.items },
}

impl ClaimsList {
    fn new(heap: Global) -> ClaimsList {
        ClaimsList {
            text: UnitText::new(heap),
            claims: Vec::new(heap),
        }
    }

    // The text, to be read as the rule text of the records.
    pub fn text(&self) -> &[u8]
        ensures { result.now ≡ self.now.text.bytes.items }
    {
        self.text.bytes()
    }

    pub fn claims(&self) -> &[Claim]
        ensures { result.now ≡ self.now.claims.items }
    {
        self.claims.as_slice()
    }

    // The claim of a line behind the others; an empty line and a remark add none.
    fn add_line(&mut self, heap: Global, line: &str) -> Result<(), Stop> {
        let letters: Vec<char> = line.chars().collect(heap)?;
        let mut line = Line::of(letters.as_slice());
        line.skip_blanks();
        if matches!(line.first(), None | Some('#')) {
            return Ok(());
        }
        if self.claims.len() >= MOST_CLAIMS {
            return Err(Stop::At(Mistake::TooManyClaims, line.place()));
        }
        let claim = claim_of(heap, &mut self.text, &mut line)?;
        self.claims.push(claim)?;
        Ok(())
    }
}

// A field's text behind the others.
// What was put before stays inside the longer text: so each function down to this one says `longer`, which no type can say of a text that grows.
fn put_text(text: &mut UnitText, field: &Field) -> Result<Text, Stop>
    ensures grown { OnOk result (text.new.bytes.items ≡ text.old.bytes.items ++ field.now.text.bytes.items) }
    ensures longer { vec_len text.old.bytes ≤ vec_len text.new.bytes }
    ensures inside { IfOk result (λ t. TextInside (vec_len text.new.bytes) t) }
    ensures stands { IfOk result (λ t. (packet : List ℕ) → part_of text.new.bytes.items packet t ≡ Some field.now.text.bytes.items) }
{
    let place = text.bytes().len() / 2;
    if place > 0x4000 {
        return Err(field.stop(Mistake::TextsTooLarge));
    }
    let more = field.text();
    text.append(more)?;
    Ok(Text {
        origin: Origin::Rules,
        place: place as u16,
        len: (more.bytes().len() / 2) as u16,
    })
}

// The value that a field spells, of the type that its word names.
fn put_value(text: &mut UnitText, kind: ValueType, field: &Field) -> Result<Value, Stop>
    ensures longer { vec_len text.old.bytes ≤ vec_len text.new.bytes }
    ensures inside { IfOk result (λ v. ValueInside (vec_len text.new.bytes) v) }
{
    let units = field.text().bytes();
    match kind {
        ValueType::Uint64 => unsigned(units).map(Value::Uint64),
        ValueType::Int64 => signed(units).map(Value::Int64),
        ValueType::Boolean => boolean(units).map(Value::Boolean),
        ValueType::String => return put_text(text, field).map(Value::String),
    }
    .map_err(|mistake| field.stop(mistake))
}

// The claim of a line whose type begins here.
fn claim_of(heap: Global, text: &mut UnitText, line: &mut Line) -> Result<Claim, Stop>
    ensures longer { vec_len text.old.bytes ≤ vec_len text.new.bytes }
    ensures inside { IfOk result (λ c. Inside (vec_len text.new.bytes) c) }
{
    let typ = line.field(heap)?;
    let word = line.next_field(heap, Mistake::MissingValueType)?;
    let kind = value_type(word.text().bytes()).ok_or(word.stop(Mistake::UnknownValueType))?;
    let value = line.next_field(heap, Mistake::MissingValue)?;
    line.skip_blanks();
    if line.first().is_some() {
        return Err(Stop::At(Mistake::MoreAfterValue, line.place()));
    }
    let typ = put_text(text, &typ)?;
    let word = put_text(text, &word)?;
    let value = put_value(text, kind, &value)?;
    Ok(Claim { typ, word, value })
}

// The claims of a text, in the order of its lines.
fn read_text(heap: Global, list: &str) -> Result<ClaimsList, ListError> {
    let mut all = ClaimsList::new(heap);
    for (i, line) in list.lines().enumerate() {
        // A list may be empty lines for the most part, and they add nothing.
        if !line.is_empty() {
            all.add_line(heap, line).map_err(|stop| stop.on_line(i))?;
        }
    }
    Ok(all)
}

// Does a character of UTF-8 begin with the byte?
fn begins_character(byte: u8) -> bool {
    !matches!(byte, 0x80..=0xBF)
}

// Where the bytes stop being UTF-8.
fn not_text(list: &[u8], at: usize) -> ListError {
    let text = &list[..at.min(list.len())];
    let line = text.iter().filter(|b| **b == b'\n').count();
    let column = text
        .iter()
        .rev()
        .take_while(|b| **b != b'\n')
        .filter(|b| begins_character(**b))
        .count();
    ListError::Line(Misplaced {
        mistake: Mistake::NotUtf8,
        line: line.saturating_add(1),
        column: column.saturating_add(1),
    })
}

// The claims of a list, in the order of its lines; a byte order mark in front is no part of it.
pub fn read(heap: Global, list: &[u8]) -> Result<ClaimsList, ListError>
    ensures few { IfOk result (λ l. vec_len l.claims ≤ 256) }
    ensures whole { IfOk result (λ l. Whole l.text.bytes.items) }
    ensures inside { IfOk result (λ l. AllInside (vec_len l.text.bytes) l.claims.items) }
{
    match std::str::from_utf8(list) {
        Ok(text) => read_text(heap, text.strip_prefix('\u{FEFF}').unwrap_or(text)),
        Err(error) => Err(not_text(list, error.valid_up_to())),
    }
}
