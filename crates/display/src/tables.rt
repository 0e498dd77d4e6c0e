// The claims of a source as a table with aligned columns.
use super::texts::shown;
use claims::{Claim, Claims, Source, Text, Texts, Value};
use std::alloc::{AllocError, Global};

// The columns of a claim, but for its number.
#[derive(Drop)]
struct Row {
    typ: String,
    word: String,
    value: String,
}

// A claim's text, or a question mark where it lies outside.
fn text_shown(heap: Global, text: Text, texts: &Texts) -> Result<String, AllocError> {
    match texts.part(text) {
        Some(part) => shown(heap, part.bytes),
        None => String::from_str(heap, "?"),
    }
}

fn value_shown(heap: Global, value: Value, texts: &Texts) -> Result<String, AllocError> {
    match value {
        Value::Uint64(n) => n.to_string(heap),
        Value::Int64(n) => n.to_string(heap),
        Value::Boolean(b) => b.to_string(heap),
        Value::String(text) => text_shown(heap, text, texts),
    }
}

fn row_of(heap: Global, claim: Claim, texts: &Texts) -> Result<Row, AllocError> {
    let typ = text_shown(heap, claim.typ, texts)?;
    let word = text_shown(heap, claim.word, texts)?;
    let value = value_shown(heap, claim.value, texts)?;
    Ok(Row { typ, word, value })
}

fn rows_of<S: Source>(heap: Global, source: &S, texts: &Texts) -> Result<Vec<Row>, AllocError> {
    Claims::of(source)
        .map(|claim| row_of(heap, claim, texts))
        .try_collect(heap)
}

// How many characters a cell has.
fn width(cell: &String) -> usize {
    cell.as_str().chars().count()
}

// One line for each claim: its number from 1, its type, its value type as written, and its value.
pub fn table<S: Source>(heap: Global, source: &S, texts: &Texts) -> Result<String, AllocError> {
    let rows = rows_of(heap, source, texts)?;
    let numbers = rows.len().to_string(heap)?.len();
    let typs = rows.iter().map(|row| width(&row.typ)).max().unwrap_or(0);
    let words = rows.iter().map(|row| width(&row.word)).max().unwrap_or(0);
    let mut out = String::new(heap);
    for (i, row) in rows.iter().enumerate() {
        let number = i.saturating_add(1);
        let Row { typ, word, value } = row;
        writeln!(
            out,
            "{number:>numbers$}  {typ:<typs$}  {word:<words$}  {value}"
        )?;
    }
    Ok(out)
}
