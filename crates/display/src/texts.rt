// A text as it is shown: a bare word, or quoted with escapes.
use super::letters::{Letters, is_plain, push_letter};
use std::alloc::{AllocError, Global};
use units::count;

// Is the text a word that can stand without quotation marks?
fn is_bare(text: &[u8]) -> bool {
    count(text) > 0 && Letters::of(text).all(|letter| letter.is_ok_and(is_plain))
}

fn push_letters(out: &mut String, text: &[u8]) -> Result<(), AllocError> {
    for letter in Letters::of(text) {
        push_letter(out, letter)?;
    }
    Ok(())
}

// The text as a claims list would write it.
pub fn shown(heap: Global, text: &[u8]) -> Result<String, AllocError> {
    let mut out = String::new(heap);
    if is_bare(text) {
        push_letters(&mut out, text)?;
        return Ok(out);
    }
    out.push('"')?;
    push_letters(&mut out, text)?;
    out.push('"')?;
    Ok(out)
}
