// Texts in ASCII as units, and what is told of them.
use faults::Fault;
use parser::{Rules, parse};
use std::alloc::{AllocError, Global};

// Each byte is the second of its unit, and the first is 0.
fn widened(alloc: Global, text: &[u8]) -> Result<Vec<u8>, AllocError> {
    let mut wide = Vec::new(alloc);
    for byte in text {
        wide.push(0)?;
        wide.push(*byte)?;
    }
    Ok(wide)
}

// The rules, or the fault.
pub fn parsed(alloc: Global, text: &[u8]) -> Result<Result<Rules, Fault>, AllocError> {
    let wide = widened(alloc, text)?;
    Ok(parse(&wide))
}

// How many rules there are, or the fault.
pub fn told(alloc: Global, text: &[u8]) -> Result<Result<usize, Fault>, AllocError> {
    Ok(parsed(alloc, text)?.map(|rules| rules.len()))
}

// The same of a text of as many equal rules, and a last word.
pub fn repeated(
    alloc: Global,
    rule: &[u8],
    times: usize,
    last: u8,
) -> Result<Result<usize, Fault>, AllocError> {
    let mut text = Vec::new(alloc);
    for _ in 0..times {
        text.extend_from_slice(rule)?;
    }
    text.push(last)?;
    told(alloc, &text)
}
