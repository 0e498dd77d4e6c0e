// A table of patterns: each line of the input is a pattern, a text and the verdict expected, parted by tabs.
// The program prints each verdict, yes, no or the number of the refusal, and at the end how many were not as expected.
// Lines are UTF-8, and are matched as UTF-16 units.
#![tactic(auto)]

ghost use Rattle.std.specs.Prelude.{◌≡◌, IfOk, string_bytes};
ghost use Rattle.pattern_table.specs.Verdict.{shown};

use faults::Cause;
use std::alloc::{AllocError, Global};
use std::io;

fn unit_bytes(heap: Global, text: &str) -> Result<Vec<u8>, AllocError> {
    let mut bytes = Vec::new(heap);
    for u in text.encode_utf16() {
        bytes.extend_from_slice(&u.to_be_bytes())?;
    }
    Ok(bytes)
}

fn verdict(heap: Global, answer: Result<bool, Cause>) -> Result<String, AllocError>
    ensures { IfOk result (λ s. string_bytes s ≡ shown answer) }
{
    match answer {
        Ok(true) => String::from_str(heap, "yes"),
        Ok(false) => String::from_str(heap, "no"),
        Err(cause) => format!(in heap; "{}", cause.number()),
    }
}

fn judge(heap: Global, pattern: &str, text: &str) -> Result<String, AllocError> {
    let p = unit_bytes(heap, pattern)?;
    let t = unit_bytes(heap, text)?;
    verdict(heap, pattern::decide(p.as_slice(), t.as_slice()))
}

fn main(rt: HostRuntime) -> io::Result<()> {
    let heap = rt.alloc();
    let mut rows = 0u32;
    let mut wrong = 0u32;
    for line in rt.lines(heap) {
        let line = line?;
        let mut fields = line.as_str().split('\t');
        if let Some(pattern) = fields.next()
            && let Some(text) = fields.next()
            && let Some(expected) = fields.next()
        {
            let got = judge(heap, pattern, text)?;
            if got.as_str() != expected {
                wrong = wrong.saturating_add(1);
            }
            rows = rows.saturating_add(1);
            println!(rt; "{got}\t{pattern}\t{text}")?;
        }
    }
    println!(rt; "{rows} rows, {wrong} wrong")
}

#[cfg(test)]
mod tests {
    use super::*;
    use std::test::Fail;

    #[test]
    fn worked_example(rt: HostRuntime) -> Result<(), Fail> {
        let heap = rt.alloc();
        assert!(rt; judge(heap, "^(a|bc)*$", "BCA")?.as_str() == "yes");
        assert!(rt; judge(heap, "^(a|bc)*$", "ab")?.as_str() == "no");
        Ok(())
    }

    #[test]
    fn one_pattern_many_texts(rt: HostRuntime) -> Result<(), Fail> {
        let heap = rt.alloc();
        let p = pattern::read(unit_bytes(heap, "^a+b?$")?.as_slice())?;
        assert!(rt; pattern::matches(&p, unit_bytes(heap, "aAb")?.as_slice()));
        assert!(rt; pattern::matches(&p, unit_bytes(heap, "a")?.as_slice()));
        assert!(rt; !pattern::matches(&p, unit_bytes(heap, "abb")?.as_slice()));
        Ok(())
    }

    #[test]
    fn a_pattern_is_small(rt: HostRuntime) {
        assert_eq!(rt; std::mem::size_of::<pattern::Pattern>(), 752);
    }
}
