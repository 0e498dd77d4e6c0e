use super::{accepted, refused, shown, table};
use claims::{Listed, Texts};
use faults::{Cause, Fault};
use listing::read;
use std::process::Abort;
use std::test::Fail;

fn check_shown(rt: &(impl Abort + AllocGlobal), text: &[u8], expected: &str) -> Result<(), Fail> {
    let line = shown(rt.alloc(), text)?;
    assert_eq!(rt; line.as_str(), expected);
    Ok(())
}

// What is shown of a text, read as a list's value, is the text again.
fn check_again(rt: &(impl Abort + AllocGlobal), text: &[u8]) -> Result<(), Fail> {
    let value = shown(rt.alloc(), text)?;
    let line = format!(in rt.alloc(); "t string {value}")?;
    match read(rt.alloc(), line.as_bytes()) {
        Ok(list) => {
            assert!(rt; list.text().len() == 14 + text.len() && list.text().ends_with(text));
            Ok(())
        },
        Err(_) => Err(Fail::new("the line was not read")),
    }
}

#[test]
fn texts(rt: HostRuntime) -> Result<(), Fail> {
    check_shown(&rt, b"\0a\0-\xd8\x3d\xdd\x11", "a-\u{1F511}")?;
    check_shown(&rt, b"", "\"\"")?;
    check_shown(
        &rt,
        b"\0#\0 \0\"\0\\\0\t\0\n\0\x07\x20\x2e",
        "\"# \\\"\\\\\\t\\n\\u0007\\u202E\"",
    )?;
    check_shown(&rt, b"\xd8\0\0a\xdc\0", "\"\\uD800a\\uDC00\"")
}

#[test]
fn again(rt: HostRuntime) -> Result<(), Fail> {
    check_again(&rt, b"")?;
    check_again(&rt, b"\0a\0#\0 \0\"\0\\\0\t\0\n\0\r\xfe\xff")?;
    check_again(&rt, b"\xd8\x3d\xdd\x11\0b")
}

#[test]
fn lines(rt: HostRuntime) -> Result<(), Fail> {
    assert_eq!(rt; accepted(rt.alloc(), 3)?.as_str(), "accepted 3 claims");
    let line = refused(rt.alloc(), Fault::at(Cause::ClaimPastEnd, 17))?;
    assert_eq!(rt;
        line.as_str(),
        "refused 54 at 17: a claim runs past the end"
    );
    Ok(())
}

#[test]
fn columns(rt: HostRuntime) -> Result<(), Fail> {
    match read(rt.alloc(), "é string \"b c\"\ncourse Int64 -2".as_bytes()) {
        Ok(list) => {
            let texts = Texts {
                rules: list.text(),
                packet: b"",
            };
            let lines = table(rt.alloc(), &Listed::over(list.claims()), &texts)?;
            assert_eq!(rt;
                lines.as_str(),
                "1  é       string  \"b c\"\n2  course  Int64   -2\n"
            );
            Ok(())
        }
        Err(_) => Err(Fail::new("the list was not read")),
    }
}
