use super::{ClaimsList, ListError, Misplaced, Mistake, read};
use claims::Value;
use std::process::Abort;
use std::test::*;

// The mistake that a list has, with its line and column.
fn mistake_in(rt: &(impl Abort + AllocGlobal), list: &str) -> Result<Misplaced, Fail> {
    match read(rt.alloc(), list.as_bytes()) {
        Ok(_) => Err(Fail::new("the list was read")),
        Err(ListError::Memory) => Err(Fail::new("no memory")),
        Err(ListError::Line(found)) => Ok(found),
    }
}

fn check_mistake(
    rt: &(impl Abort + AllocGlobal),
    list: &str,
    mistake: Mistake,
    line: usize,
    column: usize,
) -> Result<(), Fail> {
    let found = mistake_in(rt, list)?;
    assert_eq!(rt; found.mistake, mistake);
    assert_eq!(rt; found.line, line);
    assert_eq!(rt; found.column, column);
    Ok(())
}

// The bytes of the texts that a list of one claim or more spells.
fn check_text(rt: &(impl Abort + AllocGlobal), list: &str, bytes: &[u8]) -> Result<(), Fail> {
    let read = read(rt.alloc(), list.as_bytes())?;
    assert!(rt; read.text() == bytes);
    Ok(())
}

#[test]
fn kinds(rt: HostRuntime) -> Result<(), Fail> {
    let list = read(
        rt.alloc(),
        b"# a remark\r\n\n  a uint64 18446744073709551615\nb\tInt64 -9223372036854775808\nc boolean TRUE\nd string e",
    )?;
    let found = list.claims();
    assert!(rt; found.len() == 4);
    assert!(rt; matches!(found[0].value, Value::Uint64(18446744073709551615)));
    assert!(rt; matches!(found[1].value, Value::Int64(-9223372036854775808)));
    assert!(rt; matches!(found[2].value, Value::Boolean(true)));
    assert!(rt; matches!(found[3].value, Value::String(_)));
    Ok(())
}

#[test]
fn quoting(rt: HostRuntime) -> Result<(), Fail> {
    check_text(
        &rt,
        "\"\" string \"\\\"\\\\\\t\\n\\u00e9\"",
        b"\0s\0t\0r\0i\0n\0g\0\"\0\\\0\t\0\n\0\xe9",
    )?;
    check_text(
        &rt,
        "\u{1F511} string \\",
        b"\xd8\x3d\xdd\x11\0s\0t\0r\0i\0n\0g\0\\",
    )
}

#[test]
fn missing(rt: HostRuntime) -> Result<(), Fail> {
    check_mistake(&rt, "\na", Mistake::MissingValueType, 2, 2)?;
    check_mistake(&rt, "a uint64 ", Mistake::MissingValue, 1, 10)?;
    check_mistake(&rt, "a real 1", Mistake::UnknownValueType, 1, 3)?;
    check_mistake(&rt, "é string f g", Mistake::MoreAfterValue, 1, 12)?;
    check_mistake(&rt, "a string b\"c\"", Mistake::NoBlankAfterField, 1, 11)
}

#[test]
fn numbers(rt: HostRuntime) -> Result<(), Fail> {
    check_mistake(&rt, "a uint64 -1", Mistake::NotANumber, 1, 10)?;
    check_mistake(
        &rt,
        "a uint64 18446744073709551616",
        Mistake::NumberOutOfRange,
        1,
        10,
    )?;
    check_mistake(
        &rt,
        "a int64 9223372036854775808",
        Mistake::NumberOutOfRange,
        1,
        9,
    )?;
    check_mistake(&rt, "a int64 +", Mistake::NotANumber, 1, 9)?;
    check_mistake(&rt, "a boolean yes", Mistake::NotABoolean, 1, 11)
}

#[test]
fn texts(rt: HostRuntime) -> Result<(), Fail> {
    check_mistake(&rt, "a string \"b", Mistake::TextNotClosed, 1, 10)?;
    check_mistake(&rt, "a string \"b\\c\"", Mistake::BadEscape, 1, 12)?;
    check_mistake(&rt, "a string \"\\u12g4\"", Mistake::BadEscape, 1, 11)?;
    check_mistake(&rt, "a string \"\\ud800\"", Mistake::IllFormedText, 1, 10)?;
    check_mistake(
        &rt,
        "a string \\\n\"\\u0000\" boolean 1",
        Mistake::IllFormedText,
        2,
        1,
    )
}

fn repeated(rt: &HostRuntime, part: &str, n: usize) -> Result<String, Fail> {
    let mut all = String::new(rt.alloc());
    for _ in 0..n {
        all.push_str(part)?;
    }
    Ok(all)
}

#[test]
fn bytes(rt: HostRuntime) -> Result<(), Fail> {
    check_text(&rt, "\u{FEFF}a boolean 0", b"\0a\0b\0o\0o\0l\0e\0a\0n")?;
    match read(rt.alloc(), b"# caf\xc3\xa9\na \xc3\xa9\xff") {
        Err(ListError::Line(found)) => {
            assert_eq!(rt; found.mistake, Mistake::NotUtf8);
            assert_eq!(rt; found.line, 2);
            assert_eq!(rt; found.column, 4);
            Ok(())
        }
        _ => Err(Fail::new("the list was read")),
    }
}

#[test]
fn limits(rt: HostRuntime) -> Result<(), Fail> {
    let most = repeated(&rt, "a boolean 1\n", 256)?;
    assert_eq!(rt; read(rt.alloc(), most.as_bytes())?.claims().len(), 256);
    let more = repeated(&rt, "a boolean 1\n", 257)?;
    check_mistake(&rt, more.as_str(), Mistake::TooManyClaims, 257, 1)?;
    let mut long = repeated(&rt, "a", 255)?;
    long.push_str(" boolean 1")?;
    assert_eq!(rt; read(rt.alloc(), long.as_bytes())?.claims().len(), 1);
    let longer = repeated(&rt, "a", 256)?;
    check_mistake(&rt, longer.as_str(), Mistake::TextTooLong, 1, 1)
}
