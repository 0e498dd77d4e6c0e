// Packets that are accepted, and what their claims are.
use claims::{Claim, Origin, Source, Text, Texts, Value};
use packet::check;
use std::test::Fail;

// Type "t", the word and the value follow the head.
const NATURAL: &[u8] =
    b"\x01\x00\x18\x01\x00t\x06\x00u\x00i\x00n\x00t\x006\x004\xff\xff\xff\xff\xff\xff\xff\xfe";

const NEGATIVE: &[u8] =
    b"\x01\x00\x16\x01\x00t\x05\x00I\x00n\x00t\x006\x004\xff\xff\xff\xff\xff\xff\xff\xdf";

const STRING: &[u8] = b"\x01\x00\x15\x01\x00t\x06\x00s\x00t\x00r\x00i\x00n\x00g\x02\x00h\x00i";

const BOOLEAN: &[u8] = b"\x01\x00\x13\x01\x00t\x07\x00b\x00o\x00o\x00l\x00e\x00a\x00n\x01";

// The value of the one claim that the bytes carry.
fn only(bytes: &[u8]) -> Option<Value> {
    let packet = check(bytes).ok()?;
    if packet.count() != 1 {
        return None;
    }
    packet.claim_at(0).map(|claim| claim.value)
}

#[test]
fn nothing_after_the_head(rt: HostRuntime) -> Result<(), Fail> {
    let Ok(packet) = check(b"\x01\x00\x00") else {
        return Err(Fail::new("refused"));
    };
    assert_eq!(rt; packet.count(), 0);
    assert!(rt; packet.claim_at(0).is_none());
    Ok(())
}

#[test]
fn each_kind_of_value(rt: HostRuntime) {
    assert_eq!(rt; only(NATURAL), Some(Value::Uint64(18446744073709551614)));
    assert_eq!(rt; only(NEGATIVE), Some(Value::Int64(-33)));
    assert_eq!(rt; only(BOOLEAN), Some(Value::Boolean(true)));
    let at = Text {
        origin: Origin::Packet,
        place: 20,
        len: 2,
    };
    assert_eq!(rt; only(STRING), Some(Value::String(at)));
}

#[test]
fn texts_at_their_places(rt: HostRuntime) -> Result<(), Fail> {
    let Ok(packet) = check(STRING) else {
        return Err(Fail::new("refused"));
    };
    let Some(claim) = packet.claim_at(0) else {
        return Err(Fail::new("no claim"));
    };
    assert_eq!(rt; claim.typ.place, 4);
    assert_eq!(rt; claim.word.place, 7);
    let texts = Texts {
        rules: b"",
        packet: packet.bytes(),
    };
    let Some(word) = texts.part(claim.word) else {
        return Err(Fail::new("no word"));
    };
    assert!(rt; word.bytes.len() == 12);
    assert_eq!(rt; word.bytes[1], 115);
    assert_eq!(rt; word.place, 7);
    Ok(())
}

#[test]
fn a_record_is_small(rt: HostRuntime) {
    assert_eq!(rt; std::mem::size_of::<Claim>(), 32);
}
