// What the writer writes, and what it leaves.
use claims::{Claim, Listed, Origin, Text, Texts, Value};
use faults::{Cause, Fault};
use packet::check;
use std::test::Fail;
use writer::{rewrite, write};

// The rule text "t", "boolean" and "string", in units.
const RULES: &[u8] = b"\x00t\x00b\x00o\x00o\x00l\x00e\x00a\x00n\x00s\x00t\x00r\x00i\x00n\x00g";

const BOOLEAN: &[u8] = b"\x01\x00\x13\x01\x00t\x07\x00b\x00o\x00o\x00l\x00e\x00a\x00n\x01";

fn text(place: u16, len: u16) -> Text {
    Text {
        origin: Origin::Rules,
        place,
        len,
    }
}

fn flag(value: Value) -> Claim {
    Claim {
        typ: text(0, 1),
        word: text(1, 7),
        value,
    }
}

fn written(claims: &[Claim], out: &mut [u8]) -> Result<usize, Fault> {
    let texts = Texts {
        rules: RULES,
        packet: b"",
    };
    write(&Listed::over(claims), &texts, out)
}

fn refused(cause: Cause) -> Result<usize, Fault> {
    Err(Fault::at(cause, 0))
}

#[test]
fn from_the_rule_text(rt: HostRuntime) {
    let claims = [flag(Value::Boolean(true))];
    let mut out = [7u8; 24];
    assert_eq!(rt; written(&claims, &mut out), Ok(22));
    assert!(rt; &out[0..22] == BOOLEAN);
    assert_eq!(rt; out[22], 7);
    assert_eq!(rt; out[23], 7);
}

#[test]
fn a_buffer_one_byte_short(rt: HostRuntime) {
    let claims = [flag(Value::Boolean(true))];
    let mut out = [7u8; 21];
    assert_eq!(rt; written(&claims, &mut out), refused(Cause::BufferTooShort));
    assert_eq!(rt; out[0], 7);
    let mut exact = [7u8; 22];
    assert_eq!(rt; written(&claims, &mut exact), Ok(22));
}

#[test]
fn more_claims_than_a_packet_has(rt: HostRuntime) {
    let claims = [flag(Value::Boolean(false)); 257];
    let mut out = [7u8; 8000];
    assert_eq!(rt; written(&claims[0..256], &mut out), Ok(4867));
    assert_eq!(rt; written(&claims, &mut out), refused(Cause::PacketTooLarge));
}

#[test]
fn a_claim_that_no_packet_carries(rt: HostRuntime) {
    let mut out = [7u8; 64];
    let outside = [Claim {
        typ: text(0, 15),
        word: text(1, 7),
        value: Value::Boolean(true),
    }];
    assert_eq!(rt;
        written(&outside, &mut out),
        refused(Cause::UncarriableClaim)
    );
    let other_type = [flag(Value::Uint64(1))];
    assert_eq!(rt;
        written(&other_type, &mut out),
        refused(Cause::UncarriableClaim)
    );
    assert_eq!(rt; out[0], 7);
}

#[test]
fn an_accepted_packet_again(rt: HostRuntime) -> Result<(), Fail> {
    let mut out = [7u8; 24];
    let Ok(packet) = check(BOOLEAN) else {
        return Err(Fail::new("refused"));
    };
    assert_eq!(rt; rewrite(&packet, &mut out), Ok(22));
    assert!(rt; &out[0..22] == BOOLEAN);
    assert_eq!(rt; out[22], 7);
    assert_eq!(rt;
        rewrite(&packet, &mut out[0..21]),
        refused(Cause::BufferTooShort)
    );
    Ok(())
}
