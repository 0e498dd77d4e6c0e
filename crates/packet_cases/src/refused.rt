// Packets that are refused: the cause and the place of the first fault.
use faults::{Cause, Fault};
use packet::check;
use std::alloc::{AllocError, Global};
use std::test::Fail;

// A boolean claim with an empty type: 17 bytes.
const CLAIM: &[u8] = b"\x00\x07\x00b\x00o\x00o\x00l\x00e\x00a\x00n\x01";

// Type "t", uint64 5; then type "u", string "v".
const TWO: &[u8] =
    b"\x01\x00\x2b\x01\x00t\x06\x00u\x00i\x00n\x00t\x006\x004\x00\x00\x00\x00\x00\x00\x00\x05\x01\x00u\x06\x00s\x00t\x00r\x00i\x00n\x00g\x01\x00v";

// Whether the bytes are a packet, and the fault if not.
fn judged(bytes: &[u8]) -> Result<(), Fault> {
    check(bytes).map(|_| ())
}

fn refused(cause: Cause, place: u16) -> Result<(), Fault> {
    Err(Fault::at(cause, place))
}

fn head(buffer: &mut [u8], length: u16) {
    if let [version, high, low, ..] = buffer {
        *version = 1;
        [*high, *low] = length.to_be_bytes();
    }
}

// As many boolean claims as the buffer has room for.
fn fill(buffer: &mut [u8], count: usize) {
    let Some(behind) = buffer.get_mut(3..) else {
        return;
    };
    for slot in behind.chunks_exact_mut(17).take(count) {
        slot.copy_from_slice(CLAIM);
    }
}

#[test]
fn heads(rt: HostRuntime) {
    assert_eq!(rt; judged(b""), refused(Cause::NotAPacket, 0));
    assert_eq!(rt; judged(b"\x01\x00"), refused(Cause::NotAPacket, 0));
    assert_eq!(rt; judged(b"\x02\x00\x00"), refused(Cause::NotAPacket, 0));
    assert_eq!(rt; judged(b"\x02\x00\x05"), refused(Cause::NotAPacket, 0));
    assert_eq!(rt; judged(b"\x01\x00\x01"), refused(Cause::LengthMismatch, 1));
    assert_eq!(rt;
        judged(b"\x01\x00\x00\x00"),
        refused(Cause::LengthMismatch, 1)
    );
    assert_eq!(rt; judged(b"\x01\x7f\xfe"), refused(Cause::LengthMismatch, 1));
}

#[test]
fn the_257th_claim(rt: HostRuntime) {
    let mut most = [0u8; 4355];
    head(&mut most, 4352);
    fill(&mut most, 256);
    assert_eq!(rt; judged(&most), Ok(()));
    let mut over = [0u8; 4372];
    head(&mut over, 4369);
    fill(&mut over, 257);
    assert_eq!(rt; judged(&over), refused(Cause::TooManyClaims, 4355));
    let mut one_byte = [9u8; 4356];
    head(&mut one_byte, 4353);
    fill(&mut one_byte, 256);
    assert_eq!(rt; judged(&one_byte), refused(Cause::TooManyClaims, 4355));
}

#[test]
fn each_claim_fault_at_its_claim(rt: HostRuntime) {
    assert_eq!(rt;
        judged(b"\x01\x00\x01\x01"),
        refused(Cause::ClaimPastEnd, 3)
    );
    assert_eq!(rt;
        judged(b"\x01\x00\x05\x00\x01\x00A\x00"),
        refused(Cause::UnknownValueType, 3)
    );
    assert_eq!(rt;
        judged(b"\x01\x00\x11\x00\x07\x00b\x00o\x00o\x00l\x00e\x00a\x00n\x02"),
        refused(Cause::BooleanOverOne, 3)
    );
    assert_eq!(rt;
        judged(b"\x01\x00\x13\x01\xd8\x00\x07\x00b\x00o\x00o\x00l\x00e\x00a\x00n\x01"),
        refused(Cause::IllFormedText, 3)
    );
    assert_eq!(rt;
        judged(b"\x01\x00\x13\x01\x00\x00\x07\x00b\x00o\x00o\x00l\x00e\x00a\x00n\x02"),
        refused(Cause::BooleanOverOne, 3)
    );
    assert_eq!(rt;
        judged(b"\x01\x00\x11\x00\x06\x00s\x00t\x00r\x00i\x00n\x00g\x01\xdc\x00"),
        refused(Cause::IllFormedText, 3)
    );
    assert_eq!(rt;
        judged(b"\x01\x00\x13\x00\x06\x00s\x00t\x00r\x00i\x00n\x00g\x02\xd8\x00\xdc\x00"),
        Ok(())
    );
}

// The first n bytes of two claims.
fn cut_to(n: u16) -> &'static [u8] {
    TWO.get(..usize::from(n)).unwrap_or(TWO)
}

// The same, with the length as it would be where there is one.
fn mended_judged(heap: Global, n: u16) -> Result<Result<(), Fault>, AllocError> {
    let mut cut = Vec::new(heap);
    cut.extend_from_slice(cut_to(n))?;
    if n >= 3 {
        head(cut.as_mut_slice(), n - 3);
    }
    Ok(judged(cut.as_slice()))
}

fn expected(n: u16) -> Result<(), Fault> {
    match n {
        0..=2 => refused(Cause::NotAPacket, 0),
        3 | 27 | 46 => Ok(()),
        4..=26 => refused(Cause::ClaimPastEnd, 3),
        _ => refused(Cause::ClaimPastEnd, 27),
    }
}

// Cut anywhere but behind a claim, the claim that is cut runs past the end.
#[test]
fn cut_at_every_byte(rt: HostRuntime) -> Result<(), Fail> {
    assert_eq!(rt; TWO.len(), 46);
    for n in 0..47 {
        assert_eq!(rt; mended_judged(rt.alloc(), n)?, expected(n));
        if n >= 3 && n < 46 {
            assert_eq!(rt; judged(cut_to(n)), refused(Cause::LengthMismatch, 1));
        }
    }
    Ok(())
}

// A text of so many units "a".
fn push_text(packet: &mut Vec<u8>, units: u8) -> Result<(), AllocError> {
    packet.push(units)?;
    for _ in 0..units {
        packet.extend_from_slice(b"\x00a")?;
    }
    Ok(())
}

// 31 claims of 1035 bytes and two of 340: 32765 bytes in all, behind a head that says so.
fn longest(heap: Global) -> Result<Vec<u8>, AllocError> {
    let mut packet = Vec::new(heap);
    packet.extend_from_slice(b"\x01\x7f\xfd")?;
    for _ in 0..31 {
        push_text(&mut packet, 255)?;
        packet.extend_from_slice(b"\x06\x00s\x00t\x00r\x00i\x00n\x00g")?;
        push_text(&mut packet, 255)?;
    }
    for _ in 0..2 {
        push_text(&mut packet, 159)?;
        packet.extend_from_slice(
            b"\x06\x00u\x00i\x00n\x00t\x006\x004\x00\x00\x00\x00\x00\x00\x00\x05",
        )?;
    }
    Ok(packet)
}

#[test]
fn the_longest_packet(rt: HostRuntime) -> Result<(), Fail> {
    let mut packet = longest(rt.alloc())?;
    assert_eq!(rt; packet.len(), 32768);
    assert_eq!(rt; judged(packet.as_slice()), Ok(()));
    packet.push(0)?;
    head(packet.as_mut_slice(), 32766);
    assert_eq!(rt;
        judged(packet.as_slice()),
        refused(Cause::LengthMismatch, 1)
    );
    Ok(())
}
