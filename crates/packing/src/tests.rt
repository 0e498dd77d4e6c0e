use super::{PackError, is_written_back, pack};
use claims::Source;
use faults::Cause;
use listing::Mistake;
use packet::check as check_packet;
use std::test::Fail;

#[test]
fn packs(rt: HostRuntime) -> Result<(), Fail> {
    match pack(rt.alloc(), b"a boolean 1\nb uint64 258") {
        Ok(bytes) => {
            assert!(rt;
                bytes.as_slice()
                    == b"\x01\x00\x2b\x01\0a\x07\0b\0o\0o\0l\0e\0a\0n\x01\x01\0b\x06\0u\0i\0n\0t\x006\x004\0\0\0\0\0\0\x01\x02".as_slice()
            );
            let packet = check_packet(bytes.as_slice())?;
            assert_eq!(rt; packet.count(), 2);
            assert!(rt; is_written_back(rt.alloc(), &packet)?);
            Ok(())
        }
        Err(_) => Err(Fail::new("not packed")),
    }
}

#[test]
fn misplaced(rt: HostRuntime) -> Result<(), Fail> {
    match pack(rt.alloc(), b"a boolean 1\nb uint64 c") {
        Err(PackError::Line(found)) => {
            assert!(rt; matches!(found.mistake, Mistake::NotANumber));
            assert_eq!(rt; found.line, 2);
            assert_eq!(rt; found.column, 10);
            Ok(())
        }
        _ => Err(Fail::new("packed")),
    }
}

// 64 claims with 512 bytes of text each.
#[test]
fn large(rt: HostRuntime) -> Result<(), Fail> {
    let mut list = String::new(rt.alloc());
    for _ in 0..64 {
        list.push_str("a string ")?;
        for _ in 0..249 {
            list.push('v')?;
        }
        list.push('\n')?;
    }
    match pack(rt.alloc(), list.as_bytes()) {
        Err(PackError::Refused(fault)) => {
            assert!(rt; matches!(fault.cause, Cause::PacketTooLarge));
            Ok(())
        },
        _ => Err(Fail::new("packed")),
    }
}
