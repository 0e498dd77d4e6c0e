// Every kind of store under the same call, and every kind of source under an overlay.
use super::Fixed;
use super::shown::{granted, numbered, refused};
use claims::{Claim, One, Source};
use faults::{Cause, Fault};
use packet::check as checked_packet;
use std::test::Fail;
use store::{Overlay, Store, Table, append_read_cut};

// One who holds a store by value, as whoever works over any store does.
#[derive(Drop)]
struct Keeper<S: Store> {
    store: S,
}

// What a claim put to the store is read back as.
fn round<S: Store + Drop>(store: S) -> Result<Option<Claim>, Fault> {
    let mut k = Keeper { store };
    append_read_cut(&mut k.store, numbered(7))
}

#[test]
fn over_a_packet_and_one_claim(rt: HostRuntime) -> Result<(), Fail> {
    let bytes = b"\x01\x00\x13\x01\x00t\x07\x00b\x00o\x00o\x00l\x00e\x00a\x00n\x01";
    let o = Overlay::over(checked_packet(bytes)?);
    assert_eq!(rt; o.floor(), 1);
    assert_eq!(rt; round(o), Ok(Some(numbered(7))));
    assert_eq!(rt;
        round(Overlay::over(One::new(numbered(1)))),
        Ok(Some(numbered(7)))
    );
    Ok(())
}

#[test]
fn a_table_with_room_and_one_without(rt: HostRuntime) {
    let mut buffer = [numbered(1000); 4];
    assert_eq!(rt; round(Table::new(&mut buffer)), Ok(Some(numbered(7))));
    let mut none: [Claim; 0] = [];
    assert_eq!(rt; round(Table::new(&mut none)), refused(Cause::StoreFull));
}

#[test]
fn an_overlay_on_an_overlay_on_a_table(rt: HostRuntime) {
    let mut buffer = [numbered(1000); 4];
    let mut t = Table::new(&mut buffer);
    assert_eq!(rt; granted(&mut t), 4);
    let mut o = Overlay::over(t);
    assert_eq!(rt; granted(&mut o), 128);
    let top = Overlay::over(o);
    assert_eq!(rt; top.floor(), 132);
    assert_eq!(rt; top.claim_at(131), Some(numbered(127)));
    assert_eq!(rt; round(top), Ok(Some(numbered(7))));
}

#[test]
fn a_store_of_another_crate(rt: HostRuntime) {
    let mut f = Fixed::new(numbered(3));
    assert_eq!(rt; granted(&mut f), 7);
    assert_eq!(rt; round(Overlay::over(&f)), Ok(Some(numbered(7))));
    assert_eq!(rt; f.count(), 8);
    assert_eq!(rt; round(f), refused(Cause::StoreFull));
    assert_eq!(rt; round(Fixed::new(numbered(3))), Ok(Some(numbered(7))));
}
