// The boundaries of a table: the records of its buffer, where it is full, where a cut is refused.
use super::shown::{granted, numbered, refused};
use claims::{Claim, Source, Value};
use faults::Cause;
use store::{Store, Table};

#[test]
fn an_empty_buffer(rt: HostRuntime) {
    let mut buffer: [Claim; 0] = [];
    let mut t = Table::new(&mut buffer);
    assert_eq!(rt; t.append(numbered(1)), refused(Cause::StoreFull));
    assert_eq!(rt; t.cut(0), Ok(()));
    assert_eq!(rt; t.cut(1), refused(Cause::CutOutside));
    assert_eq!(rt; t.count(), 0);
}

#[test]
fn a_buffer_of_511_records(rt: HostRuntime) {
    let mut buffer = [numbered(1000); 511];
    assert_eq!(rt; granted(&mut Table::new(&mut buffer)), 511);
}

#[test]
fn a_buffer_of_512_records(rt: HostRuntime) {
    let mut buffer = [numbered(1000); 512];
    assert_eq!(rt; granted(&mut Table::new(&mut buffer)), 512);
}

#[test]
fn a_buffer_of_600_records(rt: HostRuntime) {
    let mut buffer = [numbered(1000); 600];
    assert_eq!(rt; granted(&mut Table::new(&mut buffer)), 512);
    assert_eq!(rt; buffer[511].value, Value::Uint64(511));
    assert_eq!(rt; buffer[512].value, Value::Uint64(1000));
}

#[test]
fn made_empty_over_a_used_buffer(rt: HostRuntime) {
    let mut buffer = [numbered(7); 3];
    let t = Table::new(&mut buffer);
    assert_eq!(rt; t.count(), 0);
    assert_eq!(rt; t.floor(), 0);
    assert_eq!(rt; t.claim_at(0), None);
}

#[test]
fn full_is_left_as_it_was(rt: HostRuntime) {
    let mut buffer = [numbered(1000); 2];
    let mut t = Table::new(&mut buffer);
    assert_eq!(rt; t.append(numbered(1)), Ok(()));
    assert_eq!(rt; t.append(numbered(2)), Ok(()));
    assert_eq!(rt; t.append(numbered(3)), refused(Cause::StoreFull));
    assert_eq!(rt; t.count(), 2);
    assert_eq!(rt; t.claim_at(0), Some(numbered(1)));
    assert_eq!(rt; t.claim_at(1), Some(numbered(2)));
    assert_eq!(rt; t.claim_at(2), None);
}

#[test]
fn cuts(rt: HostRuntime) {
    let mut buffer = [numbered(1000); 4];
    let mut t = Table::new(&mut buffer);
    assert_eq!(rt; granted(&mut t), 4);
    assert_eq!(rt; t.cut(5), refused(Cause::CutOutside));
    assert_eq!(rt; t.cut(4), Ok(()));
    assert_eq!(rt; t.cut(1), Ok(()));
    assert_eq!(rt; t.count(), 1);
    assert_eq!(rt; t.claim_at(1), None);
    assert_eq!(rt; t.cut(2), refused(Cause::CutOutside));
    assert_eq!(rt; t.append(numbered(9)), Ok(()));
    assert_eq!(rt; t.claim_at(1), Some(numbered(9)));
    assert_eq!(rt; t.cut(0), Ok(()));
    assert_eq!(rt; t.count(), 0);
}
