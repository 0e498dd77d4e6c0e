// The boundaries of an overlay: how many claims lie below, how many more it takes, where a cut is refused.
use super::shown::{granted, numbered, refused};
use claims::{Listed, Source};
use faults::Cause;
use store::{Overlay, Store};

#[test]
fn how_many_more(rt: HostRuntime) {
    let below = [numbered(1000); 512];
    assert_eq!(rt;
        granted(&mut Overlay::over(Listed::over(&below[0..0]))),
        128
    );
    assert_eq!(rt;
        granted(&mut Overlay::over(Listed::over(&below[0..384]))),
        128
    );
    assert_eq!(rt;
        granted(&mut Overlay::over(Listed::over(&below[0..385]))),
        127
    );
    assert_eq!(rt;
        granted(&mut Overlay::over(Listed::over(&below[0..511]))),
        1
    );
    assert_eq!(rt; granted(&mut Overlay::over(Listed::over(&below))), 0);
}

#[test]
fn made_with_the_list_below(rt: HostRuntime) {
    let below = [numbered(10), numbered(11)];
    let o = Overlay::over(Listed::over(&below));
    assert_eq!(rt; o.floor(), 2);
    assert_eq!(rt; o.count(), 2);
    assert_eq!(rt; o.claim_at(0), Some(numbered(10)));
    assert_eq!(rt; o.claim_at(1), Some(numbered(11)));
    assert_eq!(rt; o.claim_at(2), None);
}

#[test]
fn cuts(rt: HostRuntime) {
    let below = [numbered(10), numbered(11)];
    let mut o = Overlay::over(Listed::over(&below));
    assert_eq!(rt; o.append(numbered(12)), Ok(()));
    assert_eq!(rt; o.append(numbered(13)), Ok(()));
    assert_eq!(rt; o.cut(5), refused(Cause::CutOutside));
    assert_eq!(rt; o.cut(4), Ok(()));
    assert_eq!(rt; o.cut(1), refused(Cause::CutOutside));
    assert_eq!(rt; o.count(), 4);
    assert_eq!(rt; o.claim_at(3), Some(numbered(13)));
    assert_eq!(rt; o.cut(2), Ok(()));
    assert_eq!(rt; o.count(), 2);
    assert_eq!(rt; o.claim_at(2), None);
}

#[test]
fn full_is_left_as_it_was(rt: HostRuntime) {
    let below = [numbered(1000); 511];
    let mut o = Overlay::over(Listed::over(&below));
    assert_eq!(rt; o.append(numbered(1)), Ok(()));
    assert_eq!(rt; o.append(numbered(2)), refused(Cause::StoreFull));
    assert_eq!(rt; o.count(), 512);
    assert_eq!(rt; o.claim_at(510), Some(numbered(1000)));
    assert_eq!(rt; o.claim_at(511), Some(numbered(1)));
    assert_eq!(rt; o.claim_at(512), None);
    assert_eq!(rt; o.cut(513), refused(Cause::CutOutside));
    assert_eq!(rt; o.cut(510), refused(Cause::CutOutside));
    assert_eq!(rt; o.cut(512), Ok(()));
}
