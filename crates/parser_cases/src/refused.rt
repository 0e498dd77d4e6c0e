// Texts that are refused: the fault, with its place.
use super::wide::{repeated, told};
use faults::{Cause, Fault};
use std::test::Fail;

#[test]
fn words_without_use(rt: HostRuntime) -> Result<(), Fail> {
    assert_eq!(rt;
        told(
            rt.alloc(),
            b"=> ISSUE (type=\"type1\", VALUE=false, VALUE-TYPE=\"boolean\");"
        )?,
        Err(Fault::at(Cause::UnexpectedWord, 35))
    );
    assert_eq!(rt;
        told(rt.alloc(), b"C1:[type] => ISSUE (Claim = C1);")?,
        Err(Fault::at(Cause::UnexpectedWord, 8))
    );
    assert_eq!(rt;
        told(rt.alloc(), b"a:[] => issue(claim=a) ")?,
        Err(Fault::at(Cause::UnexpectedWord, 23))
    );
    assert_eq!(rt;
        told(rt.alloc(), b"=> ")?,
        Err(Fault::at(Cause::UnexpectedWord, 3))
    );
    assert_eq!(rt;
        told(rt.alloc(), b"c:[];\"")?,
        Err(Fault::at(Cause::UnexpectedWord, 4))
    );
    assert_eq!(rt;
        told(
            rt.alloc(),
            b"[valuetype == \"x\", value == \"x\"] => issue(claim=a);"
        )?,
        Err(Fault::at(Cause::UnexpectedWord, 14))
    );
    assert_eq!(rt;
        told(rt.alloc(), b"=>issue(claim=a);;")?,
        Err(Fault::at(Cause::UnexpectedWord, 17))
    );
    Ok(())
}

#[test]
fn units_that_are_no_word(rt: HostRuntime) -> Result<(), Fail> {
    assert_eq!(rt;
        told(rt.alloc(), b"a:[] & b:[]")?,
        Err(Fault::at(Cause::UnknownCharacter, 5))
    );
    assert_eq!(rt;
        told(rt.alloc(), b"[type == \"abc]")?,
        Err(Fault::at(Cause::StringNotClosed, 9))
    );
    assert_eq!(rt;
        told(rt.alloc(), b"abcdefghijklmnopqrstuvwxyz_01234:[]")?,
        Err(Fault::at(Cause::WordTooLong, 0))
    );
    Ok(())
}

#[test]
fn items_past_their_limit(rt: HostRuntime) -> Result<(), Fail> {
    assert_eq!(rt;
        told(
            rt.alloc(),
            b"[type==\"a\",type==\"a\",type==\"a\",type==\"a\",type=>"
        )?,
        Err(Fault::at(Cause::OverLimit, 41))
    );
    assert_eq!(rt;
        told(rt.alloc(), b"[] && [] && [] && [] && x")?,
        Err(Fault::at(Cause::OverLimit, 24))
    );
    assert_eq!(rt;
        told(rt.alloc(), b"[] && [] && [] && [] && =>")?,
        Err(Fault::at(Cause::UnexpectedWord, 24))
    );
    assert_eq!(rt;
        repeated(rt.alloc(), b"=>issue(claim=a);", 32, 91)?,
        Err(Fault::at(Cause::OverLimit, 544))
    );
    assert_eq!(rt;
        repeated(rt.alloc(), b"=>issue(claim=a);", 32, 59)?,
        Err(Fault::at(Cause::UnexpectedWord, 544))
    );
    Ok(())
}
