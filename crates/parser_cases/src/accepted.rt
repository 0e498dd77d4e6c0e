// Texts that are accepted, and the places in their rules.
use super::wide::{parsed, repeated, told};
use actions::Action;
use conditions::Cond;
use parser::Rules;
use std::alloc::{AllocError, Global};
use std::test::Fail;

#[test]
fn how_many_rules(rt: HostRuntime) -> Result<(), Fail> {
    assert_eq!(rt; told(rt.alloc(), b"")?, Ok(0));
    assert_eq!(rt; told(rt.alloc(), b" \n\t\r")?, Ok(0));
    assert_eq!(rt; told(rt.alloc(), b"C1:[]=> ISSUE(Claim=C1);")?, Ok(1));
    assert_eq!(rt;
        told(rt.alloc(), b"C1:[type != \"Type1\"] => ISSUE (Claim = C1);")?,
        Ok(1)
    );
    assert_eq!(rt;
        told(
            rt.alloc(),
            b"a:[]&&[]&&[]&&b:[]=>issue(claim=a);=>issue(claim=a);"
        )?,
        Ok(2)
    );
    assert_eq!(rt; repeated(rt.alloc(), b"=>issue(claim=a);", 32, 32)?, Ok(32));
    Ok(())
}

#[test]
fn every_order_of_an_assignment(rt: HostRuntime) -> Result<(), Fail> {
    assert_eq!(rt;
        told(
            rt.alloc(),
            b"=> issue(type=\"a\", value=\"0\", valuetype=\"Boolean\");"
        )?,
        Ok(1)
    );
    assert_eq!(rt;
        told(
            rt.alloc(),
            b"=> issue(type=\"a\", valuetype=\"int64\", value=\"0\");"
        )?,
        Ok(1)
    );
    assert_eq!(rt;
        told(
            rt.alloc(),
            b"=> issue(value=c.value, valuetype=c.valuetype, type=c.type);"
        )?,
        Ok(1)
    );
    assert_eq!(rt;
        told(
            rt.alloc(),
            b"=> issue(valuetype=c.valuetype, value=\"string\", type=\"uint64\");"
        )?,
        Ok(1)
    );
    Ok(())
}

// The place of the first condition's right side, where its units lie, and the place of the claim that is copied.
fn places_in(rules: &Rules) -> Option<(u16, u16, u16, u16)> {
    let rule = rules.first()?;
    match (rule.selections.first()?.conds.first()?, rule.action) {
        (Cond::Type(_, right), Action::Copy(claim)) => {
            Some((right.at, right.from, right.len, claim.at))
        }
        _ => None,
    }
}

fn places(alloc: Global, text: &[u8]) -> Result<Option<(u16, u16, u16, u16)>, AllocError> {
    Ok(
        parsed(alloc, text)?
            .ok()
            .and_then(|rules| places_in(&rules)),
    )
}

#[test]
fn places_of_a_rule(rt: HostRuntime) -> Result<(), Fail> {
    assert_eq!(rt;
        places(
            rt.alloc(),
            b" C1:[type != \"Type1\"] => ISSUE (Claim = C1);"
        )?,
        Some((13, 14, 5, 40))
    );
    assert_eq!(rt; places(rt.alloc(), b"C1:[]=> ISSUE(Claim=C1);")?, None);
    Ok(())
}

// Only a type that is copied by value will do.
fn twice<T: Copy>(value: T) -> (T, T) {
    (value, value)
}

#[test]
fn what_is_read_is_copied(rt: HostRuntime) -> Result<(), Fail> {
    let text = b"a:[type==\"b\"]=>issue(claim=a);";
    let (mut rules, kept) = twice(parsed(rt.alloc(), text)??);
    assert_eq!(rt; (rules.len(), kept.len()), (1, 1));
    let (rule, same) = twice(*kept.first().ok_or("no rule")?);
    rules.push(rule);
    assert_eq!(rt; (rules.len(), kept.len()), (2, 1));
    let (mut selections, others) = twice(same.selections);
    assert_eq!(rt; (selections.len(), others.len()), (1, 1));
    let (selection, again) = twice(*others.first().ok_or("no selection")?);
    selections.push(selection);
    assert_eq!(rt; (selections.len(), others.len()), (2, 1));
    let (conds, more) = twice(again.conds);
    assert_eq!(rt; (conds.len(), more.len()), (1, 1));
    assert_eq!(rt; conds, selection.conds);
    Ok(())
}
