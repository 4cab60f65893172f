//! What the rules tell of a few objects.

use crate::check_heads;
use db_draft::{Broken, DataRefusal, Draft, Element, Member, ObjectDraft, Plain, Rule};
use ev_schema::TypeInfo;
use ev_value::{List, Text};
use std::alloc::{AllocError, Global};
use std::test::Fail;

fn written(alloc: Global, text: &str) -> Result<Draft, AllocError> {
    let text = Text::from_str(alloc, text)?;
    Ok(Draft::One(Element::Plain(Plain::Str(text))))
}

fn object(alloc: Global, id: &str, ty: &str) -> Result<ObjectDraft, AllocError> {
    let name = Text::from_str(alloc, "id")?;
    let value = written(alloc, id)?;
    let mut members = List::new(alloc);
    members.push(Member { name, value })?;
    let ty = Some(written(alloc, ty)?);
    Ok(ObjectDraft { ty, members })
}

fn user(alloc: Global) -> Result<TypeInfo, AllocError> {
    let name = Text::from_str(alloc, "User")?;
    Ok(TypeInfo {
        name,
        is_abstract: false,
        ancestors: List::new(alloc),
        pointers: List::new(alloc),
    })
}

/// What is told of two objects with these ids, of which the second has this type.
fn told(alloc: Global, first: &str, second: &str, ty: &str) -> Result<Option<Broken>, AllocError> {
    let types = [user(alloc)?];
    let objects = [object(alloc, first, "User")?, object(alloc, second, ty)?];
    match check_heads(alloc, &types, &objects) {
        Ok(_) => Ok(None),
        Err(DataRefusal::Rule(broken)) => Ok(Some(broken)),
        Err(DataRefusal::Memory) => Err(AllocError),
    }
}

fn at_second(rule: Rule, other: Option<u32>) -> Option<Broken> {
    Some(Broken {
        rule,
        object: Some(1),
        other,
    })
}

#[test]
fn the_first_rule_that_fails_is_told(rt: HostRuntime) -> Result<(), Fail> {
    let one = "00000000-0000-0000-0000-000000000001";
    let two = "00000000-0000-0000-0000-000000000002";
    assert_eq!(rt; told(rt.alloc(), one, two, "User")?, None);
    assert_eq!(rt;
        told(rt.alloc(), one, "two", "None")?,
        at_second(Rule::X3, None)
    );
    assert_eq!(rt;
        told(rt.alloc(), one, one, "None")?,
        at_second(Rule::X4, Some(0))
    );
    assert_eq!(rt;
        told(rt.alloc(), one, two, "None")?,
        at_second(Rule::X5, None)
    );
    Ok(())
}
