//! What the rules tell of one object, and characters in place of bytes.

use crate::{meets, object_flaw};
use core_ir::{Card, PtrId, Ty, TypeId};
use db_draft::{Draft, Element, Member, Plain, Rule};
use db_ids::Heads;
use ev_schema::{Body, Limit, PtrInfo, Schema, TypeInfo};
use ev_value::{List, ScalarTy, Text, Val};
use std::alloc::{AllocError, Global};
use std::test::Fail;

#[test]
fn lengths_count_characters(rt: HostRuntime) -> Result<(), Fail> {
    let text = Val::Str(Text::from_str(rt.alloc(), "é")?);
    assert!(rt; meets(&Limit::MaxLen(1), &text));
    assert!(rt; !meets(&Limit::MinLen(2), &text));
    assert!(rt; meets(&Limit::MinValue(2), &text), "no number");
    Ok(())
}

fn name(alloc: Global) -> Result<PtrInfo, AllocError> {
    let name = Text::from_str(alloc, "name")?;
    Ok(PtrInfo {
        name,
        origin: TypeId(0),
        card: Card::One,
        body: Body::Stored(Ty::Scalar(ScalarTy::Str)),
        limits: List::new(alloc),
        link_props: List::new(alloc),
        default: None,
    })
}

fn user(alloc: Global) -> Result<TypeInfo, AllocError> {
    let name = Text::from_str(alloc, "User")?;
    let mut pointers = List::new(alloc);
    pointers.push(PtrId(0))?;
    Ok(TypeInfo {
        name,
        is_abstract: false,
        ancestors: List::new(alloc),
        pointers,
    })
}

fn schema(alloc: Global) -> Result<Schema, AllocError> {
    let mut types = List::new(alloc);
    types.push(user(alloc)?)?;
    let mut pointers = List::new(alloc);
    pointers.push(name(alloc)?)?;
    Schema::from_parts(alloc, types, pointers, List::new(alloc), List::new(alloc))
}

/// The rule that fails in an object with one member.
fn told(alloc: Global, key: &str, value: Draft) -> Result<Option<Rule>, AllocError> {
    let schema = schema(alloc)?;
    let ty = TypeId(0);
    let listed = schema.pointers_in_order(alloc, ty)?;
    let name = Text::from_str(alloc, key)?;
    if schema.pointers().is_empty() || schema.pointers().len() > 2 {
        return Ok(Some(Rule::X1));
    }
    let heads = Heads::new(alloc);
    let members = [Member { name, value }];
    match object_flaw(alloc, &schema, &heads, ty, listed.as_slice(), &members)? {
        Some(flaw) => Ok(Some(flaw.rule)),
        None => Ok(None),
    }
}

fn one(plain: Plain) -> Draft {
    Draft::One(Element::Plain(plain))
}

#[test]
fn the_rule_at_the_least_name_is_told(rt: HostRuntime) -> Result<(), Fail> {
    let alloc = rt.alloc();
    assert_eq!(rt; told(alloc, "name", one(Plain::Null))?, Some(Rule::X8));
    assert_eq!(rt; told(alloc, "name", one(Plain::Int(1)))?, Some(Rule::X7));
    assert_eq!(rt;
        told(alloc, "name", Draft::Array(List::new(alloc)))?,
        Some(Rule::X9)
    );
    assert_eq!(rt; told(alloc, "mane", one(Plain::Null))?, Some(Rule::X6));
    assert_eq!(rt; told(alloc, "size", one(Plain::Null))?, Some(Rule::X8));
    Ok(())
}
