//! What schemas of texts answer.

use crate::tests::schema_in;
use core_ir::{Card, Carded, Core, Expr, PtrId, Scope, Step, Ty, TypeId, Typed};
use ev_schema::{Computed, Schema, computed_is_bounded, made_is_numbered};
use ev_value::{Boxed, List, ScalarTy, Text, Val};
use std::alloc::{AllocError, Global};
use std::test::Fail;

/// Where `z` has the number 0, `b` the number 1 and `a` the number 2.
const TEXT: &[u8] =
    b"type B extending A { z: int64 { default := 1; default := 2; }; multi b: A { s: str; }; } type A { a: int64; }";

fn type_named(schema: &Schema, name: &str) -> Option<TypeId> {
    if schema.types().len() > 10000 {
        return None;
    }
    schema.type_named(name)
}

/// The default of the first pointer.
fn first_default(schema: &Schema) -> Option<i64> {
    match schema.pointers() {
        [first, ..] => match &first.default {
            Some(Val::Int(number)) => Some(*number),
            _ => None,
        },
        [] => None,
    }
}

/// The bounds of the first pointer.
fn first_bounds(schema: &Schema) -> Option<Card> {
    match schema.pointers() {
        [first, ..] => Some(first.card),
        [] => None,
    }
}

fn are_in_order(listed: &[PtrId]) -> bool {
    match listed {
        [a, b, z] => a.0 == 2 && b.0 == 1 && z.0 == 0,
        _ => false,
    }
}

/// The expression `1`.
fn one(alloc: Global) -> Result<Carded, AllocError> {
    let body = Boxed::new(alloc, Expr::Literal(0, Val::Int(1)))?;
    let root = Scope {
        start: 0,
        ty: None,
        body,
    };
    let subject = Some(TypeId(0));
    let core = Core { subject, root };
    let ty = Ty::Scalar(ScalarTy::Int64);
    let typed = Typed { core, ty };
    let card = Card::One;
    Ok(Carded { typed, card })
}

/// The same schema, where the first pointer has that expression.
fn with_one(alloc: Global, schema: Schema) -> Result<Schema, AllocError> {
    let mut schema = schema;
    let expression = Computed {
        pointer: PtrId(0),
        ty: Ty::Scalar(ScalarTy::Int64),
        card: Card::One,
        expr: one(alloc)?,
    };
    match schema.computed(PtrId(0)) {
        Some(_) => {}
        None => schema.set_computed(alloc, expression)?,
    }
    Ok(schema)
}

fn steps_of(alloc: Global, first: Step, second: Step) -> Result<List<Step>, AllocError> {
    let mut steps = List::new(alloc);
    steps.push(first)?;
    steps.push(second)?;
    Ok(steps)
}

/// The scalar type behind two steps from the objects of the first type.
fn scalar_behind(
    alloc: Global,
    schema: &Schema,
    first: Step,
    second: Step,
) -> Result<Option<ScalarTy>, AllocError> {
    let steps = steps_of(alloc, first, second)?;
    match schema.type_along(alloc, &Ty::Object(TypeId(0)), steps.as_slice())? {
        Some(Ty::Scalar(ty)) => Ok(Some(ty)),
        _ => Ok(None),
    }
}

#[test]
fn schemas_answer(rt: HostRuntime) -> Result<(), Fail> {
    made_is_numbered();
    let alloc = rt.alloc();
    let schema = schema_in(alloc, TEXT).ok_or("the text has no schema")?;
    assert!(rt; type_named(&schema, "A") == Some(TypeId(1)));
    assert!(rt; type_named(&schema, "a").is_none());
    let listed = schema.pointers_in_order(alloc, TypeId(0))?;
    assert!(rt; are_in_order(listed.as_slice()));
    assert!(rt; first_default(&schema) == Some(2));
    Ok(())
}

#[test]
fn expressions_bound_their_pointers(rt: HostRuntime) -> Result<(), Fail> {
    computed_is_bounded();
    let alloc = rt.alloc();
    let schema = schema_in(alloc, TEXT).ok_or("the text has no schema")?;
    assert!(rt; first_bounds(&schema) == Some(Card::AtMostOne));
    let known = with_one(alloc, schema)?;
    assert!(rt; first_bounds(&known) == Some(Card::One));
    Ok(())
}

#[test]
fn types_follow_steps(rt: HostRuntime) -> Result<(), Fail> {
    let alloc = rt.alloc();
    let schema = schema_in(alloc, TEXT).ok_or("the text has no schema")?;
    let property = Step::LinkProp(Text::from_str(alloc, "s")?);
    let at_link = scalar_behind(alloc, &schema, Step::Link(PtrId(1)), property)?;
    assert!(rt; at_link == Some(ScalarTy::Str));
    let narrowed = Step::Is(TypeId(1));
    let stored = scalar_behind(alloc, &schema, narrowed, Step::Prop(PtrId(2)))?;
    assert!(rt; stored == Some(ScalarTy::Int64));
    let past = scalar_behind(alloc, &schema, Step::Prop(PtrId(0)), Step::Is(TypeId(1)))?;
    assert!(rt; past.is_none());
    Ok(())
}
