//! Small trees over the schema `type User { required email: str; }`, whose types the EdgeDB documentation's pages on paths,
//! on operators and on sets give.

use crate::infer_types;
use core_ir::{Card, Core, Expr, Occurrence, Path, PtrId, Root, Scope, Step, Ty, TypeId, Typed};
use ev_index::Index;
use ev_schema::{Body, PtrInfo, Schema, TypeInfo};
use ev_value::{Boxed, List, Op, ScalarTy, Text, Val};
use std::alloc::{AllocError, Global};
use std::test::Fail;
use type_rules::{TypeRefusal, TypeRule};

fn email(alloc: Global) -> Result<PtrInfo, AllocError> {
    let name = Text::from_str(alloc, "email")?;
    Ok(PtrInfo {
        name,
        origin: TypeId(0),
        card: Card::One,
        body: Body::Stored(Ty::Scalar(ScalarTy::Str)),
        limits: List::new(alloc),
        link_props: List::new(alloc),
        default: None,
    })
}

fn user(alloc: Global) -> Result<TypeInfo, AllocError> {
    let name = Text::from_str(alloc, "User")?;
    let mut pointers = List::new(alloc);
    pointers.push(PtrId(0))?;
    Ok(TypeInfo {
        name,
        is_abstract: false,
        ancestors: List::new(alloc),
        pointers,
    })
}

fn schema(alloc: Global) -> Result<Schema, AllocError> {
    let mut types = List::new(alloc);
    types.push(user(alloc)?)?;
    let mut pointers = List::new(alloc);
    pointers.push(email(alloc)?)?;
    Schema::from_parts(alloc, types, pointers, List::new(alloc), List::new(alloc))
}

// The answer for an expression, over a schema.
fn answer(alloc: Global, schema: &Schema, body: Expr) -> Result<Typed, TypeRefusal> {
    if schema.pointers().len() != 2 || schema.types().len() != 1 {
        return Err(TypeRefusal::Memory);
    }
    let index = Index::new(alloc, schema)?;
    let root = Scope {
        start: 0,
        ty: None,
        body: Boxed::new(alloc, body)?,
    };
    infer_types(
        alloc,
        Core {
            subject: None,
            root,
        },
        &index,
    )
}

// `User.NAME`
fn property(alloc: Global, name: &str) -> Result<Expr, AllocError> {
    let mut steps = List::new(alloc);
    steps.push(Step::Dot(Text::from_str(alloc, name)?))?;
    let mut places = List::new(alloc);
    places.push(4)?;
    let name = Text::from_str(alloc, "User")?;
    let path = Path {
        root: Root::Extent(TypeId(0)),
        steps,
    };
    Ok(Expr::Path(0, Occurrence { name, path, places }))
}

// `1 + RIGHT`
fn sum(alloc: Global, right: Val) -> Result<Expr, AllocError> {
    let mut operands = List::new(alloc);
    operands.push(Expr::Literal(0, Val::Int(1)))?;
    operands.push(Expr::Literal(4, right))?;
    Ok(Expr::Operation(2, Op::Add, operands))
}

fn element(alloc: Global, start: u32, value: Val) -> Result<Scope, AllocError> {
    Ok(Scope {
        start,
        ty: None,
        body: Boxed::new(alloc, Expr::Literal(start, value))?,
    })
}

// `{1, SECOND}`
fn set(alloc: Global, second: Val) -> Result<Expr, AllocError> {
    let mut elements = List::new(alloc);
    elements.push(element(alloc, 1, Val::Int(1))?)?;
    elements.push(element(alloc, 4, second)?)?;
    Ok(Expr::Set(0, elements))
}

// Whether an answer is a tree of this scalar type, with the type in the root's slot too.
fn is_scalar(answer: Result<Typed, TypeRefusal>, scalar: ScalarTy) -> bool {
    match answer {
        Ok(typed) => matches!(&typed.ty, Ty::Scalar(ty) if *ty == scalar)
            && matches!(&typed.core.root.ty, Some(Ty::Scalar(ty)) if *ty == scalar),
        Err(_) => false,
    }
}

// Whether an answer is that this rule fails first, at this byte.
fn fails(answer: Result<Typed, TypeRefusal>, rule: TypeRule, byte: u32) -> bool {
    match answer {
        Ok(_) => false,
        Err(TypeRefusal::Rule(r, b)) => r == rule && b == byte,
        Err(_) => false,
    }
}

// Whether the step of a typed tree's path takes the pointer with a number.
fn takes(answer: Result<Typed, TypeRefusal>, pointer: PtrId) -> bool {
    match answer {
        Ok(typed) => match typed.core.root.body.get() {
            Expr::Path(_, occurrence) => {
                matches!(occurrence.path.steps.as_slice(), [Step::Prop(p)] if *p == pointer)
            }
            _ => false,
        },
        Err(_) => false,
    }
}

#[test]
fn names_become_pointers(rt: HostRuntime) -> Result<(), Fail> {
    let alloc = rt.alloc();
    let schema = schema(alloc)?;
    let found = answer(alloc, &schema, property(alloc, "email")?);
    assert!(rt; is_scalar(found, ScalarTy::Str));
    let found = answer(alloc, &schema, property(alloc, "email")?);
    assert!(rt; takes(found, PtrId(0)));
    let missing = answer(alloc, &schema, property(alloc, "name")?);
    assert!(rt; fails(missing, TypeRule::N2, 4));
    Ok(())
}

#[test]
fn operands_and_elements_agree(rt: HostRuntime) -> Result<(), Fail> {
    let alloc = rt.alloc();
    let schema = schema(alloc)?;
    let three = answer(alloc, &schema, sum(alloc, Val::Int(2))?);
    assert!(rt; is_scalar(three, ScalarTy::Int64));
    let text = answer(alloc, &schema, sum(alloc, Val::Bool(true))?);
    assert!(rt; fails(text, TypeRule::T1, 2));
    let numbers = answer(alloc, &schema, set(alloc, Val::Int(2))?);
    assert!(rt; is_scalar(numbers, ScalarTy::Int64));
    let mixed = answer(alloc, &schema, set(alloc, Val::Bool(true))?);
    assert!(rt; fails(mixed, TypeRule::T6, 0));
    Ok(())
}
