//! Look-ups in a schema of one type, one property and one global.

use crate::Index;
use core_ir::{Card, PtrId, Ty, TypeId};
use ev_schema::{Body, GlobalInfo, PtrInfo, Schema, TypeInfo};
use ev_value::{List, ScalarTy, Text};
use std::alloc::{AllocError, Global};
use std::test::Fail;

fn email(alloc: Global) -> Result<PtrInfo, AllocError> {
    let name = Text::from_str(alloc, "email")?;
    Ok(PtrInfo {
        name,
        origin: TypeId(0),
        card: Card::One,
        body: Body::Stored(Ty::Scalar(ScalarTy::Str)),
        limits: List::new(alloc),
        link_props: List::new(alloc),
        default: None,
    })
}

fn user(alloc: Global) -> Result<TypeInfo, AllocError> {
    let name = Text::from_str(alloc, "User")?;
    let mut pointers = List::new(alloc);
    pointers.push(PtrId(0))?;
    Ok(TypeInfo {
        name,
        is_abstract: false,
        ancestors: List::new(alloc),
        pointers,
    })
}

// The schema `type User { required email: str; } global me: uuid;`.
fn schema(alloc: Global) -> Result<Schema, AllocError> {
    let mut types = List::new(alloc);
    types.push(user(alloc)?)?;
    let mut pointers = List::new(alloc);
    pointers.push(email(alloc)?)?;
    let mut globals = List::new(alloc);
    let name = Text::from_str(alloc, "me")?;
    let ty = ScalarTy::Uuid;
    globals.push(GlobalInfo { name, ty })?;
    Schema::from_parts(alloc, types, pointers, globals, List::new(alloc))
}

/// Whether the index of a schema finds each of its names, and no others.
fn finds_all(alloc: Global, schema: &Schema) -> Result<bool, AllocError> {
    if schema.pointers().len() != 2 || schema.types().len() != 1 {
        return Ok(false);
    }
    let index = Index::new(alloc, schema)?;
    let user = Text::from_str(alloc, "User")?;
    let email = Text::from_str(alloc, "email")?;
    let id = Text::from_str(alloc, "id")?;
    let me = Text::from_str(alloc, "me")?;
    let ty = TypeId(0);
    let types = index.type_named(&user) == Some(ty) && index.type_named(&me).is_none();
    let globals = index.global_type(&me) == Some(ScalarTy::Uuid);
    let pointers = index.pointer(ty, &email) == Some(PtrId(0))
        && index.pointer(ty, &id) == Some(PtrId(1))
        && index.pointer(ty, &me).is_none();
    Ok(types && globals && pointers && index.computed(PtrId(0)).is_none())
}

#[test]
fn names_are_found(rt: HostRuntime) -> Result<(), Fail> {
    let schema = schema(rt.alloc())?;
    assert!(rt; finds_all(rt.alloc(), &schema)?);
    Ok(())
}
