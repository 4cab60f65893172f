//! Texts of arguments, and what becomes of them over a schema with one global and a query with two parameters.

use super::*;
use ev_list::Param;
use ev_schema::{GlobalInfo, Schema};
use ev_value::{List, ScalarTy, Text};
use std::alloc::{AllocError, Global};
use std::test::Fail;

fn global(alloc: Global) -> Result<List<GlobalInfo>, AllocError> {
    let mut all = List::new(alloc);
    let name = Text::from_str(alloc, "me")?;
    let ty = ScalarTy::Str;
    all.push(GlobalInfo { name, ty })?;
    Ok(all)
}

// The schema `global me: str;`.
fn schema(alloc: Global) -> Result<Schema, AllocError> {
    let globals = global(alloc)?;
    Schema::from_parts(
        alloc,
        List::new(alloc),
        List::new(alloc),
        globals,
        List::new(alloc),
    )
}

fn param(alloc: Global, name: &str, ty: ScalarTy, optional: bool) -> Result<Param, AllocError> {
    let name = Text::from_str(alloc, name)?;
    Ok(Param { name, ty, optional })
}

// The parameters `<str>$x` and `<optional uuid>$o`.
fn params(alloc: Global) -> Result<List<Param>, AllocError> {
    let mut all = List::new(alloc);
    all.push(param(alloc, "x", ScalarTy::Str, false)?)?;
    all.push(param(alloc, "o", ScalarTy::Uuid, true)?)?;
    Ok(all)
}

static TAKEN: [(&str, usize, usize); 4] = [
    (r#"{"params":{"x":"hi"}}"#, 0, 1),
    (r#"{"globals":{},"params":{"x":""}}"#, 0, 1),
    (
        r#"{"params":{"x":"hi","o":null},"globals":{"me":"Bob"}}"#,
        1,
        1,
    ),
    (
        r#"{"params":{"o":"00000000-0000-0000-0000-000000000001","x":"hi"}}"#,
        0,
        2,
    ),
];

static REFUSED: [(&str, ArgsRule, bool, &str); 12] = [
    ("[]", ArgsRule::A1, false, ""),
    ("{", ArgsRule::A1, false, ""),
    (r#"{"params":null}"#, ArgsRule::A1, false, ""),
    (r#"{"params":{"x":1},"more":{}}"#, ArgsRule::A1, false, ""),
    (
        r#"{"params":{"x":1},"globals":{"you":"Bob"}}"#,
        ArgsRule::A2,
        true,
        "you",
    ),
    (r#"{"globals":{"you":null}}"#, ArgsRule::A2, true, "you"),
    (r#"{"globals":{"me":true}}"#, ArgsRule::A3, true, "me"),
    (r#"{"params":{"x":1,"y":2}}"#, ArgsRule::A3, false, "x"),
    (r#"{"params":{"o":"me","x":1}}"#, ArgsRule::A3, false, "o"),
    (r#"{"params":{"y":2}}"#, ArgsRule::A2, false, "y"),
    ("{}", ArgsRule::A4, false, "x"),
    (r#"{"params":{"x":null}}"#, ArgsRule::A4, false, "x"),
];

fn is_name(name: &Option<Text>, due: &str) -> bool {
    match name {
        Some(name) => name.as_str() == due,
        None => due.is_empty(),
    }
}

fn takes(alloc: Global, text: &str, globals: usize, given: usize) -> Result<bool, AllocError> {
    let schema = schema(alloc)?;
    let params = params(alloc)?;
    match load_args(alloc, &schema, params.as_slice(), text.as_bytes()) {
        Ok(args) => Ok(args.globals.len() == globals && args.params.len() == given),
        Err(_) => Ok(false),
    }
}

fn refuses(
    alloc: Global,
    text: &str,
    rule: ArgsRule,
    global: bool,
    name: &str,
) -> Result<bool, AllocError> {
    let schema = schema(alloc)?;
    let params = params(alloc)?;
    match load_args(alloc, &schema, params.as_slice(), text.as_bytes()) {
        Ok(_) => Ok(false),
        Err(ArgsRefusal::Memory) => Ok(false),
        Err(ArgsRefusal::Rule(broken)) => {
            Ok(broken.rule == rule && broken.global == global && is_name(&broken.name, name))
        }
    }
}

#[test]
fn arguments_are_taken(rt: HostRuntime) -> Result<(), Fail> {
    let alloc = rt.alloc();
    for (text, globals, given) in &TAKEN {
        assert!(rt; takes(alloc, text, *globals, *given)?);
    }
    Ok(())
}

#[test]
fn arguments_are_refused(rt: HostRuntime) -> Result<(), Fail> {
    let alloc = rt.alloc();
    for (text, rule, global, name) in &REFUSED {
        assert!(rt; refuses(alloc, text, *rule, *global, name)?);
    }
    Ok(())
}
