//! Trees that are just light enough, and trees that are not.

use crate::Weights;
use core_ir::{
    Card, Carded, Core, Expr, Occurrence, Path, PtrId, Root, Scope, Step, Ty, TypeId, Typed,
};
use ev_schema::{Body, Computed, Policy, PolicyKind, PtrInfo, Schema, TypeInfo};
use ev_value::{Boxed, List, Op, ScalarTy, Text, Val};
use std::alloc::{AllocError, Global};
use std::test::Fail;

fn scope(alloc: Global, body: Expr) -> Result<Scope, AllocError> {
    let body = Boxed::new(alloc, body)?;
    Ok(Scope {
        start: 0,
        ty: None,
        body,
    })
}

fn core(alloc: Global, body: Expr) -> Result<Core, AllocError> {
    let root = scope(alloc, body)?;
    Ok(Core {
        subject: None,
        root,
    })
}

fn path(alloc: Global, root: Root, step: Option<Step>) -> Result<Expr, AllocError> {
    let name = Text::from_str(alloc, "_")?;
    let mut steps = List::new(alloc);
    if let Some(step) = step {
        steps.push(step)?;
    }
    let path = Path { root, steps };
    let places = List::new(alloc);
    Ok(Expr::Path(0, Occurrence { name, path, places }))
}

// So many literals.
fn literals(alloc: Global, count: u32) -> Result<List<Expr>, AllocError> {
    let mut parts = List::new(alloc);
    for _ in 0..count {
        parts.push(Expr::Literal(0, Val::Int(1)))?;
    }
    Ok(parts)
}

fn pointer(alloc: Global) -> Result<PtrInfo, AllocError> {
    let name = Text::from_str(alloc, "p")?;
    Ok(PtrInfo {
        name,
        origin: TypeId(0),
        card: Card::One,
        body: Body::Computed,
        limits: List::new(alloc),
        link_props: List::new(alloc),
        default: None,
    })
}

fn type_info(alloc: Global, name: &str, parent: Option<TypeId>) -> Result<TypeInfo, AllocError> {
    let name = Text::from_str(alloc, name)?;
    let mut ancestors = List::new(alloc);
    if let Some(parent) = parent {
        ancestors.push(parent)?;
    }
    Ok(TypeInfo {
        name,
        is_abstract: false,
        ancestors,
        pointers: List::new(alloc),
    })
}

fn rule(alloc: Global, origin: TypeId) -> Result<Policy, AllocError> {
    let name = Text::from_str(alloc, "r")?;
    let mut kinds = List::new(alloc);
    kinds.push(PolicyKind::Select)?;
    Ok(Policy {
        origin,
        name,
        allow: true,
        kinds,
    })
}

// A type A with so many computed pointers and a type B that extends it; B has so many rules.
fn schema(alloc: Global, pointers: u32, rules: u32) -> Result<Schema, AllocError> {
    let mut types = List::new(alloc);
    types.push(type_info(alloc, "A", None)?)?;
    types.push(type_info(alloc, "B", Some(TypeId(0)))?)?;
    let mut infos = List::new(alloc);
    for _ in 0..pointers {
        infos.push(pointer(alloc)?)?;
    }
    let mut policies = List::new(alloc);
    for _ in 0..rules {
        policies.push(rule(alloc, TypeId(1))?)?;
    }
    Schema::from_parts(alloc, types, infos, List::new(alloc), policies)
}

fn computed(alloc: Global, pointer: PtrId, body: Expr) -> Result<Computed, AllocError> {
    let core = core(alloc, body)?;
    let typed = Typed {
        core,
        ty: Ty::Scalar(ScalarTy::Int64),
    };
    let expr = Carded {
        typed,
        card: Card::One,
    };
    Ok(Computed {
        pointer,
        ty: Ty::Scalar(ScalarTy::Int64),
        card: Card::One,
        expr,
    })
}

// The sum of a pointer and itself.
fn twice(alloc: Global, pointer: PtrId) -> Result<Expr, AllocError> {
    let mut operands = List::new(alloc);
    operands.push(path(alloc, Root::Subject(0), Some(Step::Comp(pointer)))?)?;
    operands.push(path(alloc, Root::Subject(0), Some(Step::Comp(pointer)))?)?;
    Ok(Expr::Operation(0, Op::Add, operands))
}

fn set(alloc: Global, schema: &mut Schema, computed: Computed) -> Result<(), AllocError> {
    if schema.computed(computed.pointer).is_some() {
        return Ok(());
    }
    schema.set_computed(alloc, computed)
}

// The pointer 0 is a literal, and each other one names the one before twice.
fn chain(alloc: Global, length: u32) -> Result<Schema, AllocError> {
    let mut schema = schema(alloc, length, 0)?;
    let body = Expr::Literal(0, Val::Int(1));
    set(alloc, &mut schema, computed(alloc, PtrId(0), body)?)?;
    for before in 0..length {
        let body = twice(alloc, PtrId(before))?;
        if let Some(number) = before.checked_add(1) {
            set(alloc, &mut schema, computed(alloc, PtrId(number), body)?)?;
        }
    }
    Ok(schema)
}

// Whether a query is too heavy over a schema of two types.
fn is_heavy(alloc: Global, schema: &Schema, body: Expr) -> Result<bool, AllocError> {
    if schema.types().len() != 2 {
        return Ok(false);
    }
    let core = core(alloc, body)?;
    Ok(Weights::of_queries(alloc, schema)?.is_too_heavy(&core))
}

// The same of an expression of the schema.
fn is_heavy_inside(alloc: Global, schema: &Schema, body: Expr) -> Result<bool, AllocError> {
    if schema.types().len() != 2 {
        return Ok(false);
    }
    let core = core(alloc, body)?;
    Ok(Weights::of_expressions(alloc, schema)?.is_too_heavy(&core))
}

#[test]
fn shared_expressions_are_measured_once(rt: HostRuntime) -> Result<(), Fail> {
    let alloc = rt.alloc();
    let schema = chain(alloc, 40)?;
    let last = path(alloc, Root::Extent(TypeId(0)), Some(Step::Comp(PtrId(39))))?;
    assert!(rt; is_heavy(alloc, &schema, last)?);
    let early = path(alloc, Root::Extent(TypeId(0)), Some(Step::Comp(PtrId(15))))?;
    assert!(rt; !is_heavy(alloc, &schema, early)?);
    Ok(())
}

#[test]
fn one_more_literal_is_too_heavy(rt: HostRuntime) -> Result<(), Fail> {
    let alloc = rt.alloc();
    let schema = schema(alloc, 0, 0)?;
    let light = literals(alloc, 262_143)?;
    assert!(rt; !is_heavy(alloc, &schema, Expr::Tuple(0, light))?);
    let heavy = literals(alloc, 262_144)?;
    assert!(rt; is_heavy_inside(alloc, &schema, Expr::Tuple(0, heavy))?);
    Ok(())
}

// The root of the type A, beside so many literals.
fn beside_root(alloc: Global, count: u32) -> Result<Expr, AllocError> {
    let mut parts = literals(alloc, count)?;
    parts.push(path(alloc, Root::Extent(TypeId(0)), None)?)?;
    Ok(Expr::Tuple(0, parts))
}

#[test]
fn rules_of_descendants_count(rt: HostRuntime) -> Result<(), Fail> {
    let alloc = rt.alloc();
    let schema = schema(alloc, 0, 3)?;
    assert!(rt; !is_heavy(alloc, &schema, beside_root(alloc, 262_139)?)?);
    assert!(rt; is_heavy(alloc, &schema, beside_root(alloc, 262_140)?)?);
    assert!(rt; !is_heavy_inside(alloc, &schema, beside_root(alloc, 262_139)?)?);
    Ok(())
}

// A literal below so many nodes.
fn below(alloc: Global, count: u32) -> Result<Expr, AllocError> {
    let mut expr = Expr::Literal(0, Val::Int(1));
    for _ in 0..count {
        expr = Expr::Plus(0, Boxed::new(alloc, expr)?);
    }
    Ok(expr)
}

#[test]
fn one_more_node_above_is_too_deep(rt: HostRuntime) -> Result<(), Fail> {
    let alloc = rt.alloc();
    let schema = schema(alloc, 0, 0)?;
    assert!(rt; !is_heavy(alloc, &schema, below(alloc, 63)?)?);
    assert!(rt; is_heavy(alloc, &schema, below(alloc, 64)?)?);
    Ok(())
}
