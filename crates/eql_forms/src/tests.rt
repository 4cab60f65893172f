//! Queries over a small schema: `A`, which extends the abstract `B`, and their pointers.

use crate::{BuildError, build_query};
use ast::{BinaryOperator, Clauses, Name, Postfix, QualifiedName, Query, Select, Span, Statement};
use core_ir::{Card, Expr, PtrId, Root, Scope, Step, Ty, TypeId};
use ev_schema::{Body, PtrInfo, Schema, TypeInfo};
use ev_value::{Boxed, List, Op, ScalarTy, Text, Val};
use std::alloc::{AllocError, Global};
use std::test::Fail;

// ---- the schema

fn type_info(alloc: Global, name: &str, is_abstract: bool) -> Result<TypeInfo, AllocError> {
    let pointers = List::from_slice(alloc, &[PtrId(0), PtrId(1), PtrId(2)])?;
    let name = Text::from_str(alloc, name)?;
    Ok(TypeInfo {
        name,
        is_abstract,
        ancestors: List::new(alloc),
        pointers,
    })
}

fn pointer(alloc: Global, name: &str, card: Card, ty: Ty) -> Result<PtrInfo, AllocError> {
    let name = Text::from_str(alloc, name)?;
    Ok(PtrInfo {
        name,
        origin: TypeId(0),
        card,
        body: Body::Stored(ty),
        limits: List::new(alloc),
        link_props: List::new(alloc),
        default: None,
    })
}

fn types(alloc: Global) -> Result<List<TypeInfo>, AllocError> {
    let mut types = List::new(alloc);
    types.push(type_info(alloc, "B", true)?)?;
    types.push(type_info(alloc, "A", false)?)?;
    Ok(types)
}

fn pointers(alloc: Global) -> Result<List<PtrInfo>, AllocError> {
    let mut pointers = List::new(alloc);
    let text = Ty::Scalar(ScalarTy::Str);
    pointers.push(pointer(alloc, "x", Card::AtMostOne, text)?)?;
    let text = Ty::Scalar(ScalarTy::Str);
    pointers.push(pointer(alloc, "tags", Card::Many, text)?)?;
    let object = Ty::Object(TypeId(0));
    pointers.push(pointer(alloc, "link", Card::One, object)?)?;
    Ok(pointers)
}

fn schema(alloc: Global) -> Result<Schema, AllocError> {
    let types = types(alloc)?;
    let pointers = pointers(alloc)?;
    Schema::from_parts(alloc, types, pointers, List::new(alloc), List::new(alloc))
}

// ---- surface trees

fn at(start: u32) -> Span {
    Span { start, end: start }
}

fn named(alloc: Global, start: u32, name: &str) -> Result<ast::Expr, AllocError> {
    let text = Text::from_str(alloc, name)?;
    let span = at(start);
    let name = Name { text, span };
    Ok(ast::Expr::Name(span, QualifiedName { module: None, name }))
}

/// A step behind a base.
fn step(alloc: Global, base: ast::Expr, start: u32, name: &str) -> Result<ast::Expr, AllocError> {
    let text = Text::from_str(alloc, name)?;
    let span = at(start);
    let step = ast::Step::Dot(Name { text, span });
    ast::Expr::postfix(alloc, base, Postfix { span, step })
}

fn number(alloc: Global, start: u32, digits: &str) -> Result<ast::Expr, AllocError> {
    Ok(ast::Expr::Int(at(start), Text::from_str(alloc, digits)?))
}

/// `{1, 2} + 3`
fn sum(alloc: Global) -> Result<ast::Expr, AllocError> {
    let mut elements = List::new(alloc);
    elements.push(number(alloc, 8, "1")?)?;
    elements.push(number(alloc, 11, "2")?)?;
    let set = ast::Expr::Set(at(7), elements);
    let three = number(alloc, 16, "3")?;
    ast::Expr::binary(alloc, BinaryOperator::Add, at(14), set, three)
}

fn group(alloc: Global, start: u32, inner: ast::Expr) -> Result<ast::Expr, AllocError> {
    Ok(ast::Expr::Group(at(start), Boxed::new(alloc, inner)?))
}

fn query(alloc: Global, subject: ast::Expr) -> Result<Query, AllocError> {
    let subject = Boxed::new(alloc, subject)?;
    let clauses = Clauses {
        filter: None,
        order: List::new(alloc),
        offset: None,
        limit: None,
    };
    let select = Select { subject, clauses };
    let statement = Statement::Select(at(0), List::new(alloc), select);
    Ok(Query {
        span: at(0),
        statement,
    })
}

// ---- what is built

/// The scope of a subject.
fn built(alloc: Global, subject: ast::Expr) -> Result<Option<Scope>, AllocError> {
    let query = query(alloc, subject)?;
    let schema = schema(alloc)?;
    if schema.types().len() > 2 || schema.pointers().is_empty() || schema.pointers().len() > 4 {
        return Ok(None);
    }
    match build_query(alloc, &schema, &query) {
        Ok(scope) => Ok(Some(scope)),
        Err(BuildError::Unbuilt) => Ok(None),
        Err(BuildError::Memory) => Err(AllocError),
    }
}

/// Of a path in a scope: where the scope, the path and its step begin, and the type and the property.
fn path_in(scope: &Scope) -> Option<(u32, u32, u32, TypeId, PtrId)> {
    let Expr::Path(start, occurrence) = scope.body.get() else {
        return None;
    };
    let path = &occurrence.path;
    match (
        path.root,
        path.steps.as_slice(),
        occurrence.places.as_slice(),
    ) {
        (Root::Extent(ty), [Step::Prop(pointer)], [place]) => {
            Some((scope.start, *start, *place, ty, *pointer))
        }
        _ => None,
    }
}

/// The path of a step behind a name, in parentheses, all of which begin at these bytes.
fn step_path(
    alloc: Global,
    ty: &str,
    name: &str,
) -> Result<Option<(u32, u32, u32, TypeId, PtrId)>, AllocError> {
    let path = step(alloc, named(alloc, 8, ty)?, 9, name)?;
    match built(alloc, group(alloc, 7, path)?)? {
        Some(scope) => Ok(path_in(&scope)),
        None => Ok(None),
    }
}

#[test]
fn steps_to_properties(rt: HostRuntime) -> Result<(), Fail> {
    let alloc = rt.alloc();
    let due = Some((7, 8, 9, TypeId(1), PtrId(0)));
    assert_eq!(rt; step_path(alloc, "A", "x")?, due);
    let due = Some((7, 8, 9, TypeId(0), PtrId(3)));
    assert_eq!(rt; step_path(alloc, "B", "id")?, due);
    assert_eq!(rt; step_path(alloc, "C", "x")?, None);
    assert_eq!(rt; step_path(alloc, "A", "y")?, None);
    assert_eq!(rt; step_path(alloc, "A", "link")?, None);
    assert_eq!(rt; step_path(alloc, "A", "tags")?, None);
    Ok(())
}

#[test]
fn one_step_alone(rt: HostRuntime) -> Result<(), Fail> {
    let alloc = rt.alloc();
    let first = step(alloc, named(alloc, 7, "A")?, 8, "link")?;
    let second = step(alloc, first, 13, "x")?;
    assert!(rt; built(alloc, second)?.is_none());
    Ok(())
}

/// Where the parts of `{1, 2} + 3` begin, if that is the tree.
fn sum_in(scope: &Scope) -> Option<(u32, u32, u32)> {
    let Expr::Operation(start, Op::Add, operands) = scope.body.get() else {
        return None;
    };
    let [Expr::Set(_, elements), Expr::Literal(third, Val::Int(3))] = operands.as_slice() else {
        return None;
    };
    match elements.as_slice() {
        [_, second] => Some((*start, second.start, *third)),
        _ => None,
    }
}

#[test]
fn sums_of_sets(rt: HostRuntime) -> Result<(), Fail> {
    let scope = built(rt.alloc(), sum(rt.alloc())?)?;
    assert_eq!(rt; scope.as_ref().and_then(sum_in), Some((7, 11, 16)));
    Ok(())
}
