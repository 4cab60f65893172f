//! Paths from the objects of a type to the values of a property.
ghost use Rattle.std.specs.Prelude.{◌≡◌, ◌<◌, ◌^◌, IfOk, Some, length, slice_get, zero};
ghost use Rattle.eql_forms.specs.Built as spec;
ghost use Rattle.eql_forms.specs.Built.{IsBuilt};

use crate::built::BuildError;
use ast::{Postfix, QualifiedName, Step};
use core_ir::{Expr, Occurrence, Path, PtrId, Root, Ty, TypeId};
use ev_schema::{Body, Schema, TypeInfo};
use ev_value::{List, Text};
use sqlite_items::at;
use std::alloc::{AllocError, Global};

// The type with a name.
fn type_named(types: &[TypeInfo], name: &str) -> Option<TypeId>
    requires { length types.now < 2 ^ 32 }
    ensures { result ≡ spec.type_from zero types.now name.now }
{
    for (i, info) in types.iter().enumerate() {
        if info.name.as_str() == name {
            return Some(TypeId(i as u32));
        }
    }
    None
}

// Whether values are stored, and are neither objects nor arrays.
fn is_property(body: &Body) -> bool
    ensures { result ≡ spec.is_property body.now }
{
    match body {
        Body::Stored(Ty::Scalar(_)) => true,
        Body::Stored(Ty::Object(_) | Ty::Tuple(_) | Ty::Array(_)) | Body::Computed => false,
    }
}

// Whether a pointer is a stored property with at most one value.
fn is_stored_property(schema: &Schema, pointer: PtrId) -> bool
    ensures { result ≡ spec.is_stored_property (slice_get schema.now.pointers pointer.0) }
{
    match at(schema.pointers(), pointer.0 as usize) {
        Some(info) => is_property(&info.body) && info.card.is_single(),
        None => false,
    }
}

// A type and its stored property with at most one value, by their names.
fn stored_property(schema: &Schema, ty: &str, name: &str) -> Option<(TypeId, PtrId)>
    requires types { length schema.now.types < 2 ^ 32 }
    requires some { 0 < length schema.now.pointers }
    requires few { length schema.now.pointers < 2 ^ 32 }
    ensures { result ≡ spec.stored_property schema.now ty.now name.now }
{
    let ty = type_named(schema.types(), ty)?;
    let pointer = schema.pointer(ty, name)?;
    if is_stored_property(schema, pointer) {
        Some((ty, pointer))
    } else {
        None
    }
}

// The path from the objects of a type to the values of a property.
fn path_to(
    alloc: Global,
    start: u32,
    name: &Text,
    place: u32,
    property: (TypeId, PtrId),
) -> Result<Expr, AllocError>
    ensures { IfOk result (λ x. Some x ≡ spec.path_to start name.now place (Some property)) }
{
    let (ty, pointer) = property;
    let name = name.copied(alloc)?;
    let mut steps = List::new(alloc);
    steps.push(core_ir::Step::Prop(pointer))?;
    let mut places = List::new(alloc);
    places.push(place)?;
    let path = Path {
        root: Root::Extent(ty),
        steps,
    };
    Ok(Expr::Path(start, Occurrence { name, path, places }))
}

// The path of a step behind a name.
fn step_path(
    alloc: Global,
    schema: &Schema,
    start: u32,
    ty: &QualifiedName,
    postfix: &Postfix,
) -> Result<Expr, BuildError>
    requires types { length schema.now.types < 2 ^ 32 }
    requires some { 0 < length schema.now.pointers }
    requires few { length schema.now.pointers < 2 ^ 32 }
    ensures { IsBuilt result (spec.step_path schema.now start ty.now.module ty.now.name.text postfix.now.span.start postfix.now.step) }
{
    match (&ty.module, &postfix.step) {
        (None, Step::Dot(name)) => {
            let ty = &ty.name.text;
            match stored_property(schema, ty.as_str(), name.text.as_str()) {
                Some(property) => Ok(path_to(alloc, start, ty, postfix.span.start, property)?),
                None => Err(BuildError::Unbuilt),
            }
        }
        _ => Err(BuildError::Unbuilt),
    }
}

// The path of a step behind an expression.
fn base_path(
    alloc: Global,
    schema: &Schema,
    start: u32,
    base: &ast::Expr,
    postfix: &Postfix,
) -> Result<Expr, BuildError>
    requires types { length schema.now.types < 2 ^ 32 }
    requires some { 0 < length schema.now.pointers }
    requires few { length schema.now.pointers < 2 ^ 32 }
    ensures { IsBuilt result (spec.base_path schema.now start base.now postfix.now) }
{
    match base {
        ast::Expr::Name(_, ty) => step_path(alloc, schema, start, ty, postfix),
        _ => Err(BuildError::Unbuilt),
    }
}

// The path that an expression is.
pub fn path(alloc: Global, schema: &Schema, expr: &ast::Expr) -> Result<Expr, BuildError>
    requires types { length schema.now.types < 2 ^ 32 }
    requires some { 0 < length schema.now.pointers }
    requires few { length schema.now.pointers < 2 ^ 32 }
    ensures { IsBuilt result (spec.path schema.now expr.now) }
{
    match expr.bare() {
        ast::Expr::Postfix(span, base, postfix) => {
            base_path(alloc, schema, span.start, base.get(), postfix)
        }
        _ => Err(BuildError::Unbuilt),
    }
}
