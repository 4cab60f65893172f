//! When types agree, and on what: one type for values that come from two places, as the EdgeDB documentation's pages on the
//! type system and on set operators say.
ghost use Rattle.std.specs.Prelude.{◌≡◌, IfOk, Some};
ghost use Rattle.type_rules.specs.Agreement as spec;

use core_ir::{Ty, TypeId};
use ev_schema::Schema;
use ev_value::{List, ScalarTy};
use std::alloc::{AllocError, Global};

/// Whether two scalar types are one.
pub fn same_scalar(a: ScalarTy, b: ScalarTy) -> bool
    ensures { result ≡ spec.same_scalar a b }
{
    match (a, b) {
        (ScalarTy::Int64, ScalarTy::Int64)
        | (ScalarTy::Str, ScalarTy::Str)
        | (ScalarTy::Bool, ScalarTy::Bool)
        | (ScalarTy::Uuid, ScalarTy::Uuid) => true,
        _ => false,
    }
}

/// Whether two object types are one, or the one extends the other (the EdgeDB documentation's page on inheritance).
pub fn related(schema: &Schema, a: TypeId, b: TypeId) -> bool
    ensures { result ≡ spec.related schema.now.types a b }
{
    schema.is_subtype(a, b) || schema.is_subtype(b, a)
}

/// The higher one of two related object types.
fn higher(schema: &Schema, a: TypeId, b: TypeId) -> Option<Ty>
    ensures { result ≡ spec.higher schema.now.types a b }
{
    if schema.is_subtype(a, b) {
        Some(Ty::Object(b))
    } else if schema.is_subtype(b, a) {
        Some(Ty::Object(a))
    } else {
        None
    }
}

/// A scalar type that is another one.
fn one_scalar(a: ScalarTy, b: ScalarTy) -> Option<Ty>
    ensures { result ≡ spec.one_scalar a b }
{
    if same_scalar(a, b) {
        Some(Ty::Scalar(a))
    } else {
        None
    }
}

/// An array type that is another one, by their elements' types.
fn one_array(a: ScalarTy, b: ScalarTy) -> Option<Ty>
    ensures { result ≡ spec.one_array a b }
{
    if same_scalar(a, b) {
        Some(Ty::Array(a))
    } else {
        None
    }
}

/// The tuple of some types, if there are any.
fn as_tuple(types: Option<List<Ty>>) -> Option<Ty>
    ensures { result ≡ spec.as_tuple types }
{
    match types {
        Some(types) => Some(Ty::Tuple(types)),
        None => None,
    }
}

/// The type that two types agree on: one scalar type, one array type, the higher one of two related object types, or the
/// tuple of what the components of two tuples agree on. None where they do not agree: nothing is cast on its own.
#[cycle(agreed)]
#[tactic(auto, using(crate::proofs::Agreeing::agreed_forms))]
pub fn agreed(alloc: Global, a: &Ty, b: &Ty, schema: &Schema) -> Result<Option<Ty>, AllocError>
    ensures { IfOk result (λ t. t ≡ spec.agreed schema.now.types a.now b.now) }
{
    match a {
        Ty::Scalar(a) => match b {
            Ty::Scalar(b) => Ok(one_scalar(*a, *b)),
            Ty::Object(_) => Ok(None),
            Ty::Tuple(_) => Ok(None),
            Ty::Array(_) => Ok(None),
        },
        Ty::Object(a) => match b {
            Ty::Scalar(_) => Ok(None),
            Ty::Object(b) => Ok(higher(schema, *a, *b)),
            Ty::Tuple(_) => Ok(None),
            Ty::Array(_) => Ok(None),
        },
        Ty::Tuple(parts) => match b {
            Ty::Scalar(_) => Ok(None),
            Ty::Object(_) => Ok(None),
            Ty::Tuple(others) => {
                let types = agreed_parts(alloc, parts.as_slice(), others.as_slice(), schema)?;
                Ok(as_tuple(types))
            }
            Ty::Array(_) => Ok(None),
        },
        Ty::Array(a) => match b {
            Ty::Scalar(_) => Ok(None),
            Ty::Object(_) => Ok(None),
            Ty::Tuple(_) => Ok(None),
            Ty::Array(b) => Ok(one_array(*a, *b)),
        },
    }
}

/// The types that two lists of types agree on, one by one.
#[cycle(agreed)]
#[tactic(auto, using(crate::proofs::Agreeing::behind_nothing, crate::proofs::Agreeing::behind_one))]
fn agreed_parts(
    alloc: Global,
    parts: &[Ty],
    others: &[Ty],
    schema: &Schema,
) -> Result<Option<List<Ty>>, AllocError>
    ensures { IfOk result (λ ts. ts ≡ spec.agreed_each schema.now.types parts.now others.now) }
{
    let mut types = List::new(alloc);
    let mut left = others;
    for part in parts {
        match left {
            [other, more @ ..] => {
                let Some(ty) = agreed(alloc, part, other, schema)? else {
                    return Ok(None);
                };
                types.push(ty)?;
                left = more;
            }
            [] => return Ok(None),
        }
    }
    if left.is_empty() {
        Ok(Some(types))
    } else {
        Ok(None)
    }
}

/// What the types of some elements agree on from the left; none where they do not, or where there are none.
pub fn agreed_among(alloc: Global, types: &[Ty], schema: &Schema) -> Result<Option<Ty>, AllocError>
    ensures { IfOk result (λ t. t ≡ spec.agreed_among schema.now.types types.now) }
{
    let [first, more @ ..] = types else {
        return Ok(None);
    };
    let mut all = first.copied(alloc)?;
    for ty in more {
        let Some(both) = agreed(alloc, &all, ty, schema)? else {
            return Ok(None);
        };
        all = both;
    }
    Ok(Some(all))
}
