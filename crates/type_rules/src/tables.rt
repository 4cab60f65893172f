//! The tables: what each operator, function and cast gives for the types of its operands.
//! An operand that does not suit has no row: there are no casts but those that are written.
ghost use Rattle.std.specs.Prelude.{◌≡◌};
ghost use Rattle.type_rules.specs.Tables as table;

use crate::agreement::{related, same_scalar};
use core_ir::{SetFunction, Ty};
use ev_schema::Schema;
use ev_value::{Op, ScalarTy, Val};

/// The type of a literal (the EdgeDB documentation's page on literals). None for what no literal writes.
pub fn literal(value: &Val) -> Option<ScalarTy>
    ensures { result ≡ table.literal value.now }
{
    match value {
        Val::Int(_) => Some(ScalarTy::Int64),
        Val::Str(_) => Some(ScalarTy::Str),
        Val::Bool(_) => Some(ScalarTy::Bool),
        Val::Id(_) => Some(ScalarTy::Uuid),
        Val::Obj(_) | Val::Tuple(_) | Val::Array(_) => None,
    }
}

/// Whether a type is this scalar type.
pub fn is_of(scalar: ScalarTy, ty: &Ty) -> bool
    ensures { result ≡ table.is_of scalar ty.now }
{
    match ty {
        Ty::Scalar(other) => same_scalar(scalar, *other),
        Ty::Object(_) | Ty::Tuple(_) | Ty::Array(_) => false,
    }
}

/// A scalar type, where something holds.
fn when(holds: bool, scalar: ScalarTy) -> Option<Ty>
    ensures { result ≡ table.when holds scalar }
{
    if holds {
        Some(Ty::Scalar(scalar))
    } else {
        None
    }
}

/// Whether there is one type, which is this scalar type.
fn is_one(scalar: ScalarTy, types: &[Ty]) -> bool
    ensures { result ≡ table.is_one scalar types.now }
{
    match types {
        [ty] => is_of(scalar, ty),
        _ => false,
    }
}

/// Whether there are two types, and both are this scalar type.
fn are_two(scalar: ScalarTy, types: &[Ty]) -> bool
    ensures { result ≡ table.are_two scalar types.now }
{
    match types {
        [a, b] => is_of(scalar, a) && is_of(scalar, b),
        _ => false,
    }
}

/// Whether two types have an order.
fn ordered(a: &Ty, b: &Ty) -> bool
    ensures { result ≡ table.ordered a.now b.now }
{
    match (a, b) {
        (Ty::Scalar(a), Ty::Scalar(b)) => same_scalar(*a, *b),
        (Ty::Array(a), Ty::Array(b)) => same_scalar(*a, *b),
        _ => false,
    }
}

/// Whether there are two types, and they have an order.
fn in_order(types: &[Ty]) -> bool
    ensures { result ≡ table.in_order types.now }
{
    match types {
        [a, b] => ordered(a, b),
        _ => false,
    }
}

/// Whether values of two types can be equal: they are one scalar or array type, or objects of related types (the EdgeDB
/// documentation's page on generic operators).
pub fn comparable(schema: &Schema, a: &Ty, b: &Ty) -> bool
    ensures { result ≡ table.comparable schema.now.types a.now b.now }
{
    match (a, b) {
        (Ty::Object(a), Ty::Object(b)) => related(schema, *a, *b),
        _ => ordered(a, b),
    }
}

/// Whether there are two types, and their values can be equal.
fn can_equal(schema: &Schema, types: &[Ty]) -> bool
    ensures { result ≡ table.can_equal schema.now.types types.now }
{
    match types {
        [a, b] => comparable(schema, a, b),
        _ => false,
    }
}

/// The type that an operator or a plain function gives, by the types of its operands (the EdgeDB documentation's pages on
/// numerics, strings, generic and boolean operators). None where they do not suit it.
pub fn operator_type(schema: &Schema, op: Op, types: &[Ty]) -> Option<Ty>
    ensures { result ≡ table.operator_type schema.now.types op types.now }
{
    match op {
        Op::Add | Op::Sub | Op::Mul | Op::FloorDiv | Op::Mod => {
            when(are_two(ScalarTy::Int64, types), ScalarTy::Int64)
        }
        Op::Neg => when(is_one(ScalarTy::Int64, types), ScalarTy::Int64),
        Op::Concat => when(are_two(ScalarTy::Str, types), ScalarTy::Str),
        Op::Len => when(is_one(ScalarTy::Str, types), ScalarTy::Int64),
        Op::Eq | Op::Ne => when(can_equal(schema, types), ScalarTy::Bool),
        Op::Lt | Op::Le | Op::Gt | Op::Ge => when(in_order(types), ScalarTy::Bool),
        Op::And | Op::Or => when(are_two(ScalarTy::Bool, types), ScalarTy::Bool),
        Op::Not => when(is_one(ScalarTy::Bool, types), ScalarTy::Bool),
    }
}

/// The type that a function of a whole set gives, by the type of the set's items (the EdgeDB documentation's page on set
/// functions and operators). None where it does not suit it.
pub fn function_type(function: SetFunction, ty: Ty) -> Option<Ty>
    ensures { result ≡ table.function_type function ty }
{
    match (function, ty) {
        (SetFunction::Count, _) => Some(Ty::Scalar(ScalarTy::Int64)),
        (SetFunction::Sum, Ty::Scalar(ScalarTy::Int64)) => Some(Ty::Scalar(ScalarTy::Int64)),
        (SetFunction::Min | SetFunction::Max, Ty::Scalar(scalar)) => Some(Ty::Scalar(scalar)),
        (SetFunction::Any | SetFunction::All, Ty::Scalar(ScalarTy::Bool)) => {
            Some(Ty::Scalar(ScalarTy::Bool))
        }
        (SetFunction::Exists, _) => Some(Ty::Scalar(ScalarTy::Bool)),
        (SetFunction::Distinct, ty) => Some(ty),
        (SetFunction::AssertSingle, ty) => Some(ty),
        (SetFunction::AssertExists, ty) => Some(ty),
        (SetFunction::AssertDistinct, ty) => Some(ty),
        (SetFunction::ArrayAgg, Ty::Scalar(scalar)) => Some(Ty::Array(scalar)),
        _ => None,
    }
}

/// Whether values of a type can be cast to a scalar type: to their own, to `str`, or from `str` (the EdgeDB documentation's
/// page on casts).
pub fn can_cast(from: &Ty, to: ScalarTy) -> bool
    ensures { result ≡ table.can_cast from.now to }
{
    match (from, to) {
        (Ty::Scalar(_), ScalarTy::Str) => true,
        (Ty::Scalar(ScalarTy::Str), _) => true,
        (Ty::Scalar(from), to) => same_scalar(*from, to),
        _ => false,
    }
}

/// The one scalar type that some types are.
fn same_as(scalar: ScalarTy, types: &[Ty]) -> Option<ScalarTy>
    ensures { result ≡ table.same_as scalar types.now }
{
    for ty in types {
        if !is_of(scalar, ty) {
            return None;
        }
    }
    Some(scalar)
}

/// The type of an array's elements: the one that all have, or the one that is written where there are none (the EdgeDB
/// documentation's page on arrays). None where they are not all of one scalar type.
pub fn elements_type(written: Option<ScalarTy>, types: &[Ty]) -> Option<ScalarTy>
    ensures { result ≡ table.elements_type written types.now }
{
    match types {
        [] => written,
        [Ty::Scalar(scalar), more @ ..] => same_as(*scalar, more),
        _ => None,
    }
}
