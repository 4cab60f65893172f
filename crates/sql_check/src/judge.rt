//! The tables of types: what is said of a form by what is said of its parts.
ghost use Rattle.std.specs.Prelude.{◌≡◌, IfOk, Some};
ghost use Rattle.sql_ast.specs.WellFormed.{type_under};
ghost use Rattle.sql_ast.specs.declared.ty.SqlTy.TheVariants as ty;
ghost use Rattle.sql_check.specs.TypeLists as lists;
ghost use Rattle.sql_check.specs.Types as types;

use crate::kind::{is_array, is_of, is_scalar, same, same_scalar};
use crate::sort::Sort;
use crate::verdict::Verdict;
use ev_value::{Boxed, List, ScalarTy, Text};
use sql_ast::{BinaryOp, Function, SqlTy, Typed, UnaryOp};
use sqlite_items::at;
use std::alloc::{AllocError, Global};

/// What a place takes beside what an operator does.
#[derive(Clone, Copy)]
pub enum Place {
    /// A condition, or an offset or a limit: of this type.
    Of(ScalarTy),
    /// A key.
    Scalar,
    /// What UNNEST takes apart.
    Array,
}

/// Whether a type suits a place.
fn takes(place: Place, ty: &SqlTy) -> bool
    ensures { result ≡ lists.takes place ty.now }
{
    match place {
        Place::Of(scalar) => is_of(scalar, ty),
        Place::Scalar => is_scalar(ty),
        Place::Array => is_array(ty),
    }
}

/// It has the type, where something holds, and fails elsewhere.
fn has_if(holds: bool, scalar: ScalarTy) -> Verdict
    ensures { result ≡ types.has_if holds (ty.Scalar scalar) }
{
    if holds {
        Verdict::Has(SqlTy::Scalar(scalar))
    } else {
        Verdict::Fails
    }
}

/// Of an expression in a place that takes some types.
#[tactic(auto, unfolding(crate::specs::TypeLists::of_place))]
pub fn placed(place: Place, verdict: Verdict) -> Verdict
    ensures { result ≡ lists.of_place place verdict }
{
    match verdict {
        Verdict::Has(ty) => {
            if takes(place, &ty) {
                Verdict::Has(ty)
            } else {
                Verdict::Fails
            }
        }
        Verdict::Fails => Verdict::Unjudged,
        Verdict::Unjudged => Verdict::Unjudged,
    }
}

/// Of an operator with an operand of this type.
fn unary_over(operator: UnaryOp, a: &SqlTy) -> Verdict
    ensures { result ≡ types.unary_verdict operator a.now }
{
    match operator {
        UnaryOp::Neg => has_if(is_of(ScalarTy::Int64, a), ScalarTy::Int64),
        UnaryOp::Not => has_if(is_of(ScalarTy::Bool, a), ScalarTy::Bool),
        UnaryOp::IsNull => has_if(true, ScalarTy::Bool),
        UnaryOp::IsNotNull => has_if(true, ScalarTy::Bool),
    }
}

/// Of an operator with one operand.
#[tactic(auto, unfolding(crate::specs::TypeLists::of_unary))]
pub fn unary(operator: UnaryOp, operand: &Verdict) -> Verdict
    ensures { result ≡ lists.of_unary operator operand.now }
{
    match operand {
        Verdict::Has(a) => unary_over(operator, a),
        Verdict::Fails => Verdict::Unjudged,
        Verdict::Unjudged => Verdict::Unjudged,
    }
}

/// Of an operator whose operands and result are of one scalar type.
fn closed(scalar: ScalarTy, a: &SqlTy, b: &SqlTy) -> Verdict
    ensures { result ≡ types.closed scalar a.now b.now }
{
    has_if(is_of(scalar, a) && is_of(scalar, b), scalar)
}

/// Of a comparison: both operands are of one scalar type.
#[tactic(auto, using(crate::proofs::TyForms::compared_row, crate::proofs::TyForms::compared_array, crate::proofs::TyForms::compared_scalar))]
fn compared(a: &SqlTy, b: &SqlTy) -> Verdict
    ensures { result ≡ types.compared a.now b.now }
{
    match a {
        SqlTy::Scalar(a) => has_if(is_of(*a, b), ScalarTy::Bool),
        SqlTy::Row(_) => Verdict::Fails,
        SqlTy::Array(_) => Verdict::Fails,
    }
}

/// Of an operator between operands of these types.
fn binary_over(operator: BinaryOp, a: &SqlTy, b: &SqlTy) -> Verdict
    ensures { result ≡ types.binary_verdict operator a.now b.now }
{
    match operator {
        BinaryOp::Or => closed(ScalarTy::Bool, a, b),
        BinaryOp::And => closed(ScalarTy::Bool, a, b),
        BinaryOp::Eq => compared(a, b),
        BinaryOp::Ne => compared(a, b),
        BinaryOp::Lt => compared(a, b),
        BinaryOp::Le => compared(a, b),
        BinaryOp::Gt => compared(a, b),
        BinaryOp::Ge => compared(a, b),
        BinaryOp::Add => closed(ScalarTy::Int64, a, b),
        BinaryOp::Sub => closed(ScalarTy::Int64, a, b),
        BinaryOp::Concat => closed(ScalarTy::Str, a, b),
        BinaryOp::Mul => closed(ScalarTy::Int64, a, b),
        BinaryOp::FloorDiv => closed(ScalarTy::Int64, a, b),
        BinaryOp::Mod => closed(ScalarTy::Int64, a, b),
    }
}

/// Of an operator between two operands.
#[tactic(auto, unfolding(crate::specs::TypeLists::of_binary))]
pub fn binary(operator: BinaryOp, left: &Verdict, right: &Verdict) -> Verdict
    ensures { result ≡ lists.of_binary operator left.now right.now }
{
    match left {
        Verdict::Has(a) => match right {
            Verdict::Has(b) => binary_over(operator, a, b),
            Verdict::Fails => Verdict::Unjudged,
            Verdict::Unjudged => Verdict::Unjudged,
        },
        Verdict::Fails => Verdict::Unjudged,
        Verdict::Unjudged => Verdict::Unjudged,
    }
}

/// Of a choice whose branches are judged so.
fn branches(value: Verdict, other: &Verdict) -> Verdict
    ensures { result ≡ types.over value (λ a. types.over other.now (λ b. types.case_verdict a b)) }
{
    match value {
        Verdict::Has(value) => match other {
            Verdict::Has(other) => equal_branches(value, other),
            Verdict::Fails => Verdict::Unjudged,
            Verdict::Unjudged => Verdict::Unjudged,
        },
        Verdict::Fails => Verdict::Unjudged,
        Verdict::Unjudged => Verdict::Unjudged,
    }
}

/// Of branches of these types, which are equal.
fn equal_branches(value: SqlTy, other: &SqlTy) -> Verdict
    ensures { result ≡ types.case_verdict value other.now }
{
    if same(&value, other) {
        Verdict::Has(value)
    } else {
        Verdict::Fails
    }
}

/// What fails fails; else nothing is said.
fn untyped(verdict: Verdict) -> Verdict
    ensures { result ≡ types.untyped verdict }
{
    match verdict {
        Verdict::Has(_) => Verdict::Unjudged,
        Verdict::Fails => Verdict::Fails,
        Verdict::Unjudged => Verdict::Unjudged,
    }
}

/// Of a choice by a condition of this type, whose branches are judged so.
fn chosen_by(condition: &SqlTy, verdict: Verdict) -> Verdict
    ensures { result ≡ types.chosen_by condition.now verdict }
{
    if is_of(ScalarTy::Bool, condition) {
        verdict
    } else {
        untyped(verdict)
    }
}

/// Of a choice: its branches are compared whatever the type of its condition is, and it has a type where that is a truth.
#[tactic(auto, unfolding(crate::specs::TypeLists::of_case))]
pub fn case(condition: &Verdict, value: Verdict, other: &Verdict) -> Verdict
    ensures { result ≡ lists.of_case condition.now value other.now }
{
    match condition {
        Verdict::Has(condition) => chosen_by(condition, branches(value, other)),
        Verdict::Fails => Verdict::Unjudged,
        Verdict::Unjudged => Verdict::Unjudged,
    }
}

/// Whether there is such a cast: from a type to itself, to a text, or from a text.
fn casts(from: ScalarTy, to: ScalarTy) -> bool
    ensures { result ≡ types.casts from to }
{
    same_scalar(from, to) || (same_scalar(from, ScalarTy::Str) || same_scalar(to, ScalarTy::Str))
}

/// Of a cast of an operand of this type.
#[tactic(auto, using(crate::proofs::TyForms::cast_scalars, crate::proofs::TyForms::cast_row, crate::proofs::TyForms::cast_array, crate::proofs::TyForms::cast_to_row, crate::proofs::TyForms::cast_to_array))]
fn cast_over(from: &SqlTy, to: &SqlTy) -> Verdict
    ensures { result ≡ types.cast_verdict from.now to.now }
{
    match from {
        SqlTy::Scalar(from) => match to {
            SqlTy::Scalar(to) => has_if(casts(*from, *to), *to),
            SqlTy::Row(_) => Verdict::Fails,
            SqlTy::Array(_) => Verdict::Fails,
        },
        SqlTy::Row(_) => Verdict::Fails,
        SqlTy::Array(_) => Verdict::Fails,
    }
}

/// Of a cast.
#[tactic(auto, unfolding(crate::specs::TypeLists::of_cast))]
pub fn cast(operand: &Verdict, to: &SqlTy) -> Verdict
    ensures { result ≡ lists.of_cast operand.now to.now }
{
    match operand {
        Verdict::Has(from) => cast_over(from, to),
        Verdict::Fails => Verdict::Unjudged,
        Verdict::Unjudged => Verdict::Unjudged,
    }
}

/// It has the type, where there is one, and fails elsewhere.
fn has_some(alloc: Global, ty: Option<&SqlTy>) -> Result<Verdict, AllocError>
    ensures { IfOk result (λ v. v ≡ types.has_some (lists.ty_now ty.entry)) }
{
    match ty {
        Some(ty) => {
            let ty = ty.copied(alloc)?;
            Ok(Verdict::Has(ty))
        }
        None => Ok(Verdict::Fails),
    }
}

/// How many parts stand before a part; parts count from 1.
fn place_of(number: i64) -> Option<usize>
    ensures { result ≡ lists.place_of number }
{
    if number < 1 {
        None
    } else {
        Some((number - 1) as usize)
    }
}

/// Of a part of a row of this type.
#[tactic(auto, using(crate::proofs::TyForms::part_scalar, crate::proofs::TyForms::part_array))]
fn part_over(alloc: Global, row: &SqlTy, number: i64) -> Result<Verdict, AllocError>
    ensures { IfOk result (λ v. v ≡ types.part_verdict row.now number) }
{
    match row {
        SqlTy::Scalar(_) => Ok(Verdict::Fails),
        SqlTy::Row(parts) => part_in(alloc, parts.as_slice(), number),
        SqlTy::Array(_) => Ok(Verdict::Fails),
    }
}

/// Of a part of a row with parts of these types.
#[tactic(auto, using(crate::proofs::TyForms::part_row))]
fn part_in(alloc: Global, parts: &[SqlTy], number: i64) -> Result<Verdict, AllocError>
    ensures { IfOk result (λ v. v ≡ types.part_verdict (ty.Row parts.now) number) }
{
    match place_of(number) {
        Some(place) => has_some(alloc, at(parts, place)),
        None => Ok(Verdict::Fails),
    }
}

/// Of a part.
#[tactic(auto, unfolding(crate::specs::TypeLists::of_part))]
pub fn part(alloc: Global, row: &Verdict, number: i64) -> Result<Verdict, AllocError>
    ensures { IfOk result (λ v. v ≡ lists.of_part row.now number) }
{
    match row {
        Verdict::Has(row) => part_over(alloc, row, number),
        Verdict::Fails => Ok(Verdict::Unjudged),
        Verdict::Unjudged => Ok(Verdict::Unjudged),
    }
}

/// It has a type of its own.
pub fn typed(alloc: Global, ty: &SqlTy) -> Result<Verdict, AllocError>
    ensures { IfOk result (λ v. v ≡ types.known (Some ty.now)) }
{
    let ty = ty.copied(alloc)?;
    Ok(Verdict::Has(ty))
}

/// Of the least or the greatest of elements of this type: they are scalars.
fn extreme(alloc: Global, element: &SqlTy) -> Result<Verdict, AllocError>
    ensures { IfOk result (λ v. v ≡ types.has_if (types.is_scalar element.now) element.now) }
{
    if is_scalar(element) {
        typed(alloc, element)
    } else {
        Ok(Verdict::Fails)
    }
}

/// Of a function over elements of this type, and over the array of them.
fn elements_over(
    alloc: Global,
    called: Function,
    array: &SqlTy,
    element: &SqlTy,
) -> Result<Verdict, AllocError>
    ensures { IfOk result (λ v. v ≡ lists.elements_verdict called array.now element.now) }
{
    match called {
        Function::Len => Ok(Verdict::Fails),
        Function::CountOf => Ok(has_if(true, ScalarTy::Int64)),
        Function::SumOf => Ok(has_if(is_of(ScalarTy::Int64, element), ScalarTy::Int64)),
        Function::MinOf => extreme(alloc, element),
        Function::MaxOf => extreme(alloc, element),
        Function::AnyOf => Ok(has_if(is_of(ScalarTy::Bool, element), ScalarTy::Bool)),
        Function::AllOf => Ok(has_if(is_of(ScalarTy::Bool, element), ScalarTy::Bool)),
        Function::AssertSingle => typed(alloc, array),
        Function::AssertExists => typed(alloc, array),
        Function::AssertDistinct => typed(alloc, array),
    }
}

/// Of a function of a scalar: only LEN takes one, a text.
fn scalar_over(called: Function, scalar: ScalarTy) -> Verdict
    ensures { result ≡ lists.scalar_verdict called scalar }
{
    match called {
        Function::Len => has_if(same_scalar(ScalarTy::Str, scalar), ScalarTy::Int64),
        Function::CountOf => Verdict::Fails,
        Function::SumOf => Verdict::Fails,
        Function::MinOf => Verdict::Fails,
        Function::MaxOf => Verdict::Fails,
        Function::AnyOf => Verdict::Fails,
        Function::AllOf => Verdict::Fails,
        Function::AssertSingle => Verdict::Fails,
        Function::AssertExists => Verdict::Fails,
        Function::AssertDistinct => Verdict::Fails,
    }
}

/// Of a function of an operand of this type; none takes a row.
#[tactic(auto, using(crate::proofs::TyForms::function_scalar, crate::proofs::TyForms::function_row, crate::proofs::TyForms::function_array))]
fn call_over(alloc: Global, called: Function, a: &SqlTy) -> Result<Verdict, AllocError>
    ensures { IfOk result (λ v. v ≡ types.function_verdict called a.now) }
{
    match a {
        SqlTy::Scalar(scalar) => Ok(scalar_over(called, *scalar)),
        SqlTy::Row(_) => Ok(Verdict::Fails),
        SqlTy::Array(element) => elements_over(alloc, called, a, element.get()),
    }
}

/// Of a function.
#[tactic(auto, unfolding(crate::specs::TypeLists::of_call))]
pub fn call(alloc: Global, called: Function, operand: &Verdict) -> Result<Verdict, AllocError>
    ensures { IfOk result (λ v. v ≡ lists.of_call called operand.now) }
{
    match operand {
        Verdict::Has(a) => call_over(alloc, called, a),
        Verdict::Fails => Ok(Verdict::Unjudged),
        Verdict::Unjudged => Ok(Verdict::Unjudged),
    }
}

/// The type of the first ARG with a name.
fn first_type<'a>(name: &Text, args: &'a [Typed]) -> Option<&'a SqlTy>
    ensures { lists.ty_now result ≡ type_under name.now args.now }
{
    for arg in args {
        if arg.name.as_str() == name.as_str() {
            return Some(&arg.ty);
        }
    }
    None
}

/// Of an ARG: it has a scalar type, and that of the first ARG of its name.
#[tactic(auto, using(crate::proofs::TyForms::arg_scalar, crate::proofs::TyForms::arg_none, crate::proofs::TyForms::arg_row, crate::proofs::TyForms::arg_array))]
pub fn arg(ty: &SqlTy, name: &Text, args: &[Typed]) -> Verdict
    ensures { result ≡ types.arg_verdict ty.now (type_under name.now args.now) }
{
    match ty {
        SqlTy::Scalar(scalar) => match first_type(name, args) {
            Some(first) => has_if(is_of(*scalar, first), *scalar),
            None => Verdict::Fails,
        },
        SqlTy::Row(_) => Verdict::Fails,
        SqlTy::Array(_) => Verdict::Fails,
    }
}

/// Of a row whose parts have types, where each has one.
pub fn row(parts: Option<List<SqlTy>>) -> Verdict
    ensures { result ≡ types.row_verdict parts }
{
    match parts {
        Some(parts) => Verdict::Has(SqlTy::Row(parts)),
        None => Verdict::Unjudged,
    }
}

/// Of the array of elements of a type, where that is known.
fn array_of(alloc: Global, element: &Option<SqlTy>) -> Result<Verdict, AllocError>
    ensures { IfOk result (λ v. v ≡ types.array_of element.now) }
{
    match element {
        Some(element) => {
            let element = element.copied(alloc)?;
            Ok(Verdict::Has(SqlTy::Array(Boxed::new(alloc, element)?)))
        }
        None => Ok(Verdict::Unjudged),
    }
}

/// Of the array of a select, by the columns of its first core: there is one, whether or not it has a type.
pub fn array(alloc: Global, columns: &[Sort]) -> Result<Verdict, AllocError>
    ensures { IfOk result (λ v. v ≡ types.array_verdict columns.now) }
{
    match columns {
        [column] => array_of(alloc, &column.ty),
        _ => Ok(Verdict::Fails),
    }
}

/// Whether the types of two columns are the same, or one of them is not known.
fn agree(a: &Option<SqlTy>, b: &Option<SqlTy>) -> bool
    ensures { result ≡ types.agree a.now b.now }
{
    match a {
        Some(a) => match b {
            Some(b) => same(a, b),
            None => true,
        },
        None => true,
    }
}

/// Whether a core has as many columns as the first, and they agree place by place.
pub fn alike(firsts: &[Sort], columns: &[Sort]) -> bool
    ensures { result ≡ types.alike firsts.now columns.now }
{
    let mut left = columns;
    for first in firsts {
        match left {
            [column, more @ ..] => {
                if !agree(&first.ty, &column.ty) {
                    return false;
                }
                left = more;
            }
            [] => return false,
        }
    }
    left.is_empty()
}
