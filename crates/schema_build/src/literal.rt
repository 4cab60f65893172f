//! The literals of schemas (the EdgeDB documentation's page on literals).
ghost use Rattle.std.specs.Prelude.{◌≡◌, IfOk};
ghost use Rattle.std.specs.Option.{option_copied};
ghost use Rattle.schema_build.specs.Literal as spec;

use ast::{Expr, UnaryOperator};
use ev_value::{OpError, ScalarTy, Text, Val, cast};
use std::alloc::{AllocError, Global};

/// The digits of a number alone, round which no parentheses stand.
#[tactic(auto, using(crate::proofs::Forms::digits_of_int))]
fn bare_digits(expr: &Expr) -> Option<&Text>
    ensures { option_copied result ≡ spec.bare_digits expr.now }
{
    match expr {
        Expr::Int(_, digits) => Some(digits),
        _ => None,
    }
}

/// The digits of a number alone.
fn digits_of(expr: &Expr) -> Option<&Text>
    ensures { option_copied result ≡ spec.digits_of expr.now }
{
    bare_digits(expr.bare())
}

fn signed_type(operator: UnaryOperator, operand: Option<&Text>) -> Option<ScalarTy>
    ensures { result ≡ spec.signed_type operator (option_copied operand.entry) }
{
    match (operator, operand) {
        (UnaryOperator::Negate, Some(_)) => Some(ScalarTy::Int64),
        _ => None,
    }
}

/// The type of a literal round which no parentheses stand.
#[tactic(auto, using(crate::proofs::Forms::type_of_int, crate::proofs::Forms::type_of_str, crate::proofs::Forms::type_of_bool, crate::proofs::Forms::type_of_unary))]
fn bare_type(expr: &Expr) -> Option<ScalarTy>
    ensures { result ≡ spec.bare_type expr.now }
{
    match expr {
        Expr::Int(_, _) => Some(ScalarTy::Int64),
        Expr::Str(_, _) => Some(ScalarTy::Str),
        Expr::Bool(_, _) => Some(ScalarTy::Bool),
        Expr::Unary(_, operator, operand) => signed_type(*operator, digits_of(operand.get())),
        _ => None,
    }
}

/// The type of a literal.
pub fn literal_type(expr: &Expr) -> Option<ScalarTy>
    ensures { result ≡ spec.literal_type expr.now }
{
    bare_type(expr.bare())
}

fn number(alloc: Global, digits: &Text) -> Result<Option<Val>, AllocError>
    ensures { IfOk result (λ v. v ≡ spec.number digits.now) }
{
    let text = Val::Str(digits.copied(alloc)?);
    match cast(alloc, ScalarTy::Int64, &text) {
        Ok(value) => Ok(Some(value)),
        Err(OpError::Fault(_)) => Ok(None),
        Err(OpError::Memory) => Err(AllocError),
    }
}

fn negated(value: &Val) -> Option<Val>
    ensures { result ≡ spec.negated value.now }
{
    match value {
        Val::Int(number) => match number.checked_neg() {
            Some(turned) => Some(Val::Int(turned)),
            None => None,
        },
        _ => None,
    }
}

fn negated_if_some(value: Option<Val>) -> Option<Val>
    ensures { result ≡ spec.negated_if_some value }
{
    match value {
        Some(value) => negated(&value),
        None => None,
    }
}

fn signed(
    alloc: Global,
    operator: UnaryOperator,
    operand: Option<&Text>,
) -> Result<Option<Val>, AllocError>
    ensures { IfOk result (λ v. v ≡ spec.signed operator (option_copied operand.entry)) }
{
    match (operator, operand) {
        (UnaryOperator::Negate, Some(digits)) => Ok(negated_if_some(number(alloc, digits)?)),
        _ => Ok(None),
    }
}

/// The value of a literal round which no parentheses stand.
#[tactic(auto, using(crate::proofs::Forms::value_of_int, crate::proofs::Forms::value_of_str, crate::proofs::Forms::value_of_bool, crate::proofs::Forms::value_of_unary))]
fn bare_literal(alloc: Global, expr: &Expr) -> Result<Option<Val>, AllocError>
    ensures { IfOk result (λ v. v ≡ spec.bare_literal expr.now) }
{
    match expr {
        Expr::Int(_, digits) => number(alloc, digits),
        Expr::Str(_, text) => Ok(Some(Val::Str(text.copied(alloc)?))),
        Expr::Bool(_, truth) => Ok(Some(Val::Bool(*truth))),
        Expr::Unary(_, operator, operand) => signed(alloc, *operator, digits_of(operand.get())),
        _ => Ok(None),
    }
}

/// The value of a literal.
pub fn literal(alloc: Global, expr: &Expr) -> Result<Option<Val>, AllocError>
    ensures { IfOk result (λ v. v ≡ spec.literal expr.now) }
{
    bare_literal(alloc, expr.bare())
}
