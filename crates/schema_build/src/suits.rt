//! M5: constraints and defaults that do not suit the type of their pointer.
ghost use Rattle.std.specs.Prelude.{◌≡◌};
ghost use Rattle.std.specs.List.{list_all};
ghost use Rattle.schema_build.specs.Suits as spec;

use crate::least::at_if;
use crate::literal::literal_type;
use crate::names::Meant;
use ast::Expr;
use ev_value::ScalarTy;
use sdl_ast::{Constraint, Item};

/// A kind of constraint (the EdgeDB documentation's page on constraints).
#[derive(Clone, Copy, Debug, PartialEq, Eq)]
pub enum Constraining {
    Exclusive,
    MinValue,
    MaxValue,
    MinExValue,
    MaxExValue,
    MinLen,
    MaxLen,
    OneOf,
}

/// The constraint with a name.
pub fn constraint_named(name: &str) -> Option<Constraining>
    ensures { result ≡ spec.constraint_named name.now }
{
    if name == "exclusive" {
        Some(Constraining::Exclusive)
    } else if name == "min_value" {
        Some(Constraining::MinValue)
    } else if name == "max_value" {
        Some(Constraining::MaxValue)
    } else if name == "min_ex_value" {
        Some(Constraining::MinExValue)
    } else if name == "max_ex_value" {
        Some(Constraining::MaxExValue)
    } else if name == "min_len_value" {
        Some(Constraining::MinLen)
    } else if name == "max_len_value" {
        Some(Constraining::MaxLen)
    } else if name == "one_of" {
        Some(Constraining::OneOf)
    } else {
        None
    }
}

fn is_of(ty: ScalarTy, found: Option<ScalarTy>) -> bool
    ensures { result ≡ spec.is_of ty found }
{
    match (ty, found) {
        (ScalarTy::Int64, Some(ScalarTy::Int64)) => true,
        (ScalarTy::Str, Some(ScalarTy::Str)) => true,
        (ScalarTy::Bool, Some(ScalarTy::Bool)) => true,
        (ScalarTy::Uuid, Some(ScalarTy::Uuid)) => true,
        _ => false,
    }
}

fn is_literal_of(meant: Option<Meant>, value: &Expr) -> bool
    ensures { result ≡ spec.is_literal_of meant value.now }
{
    match meant {
        Some(Meant::Scalar(ty)) => is_of(ty, literal_type(value)),
        Some(Meant::Object(_)) => false,
        None => false,
    }
}

fn has_scalar(ty: ScalarTy, meant: Option<Meant>) -> bool
    ensures { result ≡ spec.has_scalar ty meant }
{
    match meant {
        Some(Meant::Scalar(found)) => is_of(ty, Some(found)),
        Some(Meant::Object(_)) => false,
        None => false,
    }
}

fn is_one_number(arguments: &[Expr]) -> bool
    ensures { result ≡ spec.is_one_number arguments.now }
{
    match arguments {
        [value] => is_of(ScalarTy::Int64, literal_type(value)),
        _ => false,
    }
}

fn are_literals_of(meant: Option<Meant>, arguments: &[Expr]) -> bool
    ensures { result ≡ list_all (spec.is_literal_of meant) arguments.now }
{
    for value in arguments {
        if !is_literal_of(meant, value) {
            return false;
        }
    }
    true
}

fn is_empty(arguments: &[Expr]) -> bool
    ensures { result ≡ spec.has_none arguments.now }
{
    arguments.is_empty()
}

fn suits(meant: Option<Meant>, constraining: Constraining, arguments: &[Expr]) -> bool
    ensures { result ≡ spec.suits meant constraining arguments.now }
{
    match constraining {
        Constraining::Exclusive => is_empty(arguments),
        Constraining::MinValue
        | Constraining::MaxValue
        | Constraining::MinExValue
        | Constraining::MaxExValue => has_scalar(ScalarTy::Int64, meant)
            && is_one_number(arguments),
        Constraining::MinLen | Constraining::MaxLen => {
            has_scalar(ScalarTy::Str, meant) && is_one_number(arguments)
        }
        Constraining::OneOf => !is_empty(arguments) && are_literals_of(meant, arguments),
    }
}

fn constraint_suits(meant: Option<Meant>, constraint: &Constraint) -> bool
    ensures { result ≡ spec.suits_if_known meant (spec.constraint_named constraint.now.name.text) constraint.now.arguments }
{
    match constraint_named(constraint.name.text.as_str()) {
        None => false,
        Some(constraining) => suits(meant, constraining, constraint.arguments.as_slice()),
    }
}

/// A constraint or a default that does not suit a pointer of a type.
pub fn unsuited_item(meant: Option<Meant>, item: &Item) -> Option<u32>
    ensures { result ≡ spec.unsuited_item meant item.now }
{
    match item {
        Item::Constraint(span, constraint) => {
            at_if(!constraint_suits(meant, constraint), span.start)
        }
        Item::Default(span, value) => at_if(!is_literal_of(meant, value), span.start),
        Item::Property(_, _) => None,
        Item::Deletion(_, _) => None,
        Item::Annotation(_) => None,
    }
}
