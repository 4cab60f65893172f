//! The base expressions of a scope.
ghost use Rattle.std.specs.Prelude.{◌≡◌};
ghost use Rattle.std.specs.Option.{option_copied};
ghost use Rattle.eql_eval.specs.Bases.{IsBase, IsBaseAmong};
ghost use Rattle.eql_sem.specs.Meaning.{base_number as base_number_of};

use core_ir::{Expr, Root, Scope};

fn base_number(root: Root) -> u32
    ensures { result ≡ base_number_of root }
{
    match root {
        Root::Base(number) => number,
        _ => 0,
    }
}

/// The base expression with a number among those of an expression's own scope.
#[cycle(base)]
#[tactic(auto, using(crate::proofs::BaseLaws::base_forms))]
pub(crate) fn find_base(expr: &Expr, number: u32) -> Option<&Scope>
    ensures { IsBase (option_copied result) expr.now number }
{
    match expr {
        Expr::OnBase(_, base, occurrence) => {
            if base_number(occurrence.path.root) == number {
                Some(base)
            } else {
                None
            }
        }
        Expr::Operation(_, _, operands) => find_base_among(operands.as_slice(), number),
        Expr::Tuple(_, parts) => find_base_among(parts.as_slice(), number),
        Expr::Array(_, _, elements) => find_base_among(elements.as_slice(), number),
        Expr::Unfit(_, _, _, parts) => find_base_among(parts.as_slice(), number),
        Expr::Plus(_, operand) => find_base(operand.get(), number),
        Expr::Cast(_, _, operand) => find_base(operand.get(), number),
        Expr::In(_, _, left, _) => find_base(left.get(), number),
        Expr::Coalesce(_, first, _) => find_base(first.get(), number),
        Expr::If(_, choice) => find_base(choice.condition.get(), number),
        Expr::Shaped(_, subject, _, _, _) => find_base(subject.get(), number),
        Expr::ArrayCast(_, _, operand) => find_base(operand.get(), number),
        Expr::Unpack(_, operand) => find_base(operand.get(), number),
        Expr::OptionalEqual(_, _, left, right) => match find_base(left.get(), number) {
            Some(base) => Some(base),
            None => find_base(right.get(), number),
        },
        Expr::Literal(..)
        | Expr::Param(..)
        | Expr::Global(..)
        | Expr::Path(..)
        | Expr::OfSet(..)
        | Expr::Union(..)
        | Expr::Set(..)
        | Expr::Select(..)
        | Expr::For(..)
        | Expr::EmptySet(..) => None,
    }
}

#[cycle(base)]
#[tactic(auto, using(crate::proofs::BaseLaws::left_none, crate::proofs::BaseLaws::left_here, crate::proofs::BaseLaws::left_turn))]
fn find_base_among(exprs: &[Expr], number: u32) -> Option<&Scope>
    ensures { IsBaseAmong (option_copied result) exprs.now number }
{
    for expr in exprs {
        if let Some(base) = find_base(expr, number) {
            return Some(base);
        }
    }
    None
}
