//! One tree, built and looked at.
ghost use Rattle.std.specs.Prelude.{◌≡◌, IfOk};
ghost use Rattle.ast.specs.Expression.{binary};

use crate::expression::Expr;
use crate::name::Span;
use crate::operator::BinaryOperator;
use ev_value::{Boxed, Text};
use std::alloc::{AllocError, Global};
use std::test::Fail;

/// `(left + right)`, with its places.
fn sum_in_parentheses(
    alloc: Global,
    outer: Span,
    plus: Span,
    left: Expr,
    right: Expr,
) -> Result<Expr, AllocError>
    ensures { IfOk result (λ made. made ≡ Expr.Group outer (binary BinaryOperator.Add plus left right)) }
{
    let sum = Expr::binary(alloc, BinaryOperator::Add, plus, left, right)?;
    Ok(Expr::Group(outer, Boxed::new(alloc, sum)?))
}

/// The places of the tree of `(1 + 2)`: with its parentheses, and without them.
fn places_of_sum(alloc: Global) -> Result<(Span, Span), AllocError> {
    let outer = Span { start: 0, end: 7 };
    let plus = Span { start: 3, end: 4 };
    let one = Text::from_str(alloc, "1")?;
    let two = Text::from_str(alloc, "2")?;
    let one = Expr::Int(Span { start: 1, end: 2 }, one);
    let two = Expr::Int(Span { start: 5, end: 6 }, two);
    let sum = sum_in_parentheses(alloc, outer, plus, one, two)?;
    Ok((sum.span(), sum.bare().span()))
}

#[test]
fn places(rt: HostRuntime) -> Result<(), Fail> {
    let (outer, inner) = places_of_sum(rt.alloc())?;
    assert_eq!(rt; outer, Span { start: 0, end: 7 });
    assert_eq!(rt; inner, Span { start: 1, end: 6 });
    Ok(())
}
