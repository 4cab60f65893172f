//! Operators and their operands.
ghost use Rattle.std.specs.Prelude.{◌≡◌, IfOk};
ghost use Rattle.sql_grammar.specs.Trees as t;

use crate::held::{below, boxed_beside, placed, pushed_beside};
use crate::types::above;
use ev_value::{Boxed, List};
use sql_ast::{Binary, BinaryOp, SqlExpr, UnaryOp};
use sql_grammar::{Grown, Places};
use std::alloc::{AllocError, Global};

/// An operator before its operand.
#[inline(never)]
pub fn prefixed(
    alloc: Global,
    operator: UnaryOp,
    start: u32,
    x: Boxed<Grown>,
) -> Result<Boxed<Grown>, AllocError>
    ensures { IfOk result (λ made. made ≡ t.prefixed operator start x) }
{
    let x = x.into_inner();
    let height = above(x.height);
    let (expr, place) = below(alloc, start, x)?;
    placed(alloc, start, SqlExpr::Unary(operator, expr), place, height)
}

/// `x IS NULL`, or `x IS NOT NULL`.
#[inline(never)]
pub fn null_test(alloc: Global, x: Boxed<Grown>, negated: bool) -> Result<Boxed<Grown>, AllocError>
    ensures { IfOk result (λ made. made ≡ t.null_test x negated) }
{
    let start = x.get().start;
    if negated {
        prefixed(alloc, UnaryOp::IsNotNull, start, x)
    } else {
        prefixed(alloc, UnaryOp::IsNull, start, x)
    }
}

/// An operator between two operands.
#[inline(never)]
pub fn operated(
    alloc: Global,
    operator: BinaryOp,
    left: Boxed<Grown>,
    right: Boxed<Grown>,
) -> Result<Boxed<Grown>, AllocError>
    ensures { IfOk result (λ made. made ≡ t.operated operator left right) }
{
    let (left, right) = (left.into_inner(), right.into_inner());
    let height = above(left.height.max(right.height));
    let start = left.start;
    let (first, (second, a, b)) = boxed_beside(
        alloc,
        left.expr,
        (right.expr, left.place, right.place),
    )?;
    let (second, (first, a, b)) = boxed_beside(alloc, second, (first, a, b))?;
    let (inner, (first, second, b)) = pushed_beside(List::new(alloc), a, (first, second, b))?;
    let (inner, (first, second)) = pushed_beside(inner, b, (first, second))?;
    let form = SqlExpr::Binary(Binary {
        operator,
        left: first,
        right: second,
    });
    placed(alloc, start, form, Places::At(start, inner), height)
}
