//! Operators, casts and choices over their operands.
ghost use Rattle.std.specs.Prelude.{◌≡◌, IfOk};
ghost use Rattle.eql_grammar.specs.Trees as t;

use crate::held::boxed_beside;
use crate::leaves::above;
use ast::{Conditional, Expr, QualifiedName, Span, box_three};
use eql_grammar::{GrownExpr, Infix, Prefix};
use ev_value::Boxed;
use std::alloc::{AllocError, Global};

/// An operator between two operands.
pub fn operated(
    alloc: Global,
    found: Infix,
    left: GrownExpr,
    right: GrownExpr,
) -> Result<GrownExpr, AllocError>
    ensures { IfOk result (λ made. made ≡ t.operated found left right) }
{
    let height = above(left.height.max(right.height));
    let expr = Expr::binary(alloc, found.operator, found.place, left.expr, right.expr)?;
    Ok(GrownExpr { expr, height })
}

/// An operator before its operand.
pub fn prefixed(alloc: Global, found: Prefix, x: GrownExpr) -> Result<GrownExpr, AllocError>
    ensures { IfOk result (λ made. made ≡ t.prefixed found x) }
{
    let span = found.place.to(x.expr.span());
    let height = above(x.height);
    let operand = Boxed::new(alloc, x.expr)?;
    Ok(GrownExpr {
        expr: Expr::Unary(span, found.operator, operand),
        height,
    })
}

/// A type in angle brackets, and the operand.
pub fn cast(
    alloc: Global,
    bracket: Span,
    ty: QualifiedName,
    x: GrownExpr,
) -> Result<GrownExpr, AllocError>
    ensures { IfOk result (λ made. made ≡ t.cast bracket ty x) }
{
    let span = bracket.to(x.expr.span());
    let height = above(x.height);
    let (operand, ty) = boxed_beside(alloc, x.expr, ty)?;
    Ok(GrownExpr {
        expr: Expr::Cast(span, ty, operand),
        height,
    })
}

/// `value if condition else other`
pub fn chosen(
    alloc: Global,
    value: GrownExpr,
    condition: GrownExpr,
    other: GrownExpr,
) -> Result<GrownExpr, AllocError>
    ensures { IfOk result (λ made. made ≡ t.chosen value condition other) }
{
    let height = above(value.height.max(condition.height.max(other.height)));
    let expr = Expr::if_else(alloc, value.expr, condition.expr, other.expr)?;
    Ok(GrownExpr { expr, height })
}

/// `if condition then value else other`, from the byte `start` on.
pub fn chosen_then(
    alloc: Global,
    start: u32,
    condition: GrownExpr,
    value: GrownExpr,
    other: GrownExpr,
) -> Result<GrownExpr, AllocError>
    ensures { IfOk result (λ made. made ≡ t.chosen_then start condition value other) }
{
    let span = Span {
        start,
        end: other.expr.span().end,
    };
    let height = above(condition.height.max(value.height.max(other.height)));
    let (condition, value, other) = box_three(alloc, condition.expr, value.expr, other.expr)?;
    Ok(GrownExpr {
        expr: Expr::IfThen(
            span,
            Conditional {
                condition,
                value,
                other,
            },
        ),
        height,
    })
}
