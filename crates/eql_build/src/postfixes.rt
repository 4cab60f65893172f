//! What stands behind a base.
ghost use Rattle.std.specs.Prelude.{◌≡◌, IfOk};
ghost use Rattle.eql_grammar.specs.Trees as t;

use crate::leaves::above;
use ast::{Expr, Name, Postfix, QualifiedName, Span, Step};
use eql_grammar::{GrownExpr, GrownShape};
use std::alloc::{AllocError, Global};

/// `.name`
pub fn dot(at: Span, name: Name) -> Postfix
    ensures { result ≡ t.dot at name }
{
    Postfix {
        span: at.to(name.span),
        step: Step::Dot(name),
    }
}

/// `.<name`
pub fn back_link(at: Span, name: Name) -> Postfix
    ensures { result ≡ t.back_link at name }
{
    Postfix {
        span: at.to(name.span),
        step: Step::BackLink(name),
    }
}

/// `@name`
pub fn property(at: Span, name: Name) -> Postfix
    ensures { result ≡ t.property at name }
{
    Postfix {
        span: at.to(name.span),
        step: Step::Property(name),
    }
}

/// `[is name]`
pub fn is_type(bracket: Span, ty: QualifiedName, close: Span) -> Postfix
    ensures { result ≡ t.is_type bracket ty close }
{
    Postfix {
        span: bracket.to(close),
        step: Step::Is(ty),
    }
}

/// A base with a postfix behind it.
pub fn stepped(alloc: Global, base: GrownExpr, found: Postfix) -> Result<GrownExpr, AllocError>
    ensures { IfOk result (λ made. made ≡ t.stepped base found) }
{
    let height = above(base.height);
    let expr = Expr::postfix(alloc, base.expr, found)?;
    Ok(GrownExpr { expr, height })
}

/// A base with a shape behind it.
pub fn with_shape(
    alloc: Global,
    base: GrownExpr,
    found: GrownShape,
) -> Result<GrownExpr, AllocError>
    ensures { IfOk result (λ made. made ≡ t.with_shape base found) }
{
    let height = above(base.height.max(found.height));
    let expr = Expr::shaped(alloc, base.expr, found.shape)?;
    Ok(GrownExpr { expr, height })
}
