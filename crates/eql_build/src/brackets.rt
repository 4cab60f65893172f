//! Expressions with commas between them, and brackets round them.
ghost use Rattle.std.specs.Prelude.{◌≡◌, IfOk};
ghost use Rattle.eql_grammar.specs.Trees as t;

use crate::held::{list_of, pushed};
use crate::leaves::{above, qualified_span};
use ast::{Expr, QualifiedName, Span};
use eql_grammar::{Bunch, GrownExpr, GrownStatement};
use ev_value::{Boxed, List};
use std::alloc::{AllocError, Global};

/// No expressions.
pub fn nothing_yet(alloc: Global) -> Bunch
    ensures { result ≡ t.nothing_yet }
{
    Bunch {
        items: List::new(alloc),
        height: 0,
    }
}

/// One expression.
pub fn alone(alloc: Global, x: GrownExpr) -> Result<Bunch, AllocError>
    ensures { IfOk result (λ made. made ≡ t.alone x) }
{
    let height = x.height;
    let items = list_of(alloc, x.expr)?;
    Ok(Bunch { items, height })
}

/// The expressions with one more behind them.
pub fn added(all: Bunch, x: GrownExpr) -> Result<Bunch, AllocError>
    ensures { IfOk result (λ made. made ≡ t.added all x) }
{
    let height = all.height.max(x.height);
    let items = pushed(all.items, x.expr)?;
    Ok(Bunch { items, height })
}

/// A function and its arguments.
pub fn call(name: QualifiedName, all: Bunch, close: Span) -> GrownExpr
    ensures { result ≡ t.call name all close }
{
    let span = qualified_span(&name).to(close);
    let height = above(all.height);
    GrownExpr {
        expr: Expr::Call(span, name, all.items),
        height,
    }
}

/// `(a, b)`, or `(a,)`.
pub fn tuple(bracket: Span, all: Bunch, close: Span) -> GrownExpr
    ensures { result ≡ t.tuple bracket all close }
{
    let height = above(all.height);
    GrownExpr {
        expr: Expr::Tuple(bracket.to(close), all.items),
        height,
    }
}

/// `{a, b}`, or `{}`.
pub fn set(bracket: Span, all: Bunch, close: Span) -> GrownExpr
    ensures { result ≡ t.set bracket all close }
{
    let height = above(all.height);
    GrownExpr {
        expr: Expr::Set(bracket.to(close), all.items),
        height,
    }
}

/// An expression in parentheses, which are no node.
pub fn grouped(
    alloc: Global,
    bracket: Span,
    x: GrownExpr,
    close: Span,
) -> Result<GrownExpr, AllocError>
    ensures { IfOk result (λ made. made ≡ t.grouped bracket x close) }
{
    let height = x.height;
    let inner = Boxed::new(alloc, x.expr)?;
    Ok(GrownExpr {
        expr: Expr::Group(bracket.to(close), inner),
        height,
    })
}

/// A statement in parentheses.
pub fn stated(
    alloc: Global,
    bracket: Span,
    s: GrownStatement,
    close: Span,
) -> Result<GrownExpr, AllocError>
    ensures { IfOk result (λ made. made ≡ t.stated bracket s close) }
{
    let height = s.height;
    let inner = Boxed::new(alloc, s.statement)?;
    Ok(GrownExpr {
        expr: Expr::Statement(bracket.to(close), inner),
        height,
    })
}
