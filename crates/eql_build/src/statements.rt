//! Statements, aliases, and the `for`s round what they hold.
ghost use Rattle.std.specs.Prelude.{◌≡◌, IfOk};
ghost use Rattle.eql_grammar.specs.Trees as t;

use crate::held::{boxed_beside, list_of, pushed, pushed_beside};
use crate::holding;
use crate::leaves::above;
use ast::{Alias, For, ForBody, Name, Select, Span, Statement};
use eql_grammar::{Body, GrownAlias, GrownClauses, GrownExpr, GrownStatement, Head, Heads, With};
use ev_value::{Boxed, List};
use std::alloc::{AllocError, Global};

/// `name := value`
pub fn alias_of(alloc: Global, name: Name, x: GrownExpr) -> Result<GrownAlias, AllocError>
    ensures { IfOk result (λ made. made ≡ t.alias_of name x) }
{
    let span = name.span.to(x.expr.span());
    let height = x.height;
    let (value, name) = boxed_beside(alloc, x.expr, name)?;
    Ok(GrownAlias {
        alias: Alias { span, name, value },
        height,
    })
}

/// No aliases.
pub fn no_aliases(alloc: Global) -> With
    ensures { result ≡ t.no_aliases }
{
    With {
        start: None,
        aliases: List::new(alloc),
        height: 0,
    }
}

/// The first alias behind a `with` at the byte `start`.
pub fn first_alias(alloc: Global, start: u32, x: GrownAlias) -> Result<With, AllocError>
    ensures { IfOk result (λ made. made ≡ t.first_alias start x) }
{
    let height = x.height;
    let aliases = list_of(alloc, x.alias)?;
    Ok(With {
        start: Some(start),
        aliases,
        height,
    })
}

/// The aliases with one more behind them.
pub fn added_alias(all: With, x: GrownAlias) -> Result<With, AllocError>
    ensures { IfOk result (λ made. made ≡ t.added_alias all x) }
{
    let start = all.start;
    let height = all.height.max(x.height);
    let aliases = pushed(all.aliases, x.alias)?;
    Ok(With {
        start,
        aliases,
        height,
    })
}

/// Where a statement begins: at its `with`, or else at its own first word.
fn start_of(with: Option<u32>, at: Span) -> u32
    ensures { result ≡ t.start_of with at }
{
    match with {
        None => at.start,
        Some(start) => start,
    }
}

/// A `for` up to its `union`.
pub fn headed(before: With, at: Span, variable: Name, iterator: GrownExpr) -> Head
    ensures { result ≡ t.headed before at variable iterator }
{
    let height = before.height.max(iterator.height);
    Head {
        start: start_of(before.start, at),
        aliases: before.aliases,
        variable,
        iterator: iterator.expr,
        height,
    }
}

/// A `select` with its clauses.
pub fn selected(
    alloc: Global,
    before: With,
    at: Span,
    subject: GrownExpr,
    c: GrownClauses,
) -> Result<GrownStatement, AllocError>
    ensures { IfOk result (λ made. made ≡ t.selected before at subject c) }
{
    let span = Span {
        start: start_of(before.start, at),
        end: c.end,
    };
    let height = above(before.height.max(c.height));
    let (subject, (aliases, clauses)) = boxed_beside(
        alloc,
        subject.expr,
        (before.aliases, c.clauses),
    )?;
    Ok(GrownStatement {
        statement: Statement::Select(span, aliases, Select { subject, clauses }),
        span,
        height,
    })
}

fn body_of(alloc: Global, inside: Body) -> Result<ForBody, AllocError>
    ensures { IfOk result (λ made. made ≡ t.body_of inside) }
{
    match inside {
        Body::Statement(s) => Ok(ForBody::Statement(Boxed::new(alloc, s.statement)?)),
        Body::Expr(x) => Ok(ForBody::Expr(Boxed::new(alloc, x.expr)?)),
    }
}

fn body_end(inside: &Body) -> u32
    ensures { result ≡ t.body_end inside.now }
{
    match inside {
        Body::Statement(s) => s.span.end,
        Body::Expr(x) => x.expr.span().end,
    }
}

/// The height of what stands inside all of the `for`s.
pub fn body_height(inside: &Body) -> usize
    ensures { result ≡ t.body_height inside.now }
{
    match inside {
        Body::Statement(s) => s.height,
        Body::Expr(x) => x.height,
    }
}

/// A `for` round its body.
pub fn round(alloc: Global, head: Head, inside: Body) -> Result<GrownStatement, AllocError>
    ensures { IfOk result (λ made. made ≡ t.round head inside) }
{
    let span = Span {
        start: head.start,
        end: body_end(&inside),
    };
    let height = above(head.height.max(body_height(&inside)));
    let (iterator, (aliases, variable, inside)) = boxed_beside(
        alloc,
        head.iterator,
        (head.aliases, head.variable, inside),
    )?;
    let body = holding!((iterator, aliases, variable), body_of(alloc, inside));
    Ok(GrownStatement {
        statement: Statement::For(
            span,
            aliases,
            For {
                variable,
                iterator,
                body,
            },
        ),
        span,
        height,
    })
}

/// The `for`s so far: one.
pub fn outermost(alloc: Global, head: Head) -> Heads
    ensures { result ≡ t.outermost head }
{
    Heads {
        outermost: head,
        inner: List::new(alloc),
    }
}

/// The `for`s with one more inside them.
pub fn within_head(heads: Heads, head: Head) -> Result<Heads, AllocError>
    ensures { IfOk result (λ made. made ≡ t.within_head heads head) }
{
    let (inner, outermost) = pushed_beside(heads.inner, head, heads.outermost)?;
    Ok(Heads { outermost, inner })
}
