//! Clauses behind a subject, and the keys of an order.
ghost use Rattle.std.specs.Prelude.{◌≡◌, IfOk, if◌then◌else◌};
ghost use Rattle.eql_grammar.specs.Trees as t;

use crate::held::{boxed_beside, discard, pushed_beside};
use ast::{Clauses, EmptyPlace, Expr, Key};
use eql_grammar::{Direction, GrownClauses, GrownExpr, GrownKey};
use ev_value::{Boxed, List};
use std::alloc::{AllocError, Global};

/// No clauses behind a subject that ends before the byte `end` and is of this height.
pub fn no_clauses(alloc: Global, end: u32, height: usize) -> GrownClauses
    ensures { result ≡ t.no_clauses end height }
{
    GrownClauses {
        clauses: Clauses {
            filter: None,
            order: List::new(alloc),
            offset: None,
            limit: None,
        },
        end,
        height,
    }
}

/// The clauses with a filter.
pub fn filtered(alloc: Global, c: GrownClauses, x: GrownExpr) -> Result<GrownClauses, AllocError>
    ensures { IfOk result (λ made. made ≡ t.filtered c x) }
{
    let end = x.expr.span().end;
    let height = c.height.max(x.height);
    let Clauses {
        filter,
        order,
        offset,
        limit,
    } = c.clauses;
    discard(filter);
    let (filter, (order, offset, limit)) = boxed_beside(alloc, x.expr, (order, offset, limit))?;
    Ok(GrownClauses {
        clauses: Clauses {
            filter: Some(filter),
            order,
            offset,
            limit,
        },
        end,
        height,
    })
}

/// The clauses with a further key.
pub fn ordered(c: GrownClauses, key: GrownKey) -> Result<GrownClauses, AllocError>
    ensures { IfOk result (λ made. made ≡ t.ordered c key) }
{
    let end = key.end;
    let height = c.height.max(key.height);
    let Clauses {
        filter,
        order,
        offset,
        limit,
    } = c.clauses;
    let (order, (filter, offset, limit)) = pushed_beside(order, key.key, (filter, offset, limit))?;
    Ok(GrownClauses {
        clauses: Clauses {
            filter,
            order,
            offset,
            limit,
        },
        end,
        height,
    })
}

/// The clauses with an offset.
pub fn offset_by(alloc: Global, c: GrownClauses, x: GrownExpr) -> Result<GrownClauses, AllocError>
    ensures { IfOk result (λ made. made ≡ t.offset_by c x) }
{
    let end = x.expr.span().end;
    let height = c.height.max(x.height);
    let Clauses {
        filter,
        order,
        offset,
        limit,
    } = c.clauses;
    discard(offset);
    let (offset, (filter, order, limit)) = boxed_beside(alloc, x.expr, (filter, order, limit))?;
    Ok(GrownClauses {
        clauses: Clauses {
            filter,
            order,
            offset: Some(offset),
            limit,
        },
        end,
        height,
    })
}

/// The clauses with a limit.
pub fn limited(alloc: Global, c: GrownClauses, x: GrownExpr) -> Result<GrownClauses, AllocError>
    ensures { IfOk result (λ made. made ≡ t.limited c x) }
{
    let end = x.expr.span().end;
    let height = c.height.max(x.height);
    let Clauses {
        filter,
        order,
        offset,
        limit,
    } = c.clauses;
    discard(limit);
    let (limit, (filter, order, offset)) = boxed_beside(alloc, x.expr, (filter, order, offset))?;
    Ok(GrownClauses {
        clauses: Clauses {
            filter,
            order,
            offset,
            limit: Some(limit),
        },
        end,
        height,
    })
}

/// The direction of a key that says none.
pub fn upward(x: &GrownExpr) -> Direction
    ensures { result ≡ t.upward x.now }
{
    Direction {
        descending: false,
        end: x.expr.span().end,
    }
}

fn directed(descending: bool, x: Boxed<Expr>, place: Option<EmptyPlace>) -> Key
    ensures { result ≡ (if descending then Key.Descending x place else Key.Ascending x place) }
{
    if descending {
        Key::Descending(x, place)
    } else {
        Key::Ascending(x, place)
    }
}

/// A key that ends before the byte `end`.
pub fn keyed(
    alloc: Global,
    x: GrownExpr,
    way: Direction,
    place: Option<EmptyPlace>,
    end: u32,
) -> Result<GrownKey, AllocError>
    ensures { IfOk result (λ made. made ≡ t.keyed x way place end) }
{
    let height = x.height;
    let value = Boxed::new(alloc, x.expr)?;
    Ok(GrownKey {
        key: directed(way.descending, value, place),
        end,
        height,
    })
}
