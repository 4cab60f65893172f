//! The tree of a statement as it was read, whose `for`s lie flat until it is known that they are not too high.
ghost use Rattle.std.specs.Prelude.{◌≡◌, IfOk};
ghost use Rattle.eql_grammar.specs.Trees as t;

use crate::held::discard;
use crate::holding;
use crate::leaves::above;
use crate::statements::{body_height, round};
use ast::{Query, Span};
use eql_grammar::{Asked, Body, GrownStatement, Head, Heads, Nest};
use ev_value::List;
use std::alloc::{AllocError, Global};

/// The height of the `for`s round a body, from the last of them back.
fn height_round(heads: &[Head], inside: &Body) -> usize
    ensures { result ≡ t.body_height (t.all_round heads.now inside.now) }
{
    let mut height = body_height(inside);
    let mut left = heads.len();
    while left > 0 {
        left -= 1;
        height = above(heads[left].height.max(height));
    }
    height
}

/// The height of a statement.
pub fn statement_height(nest: &Nest) -> usize
    ensures { result ≡ (t.statement_of nest.now).height }
{
    match nest {
        Nest::Select(s) => s.height,
        Nest::For(heads, inside) => {
            let height = height_round(heads.inner.as_slice(), inside);
            above(heads.outermost.height.max(height))
        }
    }
}

#[tactic(auto, using(crate::proofs::Rounds::all_round_last, crate::proofs::Rounds::all_round_none))]
/// The `for`s round a body, built from the last of them back.
fn all_round(alloc: Global, heads: List<Head>, inside: Body) -> Result<Body, AllocError>
    ensures { IfOk result (λ made. made ≡ t.all_round heads inside) }
{
    let mut left = heads;
    let mut body = inside;
    while let Some(head) = left.pop() {
        body = Body::Statement(holding!(left, round(alloc, head, body)));
    }
    discard(left);
    Ok(body)
}

/// The tree of a statement.
pub fn statement_of(alloc: Global, nest: Nest) -> Result<GrownStatement, AllocError>
    ensures { IfOk result (λ made. made ≡ t.statement_of nest) }
{
    match nest {
        Nest::Select(s) => Ok(s),
        Nest::For(heads, inside) => {
            let Heads { outermost, inner } = heads;
            let body = holding!(outermost, all_round(alloc, inner, inside));
            round(alloc, outermost, body)
        }
    }
}

fn query_end(behind: Option<u32>, end: u32) -> u32
    ensures { result ≡ t.query_end behind end }
{
    match behind {
        None => end,
        Some(behind) => behind,
    }
}

/// The query that was read.
pub fn query_of(alloc: Global, asked: Asked) -> Result<Query, AllocError>
    ensures { IfOk result (λ made. made ≡ t.query_of asked) }
{
    let end = asked.end;
    let found = statement_of(alloc, asked.nest)?;
    Ok(Query {
        span: Span {
            start: found.span.start,
            end: query_end(end, found.span.end),
        },
        statement: found.statement,
    })
}
