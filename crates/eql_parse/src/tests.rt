//! Query texts with the refusals that the grammar gives them, and the grouping of operators.

use crate::{
    SyntaxRefusal, few_tokens, one_expression, one_refusal, one_tree, parse_expr, parse_query,
};
use ast::{BinaryOperator, Expr, Query, Span, Statement, UnaryOperator};
use eql_build::discard;
use ev_lex::{Tokens, lex};
use std::alloc::{AllocError, Global};
use std::test::Fail;

/// What comes of a text.
#[derive(Clone, Copy, Debug, PartialEq, Eq)]
enum Outcome {
    Query,
    S2(u32),
    S3(u32),
    /// It has no tokens, or memory ran out.
    Nothing,
}

fn refusal_told(refusal: SyntaxRefusal) -> Outcome {
    match refusal {
        SyntaxRefusal::S2 { token } => Outcome::S2(token),
        SyntaxRefusal::S3 { token } => Outcome::S3(token),
        SyntaxRefusal::Memory => Outcome::Nothing,
    }
}

fn tokens_told(alloc: Global, tokens: &Tokens) -> Outcome {
    if tokens.len() > 10000 {
        return Outcome::Nothing;
    }
    match parse_query(alloc, tokens) {
        Ok(query) => {
            discard(query);
            Outcome::Query
        }
        Err(refusal) => refusal_told(refusal),
    }
}

fn told(alloc: Global, text: &[u8]) -> Outcome {
    if text.len() > 10000 {
        return Outcome::Nothing;
    }
    match lex(alloc, text) {
        Ok(tokens) => tokens_told(alloc, &tokens),
        Err(_) => Outcome::Nothing,
    }
}

static ROWS: [(&[u8], Outcome); 24] = [
    (b"", Outcome::S2(0)),
    (b"select", Outcome::S2(1)),
    (b"select User {", Outcome::S2(3)),
    (b"select User {name", Outcome::S2(4)),
    (b"select 1 + ;", Outcome::S2(3)),
    (b"select a < b < c", Outcome::S2(4)),
    (b"select 1;", Outcome::Query),
    (b"select 1; 2", Outcome::S2(3)),
    (b"select {1, 2, }", Outcome::Query),
    (b"select {1, , 2}", Outcome::S2(4)),
    (b"select (1, 2, )", Outcome::S2(6)),
    (b"select f(1, )", Outcome::S2(5)),
    (
        b"select User { name, posts: { title } limit 1, }",
        Outcome::Query,
    ),
    (b"select User { }", Outcome::S2(3)),
    (b"with a := 1, select a", Outcome::Query),
    (
        b"for x in {1, 2} union for y in {x} union x + y",
        Outcome::Query,
    ),
    (
        b"select if a then if b then 1 else 2 else 3",
        Outcome::Query,
    ),
    (b"select if a then 1", Outcome::S2(5)),
    (b"select <optional str>$0 ?? <str>$x", Outcome::Query),
    (b"select <optional str>1", Outcome::S2(5)),
    (
        b"select x filter .a not in {1} order by .b desc empty first then .c offset 1 limit 2",
        Outcome::Query,
    ),
    (b"select x order .b", Outcome::S2(3)),
    (b"SELECT a[is default::B].<c[IS D]@e", Outcome::Query),
    (b"select (select 1)", Outcome::Query),
];

/// How many rows tell what they are to tell, up to the first that does not.
fn rows_told(alloc: Global) -> usize {
    let mut count = 0;
    for row in &ROWS {
        if told(alloc, row.0) != row.1 {
            return count;
        }
        count = count.saturating_add(1);
    }
    count
}

static RESERVED: [&str; 33] = [
    "select",
    "with",
    "filter",
    "order",
    "by",
    "offset",
    "limit",
    "for",
    "in",
    "union",
    "if",
    "else",
    "and",
    "or",
    "not",
    "exists",
    "distinct",
    "is",
    "global",
    "optional",
    "required",
    "single",
    "multi",
    "true",
    "false",
    "like",
    "ilike",
    "intersect",
    "except",
    "insert",
    "update",
    "delete",
    "Group",
];

static OTHERS: [&str; 30] = [
    "asc",
    "desc",
    "empty",
    "first",
    "last",
    "then",
    "module",
    "abstract",
    "type",
    "extending",
    "property",
    "link",
    "index",
    "on",
    "annotation",
    "overloaded",
    "delegated",
    "constraint",
    "default",
    "target",
    "restrict",
    "access",
    "policy",
    "allow",
    "deny",
    "all",
    "using",
    "read",
    "write",
    "source",
];

/// Whether each word behind a point tells the same.
fn all_behind_a_point(alloc: Global, words: &[&str], wanted: Outcome) -> Result<bool, AllocError> {
    for word in words {
        let text = format!(in alloc; "select a.{word}")?;
        if told(alloc, text.as_bytes()) != wanted {
            return Ok(false);
        }
    }
    Ok(true)
}

/// What comes of `head`, so many times `part`, and `tail`.
fn repeated(
    alloc: Global,
    head: &str,
    part: &str,
    times: usize,
    tail: &str,
) -> Result<Outcome, AllocError> {
    let mut text = String::from_str(alloc, head)?;
    for _turn in 0..times {
        text.push_str(part)?;
    }
    text.push_str(tail)?;
    Ok(told(alloc, text.as_bytes()))
}

/// The outermost operator of an expression, and where its operands stand.
#[derive(Clone, Copy, Debug, PartialEq, Eq)]
enum Grouping {
    Binary(BinaryOperator, Span, Span),
    Unary(UnaryOperator, Span),
    Other,
}

fn outer(x: &Expr) -> Grouping {
    match x {
        Expr::Binary(_, found) => {
            Grouping::Binary(
                found.operator,
                found.left.get().span(),
                found.right.get().span(),
            )
        }
        Expr::Unary(_, operator, operand) => Grouping::Unary(*operator, operand.get().span()),
        _ => Grouping::Other,
    }
}

fn outer_of_query(query: &Query) -> Grouping {
    match &query.statement {
        Statement::Select(_, _, select) => outer(select.subject.get()),
        Statement::For(_, _, _) => Grouping::Other,
    }
}

/// The outermost operator of the query, and of the expression that stands behind its first token.
fn grouped(alloc: Global, text: &[u8]) -> (Grouping, Grouping, u32) {
    let nothing = (Grouping::Other, Grouping::Other, 0);
    if text.len() > 10000 {
        return nothing;
    }
    match lex(alloc, text) {
        Ok(tokens) => {
            if tokens.len() < 1 || tokens.len() > 10000 {
                return nothing;
            }
            grouped_tokens(alloc, &tokens)
        }
        Err(_) => nothing,
    }
}

fn grouped_tokens(alloc: Global, tokens: &Tokens) -> (Grouping, Grouping, u32) {
    let nothing = (Grouping::Other, Grouping::Other, 0);
    if tokens.len() < 1 || tokens.len() > 10000 {
        return nothing;
    }
    let whole = match parse_query(alloc, tokens) {
        Ok(query) => {
            let found = outer_of_query(&query);
            discard(query);
            found
        }
        Err(_) => Grouping::Other,
    };
    match parse_expr(alloc, tokens, 1) {
        Ok((x, end)) => {
            let found = outer(&x);
            discard(x);
            (whole, found, end)
        }
        Err(_) => nothing,
    }
}

/// Whether both are the operator with its operands at these bytes, and the expression ends at the token.
fn is_grouped(alloc: Global, text: &[u8], wanted: Grouping, end: u32) -> bool {
    grouped(alloc, text) == (wanted, wanted, end)
}

const fn at(start: u32, end: u32) -> Span {
    Span { start, end }
}

#[test]
fn tells_the_first_dead_token(rt: HostRuntime) -> Result<(), Fail> {
    one_tree();
    one_refusal();
    one_expression();
    few_tokens();
    assert_eq!(rt; rows_told(rt.alloc()), ROWS.len());
    Ok(())
}

#[test]
fn names_are_no_reserved_words(rt: HostRuntime) -> Result<(), Fail> {
    let alloc = rt.alloc();
    assert!(rt; all_behind_a_point(alloc, &RESERVED, Outcome::S2(3))?);
    assert!(rt; all_behind_a_point(alloc, &OTHERS, Outcome::Query)?);
    Ok(())
}

#[test]
fn limits_are_kept(rt: HostRuntime) -> Result<(), Fail> {
    let alloc = rt.alloc();
    assert_eq!(rt; repeated(alloc, "select ", "(", 41, "1")?, Outcome::S3(41));
    assert_eq!(rt; repeated(alloc, "select ", "(", 40, "1")?, Outcome::S2(42));
    assert_eq!(rt; repeated(alloc, "select 1", "+1", 58, "")?, Outcome::Query);
    assert_eq!(rt;
        repeated(alloc, "select 1", "+1", 59, "")?,
        Outcome::S3(120)
    );
    assert_eq!(rt;
        repeated(alloc, "select 1", "+1", 59, " )")?,
        Outcome::S2(120)
    );
    assert_eq!(rt;
        repeated(alloc, "", "for x in y union ", 59, "1")?,
        Outcome::Query
    );
    assert_eq!(rt;
        repeated(alloc, "", "for x in y union ", 60, "1")?,
        Outcome::S3(301)
    );
    Ok(())
}

#[test]
fn operators_group(rt: HostRuntime) -> Result<(), Fail> {
    let alloc = rt.alloc();
    let minus = Grouping::Binary(BinaryOperator::Subtract, at(7, 12), at(15, 16));
    assert!(rt; is_grouped(alloc, b"select 1 - 2 - 3", minus, 6));
    let coalesce = Grouping::Binary(BinaryOperator::Coalesce, at(7, 8), at(12, 18));
    assert!(rt; is_grouped(alloc, b"select a ?? b ?? c", coalesce, 6));
    let not = Grouping::Unary(UnaryOperator::Not, at(11, 16));
    assert!(rt; is_grouped(alloc, b"select not a = b", not, 5));
    let less = Grouping::Binary(BinaryOperator::Less, at(7, 8), at(11, 12));
    assert!(rt; grouped(alloc, b"select a < b < c") == (Grouping::Other, less, 4));
    Ok(())
}
