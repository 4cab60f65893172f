//! Queries and expressions from lists of tokens.
ghost use Rattle.std.specs.Prelude.{◌≡◌, ◌≢◌, ◌<◌, ◌≤◌, ◌+◌, ◌^◌, ℕ, true, length, drop, IfOk};
ghost use Rattle.exact.specs.Promise.{IsRefused, IsPrefix};
ghost use Rattle.exact.specs.declared.rule.Rule.{Rule};
ghost use Rattle.ast.specs.declared.expression.Expr.{Expr};
ghost use Rattle.ast.specs.declared.statement.Query.{Query};
ghost use Rattle.ev_lex.specs.declared.token.Token.{Token};
ghost use Rattle.eql_grammar.specs.declared.grown.GrownExpr.{GrownExpr};
ghost use Rattle.eql_grammar.specs.Promise.{QueryText, ExprText, IsQuery, IsExprUpTo};
ghost use Rattle.eql_parse.specs.Promise.{refusal, Answers, IsExprRefused, IsTallUpTo};

use crate::read::{expr, whole_query};
use crate::refusal::{SyntaxRefusal, refused_by};
use ast::{Expr, Query};
use eql_build::{discard, query_of, too_high};
use eql_cursor::Cursor;
use ev_lex::Tokens;
use exact::ReadError;
use std::alloc::Global;

/// The number of the token at the cursor.
fn place(tokens: &Tokens, cursor: &Cursor<'_>) -> u32
    requires few { length tokens.now < 2 ^ 32 }
    requires within { length cursor.now ≤ length tokens.now }
    ensures { result + length cursor.now ≡ length tokens.now }
{
    (tokens.len() - cursor.left()) as u32
}

/// A cursor at the token of this number.
fn at_number<'a>(tokens: &'a Tokens, from: u32) -> Cursor<'a>
    requires { from ≤ length tokens.now }
    ensures { result ≡ drop from tokens.now }
{
    Cursor::new(&tokens.as_slice()[from as usize..])
}

/// The query that the tokens spell. At most 40 parts may be open, and no tree may be higher than 60 nodes.
pub fn parse_query(alloc: Global, tokens: &Tokens) -> Result<Query, SyntaxRefusal>
    requires { length tokens.now < 2 ^ 32 }
    // What is read is spelled so.
    ensures found { IfOk result (λ query. IsQuery tokens.now query) }
    // What is spelled so is read, unless memory runs out.
    ensures only { (query : Query) → IsQuery tokens.now query → Answers result (Ok query) }
    // A refusal names the first token that is dead, or that passes a limit.
    ensures refused { (rule : Rule) (k : ℕ) → result ≡ Err (refusal rule k) → IsRefused QueryText tokens.now rule k }
    // And where there is such a token, that is the answer, unless memory runs out.
    ensures only_refused { (rule : Rule) (k : ℕ) → IsRefused QueryText tokens.now rule k → Answers result (Err (refusal rule k)) }
{
    let mut cursor = Cursor::new(tokens.as_slice());
    match whole_query(alloc, &mut cursor) {
        Ok(asked) => Ok(query_of(alloc, asked)?),
        Err(ReadError::Memory) => Err(SyntaxRefusal::Memory),
        Err(ReadError::Refused(rule)) => Err(refused_by(rule, place(tokens, &cursor))),
    }
}

/// The expression that the tokens spell from number `from` on, and the number of the token behind it, with which no expression
/// goes on. Parts and nodes are counted from `from`.
pub fn parse_expr(alloc: Global, tokens: &Tokens, from: u32) -> Result<(Expr, u32), SyntaxRefusal>
    requires few { length tokens.now < 2 ^ 32 }
    requires within { from ≤ length tokens.now }
    // What is read is spelled so, and no expression goes on with the next token.
    ensures found { IfOk result (λ found. (k : ℕ) × (found.1 ≡ from + k) × IsExprUpTo (drop from tokens.now) found.0 k) }
    // What is spelled so is read, unless memory runs out.
    ensures only { (x : Expr) (k : ℕ) → IsExprUpTo (drop from tokens.now) x k → Answers result (Ok (x, from + k)) }
    // A refusal names the first token that is dead, or that passes a limit.
    ensures refused { (rule : Rule) (token : ℕ) → result ≡ Err (refusal rule token) → (k : ℕ) × (token ≡ from + k) × IsExprRefused (drop from tokens.now) rule k }
    // And where no front of the tokens is an expression, that is the answer, unless memory runs out.
    ensures only_refused { (rule : Rule) (k : ℕ) → IsRefused ExprText (drop from tokens.now) rule k → ((x : GrownExpr) (j : ℕ) → IsPrefix ExprText (drop from tokens.now) x j → ⊥) → Answers result (Err (refusal rule (from + k))) }
    // And so it is where one is that is too high.
    ensures only_tall { (rule : Rule) (k : ℕ) → IsTallUpTo (drop from tokens.now) rule k → Answers result (Err (refusal rule (from + k))) }
{
    let mut cursor = at_number(tokens, from);
    match expr(alloc, &mut cursor) {
        Ok(x) => {
            let end = place(tokens, &cursor);
            if too_high(x.height) {
                discard(x);
                return Err(SyntaxRefusal::S3 { token: end });
            }
            Ok((x.expr, end))
        }
        Err(ReadError::Memory) => Err(SyntaxRefusal::Memory),
        Err(ReadError::Refused(rule)) => Err(refused_by(rule, place(tokens, &cursor))),
    }
}
