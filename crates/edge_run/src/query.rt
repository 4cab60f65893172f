//! The text of a query, decided: its tree over a schema, or why it is refused.
ghost use Rattle.std.specs.Prelude.{◌≡◌, ◌<◌, ◌^◌, length};
ghost use Rattle.eql_forms.specs.Built.{built_query};
ghost use Rattle.edge_run.specs.Judgement.{AsQuery, IsDecided};
ghost use Rattle.edge_run.specs.declared.outcome.Doc.{Doc};
ghost use Rattle.edge_run.specs.Limits.{IsShort};
ghost use Rattle.edge_run.specs.Query.{IsTokens, IsParsed, IsSurface, IsTree};

use crate::outcome::{Outcome, QueryRefusal};
use crate::schema::is_numbered;
use ast::Query;
use core_ir::Scope;
use eql_forms::{BuildError, build_query};
use eql_parse::{SyntaxRefusal, parse_query};
use ev_lex::{LexRefusal, Tokens, lex};
use ev_schema::Schema;
use exact::Rule;
use std::alloc::Global;

// The tokens of a text.
fn tokens(alloc: Global, text: &[u8]) -> Result<Tokens, Outcome>
    requires { IsShort Doc.Query text.now }
    ensures { IsTokens text.now result }
{
    match lex(alloc, text) {
        Ok(tokens) => Ok(tokens),
        Err(LexRefusal::S1 { byte }) => Err(Outcome::QueryRefused(QueryRefusal::Lex { byte })),
        Err(LexRefusal::Memory) => Err(Outcome::Memory),
    }
}

// The end that tells a token that the grammar refuses.
fn refused_token(rule: Rule, token: u32) -> Outcome
    ensures { result ≡ Outcome.QueryRefused (QueryRefusal.Syntax rule token) }
{
    Outcome::QueryRefused(QueryRefusal::Syntax { rule, token })
}

// The surface tree that the tokens spell.
fn parsed(alloc: Global, tokens: &Tokens) -> Result<Query, Outcome>
    requires { length tokens.now < 2 ^ 32 }
    ensures { IsParsed tokens.now result }
{
    match parse_query(alloc, tokens) {
        Ok(query) => Ok(query),
        Err(SyntaxRefusal::S2 { token }) => Err(refused_token(Rule::Unexpected, token)),
        Err(SyntaxRefusal::S3 { token }) => Err(refused_token(Rule::TooDeep, token)),
        Err(SyntaxRefusal::Memory) => Err(Outcome::Memory),
    }
}

// The surface tree that the text spells.
#[tactic(auto, using(crate::proofs::QueryLaws::few, crate::proofs::QueryLaws::surface))]
fn surface(alloc: Global, text: &[u8]) -> Result<Query, Outcome>
    requires { IsShort Doc.Query text.now }
    ensures { IsSurface text.now result }
{
    let tokens = tokens(alloc, text)?;
    parsed(alloc, &tokens)
}

// The tree that the surface tree is built as.
fn tree(alloc: Global, schema: &Schema, query: &Query) -> Result<Scope, Outcome>
    ensures { IsTree (built_query schema.now query.now) result }
{
    if !is_numbered(schema) {
        return Err(Outcome::Memory);
    }
    match build_query(alloc, schema, query) {
        Ok(tree) => Ok(tree),
        Err(BuildError::Unbuilt) => Err(Outcome::QueryRefused(QueryRefusal::Unbuilt)),
        Err(BuildError::Memory) => Err(Outcome::Memory),
    }
}

/// The tree of a query text over a schema, unless it spells no query, or one that is not built there.
#[tactic(auto, using(crate::proofs::QueryLaws::told_is_decided, crate::proofs::QueryLaws::tree_is_decided))]
pub fn decide_query(alloc: Global, schema: &Schema, text: &[u8]) -> Result<Scope, Outcome>
    requires { IsShort Doc.Query text.now }
    ensures { IsDecided (AsQuery schema.now) text.now result }
{
    match surface(alloc, text) {
        Ok(query) => tree(alloc, schema, &query),
        Err(outcome) => Err(outcome),
    }
}
