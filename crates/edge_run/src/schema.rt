//! The text of a schema, decided: the schema, or why it is refused.
ghost use Rattle.std.specs.Prelude.{◌≡◌, ◌↔◌, ◌<◌, ◌^◌, IsTrue, length};
ghost use Rattle.edge_run.specs.Judgement.{AsSchema, IsDecided};
ghost use Rattle.edge_run.specs.declared.outcome.Doc.{Doc};
ghost use Rattle.edge_run.specs.Limits.{IsShort};
ghost use Rattle.edge_run.specs.Schema.{IsTokens, IsParsed, IsSurface, IsMade};

use crate::outcome::{Outcome, SchemaRefusal};
use eql_parse::SyntaxRefusal;
use ev_lex::{LexRefusal, Tokens, lex};
use ev_schema::Schema;
use exact::Rule;
use schema_build::{SchemaRefusal as BuildRefusal, build};
use sdl_ast::SdlFile;
use sdl_parse::parse_schema;
use std::alloc::Global;

// The tokens of a text.
fn tokens(alloc: Global, text: &[u8]) -> Result<Tokens, Outcome>
    requires { IsShort Doc.Schema text.now }
    ensures { IsTokens text.now result }
{
    match lex(alloc, text) {
        Ok(tokens) => Ok(tokens),
        Err(LexRefusal::S1 { byte }) => Err(Outcome::SchemaRefused(SchemaRefusal::Lex { byte })),
        Err(LexRefusal::Memory) => Err(Outcome::Memory),
    }
}

// The end that tells a token that the grammar refuses.
fn refused_token(rule: Rule, token: u32) -> Outcome
    ensures { result ≡ Outcome.SchemaRefused (SchemaRefusal.Syntax rule token) }
{
    Outcome::SchemaRefused(SchemaRefusal::Syntax { rule, token })
}

// The surface tree that the tokens spell.
fn parsed(alloc: Global, tokens: &Tokens) -> Result<SdlFile, Outcome>
    requires { length tokens.now < 2 ^ 32 }
    ensures { IsParsed tokens.now result }
{
    match parse_schema(alloc, tokens) {
        Ok(file) => Ok(file),
        Err(SyntaxRefusal::S2 { token }) => Err(refused_token(Rule::Unexpected, token)),
        Err(SyntaxRefusal::S3 { token }) => Err(refused_token(Rule::TooDeep, token)),
        Err(SyntaxRefusal::Memory) => Err(Outcome::Memory),
    }
}

// The surface tree that the text spells.
#[tactic(auto, using(crate::proofs::SchemaLaws::few, crate::proofs::SchemaLaws::surface))]
fn surface(alloc: Global, text: &[u8]) -> Result<SdlFile, Outcome>
    requires { IsShort Doc.Schema text.now }
    ensures { IsSurface text.now result }
{
    let tokens = tokens(alloc, text)?;
    parsed(alloc, &tokens)
}

// The schema that the surface tree is built as.
fn made(alloc: Global, file: SdlFile) -> Result<Schema, Outcome>
    ensures { IsMade file result }
{
    match build(alloc, file) {
        Ok(schema) => Ok(schema),
        Err(BuildRefusal::Build(broken)) => {
            Err(Outcome::SchemaRefused(SchemaRefusal::Build(broken)))
        }
        Err(BuildRefusal::Unbuilt) => Err(Outcome::SchemaRefused(SchemaRefusal::Unbuilt)),
        Err(BuildRefusal::Memory) => Err(Outcome::Memory),
    }
}

/// The schema of a text, unless it spells no schema, or one that breaks a rule or is not built.
#[tactic(auto, using(crate::proofs::SchemaLaws::told_is_decided, crate::proofs::SchemaLaws::made_is_decided))]
pub fn decide_schema(alloc: Global, text: &[u8]) -> Result<Schema, Outcome>
    requires { IsShort Doc.Schema text.now }
    ensures { IsDecided AsSchema text.now result }
{
    match surface(alloc, text) {
        Ok(file) => made(alloc, file),
        Err(outcome) => Err(outcome),
    }
}

/// Whether the types and the pointers have numbers of 32 bits, and there are pointers at all: `id` is one. A schema of a text that
/// is not too long is so.
pub fn is_numbered(schema: &Schema) -> bool
    ensures { IsTrue result ↔ (length schema.now.types < 2 ^ 32 × (0 < length schema.now.pointers × length schema.now.pointers < 2 ^ 32)) }
{
    schema.types().len() <= u32::MAX as usize
        && !schema.pointers().is_empty()
        && schema.pointers().len() <= u32::MAX as usize
}
