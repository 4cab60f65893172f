//! Schemas from lists of tokens.
ghost use Rattle.std.specs.Prelude.{◌≡◌, ◌<◌, ◌≤◌, ◌+◌, ◌^◌, ℕ, length, IfOk};
ghost use Rattle.exact.specs.Promise.{IsRefused};
ghost use Rattle.exact.specs.declared.rule.Rule.{Rule};
ghost use Rattle.eql_parse.specs.Promise.{refusal, Answers};
ghost use Rattle.sdl_ast.specs.declared.declaration.SdlFile.{SdlFile};
ghost use Rattle.sdl_grammar.specs.Promise.{SchemaText, IsSchema};

use crate::declarations::whole_file;
use eql_cursor::Cursor;
use eql_parse::SyntaxRefusal;
use ev_lex::Tokens;
use exact::{ReadError, Rule};
use sdl_ast::SdlFile;
use std::alloc::Global;

/// The number of the token at the cursor.
fn place(tokens: &Tokens, cursor: &Cursor<'_>) -> u32
    requires few { length tokens.now < 2 ^ 32 }
    requires within { length cursor.now ≤ length tokens.now }
    ensures { result + length cursor.now ≡ length tokens.now }
{
    (tokens.len() - cursor.left()) as u32
}

/// The refusal of the token by the rule.
fn refused_by(rule: Rule, token: u32) -> SyntaxRefusal
    ensures { result ≡ refusal rule token }
{
    match rule {
        Rule::Unexpected => SyntaxRefusal::S2 { token },
        Rule::TooDeep => SyntaxRefusal::S3 { token },
    }
}

/// The schema that the tokens spell. In each expression inside at most 40 parts may be open, and none may be higher than 60 nodes.
pub fn parse_schema(alloc: Global, tokens: &Tokens) -> Result<SdlFile, SyntaxRefusal>
    requires { length tokens.now < 2 ^ 32 }
    // What is read is spelled so.
    ensures found { IfOk result (λ file. IsSchema tokens.now file) }
    // What is spelled so is read, unless memory runs out.
    ensures only { (file : SdlFile) → IsSchema tokens.now file → Answers result (Ok file) }
    // A refusal names the first token that is dead, or that passes a limit.
    ensures refused { (rule : Rule) (k : ℕ) → result ≡ Err (refusal rule k) → IsRefused SchemaText tokens.now rule k }
    // And where there is such a token, that is the answer, unless memory runs out.
    ensures only_refused { (rule : Rule) (k : ℕ) → IsRefused SchemaText tokens.now rule k → Answers result (Err (refusal rule k)) }
{
    let mut cursor = Cursor::new(tokens.as_slice());
    match whole_file(alloc, &mut cursor) {
        Ok(file) => Ok(file),
        Err(ReadError::Memory) => Err(SyntaxRefusal::Memory),
        Err(ReadError::Refused(rule)) => Err(refused_by(rule, place(tokens, &cursor))),
    }
}
