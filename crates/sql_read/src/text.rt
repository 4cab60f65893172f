//! Reading the text of a statement.
ghost use Rattle.std.specs.Prelude.{◌≡◌, ◌⊎◌, ◌<◌, ◌-◌, ◌^◌, ℕ, List, length, Ok, Err, IfOk};
ghost use Rattle.sql_read.specs.Promise.{IsTextOf};
ghost use Rattle.sql_lex.specs.declared.token.Token.{Token};
ghost use Rattle.sql_grammar.specs.declared.grown.GrownSelect.{GrownSelect};
ghost use Rattle.sql_grammar.specs.Promise.{IsStatement};

use crate::read::whole_statement;
use exact::ReadError;
use sql_cursor::Cursor;
use sql_grammar::GrownSelect;
use sql_lex::{LexRefusal, Token, lex};
use std::alloc::Global;

/// Why a text is no statement.
#[derive(Clone, Copy, Debug, PartialEq, Eq)]
pub enum TextRefusal {
    /// It has no derivation, passes 800 nodes above each other, or has more than 1,600 open parts.
    Q1,
    /// Want of memory, which may come anywhere.
    Memory,
}

/// The statement that the tokens spell.
fn read_tokens(alloc: Global, tokens: &[Token]) -> Result<GrownSelect, TextRefusal>
    ensures found { IfOk result (λ s. IsStatement tokens.now s) }
    ensures refused { result ≡ Err TextRefusal.Q1 → (s : GrownSelect) → IsStatement tokens.now s → ⊥ }
    ensures only { (s : GrownSelect) → IsStatement tokens.now s → (result ≡ Ok s) ⊎ (result ≡ Err TextRefusal.Memory) }
{
    let mut cursor = Cursor::new(tokens);
    match whole_statement(alloc, &mut cursor) {
        Ok(found) => Ok(found.into_inner()),
        Err(ReadError::Memory) => Err(TextRefusal::Memory),
        Err(ReadError::Refused(_)) => Err(TextRefusal::Q1),
    }
}

/// The statement that a text spells, with the places of its parts. Each text spells at most one.
pub fn read_text(alloc: Global, text: &[u8]) -> Result<GrownSelect, TextRefusal>
    requires { length text.now < 2 ^ 32 - 1 }
    // What is read is spelled so.
    ensures found { IfOk result (λ s. IsTextOf text.now s) }
    // It is refused only where nothing is spelled.
    ensures refused { result ≡ Err TextRefusal.Q1 → (s : GrownSelect) → IsTextOf text.now s → ⊥ }
    // What is spelled so is read, unless memory runs out.
    ensures only { (s : GrownSelect) → IsTextOf text.now s → (result ≡ Ok s) ⊎ (result ≡ Err TextRefusal.Memory) }
{
    match lex(alloc, text) {
        Ok(tokens) => read_tokens(alloc, tokens.as_slice()),
        Err(LexRefusal::NoToken) => Err(TextRefusal::Q1),
        Err(LexRefusal::Memory) => Err(TextRefusal::Memory),
    }
}
