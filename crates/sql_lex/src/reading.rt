//! A text cut into its tokens.
ghost use Rattle.std.specs.Prelude.{◌≡◌, ◌<◌, ◌-◌, ◌^◌, ◌⊎◌, ℕ, List, length, IfOk, Err};
ghost use Rattle.sql_lex.specs.Cut.{IsFirstToken};
ghost use Rattle.sql_lex.specs.Reading.{IsCut};
ghost use Rattle.sql_lex.specs.declared.token.Token.{Token};

use crate::byte::{begins_word, is_blank};
use crate::literal::{literal, name};
use crate::number::int;
use crate::sign::sign;
use crate::token::{Cut, Token, Tokens};
use crate::word::word;
use ev_value::List;
use std::alloc::{AllocError, Global};

/// Why a text has no tokens.
#[derive(Clone, Copy, Debug, PartialEq, Eq)]
pub enum LexRefusal {
    /// It has a byte that begins no token.
    NoToken,
    /// Want of memory, which may come anywhere.
    Memory,
}

impl From<AllocError> for LexRefusal {
    ghost use Rattle.std.specs.Prelude.{◌≡◌};
    ghost use Rattle.sql_lex.specs.declared.reading.LexRefusal.TheVariants as refusal;

    ghost from_gives = { λ _ e. e ≡ refusal.Memory };

    fn from(_: AllocError) -> LexRefusal {
        LexRefusal::Memory
    }
}

/// The token at the front.
fn token(alloc: Global, bytes: &[u8]) -> Result<Option<Cut>, AllocError>
    requires { 0 < length bytes.now }
    ensures { IfOk result (IsFirstToken bytes.now) }
{
    if begins_word(bytes[0]) {
        Ok(word(bytes))
    } else if bytes[0].is_ascii_digit() {
        Ok(int(bytes))
    } else if bytes[0] == b'\'' {
        literal(alloc, bytes)
    } else if bytes[0] == b'"' {
        name(alloc, bytes)
    } else {
        Ok(sign(bytes))
    }
}

/// The tokens of a text. Blanks separate tokens, and of the tokens that begin at a byte the longest is taken.
pub fn lex(alloc: Global, text: &[u8]) -> Result<Tokens, LexRefusal>
    requires { length text.now < 2 ^ 32 - 1 }
    ensures found { IfOk result (IsCut text.now) }
    ensures refused { result ≡ Err LexRefusal.NoToken → (tokens : List Token) → IsCut text.now tokens → ⊥ }
    // And where the text has tokens, they are the answer, unless memory runs out.
    ensures only { (tokens : List Token) → IsCut text.now tokens → (result ≡ Ok tokens) ⊎ (result ≡ Err LexRefusal.Memory) }
{
    let mut tokens = List::new(alloc);
    let mut at = 0;
    while at < text.len() {
        if is_blank(text[at]) {
            at += 1;
            continue;
        }
        match token(alloc, &text[at..])? {
            None => return Err(LexRefusal::NoToken),
            Some(cut) => {
                tokens.push(Token {
                    kind: cut.kind,
                    start: at as u32,
                })?;
                at += cut.len;
            }
        }
    }
    Ok(tokens)
}
