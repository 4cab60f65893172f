//! A text cut into its tokens.
ghost use Rattle.std.specs.Prelude.{◌≡◌, ◌<◌, ◌-◌, ◌^◌, ◌⊎◌, ℕ, List, length, IfOk};
ghost use Rattle.ev_lex.specs.Cut.{IsFirstToken};
ghost use Rattle.ev_lex.specs.Reading.{IsCut, IsRefused};
ghost use Rattle.ev_lex.specs.declared.token.Token.{Token};

use crate::byte::{begins_word, is_quote};
use crate::literal::literal;
use crate::number::int;
use crate::separator::separator_len;
use crate::sign::sign;
use crate::token::{Cut, Token, Tokens};
use crate::word::word;
use ev_value::List;
use std::alloc::{AllocError, Global};

/// Why a text has no tokens.
#[derive(Clone, Copy, Debug, PartialEq, Eq)]
pub enum LexRefusal {
    /// With this byte no token begins.
    S1 { byte: u32 },
    /// Want of memory, which may come anywhere.
    Memory,
}

impl From<AllocError> for LexRefusal {
    ghost use Rattle.std.specs.Prelude.{◌≡◌};
    ghost use Rattle.ev_lex.specs.declared.reading.LexRefusal.TheVariants as refusal;

    ghost from_gives = { λ _ e. e ≡ refusal.Memory };

    fn from(_: AllocError) -> LexRefusal {
        LexRefusal::Memory
    }
}

/// The token at the front.
fn token(alloc: Global, bytes: &[u8]) -> Result<Option<Cut>, AllocError>
    requires { 0 < length bytes.now }
    ensures { IfOk result (IsFirstToken bytes.now) }
{
    if begins_word(bytes[0]) {
        Ok(Some(word(alloc, bytes)?))
    } else if bytes[0].is_ascii_digit() {
        int(alloc, bytes)
    } else if is_quote(bytes[0]) {
        literal(alloc, bytes)
    } else {
        Ok(sign(bytes))
    }
}

/// The tokens of a text, or the first byte that is neither in a token nor in a separator.
/// Blanks and comments separate tokens, and of the tokens that begin at a byte the longest is taken.
pub fn lex(alloc: Global, text: &[u8]) -> Result<Tokens, LexRefusal>
    requires { length text.now < 2 ^ 32 - 1 }
    ensures found { IfOk result (IsCut text.now) }
    ensures refused { (byte : ℕ) → result ≡ Err (LexRefusal.S1 byte) → IsRefused text.now byte }
    // And where one of the two holds, that is the answer, unless memory runs out.
    ensures only { (tokens : List Token) → IsCut text.now tokens → (result ≡ Ok tokens) ⊎ (result ≡ Err LexRefusal.Memory) }
    ensures only_refused { (byte : ℕ) → IsRefused text.now byte → (result ≡ Err (LexRefusal.S1 byte)) ⊎ (result ≡ Err LexRefusal.Memory) }
{
    let mut tokens = List::new(alloc);
    let mut at = 0;
    while at < text.len() {
        let rest = &text[at..];
        let blank = separator_len(rest);
        if blank > 0 {
            at += blank;
            continue;
        }
        match token(alloc, rest)? {
            None => return Err(LexRefusal::S1 { byte: at as u32 }),
            Some(cut) => {
                let end = at + cut.len;
                tokens.push(Token {
                    kind: cut.kind,
                    start: at as u32,
                    end: end as u32,
                })?;
                at = end;
            }
        }
    }
    Ok(tokens)
}
