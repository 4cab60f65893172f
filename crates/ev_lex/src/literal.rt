//! Text literals and their escapes.
ghost use Rattle.std.specs.Prelude.{◌≡◌, ◌<◌, length, slice_index, [], ◌∷◌, true, IfOk};
ghost use Rattle.std.specs.Char.{digit_value, IsScalar};
ghost use Rattle.std.specs.Option.{SomeIff};
ghost use Rattle.std.specs.Str.Parse.{AllDigits, digits_value};
ghost use Rattle.ev_lex.specs.Byte.{goes_on, is_quote};
ghost use Rattle.ev_lex.specs.Cut.{IsFirstToken, IsFirstEscape, IsFirstCharacter, IsFirstPiece, IsClosing};
ghost use Rattle.ev_lex.specs.Literal.{escaped};

use crate::token::{Cut, TokenKind};
use bstr::decode_utf8;
use ev_value::Text;
use std::alloc::{AllocError, Global};

/// The character that `\` and the byte stand for.
fn escaped(b: u8) -> Option<char>
    ensures { result ≡ escaped b }
{
    match b {
        b'\\' => Some('\\'),
        b'\'' => Some('\''),
        b'"' => Some('"'),
        b'n' => Some('\n'),
        b'r' => Some('\r'),
        b't' => Some('\t'),
        _ => None,
    }
}

fn hex_digit(b: u8) -> Option<u32>
    ensures { SomeIff result (digit_value b < 16) (digit_value b) }
{
    (b as char).to_digit(16)
}

/// The character of four hexadecimal digits, unless they are those of a surrogate.
fn hex_char(h: u8, i: u8, j: u8, k: u8) -> Option<char>
    ensures { SomeIff result (AllDigits 16 (h ∷ i ∷ j ∷ k ∷ []) × IsScalar (digits_value 16 (h ∷ i ∷ j ∷ k ∷ []))) (digits_value 16 (h ∷ i ∷ j ∷ k ∷ [])) }
{
    let high = hex_digit(h)? * 16 + hex_digit(i)?;
    let low = hex_digit(j)? * 16 + hex_digit(k)?;
    char::from_u32(high * 256 + low)
}

/// The escape at the front: its character, and how many bytes it takes.
fn escape(bytes: &[u8]) -> Option<(char, usize)>
    requires { slice_index bytes.now 0 ≡ 92 }
    ensures { IsFirstEscape bytes.now result }
{
    if bytes.len() < 2 {
        return None;
    }
    if bytes[1] != b'u' {
        return Some((escaped(bytes[1])?, 2));
    }
    if bytes.len() < 6 {
        return None;
    }
    Some((hex_char(bytes[2], bytes[3], bytes[4], bytes[5])?, 6))
}

/// The character at the front, and how many bytes it takes.
fn character(bytes: &[u8]) -> Option<(char, usize)>
    ensures { IsFirstCharacter bytes.now result }
{
    match decode_utf8(bytes) {
        (Some(character), len) => Some((character, len)),
        (None, _) => None,
    }
}

/// What stands at the front for a character, with that character, and how many bytes it takes.
fn piece(quote: u8, bytes: &[u8]) -> Option<(char, usize)>
    requires quote { is_quote quote ≡ true }
    requires some { 0 < length bytes.now }
    ensures { IsFirstPiece quote bytes.now result }
{
    if bytes[0] == quote {
        None
    } else if bytes[0] == b'\\' {
        escape(bytes)
    } else {
        character(bytes)
    }
}

/// What stands behind an opening quote: the text up to the closing one, and how many bytes both take.
fn closing(alloc: Global, quote: u8, bytes: &[u8]) -> Result<Option<(Text, usize)>, AllocError>
    requires { is_quote quote ≡ true }
    ensures { IfOk result (IsClosing quote bytes.now) }
{
    let mut text = String::new(alloc);
    let mut at = 0;
    while at < bytes.len() && bytes[at] != quote {
        match piece(quote, &bytes[at..]) {
            None => return Ok(None),
            Some((character, len)) => {
                text.push(character)?;
                at += len;
            }
        }
    }
    if at == bytes.len() {
        return Ok(None);
    }
    Ok(Some((Text::new(text), at + 1)))
}

/// The literal at the front.
pub fn literal(alloc: Global, bytes: &[u8]) -> Result<Option<Cut>, AllocError>
    requires { goes_on is_quote bytes.now ≡ true }
    ensures { IfOk result (IsFirstToken bytes.now) }
{
    match closing(alloc, bytes[0], &bytes[1..])? {
        None => Ok(None),
        Some((text, len)) => Ok(Some(Cut {
            kind: TokenKind::Str(text),
            len: len + 1,
        })),
    }
}
