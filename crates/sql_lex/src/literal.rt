//! Texts and names, which stand between quotes.
ghost use Rattle.std.specs.Prelude.{◌≡◌, ◌<◌, ◌≤◌, length, drop, true, IfOk};
ghost use Rattle.sql_lex.specs.Byte.{goes_on, is_quote};
ghost use Rattle.sql_lex.specs.Cut.{IsFirstToken, IsPiece, IsClosing};
ghost use Rattle.std.specs.Prelude.{◌==◌};

use crate::byte::{Class, run};
use crate::token::{Cut, TokenKind};
use ev_value::{Bytes, Text};
use std::alloc::{AllocError, Global};
use std::str::from_utf8;

/// The name at the front.
pub fn name(alloc: Global, bytes: &[u8]) -> Result<Option<Cut>, AllocError>
    requires { goes_on (λ b. b == 34) bytes.now ≡ true }
    ensures { IfOk result (IsFirstToken bytes.now) }
{
    let behind = &bytes[1..];
    let len = run(Class::Name, behind);
    if len == 0 || len == behind.len() {
        return Ok(None);
    }
    match from_utf8(&behind[..len]) {
        Ok(text) => Ok(Some(Cut {
            kind: TokenKind::Name(Text::from_str(alloc, text)?),
            len: len + 2,
        })),
        Err(_) => Ok(None),
    }
}

fn is_quote_at(bytes: &[u8], at: usize) -> bool
    requires { at ≤ length bytes.now }
    ensures { result ≡ goes_on is_quote (drop at bytes.now) }
{
    match &bytes[at..] {
        [b, ..] => *b == b'\'',
        [] => false,
    }
}

/// How many bytes stand at the place for one of the text: one, or two for a quote, or none at the closing quote.
fn piece(bytes: &[u8], at: usize) -> usize
    requires { at < length bytes.now }
    ensures { IsPiece bytes.now at result }
{
    if bytes[at] != b'\'' {
        1
    } else if is_quote_at(bytes, at + 1) {
        2
    } else {
        0
    }
}

/// What stands behind an opening quote: the text up to the closing one, and the place of that one.
fn closing(alloc: Global, bytes: &[u8]) -> Result<Option<(Bytes, usize)>, AllocError>
    ensures { IfOk result (IsClosing bytes.now) }
{
    let mut text = Bytes::new(alloc);
    let mut at = 0;
    while at < bytes.len() {
        let len = piece(bytes, at);
        if len == 0 {
            return Ok(Some((text, at)));
        }
        text.push(bytes[at])?;
        at += len;
    }
    Ok(None)
}

/// The text at the front.
pub fn literal(alloc: Global, bytes: &[u8]) -> Result<Option<Cut>, AllocError>
    requires { goes_on is_quote bytes.now ≡ true }
    ensures { IfOk result (IsFirstToken bytes.now) }
{
    let Some((inner, at)) = closing(alloc, &bytes[1..])? else {
        return Ok(None);
    };
    match from_utf8(inner.as_slice()) {
        Ok(text) => Ok(Some(Cut {
            kind: TokenKind::Str(Text::from_str(alloc, text)?),
            len: at + 2,
        })),
        Err(_) => Ok(None),
    }
}
