//! Whole numbers.
ghost use Rattle.std.specs.Prelude.{◌≡◌, ◌≤◌, ◌↔◌, ◌<◌, length, true, IfOk, IsTrue};
ghost use Rattle.std.specs.Char.{is_ascii_digit};
ghost use Rattle.std.specs.List.{list_all};
ghost use Rattle.std.specs.Str.Parse.{digits_value};
ghost use Rattle.ev_lex.specs.Byte.{continues_word, goes_on};
ghost use Rattle.ev_lex.specs.Cut.{IsFirstToken};

use crate::byte::{Class, ascii, continues_word, run};
use crate::token::{Cut, TokenKind};
use ev_value::Text;
use std::alloc::{AllocError, Global};

/// Whether 64 bits with a sign hold the number of these digits.
fn fits(digits: &str) -> bool
    requires some { 0 < length digits.now }
    requires digits { list_all is_ascii_digit digits.now ≡ true }
    ensures { IsTrue result ↔ (digits_value 10 digits.now ≤ 9223372036854775807) }
{
    digits.parse::<i64>().is_ok()
}

fn goes_on_as_word(bytes: &[u8]) -> bool
    ensures { result ≡ goes_on continues_word bytes.now }
{
    match bytes {
        [b, ..] => continues_word(*b),
        [] => false,
    }
}

/// The number at the front: a whole run of digits.
pub fn int(alloc: Global, bytes: &[u8]) -> Result<Option<Cut>, AllocError>
    requires { goes_on is_ascii_digit bytes.now ≡ true }
    ensures { IfOk result (IsFirstToken bytes.now) }
{
    let len = run(Class::Digit, bytes);
    if goes_on_as_word(&bytes[len..]) {
        return Ok(None);
    }
    let digits = ascii(&bytes[..len]);
    if !fits(digits) {
        return Ok(None);
    }
    let text = Text::from_str(alloc, digits)?;
    Ok(Some(Cut {
        kind: TokenKind::Int(text),
        len,
    }))
}
