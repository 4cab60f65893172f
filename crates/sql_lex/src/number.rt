//! Whole numbers.
ghost use Rattle.std.specs.Prelude.{◌≡◌, ◌<◌, ◌≤◌, pos, length, true};
ghost use Rattle.std.specs.Char.{is_ascii_digit};
ghost use Rattle.std.specs.List.{list_all};
ghost use Rattle.std.specs.Option.{SomeIff};
ghost use Rattle.std.specs.Str.Parse.{digits_value};
ghost use Rattle.sql_lex.specs.Byte.{continues_word, goes_on};
ghost use Rattle.sql_lex.specs.Cut.{IsFirstToken};

use crate::byte::{Class, ascii, continues_word, run};
use crate::token::{Cut, TokenKind};

/// The number of these digits, if 64 bits with a sign hold it.
fn number(digits: &str) -> Option<i64>
    requires some { 0 < length digits.now }
    requires digits { list_all is_ascii_digit digits.now ≡ true }
    ensures { SomeIff result (digits_value 10 digits.now ≤ 9223372036854775807) (pos (digits_value 10 digits.now)) }
{
    match digits.parse::<i64>() {
        Ok(number) => Some(number),
        Err(_) => None,
    }
}

fn goes_on_as_word(bytes: &[u8]) -> bool
    ensures { result ≡ goes_on continues_word bytes.now }
{
    match bytes {
        [b, ..] => continues_word(*b),
        [] => false,
    }
}

fn cut(number: i64, len: usize) -> Cut
    ensures { result ≡ record { kind = TokenKind.Int number; len = len } }
{
    Cut {
        kind: TokenKind::Int(number),
        len,
    }
}

/// The number at the front: a whole run of digits.
pub fn int(bytes: &[u8]) -> Option<Cut>
    requires { goes_on is_ascii_digit bytes.now ≡ true }
    ensures { IsFirstToken bytes.now result }
{
    let len = run(Class::Digit, bytes);
    if goes_on_as_word(&bytes[len..]) {
        return None;
    }
    match number(ascii(&bytes[..len])) {
        Some(number) => Some(cut(number, len)),
        None => None,
    }
}
