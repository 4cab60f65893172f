//! Signs: the longest that stands at the front.
ghost use Rattle.std.specs.Prelude.{◌≡◌, ◌≤◌, false, length, IfSome};
ghost use Rattle.ev_lex.specs.Byte.{begins_word, is_quote, goes_on};
ghost use Rattle.ev_lex.specs.Cut.{IsFirstToken};
ghost use Rattle.ev_lex.specs.SignTable.{begins_other, single, double, sign_of, sign_at};

use crate::token::{Cut, Sign, TokenKind};

fn single(b: u8) -> Option<Sign>
    ensures { result ≡ single b }
{
    match b {
        b'(' => Some(Sign::LeftParen),
        b')' => Some(Sign::RightParen),
        b'{' => Some(Sign::LeftBrace),
        b'}' => Some(Sign::RightBrace),
        b'[' => Some(Sign::LeftBracket),
        b']' => Some(Sign::RightBracket),
        b',' => Some(Sign::Comma),
        b';' => Some(Sign::Semicolon),
        b':' => Some(Sign::Colon),
        b'.' => Some(Sign::Dot),
        b'<' => Some(Sign::Less),
        b'>' => Some(Sign::Greater),
        b'=' => Some(Sign::Equal),
        b'+' => Some(Sign::Plus),
        b'-' => Some(Sign::Minus),
        b'*' => Some(Sign::Star),
        b'%' => Some(Sign::Percent),
        b'@' => Some(Sign::At),
        b'$' => Some(Sign::Dollar),
        _ => None,
    }
}

fn double(b: u8, c: u8) -> Option<Sign>
    ensures { result ≡ double b c }
{
    match (b, c) {
        (b':', b':') => Some(Sign::Namespace),
        (b':', b'=') => Some(Sign::Assign),
        (b'-', b'>') => Some(Sign::Arrow),
        (b'.', b'<') => Some(Sign::BackLink),
        (b'<', b'=') => Some(Sign::LessOrEqual),
        (b'>', b'=') => Some(Sign::GreaterOrEqual),
        (b'!', b'=') => Some(Sign::NotEqual),
        (b'?', b'=') => Some(Sign::OptionalEqual),
        (b'?', b'?') => Some(Sign::Coalesce),
        (b'+', b'+') => Some(Sign::Concat),
        (b'/', b'/') => Some(Sign::FloorDivide),
        _ => None,
    }
}

/// The sign that is written so.
fn sign_of(bytes: &[u8]) -> Option<Sign>
    ensures { result ≡ sign_of bytes.now }
{
    match bytes {
        [b] => single(*b),
        [b, c] => double(*b, *c),
        [b'?', b'!', b'='] => Some(Sign::OptionalNotEqual),
        _ => None,
    }
}

/// The sign that the first `len` bytes are.
fn sign_at(bytes: &[u8], len: usize) -> Option<Sign>
    ensures { result ≡ sign_at bytes.now len }
{
    if len <= bytes.len() {
        sign_of(&bytes[..len])
    } else {
        None
    }
}

fn cut(sign: Sign, len: usize) -> Cut
    ensures { result ≡ record { kind = TokenKind.Sign sign; len = len } }
{
    Cut {
        kind: TokenKind::Sign(sign),
        len,
    }
}

/// The longest sign at the front.
pub fn sign(bytes: &[u8]) -> Option<Cut>
    requires { goes_on begins_other bytes.now ≡ false }
    ensures { IsFirstToken bytes.now result }
{
    if let Some(sign) = sign_at(bytes, 3) {
        return Some(cut(sign, 3));
    }
    if let Some(sign) = sign_at(bytes, 2) {
        return Some(cut(sign, 2));
    }
    match sign_at(bytes, 1) {
        Some(sign) => Some(cut(sign, 1)),
        None => None,
    }
}
