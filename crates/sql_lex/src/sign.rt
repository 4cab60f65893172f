//! Signs: the longest that stands at the front.
ghost use Rattle.std.specs.Prelude.{◌≡◌, false};
ghost use Rattle.sql_lex.specs.Byte.{begins_other, goes_on};
ghost use Rattle.sql_lex.specs.Cut.{IsFirstToken};
ghost use Rattle.sql_lex.specs.SignTable.{single, double, single_at, double_at};

use crate::token::{Cut, Sign, TokenKind};

fn single(b: u8) -> Option<Sign>
    ensures { result ≡ single b }
{
    match b {
        b'(' => Some(Sign::LeftParen),
        b')' => Some(Sign::RightParen),
        b',' => Some(Sign::Comma),
        b';' => Some(Sign::Semicolon),
        b'.' => Some(Sign::Dot),
        b'=' => Some(Sign::Equal),
        b'<' => Some(Sign::Less),
        b'>' => Some(Sign::Greater),
        b'+' => Some(Sign::Plus),
        b'-' => Some(Sign::Minus),
        b'*' => Some(Sign::Star),
        b'%' => Some(Sign::Percent),
        _ => None,
    }
}

fn double(b: u8, c: u8) -> Option<Sign>
    ensures { result ≡ double b c }
{
    match (b, c) {
        (b':', b':') => Some(Sign::Cast),
        (b'<', b'>') => Some(Sign::NotEqual),
        (b'<', b'=') => Some(Sign::LessOrEqual),
        (b'>', b'=') => Some(Sign::GreaterOrEqual),
        (b'|', b'|') => Some(Sign::Concat),
        (b'/', b'/') => Some(Sign::FloorDivide),
        _ => None,
    }
}

fn single_at(bytes: &[u8]) -> Option<Sign>
    ensures { result ≡ single_at bytes.now }
{
    match bytes {
        [b, ..] => single(*b),
        [] => None,
    }
}

fn double_at(bytes: &[u8]) -> Option<Sign>
    ensures { result ≡ double_at bytes.now }
{
    match bytes {
        [b, c, ..] => double(*b, *c),
        _ => None,
    }
}

fn cut(sign: Sign, len: usize) -> Cut
    ensures { result ≡ record { kind = TokenKind.Sign sign; len = len } }
{
    Cut {
        kind: TokenKind::Sign(sign),
        len,
    }
}

/// The longest sign at the front.
pub fn sign(bytes: &[u8]) -> Option<Cut>
    requires { goes_on begins_other bytes.now ≡ false }
    ensures { IsFirstToken bytes.now result }
{
    if let Some(sign) = double_at(bytes) {
        return Some(cut(sign, 2));
    }
    match single_at(bytes) {
        Some(sign) => Some(cut(sign, 1)),
        None => None,
    }
}
