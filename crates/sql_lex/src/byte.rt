//! Bytes by their class, and runs of bytes of one class.
ghost use Rattle.std.specs.Prelude.{◌≡◌, ◌≤◌, length};
ghost use Rattle.std.specs.List.{prefix_len};
ghost use Rattle.std.specs.Str.{IsAscii};
ghost use Rattle.sql_lex.specs.Byte.{is_blank, begins_word, continues_word};
ghost use Rattle.sql_lex.specs.Cut.{is_in};

use std::str::from_utf8;

/// Bytes that stand in a row in a token.
#[derive(Clone, Copy)]
pub enum Class {
    /// Decimal digits.
    Digit,
    /// Letters, digits and `_`.
    Word,
    /// All but `"`.
    Name,
}

pub fn is_blank(b: u8) -> bool
    ensures { result ≡ is_blank b }
{
    matches!(b, b' ' | b'\t' | b'\n' | b'\r')
}

pub fn begins_word(b: u8) -> bool
    ensures { result ≡ begins_word b }
{
    b.is_ascii_alphabetic() || b == b'_'
}

pub fn continues_word(b: u8) -> bool
    ensures { result ≡ continues_word b }
{
    b.is_ascii_alphabetic() || b == b'_' || b.is_ascii_digit()
}

fn is_in(class: Class, b: u8) -> bool
    ensures { result ≡ is_in class b }
{
    match class {
        Class::Digit => b.is_ascii_digit(),
        Class::Word => continues_word(b),
        Class::Name => b != b'"',
    }
}

/// How many bytes of the class stand at the front.
pub fn run(class: Class, bytes: &[u8]) -> usize
    ensures value { result ≡ prefix_len (is_in class) bytes.now }
    ensures within { result ≤ length bytes.now }
{
    let mut len = 0;
    while len < bytes.len() && is_in(class, bytes[len]) {
        len += 1;
    }
    len
}

/// Bytes below 128 as text.
pub fn ascii(bytes: &[u8]) -> &str
    requires { IsAscii bytes.now }
    ensures { result.now ≡ bytes.now }
{
    match from_utf8(bytes) {
        Ok(text) => text,
        Err(_) => unreachable!(),
    }
}
