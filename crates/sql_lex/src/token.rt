//! Tokens, and the signs among them.

use crate::keyword::Keyword;
use ev_value::{List, Text};

/// A sign: punctuation or an operator.
#[derive(Clone, Copy, Debug, PartialEq, Eq)]
pub enum Sign {
    LeftParen,
    RightParen,
    Comma,
    Semicolon,
    /// `.`
    Dot,
    /// `::`
    Cast,
    Equal,
    /// `<>`
    NotEqual,
    /// `<=`
    LessOrEqual,
    Less,
    /// `>=`
    GreaterOrEqual,
    Greater,
    Plus,
    Minus,
    /// `||`
    Concat,
    Star,
    /// `//`
    FloorDivide,
    /// `%`
    Percent,
}

/// What a token is.
#[derive(Drop)]
pub enum TokenKind {
    Word(Keyword),
    /// A name, without its quotes.
    Name(Text),
    /// A number that is not negative.
    Int(i64),
    /// The text that a literal stands for.
    Str(Text),
    Sign(Sign),
}

/// A token, with its first byte in the text.
#[derive(Drop)]
pub struct Token {
    pub kind: TokenKind,
    pub start: u32,
}

/// The tokens of a text, in order.
pub type Tokens = List<Token>;

/// A token at the front of some bytes, and how many of them it takes.
#[derive(Drop)]
pub struct Cut {
    pub kind: TokenKind,
    pub len: usize,
}
