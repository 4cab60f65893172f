//! Tokens, and the signs of the language.

use ev_value::{List, Text};

/// A sign of the language: punctuation or an operator, as the EdgeDB documentation's page on lexical structure lists them.
#[derive(Clone, Copy, Debug, PartialEq, Eq)]
pub enum Sign {
    /// `::`
    Namespace,
    /// `:=`
    Assign,
    /// `->`
    Arrow,
    /// `.<`
    BackLink,
    /// `<=`
    LessOrEqual,
    /// `>=`
    GreaterOrEqual,
    /// `!=`
    NotEqual,
    /// `?=`
    OptionalEqual,
    /// `?!=`
    OptionalNotEqual,
    /// `??`
    Coalesce,
    /// `++`
    Concat,
    /// `//`
    FloorDivide,
    LeftParen,
    RightParen,
    LeftBrace,
    RightBrace,
    LeftBracket,
    RightBracket,
    Comma,
    Semicolon,
    Colon,
    Dot,
    Less,
    Greater,
    Equal,
    Plus,
    Minus,
    Star,
    Percent,
    At,
    Dollar,
}

/// What a token is.
#[derive(Drop)]
pub enum TokenKind {
    /// A word as written: a keyword or a name.
    Word(Text),
    /// The digits of a whole number as written.
    Int(Text),
    /// The text that a literal stands for, its escapes replaced.
    Str(Text),
    Sign(Sign),
}

/// A token, with its first byte in the text and the byte after its last.
#[derive(Drop)]
pub struct Token {
    pub kind: TokenKind,
    pub start: u32,
    pub end: u32,
}

/// The tokens of a text, in order.
pub type Tokens = List<Token>;

/// A token at the front of some bytes, and how many of them it takes.
#[derive(Drop)]
pub struct Cut {
    pub kind: TokenKind,
    pub len: usize,
}
