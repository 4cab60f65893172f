//! What the text is made of.

/// A sign, or a word that is no name.
#[derive(Clone, Copy, Debug, PartialEq, Eq)]
pub enum Sign {
    Plus,
    Minus,
    Coalesce,
    Comma,
    LeftParen,
    RightParen,
    LeftBrace,
    RightBrace,
    If,
    Else,
}

/// One token of a text. A name is known by its number.
#[derive(Clone, Copy, Debug, PartialEq, Eq)]
pub enum Token {
    Name(u32),
    Int(u64),
    Sign(Sign),
}
