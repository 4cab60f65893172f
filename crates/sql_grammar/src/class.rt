//! The classes of tokens that the grammar tells apart.

use sql_lex::{Keyword, Sign};

/// What a token may stand for.
#[derive(Clone, Copy, Debug, PartialEq, Eq)]
pub enum Class {
    Word(Keyword),
    Sign(Sign),
    /// A name between `"`.
    Name,
    /// A whole number.
    Number,
    /// A text between `'`.
    Literal,
}

/// What a token begins where an expression may stand.
#[derive(Clone, Copy, Debug, PartialEq, Eq)]
pub enum Start {
    /// `NOT`
    Not,
    /// `-`
    Minus,
    /// `(`
    Group,
    /// A number, a text, `TRUE` or `FALSE`.
    Literal,
    Uuid,
    Null,
    /// A name.
    Column,
    Arg,
    Global,
    Array,
    Row,
    Part,
    Case,
    Cast,
    /// A function's name.
    Call,
    /// Nothing.
    Nothing,
}
