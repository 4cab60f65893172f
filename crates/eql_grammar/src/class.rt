//! The classes of tokens that the grammar tells apart.

use ev_lex::{Keyword, Sign};

/// What a token may stand for.
#[derive(Clone, Copy, Debug, PartialEq, Eq)]
pub enum Class {
    Sign(Sign),
    /// A word that is never a name.
    Reserved(Keyword),
    /// A word that is a name, and a keyword in the places of that one, if it is one.
    Named(Option<Keyword>),
    /// A whole number.
    Number,
    /// A text literal.
    Literal,
}
