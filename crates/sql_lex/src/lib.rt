//! Tokens of SQL: how the text of a statement is cut into keywords, names, numbers, texts and signs.
//! Takes the bytes of a text; gives its tokens with their bytes, or that it has none.
//! Contract: `lex` is the token relation (`IsCut`) in both directions, unless memory runs out; `one_reading`: a text has at
//! most one list of tokens; `keyword_of` gives exactly the keyword that a word is, without regard to case.
//! Seen by `sql_grammar`, `sql_cursor`, `sql_read`, `sql_print`, `sql_spell` and `sql_parse`.
#![tactic(auto)]

mod byte;
mod keyword;
mod laws;
mod literal;
mod number;
mod reading;
mod sign;
#[cfg(test)]
mod tests;
mod token;
mod word;

pub use keyword::{Keyword, keyword_of};
pub use laws::one_reading;
pub use reading::{LexRefusal, lex};
pub use token::{Sign, Token, TokenKind, Tokens};
