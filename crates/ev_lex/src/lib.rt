//! Tokens: how a text of EdgeQL, or of its schema language, is cut into words, numbers, literals and signs.
//! Takes the bytes of a text; gives its tokens with their bytes, or the first byte with which no token begins.
//! Contract: `lex` is the token relation (`IsCut`) in both directions, unless memory runs out; `one_reading`: a text has at
//! most one such answer; `keyword_of` gives exactly the keyword that a word is, without regard to case.
//! Seen by the grammars of queries and of schemas, by `eql_cursor`, `eql_parse` and `sdl_parse`, and by `edge_run`.
#![tactic(auto)]

mod byte;
mod keyword;
mod laws;
mod literal;
mod number;
mod reading;
mod separator;
mod sign;
#[cfg(test)]
mod tests;
mod token;
mod word;

pub use keyword::{Keyword, is_reserved, keyword_of};
pub use laws::{each_reading, one_reading};
pub use reading::{LexRefusal, lex};
pub use token::{Sign, Token, TokenKind, Tokens};
