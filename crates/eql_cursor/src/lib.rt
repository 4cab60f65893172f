//! The front of the tokens of a query: what the next token stands for, and taking it.
//! Takes the tokens that are left; gives whether a class of tokens comes next, or takes one of it off the front.
//! Contract: each call reads one token exactly (`Takes`, `Reads` of `exact`); where it refuses it tells why, and the tokens
//! stand at the refused one.
//! Seen by `eql_parse` and `sdl_parse`.
#![tactic(auto)]

mod class;
mod cursor;
mod literals;
mod names;
mod table;

pub use cursor::Cursor;
pub use names::qualified_name;
