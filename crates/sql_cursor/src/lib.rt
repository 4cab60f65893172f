//! A cursor over the tokens of a statement: what the next token is, and what it stands for.
//! Takes the tokens that are left; gives whether a class of tokens comes next, or takes one of it off the front.
//! Contract: each call reads one token exactly (`Takes`, `Reads` of `exact`); where it refuses it tells why, and the tokens
//! stand at the refused one.
//! Seen by `sql_read`.
#![tactic(auto)]

mod class;
mod cursor;
mod literals;
mod table;

pub use cursor::Cursor;
