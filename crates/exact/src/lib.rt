//! What exact readers of texts stand on: languages of tokens, readers from left to right, and the laws by which a reader is
//! exact for a language. The definitions are in `specs/` and the laws in `proofs/`, for tokens of any type.
//! Takes a language and a reader on lists; gives, where their parts suit, that the reader is exact for the language.
//! Contract: what is read is spelled so, what is spelled so is read, and a refusal names the first dead token with its
//! reason (`Rule`): no text of the language goes on with it, or a limit is passed there.
//! Seen by `eql_grammar`, `sdl_grammar`, `sql_grammar`, and the crates above them that read; by `edge_run`.
#![tactic(auto)]

mod rule;

pub use rule::{ReadError, Rule};
