//! The grammar of schemas: which tokens spell which tree, and how many of them are read before a text is refused.
//! The grammar is `specs/Grammar`, and `specs/Readers` is how it is read from the left with one token to look at.
//! Takes tokens as lists; gives trees. An expression inside is one of `eql_grammar`, and its limits count from its own first
//! token. Contract: grammar and readers are one, production by production (lemmas in `proofs/`). It holds no code but the
//! types of what is half read.
//! Seen by `sdl_parse` and `edge_run`.
#![tactic(auto)]

mod form;
mod part;

pub use form::{ItemForm, ItemWord, MemberForm, MemberWord};
pub use part::{EndedExpr, ItemBlock, MemberBlock, NoteBlock, PointerHead, Quals};
