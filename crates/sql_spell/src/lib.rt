//! What is printed of a statement spells that statement. It has no code that runs: the derivations are in `proofs/`.
//! Takes the tokens that the printer gives; gives their derivation in the grammar.
//! Contract: `printed_tokens_spell`: the tokens of a statement that has a form of the grammar spell it, within the limits;
//! `well_formed_is_printable`: a well-formed statement has one, and its tokens can be written.
//! Seen by `sql_parse`.
#![tactic(auto)]

mod laws;

pub use laws::{printed_tokens_spell, well_formed_is_printable};
