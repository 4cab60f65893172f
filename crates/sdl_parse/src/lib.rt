//! The code that reads schemas from their tokens. Expressions inside are read by the parser of queries.
//! Takes the tokens of a text; gives the tree of the schema, or the refusal.
//! Contract: `parse_schema` is exact: a tree comes exactly for tokens that spell it within the limits, and a refusal exactly
//! with the first token that is dead or passes a limit, unless memory runs out; `one_schema_tree`, `one_schema_refusal`.
//! Seen by `edge_run` and the trials.
#![tactic(auto)]

mod build;
mod declarations;
mod front;
mod items;
mod laws;
mod members;
mod parse;
mod policies;
#[cfg(test)]
mod tests;
mod values;

pub use laws::{each_schema_text, one_schema_refusal, one_schema_tree};
pub use parse::parse_schema;
