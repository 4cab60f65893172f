//! The code that reads EdgeQL's queries and expressions from their tokens.
//! Takes the tokens of a text; gives the query (`parse_query`) or the expression in front (`parse_expr`), or the refusal.
//! Contract: both are exact: a tree comes exactly for tokens that spell it within the limits, and a refusal exactly with the
//! first token that is dead or passes a limit, unless memory runs out; `one_tree`, `one_refusal`: there is at most one.
//! Seen by `sdl_parse` (expressions inside schemas) and `edge_run`.
#![tactic(auto)]

mod atoms;
mod brackets;
mod choices;
mod clauses;
mod elements;
mod grammar;
mod laws;
mod levels;
mod parse;
mod part;
mod read;
mod refusal;
mod stack;
mod statements;
#[cfg(test)]
mod tests;

pub use laws::{each_query_text, few_tokens, one_expression, one_refusal, one_tree};
pub use parse::{parse_expr, parse_query};
pub use read::expr;
pub use refusal::SyntaxRefusal;
