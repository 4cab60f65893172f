//! The language's own examples: a small schema, its objects, and queries over them whose answers are known.
//! Takes nothing and gives nothing to others: trees of queries, each answered by `answer_over_view` of `eql_world`.
//! Contract: none; it tests that the meaning gives what the language's documentation says.
//! No crate stands on it.
#![tactic(auto)]

#[cfg(test)]
mod arrays;
#[cfg(test)]
mod print;
#[cfg(test)]
mod rows;
#[cfg(test)]
mod sample;
mod together;
#[cfg(test)]
mod tree;

pub use together::{both, boxed, more, one};
