//! A plain program of the meaning of queries: it follows the definitions, and its result is what they say.
//! Takes a world and a query's tree; gives its items, each with its nested form, with the faults in their places.
//! Contract: `evaluate` gives exactly `items_in` of `eql_sem`, and `values_for` the values of a schema's expression for an
//! object; the only error is want of memory.
//! Seen by `eql_world`.
#![tactic(auto)]

mod base;
mod evaluator;
mod expression;
mod query;
mod scope;
mod shape;
mod statement;
mod task;

pub use query::{evaluate, values_for};
