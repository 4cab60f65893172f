//! The trees of queries over a schema, from surface trees.
//! Takes a schema and the surface tree of a query; gives its tree with the names looked up, or tells that it has none yet.
//! Contract: `build_query` gives exactly the tree of `built_query`, and refuses exactly where there is none, unless memory
//! runs out.
//! Seen by `edge_run`.
#![tactic(auto)]

mod built;
mod path;
#[cfg(test)]
mod tests;

pub use built::{BuildError, build_query};
