//! How heavy and how deep a query is, with all that a schema brings into it.
//! Takes a schema, and then typed trees; tells which of them are over the limits.
//! Contract: a tree is told to be too heavy exactly where its weight or its depth, as plain numbers, is over its limit
//! (`specs/Weight`, `specs/Depth`, `specs/Heavy`), however often what computed pointers share is brought in.
//! What is shared is measured once, in the order in which a schema came to know it.
//! Seen by no crate yet.
#![tactic(auto)]

mod limits;
mod rules;
mod ruling;
mod size;
#[cfg(test)]
mod tests;
mod trees;
mod weights;

pub use size::Size;
pub use weights::Weights;
