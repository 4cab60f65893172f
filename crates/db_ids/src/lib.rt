//! The id and the type of each object: the rules X3 to X5.
//! Takes the types of a schema and the drafts of a document; gives the ids and types in their order (`Heads`), or the failure.
//! Contract: `check_heads` gives exactly these, or exactly the first failure with its objects, unless memory runs out;
//! `Heads` finds the place of an object by its id.
//! Seen by `db_values` and `db_check`.
#![tactic(auto)]

mod heads;
mod identity;
#[cfg(test)]
mod tests;

pub use heads::{Head, Heads};
pub use identity::check_heads;
