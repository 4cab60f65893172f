//! Scopes: which paths each part of a query binds for itself.
//! Takes the occurrences of paths in a tree; gives the factored prefixes of a scope, or of all scopes of the tree.
//! Contract: `factored_prefixes` and `scopes_of` give exactly their definitions; `factored_is_exact`: a path is among them
//! exactly where it is the longest common prefix of a direct occurrence and an occurrence, and not bound around;
//! `ScopeStack::find` gives the longest bound prefix of a path.
//! Seen by `eql_sem`, `eql_eval` and `eql_holds`.
#![tactic(auto)]

mod around;
mod beginning;
mod branches;
mod factored;
mod found;
mod prefix;
mod scopes;
mod stack;
#[cfg(test)]
mod tests;
mod tree;

pub use factored::{factored_is_exact, factored_prefixes};
pub use prefix::Prefix;
pub use scopes::{scopes_of, scopes_of_typed};
pub use stack::{Attached, ScopeStack};
pub use tree::ScopeTree;
