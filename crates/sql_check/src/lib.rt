//! The check of a statement's names and types, each failure with its place in the text.
//! Takes a catalog and a statement with the places of its parts; gives the byte of a name or an expression that fails, if any.
//! Contract: `failing_name` and `failing_type` give exactly the least such byte, or none, unless memory runs out;
//! `checks_decide`: of a statement that was read nothing fails exactly where it is well formed over the catalog.
//! Seen by `sql_parse`.
#![tactic(auto)]

mod check;
mod columns;
mod judge;
mod kind;
mod laws;
mod names;
mod scope;
mod sort;
mod tell;
mod types;
mod typing;
mod verdict;
mod walk;

pub use check::{failing_name, failing_type};
pub use laws::checks_decide;
