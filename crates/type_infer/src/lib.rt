//! Types: which type each expression has, and which pointers its steps by name take.
//! Takes a tree whose names are known and a schema by its names (`ev_index`); gives the same tree with its types, or the first
//! failing place, by the rules of `type_rules`.
//! Contract: `infer_types` answers what has a derivation by the rules of `specs/Forms`, and refuses by the first failure;
//! `types_are_by_cases` says which types a tree has apart from any order of asking (`specs/HasType`).
//! Seen by no mode yet: `edge_run` is to judge queries by it.
#![tactic(auto)]

mod clause;
mod infer;
mod kinds;
mod laws;
mod leaf;
mod operand;
mod operation;
mod set;
mod statement;
#[cfg(test)]
mod tests;
mod typer;
mod verdict;

pub use laws::types_are_by_cases;
pub use verdict::infer_types;
