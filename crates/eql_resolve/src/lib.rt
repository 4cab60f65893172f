//! Names and places of whole trees: what each name of a query means over a schema, and whether its parts stand where they may.
//! Takes a surface tree and a schema; gives the core tree of it, whose steps are still by name.
//! Contract: `resolve` and `resolve_in` answer exactly where the rules give a tree, with that tree (`specs/Resolving`), and
//! refuse with the first rule that fails at the first place (`specs/Verdict`), but for want of memory.
//! Seen by no mode yet: `edge_run` is to judge queries by it.
#![tactic(auto)]

mod resolving;
mod verdict;

pub use verdict::{resolve, resolve_in};
