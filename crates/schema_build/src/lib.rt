//! Schemas from the surface trees of their texts: the rules M1 to M6, M10 and M11, and the schema of a text that breaks none.
//! Takes the tree of a schema text; gives its `Schema`, or the first rule that fails with its byte.
//! Contract: `build` gives exactly the answer of `specs/Verdict`, unless memory runs out; `empty` is the schema without types.
//! Each rule is a definition that tells the least byte at which it fails; a file of `specs/` says which rules it holds.
//! Seen by `schema_laws`, `edge_run` and the trials.
#![tactic(auto)]

mod known;
mod laws;
mod least;
mod lineage;
mod link_properties;
mod literal;
mod local;
mod made;
mod names;
mod parts;
mod refusal;
mod reserved;
mod suits;
mod twice;
mod unsupported;
mod verdict;

pub use laws::each_file_is_answered;
pub use refusal::{Broken, Rule, SchemaRefusal};
pub use verdict::{build, empty};
