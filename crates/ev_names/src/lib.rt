//! Lists of names that find the first place of one quickly, and the names of the scalar types.
//! Takes names one after the other; gives the first place of a name among them, or the scalar type that a name means.
//! Contract: `Names` stands for the list of its names, and `find` gives the first place in it (`specs/Names`); `scalar_named`
//! gives exactly its definition (`specs/Scalar`).
//! Seen by `eql_naming`.
#![tactic(auto)]

mod names;
mod scalar;

pub use names::Names;
pub use scalar::scalar_named;
