//! The grammar of SQL: which tokens spell which statement, and how they are read from the left with one token to look at.
//! The grammar is `specs/Grammar`, and `specs/Readers` is how it is read.
//! Takes tokens as lists; gives statements with the places of their parts. It holds no code but the types of what is half read.
//! Contract: both are one, production by production, within the limits (lemmas in `proofs/`); `one_tree`: a text spells at
//! most one statement with its places.
//! Seen by `sql_build`, `sql_cursor`, `sql_read`, `sql_spell`, `sql_check` and `sql_parse`.
#![tactic(auto)]

mod class;
mod grown;
mod laws;
mod limits;

pub use class::{Class, Start};
pub use grown::{
    Bunch, Called, Cores, Grown, GrownColumn, GrownCore, GrownItem, GrownKey, GrownSelect, GrownTy,
    Name, Places, Types,
};
pub use laws::one_tree;
pub use limits::{MAX_HEIGHT, MAX_OPEN};
