//! Worlds that agree on some values give the same items of a query, all of them such values (`specs/Agreeing`). The values
//! are told by kinds (`specs/Kinds`), and which kind an expression has is a relation over the tree (`specs/Kinded`). It has
//! no code that runs.
//! Takes kinds of values whose rules hold, or a set of values that no operator leads out of (`specs/Uniform`), and two worlds
//! that agree on them; gives that a scope has the same items in both.
//! Contract: `agreeing_is_kept`, for any kinds; `agreeing_worlds_give_the_same`, for one set of values and a tree that asks
//! for certain roots and steps alone.
//! Seen by `store_agree`.
#![tactic(auto)]

mod laws;

pub use laws::{agreeing_is_kept, agreeing_worlds_give_the_same};
