//! When a cardinality holds: of lists with faults (`specs/Holds`), and of each scope of a query and each part of a scope at
//! every binding under which it is evaluated (`specs/Everywhere`). It has no code that runs.
//! Takes lists within bounds; gives that what is made of them lies within what is made of the bounds.
//! Contract: `holding_is_kept`, for lists of any elements.
//! Seen by no crate yet.
#![tactic(auto)]

mod laws;

pub use laws::holding_is_kept;
