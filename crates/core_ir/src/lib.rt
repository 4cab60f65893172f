//! The tree of a query whose names are known, which every later phase shares.
//! Takes such a tree, paths or cardinalities; gives the occurrences of paths, how an answer is laid out, and the bounds of
//! what is made of lists.
//! Contract: `occurrences`, `direct`, `all` and `layout_of` give exactly their definitions; paths are told apart exactly; the
//! arithmetic of `Card` bounds what is made of lists within the bounds (`cards_bound`).
//! Seen by the crates of schemas, objects and meaning, by `sql_encode` and by `edge_run`.
#![tactic(auto)]

mod card;
mod layout;
mod occurring;
mod path;
mod phase;
mod scoped_paths;
#[cfg(test)]
mod tests;
mod tree;
mod ty;

pub use card::{Card, cards_bound, cards_keep};
pub use ev_list::{Absent, Param};
pub use layout::{Layout, LayoutField, layout_of};
pub use occurring::{all, all_inside, direct};
pub use path::{Path, PtrId, Root, Step, TypeId, alike, copied_steps, paths_are_equal, same_steps};
pub use phase::{Carded, Core, Guarded, Typed};
pub use scoped_paths::{ScopedPath, occurrences};
pub use tree::{
    Alias, Conditional, Direct, Element, Expr, Key, Misfit, Need, Occurrence, Order, Scope, Select,
    SetFunction, Width,
};
pub use ty::{Ty, copied_types};
