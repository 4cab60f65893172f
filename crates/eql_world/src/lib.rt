//! What a query is asked over: objects under a schema, with a caller's arguments, and the part of them that its rules show.
//! Takes a schema, objects, arguments and a query's tree; gives the items of the query, or the objects that a caller sees.
//! Contract: `answer_over_view` gives exactly the items of the query over `view_of`, `answer_over_all` over all objects, and
//! `view` exactly `view_of`; the only error is want of memory. `view_fits_weakly`: the view of objects that fit fits, within
//! the bounds that a caller sees.
//! Seen by `edge_run` and `trial_queries`.
#![tactic(auto)]

mod answers;
mod arguments;
mod column;
mod computing;
mod cutting;
mod laws;
mod shown;
mod store_world;

pub use answers::{answer_over_all, answer_over_view, view};
pub use column::Column;
pub use laws::{meaning_is_of_the_world_alone, view_fits_weakly};
pub use store_world::StoreWorld;
