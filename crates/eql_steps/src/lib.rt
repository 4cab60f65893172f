//! What the steps of a path give over objects, which are found by id and by what they lead to through an index made once.
//! Takes objects and the items that a step starts from; gives the items that it leads to. No step looks at all objects.
//! Contract: `properties`, `links`, `back_links`, `narrowed`, `link_property` and `extent` give exactly what `specs/Steps` says
//! of them over the objects, in the objects' order; `Indexed` stands for its list of objects, whatever they are.
//! Seen by `eql_world`.
#![tactic(auto)]

mod ascending;
mod by_id;
mod index;
mod indexed;
mod link_steps;
mod object_steps;
mod places;
mod source;

pub use by_id::ById;
pub use indexed::Indexed;
pub use link_steps::{back_links, extent, links};
pub use object_steps::{link_property, narrowed, properties};
pub use source::Source;
