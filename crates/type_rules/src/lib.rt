//! The rules of types: what types agree on, what operators, functions and casts give, and where a path leads.
//! Takes types and a schema by its names (`ev_index`); gives a type, or the steps of a path with the type behind them.
//! Contract: each answer is what the definition of the same name says (`specs/Agreement`, `specs/Tables`, `specs/Steps`, `specs/Known`);
//! `walk` refuses by the first step that fails, and asks for the expression of a computed pointer that is not known yet.
//! Seen by `type_infer`.
#![tactic(auto)]

mod agreement;
mod notes;
mod refusal;
mod steps;
mod tables;

pub use agreement::{agreed, agreed_among, related, same_scalar};
pub use notes::Notes;
pub use refusal::{TypeRefusal, TypeRule};
pub use steps::{Walked, walk};
pub use tables::{
    can_cast, comparable, elements_type, function_type, is_of, literal, operator_type,
};
