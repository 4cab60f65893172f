//! The values, items and nested forms of EdgeQL, and what operators and casts give on them.
//! Takes values and an operator, a cast or two values to compare; gives one value or one fault, or their order.
//! Contract: `apply_op`, `cast` and `cmp_val` give exactly their definitions, for all operands; the order is total; a copy
//! equals what it copies. Lists with faults (`bind`, `collect`, `StandsFor`) and the JSON text of a form are defined here.
//! Seen by every crate but `exact` and `trial_exact`.
#![tactic(auto)]

mod args;
mod casts;
mod division;
mod item;
mod laws;
mod nested;
mod operator;
mod order;
#[cfg(test)]
mod tests;
mod text;
mod value;

pub use args::{Args, Argument};
pub use casts::cast;
pub use division::floor_divides;
pub use item::{Fault, Item};
pub use laws::{bind_is_lawful, standing_is_lawful};
pub use nested::{Field, Nested, names_are_ordered};
pub use operator::{Op, OpError, apply_op};
pub use order::{cmp_val, values_are_ordered};
pub use sqlite_items::{Boxed, Items as List};
pub use text::{Bytes, Text};
pub use value::{ScalarTy, Val, copied_values};
