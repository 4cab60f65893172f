//! What EdgeQL's clauses and SQL share on lists: order by keys, offset and limit, first occurrences, assertions, and
//! what is made of all elements.
//! Takes lists of elements, of keys or of items; gives a list made of them, a number, a value, or the fault of an assertion.
//! Contract: each call gives exactly its definition; the order is a stable permutation (`sort_is_stable`), and of equal
//! elements the first is kept (`first_occurrences_are_kept`).
//! Seen by `core_ir`, by the crates of schemas, objects and meaning, and by those of SQL.
#![tactic(auto)]

mod aggregate;
mod cut;
mod items;
mod laws;
mod occurrence;
mod order;
mod param;
mod same;
mod single;

pub use aggregate::{all_true, any_true, count, greatest, is_true, least, sum};
pub use cut::{limit_of, section};
pub use items::{all_values, faults_alone, first_fault, has_fault, one_item, values};
pub use laws::{first_occurrences_are_kept, sort_is_stable};
pub use occurrence::{backward, distinct, has_repeat};
pub use order::{Absent, Direction, KeyOrder, Keyed, compare_keys, in_order, keyless};
pub use param::Param;
pub use same::Same;
pub use single::{distinct_fault, exists_fault, single_fault};
