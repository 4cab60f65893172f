//! What is asserted of lists.
ghost use Rattle.std.specs.Prelude.{◌≡◌};
ghost use Rattle.ev_list.specs.Single.{single_fault as single_fault_of, exists_fault as exists_fault_of, distinct_fault as distinct_fault_of};

use crate::occurrence::has_repeat;
use crate::same::Same;
use ev_value::Fault;

/// The fault of a list that is to have at most one element.
pub fn single_fault<T>(items: &[T]) -> Option<Fault>
    ensures { result ≡ single_fault_of items.now }
{
    match items {
        [] => None,
        [_] => None,
        [_, _, ..] => Some(Fault::AssertSingle),
    }
}

/// The fault of a list that is to have an element.
pub fn exists_fault<T>(items: &[T]) -> Option<Fault>
    ensures { result ≡ exists_fault_of items.now }
{
    match items {
        [] => Some(Fault::AssertExists),
        [_, ..] => None,
    }
}

/// The fault of a list that is to have no element twice.
pub fn distinct_fault<T: Same>(items: &[T]) -> Option<Fault>
    ensures { result ≡ distinct_fault_of T.same items.now }
{
    if has_repeat(items) {
        Some(Fault::AssertDistinct)
    } else {
        None
    }
}
