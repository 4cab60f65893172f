//! Each element once.
ghost use Rattle.std.specs.Prelude.{◌≡◌, IfOk, reverse};
ghost use Rattle.std.specs.List.{list_any};
ghost use Rattle.ev_list.specs.Occurrence.{distinct as distinct_of, has_repeat as has_repeat_of};

use crate::same::Same;
use ev_value::List;
use std::alloc::{AllocError, Global};

/// Whether an element is among others.
fn is_among<T: Same>(item: &T, others: &[T]) -> bool
    ensures { result ≡ list_any (λ other. T.same item.now other) others.now }
{
    for other in others {
        if item.is_same(other) {
            return true;
        }
    }
    false
}

/// Whether some element occurs twice.
pub fn has_repeat<T: Same>(items: &[T]) -> bool
    ensures { result ≡ has_repeat_of T.same items.now }
{
    for (i, item) in items.iter().enumerate() {
        if is_among(item, &items[i + 1..]) {
            return true;
        }
    }
    false
}

/// The elements from the last to the first, so that they can be taken out in their order.
pub fn backward<T: Drop>(alloc: Global, items: List<T>) -> Result<Vec<T>, AllocError>
    ensures { IfOk result (λ v. v.items ≡ reverse items) }
{
    let mut left = items;
    let mut taken = Vec::new(alloc);
    while let Some(item) = left.pop() {
        taken.push(item)?;
    }
    Ok(taken)
}

/// The first occurrence of each element, where it stands.
pub fn distinct<T: Same + Drop>(alloc: Global, items: List<T>) -> Result<List<T>, AllocError>
    ensures { IfOk result (λ l. l ≡ distinct_of T.same items) }
{
    let mut left = backward(alloc, items)?;
    let mut seen = List::new(alloc);
    while let Some(item) = left.pop() {
        if !is_among(&item, seen.as_slice()) {
            seen.push(item)?;
        }
    }
    Ok(seen)
}
