//! Lists of items: values with faults where a value would stand.
ghost use Rattle.std.specs.Prelude.{◌≡◌, [], ◌∷◌, IfOk};
ghost use Rattle.ev_list.specs.Items.{first_fault as first_fault_in};
ghost use Rattle.ev_value.specs.Item.{all_of, has_fault as has_fault_in, faults, values as values_of, only_faults};

use ev_value::{Fault, Item, List};
use std::alloc::{AllocError, Global};

/// Whether a fault stands in the list.
pub fn has_fault<T>(items: &[Item<T>]) -> bool
    ensures { result ≡ has_fault_in items.now }
{
    for item in items {
        if let Item::Fault(_) = item {
            return true;
        }
    }
    false
}

/// The faults of a list alone, as items of another list.
pub fn faults_alone<T, U: Drop>(
    alloc: Global,
    items: &[Item<T>],
) -> Result<List<Item<U>>, AllocError>
    ensures { IfOk result (λ l. l ≡ only_faults (faults items.now)) }
{
    let mut alone = List::new(alloc);
    for item in items {
        if let Item::Fault(fault) = item {
            alone.push(Item::Fault(*fault))?;
        }
    }
    Ok(alone)
}

/// The values of a list, in their order.
pub fn values<T: Drop>(alloc: Global, items: List<Item<T>>) -> Result<List<T>, AllocError>
    ensures { IfOk result (λ l. l ≡ values_of items) }
{
    let mut left = items;
    let mut taken = Vec::new(alloc);
    while let Some(item) = left.pop() {
        if let Item::Value(value) = item {
            taken.push(value)?;
        }
    }
    taken.reverse();
    Ok(List::from_vec(taken))
}

/// Values as items.
pub fn all_values<T: Drop>(alloc: Global, values: List<T>) -> Result<List<Item<T>>, AllocError>
    ensures { IfOk result (λ l. l ≡ all_of values) }
{
    let mut left = values;
    let mut taken = Vec::new(alloc);
    while let Some(value) = left.pop() {
        taken.push(Item::Value(value))?;
    }
    taken.reverse();
    Ok(List::from_vec(taken))
}

/// One item as a list.
pub fn one_item<T: Drop>(alloc: Global, item: Item<T>) -> Result<List<Item<T>>, AllocError>
    ensures { IfOk result (λ l. l ≡ item ∷ []) }
{
    let mut all = List::new(alloc);
    all.push(item)?;
    Ok(all)
}

/// The first fault of a list, if there is one.
pub fn first_fault<T>(items: &[Item<T>]) -> Option<Fault>
    ensures { result ≡ first_fault_in items.now }
{
    for item in items {
        if let Item::Fault(fault) = item {
            return Some(*fault);
        }
    }
    None
}
