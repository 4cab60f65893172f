//! Orders by keys.
ghost use Rattle.std.specs.Prelude.{◌≡◌, IfOk, option_copied};
ghost use Rattle.ev_list.specs.Order.{key_cmp, keys_cmp, absent_cmp, directed as directed_cmp, first_key as first_key_of, later_keys as later_keys_of, in_order as in_order_by, keyless as keyless_of};

use crate::occurrence::backward;
use ev_value::{List, Val, cmp_val};
use std::alloc::{AllocError, Global};
use std::cmp::Ordering;

/// Which way an order goes.
#[derive(Clone, Copy, Debug, PartialEq, Eq)]
pub enum Direction {
    Ascending,
    Descending,
}

/// Where an order puts elements whose key is absent. A direction does not turn it round.
#[derive(Clone, Copy, Debug, PartialEq, Eq)]
pub enum Absent {
    First,
    Last,
}

/// How elements are ordered by one key.
#[derive(Clone, Copy, Debug, PartialEq, Eq)]
pub struct KeyOrder {
    pub direction: Direction,
    pub absent: Absent,
}

/// An element with the keys that it is ordered by. A key may be absent.
#[derive(Drop)]
pub struct Keyed<T> {
    pub keys: List<Option<Val>>,
    pub value: T,
}

fn compare_key(order: KeyOrder, left: Option<&Val>, right: Option<&Val>) -> Ordering
    ensures { result ≡ key_cmp order (option_copied left.entry) (option_copied right.entry) }
{
    match (left, right) {
        (None, None) => Ordering::Equal,
        (None, Some(_)) => place_of_absent(order.absent),
        (Some(_), None) => place_of_absent(order.absent).reverse(),
        (Some(a), Some(b)) => directed(order.direction, cmp_val(a, b)),
    }
}

fn place_of_absent(absent: Absent) -> Ordering
    ensures { result ≡ absent_cmp absent }
{
    match absent {
        Absent::First => Ordering::Less,
        Absent::Last => Ordering::Greater,
    }
}

fn directed(direction: Direction, order: Ordering) -> Ordering
    ensures { result ≡ directed_cmp direction order }
{
    match direction {
        Direction::Ascending => order,
        Direction::Descending => order.reverse(),
    }
}

/// The first key, if it has a value.
fn first_key(keys: &[Option<Val>]) -> Option<&Val>
    ensures { option_copied result ≡ first_key_of keys.now }
{
    match keys {
        [] => None,
        [None, ..] => None,
        [Some(value), ..] => Some(value),
    }
}

/// The keys behind the first.
fn later_keys(keys: &[Option<Val>]) -> &[Option<Val>]
    ensures { result.now ≡ later_keys_of keys.now }
{
    match keys {
        [] => keys,
        [_, more @ ..] => more,
    }
}

/// How two elements are ordered by their keys: by the first key that tells them apart. A key that is missing is absent.
pub fn compare_keys(orders: &[KeyOrder], left: &[Option<Val>], right: &[Option<Val>]) -> Ordering
    ensures { result ≡ keys_cmp orders.now left.now right.now }
{
    let [order, more @ ..] = orders else {
        return Ordering::Equal;
    };
    match compare_key(*order, first_key(left), first_key(right)) {
        Ordering::Equal => compare_keys(more, later_keys(left), later_keys(right)),
        other => other,
    }
}

/// The elements in order; those whose keys are equal stay as they stood.
pub fn in_order<T: Drop>(
    alloc: Global,
    orders: &[KeyOrder],
    items: List<Keyed<T>>,
) -> Result<List<Keyed<T>>, AllocError>
    ensures { IfOk result (λ l. l ≡ in_order_by orders.now items) }
{
    let mut sorted = backward(alloc, items)?;
    sorted.reverse();
    sorted.sort_by(|a, b| compare_keys(orders, a.keys.as_slice(), b.keys.as_slice()))?;
    Ok(List::from_vec(sorted))
}

/// The elements without their keys.
pub fn keyless<T: Drop>(alloc: Global, items: List<Keyed<T>>) -> Result<List<T>, AllocError>
    ensures { IfOk result (λ l. l ≡ keyless_of items) }
{
    let mut left = backward(alloc, items)?;
    let mut all = List::new(alloc);
    while let Some(item) = left.pop() {
        let Keyed { keys, value } = item;
        drop(keys);
        all.push(value)?;
    }
    Ok(all)
}
