//! What is made of all elements.
ghost use Rattle.std.specs.Prelude.{◌≡◌, ◌^◌, ◌+ℤ◌, ◌≤ℤ◌, neg_ℤ, pos};
ghost use Rattle.std.specs.List.{list_any, list_all};
ghost use Rattle.ev_list.specs.Aggregate.{count_item, sum_item, least as least_of, greatest as greatest_of, lesser as lesser_of, greater as greater_of, is_true as is_true_value, with_rest, number_of as number_of_value};

use ev_value::{Fault, Item, List, Val, cmp_val};

/// How many elements there are, in 64 bits.
pub fn count<T>(items: &[T]) -> Item
    ensures { result ≡ count_item items.now }
{
    match i64::try_from(items.len()) {
        Ok(number) => Item::Value(Val::Int(number)),
        Err(_) => Item::Fault(Fault::IntOverflow),
    }
}

fn number_of(value: &Val) -> i64
    ensures { result ≡ number_of_value value.now }
{
    match value {
        Val::Int(number) => *number,
        _ => 0,
    }
}

fn plus(total: i128, number: i64) -> i128
    requires low { neg_ℤ (pos (2 ^ 126)) ≤ℤ total }
    requires high { total ≤ℤ pos (2 ^ 126) }
    ensures { result ≡ total +ℤ number }
{
    total + number as i128
}

/// The sum of numbers. It faults where it needs more than 64 bits, whatever the sums on the way are.
pub fn sum(values: &[Val]) -> Item
    ensures { result ≡ sum_item values.now }
{
    let mut total: i128 = 0;
    for value in values {
        total = plus(total, number_of(value));
    }
    match i64::try_from(total) {
        Ok(number) => Item::Value(Val::Int(number)),
        Err(_) => Item::Fault(Fault::IntOverflow),
    }
}

fn lesser(left: Val, right: Val) -> Val
    ensures { result ≡ lesser_of left right }
{
    if cmp_val(&left, &right).is_gt() {
        right
    } else {
        left
    }
}

fn greater(left: Val, right: Val) -> Val
    ensures { result ≡ greater_of left right }
{
    if cmp_val(&left, &right).is_lt() {
        right
    } else {
        left
    }
}

/// The least value, if there is one.
pub fn least(values: List<Val>) -> Option<Val>
    ensures { result ≡ least_of values }
{
    let mut left = values;
    let mut best = None;
    while let Some(value) = left.pop() {
        best = match best {
            None => Some(value),
            Some(other) => Some(lesser(value, other)),
        };
    }
    best
}

/// The greatest value, if there is one.
pub fn greatest(values: List<Val>) -> Option<Val>
    ensures { result ≡ greatest_of values }
{
    let mut left = values;
    let mut best = None;
    while let Some(value) = left.pop() {
        best = match best {
            None => Some(value),
            Some(other) => Some(greater(value, other)),
        };
    }
    best
}

/// Whether a value is true.
pub fn is_true(value: &Val) -> bool
    ensures { result ≡ is_true_value value.now }
{
    match value {
        Val::Bool(truth) => *truth,
        _ => false,
    }
}

/// Whether some value is true.
pub fn any_true(values: &[Val]) -> bool
    ensures { result ≡ list_any is_true_value values.now }
{
    for value in values {
        if is_true(value) {
            return true;
        }
    }
    false
}

/// Whether each value is true.
pub fn all_true(values: &[Val]) -> bool
    ensures { result ≡ list_all is_true_value values.now }
{
    for value in values {
        if !is_true(value) {
            return false;
        }
    }
    true
}
