//! Offset and limit.
ghost use Rattle.std.specs.Prelude.{◌≡◌, IfOk, take, drop};
ghost use Rattle.ev_list.specs.Cut.{limit_of as limit_of_bound, section as section_of};

use ev_value::{Fault, Item, List, Val};
use std::alloc::{AllocError, Global};

/// How many elements an offset or a limit counts. There is no number where the bound is absent or is none; a number
/// below zero is a fault.
pub fn limit_of(bound: Option<Val>) -> Item<Option<u64>>
    ensures { result ≡ limit_of_bound bound }
{
    match bound {
        Some(Val::Int(number)) => match u64::try_from(number) {
            Ok(count) => Item::Value(Some(count)),
            Err(_) => Item::Fault(Fault::NegativeLimit),
        },
        _ => Item::Value(None),
    }
}

fn first<T: Drop>(count: u64, items: List<T>) -> List<T>
    ensures { result ≡ take count items }
{
    let mut left = items;
    while left.len() as u64 > count {
        let _ = left.pop();
    }
    left
}

fn behind<T: Drop>(alloc: Global, count: u64, items: List<T>) -> Result<List<T>, AllocError>
    ensures { IfOk result (λ l. l ≡ drop count items) }
{
    let mut left = items;
    let mut taken = Vec::new(alloc);
    while left.len() as u64 > count {
        if let Some(item) = left.pop() {
            taken.push(item)?;
        }
    }
    taken.reverse();
    Ok(List::from_vec(taken))
}

/// What an offset and a limit leave of a list: the limit counts behind the offset.
pub fn section<T: Drop>(
    alloc: Global,
    offset: Option<u64>,
    limit: Option<u64>,
    items: List<T>,
) -> Result<List<T>, AllocError>
    ensures { IfOk result (λ l. l ≡ section_of offset limit items) }
{
    let items = match offset {
        None => items,
        Some(count) => behind(alloc, count, items)?,
    };
    match limit {
        None => Ok(items),
        Some(count) => Ok(first(count, items)),
    }
}
