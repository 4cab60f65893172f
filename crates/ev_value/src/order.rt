//! The order of all values.
ghost use Rattle.std.specs.Prelude.{◌≡◌};
ghost use Rattle.std.specs.Cmp.Lexicographic.{slice_cmp};
ghost use Rattle.ev_value.specs.Order.{kind, val_cmp, ValuesAreOrdered};

use crate::value::Val;
use std::cmp::Ordering;

/// The law of the order: it is total, and equal values are the same.
pub fn values_are_ordered()
    ensures { ValuesAreOrdered }
{}

/// The place of a value's kind among the kinds, as `Val` lists them.
fn kind_of(value: &Val) -> u8
    ensures { result ≡ kind value.now }
{
    match value {
        Val::Int(_) => 0,
        Val::Str(_) => 1,
        Val::Bool(_) => 2,
        Val::Id(_) => 3,
        Val::Obj(_) => 4,
        Val::Tuple(_) => 5,
        Val::Array(_) => 6,
    }
}

/// Compares two values: numbers by size, texts by their bytes, false before true, ids by their bytes, tuples by their
/// components and arrays by their elements from the left, where a proper prefix is less. Values of different kinds are
/// ordered as `Val` lists them.
#[cycle(order)]
pub fn cmp_val(left: &Val, right: &Val) -> Ordering
    ensures { result ≡ val_cmp left.now right.now }
{
    match (left, right) {
        (Val::Int(a), Val::Int(b)) => a.cmp(b),
        (Val::Str(a), Val::Str(b)) => a.as_str().cmp(b.as_str()),
        (Val::Bool(a), Val::Bool(b)) => a.cmp(b),
        (Val::Id(a), Val::Id(b)) => a.cmp(b),
        (Val::Obj(a), Val::Obj(b)) => a.cmp(b),
        (Val::Tuple(a), Val::Tuple(b)) => cmp_vals(a.as_slice(), b.as_slice()),
        (Val::Array(a), Val::Array(b)) => cmp_vals(a.as_slice(), b.as_slice()),
        _ => kind_of(left).cmp(&kind_of(right)),
    }
}

/// Compares lists of values from the left; a proper prefix is less.
#[cycle(order)]
fn cmp_vals(left: &[Val], right: &[Val]) -> Ordering
    ensures { result ≡ slice_cmp val_cmp left.now right.now }
{
    for (i, a) in left.iter().enumerate() {
        let Some(b) = right.get(i) else {
            return Ordering::Greater;
        };
        let order = cmp_val(a, b);
        if order != Ordering::Equal {
            return order;
        }
    }
    if left.len() < right.len() {
        Ordering::Less
    } else {
        Ordering::Equal
    }
}
