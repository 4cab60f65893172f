//! Constraints on one value (the EdgeDB documentation's page on constraints).
ghost use Rattle.std.specs.Prelude.{◌≡◌};
ghost use Rattle.std.specs.List.{list_any};
ghost use Rattle.db_store.specs.Limits.{meets as meets_limit, same};
ghost use Rattle.db_values.specs.Properties.{breaks as breaks_limits};

use ev_schema::Limit;
use ev_value::{Val, cmp_val};
use std::cmp::Ordering;

/// Whether a value is one of some.
fn is_among(value: &Val, values: &[Val]) -> bool
    ensures { result ≡ list_any (same value.now) values.now }
{
    for other in values {
        if cmp_val(value, other) == Ordering::Equal {
            return true;
        }
    }
    false
}

/// Whether a value meets a constraint. One of another kind than the constraint speaks of does.
pub fn meets(limit: &Limit, value: &Val) -> bool
    ensures { result ≡ meets_limit limit.now value.now }
{
    match (limit, value) {
        (Limit::MinValue(bound), Val::Int(number)) => *number >= *bound,
        (Limit::MaxValue(bound), Val::Int(number)) => *number <= *bound,
        (Limit::MinExValue(bound), Val::Int(number)) => *number > *bound,
        (Limit::MaxExValue(bound), Val::Int(number)) => *number < *bound,
        (Limit::MinLen(bound), Val::Str(text)) => text.characters() as i128 >= *bound as i128,
        (Limit::MaxLen(bound), Val::Str(text)) => text.characters() as i128 <= *bound as i128,
        (Limit::OneOf(values), value) => is_among(value, values.as_slice()),
        _ => true,
    }
}

/// Whether a value does not meet one of some constraints.
pub fn breaks(limits: &[Limit], value: &Val) -> bool
    ensures { result ≡ breaks_limits limits.now value.now }
{
    for limit in limits {
        if !meets(limit, value) {
            return true;
        }
    }
    false
}
