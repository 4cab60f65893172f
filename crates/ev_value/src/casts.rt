//! Casts between scalar types.
ghost use Rattle.std.specs.Prelude.{◌≡◌, ◌==◌, slice_index, option_and_then};
ghost use Rattle.ev_value.specs.Casts.{item_of_cast, read_item, number_written, int64_in, truth_written, id_written};
ghost use Rattle.ev_value.specs.Operator.{IsGiven};
ghost use Rattle.ev_value.specs.declared.value.ScalarTy.TheVariants as ty;

use crate::item::Fault;
use crate::operator::OpError;
use crate::text::Text;
use crate::value::{ScalarTy, Val};
use std::alloc::Global;
use uuid::Uuid;

/// What is told where a text writes no value of the type, and for casts that no query with types has.
const CAST_TEXT: OpError = OpError::Fault(Fault::CastText);

/// The cast of a value to a scalar type, as the EdgeDB documentation's page on casts says. A number, a bool and a uuid
/// cast to the text that they print. A text casts to a number where it is an optional minus and decimal digits in
/// range, to a bool where it is `true` or `false`, and to a uuid where the crate `uuid` parses it; any other faults
/// with `CastText`.
pub fn cast(alloc: Global, ty: ScalarTy, value: &Val) -> Result<Val, OpError>
    ensures { IsGiven result (item_of_cast ty value.now) }
{
    match ty {
        ScalarTy::Int64 => to_number(value),
        ScalarTy::Str => to_text(alloc, value),
        ScalarTy::Bool => to_truth(value),
        ScalarTy::Uuid => to_id(value),
    }
}

fn to_number(value: &Val) -> Result<Val, OpError>
    ensures { IsGiven result (item_of_cast ty.Int64 value.now) }
{
    match value {
        Val::Int(number) => Ok(Val::Int(*number)),
        Val::Str(text) => read_number(text.as_str()),
        _ => Err(CAST_TEXT),
    }
}

fn begins_with_plus(text: &str) -> bool
    ensures { result ≡ (slice_index text.now 0 == 43) }
{
    matches!(text.as_bytes(), [b'+', ..])
}

/// Reads a number. `parse` alone would also take a plus.
fn read_number(text: &str) -> Result<Val, OpError>
    ensures { IsGiven result (read_item (option_and_then int64_in (number_written text.now))) }
{
    if begins_with_plus(text) {
        return Err(CAST_TEXT);
    }
    match text.parse::<i64>() {
        Ok(number) => Ok(Val::Int(number)),
        Err(_) => Err(CAST_TEXT),
    }
}

fn to_truth(value: &Val) -> Result<Val, OpError>
    ensures { IsGiven result (item_of_cast ty.Bool value.now) }
{
    match value {
        Val::Bool(truth) => Ok(Val::Bool(*truth)),
        Val::Str(text) => read_truth(text.as_str()),
        _ => Err(CAST_TEXT),
    }
}

fn read_truth(text: &str) -> Result<Val, OpError>
    ensures { IsGiven result (read_item (truth_written text.now)) }
{
    if text == "true" {
        Ok(Val::Bool(true))
    } else if text == "false" {
        Ok(Val::Bool(false))
    } else {
        Err(CAST_TEXT)
    }
}

fn to_id(value: &Val) -> Result<Val, OpError>
    ensures { IsGiven result (item_of_cast ty.Uuid value.now) }
{
    match value {
        Val::Id(id) => Ok(Val::Id(*id)),
        Val::Str(text) => read_id(text.as_str()),
        _ => Err(CAST_TEXT),
    }
}

fn read_id(text: &str) -> Result<Val, OpError>
    ensures { IsGiven result (read_item (id_written text.now)) }
{
    match Uuid::parse_str(text) {
        Ok(id) => Ok(Val::Id(id.as_u128())),
        Err(_) => Err(CAST_TEXT),
    }
}

fn to_text(alloc: Global, value: &Val) -> Result<Val, OpError>
    ensures { IsGiven result (item_of_cast ty.Str value.now) }
{
    match value {
        Val::Int(number) => Ok(Val::Str(Text::new(number.to_string(alloc)?))),
        Val::Str(text) => Ok(Val::Str(text.copied(alloc)?)),
        Val::Bool(true) => Ok(Val::Str(Text::from_str(alloc, "true")?)),
        Val::Bool(false) => Ok(Val::Str(Text::from_str(alloc, "false")?)),
        Val::Id(id) => Ok(Val::Str(Text::of_id(alloc, *id)?)),
        _ => Err(CAST_TEXT),
    }
}
