//! The values of globals and of parameters.
ghost use Rattle.std.specs.Prelude.{◌≡◌, []};
ghost use Rattle.serde_json.specs.View.{members_view};
ghost use Rattle.db_draft.specs.Values.{value_of as value_by};
ghost use Rattle.db_load.specs.ArgumentValues.{ty_of as ty_of_name, typed as typed_by, valued as valued_by, argument as argument_of, arguments as arguments_of, at_name as broken_at};
ghost use Rattle.db_load.specs.Arguments.{IsAnswer};

use crate::argument_names::{Wanted, ty_of};
use crate::drafts::plain_of;
use crate::refusal::{ArgsRefusal, ArgsRule, BrokenArgs};
use db_draft::{Plain, value_of};
use ev_value::{Argument, List, ScalarTy, Text};
use serde_json::{Map, Value};
use std::alloc::Global;

/// A rule that fails at a name.
pub fn at_name(rule: ArgsRule, global: bool, name: Text) -> BrokenArgs
    ensures { result ≡ broken_at rule global name }
{
    BrokenArgs {
        rule,
        global,
        name: Some(name),
    }
}

fn typed(
    alloc: Global,
    global: bool,
    name: Text,
    ty: ScalarTy,
    plain: &Plain,
) -> Result<Option<Argument>, ArgsRefusal>
    ensures { IsAnswer result (typed_by global name (value_by ty plain.now)) }
{
    match value_of(alloc, ty, plain) {
        Ok(Some(value)) => Ok(Some(Argument { name, value })),
        Ok(None) => Err(ArgsRefusal::Rule(at_name(ArgsRule::A3, global, name))),
        Err(_) => Err(ArgsRefusal::Memory),
    }
}

fn valued(
    alloc: Global,
    global: bool,
    name: Text,
    ty: ScalarTy,
    plain: &Plain,
) -> Result<Option<Argument>, ArgsRefusal>
    ensures { IsAnswer result (valued_by global name ty plain.now) }
{
    match plain {
        Plain::Null => Ok(None),
        Plain::Bool(_) | Plain::Int(_) | Plain::Str(_) | Plain::Other => {
            typed(alloc, global, name, ty, plain)
        }
    }
}

/// The value under a name, if it has one.
fn argument(
    alloc: Global,
    global: bool,
    wanted: &[Wanted],
    name: Text,
    plain: &Plain,
) -> Result<Option<Argument>, ArgsRefusal>
    ensures { IsAnswer result (argument_of global name (ty_of_name wanted.now name) plain.now) }
{
    match ty_of(wanted, name.as_str()) {
        Some(ty) => valued(alloc, global, name, ty, plain),
        None => Err(ArgsRefusal::Rule(at_name(ArgsRule::A2, global, name))),
    }
}

/// The values under some names.
#[tactic(auto, using(crate::proofs::AnswerLaws::goes_on, crate::proofs::AnswerLaws::stops_here))]
pub fn arguments(
    alloc: Global,
    global: bool,
    wanted: &[Wanted],
    map: Map<String, Value>,
) -> Result<List<Argument>, ArgsRefusal>
    ensures { IsAnswer result (arguments_of global wanted.now [] (members_view map.entries)) }
{
    let mut found = List::new(alloc);
    for (key, value) in map {
        let plain = plain_of(value);
        match argument(alloc, global, wanted, Text::new(key), &plain) {
            Ok(Some(argument)) => match found.push(argument) {
                Ok(()) => {}
                Err(_) => return Err(ArgsRefusal::Memory),
            },
            Ok(None) => {}
            Err(refusal) => return Err(refusal),
        }
    }
    Ok(found)
}
