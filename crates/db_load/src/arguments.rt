//! Loading arguments.
ghost use Rattle.std.specs.Prelude.{◌≡◌, None, Some, option_map};
ghost use Rattle.std.specs.List.{list_any};
ghost use Rattle.std.specs.Option.{option_copied};
ghost use Rattle.serde_json.specs.View.{view, members_view};
ghost use Rattle.db_load.specs.Views.{seen};
ghost use Rattle.db_load.specs.Arguments.{is_given as is_given_param, lesser as lesser_of, least_absent as least_absent_of, complete as complete_of, globals_of, params_of, with_params, args_in as args_in_sections, ill_formed as ill_formed_text, IsLoaded, IsAnswer};
ghost use Rattle.std.specs.Str.{bytes_eq};

use crate::argument_names::{wanted_globals, wanted_params};
use crate::argument_values::{arguments, at_name};
use crate::refusal::{ArgsRefusal, ArgsRule, BrokenArgs};
use crate::sections::{Sections, sections_of};
use crate::text::{TextError, value_of};
use ev_list::Param;
use ev_schema::Schema;
use ev_value::{Args, Argument, List, Text};
use serde_json::{Map, Value};
use std::alloc::Global;

fn has_argument(found: &[Argument], name: &Text) -> bool
    ensures { result ≡ list_any (λ a. bytes_eq a.name name.now) found.now }
{
    for argument in found {
        if argument.name.as_str() == name.as_str() {
            return true;
        }
    }
    false
}

/// Whether a parameter has an argument or needs none.
fn is_given(found: &[Argument], param: &Param) -> bool
    ensures { result ≡ is_given_param found.now param.now }
{
    param.optional || has_argument(found, &param.name)
}

/// The lesser of two names, in byte order.
fn lesser<'a>(least: Option<&'a Text>, name: &'a Text) -> &'a Text
    ensures { Some result.now ≡ lesser_of (option_copied least.entry) name.now }
{
    match least {
        Some(least) => {
            if name.as_str() < least.as_str() {
                name
            } else {
                least
            }
        }
        None => name,
    }
}

/// The least name of a parameter that is not given.
fn least_absent<'a>(found: &[Argument], params: &'a [Param]) -> Option<&'a Text>
    ensures { option_copied result ≡ least_absent_of found.now None params.now }
{
    let mut least = None;
    for param in params {
        if !is_given(found, param) {
            least = Some(lesser(least, &param.name));
        }
    }
    least
}

/// The arguments, if no parameter lacks one.
fn complete(
    alloc: Global,
    globals: List<Argument>,
    params: List<Argument>,
    absent: Option<&Text>,
) -> Result<Args, ArgsRefusal>
    ensures { IsAnswer result (complete_of globals params (option_copied absent.entry)) }
{
    match absent {
        Some(name) => match name.copied(alloc) {
            Ok(name) => Err(ArgsRefusal::Rule(at_name(ArgsRule::A4, false, name))),
            Err(_) => Err(ArgsRefusal::Memory),
        },
        None => Ok(Args { globals, params }),
    }
}

/// The values of globals.
fn globals_in(
    alloc: Global,
    schema: &Schema,
    map: Map<String, Value>,
) -> Result<List<Argument>, ArgsRefusal>
    ensures { IsAnswer result (globals_of schema.now (members_view map.entries)) }
{
    match wanted_globals(alloc, schema.globals()) {
        Ok(wanted) => arguments(alloc, true, wanted.as_slice(), map),
        Err(_) => Err(ArgsRefusal::Memory),
    }
}

/// The values of parameters.
fn params_in(
    alloc: Global,
    params: &[Param],
    map: Map<String, Value>,
) -> Result<List<Argument>, ArgsRefusal>
    ensures { IsAnswer result (params_of params.now (members_view map.entries)) }
{
    match wanted_params(alloc, params) {
        Ok(wanted) => arguments(alloc, false, wanted.as_slice(), map),
        Err(_) => Err(ArgsRefusal::Memory),
    }
}

/// The values of parameters beside those of globals.
fn args_with(
    alloc: Global,
    params: &[Param],
    globals: List<Argument>,
    map: Map<String, Value>,
) -> Result<Args, ArgsRefusal>
    ensures { IsAnswer result (with_params params.now globals (params_of params.now (members_view map.entries))) }
{
    match params_in(alloc, params, map) {
        Ok(found) => {
            let absent = least_absent(found.as_slice(), params);
            complete(alloc, globals, found, absent)
        }
        Err(refusal) => Err(refusal),
    }
}

/// The arguments in two objects.
fn args_in(
    alloc: Global,
    schema: &Schema,
    params: &[Param],
    sections: Option<Sections>,
) -> Result<Args, ArgsRefusal>
    ensures { IsAnswer result (args_in_sections schema.now params.now (option_map seen sections)) }
{
    let Some(sections) = sections else {
        return Err(ArgsRefusal::Rule(ill_formed()));
    };
    let Sections {
        globals: global_values,
        params: param_values,
    } = sections;
    match globals_in(alloc, schema, global_values) {
        Ok(globals) => args_with(alloc, params, globals, param_values),
        Err(refusal) => Err(refusal),
    }
}

fn ill_formed() -> BrokenArgs
    ensures { result ≡ ill_formed_text }
{
    BrokenArgs {
        rule: ArgsRule::A1,
        global: false,
        name: None,
    }
}

/// The arguments that a text in the program's format of arguments writes, for the globals of a schema and the parameters
/// of a query, whose names differ.
///
/// # Errors
///
/// `Rule`: A1 where the text is no JSON or not of the form. Else A2 or A3 at the first global in byte order, and then at
/// the first parameter in byte order. Else A4 at the least name of a parameter that is not given.
pub fn load_args(
    alloc: Global,
    schema: &Schema,
    params: &[Param],
    text: &[u8],
) -> Result<Args, ArgsRefusal>
    ensures { IsLoaded text.now schema.now params.now result }
{
    match value_of(alloc, text) {
        Ok(value) => args_in(alloc, schema, params, sections_of(alloc, value)),
        Err(TextError::NoJson) => Err(ArgsRefusal::Rule(ill_formed())),
        Err(TextError::Memory) => Err(ArgsRefusal::Memory),
    }
}
