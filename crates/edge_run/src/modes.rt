//! The modes: from the words to an answer or another end, over a shelf.
ghost use Rattle.std.specs.Prelude.{◌≡◌, [], IfOk};
ghost use Rattle.std.specs.Option.{option_copied};
ghost use Rattle.ev_io.specs.Shelf.{ShelfView};
ghost use Rattle.edge_run.specs.Plan.{Goes, Answer};
ghost use Rattle.edge_run.specs.Modes.{answered, census as census_of, items_over, const_plan, check_plan, run_plan, mode_plan, plan_of, no_args as no_args_of};

use crate::answers::{answer_of, without_memory};
use crate::outcome::{Outcome, UsageRule};
use crate::reading::{given_args, read_data, read_query, read_schema};
use core_ir::Scope;
use db_check::Store;
use db_store::Object;
use eql_sem::strip;
use eql_world::answer_over_view;
use ev_io::Shelf;
use ev_schema::Schema;
use ev_value::{Args, Bytes, Item, List, Text};
use schema_build::empty;
use std::alloc::{AllocError, Global};

// The values of a query over the objects that the caller sees.
#[tactic(auto, unfolding(crate::specs::Modes::items_over))]
fn values_over(
    alloc: Global,
    schema: &Schema,
    objects: &[Object],
    query: &Scope,
    args: &Args,
) -> Result<List<Item>, AllocError>
    ensures { IfOk result (λ xs. xs ≡ items_over schema.now objects.now query.now args.now) }
{
    let items = answer_over_view(alloc, schema, objects, args, query)?;
    let values = strip(alloc, items.as_slice())?;
    Ok(values)
}

// The answer of a query over the objects that the caller sees.
fn answer_over(
    alloc: Global,
    schema: &Schema,
    objects: &[Object],
    query: &Scope,
    args: &Args,
) -> Result<Bytes, Outcome>
    ensures { (shelf : ShelfView) → Goes (answered (items_over schema.now objects.now query.now args.now)) shelf result shelf }
{
    match values_over(alloc, schema, objects, query, args) {
        Ok(items) => answer_of(alloc, items.as_slice()),
        Err(_) => Err(Outcome::Memory),
    }
}

// No arguments at all.
fn no_args(alloc: Global) -> Args
    ensures { result ≡ no_args_of }
{
    Args {
        globals: List::new(alloc),
        params: List::new(alloc),
    }
}

// Mode `const`: the query alone, over no types, no objects and no arguments.
#[tactic(auto, unfolding(crate::specs::Modes::const_plan), using(crate::proofs::PlanLaws::then_ok, crate::proofs::PlanLaws::then_err, crate::proofs::PlanLaws::ran_out))]
fn const_answer<H: Shelf>(alloc: Global, shelf: &mut H, query_name: &Text) -> Result<Bytes, Outcome>
    ensures { Goes (const_plan query_name.now) (H.seen shelf.old) result (H.seen shelf.new) }
{
    let Ok(schema) = empty(alloc) else {
        return Err(Outcome::Memory);
    };
    let query = read_query(alloc, shelf, &schema, query_name)?;
    answer_over(alloc, &schema, &[], &query, &no_args(alloc))
}

// The line that tells how many types and objects there are.
fn census(alloc: Global, schema: &Schema, store: &Store) -> Result<Bytes, AllocError>
    ensures { IfOk result (λ line. line ≡ census_of schema.now store.now) }
{
    let types = schema.types().len();
    let objects = store.objects().len();
    let line = format!(in alloc; "types {types} objects {objects}\n")?;
    Ok(Bytes::from_vec(line.into_bytes()))
}

// The answer that counts types and objects.
#[tactic(auto, using(crate::proofs::PlanLaws::made_goes))]
fn counted(alloc: Global, schema: &Schema, store: &Store) -> Result<Bytes, Outcome>
    ensures { (shelf : ShelfView) → Goes (Answer (census_of schema.now store.now)) shelf result shelf }
{
    without_memory(census(alloc, schema, store))
}

// Mode `check`: the schema and the data, counted.
#[tactic(auto, unfolding(crate::specs::Modes::check_plan), using(crate::proofs::PlanLaws::then_ok, crate::proofs::PlanLaws::then_err))]
fn check_answer<H: Shelf>(
    alloc: Global,
    shelf: &mut H,
    schema_name: &Text,
    data_name: &Text,
) -> Result<Bytes, Outcome>
    ensures { Goes (check_plan schema_name.now data_name.now) (H.seen shelf.old) result (H.seen shelf.new) }
{
    let schema = read_schema(alloc, shelf, schema_name)?;
    let store = read_data(alloc, shelf, &schema, data_name)?;
    counted(alloc, &schema, &store)
}

// Mode `run`: the schema, the data, the query and the arguments.
#[tactic(auto, unfolding(crate::specs::Modes::run_plan), using(crate::proofs::PlanLaws::then_ok, crate::proofs::PlanLaws::then_err))]
fn run_answer<H: Shelf>(
    alloc: Global,
    shelf: &mut H,
    schema_name: &Text,
    data_name: &Text,
    query_name: &Text,
    args_name: Option<&Text>,
) -> Result<Bytes, Outcome>
    ensures { Goes (run_plan schema_name.now data_name.now query_name.now (option_copied args_name.entry)) (H.seen shelf.old) result (H.seen shelf.new) }
{
    let schema = read_schema(alloc, shelf, schema_name)?;
    let store = read_data(alloc, shelf, &schema, data_name)?;
    let query = read_query(alloc, shelf, &schema, query_name)?;
    let args = given_args(alloc, shelf, &schema, args_name)?;
    answer_over(alloc, &schema, store.objects(), &query, &args)
}

#[tactic(auto, using(crate::proofs::PlanLaws::refused))]
fn mode_answer<H: Shelf>(
    alloc: Global,
    shelf: &mut H,
    mode: &Text,
    schema: &Text,
    data: &Text,
    query: &Text,
    args: Option<&Text>,
) -> Result<Bytes, Outcome>
    ensures { Goes (mode_plan mode.now schema.now data.now query.now (option_copied args.entry)) (H.seen shelf.old) result (H.seen shelf.new) }
{
    if mode.as_str() == "const" {
        const_answer(alloc, shelf, query)
    } else if mode.as_str() == "check" {
        check_answer(alloc, shelf, schema, data)
    } else if mode.as_str() == "run" {
        run_answer(alloc, shelf, schema, data, query, args)
    } else {
        Err(Outcome::Usage(UsageRule::U2))
    }
}

/// The answer that the words ask for, or another end.
#[tactic(auto, using(crate::proofs::PlanLaws::refused))]
pub fn answer<H: Shelf>(alloc: Global, words: &[Text], shelf: &mut H) -> Result<Bytes, Outcome>
    ensures { Goes (plan_of words.now) (H.seen shelf.old) result (H.seen shelf.new) }
{
    match words {
        [mode, schema, data, query] => mode_answer(alloc, shelf, mode, schema, data, query, None),
        [mode, schema, data, query, option, args] if option.as_str() == "--args" => {
            mode_answer(alloc, shelf, mode, schema, data, query, Some(args))
        }
        _ => Err(Outcome::Usage(UsageRule::U1)),
    }
}
