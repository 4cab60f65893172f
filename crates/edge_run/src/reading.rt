//! Documents, read and decided.
ghost use Rattle.std.specs.Option.{option_copied};
ghost use Rattle.edge_run.specs.Judgement.{AsSchema, AsData, AsQuery, AsArgs};
ghost use Rattle.edge_run.specs.Plan.{Goes};
ghost use Rattle.edge_run.specs.Modes.{judged_document, args_plan};

use crate::args::decide_args;
use crate::data::decide_data;
use crate::document::read;
use crate::outcome::{Doc, Outcome};
use crate::query::decide_query;
use crate::schema::decide_schema;
use core_ir::Scope;
use db_check::Store;
use ev_io::Shelf;
use ev_schema::Schema;
use ev_value::{Args, Text};
use std::alloc::Global;

/// The schema of a document.
#[tactic(auto, unfolding(crate::specs::Modes::judged_document), using(crate::proofs::PlanLaws::then_ok, crate::proofs::PlanLaws::then_err, crate::proofs::PlanLaws::judged_goes))]
pub fn read_schema<H: Shelf>(alloc: Global, shelf: &mut H, name: &Text) -> Result<Schema, Outcome>
    ensures { Goes (judged_document AsSchema name.now) (H.seen shelf.old) result (H.seen shelf.new) }
{
    let text = read(shelf, Doc::Schema, name)?;
    decide_schema(alloc, text.as_slice())
}

/// The objects of a document, for a schema.
#[tactic(auto, unfolding(crate::specs::Modes::judged_document), using(crate::proofs::PlanLaws::then_ok, crate::proofs::PlanLaws::then_err, crate::proofs::PlanLaws::judged_goes))]
pub fn read_data<H: Shelf>(
    alloc: Global,
    shelf: &mut H,
    schema: &Schema,
    name: &Text,
) -> Result<Store, Outcome>
    ensures { Goes (judged_document (AsData schema.now) name.now) (H.seen shelf.old) result (H.seen shelf.new) }
{
    let text = read(shelf, Doc::Data, name)?;
    decide_data(alloc, schema, text.as_slice())
}

/// The tree of a query over a schema.
#[tactic(auto, unfolding(crate::specs::Modes::judged_document), using(crate::proofs::PlanLaws::then_ok, crate::proofs::PlanLaws::then_err, crate::proofs::PlanLaws::judged_goes))]
pub fn read_query<H: Shelf>(
    alloc: Global,
    shelf: &mut H,
    schema: &Schema,
    name: &Text,
) -> Result<Scope, Outcome>
    ensures { Goes (judged_document (AsQuery schema.now) name.now) (H.seen shelf.old) result (H.seen shelf.new) }
{
    let text = read(shelf, Doc::Query, name)?;
    decide_query(alloc, schema, text.as_slice())
}

// The arguments of a document.
#[tactic(auto, unfolding(crate::specs::Modes::judged_document), using(crate::proofs::PlanLaws::then_ok, crate::proofs::PlanLaws::then_err, crate::proofs::PlanLaws::judged_goes))]
fn read_args<H: Shelf>(
    alloc: Global,
    shelf: &mut H,
    schema: &Schema,
    name: &Text,
) -> Result<Args, Outcome>
    ensures { Goes (judged_document (AsArgs schema.now) name.now) (H.seen shelf.old) result (H.seen shelf.new) }
{
    let text = read(shelf, Doc::Args, name)?;
    decide_args(alloc, schema, text.as_slice())
}

/// The arguments of a document, or those of a text without any where no document is named.
#[tactic(auto, unfolding(crate::specs::Modes::args_plan), using(crate::proofs::PlanLaws::judged_goes))]
pub fn given_args<H: Shelf>(
    alloc: Global,
    shelf: &mut H,
    schema: &Schema,
    name: Option<&Text>,
) -> Result<Args, Outcome>
    ensures { Goes (args_plan schema.now (option_copied name.entry)) (H.seen shelf.old) result (H.seen shelf.new) }
{
    match name {
        Some(name) => read_args(alloc, shelf, schema, name),
        None => decide_args(alloc, schema, b"{}"),
    }
}
