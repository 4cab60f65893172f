//! The text of arguments, decided: the arguments, or why it is refused.
ghost use Rattle.edge_run.specs.Judgement.{AsArgs, IsDecided};

use crate::outcome::Outcome;
use db_load::{ArgsRefusal, load_args};
use ev_schema::Schema;
use ev_value::Args;
use std::alloc::Global;

/// The arguments of a text for the globals of the schema, unless a rule on arguments fails. Queries have no parameters yet.
pub fn decide_args(alloc: Global, schema: &Schema, text: &[u8]) -> Result<Args, Outcome>
    ensures { IsDecided (AsArgs schema.now) text.now result }
{
    match load_args(alloc, schema, &[], text) {
        Ok(args) => Ok(args),
        Err(ArgsRefusal::Rule(broken)) => Err(Outcome::ArgsRefused(broken)),
        Err(ArgsRefusal::Memory) => Err(Outcome::Memory),
    }
}
