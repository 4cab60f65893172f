//! The text of data, decided: the store, or why it is refused.
ghost use Rattle.edge_run.specs.Judgement.{AsData, IsDecided};

use crate::outcome::Outcome;
use crate::schema::is_numbered;
use db_check::Store;
use db_draft::DataRefusal;
use db_load::load;
use ev_schema::Schema;
use std::alloc::Global;

/// The store of a text, unless a rule on data fails.
pub fn decide_data(alloc: Global, schema: &Schema, text: &[u8]) -> Result<Store, Outcome>
    ensures { IsDecided (AsData schema.now) text.now result }
{
    if !is_numbered(schema) {
        return Err(Outcome::Memory);
    }
    match load(alloc, schema, text) {
        Ok(store) => Ok(store),
        Err(DataRefusal::Rule(broken)) => Err(Outcome::DataRefused(broken)),
        Err(DataRefusal::Memory) => Err(Outcome::Memory),
    }
}
