//! Loading data.
ghost use Rattle.std.specs.Prelude.{◌≡◌, ◌<◌, ◌^◌, length};
ghost use Rattle.serde_json.specs.View.{view};
ghost use Rattle.db_draft.specs.Told.{IsAnswer};
ghost use Rattle.db_load.specs.Document.{document as document_of_data};
ghost use Rattle.db_load.specs.Data.{IsLoaded, stored, at_text as refused_at_text};

use crate::document::document;
use crate::text::{TextError, value_of};
use db_check::{Store, check};
use db_draft::{Broken, DataRefusal, Rule};
use ev_schema::Schema;
use serde_json::Value;
use std::alloc::Global;

fn at_text(rule: Rule) -> DataRefusal
    ensures { result ≡ refused_at_text rule }
{
    DataRefusal::Rule(Broken {
        rule,
        object: None,
        other: None,
    })
}

/// The store that a JSON value writes.
fn store_of(alloc: Global, schema: &Schema, value: Value) -> Result<Store, DataRefusal>
    requires types { length schema.now.types < 2 ^ 32 }
    requires some { 0 < length schema.now.pointers }
    requires few { length schema.now.pointers < 2 ^ 32 }
    ensures { IsAnswer result (stored schema.now (document_of_data (view value))) }
{
    match document(alloc, value) {
        Ok(Some(drafts)) => check(alloc, schema, drafts),
        Ok(None) => Err(at_text(Rule::X2)),
        Err(_) => Err(DataRefusal::Memory),
    }
}

/// The store that a text in the program's data format writes.
///
/// # Errors
///
/// `Rule`: X1 where the text is no JSON, X2 where it is no document, and else what `check` tells.
pub fn load(alloc: Global, schema: &Schema, text: &[u8]) -> Result<Store, DataRefusal>
    requires types { length schema.now.types < 2 ^ 32 }
    requires some { 0 < length schema.now.pointers }
    requires few { length schema.now.pointers < 2 ^ 32 }
    ensures { IsLoaded text.now schema.now result }
{
    match value_of(alloc, text) {
        Ok(value) => store_of(alloc, schema, value),
        Err(TextError::NoJson) => Err(at_text(Rule::X1)),
        Err(TextError::Memory) => Err(DataRefusal::Memory),
    }
}
