//! The value of a JSON text.
ghost use Rattle.std.specs.Prelude.{◌≡◌, Err, IfOk};
ghost use Rattle.serde_json.specs.View.{view};
ghost use Rattle.db_load.specs.Text.{Says};
ghost use Rattle.db_load.specs.declared.text.TextError.TheVariants.{NoJson};

use serde_json::Value;
use serde_json::error::Category;
use std::alloc::Global;

/// Why a text has no value.
#[derive(Clone, Copy)]
pub enum TextError {
    Memory,
    NoJson,
}

/// The value of a text. It says one, or it is no JSON (RFC 8259, as the crate `serde_json` reads it).
pub fn value_of(alloc: Global, text: &[u8]) -> Result<Value, TextError>
    ensures ok { IfOk result (λ v. Says text.now (view v)) }
    ensures refused { result ≡ Err NoJson → (d : _) → Says text.now d → ⊥ }
{
    match Value::from_slice(alloc, text) {
        Ok(value) => Ok(value),
        Err(e) => match e.classify() {
            Category::Memory => Err(TextError::Memory),
            _ => Err(TextError::NoJson),
        },
    }
}
