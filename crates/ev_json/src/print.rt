//! The text of an answer.
ghost use Rattle.std.specs.Prelude.{◌≡◌, IfOk};
ghost use Rattle.ev_value.specs.JsonText.{json_text};

use crate::values::json_of;
use ev_value::{Bytes, Nested};
use std::alloc::{AllocError, Global};

/// The compact JSON text of a form (RFC 8259). The keys of an object stand in byte order; of a key that stands
/// twice the last value counts.
pub fn text(alloc: Global, form: &Nested) -> Result<Bytes, AllocError>
    ensures { IfOk result (λ b. b ≡ json_text form.now) }
{
    let value = json_of(alloc, form)?;
    let printed = value.to_string(alloc)?;
    Ok(Bytes::from_vec(printed.into_bytes()))
}
