//! Globals by their names.
ghost use Rattle.std.specs.Prelude.{◌≡◌, IfOk};
ghost use Rattle.ev_index.specs.Globals.{global_type};
ghost use Rattle.ev_index.specs.Index.{by_name};

use crate::by_name::ByName;
use ev_schema::GlobalInfo;
use ev_value::ScalarTy;
use std::alloc::{AllocError, Global};

/// The type of the first global of each name.
pub fn globals_by_name(
    alloc: Global,
    globals: &[GlobalInfo],
) -> Result<ByName<ScalarTy>, AllocError>
    ensures { IfOk result (λ m. by_name m ≡ global_type globals.now) }
{
    let mut found = ByName::new(alloc);
    for info in globals {
        found.add(alloc, &info.name, info.ty)?;
    }
    Ok(found)
}
