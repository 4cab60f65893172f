//! Types by their names.
ghost use Rattle.std.specs.Prelude.{◌≡◌, ◌<◌, ◌^◌, length, IfOk};
ghost use Rattle.ev_index.specs.Index.{by_name};
ghost use Rattle.ev_schema.specs.Named.{type_named};

use crate::by_name::ByName;
use core_ir::TypeId;
use ev_schema::TypeInfo;
use std::alloc::{AllocError, Global};

/// The number of the first type of each name.
pub fn types_by_name(alloc: Global, types: &[TypeInfo]) -> Result<ByName<TypeId>, AllocError>
    requires { length types.now < 2 ^ 32 }
    ensures { IfOk result (λ m. by_name m ≡ type_named types.now) }
{
    let mut found = ByName::new(alloc);
    for (place, info) in types.iter().enumerate() {
        found.add(alloc, &info.name, TypeId(place as u32))?;
    }
    Ok(found)
}
