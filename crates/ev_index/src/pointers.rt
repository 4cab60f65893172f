//! The pointers of each type by their names.
ghost use Rattle.std.specs.Prelude.{◌≡◌, map, IfOk, OnOk};
ghost use Rattle.std.specs.Option.{option_copied};
ghost use Rattle.ev_index.specs.Index.{by_name, pointers_of, with_pointer};
ghost use Rattle.ev_schema.specs.Pointers.{first_named};

use crate::by_name::ByName;
use core_ir::PtrId;
use ev_schema::{PtrInfo, TypeInfo};
use ev_value::List;
use sqlite_items::at;
use std::alloc::{AllocError, Global};

fn add_pointer(
    alloc: Global,
    found: &mut ByName<PtrId>,
    info: Option<&PtrInfo>,
    pointer: PtrId,
) -> Result<(), AllocError>
    ensures { OnOk result (by_name found.new ≡ with_pointer (option_copied info.entry) (by_name found.old) pointer) }
{
    match info {
        Some(info) => found.add(alloc, &info.name, pointer),
        None => Ok(()),
    }
}

/// The first of some pointers of each name.
fn pointers_by_name(
    alloc: Global,
    pointers: &[PtrInfo],
    listed: &[PtrId],
) -> Result<ByName<PtrId>, AllocError>
    ensures { IfOk result (λ m. by_name m ≡ first_named pointers.now listed.now) }
{
    let mut found = ByName::new(alloc);
    for pointer in listed {
        let info = at(pointers, pointer.0 as usize);
        add_pointer(alloc, &mut found, info, *pointer)?;
    }
    Ok(found)
}

/// For each type the first of its pointers of each name.
pub fn pointers_by_type(
    alloc: Global,
    pointers: &[PtrInfo],
    types: &[TypeInfo],
) -> Result<List<ByName<PtrId>>, AllocError>
    ensures { IfOk result (λ l. map by_name l ≡ map (pointers_of pointers.now) types.now) }
{
    let mut found = List::new(alloc);
    for info in types {
        found.push(pointers_by_name(alloc, pointers, info.pointers.as_slice())?)?;
    }
    Ok(found)
}
