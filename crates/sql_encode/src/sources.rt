//! Which tables there are, in byte order of their names.
ghost use Rattle.std.specs.Prelude.{◌≡◌, ◌∷◌, ◌++◌, ◌<◌, ◌^◌, [], zero, length, codes, slice_get, Some, IfOk, OnOk};
ghost use Rattle.std.specs.Option.{option_copied};
ghost use Rattle.ev_value.specs.declared.value.Val.TheVariants as made;
ghost use Rattle.sql_encode.specs.Sources.{cell_type_of, cell_type as cell_type_of_body, type_name as type_name_of, pointer_table as pointer_table_of, has_table as has_table_of, type_sources as type_sources_from, pointer_sources as pointer_sources_from, sources as sources_of};

use crate::source::Source;
use core_ir::{PtrId, Ty, TypeId};
use ev_list::{Absent, Direction, KeyOrder, Keyed, in_order, keyless};
use ev_schema::{Body, PtrInfo, Schema, TypeInfo};
use ev_value::{List, ScalarTy, Text, Val};
use sqlite_items::at;
use std::alloc::{AllocError, Global};

/// By names, in byte order.
pub const BY_NAME: KeyOrder = KeyOrder {
    direction: Direction::Ascending,
    absent: Absent::First,
};

/// The type of a stored pointer's cells: that of a property, and of a link a uuid.
pub fn cell_type(body: &Body) -> Option<ScalarTy>
    ensures { result ≡ cell_type_of_body body.now }
{
    match body {
        Body::Stored(Ty::Scalar(ty)) => Some(*ty),
        Body::Stored(Ty::Object(_)) => Some(ScalarTy::Uuid),
        Body::Stored(Ty::Tuple(_) | Ty::Array(_)) | Body::Computed => None,
    }
}

/// Something with a name as its key.
pub fn named<T: Drop>(alloc: Global, name: Text, value: T) -> Result<Keyed<T>, AllocError>
    ensures { IfOk result (λ k. k ≡ record { keys = Some (made.Str name) ∷ []; value = value }) }
{
    let mut keys = List::new(alloc);
    keys.push(Some(Val::Str(name)))?;
    Ok(Keyed { keys, value })
}

/// The name of a type, if there is such a type.
pub fn type_name(alloc: Global, types: &[TypeInfo], ty: TypeId) -> Result<Text, AllocError>
    ensures { IfOk result (λ t. t ≡ type_name_of (slice_get types.now ty.0)) }
{
    match at(types, ty.0 as usize) {
        Some(info) => info.name.copied(alloc),
        None => Text::from_str(alloc, ""),
    }
}

/// The name of the table of a pointer with many values.
pub fn pointer_table(alloc: Global, schema: &Schema, info: &PtrInfo) -> Result<Text, AllocError>
    ensures { IfOk result (λ t. t ≡ pointer_table_of schema.now info.now) }
{
    let owner = type_name(alloc, schema.types(), info.origin)?;
    let point = Text::from_str(alloc, ".")?;
    let rest = point.joined(&info.name)?;
    owner.joined(&rest)
}

/// Whether a pointer has a table of its own.
fn has_table(info: &PtrInfo) -> bool
    ensures { result ≡ has_table_of info.now }
{
    if info.card.is_many() {
        cell_type(&info.body).is_some()
    } else {
        false
    }
}

/// A table for each type.
fn type_sources(alloc: Global, types: &[TypeInfo]) -> Result<List<Keyed<Source>>, AllocError>
    requires { length types.now < 2 ^ 32 }
    ensures { IfOk result (λ l. l ≡ type_sources_from zero types.now) }
{
    let mut all = List::new(alloc);
    for (i, info) in types.iter().enumerate() {
        let name = info.name.copied(alloc)?;
        all.push(named(alloc, name, Source::Type(TypeId(i as u32)))?)?;
    }
    Ok(all)
}

/// A table for each pointer that has one.
fn pointer_sources(alloc: Global, schema: &Schema) -> Result<List<Keyed<Source>>, AllocError>
    requires { length schema.now.pointers < 2 ^ 32 }
    ensures { IfOk result (λ l. l ≡ pointer_sources_from schema.now zero schema.now.pointers) }
{
    let pointers = schema.pointers();
    let mut all = List::new(alloc);
    for (i, info) in pointers.iter().enumerate() {
        if has_table(info) {
            let name = pointer_table(alloc, schema, info)?;
            all.push(named(alloc, name, Source::Pointer(PtrId(i as u32)))?)?;
        }
    }
    Ok(all)
}

/// What the tables of a schema hold, in byte order of their names.
pub fn sources(alloc: Global, schema: &Schema) -> Result<List<Source>, AllocError>
    requires types { length schema.now.types < 2 ^ 32 }
    requires pointers { length schema.now.pointers < 2 ^ 32 }
    ensures { IfOk result (λ l. l ≡ sources_of schema.now) }
{
    let mut all = type_sources(alloc, schema.types())?;
    all.append(pointer_sources(alloc, schema)?)?;
    keyless(alloc, in_order(alloc, &[BY_NAME], all)?)
}
