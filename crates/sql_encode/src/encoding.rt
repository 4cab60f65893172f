//! The rows of the tables.
ghost use Rattle.std.specs.Prelude.{◌≡◌, ◌∷◌, ◌++◌, ◌<◌, ◌^◌, [], map, flat_map, filter, length, slice_get, Some, IfOk, OnOk};
ghost use Rattle.std.specs.Option.{option_copied};
ghost use Rattle.sql_table.specs.Names.{catalog_of as catalog_of_tables, rows_of_tables};
ghost use Rattle.sql_encode.specs.Rows.{type_row as type_row_of, type_rows as type_rows_of, object_rows, pointer_rows as pointer_rows_of, rows_of as rows_of_source};
ghost use Rattle.sql_encode.specs.Shapes.{catalog_of as catalog_of_schema};
ghost use Rattle.sql_encode.specs.Sources.{sources as sources_of};

use crate::catalog::catalog_of;
use crate::cells::{add_target_rows, add_value_rows, is_link, type_row};
use crate::source::Source;
use crate::sources::sources;
use core_ir::{PtrId, TypeId};
use db_store::Object;
use ev_schema::{PtrInfo, Schema};
use ev_value::List;
use sql_table::{Rows, Tables};
use sqlite_items::at;
use std::alloc::{AllocError, Global};

/// The rows of the table of a type.
fn type_rows(
    alloc: Global,
    schema: &Schema,
    objects: &[Object],
    ty: TypeId,
) -> Result<Rows, AllocError>
    ensures { IfOk result (λ rs. rs ≡ type_rows_of schema.now objects.now ty) }
{
    let listed = schema.pointers_in_order(alloc, ty)?;
    let listed = listed.as_slice();
    let mut rows = List::new(alloc);
    for object in objects {
        if schema.is_subtype(object.ty, ty) {
            rows.push(type_row(alloc, schema, listed, object)?)?;
        }
    }
    Ok(rows)
}

/// Puts the rows of an object in the table of a pointer behind others.
fn add_object_rows(
    alloc: Global,
    info: &PtrInfo,
    pointer: PtrId,
    object: &Object,
    rows: &mut Rows,
) -> Result<(), AllocError>
    ensures { OnOk result (rows.new ≡ rows.old ++ object_rows info.now pointer object.now) }
{
    if is_link(&info.body) {
        add_target_rows(alloc, info, object, object.targets(pointer), rows)
    } else {
        add_value_rows(alloc, info, object, object.values(pointer), rows)
    }
}

/// The rows of the table of a pointer.
fn pointer_rows(
    alloc: Global,
    info: &PtrInfo,
    pointer: PtrId,
    objects: &[Object],
) -> Result<Rows, AllocError>
    ensures { IfOk result (λ rs. rs ≡ pointer_rows_of objects.now (Some info.now) pointer) }
{
    let mut rows = List::new(alloc);
    for object in objects {
        add_object_rows(alloc, info, pointer, object, &mut rows)?;
    }
    Ok(rows)
}

fn rows_of(
    alloc: Global,
    schema: &Schema,
    objects: &[Object],
    source: Source,
) -> Result<Rows, AllocError>
    ensures { IfOk result (λ rs. rs ≡ rows_of_source schema.now objects.now source) }
{
    match source {
        Source::Type(ty) => type_rows(alloc, schema, objects, ty),
        Source::Pointer(pointer) => match at(schema.pointers(), pointer.0 as usize) {
            Some(info) => pointer_rows(alloc, info, pointer, objects),
            None => Ok(List::new(alloc)),
        },
    }
}

fn rows_of_all(
    alloc: Global,
    schema: &Schema,
    objects: &[Object],
    sources: &[Source],
) -> Result<List<Rows>, AllocError>
    ensures { IfOk result (λ l. l ≡ map (rows_of_source schema.now objects.now) sources.now) }
{
    let mut all = List::new(alloc);
    for source in sources {
        all.push(rows_of(alloc, schema, objects, *source)?)?;
    }
    Ok(all)
}

/// The tables of some objects in order of id under a schema: those of its catalog, with a row for each object, and for
/// each value of a pointer that may have many.
pub fn encode(alloc: Global, schema: &Schema, objects: &[Object]) -> Result<Tables, AllocError>
    requires types { length schema.now.types < 2 ^ 32 }
    requires pointers { length schema.now.pointers < 2 ^ 32 }
    ensures catalog { IfOk result (λ t. catalog_of_tables t ≡ catalog_of_schema schema.now) }
    ensures rows { IfOk result (λ t. rows_of_tables t ≡ map (rows_of_source schema.now objects.now) (sources_of schema.now)) }
{
    let catalog = catalog_of(alloc, schema)?;
    let sources = sources(alloc, schema)?;
    let rows = rows_of_all(alloc, schema, objects, sources.as_slice())?;
    Ok(Tables::new(catalog, rows))
}
