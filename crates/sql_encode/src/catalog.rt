//! The tables of a schema: their columns.
ghost use Rattle.std.specs.Prelude.{◌≡◌, ◌∷◌, ◌++◌, ◌<◌, ◌^◌, [], map, flat_map, length, codes, slice_get, Some, IfOk, OnOk};
ghost use Rattle.std.specs.Option.{option_copied};
ghost use Rattle.sql_encode.specs.Shapes.{column as column_of, property_columns as property_columns_of, columns_of_type, pointer_columns as pointer_columns_of, type_columns as type_columns_of, type_shape as type_shape_of, target_columns, pointer_shape_if_known, shape_of as shape_of_source, named_globals as named_globals_in, catalog_of as catalog_of_schema};
ghost use Rattle.sql_encode.specs.Sources.{sources as sources_of};

use crate::source::Source;
use crate::sources::{BY_NAME, cell_type, named, pointer_table, sources, type_name};
use core_ir::{PtrId, TypeId};
use ev_list::{Keyed, in_order, keyless};
use ev_schema::{GlobalInfo, LinkProperty, PtrInfo, Schema};
use ev_value::{List, ScalarTy, Text};
use sql_ast::{Catalog, SqlTy, TableShape, Typed};
use sqlite_items::at;
use std::alloc::{AllocError, Global};

fn column(name: Text, ty: ScalarTy) -> Typed
    ensures { result ≡ column_of name ty }
{
    Typed {
        name,
        ty: SqlTy::Scalar(ty),
    }
}

/// Puts the columns of a link's properties behind others, each with something in front of its name.
fn add_properties(
    alloc: Global,
    front: &Text,
    properties: &[LinkProperty],
    columns: &mut List<Typed>,
) -> Result<(), AllocError>
    ensures { OnOk result (columns.new ≡ columns.old ++ property_columns_of front.now properties.now) }
{
    let sign = Text::from_str(alloc, "@")?;
    for property in properties {
        let rest = sign.joined(&property.name)?;
        columns.push(column(front.joined(&rest)?, property.ty))?;
    }
    Ok(())
}

/// Puts the columns of a pointer in the tables of types behind others.
fn add_pointer(alloc: Global, info: &PtrInfo, columns: &mut List<Typed>) -> Result<(), AllocError>
    ensures { OnOk result (columns.new ≡ columns.old ++ pointer_columns_of (Some info.now)) }
{
    if info.card.is_many() {
        return Ok(());
    }
    match cell_type(&info.body) {
        Some(ty) => {
            columns.push(column(info.name.copied(alloc)?, ty))?;
            add_properties(alloc, &info.name, info.link_props.as_slice(), columns)
        }
        None => Ok(()),
    }
}

/// Puts the columns of some pointers behind others.
fn add_pointers(
    alloc: Global,
    schema: &Schema,
    listed: &[PtrId],
    columns: &mut List<Typed>,
) -> Result<(), AllocError>
    ensures { OnOk result (columns.new ≡ columns.old ++ type_columns_of schema.now listed.now) }
{
    let pointers = schema.pointers();
    for pointer in listed {
        if let Some(info) = at(pointers, pointer.0 as usize) {
            add_pointer(alloc, info, columns)?;
        }
    }
    Ok(())
}

/// The table of a type.
fn type_shape(alloc: Global, schema: &Schema, ty: TypeId) -> Result<TableShape, AllocError>
    ensures { IfOk result (λ t. t ≡ type_shape_of schema.now ty) }
{
    let name = type_name(alloc, schema.types(), ty)?;
    let listed = schema.pointers_in_order(alloc, ty)?;
    let mut columns = List::new(alloc);
    columns.push(column(Text::from_str(alloc, "id")?, ScalarTy::Uuid))?;
    add_pointers(alloc, schema, listed.as_slice(), &mut columns)?;
    Ok(TableShape { name, columns })
}

/// The table of a pointer with many values.
fn pointer_shape(alloc: Global, schema: &Schema, info: &PtrInfo) -> Result<TableShape, AllocError>
    ensures { IfOk result (λ t. t ≡ pointer_shape_if_known schema.now (Some info.now)) }
{
    let name = pointer_table(alloc, schema, info)?;
    let mut columns = List::new(alloc);
    columns.push(column(Text::from_str(alloc, "source")?, ScalarTy::Uuid))?;
    if let Some(ty) = cell_type(&info.body) {
        columns.push(column(Text::from_str(alloc, "target")?, ty))?;
    }
    let nothing = Text::from_str(alloc, "")?;
    add_properties(alloc, &nothing, info.link_props.as_slice(), &mut columns)?;
    Ok(TableShape { name, columns })
}

fn shape_of(alloc: Global, schema: &Schema, source: Source) -> Result<TableShape, AllocError>
    ensures { IfOk result (λ t. t ≡ shape_of_source schema.now source) }
{
    match source {
        Source::Type(ty) => type_shape(alloc, schema, ty),
        Source::Pointer(pointer) => match at(schema.pointers(), pointer.0 as usize) {
            Some(info) => pointer_shape(alloc, schema, info),
            None => Ok(TableShape {
                name: Text::from_str(alloc, "")?,
                columns: List::new(alloc),
            }),
        },
    }
}

fn shapes(
    alloc: Global,
    schema: &Schema,
    sources: &[Source],
) -> Result<List<TableShape>, AllocError>
    ensures { IfOk result (λ l. l ≡ map (shape_of_source schema.now) sources.now) }
{
    let mut all = List::new(alloc);
    for source in sources {
        all.push(shape_of(alloc, schema, *source)?)?;
    }
    Ok(all)
}

fn named_globals(alloc: Global, globals: &[GlobalInfo]) -> Result<List<Keyed<Typed>>, AllocError>
    ensures { IfOk result (λ l. l ≡ named_globals_in globals.now) }
{
    let mut all = List::new(alloc);
    for global in globals {
        let typed = column(global.name.copied(alloc)?, global.ty);
        all.push(named(alloc, global.name.copied(alloc)?, typed)?)?;
    }
    Ok(all)
}

/// The tables and the globals of a schema, each in byte order of their names.
pub fn catalog_of(alloc: Global, schema: &Schema) -> Result<Catalog, AllocError>
    requires types { length schema.now.types < 2 ^ 32 }
    requires pointers { length schema.now.pointers < 2 ^ 32 }
    ensures { IfOk result (λ c. c ≡ catalog_of_schema schema.now) }
{
    let sources = sources(alloc, schema)?;
    let tables = shapes(alloc, schema, sources.as_slice())?;
    let globals = named_globals(alloc, schema.globals())?;
    let globals = keyless(alloc, in_order(alloc, &[BY_NAME], globals)?)?;
    Ok(Catalog { tables, globals })
}
