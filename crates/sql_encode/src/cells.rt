//! The cells of rows.
ghost use Rattle.std.specs.Prelude.{◌≡◌, ◌∷◌, ◌++◌, [], map, flat_map, length, slice_get, Some, None, IfOk, OnOk};
ghost use Rattle.std.specs.Option.{option_copied};
ghost use Rattle.sql_encode.specs.Rows.{property_cell as property_cell_of, property_cell_at as property_cell_at_of, property_cells as property_cells_of, first_target as first_target_of, value_cell as value_cell_of, target_cell as target_cell_of, is_link as is_link_body, single_cell as single_cell_of, pointer_cells as pointer_cells_of, type_row as type_row_of, target_rows as target_rows_of, value_rows as value_rows_of};

use crate::sources::cell_type;
use core_ir::{PtrId, Ty};
use db_store::{LinkValue, Object, Target};
use ev_schema::{Body, LinkProperty, PtrInfo, Schema};
use ev_value::{List, Text, Val};
use sql_table::{Cell, Row, Rows, Shared};
use sqlite_items::at;
use std::alloc::{AllocError, Global};

/// The value of the property with a name; null where there is none.
fn property_cell(alloc: Global, properties: &[LinkValue], name: &Text) -> Result<Cell, AllocError>
    ensures { IfOk result (λ c. c ≡ property_cell_of properties.now name.now) }
{
    for property in properties {
        if property.name == *name {
            return Ok(Cell::Val(property.value.copied(alloc)?));
        }
    }
    Ok(Cell::Null)
}

fn property_cell_at(alloc: Global, target: Option<&Target>, name: &Text) -> Result<Cell, AllocError>
    ensures { IfOk result (λ c. c ≡ property_cell_at_of (option_copied target.entry) name.now) }
{
    match target {
        Some(target) => property_cell(alloc, target.properties.as_slice(), name),
        None => Ok(Cell::Null),
    }
}

/// Puts the values of a link's properties behind other cells.
fn add_property_cells(
    alloc: Global,
    target: Option<&Target>,
    properties: &[LinkProperty],
    cells: &mut List<Cell>,
) -> Result<(), AllocError>
    ensures { OnOk result (cells.new ≡ cells.old ++ property_cells_of (option_copied target.entry) properties.now) }
{
    for property in properties {
        cells.push(property_cell_at(alloc, target, &property.name)?)?;
    }
    Ok(())
}

fn first_target(targets: &[Target]) -> Option<&Target>
    ensures { option_copied result ≡ first_target_of targets.now }
{
    match targets {
        [] => None,
        [first, ..] => Some(first),
    }
}

fn value_cell(alloc: Global, values: &[Val]) -> Result<Cell, AllocError>
    ensures { IfOk result (λ c. c ≡ value_cell_of values.now) }
{
    match values {
        [] => Ok(Cell::Null),
        [first, ..] => Ok(Cell::Val(first.copied(alloc)?)),
    }
}

fn target_cell(target: Option<&Target>) -> Cell
    ensures { result ≡ target_cell_of (option_copied target.entry) }
{
    match target {
        Some(target) => Cell::Val(Val::Id(target.id)),
        None => Cell::Null,
    }
}

/// Whether a pointer is a stored link.
pub fn is_link(body: &Body) -> bool
    ensures { result ≡ is_link_body body.now }
{
    match body {
        Body::Stored(Ty::Object(_)) => true,
        Body::Stored(Ty::Scalar(_) | Ty::Tuple(_) | Ty::Array(_)) | Body::Computed => false,
    }
}

/// The cell of a pointer with at most one value.
fn single_cell(
    alloc: Global,
    body: &Body,
    object: &Object,
    pointer: PtrId,
) -> Result<Cell, AllocError>
    ensures { IfOk result (λ c. c ≡ single_cell_of body.now object.now pointer) }
{
    if is_link(body) {
        Ok(target_cell(first_target(object.targets(pointer))))
    } else {
        value_cell(alloc, object.values(pointer))
    }
}

/// Puts the cells of a pointer in the tables of types behind others.
fn add_pointer_cells(
    alloc: Global,
    info: &PtrInfo,
    object: &Object,
    pointer: PtrId,
    cells: &mut List<Cell>,
) -> Result<(), AllocError>
    ensures { OnOk result (cells.new ≡ cells.old ++ pointer_cells_of (Some info.now) object.now pointer) }
{
    if info.card.is_many() {
        return Ok(());
    }
    match cell_type(&info.body) {
        Some(_) => {
            cells.push(single_cell(alloc, &info.body, object, pointer)?)?;
            let target = first_target(object.targets(pointer));
            add_property_cells(alloc, target, info.link_props.as_slice(), cells)
        }
        None => Ok(()),
    }
}

/// The row of an object in the table of a type with these pointers.
pub fn type_row(
    alloc: Global,
    schema: &Schema,
    listed: &[PtrId],
    object: &Object,
) -> Result<Row, AllocError>
    ensures { IfOk result (λ r. r ≡ type_row_of schema.now listed.now object.now) }
{
    let pointers = schema.pointers();
    let mut cells = List::new(alloc);
    cells.push(Cell::Val(Val::Id(object.id)))?;
    for pointer in listed {
        if let Some(info) = at(pointers, pointer.0 as usize) {
            add_pointer_cells(alloc, info, object, *pointer, &mut cells)?;
        }
    }
    Shared::new(alloc, cells)
}

/// Puts a row for each target of a link behind other rows.
pub fn add_target_rows(
    alloc: Global,
    info: &PtrInfo,
    object: &Object,
    targets: &[Target],
    rows: &mut Rows,
) -> Result<(), AllocError>
    ensures { OnOk result (rows.new ≡ rows.old ++ target_rows_of info.now object.now targets.now) }
{
    for target in targets {
        let mut cells = List::new(alloc);
        cells.push(Cell::Val(Val::Id(object.id)))?;
        cells.push(Cell::Val(Val::Id(target.id)))?;
        add_property_cells(alloc, Some(target), info.link_props.as_slice(), &mut cells)?;
        rows.push(Shared::new(alloc, cells)?)?;
    }
    Ok(())
}

/// Puts a row for each value of a property behind other rows.
pub fn add_value_rows(
    alloc: Global,
    info: &PtrInfo,
    object: &Object,
    values: &[Val],
    rows: &mut Rows,
) -> Result<(), AllocError>
    ensures { OnOk result (rows.new ≡ rows.old ++ value_rows_of info.now object.now values.now) }
{
    for value in values {
        let mut cells = List::new(alloc);
        cells.push(Cell::Val(Val::Id(object.id)))?;
        cells.push(Cell::Val(value.copied(alloc)?))?;
        add_property_cells(alloc, None, info.link_props.as_slice(), &mut cells)?;
        rows.push(Shared::new(alloc, cells)?)?;
    }
    Ok(())
}
