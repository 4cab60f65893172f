//! Rows and their names, apart from expressions.
ghost use Rattle.std.specs.Prelude.{◌≡◌, [], ◌∷◌, IfOk, map};
ghost use Rattle.sql_table.specs.Forms.{names_of, names_of_cores, orders_of_keys};
ghost use Rattle.sql_table.specs.Meaning.{element_rows as element_rows_of, first_cell as first_cell_of, first_cells as first_cells_of, names_of_core, or_nulls as or_nulls_of, order_of};
ghost use Rattle.sql_table.specs.Outcome.{Gives};
ghost use Rattle.sql_exec.specs.Engine.{nulls, cell_row};

use ev_list::{Direction, KeyOrder, one_item};
use ev_value::{Item, List, OpError, Text};
use sql_ast::{Column, Core, Key};
use sql_table::{Cell, Row, Shared, elements};
use std::alloc::{AllocError, Global};

/// The names of columns.
fn names(alloc: Global, columns: &[Column]) -> Result<List<Text>, AllocError>
    ensures { IfOk result (λ l. l ≡ names_of columns.now) }
{
    let mut all = List::new(alloc);
    for column in columns {
        all.push(column.name.copied(alloc)?)?;
    }
    Ok(all)
}

#[tactic(auto, using(sql_table::proofs::Equations::names_all, sql_table::proofs::Equations::names_distinct))]
fn core_names(alloc: Global, core: &Core) -> Result<List<Text>, AllocError>
    ensures { IfOk result (λ l. l ≡ names_of_core core.now) }
{
    match core {
        Core::All(columns, _) => names(alloc, columns.as_slice()),
        Core::Distinct(columns, _) => names(alloc, columns.as_slice()),
    }
}

/// The names of the columns of a select: those of its first core.
pub(crate) fn select_names(alloc: Global, cores: &[Core]) -> Result<List<Text>, AllocError>
    ensures { IfOk result (λ l. l ≡ names_of_cores cores.now) }
{
    match cores {
        [] => Ok(List::new(alloc)),
        [first, ..] => core_names(alloc, first),
    }
}

/// A row of nulls, one for each column.
fn null_row(alloc: Global, columns: &[Text]) -> Result<Row, AllocError>
    ensures { IfOk result (λ row. row ≡ nulls columns.now) }
{
    let mut cells = List::new(alloc);
    for _ in columns {
        cells.push(Cell::Null)?;
    }
    Shared::new(alloc, cells)
}

/// The rows, or one row of nulls where there is neither a row nor a fault.
pub(crate) fn or_nulls(
    alloc: Global,
    columns: &[Text],
    rows: List<Item<Row>>,
) -> Result<List<Item<Row>>, AllocError>
    ensures { IfOk result (λ l. l ≡ or_nulls_of columns.now rows) }
{
    if rows.is_empty() {
        one_item(alloc, Item::Value(null_row(alloc, columns)?))
    } else {
        Ok(rows)
    }
}

/// A row of one cell.
fn single(alloc: Global, cell: Cell) -> Result<Row, AllocError>
    ensures { IfOk result (λ row. row ≡ cell ∷ []) }
{
    let mut cells = List::new(alloc);
    cells.push(cell)?;
    Shared::new(alloc, cells)
}

fn cell_rows(alloc: Global, cells: List<Cell>) -> Result<List<Item<Row>>, AllocError>
    ensures { IfOk result (λ l. l ≡ map cell_row cells) }
{
    let mut left = cells;
    let mut taken = Vec::new(alloc);
    while let Some(cell) = left.pop() {
        let row = single(alloc, cell)?;
        taken.push(Item::Value(row))?;
    }
    taken.reverse();
    Ok(List::from_vec(taken))
}

/// The elements of an array as rows of one cell; null has none.
#[tactic(auto, using(crate::proofs::Lists::cell_rows_are))]
pub(crate) fn element_rows(alloc: Global, array: Cell) -> Result<List<Item<Row>>, AllocError>
    ensures { IfOk result (λ l. l ≡ element_rows_of array) }
{
    match elements(array) {
        None => Ok(List::new(alloc)),
        Some(cells) => cell_rows(alloc, cells),
    }
}

fn first_cell(alloc: Global, cells: &[Cell]) -> Result<Cell, AllocError>
    ensures { IfOk result (λ c. c ≡ first_cell_of cells.now) }
{
    match cells {
        [] => Ok(Cell::Null),
        [first, ..] => first.copied(alloc),
    }
}

/// The first cells of the rows, or the first fault.
pub(crate) fn first_cells(alloc: Global, rows: &[Item<Row>]) -> Result<List<Cell>, OpError>
    ensures { Gives result (first_cells_of rows.now) }
{
    let mut cells = List::new(alloc);
    for item in rows {
        match item {
            Item::Value(row) => cells.push(first_cell(alloc, row.get().as_slice())?)?,
            Item::Fault(fault) => return Err(OpError::Fault(*fault)),
        }
    }
    Ok(cells)
}

#[tactic(auto, using(crate::proofs::Orders::of_ascending, crate::proofs::Orders::of_descending))]
fn key_order(key: &Key) -> KeyOrder
    ensures { result ≡ order_of key.now }
{
    match key {
        Key::Ascending(_, nulls) => KeyOrder {
            direction: Direction::Ascending,
            absent: *nulls,
        },
        Key::Descending(_, nulls) => KeyOrder {
            direction: Direction::Descending,
            absent: *nulls,
        },
    }
}

/// How each key orders.
pub(crate) fn orders(alloc: Global, keys: &[Key]) -> Result<List<KeyOrder>, AllocError>
    ensures { IfOk result (λ l. l ≡ orders_of_keys keys.now) }
{
    let mut all = List::new(alloc);
    for key in keys {
        all.push(key_order(key))?;
    }
    Ok(all)
}
