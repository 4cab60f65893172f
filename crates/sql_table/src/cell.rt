//! Cells and rows.
ghost use Rattle.std.specs.Prelude.{◌≡◌, [], ◌++◌, IfOk};
ghost use Rattle.std.specs.Cmp.Lexicographic.{pointwise};
ghost use Rattle.sql_table.specs.Same.{cell_same};

use crate::shared::Shared;
use ev_list::Same;
use ev_value::{List, Val};
use std::alloc::{AllocError, Global};

/// What stands in a column of a row, or is computed of it.
#[derive(Drop)]
pub enum Cell {
    /// Nothing: not known, or absent.
    Null,
    /// A number, a text, a bool or a uuid.
    Val(Val),
    Row(List<Cell>),
    Array(List<Cell>),
}

/// The cells of a row, in the order of its columns. A row has many owners, so that to hand one on copies no cell.
pub type Row = Shared<List<Cell>>;

/// Rows in their order.
pub type Rows = List<Row>;

impl Cell {
    /// The same cell, in memory of its own.
    #[cycle(copy)]
    pub fn copied(&self, alloc: Global) -> Result<Cell, AllocError>
        ensures { IfOk result (λ c. c ≡ self.now) }
    {
        match self {
            Cell::Null => Ok(Cell::Null),
            Cell::Val(value) => Ok(Cell::Val(value.copied(alloc)?)),
            Cell::Row(cells) => Ok(Cell::Row(copied_cells(alloc, cells.as_slice())?)),
            Cell::Array(cells) => Ok(Cell::Array(copied_cells(alloc, cells.as_slice())?)),
        }
    }
}

/// The same cells, in memory of their own.
#[cycle(copy)]
pub fn copied_cells(alloc: Global, cells: &[Cell]) -> Result<List<Cell>, AllocError>
    ensures { IfOk result (λ cs. cs ≡ cells.now) }
{
    let mut copies = List::new(alloc);
    for cell in cells {
        copies.push(cell.copied(alloc)?)?;
    }
    Ok(copies)
}
