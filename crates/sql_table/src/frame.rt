//! What a name stands for.
ghost use Rattle.std.specs.Prelude.{◌≡◌, IfOk};
ghost use Rattle.sql_table.specs.Names.{cell_named as cell_named_in, column as column_in, entry as entry_in};

use crate::cell::{Cell, Row};
use crate::shared::Shared;
use ev_value::{Argument, List, Text};
use std::alloc::{AllocError, Global};

/// A row under an alias, with the names of its columns.
#[derive(Drop)]
pub struct Frame {
    pub alias: Shared<Text>,
    pub columns: Shared<List<Text>>,
    pub row: Row,
}

/// The rows that the aliases in scope stand for, the newest first. A row is shared, so that to make a scope larger
/// copies no cell.
pub type Scope = List<Shared<Frame>>;

/// The cell of the first column with a name; null where there is none.
fn cell_named(
    alloc: Global,
    name: &Text,
    names: &[Text],
    cells: &[Cell],
) -> Result<Cell, AllocError>
    ensures { IfOk result (λ c. c ≡ cell_named_in name.now names.now cells.now) }
{
    for (i, other) in names.iter().enumerate() {
        let Some(cell) = cells.get(i) else {
            return Ok(Cell::Null);
        };
        if other.as_str() == name.as_str() {
            return cell.copied(alloc);
        }
    }
    Ok(Cell::Null)
}

/// The cell of a column of the newest row under an alias; null where there is none.
pub fn column(
    alloc: Global,
    alias: &Text,
    name: &Text,
    scope: &[Shared<Frame>],
) -> Result<Cell, AllocError>
    ensures { IfOk result (λ c. c ≡ column_in alias.now name.now scope.now) }
{
    for shared in scope {
        let frame = shared.get();
        if frame.alias.get().as_str() == alias.as_str() {
            return cell_named(
                alloc,
                name,
                frame.columns.get().as_slice(),
                frame.row.get().as_slice(),
            );
        }
    }
    Ok(Cell::Null)
}

/// The value of the first entry with a name; null where there is none.
pub fn entry(alloc: Global, name: &Text, entries: &[Argument]) -> Result<Cell, AllocError>
    ensures { IfOk result (λ c. c ≡ entry_in name.now entries.now) }
{
    for entry in entries {
        if entry.name.as_str() == name.as_str() {
            return Ok(Cell::Val(entry.value.copied(alloc)?));
        }
    }
    Ok(Cell::Null)
}
