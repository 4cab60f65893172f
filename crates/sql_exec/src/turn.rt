//! Turns of FROM: scopes with one more row.
ghost use Rattle.std.specs.Prelude.{◌≡◌, IfOk};
ghost use Rattle.ev_value.specs.Item.{all_of};
ghost use Rattle.sql_table.specs.Meaning.{each_under, under as under_row};
ghost use Rattle.sql_exec.specs.Engine.{table_turns as table_turns_of};

use ev_value::{Item, List, Text};
use sql_table::{Frame, Row, Scope, Shared, Tables, column_names};
use std::alloc::{AllocError, Global};

/// A turn of FROM with the row that its columns give.
#[derive(Drop)]
pub(crate) struct Turn {
    pub scope: Shared<Scope>,
    pub row: Row,
}

fn frame(
    alloc: Global,
    alias: &Shared<Text>,
    columns: &Shared<List<Text>>,
    row: &Row,
) -> Result<Shared<Frame>, AllocError>
    ensures { IfOk result (λ f. f ≡ record { alias = alias.now; columns = columns.now; row = row.now }) }
{
    let alias = alias.share()?;
    let columns = columns.share()?;
    let row = row.share()?;
    Shared::new(
        alloc,
        Frame {
            alias,
            columns,
            row,
        },
    )
}

/// A scope of its own with the same rows.
pub(crate) fn shared_scope(
    alloc: Global,
    scope: &[Shared<Frame>],
) -> Result<Shared<Scope>, AllocError>
    ensures { IfOk result (λ s. s ≡ scope.now) }
{
    let mut frames = List::new(alloc);
    for frame in scope {
        frames.push(frame.share()?)?;
    }
    Shared::new(alloc, frames)
}

/// The scope with a row under an alias.
fn under(
    alloc: Global,
    alias: &Shared<Text>,
    columns: &Shared<List<Text>>,
    row: &Row,
    scope: &[Shared<Frame>],
) -> Result<Shared<Scope>, AllocError>
    ensures { IfOk result (λ s. s ≡ under_row alias.now columns.now scope.now row.now) }
{
    let mut frames = List::new(alloc);
    frames.push(frame(alloc, alias, columns, row)?)?;
    for outer in scope {
        frames.push(outer.share()?)?;
    }
    Shared::new(alloc, frames)
}

fn each_row(
    alloc: Global,
    alias: &Shared<Text>,
    columns: &Shared<List<Text>>,
    rows: &[Item<Row>],
    scope: &[Shared<Frame>],
) -> Result<List<Item<Shared<Scope>>>, AllocError>
    ensures { IfOk result (λ l. l ≡ each_under alias.now columns.now scope.now rows.now) }
{
    let mut turns = List::new(alloc);
    for item in rows {
        let turn = match item {
            Item::Value(row) => Item::Value(under(alloc, alias, columns, row, scope)?),
            Item::Fault(fault) => Item::Fault(*fault),
        };
        turns.push(turn)?;
    }
    Ok(turns)
}

/// The scopes of several rows, each under the alias.
pub(crate) fn turns_under(
    alloc: Global,
    alias: &Text,
    columns: List<Text>,
    rows: &[Item<Row>],
    scope: &[Shared<Frame>],
) -> Result<List<Item<Shared<Scope>>>, AllocError>
    ensures { IfOk result (λ l. l ≡ each_under alias.now columns scope.now rows.now) }
{
    let columns = Shared::new(alloc, columns)?;
    let alias = Shared::new(alloc, alias.copied(alloc)?)?;
    each_row(alloc, &alias, &columns, rows, scope)
}

/// The rows as items. They share their cells.
fn as_items(alloc: Global, rows: &[Row]) -> Result<List<Item<Row>>, AllocError>
    ensures { IfOk result (λ l. l ≡ all_of rows.now) }
{
    let mut items = List::new(alloc);
    for row in rows {
        items.push(Item::Value(row.share()?))?;
    }
    Ok(items)
}

/// The scopes of the rows of a table, each under the alias.
pub(crate) fn table_turns(
    alloc: Global,
    tables: &Tables,
    name: &Text,
    alias: &Text,
    scope: &[Shared<Frame>],
) -> Result<List<Item<Shared<Scope>>>, AllocError>
    ensures { IfOk result (λ l. l ≡ table_turns_of tables.now name.now alias.now scope.now) }
{
    match tables.table(name.as_str()) {
        None => Ok(List::new(alloc)),
        Some(table) => {
            let columns = column_names(alloc, table.shape)?;
            let rows = as_items(alloc, table.rows)?;
            turns_under(alloc, alias, columns, rows.as_slice(), scope)
        }
    }
}
