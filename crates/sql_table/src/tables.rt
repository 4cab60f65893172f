//! Tables with their rows.
ghost use Rattle.std.specs.Prelude.{◌≡◌, IfOk};
ghost use Rattle.sql_table.specs.Names.{IsTable, AreRows, table_of, catalog_of, rows_of_tables, columns_of};

use crate::cell::{Row, Rows};
use ev_value::{List, Text};
use sql_ast::{Catalog, TableShape};
use std::alloc::{AllocError, Global};

/// The tables of a catalog: the rows of each, in the catalog's order.
#[derive(Drop)]
pub struct Tables {
    catalog: Catalog,
    rows: List<Rows>,
}

/// A table: what the catalog says of it, and its rows.
#[derive(Clone, Copy)]
pub struct Table<'a> {
    pub shape: &'a TableShape,
    pub rows: &'a [Row],
}

impl Tables {
    /// The tables of a catalog with these rows, by place. A table without rows in its place is not there.
    pub fn new(catalog: Catalog, rows: List<Rows>) -> Tables
        ensures catalog { catalog_of result ≡ catalog }
        ensures rows { rows_of_tables result ≡ rows }
    {
        Tables { catalog, rows }
    }

    pub fn catalog(&self) -> &Catalog
        ensures { result.now ≡ catalog_of self.now }
    {
        &self.catalog
    }

    /// The table with a name, if there is one.
    pub fn table(&self, name: &str) -> Option<Table<'_>>
        ensures { IsTable result (table_of name.now self.now) }
    {
        for (i, shape) in self.catalog.tables.as_slice().iter().enumerate() {
            let Some(rows) = self.rows.as_slice().get(i) else {
                return None;
            };
            if shape.name.as_str() == name {
                return Some(Table {
                    shape,
                    rows: rows.as_slice(),
                });
            }
        }
        None
    }

    /// The rows of the table with a name, if there is one.
    pub fn rows(&self, name: &str) -> Option<&[Row]>
        ensures { AreRows result (table_of name.now self.now) }
    {
        match self.table(name) {
            Some(table) => Some(table.rows),
            None => None,
        }
    }
}

/// The names of the columns of a table.
pub fn column_names(alloc: Global, shape: &TableShape) -> Result<List<Text>, AllocError>
    ensures { IfOk result (λ names. names ≡ columns_of shape.now) }
{
    let mut names = List::new(alloc);
    for column in shape.columns.as_slice() {
        names.push(column.name.copied(alloc)?)?;
    }
    Ok(names)
}
