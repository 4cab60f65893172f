//! What names stand for.
ghost use Rattle.std.specs.Prelude.{◌≡◌, None};
ghost use Rattle.sql_ast.specs.WellFormed.{alias_of, columns_under, type_under};
ghost use Rattle.sql_check.specs.Frames.{entries};
ghost use Rattle.sql_check.specs.NameLists.{column_names, first_gives, newest as newest_of};
ghost use Rattle.sql_check.specs.Names as names;

use ev_value::Text;
use sql_ast::{Catalog, Column, Core, FromItem, TableShape, Typed};

/// The items whose aliases are in scope: those of a core, inside those of the cores round it.
#[derive(Clone, Copy)]
pub enum Frames<'a> {
    Top,
    Items(&'a Frames<'a>, &'a [FromItem]),
}

/// The alias of an item.
pub fn alias(item: &FromItem) -> &Text
    ensures { result.now ≡ alias_of item.now }
{
    match item {
        FromItem::Table(_, alias) => alias,
        FromItem::Lateral(_, alias) => alias,
        FromItem::LeftLateral(_, alias) => alias,
        FromItem::Unnest(_, alias) => alias,
    }
}

/// Whether one of the entries has the name.
pub fn is_entry(name: &Text, entries: &[Typed]) -> bool
    ensures { result ≡ names.is_there (type_under name.now entries.now) }
{
    for entry in entries {
        if entry.name.as_str() == name.as_str() {
            return true;
        }
    }
    false
}

/// Whether there is a table of the name.
pub fn is_table(name: &Text, tables: &[TableShape]) -> bool
    ensures { result ≡ names.is_there (columns_under name.now tables.now) }
{
    for table in tables {
        if table.name.as_str() == name.as_str() {
            return true;
        }
    }
    false
}

/// Whether the table of a name has the column.
fn table_has(name: &Text, column: &Text, tables: &[TableShape]) -> bool
    ensures { result ≡ names.is_listed column.now (columns_under name.now tables.now) }
{
    for table in tables {
        if table.name.as_str() == name.as_str() {
            return is_entry(column, table.columns.as_slice());
        }
    }
    false
}

/// Whether one of the columns has the name.
pub fn is_given(name: &Text, columns: &[Column]) -> bool
    ensures { result ≡ names.is_among name.now (column_names columns.now) }
{
    for column in columns {
        if column.name.as_str() == name.as_str() {
            return true;
        }
    }
    false
}

/// Whether one of the items has the alias.
pub fn has_alias(name: &Text, items: &[FromItem]) -> bool
    ensures { result ≡ names.has_alias name.now items.now }
{
    for item in items {
        if alias(item).as_str() == name.as_str() {
            return true;
        }
    }
    false
}

/// Whether a core gives a column of the name.
#[tactic(auto, using(crate::proofs::NameForms::gives_all, crate::proofs::NameForms::gives_distinct))]
fn core_gives(name: &Text, core: &Core) -> bool
    ensures { result ≡ names.core_gives name.now core.now }
{
    match core {
        Core::All(columns, _) => is_given(name, columns.as_slice()),
        Core::Distinct(columns, _) => is_given(name, columns.as_slice()),
    }
}

/// Whether a select gives a column of the name: its columns have the names that its first core gives.
fn select_gives(name: &Text, cores: &[Core]) -> bool
    ensures { result ≡ first_gives name.now cores.now }
{
    match cores {
        [first, ..] => core_gives(name, first),
        [] => false,
    }
}

/// Whether an item has the column.
#[tactic(auto, using(crate::proofs::NameForms::table_column, crate::proofs::NameForms::lateral_column, crate::proofs::NameForms::left_column, crate::proofs::NameForms::element_column))]
fn has_column(catalog: &Catalog, name: &Text, item: &FromItem) -> bool
    ensures { result ≡ names.has_column catalog.now name.now item.now }
{
    match item {
        FromItem::Table(table, _) => table_has(table, name, catalog.tables.as_slice()),
        FromItem::Lateral(select, _) => select_gives(name, select.cores.as_slice()),
        FromItem::LeftLateral(select, _) => select_gives(name, select.cores.as_slice()),
        FromItem::Unnest(_, _) => "c1" == name.as_str(),
    }
}

/// The newest item under an alias.
fn newest<'a>(name: &Text, items: &'a [FromItem]) -> Option<&'a FromItem>
    ensures { names.now_of result ≡ newest_of name.now items.now None }
{
    let mut found = None;
    for item in items {
        if alias(item).as_str() == name.as_str() {
            found = Some(item);
        }
    }
    found
}

/// Whether the newest item in scope under an alias has the column.
#[tactic(auto, using(crate::proofs::NameForms::in_top, crate::proofs::NameForms::in_found))]
pub fn is_column(scope: &Frames<'_>, catalog: &Catalog, alias: &Text, name: &Text) -> bool
    ensures { result ≡ names.is_column catalog.now alias.now name.now (entries scope.now) }
{
    match scope {
        Frames::Top => false,
        Frames::Items(outer, items) => match newest(alias, items) {
            Some(item) => has_column(catalog, name, item),
            None => is_column(outer, catalog, alias, name),
        },
    }
}
