//! The text of a statement, read over a catalog.
ghost use Rattle.std.specs.Prelude.{◌≡◌, ◌<◌, ◌-◌, ◌^◌, length, IfOk};
ghost use Rattle.sql_ast.specs.WellFormed.{IsWellFormed};
ghost use Rattle.sql_parse.specs.Promise.{Holds, IsAccepted, IsAnswered, IsChecked, IsReadBack, IsTyped, statement_of};

use sql_ast::{Catalog, Stmt};
use sql_check::{failing_name, failing_type};
use sql_grammar::{GrownSelect, Places};
use sql_read::{TextRefusal, read_text};
use std::alloc::Global;

/// Why a text is no statement over a catalog.
#[derive(Clone, Copy, Debug, PartialEq, Eq)]
pub enum SqlRefusal {
    /// It has no derivation, passes 800 nodes above each other, or has more than 1,600 open parts.
    Q1,
    /// A table, a column, an alias or a global is unknown, or an alias or a column's name stands twice in one core.
    Q2 { byte: u32 },
    /// The types of an expression's parts do not suit.
    Q3 { byte: u32 },
    /// Want of memory, which may come anywhere.
    Memory,
}

/// The statement, where no expression of it fails by its types.
fn typed(
    alloc: Global,
    catalog: &Catalog,
    statement: Stmt,
    place: &Places,
) -> Result<Stmt, SqlRefusal>
    ensures { IsTyped catalog.now statement place.now result }
{
    match failing_type(alloc, catalog, &statement, place) {
        Ok(Some(byte)) => Err(SqlRefusal::Q3 { byte }),
        Ok(None) => Ok(statement),
        Err(_) => Err(SqlRefusal::Memory),
    }
}

/// The statement, where no name of it fails, and no type.
fn checked(
    alloc: Global,
    catalog: &Catalog,
    statement: Stmt,
    place: &Places,
) -> Result<Stmt, SqlRefusal>
    ensures { IsChecked catalog.now statement place.now result }
{
    match failing_name(alloc, catalog, &statement, place) {
        Ok(Some(byte)) => Err(SqlRefusal::Q2 { byte }),
        Ok(None) => typed(alloc, catalog, statement, place),
        Err(_) => Err(SqlRefusal::Memory),
    }
}

/// The statement of a tree that was read, where no name of it fails, and no type.
fn of_tree(alloc: Global, catalog: &Catalog, tree: GrownSelect) -> Result<Stmt, SqlRefusal>
    ensures { IsChecked catalog.now (statement_of tree) tree.place result }
{
    let GrownSelect {
        select,
        place,
        height: _,
    } = tree;
    checked(alloc, catalog, Stmt { select }, &place)
}

/// The statement that a text spells over a catalog, where no name and no type of it fails. Names are told before types, each at
/// its first byte.
pub fn parse_sql(alloc: Global, text: &[u8], catalog: &Catalog) -> Result<Stmt, SqlRefusal>
    requires { length text.now < 2 ^ 32 - 1 }
    ensures holds { Holds text.now catalog.now result }
    ensures answered { IsAnswered text.now catalog.now result }
    // What is answered is well formed over the catalog, and a well-formed statement that the text spells is answered.
    ensures formed { IfOk result (λ s. IsWellFormed catalog.now s) }
    ensures accepted { IsAccepted text.now catalog.now result }
    // A well-formed statement is read back from its printed text.
    ensures printed { IsReadBack text.now catalog.now result }
{
    match read_text(alloc, text) {
        Ok(tree) => of_tree(alloc, catalog, tree),
        Err(TextRefusal::Q1) => Err(SqlRefusal::Q1),
        Err(TextRefusal::Memory) => Err(SqlRefusal::Memory),
    }
}
