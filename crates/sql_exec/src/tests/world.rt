//! The tables of three users, of their friends, of two posts and of their tags.

use ev_value::{Args, Argument, List, ScalarTy, Text, Val};
use sql_ast::{Catalog, SqlTy, TableShape, Typed};
use sql_table::{Cell, Row, Rows, Shared, Tables};
use std::alloc::{AllocError, Global};

/// A cell as it is written below.
#[derive(Clone, Copy)]
enum Datum {
    N,
    I(i64),
    T(&'static str),
    /// A uuid by its number.
    U(u128),
}

use Datum::{I, N, T, U};

/// A table: its name, the names of its columns, and its rows.
type Written = (
    &'static str,
    &'static [&'static str],
    &'static [&'static [Datum]],
);

const TABLES: [Written; 4] = [
    (
        "Post",
        &["id", "author", "title"],
        &[&[U(4), U(1), T("A")], &[U(5), U(1), T("B")]],
    ),
    (
        "Post.tags",
        &["source", "target"],
        &[&[U(4), T("x")], &[U(4), T("y")]],
    ),
    (
        "User",
        &["id", "age", "name"],
        &[
            &[U(1), I(30), T("Ann")],
            &[U(2), N, T("Bob")],
            &[U(3), I(7), T("Cid")],
        ],
    ),
    (
        "User.friends",
        &["source", "target", "@strength"],
        &[&[U(1), U(2), I(5)], &[U(2), U(1), I(1)], &[U(2), U(3), N]],
    ),
];

fn cell(alloc: Global, datum: Datum) -> Result<Cell, AllocError> {
    match datum {
        N => Ok(Cell::Null),
        I(number) => Ok(Cell::Val(Val::Int(number))),
        T(text) => Ok(Cell::Val(Val::Str(Text::from_str(alloc, text)?))),
        U(id) => Ok(Cell::Val(Val::Id(id))),
    }
}

fn row(alloc: Global, data: &[Datum]) -> Result<Row, AllocError> {
    let mut cells = List::new(alloc);
    for datum in data {
        cells.push(cell(alloc, *datum)?)?;
    }
    Shared::new(alloc, cells)
}

fn rows(alloc: Global, data: &[&[Datum]]) -> Result<Rows, AllocError> {
    let mut rows = List::new(alloc);
    for cells in data {
        rows.push(row(alloc, cells)?)?;
    }
    Ok(rows)
}

fn typed(alloc: Global, columns: &[&str]) -> Result<List<Typed>, AllocError> {
    let mut typed = List::new(alloc);
    for column in columns {
        let name = Text::from_str(alloc, column)?;
        typed.push(Typed {
            name,
            ty: SqlTy::Scalar(ScalarTy::Str),
        })?;
    }
    Ok(typed)
}

fn catalog(alloc: Global) -> Result<Catalog, AllocError> {
    let mut tables = List::new(alloc);
    for (name, columns, _) in &TABLES {
        let name = Text::from_str(alloc, name)?;
        let columns = typed(alloc, columns)?;
        tables.push(TableShape { name, columns })?;
    }
    Ok(Catalog {
        tables,
        globals: List::new(alloc),
    })
}

fn all_rows(alloc: Global) -> Result<List<Rows>, AllocError> {
    let mut all = List::new(alloc);
    for (_, _, data) in &TABLES {
        all.push(rows(alloc, data)?)?;
    }
    Ok(all)
}

pub fn tables(alloc: Global) -> Result<Tables, AllocError> {
    let rows = all_rows(alloc)?;
    Ok(Tables::new(catalog(alloc)?, rows))
}

/// One parameter: `x` is 10.
pub fn arguments(alloc: Global) -> Result<Args, AllocError> {
    let mut params = List::new(alloc);
    let name = Text::from_str(alloc, "x")?;
    params.push(Argument {
        name,
        value: Val::Int(10),
    })?;
    Ok(Args {
        globals: List::new(alloc),
        params,
    })
}
