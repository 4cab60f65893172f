//! Statements over a small catalog, with the names and the types that fail in them. The bytes were counted by hand.

use crate::{SqlRefusal, parse_sql};
use ev_value::{List, ScalarTy, Text};
use sql_ast::{Catalog, SqlTy, TableShape, Typed};
use std::alloc::{AllocError, Global};
use std::test::Fail;

/// What comes of a text.
#[derive(Clone, Copy, Debug, PartialEq, Eq)]
enum Outcome {
    Statement,
    Q1,
    Q2(u32),
    Q3(u32),
    Memory,
}

fn typed(alloc: Global, name: &str, scalar: ScalarTy) -> Result<Typed, AllocError> {
    Ok(Typed {
        name: Text::from_str(alloc, name)?,
        ty: SqlTy::Scalar(scalar),
    })
}

/// The table `t` with the columns `x`, `s` and `u`, and the global `g`.
fn catalog(alloc: Global) -> Result<Catalog, AllocError> {
    let mut columns = List::new(alloc);
    columns.push(typed(alloc, "x", ScalarTy::Int64)?)?;
    columns.push(typed(alloc, "s", ScalarTy::Str)?)?;
    columns.push(typed(alloc, "u", ScalarTy::Uuid)?)?;
    let mut tables = List::new(alloc);
    tables.push(TableShape {
        name: Text::from_str(alloc, "t")?,
        columns,
    })?;
    let mut globals = List::new(alloc);
    globals.push(typed(alloc, "g", ScalarTy::Int64)?)?;
    Ok(Catalog { tables, globals })
}

fn told(alloc: Global, text: &str, catalog: &Catalog) -> Outcome {
    if text.len() > 10000 {
        return Outcome::Memory;
    }
    match parse_sql(alloc, text.as_bytes(), catalog) {
        Ok(_) => Outcome::Statement,
        Err(SqlRefusal::Q1) => Outcome::Q1,
        Err(SqlRefusal::Q2 { byte }) => Outcome::Q2(byte),
        Err(SqlRefusal::Q3 { byte }) => Outcome::Q3(byte),
        Err(SqlRefusal::Memory) => Outcome::Memory,
    }
}

static ROWS: [(&str, Outcome); 48] = [
    (
        "SELECT \"t\".\"x\" AS \"a\" FROM \"t\" AS \"t\"",
        Outcome::Statement,
    ),
    (
        "SELECT \"t\".\"y\" AS \"a\" FROM \"t\" AS \"t\"",
        Outcome::Q2(7),
    ),
    (
        "SELECT \"v\".\"x\" AS \"a\" FROM \"t\" AS \"t\"",
        Outcome::Q2(7),
    ),
    (
        "SELECT \"v\".\"x\" AS \"a\" FROM \"no\" AS \"v\"",
        Outcome::Q2(7),
    ),
    ("SELECT 1 AS \"a\" FROM \"no\" AS \"v\"", Outcome::Q2(21)),
    (
        "SELECT 1 AS \"a\" FROM \"t\" AS \"t\", \"t\" AS \"t\"",
        Outcome::Q2(40),
    ),
    ("SELECT 1 AS \"a\", 2 AS \"a\"", Outcome::Q2(22)),
    ("SELECT GLOBAL('h') AS \"a\"", Outcome::Q2(7)),
    ("SELECT GLOBAL('g') + 1 AS \"a\"", Outcome::Statement),
    (
        "SELECT 1 + 'a' AS \"a\", \"v\".\"x\" AS \"b\"",
        Outcome::Q2(23),
    ),
    ("SELECT 1 + 'a' AS \"a\"", Outcome::Q3(7)),
    ("SELECT -(1 + 'a') AS \"a\"", Outcome::Q3(9)),
    ("SELECT (1 + 2) + 'a' AS \"a\"", Outcome::Q3(7)),
    (
        "SELECT CASE WHEN 1 THEN 2 ELSE 'a' END AS \"a\"",
        Outcome::Q3(7),
    ),
    (
        "SELECT CASE WHEN 1 THEN 2 ELSE 3 END || 'a' AS \"a\"",
        Outcome::Q3(17),
    ),
    (
        "SELECT CASE WHEN TRUE THEN 2 ELSE 'a' END AS \"a\"",
        Outcome::Q3(7),
    ),
    (
        "SELECT ARRAY(SELECT 1 AS \"a\", 2 AS \"b\" UNION ALL SELECT 1 AS \"c\") AS \"a\"",
        Outcome::Q3(7),
    ),
    (
        "SELECT ARRAY(SELECT 1 AS \"a\" UNION ALL SELECT 'a' AS \"c\") AS \"a\"",
        Outcome::Q3(39),
    ),
    ("SELECT PART(ROW(1), 0) AS \"a\"", Outcome::Q3(7)),
    ("SELECT PART(ROW(1), 1) AS \"a\"", Outcome::Statement),
    (
        "SELECT ARG('p', INT) AS \"a\", ARG('p', TEXT) AS \"b\"",
        Outcome::Q3(29),
    ),
    ("SELECT ARG('p', ROW()) AS \"a\"", Outcome::Q3(7)),
    (
        "SELECT \"e\".\"c1\" AS \"a\" FROM UNNEST(ARRAY(SELECT 1 AS \"a\")) AS \"e\"",
        Outcome::Statement,
    ),
    (
        "SELECT \"e\".\"c1\" + 1 AS \"a\" FROM UNNEST(1) AS \"e\"",
        Outcome::Q3(39),
    ),
    (
        "SELECT 1 AS \"a\" FROM \"t\" AS \"t\" OFFSET \"t\".\"x\"",
        Outcome::Q2(39),
    ),
    ("SELECT 1 AS \"a\" LIMIT 'a'", Outcome::Q3(22)),
    ("SELECT 1 AS \"a\" WHERE 1", Outcome::Q3(22)),
    ("SELECT CAST('a' AS ARRAY(INT)) AS \"a\"", Outcome::Q3(7)),
    (
        "SELECT 1 AS \"a\" FROM LATERAL (SELECT \"t\".\"x\" AS \"b\" FROM \"t\" AS \"t\") AS \"l\", LATERAL (SELECT \"l\".\"b\" AS \"c\") AS \"m\"",
        Outcome::Statement,
    ),
    ("SELECT 1", Outcome::Q1),
    ("SELECT LEN(1) AS \"a\"", Outcome::Q3(7)),
    (
        "SELECT 1 AS \"a\" UNION ALL SELECT 1 AS \"b\", 2 AS \"c\"",
        Outcome::Q3(26),
    ),
    (
        "SELECT 1 AS \"a\" UNION ALL SELECT 1 + 'a' AS \"b\", 2 AS \"c\"",
        Outcome::Q3(26),
    ),
    (
        "SELECT 1 AS \"a\", 2 AS \"b\" UNION ALL SELECT 'x' AS \"a\", 1 + 'a' AS \"b\"",
        Outcome::Q3(36),
    ),
    (
        "SELECT ARRAY(SELECT 1 + 'a' AS \"a\", 2 AS \"b\") AS \"c\"",
        Outcome::Q3(7),
    ),
    (
        "SELECT \"l\".\"b\" || 'a' AS \"a\", ARG('p', ROW()) AS \"b\" FROM LATERAL (SELECT ARG('p', INT) AS \"b\") AS \"l\"",
        Outcome::Q3(30),
    ),
    (
        "SELECT SUM_OF(ARRAY(SELECT TRUE AS \"b\")) AS \"a\"",
        Outcome::Q3(7),
    ),
    (
        "SELECT MIN_OF(ARRAY(SELECT ROW() AS \"b\")) AS \"a\"",
        Outcome::Q3(7),
    ),
    (
        "SELECT ALL_OF(ARRAY(SELECT 1 AS \"b\")) AS \"a\"",
        Outcome::Q3(7),
    ),
    ("SELECT ASSERT_SINGLE(1) AS \"a\"", Outcome::Q3(7)),
    (
        "SELECT 1 AS \"a\" ORDER BY ROW() ASC NULLS FIRST",
        Outcome::Q3(25),
    ),
    ("SELECT TRUE = 1 AS \"a\"", Outcome::Q3(7)),
    ("SELECT ROW() = ROW() AS \"a\"", Outcome::Q3(7)),
    ("SELECT CAST(1 AS BOOL) AS \"a\"", Outcome::Q3(7)),
    (
        "SELECT CAST('a' AS BOOL) AS \"a\", CAST(1 AS TEXT) AS \"b\"",
        Outcome::Statement,
    ),
    (
        "SELECT NULL::ARRAY(INT) AS \"a\" UNION ALL SELECT ARRAY(SELECT \"t\".\"x\" AS \"b\" FROM \"t\" AS \"t\") AS \"c\"",
        Outcome::Statement,
    ),
    (
        "SELECT \"l\".\"no\" AS \"a\" FROM LATERAL (SELECT 1 AS \"b\") AS \"l\"",
        Outcome::Q2(7),
    ),
    (
        "SELECT 1 AS \"a\" FROM UNNEST(\"l\".\"c1\") AS \"e\", UNNEST(NULL::ARRAY(INT)) AS \"l\"",
        Outcome::Q2(28),
    ),
];

#[test]
fn each_text_gives_its_answer(rt: HostRuntime) -> Result<(), Fail> {
    let catalog = catalog(rt.alloc())?;
    for (text, outcome) in ROWS.iter() {
        assert_eq!(rt; told(rt.alloc(), text, &catalog), *outcome, "{text}");
    }
    Ok(())
}
