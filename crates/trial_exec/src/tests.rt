//! Statements over the tables of a small schema and its objects, each read from its text.

use db_load::load;
use ev_lex::{Tokens, lex};
use ev_schema::Schema;
use ev_value::{Args, List, Val};
use schema_build::build;
use sdl_parse::parse_schema;
use sql_ast::Stmt;
use sql_encode::encode;
use sql_exec::{ExecError, exec};
use sql_parse::{SqlRefusal, parse_sql};
use sql_table::{Cell, Row, Tables};
use std::alloc::{AllocError, Global};
use std::test::Fail;

static SCHEMA: &str =
    "abstract type Named { required name: str { constraint exclusive; } }\ntype User extending Named { age: int64; multi friends: User { strength: int64; } }\ntype Post { required title: str; required author: User; multi tags: str; }\n";

static DATA: &str =
    r#"{"format":1,"objects":[{"id":"00000000-0000-0000-0000-000000000004","type":"Post","title":"A","author":"00000000-0000-0000-0000-000000000001","tags":["x","y"]},{"id":"00000000-0000-0000-0000-000000000001","type":"User","name":"Ann","age":30,"friends":[{"id":"00000000-0000-0000-0000-000000000002","@strength":5}]},{"id":"00000000-0000-0000-0000-000000000003","type":"User","name":"Cid","age":7},{"id":"00000000-0000-0000-0000-000000000002","type":"User","name":"Bob","friends":["00000000-0000-0000-0000-000000000003",{"id":"00000000-0000-0000-0000-000000000001","@strength":1}]}]}"#;

/// Statements, with their rows as text or the rule that refuses them.
static ROWS: [(&str, &str); 10] = [
    (
        r#"SELECT "t"."name" AS "n", "t"."age" AS "a" FROM "User" AS "t""#,
        "Ann,30;Bob,null;Cid,7;",
    ),
    (
        r#"SELECT "t"."id" AS "i", "t"."name" AS "n" FROM "Named" AS "t""#,
        "#1,Ann;#2,Bob;#3,Cid;",
    ),
    (
        r#"SELECT "t"."id" AS "i", "t"."author" AS "a", "t"."title" AS "t" FROM "Post" AS "t""#,
        "#4,#1,A;",
    ),
    (
        r#"SELECT "f"."source" AS "s", "f"."target" AS "t", "f"."@strength" AS "w" FROM "User.friends" AS "f""#,
        "#1,#2,5;#2,#1,1;#2,#3,null;",
    ),
    (
        r#"SELECT "g"."source" AS "s", "g"."target" AS "t" FROM "Post.tags" AS "g""#,
        "#4,x;#4,y;",
    ),
    (
        r#"SELECT "t"."name" AS "n" FROM "User" AS "t" WHERE "t"."age" > 10"#,
        "Ann;",
    ),
    (
        r#"SELECT "t"."name" AS "n", ARRAY(SELECT "f"."target" AS "t" FROM "User.friends" AS "f" WHERE "f"."source" = "t"."id") AS "f" FROM "User" AS "t""#,
        "Ann,[#2];Bob,[#1,#3];Cid,[];",
    ),
    (r#"SELECT "t"."none" AS "n" FROM "User" AS "t""#, "Q2 7"),
    (r#"SELECT "t"."name" + 1 AS "n" FROM "User" AS "t""#, "Q3 7"),
    (r#"SELECT "t"."name" FROM "User" AS "t""#, "Q1"),
];

fn schema_from(alloc: Global, tokens: &Tokens) -> Option<Schema> {
    if tokens.len() > 10000 {
        return None;
    }
    match parse_schema(alloc, tokens) {
        Ok(file) => build(alloc, file).ok(),
        Err(_) => None,
    }
}

fn schema_in(alloc: Global, text: &str) -> Option<Schema> {
    if text.len() > 10000 {
        return None;
    }
    match lex(alloc, text.as_bytes()) {
        Ok(tokens) => schema_from(alloc, &tokens),
        Err(_) => None,
    }
}

/// The tables of the objects that a text writes.
fn tables_in(alloc: Global, schema: &Schema, text: &str) -> Option<Tables> {
    if schema.types().len() > 10000
        || schema.pointers().is_empty()
        || schema.pointers().len() > 10000
    {
        return None;
    }
    match load(alloc, schema, text.as_bytes()) {
        Ok(store) => encode(alloc, schema, store.objects()).ok(),
        Err(_) => None,
    }
}

fn add_value(alloc: Global, value: &Val, text: &mut String) -> Result<(), AllocError> {
    match value {
        Val::Int(number) => text.push_str(format!(in alloc; "{number}")?.as_str()),
        Val::Str(string) => text.push_str(string.as_str()),
        Val::Id(id) => text.push_str(format!(in alloc; "#{id}")?.as_str()),
        _ => text.push_str("?"),
    }
}

fn add_element(alloc: Global, cell: &Cell, text: &mut String) -> Result<(), AllocError> {
    match cell {
        Cell::Null => text.push_str("null"),
        Cell::Val(value) => add_value(alloc, value, text),
        Cell::Row(_) | Cell::Array(_) => text.push_str("?"),
    }
}

/// Elements with a comma between them. A row of one cell is told as that cell.
fn add_elements(alloc: Global, cells: &[Cell], text: &mut String) -> Result<(), AllocError> {
    for (i, cell) in cells.iter().enumerate() {
        if i > 0 {
            text.push_str(",")?;
        }
        match cell {
            Cell::Row(parts) => match parts.as_slice() {
                [part] => add_element(alloc, part, text)?,
                _ => text.push_str("?")?,
            },
            _ => add_element(alloc, cell, text)?,
        }
    }
    Ok(())
}

fn add_cells(alloc: Global, cells: &[Cell], text: &mut String) -> Result<(), AllocError> {
    for (i, cell) in cells.iter().enumerate() {
        if i > 0 {
            text.push_str(",")?;
        }
        match cell {
            Cell::Array(elements) => {
                text.push_str("[")?;
                add_elements(alloc, elements.as_slice(), text)?;
                text.push_str("]")?;
            }
            _ => add_element(alloc, cell, text)?,
        }
    }
    Ok(())
}

/// Rows as text: cells with a comma between them, a semicolon behind each row.
fn shown(alloc: Global, rows: &[Row]) -> Result<String, AllocError> {
    let mut text = String::new(alloc);
    for row in rows {
        add_cells(alloc, row.get().as_slice(), &mut text)?;
        text.push_str(";")?;
    }
    Ok(text)
}

fn run(alloc: Global, statement: &Stmt, tables: &Tables) -> Result<String, AllocError> {
    let args = Args {
        globals: List::new(alloc),
        params: List::new(alloc),
    };
    match exec(alloc, statement, tables, &args) {
        Ok(rows) => shown(alloc, rows.as_slice()),
        Err(ExecError::Fault(_)) => String::from_str(alloc, "fault"),
        Err(ExecError::Memory) => Err(AllocError),
    }
}

/// What a text answers over the tables.
fn answer(alloc: Global, tables: &Tables, text: &str) -> Result<String, AllocError> {
    if text.len() > 10000 {
        return Err(AllocError);
    }
    match parse_sql(alloc, text.as_bytes(), tables.catalog()) {
        Ok(statement) => run(alloc, &statement, tables),
        Err(SqlRefusal::Q1) => String::from_str(alloc, "Q1"),
        Err(SqlRefusal::Q2 { byte }) => format!(in alloc; "Q2 {byte}"),
        Err(SqlRefusal::Q3 { byte }) => format!(in alloc; "Q3 {byte}"),
        Err(SqlRefusal::Memory) => Err(AllocError),
    }
}

/// The first row that answers something else, and how many rows there are where none does.
fn first_other(alloc: Global, tables: &Tables) -> usize {
    for (i, (text, due)) in ROWS.iter().enumerate() {
        match answer(alloc, tables, text) {
            Ok(found) if found.as_str() == *due => {}
            _ => return i,
        }
    }
    ROWS.len()
}

#[test]
fn statements_are_answered_over_encoded_objects(rt: HostRuntime) -> Result<(), Fail> {
    let alloc = rt.alloc();
    let schema = schema_in(alloc, SCHEMA).ok_or("there is no schema")?;
    let tables = tables_in(alloc, &schema, DATA).ok_or("there are no tables")?;
    assert_eq!(rt; first_other(alloc, &tables), ROWS.len());
    Ok(())
}
