//! Rows as text: cells with a comma between them, rows with a semicolon behind each.

use crate::tests::Sample;
use crate::tests::bench::{Step, statement};
use crate::tests::world::{arguments, tables};
use crate::{ExecError, exec};
use ev_value::{Args, Val};
use sql_ast::Stmt;
use sql_table::{Cell, Row, Tables};
use std::alloc::{AllocError, Global};

fn add_value(alloc: Global, value: &Val, text: &mut String) -> Result<(), AllocError> {
    match value {
        Val::Int(number) => text.push_str(format!(in alloc; "{number}")?.as_str()),
        Val::Str(string) => text.push_str(string.as_str()),
        Val::Bool(truth) => text.push_str(format!(in alloc; "{truth}")?.as_str()),
        Val::Id(id) => text.push_str(format!(in alloc; "#{id}")?.as_str()),
        _ => text.push_str("?"),
    }
}

#[cycle(show)]
fn add_cell(cell: &Cell, alloc: Global, text: &mut String) -> Result<(), AllocError> {
    match cell {
        Cell::Null => text.push_str("null"),
        Cell::Val(value) => add_value(alloc, value, text),
        Cell::Row(cells) => {
            text.push_str("(")?;
            add_cells(cells.as_slice(), alloc, text)?;
            text.push_str(")")
        }
        Cell::Array(cells) => {
            text.push_str("[")?;
            add_cells(cells.as_slice(), alloc, text)?;
            text.push_str("]")
        }
    }
}

#[cycle(show)]
fn add_cells(cells: &[Cell], alloc: Global, text: &mut String) -> Result<(), AllocError> {
    for (i, cell) in cells.iter().enumerate() {
        if i > 0 {
            text.push_str(",")?;
        }
        add_cell(cell, alloc, text)?;
    }
    Ok(())
}

fn shown(alloc: Global, rows: &[Row]) -> Result<String, AllocError> {
    let mut text = String::new(alloc);
    for row in rows {
        add_cells(row.get().as_slice(), alloc, &mut text)?;
        text.push_str(";")?;
    }
    Ok(text)
}

fn run(
    alloc: Global,
    statement: &Stmt,
    tables: &Tables,
    args: &Args,
) -> Result<String, AllocError> {
    match exec(alloc, statement, tables, args) {
        Ok(rows) => shown(alloc, rows.as_slice()),
        Err(ExecError::Fault(fault)) => {
            let number = fault.number();
            format!(in alloc; "fault {number}")
        }
        Err(ExecError::Memory) => Err(AllocError),
    }
}

/// What the statement of the steps answers, as text.
fn answer(
    alloc: Global,
    tables: &Tables,
    args: &Args,
    steps: &[Step],
) -> Result<String, AllocError> {
    match statement(alloc, steps)? {
        Some(made) => run(alloc, &made, tables, args),
        None => String::from_str(alloc, "no statement"),
    }
}

fn first_wrong_over(
    alloc: Global,
    tables: &Tables,
    args: &Args,
    samples: &[Sample],
) -> Result<Option<usize>, AllocError> {
    for (i, sample) in samples.iter().enumerate() {
        let told = answer(alloc, tables, args, sample.steps)?;
        if told.as_str() != sample.answer {
            return Ok(Some(i));
        }
    }
    Ok(None)
}

/// The number of the first sample that answers otherwise.
pub fn first_wrong(alloc: Global, samples: &[Sample]) -> Result<Option<usize>, AllocError> {
    let args = arguments(alloc)?;
    match tables(alloc) {
        Ok(tables) => first_wrong_over(alloc, &tables, &args, samples),
        Err(error) => Err(error),
    }
}
