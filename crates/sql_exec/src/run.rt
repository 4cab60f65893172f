//! The public call.
ghost use Rattle.std.specs.Prelude.{◌≡◌};
ghost use Rattle.sql_table.specs.Forms.{rows_of_statement};
ghost use Rattle.sql_table.specs.Names.{World};
ghost use Rattle.sql_exec.specs.Answer.{Answers};

use crate::engine::Engine;
use ev_list::{first_fault, values};
use ev_value::{Args, Fault, List};
use sql_ast::Stmt;
use sql_table::{Rows, Tables};
use std::alloc::{AllocError, Global};

/// Why a statement gave no rows.
#[derive(Clone, Copy)]
pub enum ExecError {
    /// A fault that stands among the rows.
    Fault(Fault),
    Memory,
}

impl From<AllocError> for ExecError {
    ghost use Rattle.sql_exec.specs.declared.run.ExecError.TheVariants as exec_error;

    ghost from_gives = { λ _ e. e ≡ exec_error.Memory };

    fn from(_: AllocError) -> ExecError {
        ExecError::Memory
    }
}

/// Runs a statement: all its rows, where no fault stands among them, and else the first fault.
pub fn exec(
    alloc: Global,
    statement: &Stmt,
    tables: &Tables,
    args: &Args,
) -> Result<Rows, ExecError>
    ensures { Answers result (rows_of_statement (record { tables = tables.now; args = args.now }) statement.now) }
{
    let scope = List::new(alloc);
    let engine = Engine {
        alloc,
        tables,
        args,
    };
    let rows = engine.rows(statement.select.cores.as_slice(), scope.as_slice())?;
    match first_fault(rows.as_slice()) {
        Some(fault) => Err(ExecError::Fault(fault)),
        None => Ok(values(alloc, rows)?),
    }
}
