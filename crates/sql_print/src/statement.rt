//! Printing a statement.
ghost use Rattle.std.specs.Prelude.{◌≡◌, IfOk};
ghost use Rattle.sql_print.specs.Layout.{text_of};
ghost use Rattle.sql_print.specs.Lists.{tokens_of};

use crate::layout::text_of;
use crate::tokens::tokens_of;
use ev_value::Text;
use sql_ast::Stmt;
use std::alloc::{AllocError, Global};

/// The text of a statement: its tokens with keywords in capitals, and one pair of parentheses where the levels ask for it.
pub fn print(alloc: Global, statement: &Stmt) -> Result<Text, AllocError>
    ensures { IfOk result (λ text. text ≡ text_of (tokens_of statement.now)) }
{
    let tokens = tokens_of(alloc, statement.select.cores.as_slice())?;
    text_of(alloc, tokens.as_slice())
}
