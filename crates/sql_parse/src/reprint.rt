//! Reading and printing together.
ghost use Rattle.std.specs.Prelude.{◌<◌, ◌-◌, ◌^◌, length, IfOk};
ghost use Rattle.sql_parse.specs.ReadBack.{IsReprint};

use ev_value::Text;
use sql_ast::Stmt;
use sql_print::print;
use sql_read::{TextRefusal, read_text};
use std::alloc::Global;

/// The statement of the text as it is printed.
pub fn reprinted(alloc: Global, text: &[u8]) -> Result<Text, TextRefusal>
    requires { length text.now < 2 ^ 32 - 1 }
    ensures { IfOk result (IsReprint text.now) }
{
    let found = read_text(alloc, text)?;
    let statement = Stmt {
        select: found.select,
    };
    match print(alloc, &statement) {
        Ok(printed) => Ok(printed),
        Err(_) => Err(TextRefusal::Memory),
    }
}
