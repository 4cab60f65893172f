//! Words: keywords and names.
ghost use Rattle.std.specs.Prelude.{◌≡◌, true, IfOk};
ghost use Rattle.ev_lex.specs.Byte.{begins_word, goes_on};
ghost use Rattle.ev_lex.specs.Cut.{IsToken};

use crate::byte::{Class, ascii, run};
use crate::token::{Cut, TokenKind};
use ev_value::Text;
use std::alloc::{AllocError, Global};

/// The word at the front.
pub fn word(alloc: Global, bytes: &[u8]) -> Result<Cut, AllocError>
    requires { goes_on begins_word bytes.now ≡ true }
    ensures { IfOk result (IsToken bytes.now) }
{
    let len = run(Class::Word, bytes);
    let text = Text::from_str(alloc, ascii(&bytes[..len]))?;
    Ok(Cut {
        kind: TokenKind::Word(text),
        len,
    })
}
