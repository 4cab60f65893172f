//! Words: the keywords of the grammar.
ghost use Rattle.std.specs.Prelude.{◌≡◌, true};
ghost use Rattle.sql_lex.specs.Byte.{begins_word, goes_on};
ghost use Rattle.sql_lex.specs.Cut.{IsFirstToken};

use crate::byte::{Class, run};
use crate::keyword::keyword_of;
use crate::token::{Cut, TokenKind};

/// The word at the front: a whole run of letters, digits and `_`, if it is a keyword.
pub fn word(bytes: &[u8]) -> Option<Cut>
    requires { goes_on begins_word bytes.now ≡ true }
    ensures { IsFirstToken bytes.now result }
{
    let len = run(Class::Word, bytes);
    match keyword_of(&bytes[..len]) {
        Some(keyword) => Some(Cut {
            kind: TokenKind::Word(keyword),
            len,
        }),
        None => None,
    }
}
