//! Separators: blanks and comments.
ghost use Rattle.std.specs.Prelude.{◌≡◌, ◌<◌, length};
ghost use Rattle.ev_lex.specs.Cut.{IsSeparatorLength};

use crate::byte::{Class, is_blank, run};

/// The length of the separator at the front, or 0 where none is there.
pub fn separator_len(bytes: &[u8]) -> usize
    requires { 0 < length bytes.now }
    ensures { IsSeparatorLength bytes.now result }
{
    if is_blank(bytes[0]) {
        1
    } else if bytes[0] == b'#' {
        run(Class::Line, bytes)
    } else {
        0
    }
}
