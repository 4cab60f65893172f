//! Laws of what is printed.
ghost use Rattle.std.specs.Prelude.{List};
ghost use Rattle.sql_lex.specs.declared.token.TokenKind.{TokenKind};
ghost use Rattle.sql_print.specs.Promise.{AreWritable, IsReadBack};

/// The text of tokens is cut into these tokens again, where each of them can be written.
pub fn text_is_read_back()
    ensures { (kinds : List TokenKind) → AreWritable kinds → IsReadBack kinds }
{}
