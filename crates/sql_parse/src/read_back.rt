//! The law of printing and reading.
ghost use Rattle.std.specs.Prelude.{◌≤◌};
ghost use Rattle.sql_ast.specs.declared.catalog.Catalog.{Catalog};
ghost use Rattle.sql_ast.specs.declared.select.Stmt.{Stmt};
ghost use Rattle.sql_ast.specs.declared.select.TheConstants.{MAX_NESTING};
ghost use Rattle.sql_ast.specs.Nesting.{nesting};
ghost use Rattle.sql_ast.specs.WellFormed.{IsWellFormed};
ghost use Rattle.sql_print.specs.Layout.{text_of};
ghost use Rattle.sql_print.specs.Lists.{tokens_of};
ghost use Rattle.sql_print.specs.Promise.{AreWritable};
ghost use Rattle.sql_spell.specs.Form.{StatementHasForm};
ghost use Rattle.sql_spell.specs.Machine.{StatementFits};
ghost use Rattle.sql_parse.specs.ReadBack.{IsReadBackAs};

/// What is printed of a well-formed statement, as the machine's types hold it, is read back as this statement.
pub fn printed_is_read_back()
    ensures { (catalog : Catalog) (s : Stmt) → IsWellFormed catalog s → StatementFits s → IsReadBackAs (text_of (tokens_of s)) s }
{}

/// The same of each statement that has a form of the grammar and is not nested too deep, whatever it names, if its names, numbers
/// and texts can be written.
pub fn printed_form_is_read_back()
    ensures { (s : Stmt) → StatementHasForm s → nesting s ≤ MAX_NESTING → AreWritable (tokens_of s) → IsReadBackAs (text_of (tokens_of s)) s }
{}
