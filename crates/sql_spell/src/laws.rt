//! Laws of what is printed and of the grammar.
ghost use Rattle.std.specs.Prelude.{◌≡◌, ◌≤◌, List};
ghost use Rattle.sql_ast.specs.declared.catalog.Catalog.{Catalog};
ghost use Rattle.sql_lex.specs.declared.token.Token.{Token};
ghost use Rattle.sql_ast.specs.declared.select.Stmt.{Stmt};
ghost use Rattle.sql_ast.specs.declared.select.TheConstants.{MAX_NESTING};
ghost use Rattle.sql_ast.specs.Nesting.{nesting};
ghost use Rattle.sql_ast.specs.WellFormed.{IsWellFormed};
ghost use Rattle.sql_print.specs.Lists.{tokens_of};
ghost use Rattle.sql_print.specs.Promise.{AreWritable};
ghost use Rattle.sql_spell.specs.Form.{StatementHasForm};
ghost use Rattle.sql_spell.specs.Machine.{StatementFits};
ghost use Rattle.sql_spell.specs.Promise.{kinds, SpellTheStatement};

/// Tokens as a statement is printed spell that statement, within the limits on open parts and on nesting, if it has a form of the
/// grammar and is not nested too deep.
pub fn printed_tokens_spell()
    ensures { (s : Stmt) → StatementHasForm s → nesting s ≤ MAX_NESTING → (ts : List Token) → kinds ts ≡ tokens_of s → SpellTheStatement ts s }
{}

/// A well-formed statement, as the machine's types hold it, has a form of the grammar, and each of its tokens can be written.
pub fn well_formed_is_printable()
    ensures { (catalog : Catalog) (s : Stmt) → IsWellFormed catalog s → StatementFits s → StatementHasForm s × AreWritable (tokens_of s) }
{}
