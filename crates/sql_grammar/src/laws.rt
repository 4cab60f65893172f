//! Laws of the grammar.
ghost use Rattle.std.specs.Prelude.{◌≡◌, ℕ, List};
ghost use Rattle.sql_lex.specs.declared.token.Token.{Token};
ghost use Rattle.sql_grammar.specs.declared.grown.GrownSelect.{GrownSelect};
ghost use Rattle.sql_grammar.specs.Promise.{StatementText};

/// Each text spells at most one statement with its places, whatever limits it passes.
pub fn one_tree()
    ensures { (ts : List Token) (x y : GrownSelect) → StatementText 0 ts x → StatementText 0 ts y → x ≡ y }
{}
