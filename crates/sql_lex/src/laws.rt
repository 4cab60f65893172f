//! Laws of the reading of a text.
ghost use Rattle.std.specs.Prelude.{◌≡◌, ℕ, List};
ghost use Rattle.sql_lex.specs.Reading.{IsCut};
ghost use Rattle.sql_lex.specs.declared.token.Token.{Token};

/// A text is cut into at most one list of tokens.
pub fn one_reading()
    ensures { (text : List ℕ) (ts us : List Token) → IsCut text ts → IsCut text us → ts ≡ us }
{}
