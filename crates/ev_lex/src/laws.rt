//! Laws of the reading of a text.
ghost use Rattle.std.specs.Prelude.{◌≡◌, ℕ, List};
ghost use Rattle.ev_lex.specs.Reading.{IsCut, IsRefused, IsRead};
ghost use Rattle.ev_lex.specs.declared.token.Token.{Token};

/// A text is cut into at most one list of tokens, or refused at one byte, and not both.
pub fn one_reading()
    ensures tokens { (text : List ℕ) (ts us : List Token) → IsCut text ts → IsCut text us → ts ≡ us }
    ensures byte { (text : List ℕ) (k m : ℕ) → IsRefused text k → IsRefused text m → k ≡ m }
    ensures apart { (text : List ℕ) (ts : List Token) (k : ℕ) → IsCut text ts → IsRefused text k → ⊥ }
{}

/// Each text is cut into tokens or refused at a byte: there is no third way.
pub fn each_reading()
    ensures { (text : List ℕ) → IsRead text }
{}
