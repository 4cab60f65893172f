//! Why a reader stopped.

ghost use Rattle.std.specs.Prelude.{◌≡◌};
ghost use Rattle.exact.specs.declared.rule.ReadError.TheVariants.{Memory, Refused};

use std::alloc::AllocError;

/// Why a text is refused at a token.
#[derive(Clone, Copy, Debug, PartialEq, Eq)]
pub enum Rule {
    /// No text of the language goes on with this token.
    Unexpected,
    /// The token fits the language, and passes a limit: it opens one part too many, or stands behind one that is too high.
    TooDeep,
}

/// What a reader answers in place of a value.
#[derive(Clone, Copy, Debug, PartialEq, Eq)]
pub enum ReadError {
    /// Memory ran out.
    Memory,
    /// The next token is refused.
    Refused(Rule),
}

impl From<AllocError> for ReadError {
    ghost from_gives = { λ _ e. e ≡ Memory };

    fn from(_e: AllocError) -> ReadError {
        ReadError::Memory
    }
}

impl From<Rule> for ReadError {
    ghost from_gives = { λ rule e. e ≡ Refused rule };

    fn from(rule: Rule) -> ReadError {
        ReadError::Refused(rule)
    }
}
