//! Why a list of tokens is refused.
ghost use Rattle.std.specs.Prelude.{◌≡◌};
ghost use Rattle.eql_parse.specs.Promise.{refusal};

use exact::Rule;
use std::alloc::AllocError;
use thiserror::Error;

/// Why the tokens are refused. Tokens are numbered from 0, and the end counts as one.
#[derive(Clone, Copy, Debug, PartialEq, Eq, Error)]
pub enum SyntaxRefusal {
    /// No text of the grammar agrees with the tokens up to and including this one.
    #[error("syntax S2 token {token}")]
    S2 { token: u32 },
    /// A text of the grammar does, but this token opens one part too many, or stands behind a tree that is too high.
    #[error("syntax S3 token {token}")]
    S3 { token: u32 },
    /// Want of memory, which may come anywhere.
    #[error("memory")]
    Memory,
}

impl From<AllocError> for SyntaxRefusal {
    ghost use Rattle.std.specs.Prelude.{◌≡◌};
    ghost use Rattle.eql_parse.specs.declared.refusal.SyntaxRefusal.TheVariants as variant;

    ghost from_gives = { λ _ e. e ≡ variant.Memory };

    fn from(_: AllocError) -> SyntaxRefusal {
        SyntaxRefusal::Memory
    }
}

/// The refusal of the token by the rule.
pub fn refused_by(rule: Rule, token: u32) -> SyntaxRefusal
    ensures { result ≡ refusal rule token }
{
    match rule {
        Rule::Unexpected => SyntaxRefusal::S2 { token },
        Rule::TooDeep => SyntaxRefusal::S3 { token },
    }
}
