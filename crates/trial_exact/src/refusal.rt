//! Why a text was refused.

use exact::Rule;

/// Why a text was refused, and at which token. The end counts as a token.
#[derive(Clone, Copy, Debug, PartialEq, Eq)]
pub enum Refusal {
    /// Memory ran out.
    Memory,
    /// The token is refused by the rule.
    Syntax { rule: Rule, token: usize },
}
