//! What is asked of an expression.

use eql_sem::Formed;

/// A question about an expression.
#[derive(Drop)]
pub(crate) enum Task {
    /// Its items, as far as they go before the rows of its statement are known.
    Items,
    /// The values of a scope with it as its body.
    Scope,
    /// What becomes of an item of it once they are.
    Finish(Formed),
}
