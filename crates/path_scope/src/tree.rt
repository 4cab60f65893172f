//! The scopes of a query, one inside the other.

use crate::prefix::Prefix;
use ev_value::List;

/// A scope with what it binds and the scopes directly inside it.
#[derive(Drop)]
pub struct ScopeTree {
    /// The first byte of the scope's text.
    pub start: u32,
    pub prefixes: List<Prefix>,
    /// In the order of their first bytes.
    pub inner: List<ScopeTree>,
}
