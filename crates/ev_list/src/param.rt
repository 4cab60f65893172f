//! Parameters.

use ev_value::{ScalarTy, Text};

/// A parameter of a query or a statement, with the type of its argument.
#[derive(Drop)]
pub struct Param {
    pub name: Text,
    pub ty: ScalarTy,
    /// Whether the argument may be absent.
    pub optional: bool,
}
