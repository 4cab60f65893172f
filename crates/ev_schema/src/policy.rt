//! Rules on which objects a caller sees (the EdgeDB documentation's page on access policies).

use core_ir::TypeId;
use ev_value::{List, Text};

/// What a rule speaks of. `all` stands for all five, `update` for both of its own.
#[derive(Clone, Copy, Debug, PartialEq, Eq)]
pub enum PolicyKind {
    Select,
    Insert,
    UpdateRead,
    UpdateWrite,
    Delete,
}

/// A rule of a type, which holds for the types that extend it too. Its condition, a truth about an object, stands in the
/// schema by the place of the rule.
#[derive(Drop)]
pub struct Policy {
    /// The type that declares it.
    pub origin: TypeId,
    pub name: Text,
    /// Whether it shows objects or hides them.
    pub allow: bool,
    pub kinds: List<PolicyKind>,
}
