//! Why arguments are refused.

use ev_value::Text;

/// A rule on arguments.
#[derive(Clone, Copy, Debug, PartialEq, Eq)]
pub enum ArgsRule {
    /// The text is JSON: an object with at most the keys `globals` and `params`, each an object.
    A1,
    /// A global is declared, and a parameter stands in the query.
    A2,
    /// A value is of the type.
    A3,
    /// A parameter that is not optional has a value.
    A4,
}

/// A rule that fails, and the name at which it does.
#[derive(Drop)]
pub struct BrokenArgs {
    pub rule: ArgsRule,
    /// Whether the name is that of a global.
    pub global: bool,
    /// None where the text as a whole fails.
    pub name: Option<Text>,
}

/// Why arguments are refused, if not for want of memory.
#[derive(Drop)]
pub enum ArgsRefusal {
    Rule(BrokenArgs),
    Memory,
}
