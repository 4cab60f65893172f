//! How much of a text may be open, and how high a tree may be.

/// How many parentheses, `NOT`s, minus signs and `CASE`s may be open at once.
pub const MAX_OPEN: usize = 1600;

/// How many selects, expressions and types may stand one above the other.
pub const MAX_HEIGHT: usize = 800;
