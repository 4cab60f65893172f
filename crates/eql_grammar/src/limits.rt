//! How much of a text may be open, and how high a tree may be.

/// How many brackets, prefixes and right operands may be open at once.
pub const MAX_OPEN: usize = 40;

/// How many nodes may stand one above the other.
pub const MAX_HEIGHT: usize = 60;
