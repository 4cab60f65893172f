//! What fails at a pointer.

use core_ir::PtrId;
use db_draft::Rule;

/// A rule that fails in an object, and the object that is a target twice, by its place in the document.
#[derive(Clone, Copy)]
pub struct Flaw {
    pub rule: Rule,
    pub other: Option<u32>,
}

/// A pointer at which a rule fails.
#[derive(Clone, Copy)]
pub struct Flawed {
    pub pointer: PtrId,
    pub flaw: Flaw,
}
