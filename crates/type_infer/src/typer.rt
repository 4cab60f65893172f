//! What typing works with.

use ev_index::Index;
use std::alloc::Global;

/// The schema, and where memory comes from.
#[derive(Clone, Copy)]
pub struct Typer<'a> {
    pub alloc: Global,
    pub index: &'a Index<'a>,
}
