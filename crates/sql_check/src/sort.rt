//! The columns that names stand for, with their types.

use ev_value::{List, Text};
use sql_ast::SqlTy;

/// A column; its type, where its expression has one.
#[derive(Drop)]
pub struct Sort {
    pub name: Text,
    pub ty: Option<SqlTy>,
}

/// The columns under an alias.
#[derive(Drop)]
pub struct Known {
    pub alias: Text,
    pub columns: List<Sort>,
}

/// The aliases in scope with their columns: those of a core's items, inside those of the cores round it.
#[derive(Clone, Copy)]
pub enum SortFrames<'a> {
    Top,
    Items(&'a SortFrames<'a>, &'a [Known]),
}
