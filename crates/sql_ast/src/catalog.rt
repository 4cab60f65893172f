//! The tables and globals that a statement is read over.

use crate::ty::SqlTy;
use ev_value::{List, Text};

/// What a statement may name.
#[derive(Drop)]
pub struct Catalog {
    pub tables: List<TableShape>,
    pub globals: List<Typed>,
}

/// A table: its name, and its columns in order.
#[derive(Drop)]
pub struct TableShape {
    pub name: Text,
    pub columns: List<Typed>,
}

/// A name with its type.
#[derive(Drop)]
pub struct Typed {
    pub name: Text,
    pub ty: SqlTy,
}
