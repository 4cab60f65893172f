//! Trees that were read, with their heights and with the bytes at which their parts begin. A height that is too high is not
//! counted further.

use ev_value::{List, Text};
use sql_ast::{Body, Column, Core, FromItem, Function, Key, Select, SqlExpr, SqlTy};

/// Where a part of a statement begins, and the places of its own parts in the order of the text.
#[derive(Drop)]
pub enum Places {
    At(u32, List<Places>),
}

/// A name, and its first byte.
#[derive(Drop)]
pub struct Name {
    pub text: Text,
    pub start: u32,
}

/// A function, and the first byte of its name.
#[derive(Clone, Copy, Debug, PartialEq, Eq)]
pub struct Called {
    pub function: Function,
    pub start: u32,
}

/// A type, and its height.
#[derive(Drop)]
pub struct GrownTy {
    pub ty: SqlTy,
    pub height: usize,
}

/// Types with commas between them, and the greatest of their heights.
#[derive(Drop)]
pub struct Types {
    pub items: List<SqlTy>,
    pub height: usize,
}

/// An expression. It begins at its own first token, and its text at the parentheses round it, if it has any.
#[derive(Drop)]
pub struct Grown {
    pub expr: SqlExpr,
    pub place: Places,
    pub start: u32,
    pub height: usize,
}

/// Expressions with commas between them, and the greatest of their heights.
#[derive(Drop)]
pub struct Bunch {
    pub items: List<SqlExpr>,
    pub places: List<Places>,
    pub height: usize,
}

/// A column of a core. It has the place of its name.
#[derive(Drop)]
pub struct GrownColumn {
    pub column: Column,
    pub place: Places,
    pub height: usize,
}

/// An item of `FROM`. It has the place of its alias.
#[derive(Drop)]
pub struct GrownItem {
    pub item: FromItem,
    pub place: Places,
    pub height: usize,
}

/// A key of an order. It has the place of its expression.
#[derive(Drop)]
pub struct GrownKey {
    pub key: Key,
    pub place: Places,
    pub height: usize,
}

/// A core as far as it was read, with the places of its columns, items and clauses, and the greatest of their heights.
#[derive(Drop)]
pub struct GrownCore {
    pub start: u32,
    pub distinct: bool,
    pub columns: List<Column>,
    pub body: Body,
    pub places: List<Places>,
    pub height: usize,
}

/// Cores with `UNION ALL` between them, and the greatest of their heights.
#[derive(Drop)]
pub struct Cores {
    pub start: u32,
    pub cores: List<Core>,
    pub places: List<Places>,
    pub height: usize,
}

/// A select, and its height.
#[derive(Drop)]
pub struct GrownSelect {
    pub select: Select,
    pub place: Places,
    pub height: usize,
}
