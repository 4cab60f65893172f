//! Selects.

use crate::expression::SqlExpr;
use ev_list::Absent;
use ev_value::{Boxed, List, Text};

/// The greatest height of a statement's tree.
pub const MAX_NESTING: u32 = 800;

/// A statement.
#[derive(Drop)]
pub struct Stmt {
    pub select: Select,
}

/// Cores with `UNION ALL` between them. The columns have the names that the first core gives.
#[derive(Drop)]
#[cycle(sql)]
pub struct Select {
    pub cores: List<Core>,
}

/// One `SELECT` with its columns.
#[derive(Drop)]
#[cycle(sql)]
pub enum Core {
    /// `SELECT`
    All(List<Column>, Body),
    /// `SELECT DISTINCT`
    Distinct(List<Column>, Body),
}

/// `value AS name`
#[derive(Drop)]
#[cycle(sql)]
pub struct Column {
    pub value: SqlExpr,
    pub name: Text,
}

/// What stands behind the columns.
#[derive(Drop)]
#[cycle(sql)]
pub struct Body {
    pub from: List<FromItem>,
    pub condition: Option<Boxed<SqlExpr>>,
    pub keys: List<Key>,
    pub offset: Option<Boxed<SqlExpr>>,
    pub limit: Option<Boxed<SqlExpr>>,
}

/// What a row of `FROM` gets its next columns from, under the alias that stands last.
#[derive(Drop)]
#[cycle(sql)]
pub enum FromItem {
    /// `table AS alias`
    Table(Text, Text),
    /// `LATERAL (select) AS alias`
    Lateral(Select, Text),
    /// `LEFT JOIN LATERAL (select) AS alias ON TRUE`
    LeftLateral(Select, Text),
    /// `UNNEST(array) AS alias`
    Unnest(SqlExpr, Text),
}

/// A key of an order, and where it puts nulls.
#[derive(Drop)]
#[cycle(sql)]
pub enum Key {
    /// `value ASC`
    Ascending(SqlExpr, Absent),
    /// `value DESC`
    Descending(SqlExpr, Absent),
}
