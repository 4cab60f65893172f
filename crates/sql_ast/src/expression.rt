//! Expressions.

use crate::select::Select;
use crate::ty::SqlTy;
use ev_value::{Boxed, List, Text};

/// An operator with one operand.
#[derive(Clone, Copy, Debug, PartialEq, Eq)]
pub enum UnaryOp {
    /// `-`
    Neg,
    /// `NOT`
    Not,
    /// `IS NULL`
    IsNull,
    /// `IS NOT NULL`
    IsNotNull,
}

/// An operator between two operands.
#[derive(Clone, Copy, Debug, PartialEq, Eq)]
pub enum BinaryOp {
    Or,
    And,
    /// `=`
    Eq,
    /// `<>`
    Ne,
    Lt,
    Le,
    Gt,
    Ge,
    Add,
    Sub,
    /// `||`
    Concat,
    Mul,
    /// `//`
    FloorDiv,
    /// `%`
    Mod,
}

/// A function of one operand.
#[derive(Clone, Copy, Debug, PartialEq, Eq)]
pub enum Function {
    Len,
    CountOf,
    SumOf,
    MinOf,
    MaxOf,
    AnyOf,
    AllOf,
    AssertSingle,
    AssertExists,
    AssertDistinct,
}

/// An expression, which gives one cell for a row. Parentheses round one are no part of the tree.
#[derive(Drop)]
#[cycle(sql)]
pub enum SqlExpr {
    /// A number that is not negative.
    Int(i64),
    Text(Text),
    Bool(bool),
    /// A uuid, as the number that its sixteen bytes write from the highest byte down.
    Uuid(u128),
    /// `NULL::ty`
    Null(SqlTy),
    /// `"alias"."column"`
    Column(Text, Text),
    /// `ARG('name', ty)`
    Arg(Text, SqlTy),
    /// `GLOBAL('name')`
    Global(Text),
    /// `ARRAY(select)`
    Array(Select),
    /// `ROW(first, ..)`
    Row(List<SqlExpr>),
    /// `PART(row, number)`; parts count from 1.
    Part(Boxed<SqlExpr>, i64),
    /// `CASE WHEN condition THEN value ELSE other END`
    Case(Case),
    /// `CAST(operand AS ty)`
    Cast(Boxed<SqlExpr>, SqlTy),
    Unary(UnaryOp, Boxed<SqlExpr>),
    Binary(Binary),
    Call(Function, Boxed<SqlExpr>),
}

/// An operator between two operands.
#[derive(Drop)]
#[cycle(sql)]
pub struct Binary {
    pub operator: BinaryOp,
    pub left: Boxed<SqlExpr>,
    pub right: Boxed<SqlExpr>,
}

/// A choice between two expressions by a third.
#[derive(Drop)]
#[cycle(sql)]
pub struct Case {
    pub condition: Boxed<SqlExpr>,
    pub value: Boxed<SqlExpr>,
    pub other: Boxed<SqlExpr>,
}
