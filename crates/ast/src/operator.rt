//! Operators, as the EdgeDB documentation's page on operators names them.

/// An operator between two operands, the loosest first.
#[derive(Clone, Copy, Debug, PartialEq, Eq)]
pub enum BinaryOperator {
    Union,
    Intersect,
    Except,
    Or,
    And,
    Equal,
    NotEqual,
    /// `?=`
    OptionalEqual,
    /// `?!=`
    OptionalNotEqual,
    Less,
    LessOrEqual,
    Greater,
    GreaterOrEqual,
    Like,
    Ilike,
    In,
    NotIn,
    Add,
    Subtract,
    Concat,
    Multiply,
    /// `//`
    FloorDivide,
    Remainder,
    /// `??`
    Coalesce,
}

/// An operator before its operand.
#[derive(Clone, Copy, Debug, PartialEq, Eq)]
pub enum UnaryOperator {
    Not,
    Negate,
    /// `+`
    Keep,
    Distinct,
    Exists,
}
