//! The words and signs of operators, functions and types, and how tightly expressions bind.
ghost use Rattle.std.specs.Prelude.{◌≡◌};
ghost use Rattle.sql_print.specs.Marks.{mark_of, left_level, right_level, operand_level, level_of_unary, level_of_binary, level_of, is_loose, name_of_function, name_of_scalar, truth, name_of_absent};

use ev_list::Absent;
use ev_value::ScalarTy;
use sql_ast::{BinaryOp, Function, SqlExpr, UnaryOp};
use sql_lex::{Keyword, Sign, TokenKind};

pub fn mark_of(x: BinaryOp) -> TokenKind
    ensures { result ≡ mark_of x }
{
    match x {
        BinaryOp::Or => TokenKind::Word(Keyword::Or),
        BinaryOp::And => TokenKind::Word(Keyword::And),
        BinaryOp::Eq => TokenKind::Sign(Sign::Equal),
        BinaryOp::Ne => TokenKind::Sign(Sign::NotEqual),
        BinaryOp::Lt => TokenKind::Sign(Sign::Less),
        BinaryOp::Le => TokenKind::Sign(Sign::LessOrEqual),
        BinaryOp::Gt => TokenKind::Sign(Sign::Greater),
        BinaryOp::Ge => TokenKind::Sign(Sign::GreaterOrEqual),
        BinaryOp::Add => TokenKind::Sign(Sign::Plus),
        BinaryOp::Sub => TokenKind::Sign(Sign::Minus),
        BinaryOp::Concat => TokenKind::Sign(Sign::Concat),
        BinaryOp::Mul => TokenKind::Sign(Sign::Star),
        BinaryOp::FloorDiv => TokenKind::Sign(Sign::FloorDivide),
        BinaryOp::Mod => TokenKind::Sign(Sign::Percent),
    }
}

fn level_of_binary(x: BinaryOp) -> usize
    ensures { result ≡ level_of_binary x }
{
    match x {
        BinaryOp::Or => 1,
        BinaryOp::And => 2,
        BinaryOp::Eq => 4,
        BinaryOp::Ne => 4,
        BinaryOp::Lt => 4,
        BinaryOp::Le => 4,
        BinaryOp::Gt => 4,
        BinaryOp::Ge => 4,
        BinaryOp::Add => 5,
        BinaryOp::Sub => 5,
        BinaryOp::Concat => 5,
        BinaryOp::Mul => 6,
        BinaryOp::FloorDiv => 6,
        BinaryOp::Mod => 6,
    }
}

pub fn left_level(x: BinaryOp) -> usize
    ensures { result ≡ left_level x }
{
    match x {
        BinaryOp::Or => 1,
        BinaryOp::And => 2,
        BinaryOp::Eq => 5,
        BinaryOp::Ne => 5,
        BinaryOp::Lt => 5,
        BinaryOp::Le => 5,
        BinaryOp::Gt => 5,
        BinaryOp::Ge => 5,
        BinaryOp::Add => 5,
        BinaryOp::Sub => 5,
        BinaryOp::Concat => 5,
        BinaryOp::Mul => 6,
        BinaryOp::FloorDiv => 6,
        BinaryOp::Mod => 6,
    }
}

pub fn right_level(x: BinaryOp) -> usize
    ensures { result ≡ right_level x }
{
    match x {
        BinaryOp::Or => 2,
        BinaryOp::And => 3,
        BinaryOp::Eq => 5,
        BinaryOp::Ne => 5,
        BinaryOp::Lt => 5,
        BinaryOp::Le => 5,
        BinaryOp::Gt => 5,
        BinaryOp::Ge => 5,
        BinaryOp::Add => 6,
        BinaryOp::Sub => 6,
        BinaryOp::Concat => 6,
        BinaryOp::Mul => 7,
        BinaryOp::FloorDiv => 7,
        BinaryOp::Mod => 7,
    }
}

fn level_of_unary(x: UnaryOp) -> usize
    ensures { result ≡ level_of_unary x }
{
    match x {
        UnaryOp::Neg => 7,
        UnaryOp::Not => 3,
        UnaryOp::IsNull => 4,
        UnaryOp::IsNotNull => 4,
    }
}

pub fn operand_level(x: UnaryOp) -> usize
    ensures { result ≡ operand_level x }
{
    match x {
        UnaryOp::Neg => 7,
        UnaryOp::Not => 3,
        UnaryOp::IsNull => 5,
        UnaryOp::IsNotNull => 5,
    }
}

pub fn name_of_function(x: Function) -> Keyword
    ensures { result ≡ name_of_function x }
{
    match x {
        Function::Len => Keyword::Len,
        Function::CountOf => Keyword::CountOf,
        Function::SumOf => Keyword::SumOf,
        Function::MinOf => Keyword::MinOf,
        Function::MaxOf => Keyword::MaxOf,
        Function::AnyOf => Keyword::AnyOf,
        Function::AllOf => Keyword::AllOf,
        Function::AssertSingle => Keyword::AssertSingle,
        Function::AssertExists => Keyword::AssertExists,
        Function::AssertDistinct => Keyword::AssertDistinct,
    }
}

pub fn name_of_scalar(x: ScalarTy) -> Keyword
    ensures { result ≡ name_of_scalar x }
{
    match x {
        ScalarTy::Int64 => Keyword::Int,
        ScalarTy::Str => Keyword::Text,
        ScalarTy::Bool => Keyword::Bool,
        ScalarTy::Uuid => Keyword::Uuid,
    }
}

pub fn name_of_absent(x: Absent) -> Keyword
    ensures { result ≡ name_of_absent x }
{
    match x {
        Absent::First => Keyword::First,
        Absent::Last => Keyword::Last,
    }
}

pub fn truth(b: bool) -> Keyword
    ensures { result ≡ truth b }
{
    if b { Keyword::True } else { Keyword::False }
}

#[tactic(auto, using(crate::proofs::Forms::level_unary, crate::proofs::Forms::level_binary))]
fn level_of(expr: &SqlExpr) -> usize
    ensures { result ≡ level_of expr.now }
{
    match expr {
        SqlExpr::Unary(operator, _) => level_of_unary(*operator),
        SqlExpr::Binary(form) => level_of_binary(form.operator),
        SqlExpr::Int(_) => 8,
        SqlExpr::Text(_) => 8,
        SqlExpr::Bool(_) => 8,
        SqlExpr::Uuid(_) => 8,
        SqlExpr::Null(_) => 8,
        SqlExpr::Column(_, _) => 8,
        SqlExpr::Arg(_, _) => 8,
        SqlExpr::Global(_) => 8,
        SqlExpr::Array(_) => 8,
        SqlExpr::Row(_) => 8,
        SqlExpr::Part(_, _) => 8,
        SqlExpr::Case(_) => 8,
        SqlExpr::Cast(_, _) => 8,
        SqlExpr::Call(_, _) => 8,
    }
}

/// Whether the expression needs parentheses where this level is asked for.
pub fn is_loose(level: usize, expr: &SqlExpr) -> bool
    ensures { result ≡ is_loose level expr.now }
{
    level_of(expr) < level
}
