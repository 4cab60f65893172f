//! What a token stands for, by its class.
ghost use Rattle.std.specs.Prelude.{◌≡◌};
ghost use Rattle.sql_grammar.specs.Words as words;

use crate::class::{class_of, function_named, is_sign, is_word};
use ev_list::{Absent, Direction};
use ev_value::ScalarTy;
use sql_ast::BinaryOp;
use sql_grammar::{Called, Class};
use sql_lex::{Keyword, Sign, Token};

/// The first byte of the token, if it is the sign.
pub fn sign_of(sign: Sign, token: &Token) -> Option<u32>
    ensures { result ≡ words.sign_of sign token.now }
{
    if is_sign(sign, class_of(token)) {
        Some(token.start)
    } else {
        None
    }
}

/// The first byte of the token, if it is the keyword.
pub fn word_of(keyword: Keyword, token: &Token) -> Option<u32>
    ensures { result ≡ words.word_of keyword token.now }
{
    if is_word(keyword, class_of(token)) {
        Some(token.start)
    } else {
        None
    }
}

fn operator_sign(sign: Sign) -> Option<(usize, BinaryOp)>
    ensures { result ≡ words.operator_in (Class.Sign sign) }
{
    match sign {
        Sign::Equal => Some((4, BinaryOp::Eq)),
        Sign::NotEqual => Some((4, BinaryOp::Ne)),
        Sign::Less => Some((4, BinaryOp::Lt)),
        Sign::LessOrEqual => Some((4, BinaryOp::Le)),
        Sign::Greater => Some((4, BinaryOp::Gt)),
        Sign::GreaterOrEqual => Some((4, BinaryOp::Ge)),
        Sign::Plus => Some((5, BinaryOp::Add)),
        Sign::Minus => Some((5, BinaryOp::Sub)),
        Sign::Concat => Some((5, BinaryOp::Concat)),
        Sign::Star => Some((6, BinaryOp::Mul)),
        Sign::FloorDivide => Some((6, BinaryOp::FloorDiv)),
        Sign::Percent => Some((6, BinaryOp::Mod)),
        _ => None,
    }
}

fn operator_word(keyword: Keyword) -> Option<(usize, BinaryOp)>
    ensures { result ≡ words.operator_in (Class.Word keyword) }
{
    match keyword {
        Keyword::Or => Some((1, BinaryOp::Or)),
        Keyword::And => Some((2, BinaryOp::And)),
        _ => None,
    }
}

fn operator_in(class: Class) -> Option<(usize, BinaryOp)>
    ensures { result ≡ words.operator_in class }
{
    match class {
        Class::Sign(sign) => operator_sign(sign),
        Class::Word(keyword) => operator_word(keyword),
        _ => None,
    }
}

/// The operator of the level that the token is.
pub fn operator_of(level: usize, token: &Token) -> Option<BinaryOp>
    ensures { result ≡ words.operator_of level token.now }
{
    match operator_in(class_of(token)) {
        None => None,
        Some(found) => {
            if found.0 == level {
                Some(found.1)
            } else {
                None
            }
        }
    }
}

fn function_in(class: Class) -> Option<sql_ast::Function>
    ensures { result ≡ words.function_in class }
{
    match class {
        Class::Word(keyword) => function_named(keyword),
        _ => None,
    }
}

/// The function that the token names.
pub fn function_of(token: &Token) -> Option<Called>
    ensures { result ≡ words.function_of token.now }
{
    match function_in(class_of(token)) {
        None => None,
        Some(function) => Some(Called {
            function,
            start: token.start,
        }),
    }
}

fn scalar_named(keyword: Keyword) -> Option<ScalarTy>
    ensures { result ≡ words.scalar_in (Class.Word keyword) }
{
    match keyword {
        Keyword::Int => Some(ScalarTy::Int64),
        Keyword::Text => Some(ScalarTy::Str),
        Keyword::Bool => Some(ScalarTy::Bool),
        Keyword::Uuid => Some(ScalarTy::Uuid),
        _ => None,
    }
}

/// The scalar type that the token names.
pub fn scalar_of(token: &Token) -> Option<ScalarTy>
    ensures { result ≡ words.scalar_of token.now }
{
    match class_of(token) {
        Class::Word(keyword) => scalar_named(keyword),
        _ => None,
    }
}

fn direction_named(keyword: Keyword) -> Option<Direction>
    ensures { result ≡ words.direction_in (Class.Word keyword) }
{
    match keyword {
        Keyword::Asc => Some(Direction::Ascending),
        Keyword::Desc => Some(Direction::Descending),
        _ => None,
    }
}

/// `ASC` or `DESC`.
pub fn direction_of(token: &Token) -> Option<Direction>
    ensures { result ≡ words.direction_of token.now }
{
    match class_of(token) {
        Class::Word(keyword) => direction_named(keyword),
        _ => None,
    }
}

fn absent_named(keyword: Keyword) -> Option<Absent>
    ensures { result ≡ words.absent_in (Class.Word keyword) }
{
    match keyword {
        Keyword::First => Some(Absent::First),
        Keyword::Last => Some(Absent::Last),
        _ => None,
    }
}

/// `FIRST` or `LAST`.
pub fn absent_of(token: &Token) -> Option<Absent>
    ensures { result ≡ words.absent_of token.now }
{
    match class_of(token) {
        Class::Word(keyword) => absent_named(keyword),
        _ => None,
    }
}
