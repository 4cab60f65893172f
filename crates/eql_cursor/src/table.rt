//! What a token stands for, by its class.
ghost use Rattle.std.specs.Prelude.{◌≡◌};
ghost use Rattle.eql_grammar.specs.Words as words;

use crate::class::{is_sign, is_word};
use ast::{BinaryOperator, EmptyPlace, Need, Qualifiers, Span, UnaryOperator, Width};
use eql_grammar::{Class, Direction, Infix, Leveled, Placement, Prefix, Qualified};
use ev_lex::{Keyword, Sign, Token};

/// The bytes of the token.
pub fn span(token: &Token) -> Span
    ensures { result ≡ words.span token.now }
{
    Span {
        start: token.start,
        end: token.end,
    }
}

pub fn sign_of(sign: Sign, class: Class, token: &Token) -> Option<Span>
    requires { class ≡ words.class_of token.now }
    ensures { result ≡ words.sign_of sign token.now }
{
    if is_sign(sign, class) {
        Some(span(token))
    } else {
        None
    }
}

pub fn word_of(keyword: Keyword, class: Class, token: &Token) -> Option<Span>
    requires { class ≡ words.class_of token.now }
    ensures { result ≡ words.word_of keyword token.now }
{
    if is_word(keyword, class) {
        Some(span(token))
    } else {
        None
    }
}

pub fn comma_of(class: Class, token: &Token) -> Option<()>
    requires { class ≡ words.class_of token.now }
    ensures { result ≡ words.comma_of token.now }
{
    if is_sign(Sign::Comma, class) {
        Some(())
    } else {
        None
    }
}

fn at_level(level: usize, operator: BinaryOperator) -> Option<Leveled>
    ensures { result ≡ words.at_level level operator }
{
    Some(Leveled { level, operator })
}

fn infix_sign(sign: Sign) -> Option<Leveled>
    ensures { result ≡ words.infix_in (Class.Sign sign) }
{
    match sign {
        Sign::Equal => at_level(6, BinaryOperator::Equal),
        Sign::NotEqual => at_level(6, BinaryOperator::NotEqual),
        Sign::OptionalEqual => at_level(6, BinaryOperator::OptionalEqual),
        Sign::OptionalNotEqual => at_level(6, BinaryOperator::OptionalNotEqual),
        Sign::Less => at_level(6, BinaryOperator::Less),
        Sign::LessOrEqual => at_level(6, BinaryOperator::LessOrEqual),
        Sign::Greater => at_level(6, BinaryOperator::Greater),
        Sign::GreaterOrEqual => at_level(6, BinaryOperator::GreaterOrEqual),
        Sign::Plus => at_level(7, BinaryOperator::Add),
        Sign::Minus => at_level(7, BinaryOperator::Subtract),
        Sign::Concat => at_level(7, BinaryOperator::Concat),
        Sign::Star => at_level(8, BinaryOperator::Multiply),
        Sign::FloorDivide => at_level(8, BinaryOperator::FloorDivide),
        Sign::Percent => at_level(8, BinaryOperator::Remainder),
        Sign::Coalesce => at_level(9, BinaryOperator::Coalesce),
        _ => None,
    }
}

fn infix_word(keyword: Keyword) -> Option<Leveled>
    ensures { result ≡ words.infix_in (Class.Reserved keyword) }
{
    match keyword {
        Keyword::Union => at_level(1, BinaryOperator::Union),
        Keyword::Intersect => at_level(1, BinaryOperator::Intersect),
        Keyword::Except => at_level(1, BinaryOperator::Except),
        Keyword::Or => at_level(3, BinaryOperator::Or),
        Keyword::And => at_level(4, BinaryOperator::And),
        Keyword::Like => at_level(6, BinaryOperator::Like),
        Keyword::Ilike => at_level(6, BinaryOperator::Ilike),
        Keyword::In => at_level(6, BinaryOperator::In),
        _ => None,
    }
}

fn infix_in(class: Class) -> Option<Leveled>
    ensures { result ≡ words.infix_in class }
{
    match class {
        Class::Sign(sign) => infix_sign(sign),
        Class::Reserved(keyword) => infix_word(keyword),
        _ => None,
    }
}

/// The operator of the level that the token is.
pub fn infix_of(level: usize, class: Class, token: &Token) -> Option<Infix>
    requires { class ≡ words.class_of token.now }
    ensures { result ≡ words.infix_of level token.now }
{
    match infix_in(class) {
        None => None,
        Some(found) => {
            if found.level == level {
                Some(Infix {
                    operator: found.operator,
                    place: span(token),
                })
            } else {
                None
            }
        }
    }
}

fn prefix_sign(sign: Sign, place: Span) -> Option<Prefix>
    ensures { result ≡ words.prefix_in (Class.Sign sign) place }
{
    match sign {
        Sign::Minus => Some(Prefix {
            operator: UnaryOperator::Negate,
            place,
        }),
        Sign::Plus => Some(Prefix {
            operator: UnaryOperator::Keep,
            place,
        }),
        _ => None,
    }
}

fn prefix_word(keyword: Keyword, place: Span) -> Option<Prefix>
    ensures { result ≡ words.prefix_in (Class.Reserved keyword) place }
{
    match keyword {
        Keyword::Distinct => Some(Prefix {
            operator: UnaryOperator::Distinct,
            place,
        }),
        Keyword::Exists => Some(Prefix {
            operator: UnaryOperator::Exists,
            place,
        }),
        _ => None,
    }
}

/// The operator before an operand that the token is.
pub fn prefix_of(class: Class, token: &Token) -> Option<Prefix>
    requires { class ≡ words.class_of token.now }
    ensures { result ≡ words.prefix_of token.now }
{
    match class {
        Class::Sign(sign) => prefix_sign(sign, span(token)),
        Class::Reserved(keyword) => prefix_word(keyword, span(token)),
        _ => None,
    }
}

/// `required` or `optional`.
pub fn need_of(class: Class, token: &Token) -> Option<Qualified>
    requires { class ≡ words.class_of token.now }
    ensures { result ≡ words.need_of token.now }
{
    if is_word(Keyword::Required, class) {
        Some(needed(Need::Required, token))
    } else if is_word(Keyword::Optional, class) {
        Some(needed(Need::Optional, token))
    } else {
        None
    }
}

fn needed(need: Need, token: &Token) -> Qualified
    ensures { result ≡ words.needed need token.now }
{
    Qualified {
        start: token.start,
        qualifiers: Qualifiers {
            need: Some(need),
            width: None,
        },
    }
}

/// `single` or `multi`.
pub fn width_of(class: Class, token: &Token) -> Option<Qualified>
    requires { class ≡ words.class_of token.now }
    ensures { result ≡ words.width_of token.now }
{
    if is_word(Keyword::Single, class) {
        Some(wide(Width::Single, token))
    } else if is_word(Keyword::Multi, class) {
        Some(wide(Width::Multi, token))
    } else {
        None
    }
}

fn wide(width: Width, token: &Token) -> Qualified
    ensures { result ≡ words.wide width token.now }
{
    Qualified {
        start: token.start,
        qualifiers: Qualifiers {
            need: None,
            width: Some(width),
        },
    }
}

/// `asc` or `desc`.
pub fn direction_of(class: Class, token: &Token) -> Option<Direction>
    requires { class ≡ words.class_of token.now }
    ensures { result ≡ words.direction_of token.now }
{
    if is_word(Keyword::Asc, class) {
        Some(Direction {
            descending: false,
            end: token.end,
        })
    } else if is_word(Keyword::Desc, class) {
        Some(Direction {
            descending: true,
            end: token.end,
        })
    } else {
        None
    }
}

/// `first` or `last`.
pub fn place_of(class: Class, token: &Token) -> Option<Placement>
    requires { class ≡ words.class_of token.now }
    ensures { result ≡ words.place_of token.now }
{
    if is_word(Keyword::First, class) {
        Some(Placement {
            place: EmptyPlace::First,
            end: token.end,
        })
    } else if is_word(Keyword::Last, class) {
        Some(Placement {
            place: EmptyPlace::Last,
            end: token.end,
        })
    } else {
        None
    }
}
