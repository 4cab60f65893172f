//! Of which class a token is, and what it begins.
ghost use Rattle.std.specs.Prelude.{◌≡◌};
ghost use Rattle.sql_grammar.specs.Words as words;

use sql_ast::Function;
use sql_grammar::{Class, Start};
use sql_lex::{Keyword, Sign, Token, TokenKind};

/// Of which class the token is.
#[tactic(auto, unfolding(sql_grammar::specs::Words::class_of))]
pub fn class_of(token: &Token) -> Class
    ensures { result ≡ words.class_of token.now }
{
    match &token.kind {
        TokenKind::Word(keyword) => Class::Word(*keyword),
        TokenKind::Name(_) => Class::Name,
        TokenKind::Int(_) => Class::Number,
        TokenKind::Str(_) => Class::Literal,
        TokenKind::Sign(sign) => Class::Sign(*sign),
    }
}

#[tactic(auto, unfolding(sql_grammar::specs::Words::same_sign))]
fn same_sign(a: Sign, b: Sign) -> bool
    ensures { result ≡ words.same_sign a b }
{
    a == b
}

#[tactic(auto, unfolding(sql_grammar::specs::Words::same_keyword))]
fn same_keyword(a: Keyword, b: Keyword) -> bool
    ensures { result ≡ words.same_keyword a b }
{
    a == b
}

#[tactic(auto, unfolding(sql_grammar::specs::Words::same_start))]
fn same_start(a: Start, b: Start) -> bool
    ensures { result ≡ words.same_start a b }
{
    a == b
}

/// Whether a token of the class is the sign.
pub fn is_sign(sign: Sign, class: Class) -> bool
    ensures { result ≡ words.same_class (Class.Sign sign) class }
{
    match class {
        Class::Sign(other) => same_sign(sign, other),
        _ => false,
    }
}

/// Whether a token of the class is the keyword.
pub fn is_word(keyword: Keyword, class: Class) -> bool
    ensures { result ≡ words.same_class (Class.Word keyword) class }
{
    match class {
        Class::Word(other) => same_keyword(keyword, other),
        _ => false,
    }
}

/// The function of this name.
pub fn function_named(keyword: Keyword) -> Option<Function>
    ensures { result ≡ words.function_in (Class.Word keyword) }
{
    match keyword {
        Keyword::Len => Some(Function::Len),
        Keyword::CountOf => Some(Function::CountOf),
        Keyword::SumOf => Some(Function::SumOf),
        Keyword::MinOf => Some(Function::MinOf),
        Keyword::MaxOf => Some(Function::MaxOf),
        Keyword::AnyOf => Some(Function::AnyOf),
        Keyword::AllOf => Some(Function::AllOf),
        Keyword::AssertSingle => Some(Function::AssertSingle),
        Keyword::AssertExists => Some(Function::AssertExists),
        Keyword::AssertDistinct => Some(Function::AssertDistinct),
        _ => None,
    }
}

fn start_of_sign(sign: Sign) -> Start
    ensures { result ≡ words.start_in (Class.Sign sign) }
{
    match sign {
        Sign::Minus => Start::Minus,
        Sign::LeftParen => Start::Group,
        _ => Start::Nothing,
    }
}

fn start_of_word(keyword: Keyword) -> Start
    ensures { result ≡ words.start_in (Class.Word keyword) }
{
    match keyword {
        Keyword::Not => Start::Not,
        Keyword::True => Start::Literal,
        Keyword::False => Start::Literal,
        Keyword::Uuid => Start::Uuid,
        Keyword::Null => Start::Null,
        Keyword::Arg => Start::Arg,
        Keyword::Global => Start::Global,
        Keyword::Array => Start::Array,
        Keyword::Row => Start::Row,
        Keyword::Part => Start::Part,
        Keyword::Case => Start::Case,
        Keyword::Cast => Start::Cast,
        Keyword::Len
        | Keyword::CountOf
        | Keyword::SumOf
        | Keyword::MinOf
        | Keyword::MaxOf
        | Keyword::AnyOf
        | Keyword::AllOf
        | Keyword::AssertSingle
        | Keyword::AssertExists
        | Keyword::AssertDistinct => Start::Call,
        _ => Start::Nothing,
    }
}

fn start_in(class: Class) -> Start
    ensures { result ≡ words.start_in class }
{
    match class {
        Class::Word(keyword) => start_of_word(keyword),
        Class::Sign(sign) => start_of_sign(sign),
        Class::Name => Start::Column,
        Class::Number => Start::Literal,
        Class::Literal => Start::Literal,
    }
}

/// Whether a token of the class begins such an expression.
pub fn starts(start: Start, class: Class) -> bool
    ensures { result ≡ words.same_start start (words.start_in class) }
{
    same_start(start, start_in(class))
}
