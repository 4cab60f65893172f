//! Names and literals, whose texts are copied from their tokens.
ghost use Rattle.std.specs.Prelude.{◌≡◌, true, false, IfOk};
ghost use Rattle.exact.specs.Reading.{has};
ghost use Rattle.eql_grammar.specs.Words as words;

use crate::class::is_word;
use crate::table::span;
use ast::{Expr, Name};
use eql_grammar::Class;
use ev_lex::{Keyword, Token, TokenKind};
use ev_value::Text;
use std::alloc::{AllocError, Global};

/// The token's text: that of a word, the digits of a number, what a literal stands for.
fn text_of(alloc: Global, token: &Token) -> Result<Text, AllocError>
    ensures { IfOk result (λ text. text ≡ words.text_of token.now.kind) }
{
    match &token.kind {
        TokenKind::Word(text) => text.copied(alloc),
        TokenKind::Int(digits) => digits.copied(alloc),
        TokenKind::Str(text) => text.copied(alloc),
        TokenKind::Sign(_) => Text::from_str(alloc, ""),
    }
}

fn name_at(alloc: Global, token: &Token) -> Result<Name, AllocError>
    ensures { IfOk result (λ name. name ≡ record { text = words.text_of token.now.kind; span = words.span token.now }) }
{
    let text = text_of(alloc, token)?;
    Ok(Name {
        text,
        span: span(token),
    })
}

/// The name that the token is.
pub fn name_of(alloc: Global, class: Class, token: &Token) -> Result<Option<Name>, AllocError>
    requires { class ≡ words.class_of token.now }
    ensures { IfOk result (λ found. found ≡ words.name_of token.now) }
{
    match class {
        Class::Named(_) => Ok(Some(name_at(alloc, token)?)),
        _ => Ok(None),
    }
}

/// The name of a parameter that the token is.
pub fn parameter_of(alloc: Global, class: Class, token: &Token) -> Result<Option<Name>, AllocError>
    requires { class ≡ words.class_of token.now }
    ensures { IfOk result (λ found. found ≡ words.parameter_of token.now) }
{
    match class {
        Class::Named(_) => Ok(Some(name_at(alloc, token)?)),
        Class::Number => Ok(Some(name_at(alloc, token)?)),
        _ => Ok(None),
    }
}

/// `true` or `false`.
fn truth_of(class: Class, token: &Token) -> Option<Expr>
    requires { class ≡ words.class_of token.now }
    ensures { result ≡ words.either_word Keyword.True (Expr.Bool (words.span token.now) true) Keyword.False (Expr.Bool (words.span token.now) false) token.now }
{
    if is_word(Keyword::True, class) {
        Some(Expr::Bool(span(token), true))
    } else if is_word(Keyword::False, class) {
        Some(Expr::Bool(span(token), false))
    } else {
        None
    }
}

/// The literal that the token is.
pub fn literal_of(alloc: Global, class: Class, token: &Token) -> Result<Option<Expr>, AllocError>
    requires { class ≡ words.class_of token.now }
    ensures { IfOk result (λ found. found ≡ words.literal_of token.now) }
{
    match class {
        Class::Number => {
            let digits = text_of(alloc, token)?;
            Ok(Some(Expr::Int(span(token), digits)))
        }
        Class::Literal => {
            let text = text_of(alloc, token)?;
            Ok(Some(Expr::Str(span(token), text)))
        }
        _ => Ok(truth_of(class, token)),
    }
}

/// Whether the token is a literal.
pub fn is_literal(class: Class, token: &Token) -> bool
    requires { class ≡ words.class_of token.now }
    ensures { result ≡ has words.literal_of token.now }
{
    match class {
        Class::Number => true,
        Class::Literal => true,
        _ => is_word(Keyword::True, class) || is_word(Keyword::False, class),
    }
}
