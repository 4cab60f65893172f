//! Of which class a token is.
ghost use Rattle.std.specs.Prelude.{◌≡◌, ◌||◌};
ghost use Rattle.eql_grammar.specs.Words as words;

use eql_grammar::Class;
use ev_lex::{Keyword, Sign, Token, TokenKind, is_reserved, keyword_of};

fn word_class(keyword: Keyword) -> Class
    ensures { result ≡ words.word_class keyword }
{
    if is_reserved(keyword) {
        Class::Reserved(keyword)
    } else {
        Class::Named(Some(keyword))
    }
}

fn class_of_word(word: &str) -> Class
    ensures { result ≡ words.class_of_kind (TokenKind.Word word.now) }
{
    match keyword_of(word) {
        None => Class::Named(None),
        Some(keyword) => word_class(keyword),
    }
}

/// Of which class the token is.
#[tactic(auto, unfolding(eql_grammar::specs::Words::class_of))]
pub fn class_of(token: &Token) -> Class
    ensures { result ≡ words.class_of token.now }
{
    match &token.kind {
        TokenKind::Word(word) => class_of_word(word.as_str()),
        TokenKind::Int(_) => Class::Number,
        TokenKind::Str(_) => Class::Literal,
        TokenKind::Sign(sign) => Class::Sign(*sign),
    }
}

#[tactic(auto, unfolding(eql_grammar::specs::Words::same_sign))]
fn same_sign(a: Sign, b: Sign) -> bool
    ensures { result ≡ words.same_sign a b }
{
    a == b
}

#[tactic(auto, unfolding(eql_grammar::specs::Words::same_keyword))]
fn same_keyword(a: Keyword, b: Keyword) -> bool
    ensures { result ≡ words.same_keyword a b }
{
    a == b
}

/// Whether a token of the class is the sign.
pub fn is_sign(sign: Sign, class: Class) -> bool
    ensures { result ≡ words.same_class (Class.Sign sign) class }
{
    match class {
        Class::Sign(other) => same_sign(sign, other),
        _ => false,
    }
}

fn is_reserved_word(keyword: Keyword, class: Class) -> bool
    ensures { result ≡ words.same_class (Class.Reserved keyword) class }
{
    match class {
        Class::Reserved(other) => same_keyword(keyword, other),
        _ => false,
    }
}

fn is_other_word(keyword: Keyword, class: Class) -> bool
    ensures { result ≡ words.same_class (Class.Named (Some keyword)) class }
{
    match class {
        Class::Named(Some(other)) => same_keyword(keyword, other),
        _ => false,
    }
}

/// Whether a token of the class is the keyword.
pub fn is_word(keyword: Keyword, class: Class) -> bool
    ensures { result ≡ words.same_class (words.word_class keyword) class }
{
    if is_reserved(keyword) {
        is_reserved_word(keyword, class)
    } else {
        is_other_word(keyword, class)
    }
}

/// Whether a token of the class begins a postfix.
pub fn is_postfix(class: Class) -> bool
    ensures { result ≡ (words.same_class (Class.Sign Sign.Dot) class || (words.same_class (Class.Sign Sign.BackLink) class || (words.same_class (Class.Sign Sign.At) class || (words.same_class (Class.Sign Sign.LeftBracket) class || words.same_class (Class.Sign Sign.LeftBrace) class)))) }
{
    is_sign(Sign::Dot, class)
        || (is_sign(Sign::BackLink, class)
            || (is_sign(Sign::At, class)
                || (is_sign(Sign::LeftBracket, class) || is_sign(Sign::LeftBrace, class))))
}
