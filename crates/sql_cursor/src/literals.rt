//! Names, numbers and texts. A text is copied from its token.
ghost use Rattle.std.specs.Prelude.{◌≡◌, IfOk};
ghost use Rattle.std.specs.Int.{w128, from_be_bytes};
ghost use Rattle.std.specs.Option.{option_map};
ghost use Rattle.uuid.specs.Text.{parsed};
ghost use Rattle.sql_grammar.specs.Words as words;
ghost use Rattle.sql_grammar.specs.Trees.{leaf};

use crate::class::class_of;
use ev_value::{List, Text};
use sql_ast::SqlExpr;
use sql_grammar::{Class, Grown, Name, Places};
use sql_lex::{Keyword, Token, TokenKind};
use std::alloc::{AllocError, Global};
use uuid::Uuid;

/// The bytes of a name or text.
fn text_in(alloc: Global, token: &Token) -> Result<Text, AllocError>
    ensures { IfOk result (λ text. text ≡ words.text_in token.now.kind) }
{
    match &token.kind {
        TokenKind::Name(name) => name.copied(alloc),
        TokenKind::Str(text) => text.copied(alloc),
        _ => Text::from_str(alloc, ""),
    }
}

fn number_in(token: &Token) -> i64
    ensures { result ≡ words.number_in token.now.kind }
{
    match &token.kind {
        TokenKind::Int(number) => *number,
        _ => 0,
    }
}

/// The name that the token is.
pub fn name_of(alloc: Global, token: &Token) -> Result<Option<Name>, AllocError>
    ensures { IfOk result (λ found. found ≡ words.name_of token.now) }
{
    match class_of(token) {
        Class::Name => {
            let text = text_in(alloc, token)?;
            Ok(Some(Name {
                text,
                start: token.start,
            }))
        }
        _ => Ok(None),
    }
}

/// The text that the token is.
pub fn text_of(alloc: Global, token: &Token) -> Result<Option<Text>, AllocError>
    ensures { IfOk result (λ found. found ≡ words.text_of token.now) }
{
    match class_of(token) {
        Class::Literal => Ok(Some(text_in(alloc, token)?)),
        _ => Ok(None),
    }
}

/// The number that the token is.
pub fn number_of(token: &Token) -> Option<i64>
    ensures { result ≡ words.number_of token.now }
{
    match class_of(token) {
        Class::Number => Some(number_in(token)),
        _ => None,
    }
}

fn leaf(alloc: Global, start: u32, expr: SqlExpr) -> Grown
    ensures { result ≡ leaf start expr }
{
    Grown {
        expr,
        place: Places::At(start, List::new(alloc)),
        start,
        height: 1,
    }
}

fn literal_word(alloc: Global, start: u32, keyword: Keyword) -> Option<Grown>
    ensures { (k : _) → result ≡ words.literal_at (Class.Word keyword) k start }
{
    match keyword {
        Keyword::True => Some(leaf(alloc, start, SqlExpr::Bool(true))),
        Keyword::False => Some(leaf(alloc, start, SqlExpr::Bool(false))),
        _ => None,
    }
}

/// The literal that the token is.
pub fn literal_of(alloc: Global, token: &Token) -> Result<Option<Grown>, AllocError>
    ensures { IfOk result (λ found. found ≡ words.literal_of token.now) }
{
    match class_of(token) {
        Class::Number => Ok(Some(leaf(alloc, token.start, SqlExpr::Int(number_in(token))))),
        Class::Literal => {
            let text = text_in(alloc, token)?;
            Ok(Some(leaf(alloc, token.start, SqlExpr::Text(text))))
        }
        Class::Word(keyword) => Ok(literal_word(alloc, token.start, keyword)),
        _ => Ok(None),
    }
}

fn id_read(text: &str) -> Option<u128>
    ensures { result ≡ option_map (from_be_bytes w128) (parsed text.now) }
{
    match Uuid::parse_str(text) {
        Ok(id) => Some(id.as_u128()),
        Err(_) => None,
    }
}

/// The uuid that the text is printed for.
fn printed_id(alloc: Global, text: &Text) -> Result<Option<u128>, AllocError>
    ensures { IfOk result (λ found. found ≡ words.printed_id text.now (option_map (from_be_bytes w128) (parsed text.now))) }
{
    let Some(id) = id_read(text.as_str()) else {
        return Ok(None);
    };
    let printed = Text::of_id(alloc, id)?;
    if printed == *text {
        Ok(Some(id))
    } else {
        Ok(None)
    }
}

/// The uuid that the token is the text of.
pub fn id_of(alloc: Global, token: &Token) -> Result<Option<u128>, AllocError>
    ensures { IfOk result (λ found. found ≡ words.id_of token.now) }
{
    match class_of(token) {
        Class::Literal => printed_id(alloc, &text_in(alloc, token)?),
        _ => Ok(None),
    }
}
