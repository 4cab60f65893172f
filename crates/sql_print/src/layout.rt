//! How tokens are written.
ghost use Rattle.std.specs.Prelude.{◌≡◌, ◌∷◌, [], ◌++◌, IfOk, OnOk, string_bytes};
ghost use Rattle.std.specs.Char.{encode_utf8};
ghost use Rattle.sql_lex.specs.Keyword.{keyword_text};
ghost use Rattle.sql_lex.specs.Sign.{sign_text};
ghost use Rattle.sql_lex.specs.Token.{doubled};
ghost use Rattle.sql_print.specs.Layout.{token_text, clings_before, clings_behind, gap, text_behind, text_of};

use ev_value::Text;
use sql_lex::{Keyword, Sign, TokenKind};
use std::alloc::{AllocError, Global};

fn keyword_text(keyword: Keyword) -> &'static str
    ensures { result.now ≡ keyword_text keyword }
{
    match keyword {
        Keyword::Select => "SELECT",
        Keyword::Distinct => "DISTINCT",
        Keyword::As => "AS",
        Keyword::From => "FROM",
        Keyword::Left => "LEFT",
        Keyword::Join => "JOIN",
        Keyword::Lateral => "LATERAL",
        Keyword::On => "ON",
        Keyword::True => "TRUE",
        Keyword::False => "FALSE",
        Keyword::Where => "WHERE",
        Keyword::Order => "ORDER",
        Keyword::By => "BY",
        Keyword::Offset => "OFFSET",
        Keyword::Limit => "LIMIT",
        Keyword::Union => "UNION",
        Keyword::All => "ALL",
        Keyword::Unnest => "UNNEST",
        Keyword::Asc => "ASC",
        Keyword::Desc => "DESC",
        Keyword::Nulls => "NULLS",
        Keyword::First => "FIRST",
        Keyword::Last => "LAST",
        Keyword::Uuid => "UUID",
        Keyword::Null => "NULL",
        Keyword::Arg => "ARG",
        Keyword::Global => "GLOBAL",
        Keyword::Array => "ARRAY",
        Keyword::Row => "ROW",
        Keyword::Part => "PART",
        Keyword::Case => "CASE",
        Keyword::When => "WHEN",
        Keyword::Then => "THEN",
        Keyword::Else => "ELSE",
        Keyword::End => "END",
        Keyword::Cast => "CAST",
        Keyword::Len => "LEN",
        Keyword::CountOf => "COUNT_OF",
        Keyword::SumOf => "SUM_OF",
        Keyword::MinOf => "MIN_OF",
        Keyword::MaxOf => "MAX_OF",
        Keyword::AnyOf => "ANY_OF",
        Keyword::AllOf => "ALL_OF",
        Keyword::AssertSingle => "ASSERT_SINGLE",
        Keyword::AssertExists => "ASSERT_EXISTS",
        Keyword::AssertDistinct => "ASSERT_DISTINCT",
        Keyword::Int => "INT",
        Keyword::Text => "TEXT",
        Keyword::Bool => "BOOL",
        Keyword::Or => "OR",
        Keyword::And => "AND",
        Keyword::Not => "NOT",
        Keyword::Is => "IS",
    }
}

fn sign_text(sign: Sign) -> &'static str
    ensures { result.now ≡ sign_text sign }
{
    match sign {
        Sign::LeftParen => "(",
        Sign::RightParen => ")",
        Sign::Comma => ",",
        Sign::Semicolon => ";",
        Sign::Dot => ".",
        Sign::Cast => "::",
        Sign::Equal => "=",
        Sign::NotEqual => "<>",
        Sign::LessOrEqual => "<=",
        Sign::Less => "<",
        Sign::GreaterOrEqual => ">=",
        Sign::Greater => ">",
        Sign::Plus => "+",
        Sign::Minus => "-",
        Sign::Concat => "||",
        Sign::Star => "*",
        Sign::FloorDivide => "//",
        Sign::Percent => "%",
    }
}

#[tactic(auto, using(crate::proofs::Doubling::kept_char, crate::proofs::Doubling::quote_char))]
fn push_char(out: &mut String, c: char) -> Result<(), AllocError>
    ensures { OnOk result (string_bytes out.new ≡ string_bytes out.old ++ doubled (encode_utf8 c)) }
{
    if c == '\'' {
        return out.push_str("''");
    }
    out.push(c)
}

/// The text with each of its quotes twice.
fn push_doubled(out: &mut String, text: &str) -> Result<(), AllocError>
    ensures { OnOk result (string_bytes out.new ≡ string_bytes out.old ++ doubled text.now) }
{
    for c in text.chars() {
        push_char(out, c)?;
    }
    Ok(())
}

fn push_name(out: &mut String, name: &str) -> Result<(), AllocError>
    ensures { OnOk result (string_bytes out.new ≡ string_bytes out.old ++ 34 ∷ name.now ++ 34 ∷ []) }
{
    out.push_str("\"")?;
    out.push_str(name)?;
    out.push_str("\"")
}

fn push_literal(out: &mut String, text: &str) -> Result<(), AllocError>
    ensures { OnOk result (string_bytes out.new ≡ string_bytes out.old ++ 39 ∷ doubled text.now ++ 39 ∷ []) }
{
    out.push_str("'")?;
    push_doubled(out, text)?;
    out.push_str("'")
}

fn push_token(alloc: Global, out: &mut String, token: &TokenKind) -> Result<(), AllocError>
    ensures { OnOk result (string_bytes out.new ≡ string_bytes out.old ++ token_text token.now) }
{
    match token {
        TokenKind::Word(keyword) => out.push_str(keyword_text(*keyword)),
        TokenKind::Name(name) => push_name(out, name.as_str()),
        TokenKind::Int(number) => out.push_str(number.to_string(alloc)?.as_str()),
        TokenKind::Str(text) => push_literal(out, text.as_str()),
        TokenKind::Sign(sign) => out.push_str(sign_text(*sign)),
    }
}

fn clings_before(token: &TokenKind) -> bool
    ensures { result ≡ clings_before token.now }
{
    match token {
        TokenKind::Sign(Sign::LeftParen) => true,
        TokenKind::Sign(Sign::Dot) => true,
        TokenKind::Sign(Sign::Cast) => true,
        _ => false,
    }
}

fn clings_behind(token: &TokenKind) -> bool
    ensures { result ≡ clings_behind token.now }
{
    match token {
        TokenKind::Sign(Sign::RightParen) => true,
        TokenKind::Sign(Sign::Comma) => true,
        TokenKind::Sign(Sign::Dot) => true,
        TokenKind::Sign(Sign::Cast) => true,
        _ => false,
    }
}

fn push_gap(out: &mut String, clings: bool, token: &TokenKind) -> Result<(), AllocError>
    ensures { OnOk result (string_bytes out.new ≡ string_bytes out.old ++ gap clings token.now) }
{
    if clings || clings_behind(token) {
        return Ok(());
    }
    out.push_str(" ")
}

/// The text of tokens, with one space between them where needed.
pub fn text_of(alloc: Global, tokens: &[TokenKind]) -> Result<Text, AllocError>
    ensures { IfOk result (λ text. text ≡ text_of tokens.now) }
{
    let mut out = String::new(alloc);
    let mut clings = true;
    for token in tokens {
        push_gap(&mut out, clings, token)?;
        push_token(alloc, &mut out, token)?;
        clings = clings_before(token);
    }
    Ok(Text::new(out))
}
