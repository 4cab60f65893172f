//! Tokens of small texts, written out by hand.
use crate::{LexRefusal, TokenKind, Tokens, lex};
use std::alloc::{AllocError, Global};
use std::test::Fail;

/// The tokens with their places, as `word Select 0, name t 7`, or the refusal.
fn shown(alloc: Global, text: &[u8]) -> Result<String, AllocError> {
    if text.len() > 1000 {
        return String::from_str(alloc, "too long");
    }
    match lex(alloc, text) {
        Ok(tokens) => listed(alloc, &tokens),
        Err(LexRefusal::NoToken) => String::from_str(alloc, "no token"),
        Err(LexRefusal::Memory) => String::from_str(alloc, "memory"),
    }
}

fn listed(alloc: Global, tokens: &Tokens) -> Result<String, AllocError> {
    let mut list = String::new(alloc);
    for token in tokens.as_slice() {
        if !list.is_empty() {
            list.push_str(", ")?;
        }
        list.push_str(described(alloc, &token.kind)?.as_str())?;
        let start = token.start;
        list.push_str(format!(in alloc; " {start}")?.as_str())?;
    }
    Ok(list)
}

fn described(alloc: Global, kind: &TokenKind) -> Result<String, AllocError> {
    match kind {
        TokenKind::Word(word) => format!(in alloc; "word {word:?}"),
        TokenKind::Name(name) => format!(in alloc; "name {}", name.as_str()),
        TokenKind::Int(number) => format!(in alloc; "int {number}"),
        TokenKind::Str(text) => format!(in alloc; "str {}", text.as_str()),
        TokenKind::Sign(sign) => format!(in alloc; "sign {sign:?}"),
    }
}

const READ: [(&[u8], &str); 14] = [
    (b" \t\r\n", ""),
    (
        b"SELECT \"t\".\"x\"",
        "word Select 0, name t 7, sign Dot 10, name x 11",
    ),
    (
        b"Count_Of(1)",
        "word CountOf 0, sign LeftParen 8, int 1 9, sign RightParen 10",
    ),
    (b"'it''s'''", "str it's' 0"),
    (b"'a' 'b'", "str a 0, str b 4"),
    (
        b"1<2<=3<>4",
        "int 1 0, sign Less 1, int 2 2, sign LessOrEqual 3, int 3 5, sign NotEqual 6, int 4 8",
    ),
    (b"--1", "sign Minus 0, sign Minus 1, int 1 2"),
    (b"007", "int 7 0"),
    (b"NULL::INT", "word Null 0, sign Cast 4, word Int 6"),
    (b"SELECT1", "no token"),
    (b"1AS", "no token"),
    (b"9223372036854775808", "no token"),
    (b"\"\"", "no token"),
    (b"'a", "no token"),
];

#[test]
fn texts_are_cut_into_tokens(rt: HostRuntime) -> Result<(), Fail> {
    for (text, tokens) in READ.iter() {
        let found = shown(rt.alloc(), text)?;
        assert_eq!(rt; found.as_str(), *tokens);
    }
    Ok(())
}
