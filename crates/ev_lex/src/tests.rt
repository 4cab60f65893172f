//! Tokens of small texts, written out by hand.
use crate::{Keyword, LexRefusal, TokenKind, Tokens, is_reserved, keyword_of, lex};
use std::alloc::{AllocError, Global};
use std::test::Fail;

/// The tokens with their places, as `word a 0-1, sign Assign 2-4`, or the refusal.
fn shown(alloc: Global, text: &[u8]) -> Result<String, AllocError> {
    if text.len() > 1000 {
        return String::from_str(alloc, "too long");
    }
    match lex(alloc, text) {
        Ok(tokens) => listed(alloc, &tokens),
        Err(LexRefusal::S1 { byte }) => format!(in alloc; "S1 {byte}"),
        Err(LexRefusal::Memory) => String::from_str(alloc, "memory"),
    }
}

fn listed(alloc: Global, tokens: &Tokens) -> Result<String, AllocError> {
    let mut list = String::new(alloc);
    for token in tokens.as_slice() {
        if !list.is_empty() {
            list.push_str(", ")?;
        }
        list.push_str(described(alloc, &token.kind)?.as_str())?;
        let (start, end) = (token.start, token.end);
        list.push_str(format!(in alloc; " {start}-{end}")?.as_str())?;
    }
    Ok(list)
}

fn described(alloc: Global, kind: &TokenKind) -> Result<String, AllocError> {
    match kind {
        TokenKind::Word(word) => format!(in alloc; "word {}", word.as_str()),
        TokenKind::Int(digits) => format!(in alloc; "int {}", digits.as_str()),
        TokenKind::Str(text) => format!(in alloc; "str {}", text.as_str()),
        TokenKind::Sign(sign) => format!(in alloc; "sign {sign:?}"),
    }
}

const READ: [(&[u8], &str); 24] = [
    (b"", ""),
    (b" \t\r\n", ""),
    (b"# \xff\xfe '", ""),
    (b"a#b\nc", "word a 0-1, word c 4-5"),
    (b"a#\r\xc3\nb", "word a 0-1, word b 5-6"),
    (b"select User", "word select 0-6, word User 7-11"),
    (b"SeLeCT", "word SeLeCT 0-6"),
    (b"_x9 __a", "word _x9 0-3, word __a 4-7"),
    (b"1+2", "int 1 0-1, sign Plus 1-2, int 2 2-3"),
    (b"007", "int 007 0-3"),
    (b"9223372036854775807", "int 9223372036854775807 0-19"),
    (
        b"00009223372036854775807",
        "int 00009223372036854775807 0-23",
    ),
    (b"1.2", "int 1 0-1, sign Dot 1-2, int 2 2-3"),
    (
        b"<int64>$0",
        "sign Less 0-1, word int64 1-6, sign Greater 6-7, sign Dollar 7-8, int 0 8-9",
    ),
    (
        b"$00 $x",
        "sign Dollar 0-1, int 00 1-3, sign Dollar 4-5, word x 5-6",
    ),
    (
        b"?!=??=?=",
        "sign OptionalNotEqual 0-3, sign Coalesce 3-5, sign Equal 5-6, sign OptionalEqual 6-8",
    ),
    (
        b"::=:= ->-",
        "sign Namespace 0-2, sign Equal 2-3, sign Assign 3-5, sign Arrow 6-8, sign Minus 8-9",
    ),
    (
        b".<<=.>>=",
        "sign BackLink 0-2, sign LessOrEqual 2-4, sign Dot 4-5, sign Greater 5-6, sign GreaterOrEqual 6-8",
    ),
    (
        b"+++ // !=",
        "sign Concat 0-2, sign Plus 2-3, sign FloorDivide 4-6, sign NotEqual 7-9",
    ),
    (
        b"(){}[],;.:<>+=-*%@$",
        "sign LeftParen 0-1, sign RightParen 1-2, sign LeftBrace 2-3, sign RightBrace 3-4, sign LeftBracket 4-5, sign RightBracket 5-6, sign Comma 6-7, sign Semicolon 7-8, sign Dot 8-9, sign Colon 9-10, sign Less 10-11, sign Greater 11-12, sign Plus 12-13, sign Equal 13-14, sign Minus 14-15, sign Star 15-16, sign Percent 16-17, sign At 17-18, sign Dollar 18-19",
    ),
    (
        b"'a\"b' \"a'b\" ''",
        "str a\"b 0-5, str a'b 6-11, str  12-14",
    ),
    (b"'\\\\\\'\\\"\\n\\r\\t'", "str \\'\"\n\r\t 0-14"),
    (
        b"'\\u0041\\u20ac\\u00e9'\"\\uFFFD\"",
        "str A\u{20ac}\u{e9} 0-20, str \u{fffd} 20-28",
    ),
    (
        b"'\xc3\xa9\xf0\x9f\x99\x82\n#'",
        "str \u{e9}\u{1f642}\n# 0-10",
    ),
];

const REFUSED: [(&[u8], &str); 24] = [
    (b"select \"abc", "S1 7"),
    (b"select count((select 7 = 7 \\))", "S1 27"),
    (b"12x", "S1 0"),
    (b"a 1_", "S1 2"),
    (b"-9223372036854775808", "S1 1"),
    (b"99999999999999999999999", "S1 0"),
    (b"? =", "S1 0"),
    (b"?!x", "S1 0"),
    (b"a ! b", "S1 2"),
    (b"a / b", "S1 2"),
    (b"a & b", "S1 2"),
    (b"\x0c", "S1 0"),
    (b"a\x00", "S1 1"),
    (b"\xc3\xa9", "S1 0"),
    (b"'a\\", "S1 0"),
    (b" 'a\\'", "S1 1"),
    (b"'\\a'", "S1 0"),
    (b"'\\u12g4'", "S1 0"),
    (b"'\\u12'", "S1 0"),
    (b"'\\uD800'", "S1 0"),
    (b"'\\udfff'", "S1 0"),
    (b"'\xc3'", "S1 0"),
    (b"'\xed\xa0\x80'", "S1 0"),
    (b"`a`", "S1 0"),
];

#[test]
fn texts_are_cut(rt: HostRuntime) -> Result<(), Fail> {
    for (text, tokens) in READ.iter() {
        let found = shown(rt.alloc(), text)?;
        assert_eq!(rt; found.as_str(), *tokens);
    }
    Ok(())
}

#[test]
fn texts_are_refused(rt: HostRuntime) -> Result<(), Fail> {
    for (text, refusal) in REFUSED.iter() {
        let found = shown(rt.alloc(), text)?;
        assert_eq!(rt; found.as_str(), *refusal);
    }
    Ok(())
}

#[test]
fn keywords_in_any_case(rt: HostRuntime) {
    assert_eq!(rt; keyword_of("select"), Some(Keyword::Select));
    assert_eq!(rt; keyword_of("SELECT"), Some(Keyword::Select));
    assert_eq!(rt; keyword_of("gRoUp"), Some(Keyword::Group));
    assert_eq!(rt; keyword_of("Then"), Some(Keyword::Then));
    assert_eq!(rt; keyword_of("write"), Some(Keyword::Write));
    assert_eq!(rt; keyword_of("selects"), None);
    assert_eq!(rt; keyword_of("selec"), None);
    assert_eq!(rt; keyword_of(""), None);
    assert!(rt; is_reserved(Keyword::Group));
    assert!(rt; !is_reserved(Keyword::Asc));
}
