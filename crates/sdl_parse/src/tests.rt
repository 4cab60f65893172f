//! Schema texts with the refusals that the grammar gives them, and where their parts stand.

use crate::{one_schema_refusal, one_schema_tree, parse_schema};
use ast::Span;
use eql_build::discard;
use eql_parse::SyntaxRefusal;
use ev_lex::{Tokens, lex};
use sdl_ast::{Decl, FilePart, Item, Member, Pointer, PointerBody, SdlFile};
use std::alloc::{AllocError, Global};
use std::test::Fail;

/// What comes of a text.
#[derive(Clone, Copy, Debug, PartialEq, Eq)]
enum Outcome {
    Schema,
    S2(u32),
    S3(u32),
    /// It has no tokens, or memory ran out.
    Nothing,
}

fn refusal_told(refusal: SyntaxRefusal) -> Outcome {
    match refusal {
        SyntaxRefusal::S2 { token } => Outcome::S2(token),
        SyntaxRefusal::S3 { token } => Outcome::S3(token),
        SyntaxRefusal::Memory => Outcome::Nothing,
    }
}

fn tokens_told(alloc: Global, tokens: &Tokens) -> Outcome {
    if tokens.len() > 10000 {
        return Outcome::Nothing;
    }
    match parse_schema(alloc, tokens) {
        Ok(file) => {
            discard(file);
            Outcome::Schema
        }
        Err(refusal) => refusal_told(refusal),
    }
}

fn told(alloc: Global, text: &[u8]) -> Outcome {
    if text.len() > 10000 {
        return Outcome::Nothing;
    }
    match lex(alloc, text) {
        Ok(tokens) => tokens_told(alloc, &tokens),
        Err(_) => Outcome::Nothing,
    }
}

static ROWS: [(&[u8], Outcome); 52] = [
    (b"", Outcome::Schema),
    (b"type A;", Outcome::Schema),
    (b"type A", Outcome::S2(2)),
    (b"type A { x: int64", Outcome::S2(6)),
    (b"type A { x: int64; y -> str; };", Outcome::Schema),
    (
        b"abstract type A extending B, default::C { };",
        Outcome::Schema,
    ),
    (b"abstract A;", Outcome::S2(1)),
    (b"type A extending { }", Outcome::S2(3)),
    (b"type A extending B, { }", Outcome::S2(5)),
    (
        b"module default { type A; global g: str; }; type B;",
        Outcome::Schema,
    ),
    (b"module default { type A;", Outcome::S2(6)),
    (b"module default { module other { } }", Outcome::S2(3)),
    (b"global g -> str", Outcome::S2(4)),
    (b"global g: str {}", Outcome::S2(4)),
    (b"select 1", Outcome::S2(0)),
    (b"type A {} ;;", Outcome::S2(5)),
    (
        b"TYPE A EXTENDING B { REQUIRED PROPERTY x -> str { CONSTRAINT Exclusive; }; }",
        Outcome::Schema,
    ),
    (b"type select;", Outcome::S2(1)),
    (
        b"type type { type: str; module: str; abstract: str; extending: str; }",
        Outcome::Schema,
    ),
    (
        b"type A { required multi x: B; multi required y: B; overloaded optional z := 1; }",
        Outcome::Schema,
    ),
    (
        b"type A { required property x: B; overloaded single link y := 1; link z -> C {} }",
        Outcome::Schema,
    ),
    (b"type A { required optional x: B; }", Outcome::S2(4)),
    (b"type A { required overloaded x: B; }", Outcome::S2(5)),
    (b"type A { x: B {} y: C; }", Outcome::Schema),
    (b"type A { ; }", Outcome::S2(3)),
    (b"type A { x: B;; }", Outcome::S2(7)),
    (b"type A { x: ; }", Outcome::S2(5)),
    (b"type A { x: B::C::D; }", Outcome::S2(8)),
    (b"type A { x := 1 + ; }", Outcome::S2(7)),
    (b"type A { x := 1 }", Outcome::S2(6)),
    (
        b"type A { overloaded: int64; index: str; property: str; link: str; annotation: str; access -> str; index := 1; }",
        Outcome::Schema,
    ),
    (
        b"type A { overloaded overloaded: str; property property: str; link link: str; property link: str; required index: str; }",
        Outcome::Schema,
    ),
    (b"type A { index x: str; }", Outcome::S2(4)),
    (b"type A { overloaded index on (1); }", Outcome::S2(5)),
    (
        b"type A { property property property: str; }",
        Outcome::S2(5),
    ),
    (b"type A { access x: str; }", Outcome::S2(4)),
    (
        b"type A { index on (.x); annotation title := 'x'; access policy own allow all using (true); }",
        Outcome::Schema,
    ),
    (
        b"type A { access policy p deny select, update read, update write, delete, insert, update { annotation a := 1; }; }",
        Outcome::Schema,
    ),
    (b"type A { access policy p allow; }", Outcome::S2(7)),
    (
        b"type A { access policy p allow all, select; }",
        Outcome::S2(8),
    ),
    (
        b"type A { access policy p allow select read; }",
        Outcome::S2(8),
    ),
    (b"type A { index on .x; }", Outcome::S2(5)),
    (
        b"type A { x: B { constraint exclusive; delegated constraint max_value(1, -2); default := 3; on target delete restrict; on target delete delete source; annotation a := 1; property p: str; required q -> str { annotation b := 2; }; }; }",
        Outcome::Schema,
    ),
    (
        b"type A { x: B { constraint: str; delegated: str; default: int64; on: str; annotation -> str; property: str; overloaded: str; link: str; index: str; overloaded property: str; property default: str; } }",
        Outcome::Schema,
    ),
    (b"type A { x: B { default int64; } }", Outcome::S2(8)),
    (b"type A { x: B { constraint f(); } }", Outcome::S2(10)),
    (b"type A { x: B { constraint f(1, ); } }", Outcome::S2(12)),
    (b"type A { x: B { p := 1; } }", Outcome::S2(8)),
    (b"type A { x: B { link p: str; } }", Outcome::S2(8)),
    (b"type A { x: B { on target delete; } }", Outcome::S2(10)),
    (
        b"type A { x: B { on target delete delete delete; } }",
        Outcome::S2(11),
    ),
    (
        b"type A { x: B { property p: C { default := 1; } } }",
        Outcome::S2(12),
    ),
];

/// How many rows tell what they are to tell, up to the first that does not.
fn rows_told(alloc: Global) -> usize {
    let mut count = 0;
    for row in &ROWS {
        if told(alloc, row.0) != row.1 {
            return count;
        }
        count = count.saturating_add(1);
    }
    count
}

/// What comes of `head`, so many times `part`, and `tail`.
fn repeated(
    alloc: Global,
    head: &str,
    part: &str,
    times: usize,
    tail: &str,
) -> Result<Outcome, AllocError> {
    let mut text = String::from_str(alloc, head)?;
    for _turn in 0..times {
        text.push_str(part)?;
    }
    text.push_str(tail)?;
    Ok(told(alloc, text.as_bytes()))
}

const fn at(start: u32, end: u32) -> Span {
    Span { start, end }
}

fn item_place(pointer: &Pointer) -> Option<Span> {
    match &pointer.body {
        PointerBody::Stored(_, items) => {
            match items.as_slice() {
                [first, ..] => Some(first.span()),
                [] => None,
            }
        }
        PointerBody::Computed(_) => None,
    }
}

fn member_places(member: &Member) -> Option<(Span, Span)> {
    match member {
        Member::Pointer(_, pointer) => Some((member.span(), item_place(pointer)?)),
        _ => None,
    }
}

/// Where the first declaration, its first member and the first item of that stand.
fn places_of(file: &SdlFile) -> Option<(Span, Span, Span)> {
    match file.parts.as_slice() {
        [FilePart::Decl(decl), ..] => {
            match decl {
                Decl::Type(_, found) => {
                    match found.members.as_slice() {
                        [member, ..] => {
                            let (outer, inner) = member_places(member)?;
                            Some((decl.span(), outer, inner))
                        }
                        [] => None,
                    }
                }
                Decl::Global(_, _) => None,
            }
        }
        _ => None,
    }
}

fn places(alloc: Global, text: &[u8]) -> Option<(Span, Span, Span)> {
    if text.len() > 10000 {
        return None;
    }
    match lex(alloc, text) {
        Ok(tokens) => {
            if tokens.len() > 10000 {
                return None;
            }
            match parse_schema(alloc, &tokens) {
                Ok(file) => {
                    let found = places_of(&file);
                    discard(file);
                    found
                }
                Err(_) => None,
            }
        }
        Err(_) => None,
    }
}

#[test]
fn tells_the_first_dead_token(rt: HostRuntime) -> Result<(), Fail> {
    one_schema_tree();
    one_schema_refusal();
    assert_eq!(rt; rows_told(rt.alloc()), ROWS.len());
    Ok(())
}

#[test]
fn limits_count_in_each_expression(rt: HostRuntime) -> Result<(), Fail> {
    let alloc = rt.alloc();
    assert_eq!(rt;
        repeated(alloc, "type A { x := ", "(", 41, "1")?,
        Outcome::S3(45)
    );
    assert_eq!(rt;
        repeated(alloc, "type A { w := ((1)); x := ", "(", 40, "1")?,
        Outcome::S2(54)
    );
    assert_eq!(rt;
        repeated(alloc, "type A { x := 1", "+1", 59, ";}")?,
        Outcome::Schema
    );
    assert_eq!(rt;
        repeated(alloc, "type A { x := 1", "+1", 60, ";}")?,
        Outcome::S3(126)
    );
    assert_eq!(rt;
        repeated(alloc, "type A { x := 1", "+1", 60, ")")?,
        Outcome::S2(126)
    );
    assert_eq!(rt;
        repeated(alloc, "type A { index on (1", "+1", 60, ");}")?,
        Outcome::S3(127)
    );
    assert_eq!(rt;
        repeated(
            alloc,
            "type A { x: B { constraint f(1",
            "+1",
            60,
            ", 2); } }"
        )?,
        Outcome::S3(131)
    );
    assert_eq!(rt;
        repeated(alloc, "type A {", " x: B;", 500, " }")?,
        Outcome::Schema
    );
    Ok(())
}

#[test]
fn parts_stand_where_they_are_written(rt: HostRuntime) -> Result<(), Fail> {
    let text = b" abstract type A { required x: B { property p: str; }; }; ";
    assert!(rt; places(rt.alloc(), text) == Some((at(1, 57), at(19, 54), at(35, 51))));
    Ok(())
}
