//! Schema texts with what comes of them.

use core_ir::Card;
use ev_lex::{Tokens, lex};
use ev_schema::Schema;
use schema_build::{Broken, Rule, SchemaRefusal, build, empty};
use sdl_parse::parse_schema;
use std::alloc::Global;
use std::test::Fail;

/// What comes of a text.
#[derive(Clone, Copy, Debug, PartialEq, Eq)]
enum Outcome {
    /// How many types, pointers (`id` is one) and globals the schema has.
    Schema(usize, usize, usize),
    Broken(Rule, u32),
    Unbuilt,
    /// It has no tree, or memory ran out.
    Nothing,
}

fn built_told(built: Result<Schema, SchemaRefusal>) -> Outcome {
    match built {
        Ok(schema) => Outcome::Schema(
            schema.types().len(),
            schema.pointers().len(),
            schema.globals().len(),
        ),
        Err(SchemaRefusal::Build(Broken { rule, byte })) => Outcome::Broken(rule, byte),
        Err(SchemaRefusal::Unbuilt) => Outcome::Unbuilt,
        Err(SchemaRefusal::Memory) => Outcome::Nothing,
    }
}

fn built_from(alloc: Global, tokens: &Tokens) -> Option<Result<Schema, SchemaRefusal>> {
    if tokens.len() > 10000 {
        return None;
    }
    match parse_schema(alloc, tokens) {
        Ok(file) => Some(build(alloc, file)),
        Err(_) => None,
    }
}

/// What is built of a text that has a tree.
fn built_of(alloc: Global, text: &[u8]) -> Option<Result<Schema, SchemaRefusal>> {
    if text.len() > 10000 {
        return None;
    }
    match lex(alloc, text) {
        Ok(tokens) => built_from(alloc, &tokens),
        Err(_) => None,
    }
}

fn told(alloc: Global, text: &[u8]) -> Outcome {
    match built_of(alloc, text) {
        Some(built) => built_told(built),
        None => Outcome::Nothing,
    }
}

/// The schema of a text that breaks no rule.
pub fn schema_in(alloc: Global, text: &[u8]) -> Option<Schema> {
    match built_of(alloc, text) {
        Some(Ok(schema)) => Some(schema),
        Some(Err(_)) => None,
        None => None,
    }
}

static ROWS: [(&[u8], Outcome); 84] = [
    (b"", Outcome::Schema(0, 1, 0)),
    (b"type A extending A {}", Outcome::Broken(Rule::M3, 0)),
    (b"type A { x: int65; }", Outcome::Broken(Rule::M2, 12)),
    (
        b"type A { x: int64; } type B { x: str; } type C extending A, B;",
        Outcome::Broken(Rule::M4, 40),
    ),
    (
        b"type Z { x: int64; } type A extending Z; type B extending Z; type C extending A, B;",
        Outcome::Schema(4, 2, 0),
    ),
    (
        b"module default { abstract type Named { required property name -> str { constraint exclusive; }; } type User extending Named { property age -> int64; multi link friends -> User { property strength -> int64; }; } type Post { required property title -> str; required link author -> User; multi property tags -> str; } }",
        Outcome::Schema(3, 7, 0),
    ),
    (b"type A { x := 1; }", Outcome::Unbuilt),
    (
        b"type A { access policy p allow all; } type A;",
        Outcome::Unbuilt,
    ),
    // M10 and M11
    (b"type str;", Outcome::Broken(Rule::M10, 0)),
    (b"type A; type uuid;", Outcome::Broken(Rule::M10, 8)),
    (b"global str: str;", Outcome::Schema(0, 1, 1)),
    (b"type __A;", Outcome::Broken(Rule::M10, 0)),
    (b"type _A;", Outcome::Schema(1, 1, 0)),
    (b"type A_; type A__;", Outcome::Schema(2, 1, 0)),
    (b"global __g: str;", Outcome::Broken(Rule::M10, 0)),
    (b"type A { id: uuid; }", Outcome::Broken(Rule::M10, 9)),
    (b"type A { ID: uuid; }", Outcome::Schema(1, 2, 0)),
    (
        b"type A { required __x: str; }",
        Outcome::Broken(Rule::M10, 9),
    ),
    (
        b"type A { l: A { property __p: str; }; }",
        Outcome::Broken(Rule::M10, 16),
    ),
    (b"type A { l: A { id: str; }; }", Outcome::Schema(1, 2, 0)),
    (b"module other { type A; }", Outcome::Broken(Rule::M11, 0)),
    (b"module Default { type A; }", Outcome::Broken(Rule::M11, 0)),
    (
        b"type A; module default { type B; } module default { type C; }",
        Outcome::Schema(3, 1, 0),
    ),
    (
        b"type A { overloaded x: str; }",
        Outcome::Broken(Rule::M11, 9),
    ),
    (
        b"type A { overloaded id: str; }",
        Outcome::Broken(Rule::M10, 9),
    ),
    (
        b"type A { overloaded x: str; id: str; }",
        Outcome::Broken(Rule::M11, 9),
    ),
    (
        b"type A { id: str; overloaded x: str; }",
        Outcome::Broken(Rule::M10, 9),
    ),
    (
        b"type A { x: str { delegated constraint exclusive; } }",
        Outcome::Broken(Rule::M11, 18),
    ),
    (
        b"type A { l: A { overloaded property p: str; }; }",
        Outcome::Broken(Rule::M11, 16),
    ),
    (
        b"type A { l: A { on target delete restrict; } m: A { on target delete RESTRICT; } }",
        Outcome::Schema(1, 3, 0),
    ),
    (
        b"type A { l: A { on target delete allow; } }",
        Outcome::Broken(Rule::M11, 16),
    ),
    (
        b"type A { l: A { on target delete delete source; } }",
        Outcome::Broken(Rule::M11, 16),
    ),
    (
        b"type A { l: A { on target delete restrict restrict; } }",
        Outcome::Broken(Rule::M11, 16),
    ),
    (
        b"type A { x: int64 { default := 1 + 1; } }",
        Outcome::Broken(Rule::M11, 20),
    ),
    (
        b"type A { x: int64 { default := (1); } }",
        Outcome::Schema(1, 2, 0),
    ),
    (
        b"type A { x: int64 { default := (1 + 1); } }",
        Outcome::Broken(Rule::M11, 20),
    ),
    (
        b"type A { x: int64 { default := -(-(1)); } }",
        Outcome::Broken(Rule::M11, 20),
    ),
    (
        b"type A { x: int64 { default := +1; } }",
        Outcome::Broken(Rule::M11, 20),
    ),
    (
        b"type A { x: int64 { default := -'a'; } }",
        Outcome::Broken(Rule::M11, 20),
    ),
    (
        b"type A; type A; type B { overloaded x: str; }",
        Outcome::Broken(Rule::M11, 25),
    ),
    // M1
    (b"type A; type B; type A;", Outcome::Broken(Rule::M1, 16)),
    (
        b"type A; global A: str; global B: str;",
        Outcome::Schema(1, 1, 2),
    ),
    (
        b"global g: str; abstract type A; global g: int64;",
        Outcome::Broken(Rule::M1, 32),
    ),
    (
        b"module default { type A; } abstract type A;",
        Outcome::Broken(Rule::M1, 27),
    ),
    (b"type a; type A;", Outcome::Schema(2, 1, 0)),
    (
        b"type A { x: B; } type C; type C;",
        Outcome::Broken(Rule::M1, 25),
    ),
    // M2
    (b"type A extending B;", Outcome::Broken(Rule::M2, 17)),
    (b"type A extending str;", Outcome::Broken(Rule::M2, 17)),
    (
        b"type A; type B extending A, other::A;",
        Outcome::Broken(Rule::M2, 28),
    ),
    (b"type A; global g: A;", Outcome::Broken(Rule::M2, 18)),
    (b"global g: text;", Outcome::Broken(Rule::M2, 10)),
    (
        b"type A { x: std::str; y: default::A; }",
        Outcome::Schema(1, 3, 0),
    ),
    (
        b"type A { x: default::str; }",
        Outcome::Broken(Rule::M2, 12),
    ),
    (b"type A { x: std::A; }", Outcome::Broken(Rule::M2, 12)),
    (b"type A { x: STD::str; }", Outcome::Broken(Rule::M2, 12)),
    (b"type A { link x: str; }", Outcome::Broken(Rule::M2, 17)),
    (b"type A { property x: A; }", Outcome::Broken(Rule::M2, 21)),
    (
        b"type A { l: A { property y: A; } }",
        Outcome::Broken(Rule::M2, 28),
    ),
    (b"type A { l: A { p: C; }; }", Outcome::Broken(Rule::M2, 19)),
    (b"type A { l: B { p: C; }; }", Outcome::Broken(Rule::M2, 12)),
    (
        b"type A extending A { x: B; }",
        Outcome::Broken(Rule::M2, 24),
    ),
    // M3
    (
        b"type A extending B; type B extending C; type C extending B;",
        Outcome::Broken(Rule::M3, 20),
    ),
    (
        b"type A extending C; type B extending A; type C extending B;",
        Outcome::Broken(Rule::M3, 0),
    ),
    // M4
    (b"type A { x: str; x: str; }", Outcome::Broken(Rule::M4, 0)),
    (
        b"type B extending A; type A { x: str; x: str; }",
        Outcome::Broken(Rule::M4, 20),
    ),
    (
        b"type A { x: str; } type B extending A { x: str; }",
        Outcome::Broken(Rule::M4, 19),
    ),
    (
        b"type D extending C; type A { x: int64; } type B { x: str; } type C extending A, B;",
        Outcome::Broken(Rule::M4, 0),
    ),
    // M5
    (
        b"type A { x: int64 { constraint min_value(1); constraint max_ex_value(-2); constraint one_of(1, -1); default := -3; } y: str { constraint min_len_value(0); constraint max_len_value(5); constraint one_of('a'); default := 'b'; } z: bool { constraint one_of(true, false); constraint exclusive; default := true; } l: A { constraint exclusive; } }",
        Outcome::Schema(1, 5, 0),
    ),
    (
        b"type A { x: str { constraint min_value(1); } }",
        Outcome::Broken(Rule::M5, 18),
    ),
    (
        b"type A { x: int64 { constraint max_len_value(1); } }",
        Outcome::Broken(Rule::M5, 20),
    ),
    (
        b"type A { x: int64 { constraint min_value(1, 2); } }",
        Outcome::Broken(Rule::M5, 20),
    ),
    (
        b"type A { x: int64 { constraint min_value; } }",
        Outcome::Broken(Rule::M5, 20),
    ),
    (
        b"type A { x: int64 { constraint exclusive(1); } }",
        Outcome::Broken(Rule::M5, 20),
    ),
    (
        b"type A { x: int64 { constraint one_of; } }",
        Outcome::Broken(Rule::M5, 20),
    ),
    (
        b"type A { x: uuid { constraint one_of('a'); } }",
        Outcome::Broken(Rule::M5, 19),
    ),
    (
        b"type A { x: int64 { constraint Exclusive; } }",
        Outcome::Broken(Rule::M5, 20),
    ),
    (
        b"type A { x: A { default := 1; } }",
        Outcome::Broken(Rule::M5, 16),
    ),
    (
        b"type A { x: int64 { constraint one_of((1)); constraint one_of(1, -(2)); constraint min_value(((5))); default := (-(1)); } }",
        Outcome::Schema(1, 2, 0),
    ),
    (
        b"type A { x: str { constraint one_of((1)); } }",
        Outcome::Broken(Rule::M5, 18),
    ),
    // M6
    (b"type A { l: A { y: A; } }", Outcome::Broken(Rule::M6, 16)),
    (
        b"type A { l: A { required p: str; } }",
        Outcome::Broken(Rule::M6, 16),
    ),
    (
        b"type A { l: A { optional single p: str; multi q: str; } }",
        Outcome::Broken(Rule::M6, 40),
    ),
    (
        b"type A { x: str { p: str; } }",
        Outcome::Broken(Rule::M6, 18),
    ),
    (
        b"type A { l: A { p: str; q: str; p: int64; } }",
        Outcome::Broken(Rule::M6, 32),
    ),
];

/// How many rows tell what they are to tell, up to the first that does not.
fn rows_told(alloc: Global) -> usize {
    let mut count = 0;
    for row in &ROWS {
        if told(alloc, row.0) != row.1 {
            return count;
        }
        count = count.saturating_add(1);
    }
    count
}

/// The bounds of the pointers of a schema, in their order.
fn bounds_are(schema: &Schema, bounds: &[Card]) -> bool {
    let mut left = bounds;
    for info in schema.pointers() {
        match left.split_first() {
            Some((card, rest)) if *card == info.card => left = rest,
            _ => return false,
        }
    }
    left.is_empty()
}

fn lines_are_whole(schema: &Schema) -> bool {
    match schema.types() {
        [d, a, b, c] => {
            d.ancestors.len() == 3
                && d.pointers.len() == 3
                && a.ancestors.is_empty()
                && b.ancestors.len() == 1
                && c.pointers.len() == 1
        }
        _ => false,
    }
}

fn bounds_as_written(schema: &Schema) -> bool {
    bounds_are(
        schema,
        &[
            Card::AtMostOne,
            Card::Many,
            Card::One,
            Card::AtLeastOne,
            Card::One,
        ],
    )
}

#[test]
fn the_first_broken_rule_is_told(rt: HostRuntime) -> Result<(), Fail> {
    assert_eq!(rt; rows_told(rt.alloc()), ROWS.len());
    Ok(())
}

#[test]
fn schemas_hold_what_is_declared(rt: HostRuntime) -> Result<(), Fail> {
    let alloc = rt.alloc();
    assert!(rt; empty(alloc)?.types().is_empty());
    let lines =
        b"type D extending B, C { d: str; } type A { a: str; } type B extending A; type C { c: str; }";
    let lined = schema_in(alloc, lines).ok_or("the lines have no schema")?;
    assert!(rt; lines_are_whole(&lined));
    let bounds = b"type A { a: str; optional multi b: A; required c: A; multi required d: str; }";
    let bounded = schema_in(alloc, bounds).ok_or("the bounds have no schema")?;
    assert!(rt; bounds_as_written(&bounded));
    Ok(())
}
