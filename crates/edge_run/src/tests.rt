//! Worked runs over devices in memory.

use super::*;
use ev_io::{File, MemShelf, MemSink, OpenGate};
use ev_value::{Bytes, List, Text};
use std::alloc::{AllocError, Global};
use std::test::Fail;

// What each shelf holds: the schema `s` and its data `d`, the data `e` without an object, the schema `a` and its data `b`, the
// schema `g` with a global, and the queries `q` and `n`.
static FILES: [(&str, &str); 8] = [
    (
        "s",
        "abstract type Named { required name: str { constraint exclusive; } }\ntype User extending Named { age: int64; multi friends: User { strength: int64; } }\ntype Post { required title: str; required author: User; multi tags: str; }\n",
    ),
    (
        "d",
        r#"{"format":1,"objects":[{"id":"00000000-0000-0000-0000-000000000001","type":"User","name":"Ann","age":30,"friends":[{"id":"00000000-0000-0000-0000-000000000002","@strength":5}]},{"id":"00000000-0000-0000-0000-000000000002","type":"User","name":"Bob","friends":[{"id":"00000000-0000-0000-0000-000000000001","@strength":1},"00000000-0000-0000-0000-000000000003"]},{"id":"00000000-0000-0000-0000-000000000003","type":"User","name":"Cid","age":7},{"id":"00000000-0000-0000-0000-000000000004","type":"Post","title":"A","author":"00000000-0000-0000-0000-000000000001","tags":["x","y"]},{"id":"00000000-0000-0000-0000-000000000005","type":"Post","title":"B","author":"00000000-0000-0000-0000-000000000001"}]}"#,
    ),
    ("e", r#"{"format":1,"objects":[]}"#),
    ("a", "type A { x: int64; }"),
    (
        "b",
        r#"{"format":1,"objects":[{"id":"00000000-0000-0000-0000-000000000002","type":"A","x":7},{"id":"00000000-0000-0000-0000-000000000001","type":"A","x":5},{"id":"00000000-0000-0000-0000-000000000003","type":"A"}]}"#,
    ),
    ("q", "select A.x"),
    ("g", "global me: str;"),
    ("n", "select 1"),
];

fn file(alloc: Global, name: &str, text: &[u8]) -> Result<File, AllocError> {
    let name = Text::from_str(alloc, name)?;
    let bytes = Bytes::from_slice(alloc, text)?;
    Ok(File { name, bytes })
}

// A shelf that holds the text under the name `t`, and whose call at this place fails.
fn shelf(alloc: Global, text: &str, place: u64) -> Result<MemShelf, AllocError> {
    let mut files = List::new(alloc);
    files.push(file(alloc, "t", text.as_bytes())?)?;
    for (name, text) in &FILES {
        files.push(file(alloc, name, text.as_bytes())?)?;
    }
    let mut failing = List::new(alloc);
    failing.push(place)?;
    Ok(MemShelf::new(alloc, files, failing))
}

fn words(alloc: Global, line: &str) -> Result<List<Text>, AllocError> {
    let mut words = List::new(alloc);
    for word in line.split_whitespace() {
        words.push(Text::from_str(alloc, word)?)?;
    }
    Ok(words)
}

// A sink that takes so many bytes, and fails where there are more.
fn sink(alloc: Global, room: u64) -> Result<MemSink, AllocError> {
    MemSink::new(alloc, room, List::new(alloc))
}

fn run(
    alloc: Global,
    line: &str,
    shelf: &mut MemShelf,
    out: &mut MemSink,
    err: &mut MemSink,
) -> Result<u8, AllocError> {
    let words = words(alloc, line)?;
    let end = run_words(alloc, words.as_slice(), shelf, out, err, &OpenGate);
    Ok(end.status())
}

// Whether an end has the status, and the sinks took these texts.
fn is_told(
    end: u8,
    status: u8,
    out: &MemSink,
    answer: &str,
    err: &MemSink,
    complaint: &str,
) -> bool {
    end == status && out.taken() == answer.as_bytes() && err.taken() == complaint.as_bytes()
}

// Whether a run over the text ends with the status, and tells this: as the answer where it is done, and else as its line.
fn ends(alloc: Global, line: &str, text: &str, status: u8, told: &str) -> Result<bool, AllocError> {
    let mut shelf = shelf(alloc, text, 9)?;
    let mut out = sink(alloc, 4096)?;
    let mut err = sink(alloc, 4096)?;
    let end = run(alloc, line, &mut shelf, &mut out, &mut err)?;
    let (answer, complaint) = if status == 0 { (told, "") } else { ("", told) };
    Ok(is_told(end, status, &out, answer, &err, complaint))
}

// The words, the text, the status, and what is told.
static ROWS: [(&str, &str, u8, &str); 83] = [
    ("const none none t", "select {2, 1} + 1", 0, "[3,2]\n"),
    (
        "const none none t",
        "SELECT{1,2}+{10,20}",
        0,
        "[11,21,12,22]\n",
    ),
    (
        "const none none t",
        " \t\r\nselect\n007 # one\n;",
        0,
        "[7]\n",
    ),
    (
        "const none none t",
        "select {{1},2}+{10,20}",
        0,
        "[11,21,12,22]\n",
    ),
    (
        "const none none t",
        "select (1 + {2, 3,}) + (({4}))",
        0,
        "[7,8]\n",
    ),
    (
        "const none none t",
        "select 9223372036854775807",
        0,
        "[9223372036854775807]\n",
    ),
    (
        "const none none t",
        "select 9223372036854775807 + 1",
        9,
        "run fault 1\n",
    ),
    (
        "const none none t",
        "select {1, 9223372036854775807} + 1",
        9,
        "run fault 1\n",
    ),
    (
        "const none none t",
        r#"select "abc"#,
        8,
        "query S1 byte 7\n",
    ),
    (
        "const none none t",
        "select 9223372036854775808",
        8,
        "query S1 byte 7\n",
    ),
    (
        "const none none t",
        "select User {name",
        8,
        "query S2 token 4\n",
    ),
    ("const none none t", "select {1", 8, "query S2 token 3\n"),
    ("const none none t", "select1", 8, "query S2 token 0\n"),
    ("const none none t", "", 8, "query S2 token 0\n"),
    ("const none none t", "select 1 - 2", 8, "query unbuilt\n"),
    ("const none none t", "select {}", 8, "query unbuilt\n"),
    (
        "const none none t",
        "select 1 limit 1",
        8,
        "query unbuilt\n",
    ),
    (
        "const none none t",
        "with x := 1 select 1",
        8,
        "query unbuilt\n",
    ),
    ("const none none t --args none", "select 1", 0, "[1]\n"),
    ("const none none r", "", 3, "read query\n"),
    ("", "select 1", 2, "usage U1\n"),
    ("const none none", "select 1", 2, "usage U1\n"),
    ("const none none t t", "select 1", 2, "usage U1\n"),
    ("check s d none --args", "select 1", 2, "usage U1\n"),
    ("check s d none --workers 8", "select 1", 2, "usage U1\n"),
    ("check s d none none none", "select 1", 2, "usage U1\n"),
    (
        "check s d none --args none none",
        "select 1",
        2,
        "usage U1\n",
    ),
    ("fly none none t", "select 1", 2, "usage U2\n"),
    ("CONST none none t", "select 1", 2, "usage U2\n"),
    ("fly s d t --args none", "select 1", 2, "usage U2\n"),
    ("check s d none", "", 0, "types 3 objects 5\n"),
    ("check s d none --args none", "", 0, "types 3 objects 5\n"),
    (
        "check t d none",
        "module default {\nabstract type Named { required property name -> str { constraint exclusive; }; }\ntype User extending Named { property age -> int64; multi link friends -> User { property strength -> int64; }; }\ntype Post { required property title -> str; required link author -> User; multi property tags -> str; }\n}\n",
        0,
        "types 3 objects 5\n",
    ),
    (
        "check t e none",
        "type Z { x: int64; } type A extending Z; type B extending Z; type C extending A, B;",
        0,
        "types 4 objects 0\n",
    ),
    ("check t e none", "", 0, "types 0 objects 0\n"),
    (
        "check t e none",
        "type A { x: int64; } type B { x: str; } type C extending A, B;",
        5,
        "schema M4 byte 40\n",
    ),
    (
        "check t e none",
        "type A extending A {}",
        5,
        "schema M3 byte 0\n",
    ),
    (
        "check t e none",
        "type A { x: int65; }",
        5,
        "schema M2 byte 12\n",
    ),
    ("check t e none", "type A; type A;", 5, "schema M1 byte 8\n"),
    (
        "check t e none",
        "type A { x: int64",
        5,
        "schema S2 token 6\n",
    ),
    (
        "check t e none",
        r#"type A { x: "int64"#,
        5,
        "schema S1 byte 12\n",
    ),
    (
        "check t e none",
        "type A { x := 1; }",
        5,
        "schema unbuilt\n",
    ),
    (
        "check s t none",
        r#"{"format":1,"objects":[]}"#,
        0,
        "types 3 objects 0\n",
    ),
    (
        "check s t none",
        r#"{"format":1,"objects":[{"id":"00000000-0000-0000-0000-000000000001","type":"User","name":"Ann","age":30,"friends":[{"id":"00000000-0000-0000-0000-000000000002","@strength":5}]},{"id":"00000000-0000-0000-0000-000000000002","type":"User","name":"Bob","friends":[{"id":"00000000-0000-0000-0000-000000000001","@strength":1},"00000000-0000-0000-0000-000000000003"]},{"id":"00000000-0000-0000-0000-000000000003","type":"User","name":"Cid","age":7},{"id":"00000000-0000-0000-0000-000000000004","type":"Post","title":"A","author":"00000000-0000-0000-0000-000000000001","tags":["x","y"]},{"id":"00000000-0000-0000-0000-000000000005","type":"Post","title":"B","author":"00000000-0000-0000-0000-000000000001"}]"#,
        6,
        "data X1\n",
    ),
    ("check s t none", "[]", 6, "data X2\n"),
    (
        "check s t none",
        r#"{"format":1,"objects":[{"type":"User","name":"Ann"}]}"#,
        6,
        "data X3 object 0\n",
    ),
    (
        "check s t none",
        r#"{"format":1,"objects":[{"id":"00000000-0000-0000-0000-000000000003","type":"User","name":"Cid"},{"id":"00000000-0000-0000-0000-000000000002","type":"User","name":"Bob"},{"id":"00000000-0000-0000-0000-000000000002","type":"User","name":"Dan"}]}"#,
        6,
        "data X4 object 2 object 1\n",
    ),
    (
        "check s t none",
        r#"{"format":1,"objects":[{"id":"00000000-0000-0000-0000-000000000001","type":"Named","name":"Ann"}]}"#,
        6,
        "data X5 object 0\n",
    ),
    (
        "check s t none",
        r#"{"format":1,"objects":[{"id":"00000000-0000-0000-0000-000000000001","type":"User","name":"Ann","age":30,"friends":[{"id":"00000000-0000-0000-0000-000000000002","@strength":5}]},{"id":"00000000-0000-0000-0000-000000000002","type":"User","name":"Bob","friends":[{"id":"00000000-0000-0000-0000-000000000001","@strength":"1"},"00000000-0000-0000-0000-000000000003"]},{"id":"00000000-0000-0000-0000-000000000003","type":"User","name":"Cid","age":7},{"id":"00000000-0000-0000-0000-000000000004","type":"Post","title":"A","author":"00000000-0000-0000-0000-000000000001","tags":["x","y"]},{"id":"00000000-0000-0000-0000-000000000005","type":"Post","title":"B","author":"00000000-0000-0000-0000-000000000001"}]}"#,
        6,
        "data X7 object 1\n",
    ),
    (
        "check s t none",
        r#"{"format":1,"objects":[{"id":"00000000-0000-0000-0000-000000000001","type":"User","name":"Ann","age":30,"friends":[{"id":"00000000-0000-0000-0000-000000000002","@strength":5}]},{"id":"00000000-0000-0000-0000-000000000002","type":"User","name":"Bob","friends":[{"id":"00000000-0000-0000-0000-000000000001","@strength":1},"00000000-0000-0000-0000-000000000003"]},{"id":"00000000-0000-0000-0000-000000000003","type":"User","name":"Cid","age":7},{"id":"00000000-0000-0000-0000-000000000004","type":"Post","title":"A","author":"00000000-0000-0000-0000-000000000004","tags":["x","y"]},{"id":"00000000-0000-0000-0000-000000000005","type":"Post","title":"B","author":"00000000-0000-0000-0000-000000000001"}]}"#,
        6,
        "data X10 object 3\n",
    ),
    (
        "check s t none",
        r#"{"format":1,"objects":[{"id":"00000000-0000-0000-0000-000000000001","type":"User","name":"Ann","age":30,"friends":[{"id":"00000000-0000-0000-0000-000000000002","@strength":5},"00000000-0000-0000-0000-000000000002"]},{"id":"00000000-0000-0000-0000-000000000002","type":"User","name":"Bob","friends":[{"id":"00000000-0000-0000-0000-000000000001","@strength":1},"00000000-0000-0000-0000-000000000003"]},{"id":"00000000-0000-0000-0000-000000000003","type":"User","name":"Cid","age":7},{"id":"00000000-0000-0000-0000-000000000004","type":"Post","title":"A","author":"00000000-0000-0000-0000-000000000001","tags":["x","y"]},{"id":"00000000-0000-0000-0000-000000000005","type":"Post","title":"B","author":"00000000-0000-0000-0000-000000000001"}]}"#,
        6,
        "data X11 object 0\n",
    ),
    (
        "check s t none",
        r#"{"format":1,"objects":[{"id":"00000000-0000-0000-0000-000000000001","type":"User","name":"Ann","age":30,"friends":[{"id":"00000000-0000-0000-0000-000000000002","@strength":5}]},{"id":"00000000-0000-0000-0000-000000000002","type":"User","name":"Ann","friends":[{"id":"00000000-0000-0000-0000-000000000001","@strength":1},"00000000-0000-0000-0000-000000000003"]},{"id":"00000000-0000-0000-0000-000000000003","type":"User","name":"Cid","age":7},{"id":"00000000-0000-0000-0000-000000000004","type":"Post","title":"A","author":"00000000-0000-0000-0000-000000000001","tags":["x","y"]},{"id":"00000000-0000-0000-0000-000000000005","type":"Post","title":"B","author":"00000000-0000-0000-0000-000000000001"}]}"#,
        6,
        "data X13 object 1 object 0\n",
    ),
    ("check none d none", "", 3, "read schema\n"),
    ("check s none none", "", 3, "read data\n"),
    (
        "check t none none",
        "type A extending A {}",
        5,
        "schema M3 byte 0\n",
    ),
    ("run a b t", "select A.x", 0, "[5,7]\n"),
    (
        "run a b t",
        "select A.id",
        0,
        "[\"00000000-0000-0000-0000-000000000001\",\"00000000-0000-0000-0000-000000000002\",\"00000000-0000-0000-0000-000000000003\"]\n",
    ),
    (
        "run a b t",
        "select {1, 2} + {10, 20}",
        0,
        "[11,21,12,22]\n",
    ),
    (
        "run a b t",
        "select 9223372036854775807 + 1",
        9,
        "run fault 1\n",
    ),
    ("run a b t", "select A.x + 1", 8, "query unbuilt\n"),
    ("run a b t", "select B.x", 8, "query unbuilt\n"),
    ("run a b t", "select A.y", 8, "query unbuilt\n"),
    ("run a b t", "select A", 8, "query unbuilt\n"),
    ("run a b t", "select {1", 8, "query S2 token 3\n"),
    (
        "run s d t",
        "select Named.name",
        0,
        "[\"Ann\",\"Bob\",\"Cid\"]\n",
    ),
    ("run s d t", "select User.age", 0, "[30,7]\n"),
    ("run s d t", "select Post.title", 0, "[\"A\",\"B\"]\n"),
    ("run s d t", "select User.friends", 8, "query unbuilt\n"),
    ("run s d t", "select Post.tags", 8, "query unbuilt\n"),
    ("run s e t", "select User.name", 0, "[]\n"),
    ("run a b q --args t", "{}", 0, "[5,7]\n"),
    ("run a b q --args t", "[]", 7, "args A1\n"),
    (
        "run a b q --args t",
        r#"{"params":{"x":1}}"#,
        7,
        "args A2 $x\n",
    ),
    (
        "run a b q --args t",
        r#"{"globals":{"me":"Bob"},"params":{"x":1}}"#,
        7,
        "args A2 global me\n",
    ),
    ("run g e t", "select 1", 0, "[1]\n"),
    (
        "run g e q --args t",
        r#"{"globals":{"me":"Bob"}}"#,
        8,
        "query unbuilt\n",
    ),
    (
        "run g e n --args t",
        r#"{"globals":{"me":"Bob"}}"#,
        0,
        "[1]\n",
    ),
    (
        "run g e n --args t",
        r#"{"globals":{"me":1}}"#,
        7,
        "args A3 global me\n",
    ),
    ("run a b q --args none", "", 3, "read args\n"),
    ("run a b none --args none", "", 3, "read query\n"),
    ("run a none none", "", 3, "read data\n"),
    (
        "run t none none",
        "type A extending A {}",
        5,
        "schema M3 byte 0\n",
    ),
    ("run s t none", "[]", 6, "data X2\n"),
];

// The first row that ends otherwise, or how many rows there are.
fn first_other(alloc: Global, rows: &[(&str, &str, u8, &str)]) -> Result<usize, AllocError> {
    for (i, (line, text, status, told)) in rows.iter().enumerate() {
        if !ends(alloc, line, text, *status, told)? {
            return Ok(i);
        }
    }
    Ok(rows.len())
}

#[test]
fn runs_end_as_written(rt: HostRuntime) -> Result<(), Fail> {
    assert_eq!(rt; first_other(rt.alloc(), &ROWS)?, ROWS.len());
    Ok(())
}

// `select`, so many times one text, a one, and so many times another.
fn repeated(alloc: Global, times: u32, before: &str, behind: &str) -> Result<String, AllocError> {
    let mut text = String::from_str(alloc, "select ")?;
    for _ in 0..times {
        text.push_str(before)?;
    }
    text.push_str("1")?;
    for _ in 0..times {
        text.push_str(behind)?;
    }
    Ok(text)
}

// Whether a run over a text that repeats others round a one ends so.
fn repeats(
    alloc: Global,
    line: &str,
    times: u32,
    before: &str,
    behind: &str,
    status: u8,
    told: &str,
) -> Result<bool, AllocError> {
    let text = repeated(alloc, times, before, behind)?;
    ends(alloc, line, text.as_str(), status, told)
}

// A sum of so many terms is as high as they are many, and the statement is one higher: at most 60.
#[test]
fn texts_have_limits(rt: HostRuntime) -> Result<(), Fail> {
    let alloc = rt.alloc();
    let line = "const none none t";
    assert!(rt; repeats(alloc, line, 40, "(", ")", 0, "[1]\n")?);
    assert!(rt; repeats(alloc, line, 41, "(", ")", 8, "query S3 token 41\n")?);
    assert!(rt; repeats(alloc, line, 58, "1 + ", "", 0, "[59]\n")?);
    assert!(rt; repeats(alloc, line, 59, "1 + ", "", 8, "query S3 token 120\n")?);
    assert!(rt; repeats(alloc, line, 1_048_568, "", " ", 0, "[1]\n")?);
    assert!(rt; repeats(alloc, line, 1_048_569, "", " ", 11, "long query\n")?);
    assert!(rt;
        repeats(
            alloc,
            "check t e none",
            1_048_569,
            "",
            " ",
            11,
            "long schema\n"
        )?
    );
    assert!(rt;
        repeats(
            alloc,
            "run a b n --args t",
            1_048_569,
            "",
            " ",
            11,
            "long args\n"
        )?
    );
    Ok(())
}

// Whether a run over a shelf whose call at this place fails, and over sinks with so much room, ends with the status, with these
// texts at the sinks.
fn fails(
    alloc: Global,
    line: &str,
    place: u64,
    rooms: [u64; 2],
    status: u8,
    answer: &str,
    complaint: &str,
) -> Result<bool, AllocError> {
    let mut shelf = shelf(alloc, "select {2, 1} + 1", place)?;
    let mut out = sink(alloc, rooms[0])?;
    let mut err = sink(alloc, rooms[1])?;
    let end = run(alloc, line, &mut shelf, &mut out, &mut err)?;
    Ok(is_told(end, status, &out, answer, &err, complaint))
}

#[test]
fn failing_devices_are_told(rt: HostRuntime) -> Result<(), Fail> {
    let alloc = rt.alloc();
    let line = "const none none t";
    let check = "check s d none";
    assert!(rt; fails(alloc, line, 9, [0, 99], 4, "", "")?);
    assert!(rt; fails(alloc, line, 9, [2, 99], 4, "[3", "")?);
    assert!(rt; fails(alloc, line, 9, [5, 99], 4, "[3,2]", "")?);
    assert!(rt; fails(alloc, line, 0, [99, 99], 3, "", "read query\n")?);
    assert!(rt; fails(alloc, check, 0, [99, 99], 3, "", "read schema\n")?);
    assert!(rt; fails(alloc, check, 1, [99, 99], 3, "", "read data\n")?);
    assert!(rt;
        fails(
            alloc,
            "run s d t --args e",
            2,
            [99, 99],
            3,
            "",
            "read query\n"
        )?
    );
    assert!(rt;
        fails(
            alloc,
            "run s d t --args e",
            3,
            [99, 99],
            3,
            "",
            "read args\n"
        )?
    );
    assert!(rt; fails(alloc, "fly s d t", 9, [99, 3], 4, "", "usa")?);
    Ok(())
}
