//! Texts of data over two schemas, with what comes of them.

use core_ir::TypeId;
use db_check::Store;
use db_draft::{DataRefusal, Rule};
use db_load::load;
use ev_lex::{Tokens, lex};
use ev_schema::Schema;
use schema_build::build;
use sdl_parse::parse_schema;
use std::alloc::Global;
use std::test::Fail;

/// How many objects the store of a text has, or the rule that is told with the object and the other one.
type Outcome = Result<usize, (Rule, Option<u32>, Option<u32>)>;

static PEOPLE: &str = r#"abstract type Named { required name: str { constraint exclusive; } }
type User extending Named { age: int64; multi friends: User { strength: int64; } }
type Post { required title: str; required author: User; multi tags: str; }"#;

static THINGS: &str = r#"abstract type Thing { code: str { constraint exclusive; } }
type A extending Thing {
  n: int64 { constraint min_value(1); constraint max_ex_value(5); }
  multi words: str { constraint max_len_value(3); constraint exclusive; }
  type: str; flag: bool; key: uuid; only: str { constraint one_of('x', 'y'); }
  to: Thing; required multi all: Thing { weight: int64; }
}
type B extending Thing;"#;

static DATA: &str =
    r#"{"format":1,"objects":[{"id":"00000000-0000-0000-0000-000000000001","type":"User","name":"Ann","age":30,"friends":[{"id":"00000000-0000-0000-0000-000000000002","@strength":5}]},{"id":"00000000-0000-0000-0000-000000000002","type":"User","name":"Bob","friends":[{"id":"00000000-0000-0000-0000-000000000001","@strength":1},"00000000-0000-0000-0000-000000000003"]},{"id":"00000000-0000-0000-0000-000000000003","type":"User","name":"Cid","age":7},{"id":"00000000-0000-0000-0000-000000000004","type":"Post","title":"A","author":"00000000-0000-0000-0000-000000000001","tags":["x","y"]},{"id":"00000000-0000-0000-0000-000000000005","type":"Post","title":"B","author":"00000000-0000-0000-0000-000000000001"}]}"#;

static PEOPLE_ROWS: [(&str, Outcome); 65] = [
    (
        r#"{"format":1,"objects":[{"id":"00000000-0000-0000-0000-000000000001","type":"User","name":"Ann","age":30,"friends":[{"id":"00000000-0000-0000-0000-000000000002","@strength":5}]},{"id":"00000000-0000-0000-0000-000000000002","type":"User","name":"Bob","friends":[{"id":"00000000-0000-0000-0000-000000000001","@strength":1},"00000000-0000-0000-0000-000000000003"]},{"id":"00000000-0000-0000-0000-000000000003","type":"User","name":"Cid","age":7},{"id":"00000000-0000-0000-0000-000000000004","type":"Post","title":"A","author":"00000000-0000-0000-0000-000000000001","tags":["x","y"]},{"id":"00000000-0000-0000-0000-000000000005","type":"Post","title":"B","author":"00000000-0000-0000-0000-000000000001"}]}"#,
        Ok(5),
    ),
    (r#"{"format":1,"objects":[]}"#, Ok(0)),
    (
        r#"{"format":1,"objects":[{"id":"00000000-0000-0000-0000-000000000001","type":"User","name":"Ann","age":30,"friends":[{"id":"00000000-0000-0000-0000-000000000002","@strength":5}]},{"id":"00000000-0000-0000-0000-000000000002","type":"User","name":"Ann","friends":[{"id":"00000000-0000-0000-0000-000000000001","@strength":1},"00000000-0000-0000-0000-000000000003"]},{"id":"00000000-0000-0000-0000-000000000003","type":"User","name":"Cid","age":7},{"id":"00000000-0000-0000-0000-000000000004","type":"Post","title":"A","author":"00000000-0000-0000-0000-000000000001","tags":["x","y"]},{"id":"00000000-0000-0000-0000-000000000005","type":"Post","title":"B","author":"00000000-0000-0000-0000-000000000001"}]}"#,
        Err((Rule::X13, Some(1), Some(0))),
    ),
    (r#"{"format":1,"objects":[]"#, Err((Rule::X1, None, None))),
    (
        r#"{"format":1e400,"objects":[]}"#,
        Err((Rule::X1, None, None)),
    ),
    (r#""#, Err((Rule::X1, None, None))),
    (r#"[]"#, Err((Rule::X2, None, None))),
    (r#"{"format":2,"objects":[]}"#, Err((Rule::X2, None, None))),
    (
        r#"{"format":1.0,"objects":[]}"#,
        Err((Rule::X2, None, None)),
    ),
    (r#"{"format":1}"#, Err((Rule::X2, None, None))),
    (r#"{"objects":[]}"#, Err((Rule::X2, None, None))),
    (r#"{"format":1,"objects":{}}"#, Err((Rule::X2, None, None))),
    (
        r#"{"format":1,"objects":[],"more":1}"#,
        Err((Rule::X2, None, None)),
    ),
    (r#"{"format":1,"objects":[1]}"#, Err((Rule::X2, None, None))),
    (
        r#"{"format":1,"objects":null}"#,
        Err((Rule::X2, None, None)),
    ),
    (r#"{"format":3,"objects":[],"format":1}"#, Ok(0)),
    (
        r#"{"format":1,"objects":[{"type":"User","name":"Ann"}]}"#,
        Err((Rule::X3, Some(0), None)),
    ),
    (
        r#"{"format":1,"objects":[{"id":1,"type":"User"}]}"#,
        Err((Rule::X3, Some(0), None)),
    ),
    (
        r#"{"format":1,"objects":[{"id":"00000000-0000-0000-0000-000000000003","type":"User","name":"Cid","age":7},{"id":"me","type":"None"}]}"#,
        Err((Rule::X3, Some(1), None)),
    ),
    (
        r#"{"format":1,"objects":[{"id":"00000000-0000-0000-0000-000000000003","type":"User","name":"Cid","age":7},{"id":"00000000-0000-0000-0000-000000000003","type":"User","name":"Dan"}]}"#,
        Err((Rule::X4, Some(1), Some(0))),
    ),
    (
        r#"{"format":1,"objects":[{"id":"00000000-0000-0000-0000-000000000003","type":"User","name":"Cid","age":7},{"id":"00000000-0000-0000-0000-000000000002","type":"User","name":"Dan"},{"id":"00000000-0000-0000-0000-000000000003","type":"User","name":"Eve"},{"id":"00000000-0000-0000-0000-000000000003","type":"User","name":"Fay"}]}"#,
        Err((Rule::X4, Some(2), Some(0))),
    ),
    (
        r#"{"format":1,"objects":[{"id":"00000000-0000-0000-0000-000000000003","type":"User","name":"Cid","age":7},{"id":"00000000-0000-0000-0000-000000000003","type":"None"}]}"#,
        Err((Rule::X4, Some(1), Some(0))),
    ),
    (
        r#"{"format":1,"objects":[{"id":"00000000-0000-0000-0000-000000000003","type":"None","name":"Ann"}]}"#,
        Err((Rule::X5, Some(0), None)),
    ),
    (
        r#"{"format":1,"objects":[{"id":"00000000-0000-0000-0000-000000000003","type":"Named","name":"Ann"}]}"#,
        Err((Rule::X5, Some(0), None)),
    ),
    (
        r#"{"format":1,"objects":[{"id":"00000000-0000-0000-0000-000000000003","type":null,"name":"Ann"}]}"#,
        Err((Rule::X5, Some(0), None)),
    ),
    (
        r#"{"format":1,"objects":[{"id":"00000000-0000-0000-0000-000000000003","type":5,"name":"Ann"}]}"#,
        Err((Rule::X5, Some(0), None)),
    ),
    (
        r#"{"format":1,"objects":[{"id":"00000000-0000-0000-0000-000000000003","type":"str","name":"Ann"}]}"#,
        Err((Rule::X5, Some(0), None)),
    ),
    (
        r#"{"format":1,"objects":[{"id":"00000000-0000-0000-0000-000000000003","type":["User"],"name":"Ann"}]}"#,
        Err((Rule::X5, Some(0), None)),
    ),
    (
        r#"{"format":1,"objects":[{"id":"00000000-0000-0000-0000-000000000003","name":"Ann"}]}"#,
        Err((Rule::X5, Some(0), None)),
    ),
    (
        r#"{"format":1,"objects":[{"id":"00000000-0000-0000-0000-000000000003","type":"User","nam":"x"},{"id":"00000000-0000-0000-0000-000000000003","type":"User"}]}"#,
        Err((Rule::X4, Some(1), Some(0))),
    ),
    (
        r#"{"format":1,"objects":[{"id":"00000000-0000-0000-0000-000000000003","type":"User","name":"Ann","nam":null}]}"#,
        Err((Rule::X6, Some(0), None)),
    ),
    (
        r#"{"format":1,"objects":[{"id":"00000000-0000-0000-0000-000000000003","type":"User","name":"Ann","friends":[{"id":"00000000-0000-0000-0000-000000000003","strength":1}]}]}"#,
        Err((Rule::X6, Some(0), None)),
    ),
    (
        r#"{"format":1,"objects":[{"id":"00000000-0000-0000-0000-000000000003","type":"User","name":"Ann","friends":[{"id":"00000000-0000-0000-0000-000000000003","@weight":null}]}]}"#,
        Err((Rule::X6, Some(0), None)),
    ),
    (
        r#"{"format":1,"objects":[{"id":"00000000-0000-0000-0000-000000000003","type":"User","name":"Ann","friends":[{"id":"00000000-0000-0000-0000-000000000003","@":1}]}]}"#,
        Err((Rule::X6, Some(0), None)),
    ),
    (
        r#"{"format":1,"objects":[{"id":"00000000-0000-0000-0000-000000000003","type":"User","name":5}]}"#,
        Err((Rule::X7, Some(0), None)),
    ),
    (
        r#"{"format":1,"objects":[{"id":"00000000-0000-0000-0000-000000000003","type":"User","name":"Ann","age":1.5}]}"#,
        Err((Rule::X7, Some(0), None)),
    ),
    (
        r#"{"format":1,"objects":[{"id":"00000000-0000-0000-0000-000000000003","type":"User","name":"Ann","age":9223372036854775808}]}"#,
        Err((Rule::X7, Some(0), None)),
    ),
    (
        r#"{"format":1,"objects":[{"id":"00000000-0000-0000-0000-000000000003","type":"User","name":"Ann","age":-9223372036854775808}]}"#,
        Ok(1),
    ),
    (
        r#"{"format":1,"objects":[{"id":"00000000-0000-0000-0000-000000000003","type":"User","name":"Ann","age":{}}]}"#,
        Err((Rule::X7, Some(0), None)),
    ),
    (
        r#"{"format":1,"objects":[{"id":"00000000-0000-0000-0000-000000000003","type":"User","name":"Ann","friends":"00000000-0000-0000-0000-000000000003"}]}"#,
        Err((Rule::X7, Some(0), None)),
    ),
    (
        r#"{"format":1,"objects":[{"id":"00000000-0000-0000-0000-000000000003","type":"User","name":"Ann","friends":null}]}"#,
        Ok(1),
    ),
    (
        r#"{"format":1,"objects":[{"id":"00000000-0000-0000-0000-000000000003","type":"User","name":"Ann","friends":[{"id":"00000000-0000-0000-0000-000000000003","@strength":"x"}]}]}"#,
        Err((Rule::X7, Some(0), None)),
    ),
    (
        r#"{"format":1,"objects":[{"id":"00000000-0000-0000-0000-000000000003","type":"User","name":"Ann","friends":[{"id":"00000000-0000-0000-0000-000000000003","@strength":null}]}]}"#,
        Ok(1),
    ),
    (
        r#"{"format":1,"objects":[{"id":"00000000-0000-0000-0000-000000000001","type":"User","name":"Ann","age":30,"friends":[{"id":"00000000-0000-0000-0000-000000000002","@strength":5}]},{"id":"00000000-0000-0000-0000-000000000002","type":"User","name":"Bob","friends":[{"id":"00000000-0000-0000-0000-000000000001","@strength":1},"00000000-0000-0000-0000-000000000003"]},{"id":"00000000-0000-0000-0000-000000000003","type":"User","name":"Cid","age":7},{"id":"00000000-0000-0000-0000-000000000004","type":"Post","title":"A","author":"00000000-0000-0000-0000-000000000001","tags":["x",null]}]}"#,
        Err((Rule::X7, Some(3), None)),
    ),
    (
        r#"{"format":1,"objects":[{"id":"00000000-0000-0000-0000-000000000001","type":"User","name":"Ann","age":30,"friends":[{"id":"00000000-0000-0000-0000-000000000002","@strength":5}]},{"id":"00000000-0000-0000-0000-000000000002","type":"User","name":"Bob","friends":[{"id":"00000000-0000-0000-0000-000000000001","@strength":1},"00000000-0000-0000-0000-000000000003"]},{"id":"00000000-0000-0000-0000-000000000003","type":"User","name":"Cid","age":7},{"id":"00000000-0000-0000-0000-000000000004","type":"Post","title":"A","author":"00000000-0000-0000-0000-000000000001","tags":["x",["y"]]}]}"#,
        Err((Rule::X7, Some(3), None)),
    ),
    (
        r#"{"format":1,"objects":[{"id":"00000000-0000-0000-0000-000000000001","type":"User","name":"Ann","age":30,"friends":[{"id":"00000000-0000-0000-0000-000000000002","@strength":5}]},{"id":"00000000-0000-0000-0000-000000000002","type":"User","name":"Bob","friends":[{"id":"00000000-0000-0000-0000-000000000001","@strength":1},"00000000-0000-0000-0000-000000000003"]},{"id":"00000000-0000-0000-0000-000000000003","type":"User","name":"Cid","age":7},{"id":"00000000-0000-0000-0000-000000000004","type":"Post","title":"A","author":"00000000-0000-0000-0000-000000000001","tags":"x"}]}"#,
        Err((Rule::X7, Some(3), None)),
    ),
    (
        r#"{"format":1,"objects":[{"id":"00000000-0000-0000-0000-000000000003","type":"User"}]}"#,
        Err((Rule::X8, Some(0), None)),
    ),
    (
        r#"{"format":1,"objects":[{"id":"00000000-0000-0000-0000-000000000003","type":"User","name":null}]}"#,
        Err((Rule::X8, Some(0), None)),
    ),
    (
        r#"{"format":1,"objects":[{"id":"00000000-0000-0000-0000-000000000001","type":"User","name":"Ann","age":30,"friends":[{"id":"00000000-0000-0000-0000-000000000002","@strength":5}]},{"id":"00000000-0000-0000-0000-000000000002","type":"User","name":"Bob","friends":[{"id":"00000000-0000-0000-0000-000000000001","@strength":1},"00000000-0000-0000-0000-000000000003"]},{"id":"00000000-0000-0000-0000-000000000003","type":"User","name":"Cid","age":7},{"id":"00000000-0000-0000-0000-000000000004","type":"Post","title":"A"}]}"#,
        Err((Rule::X8, Some(3), None)),
    ),
    (
        r#"{"format":1,"objects":[{"id":"00000000-0000-0000-0000-000000000003","type":"User","name":["Ann"]}]}"#,
        Err((Rule::X9, Some(0), None)),
    ),
    (
        r#"{"format":1,"objects":[{"id":"00000000-0000-0000-0000-000000000001","type":"User","name":"Ann","age":30,"friends":[{"id":"00000000-0000-0000-0000-000000000002","@strength":5}]},{"id":"00000000-0000-0000-0000-000000000002","type":"User","name":"Bob","friends":[{"id":"00000000-0000-0000-0000-000000000001","@strength":1},"00000000-0000-0000-0000-000000000003"]},{"id":"00000000-0000-0000-0000-000000000003","type":"User","name":"Cid","age":7},{"id":"00000000-0000-0000-0000-000000000004","type":"Post","title":"A","author":["00000000-0000-0000-0000-000000000001"],"tags":["x","y"]}]}"#,
        Err((Rule::X9, Some(3), None)),
    ),
    (
        r#"{"format":1,"objects":[{"id":"00000000-0000-0000-0000-000000000001","type":"User","name":"Ann","age":30,"friends":[{"id":"00000000-0000-0000-0000-000000000002","@strength":5}]},{"id":"00000000-0000-0000-0000-000000000002","type":"User","name":"Bob","friends":[{"id":"00000000-0000-0000-0000-000000000001","@strength":1},"00000000-0000-0000-0000-000000000003"]},{"id":"00000000-0000-0000-0000-000000000003","type":"User","name":"Cid","age":7},{"id":"00000000-0000-0000-0000-000000000004","type":"Post","title":"A","author":"me","tags":["x","y"]}]}"#,
        Err((Rule::X3, Some(3), None)),
    ),
    (
        r#"{"format":1,"objects":[{"id":"00000000-0000-0000-0000-000000000001","type":"User","name":"Ann","age":30,"friends":[{"id":"00000000-0000-0000-0000-000000000002","@strength":5}]},{"id":"00000000-0000-0000-0000-000000000002","type":"User","name":"Bob","friends":[{"id":"00000000-0000-0000-0000-000000000001","@strength":1},"00000000-0000-0000-0000-000000000003"]},{"id":"00000000-0000-0000-0000-000000000003","type":"User","name":"Cid","age":7},{"id":"00000000-0000-0000-0000-000000000004","type":"Post","title":"A","author":true,"tags":["x","y"]}]}"#,
        Err((Rule::X3, Some(3), None)),
    ),
    (
        r#"{"format":1,"objects":[{"id":"00000000-0000-0000-0000-000000000001","type":"User","name":"Ann","age":30,"friends":[{"id":"00000000-0000-0000-0000-000000000002","@strength":5}]},{"id":"00000000-0000-0000-0000-000000000002","type":"User","name":"Bob","friends":[{"id":"00000000-0000-0000-0000-000000000001","@strength":1},"00000000-0000-0000-0000-000000000003"]},{"id":"00000000-0000-0000-0000-000000000003","type":"User","name":"Cid","age":7},{"id":"00000000-0000-0000-0000-000000000004","type":"Post","title":"A","author":{"name":"Ann"},"tags":["x","y"]}]}"#,
        Err((Rule::X3, Some(3), None)),
    ),
    (
        r#"{"format":1,"objects":[{"id":"00000000-0000-0000-0000-000000000003","type":"User","name":"Ann","friends":[null]}]}"#,
        Err((Rule::X3, Some(0), None)),
    ),
    (
        r#"{"format":1,"objects":[{"id":"00000000-0000-0000-0000-000000000003","type":"User","name":"Ann","friends":[["00000000-0000-0000-0000-000000000003"]]}]}"#,
        Err((Rule::X3, Some(0), None)),
    ),
    (
        r#"{"format":1,"objects":[{"id":"00000000-0000-0000-0000-000000000003","type":"User","name":"Ann","friends":[{"id":"me","more":1}]}]}"#,
        Err((Rule::X3, Some(0), None)),
    ),
    (
        r#"{"format":1,"objects":[{"id":"00000000-0000-0000-0000-000000000003","type":"User","name":"Ann","friends":["00000000-0000-0000-0000-000000000004"]}]}"#,
        Err((Rule::X10, Some(0), None)),
    ),
    (
        r#"{"format":1,"objects":[{"id":"00000000-0000-0000-0000-000000000001","type":"User","name":"Ann","age":30,"friends":[{"id":"00000000-0000-0000-0000-000000000002","@strength":5}]},{"id":"00000000-0000-0000-0000-000000000002","type":"User","name":"Bob","friends":[{"id":"00000000-0000-0000-0000-000000000001","@strength":1},"00000000-0000-0000-0000-000000000003"]},{"id":"00000000-0000-0000-0000-000000000003","type":"User","name":"Cid","age":7},{"id":"00000000-0000-0000-0000-000000000005","type":"Post","title":"B","author":"00000000-0000-0000-0000-000000000001"},{"id":"00000000-0000-0000-0000-000000000004","type":"Post","title":"A","author":"00000000-0000-0000-0000-000000000005","tags":["x","y"]}]}"#,
        Err((Rule::X10, Some(4), None)),
    ),
    (
        r#"{"format":1,"objects":[{"id":"00000000-0000-0000-0000-000000000002","type":"User","name":"Bob"},{"id":"00000000-0000-0000-0000-000000000003","type":"User","name":"Ann","friends":["00000000-0000-0000-0000-000000000003","00000000-0000-0000-0000-000000000002",{"id":"00000000-0000-0000-0000-000000000002","@strength":1},"00000000-0000-0000-0000-000000000003"]}]}"#,
        Err((Rule::X11, Some(1), Some(0))),
    ),
    (
        r#"{"format":1,"objects":[{"id":"00000000-0000-0000-0000-000000000003","type":"User","name":"Ann","age":"x","aaa":1}]}"#,
        Err((Rule::X6, Some(0), None)),
    ),
    (
        r#"{"format":1,"objects":[{"id":"00000000-0000-0000-0000-000000000003","type":"User","name":"Ann","age":"x","zzz":1}]}"#,
        Err((Rule::X7, Some(0), None)),
    ),
    (
        r#"{"format":1,"objects":[{"id":"00000000-0000-0000-0000-000000000003","type":"User","name":"Ann","friends":["me"],"age":[]}]}"#,
        Err((Rule::X9, Some(0), None)),
    ),
    (
        r#"{"format":1,"objects":[{"id":"00000000-0000-0000-0000-000000000003","type":"User","friends":["me"]}]}"#,
        Err((Rule::X3, Some(0), None)),
    ),
    (
        r#"{"format":1,"objects":[{"id":"00000000-0000-0000-0000-000000000003","type":"User","name":5},{"id":"00000000-0000-0000-0000-000000000004","type":"None"}]}"#,
        Err((Rule::X5, Some(1), None)),
    ),
];

static THING_ROWS: [(&str, Outcome); 20] = [
    (
        r#"{"format":1,"objects":[{"id":"00000000-0000-0000-0000-000000000009","type":"B"},{"id":"00000000-0000-0000-0000-000000000001","type":"A","all":["00000000-0000-0000-0000-000000000009"],"n":1}]}"#,
        Ok(2),
    ),
    (
        r#"{"format":1,"objects":[{"id":"00000000-0000-0000-0000-000000000009","type":"B"},{"id":"00000000-0000-0000-0000-000000000001","type":"A","all":["00000000-0000-0000-0000-000000000009"],"n":0}]}"#,
        Err((Rule::X12, Some(1), None)),
    ),
    (
        r#"{"format":1,"objects":[{"id":"00000000-0000-0000-0000-000000000009","type":"B"},{"id":"00000000-0000-0000-0000-000000000001","type":"A","all":["00000000-0000-0000-0000-000000000009"],"n":5}]}"#,
        Err((Rule::X12, Some(1), None)),
    ),
    (
        r#"{"format":1,"objects":[{"id":"00000000-0000-0000-0000-000000000009","type":"B"},{"id":"00000000-0000-0000-0000-000000000001","type":"A","all":["00000000-0000-0000-0000-000000000009"],"words":["ab","abcd"]}]}"#,
        Err((Rule::X12, Some(1), None)),
    ),
    (
        r#"{"format":1,"objects":[{"id":"00000000-0000-0000-0000-000000000009","type":"B"},{"id":"00000000-0000-0000-0000-000000000001","type":"A","all":["00000000-0000-0000-0000-000000000009"],"words":["äöü"]}]}"#,
        Ok(2),
    ),
    (
        r#"{"format":1,"objects":[{"id":"00000000-0000-0000-0000-000000000009","type":"B"},{"id":"00000000-0000-0000-0000-000000000001","type":"A","all":["00000000-0000-0000-0000-000000000009"],"only":"z"}]}"#,
        Err((Rule::X12, Some(1), None)),
    ),
    (
        r#"{"format":1,"objects":[{"id":"00000000-0000-0000-0000-000000000009","type":"B"},{"id":"00000000-0000-0000-0000-000000000001","type":"A","all":["00000000-0000-0000-0000-000000000009"],"only":"x"}]}"#,
        Ok(2),
    ),
    (
        r#"{"format":1,"objects":[{"id":"00000000-0000-0000-0000-000000000009","type":"B"},{"id":"00000000-0000-0000-0000-000000000001","type":"A","all":["00000000-0000-0000-0000-000000000009"],".type":"x"}]}"#,
        Ok(2),
    ),
    (
        r#"{"format":1,"objects":[{"id":"00000000-0000-0000-0000-000000000009","type":"B"},{"id":"00000000-0000-0000-0000-000000000001","type":"A","all":["00000000-0000-0000-0000-000000000009"],".type":5}]}"#,
        Err((Rule::X7, Some(1), None)),
    ),
    (
        r#"{"format":1,"objects":[{"id":"00000000-0000-0000-0000-000000000009","type":"B"},{"id":"00000000-0000-0000-0000-000000000001","type":"A","all":["00000000-0000-0000-0000-000000000009"],"key":"00000000-0000-0000-0000-000000000007"}]}"#,
        Ok(2),
    ),
    (
        r#"{"format":1,"objects":[{"id":"00000000-0000-0000-0000-000000000009","type":"B"},{"id":"00000000-0000-0000-0000-000000000001","type":"A","all":["00000000-0000-0000-0000-000000000009"],"key":"x"}]}"#,
        Err((Rule::X7, Some(1), None)),
    ),
    (
        r#"{"format":1,"objects":[{"id":"00000000-0000-0000-0000-000000000009","type":"B"},{"id":"00000000-0000-0000-0000-000000000001","type":"A","all":["00000000-0000-0000-0000-000000000009"],"flag":1}]}"#,
        Err((Rule::X7, Some(1), None)),
    ),
    (
        r#"{"format":1,"objects":[{"id":"00000000-0000-0000-0000-000000000009","type":"B"},{"id":"00000000-0000-0000-0000-000000000001","type":"A","all":["00000000-0000-0000-0000-000000000009","00000000-0000-0000-0000-000000000001"],"to":"00000000-0000-0000-0000-000000000001"}]}"#,
        Ok(2),
    ),
    (
        r#"{"format":1,"objects":[{"id":"00000000-0000-0000-0000-000000000009","type":"B"},{"id":"00000000-0000-0000-0000-000000000001","type":"A","all":[]}]}"#,
        Err((Rule::X8, Some(1), None)),
    ),
    (
        r#"{"format":1,"objects":[{"id":"00000000-0000-0000-0000-000000000009","type":"B"},{"id":"00000000-0000-0000-0000-000000000001","type":"A","all":[{"id":"00000000-0000-0000-0000-000000000009","@weight":2,"@weight ":1}]}]}"#,
        Err((Rule::X6, Some(1), None)),
    ),
    (
        r#"{"format":1,"objects":[{"id":"00000000-0000-0000-0000-000000000009","type":"B","code":"q"},{"id":"00000000-0000-0000-0000-000000000001","type":"A","all":["00000000-0000-0000-0000-000000000009"],"code":"q"}]}"#,
        Err((Rule::X13, Some(1), Some(0))),
    ),
    (
        r#"{"format":1,"objects":[{"id":"00000000-0000-0000-0000-000000000009","type":"B"},{"id":"00000000-0000-0000-0000-000000000001","type":"A","all":["00000000-0000-0000-0000-000000000009"],"words":["a","b","a"]}]}"#,
        Err((Rule::X13, Some(1), Some(1))),
    ),
    (
        r#"{"format":1,"objects":[{"id":"00000000-0000-0000-0000-000000000009","type":"B"},{"id":"00000000-0000-0000-0000-000000000001","type":"A","all":["00000000-0000-0000-0000-000000000009"],"words":["a","b"]},{"id":"00000000-0000-0000-0000-000000000002","type":"A","all":["00000000-0000-0000-0000-000000000009"],"words":["c"]},{"id":"00000000-0000-0000-0000-000000000003","type":"A","all":["00000000-0000-0000-0000-000000000009"],"words":["c","b"]}]}"#,
        Err((Rule::X13, Some(3), Some(1))),
    ),
    (
        r#"{"format":1,"objects":[{"id":"00000000-0000-0000-0000-000000000009","type":"B","code":"q"},{"id":"00000000-0000-0000-0000-000000000001","type":"A","all":["00000000-0000-0000-0000-000000000009"],"words":["a"]},{"id":"00000000-0000-0000-0000-000000000002","type":"A","all":["00000000-0000-0000-0000-000000000009"],"code":"q","words":["a"]}]}"#,
        Err((Rule::X13, Some(2), Some(0))),
    ),
    (
        r#"{"format":1,"objects":[{"id":"00000000-0000-0000-0000-000000000009","type":"B"},{"id":"00000000-0000-0000-0000-000000000001","type":"A","all":["00000000-0000-0000-0000-000000000009"],"words":["a"]},{"id":"00000000-0000-0000-0000-000000000002","type":"A","all":["00000000-0000-0000-0000-000000000009"],"words":["b","b","a"]}]}"#,
        Err((Rule::X13, Some(2), Some(1))),
    ),
];

fn schema_from(alloc: Global, tokens: &Tokens) -> Option<Schema> {
    if tokens.len() > 10000 {
        return None;
    }
    match parse_schema(alloc, tokens) {
        Ok(file) => match build(alloc, file) {
            Ok(schema) => Some(schema),
            Err(_) => None,
        },
        Err(_) => None,
    }
}

fn schema_in(alloc: Global, text: &str) -> Option<Schema> {
    if text.len() > 10000 {
        return None;
    }
    match lex(alloc, text.as_bytes()) {
        Ok(tokens) => schema_from(alloc, &tokens),
        Err(_) => None,
    }
}

/// What comes of a text. None where memory ran out.
fn outcome(alloc: Global, schema: &Schema, text: &[u8]) -> Option<Outcome> {
    if schema.types().len() > 10000
        || schema.pointers().is_empty()
        || schema.pointers().len() > 10000
    {
        return None;
    }
    match load(alloc, schema, text) {
        Ok(store) => Some(Ok(store.objects().len())),
        Err(DataRefusal::Rule(broken)) => Some(Err((broken.rule, broken.object, broken.other))),
        Err(DataRefusal::Memory) => None,
    }
}

/// The first row of which something else comes, and how many rows there are where none does.
fn first_other(alloc: Global, schema: &Schema, rows: &[(&str, Outcome)]) -> usize {
    for (i, (text, due)) in rows.iter().enumerate() {
        if outcome(alloc, schema, text.as_bytes()) != Some(*due) {
            return i;
        }
    }
    rows.len()
}

#[test]
fn people_are_loaded_or_refused(rt: HostRuntime) -> Result<(), Fail> {
    let alloc = rt.alloc();
    let schema = schema_in(alloc, PEOPLE).ok_or("there is no schema")?;
    assert_eq!(rt;
        first_other(alloc, &schema, &PEOPLE_ROWS),
        PEOPLE_ROWS.len()
    );
    Ok(())
}

#[test]
fn things_are_loaded_or_refused(rt: HostRuntime) -> Result<(), Fail> {
    let alloc = rt.alloc();
    let schema = schema_in(alloc, THINGS).ok_or("there is no schema")?;
    assert_eq!(rt; first_other(alloc, &schema, &THING_ROWS), THING_ROWS.len());
    Ok(())
}

/// The first number of bytes of a text that are not told to be no JSON, and how many bytes there are where none are.
fn first_taken(alloc: Global, schema: &Schema, text: &[u8]) -> usize {
    for i in 0..text.len() {
        if outcome(alloc, schema, &text[..i]) != Some(Err((Rule::X1, None, None))) {
            return i;
        }
    }
    text.len()
}

#[test]
fn data_without_its_end_is_no_json(rt: HostRuntime) -> Result<(), Fail> {
    let alloc = rt.alloc();
    let schema = schema_in(alloc, PEOPLE).ok_or("there is no schema")?;
    assert_eq!(rt; first_taken(alloc, &schema, DATA.as_bytes()), DATA.len());
    Ok(())
}

/// Two users and a post, in the order of their ids turned round.
static TURNED: &str =
    r#"{"format":1,"objects":[{"id":"00000000-0000-0000-0000-000000000003","type":"User","name":"Cid"},{"id":"00000000-0000-0000-0000-000000000002","type":"User","name":"Bob"},{"id":"00000000-0000-0000-0000-000000000001","type":"Post","title":"A","author":"00000000-0000-0000-0000-000000000003"}]}"#;

/// The store of those three. None where there is none, or memory ran out.
fn turned(alloc: Global, schema: &Schema) -> Option<Store> {
    if schema.types().len() > 10000
        || schema.pointers().is_empty()
        || schema.pointers().len() > 10000
    {
        return None;
    }
    load(alloc, schema, TURNED.as_bytes()).ok()
}

#[test]
fn a_type_has_the_objects_of_those_that_extend_it(rt: HostRuntime) -> Result<(), Fail> {
    let alloc = rt.alloc();
    let schema = schema_in(alloc, PEOPLE).ok_or("there is no schema")?;
    let store = turned(alloc, &schema).ok_or("there is no store")?;
    // The types are `Named`, `User` and `Post`, in the order of the text.
    assert_eq!(rt; store.extent(TypeId(0)), [1, 2].as_slice());
    assert_eq!(rt; store.extent(TypeId(1)), [1, 2].as_slice());
    assert_eq!(rt; store.extent(TypeId(2)), [0].as_slice());
    Ok(())
}

#[test]
fn an_object_is_found_by_its_id(rt: HostRuntime) -> Result<(), Fail> {
    let alloc = rt.alloc();
    let schema = schema_in(alloc, PEOPLE).ok_or("there is no schema")?;
    let store = turned(alloc, &schema).ok_or("there is no store")?;
    for id in 1..4u64 {
        let object = store.find(id as u128).ok_or("there is no such object")?;
        assert_eq!(rt; object.id, id as u128);
    }
    assert!(rt; store.find(0).is_none());
    assert!(rt; store.find(4).is_none());
    Ok(())
}
