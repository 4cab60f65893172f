//! Statements over the tables of a small schema: users with friends, and posts with tags. Some of the expected rows are
//! the worked answers of the language's own examples, the others were worked out by hand.

mod bench;
mod show;
mod world;

use bench::Step;
use bench::Step::{
    Arg, Array, Ascending, Begin, Binary, Call, Case, Column, Core, Descending, Distinct, End,
    Global, Int, Lateral, LeftLateral, Limit, Named, Null, Offset, Pair, Part, Table, Text, Truth,
    Unary, Unnest, Where,
};
use ev_list::Absent::{First, Last};
use ev_value::ScalarTy::{Bool, Int64};
use show::first_wrong;
use sql_ast::BinaryOp::{And, Concat, Eq, FloorDiv, Gt, Or, Sub};
use sql_ast::Function::{AssertSingle, CountOf, Len, MaxOf, SumOf};
use sql_ast::UnaryOp::{IsNull, Neg};
use std::test::Fail;

/// A statement, and the rows that it gives or its fault.
pub struct Sample {
    pub steps: &'static [Step],
    pub answer: &'static str,
}

static SAMPLES: [Sample; 18] = [
    // `SELECT "t"."name" AS "n" FROM "User" AS "t" WHERE "t"."age" > 10`
    Sample {
        steps: &[
            Begin,
            Table("User", "t"),
            Column("t", "name"),
            Named("n"),
            Column("t", "age"),
            Int(10),
            Binary(Gt),
            Where,
            Core,
        ],
        answer: "Ann;",
    },
    // `SELECT GLOBAL('me') AS "n", ARG('x', INT) AS "x"`
    Sample {
        steps: &[Begin, Global("me"), Named("n"), Arg("x"), Named("x"), Core],
        answer: "null,10;",
    },
    // `SELECT "t"."name" || '/' || "t"."name" AS "n" FROM "User" AS "t"`
    Sample {
        steps: &[
            Begin,
            Table("User", "t"),
            Column("t", "name"),
            Text("/"),
            Binary(Concat),
            Column("t", "name"),
            Binary(Concat),
            Named("n"),
            Core,
        ],
        answer: "Ann/Ann;Bob/Bob;Cid/Cid;",
    },
    // `SELECT CASE WHEN "t"."age" IS NULL THEN LEN("t"."name") ELSE "t"."age" END AS "n" FROM "User" AS "t"`
    Sample {
        steps: &[
            Begin,
            Table("User", "t"),
            Column("t", "age"),
            Unary(IsNull),
            Column("t", "name"),
            Call(Len),
            Column("t", "age"),
            Case,
            Named("n"),
            Core,
        ],
        answer: "30;3;7;",
    },
    // Each user with each friend, or null: `"User" AS "u" LEFT JOIN LATERAL (.. "f"."source" = "u"."id") AS "f" ON TRUE`.
    Sample {
        steps: &[
            Begin,
            Table("User", "u"),
            Begin,
            Table("User.friends", "f"),
            Column("f", "target"),
            Named("target"),
            Column("f", "source"),
            Column("u", "id"),
            Binary(Eq),
            Where,
            Core,
            End,
            LeftLateral("f"),
            Column("u", "name"),
            Named("n"),
            Column("f", "target"),
            Named("t"),
            Core,
        ],
        answer: "Ann,#2;Bob,#1;Bob,#3;Cid,null;",
    },
    // The same by `LATERAL`, with the friend's name, in the rows that have one.
    Sample {
        steps: &[
            Begin,
            Table("User", "u"),
            Begin,
            Table("User.friends", "f"),
            Column("f", "target"),
            Named("target"),
            Column("f", "source"),
            Column("u", "id"),
            Binary(Eq),
            Where,
            Core,
            End,
            Lateral("f"),
            Table("User", "v"),
            Column("v", "id"),
            Column("f", "target"),
            Binary(Eq),
            Where,
            Column("u", "name"),
            Column("v", "name"),
            Pair,
            Named("n"),
            Core,
        ],
        answer: "(Ann,Bob);(Bob,Ann);(Bob,Cid);",
    },
    // `UNNEST` of an `ARRAY`, and the array itself, its length and a part of a row.
    Sample {
        steps: &[
            Begin,
            Begin,
            Table("Post.tags", "t"),
            Column("t", "target"),
            Named("c"),
            Core,
            End,
            Array,
            Unnest("e"),
            Column("e", "c1"),
            Named("tag"),
            Begin,
            Table("Post", "p"),
            Column("p", "title"),
            Named("c"),
            Core,
            End,
            Array,
            Named("titles"),
            Int(4),
            Text("four"),
            Pair,
            Part(2),
            Named("part"),
            Core,
        ],
        answer: "x,[A,B],four;y,[A,B],four;",
    },
    // Nulls give no rows in `UNNEST`.
    Sample {
        steps: &[
            Begin,
            Null(Int64),
            Unnest("e"),
            Column("e", "c1"),
            Named("n"),
            Core,
        ],
        answer: "",
    },
    // `ORDER BY "t"."age" DESC NULLS FIRST`
    Sample {
        steps: &[
            Begin,
            Table("User", "t"),
            Column("t", "name"),
            Named("n"),
            Column("t", "age"),
            Descending(First),
            Core,
        ],
        answer: "Bob;Ann;Cid;",
    },
    // `ORDER BY "t"."age" ASC NULLS LAST OFFSET 1 LIMIT 1`
    Sample {
        steps: &[
            Begin,
            Table("User", "t"),
            Column("t", "name"),
            Named("n"),
            Column("t", "age"),
            Ascending(Last),
            Int(1),
            Offset,
            Int(1),
            Limit,
            Core,
        ],
        answer: "Ann;",
    },
    // `SELECT DISTINCT` of the posts' authors, `UNION ALL` the ages of users without a limit.
    Sample {
        steps: &[
            Begin,
            Table("Post", "p"),
            Column("p", "author"),
            Named("a"),
            Distinct,
            Table("User", "t"),
            Column("t", "age"),
            Named("a"),
            Null(Int64),
            Limit,
            Core,
        ],
        answer: "#1;30;null;7;",
    },
    // Two keys: by author, then by title, the greatest first.
    Sample {
        steps: &[
            Begin,
            Table("Post", "p"),
            Column("p", "title"),
            Named("n"),
            Column("p", "author"),
            Ascending(First),
            Column("p", "title"),
            Descending(First),
            Core,
        ],
        answer: "B;A;",
    },
    // `SELECT 10 // ("t"."age" - 7) AS "n" FROM "User" AS "t" LIMIT 1`: the third user faults.
    Sample {
        steps: &[
            Begin,
            Table("User", "t"),
            Int(10),
            Column("t", "age"),
            Int(7),
            Binary(Sub),
            Binary(FloorDiv),
            Named("n"),
            Int(1),
            Limit,
            Core,
        ],
        answer: "fault 2",
    },
    // `LIMIT - 1`
    Sample {
        steps: &[
            Begin,
            Table("User", "t"),
            Column("t", "name"),
            Named("n"),
            Int(1),
            Unary(Neg),
            Limit,
            Core,
        ],
        answer: "fault 7",
    },
    // `WHERE "t"."age" = 30 AND 10 // ("t"."age" - 7) > 0`: both sides are looked at.
    Sample {
        steps: &[
            Begin,
            Table("User", "t"),
            Column("t", "name"),
            Named("n"),
            Column("t", "age"),
            Int(30),
            Binary(Eq),
            Int(10),
            Column("t", "age"),
            Int(7),
            Binary(Sub),
            Binary(FloorDiv),
            Int(0),
            Binary(Gt),
            Binary(And),
            Where,
            Core,
        ],
        answer: "fault 2",
    },
    // `SELECT ASSERT_SINGLE(ARRAY(SELECT "t"."name" AS "c" FROM "User" AS "t")) AS "n"`
    Sample {
        steps: &[
            Begin,
            Begin,
            Table("User", "t"),
            Column("t", "name"),
            Named("c"),
            Core,
            End,
            Array,
            Call(AssertSingle),
            Named("n"),
            Core,
        ],
        answer: "fault 4",
    },
    // `COUNT_OF`, `SUM_OF` and `MAX_OF` of the ages: the second user has none.
    Sample {
        steps: &[
            Begin,
            Begin,
            Table("User", "t"),
            Column("t", "age"),
            Named("c"),
            Core,
            End,
            Array,
            Call(CountOf),
            Named("count"),
            Begin,
            Table("User", "t"),
            Column("t", "age"),
            Named("c"),
            Core,
            End,
            Array,
            Call(SumOf),
            Named("sum"),
            Begin,
            Table("User", "t"),
            Column("t", "age"),
            Named("c"),
            Core,
            End,
            Array,
            Call(MaxOf),
            Named("max"),
            Core,
        ],
        answer: "3,37,30;",
    },
    // `NULL OR TRUE`, `NULL AND FALSE`, `NULL AND TRUE`
    Sample {
        steps: &[
            Begin,
            Null(Bool),
            Truth(true),
            Binary(Or),
            Named("a"),
            Null(Bool),
            Truth(false),
            Binary(And),
            Named("b"),
            Null(Bool),
            Truth(true),
            Binary(And),
            Named("c"),
            Core,
        ],
        answer: "true,false,null;",
    },
];

// The table by a reference alone: a function that reads it itself would have it whole in its proof.
fn samples() -> &'static [Sample] {
    &SAMPLES
}

#[test]
fn statements(rt: HostRuntime) -> Result<(), Fail> {
    assert_eq!(rt; first_wrong(rt.alloc(), samples())?, None);
    Ok(())
}
