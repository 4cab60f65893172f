//! A statement of every form, printed and read back.
use crate::reprinted;
use sql_read::TextRefusal;
use std::alloc::{AllocError, Global};
use std::test::Fail;

fn shown(alloc: Global, text: &[u8]) -> Result<String, AllocError> {
    if text.len() > 4_000_000 {
        return String::from_str(alloc, "too long");
    }
    match reprinted(alloc, text) {
        Ok(printed) => String::from_str(alloc, printed.as_str()),
        Err(TextRefusal::Q1) => String::from_str(alloc, "query Q1"),
        Err(TextRefusal::Memory) => String::from_str(alloc, "memory"),
    }
}

/// `SELECT`, so many times one text, a one, so many times another, and the name of the column.
fn repeated(alloc: Global, times: u32, before: &str, behind: &str) -> Result<String, AllocError> {
    let mut text = String::from_str(alloc, "SELECT ")?;
    for _ in 0..times {
        text.push_str(before)?;
    }
    text.push_str("1")?;
    for _ in 0..times {
        text.push_str(behind)?;
    }
    text.push_str(" AS \"n\"")?;
    Ok(text)
}

const SAME: [&str; 12] = [
    "SELECT 1 AS \"n\"",
    "SELECT DISTINCT - 1 + 2 * 3 AS \"a\", 'it''s' || 'x' AS \"b\" FROM \"T\" AS \"t\"",
    "SELECT 1 - (2 - 3) AS \"a\", (1 - 2) * 3 AS \"b\", - (1 + 2) AS \"c\" FROM \"T\" AS \"t\"",
    "SELECT \"t\".\"x\" AS \"n\" FROM \"T\" AS \"t\", UNNEST (ARRAY (SELECT 1 AS \"n\")) AS \"u\" LEFT JOIN LATERAL (SELECT 1 AS \"n\") AS \"l\" ON TRUE",
    "SELECT 1 AS \"n\" WHERE NOT NOT 1 = 2 AND (TRUE OR FALSE) OR NOT (TRUE AND FALSE)",
    "SELECT (1 = 2) IS NULL AS \"a\", 1 + 2 IS NOT NULL AS \"b\", (NOT TRUE) = FALSE AS \"c\"",
    "SELECT 1 AS \"n\" ORDER BY 1 ASC NULLS FIRST, 2 DESC NULLS LAST OFFSET 1 LIMIT 2 UNION ALL SELECT 2 AS \"n\"",
    "SELECT NULL::ROW (INT, ARRAY (TEXT)) AS \"a\", ROW () AS \"b\", PART (ROW (1, 2), 1) AS \"c\", COUNT_OF (ARRAY (SELECT 1 AS \"n\")) AS \"d\"",
    "SELECT CASE WHEN 1 <> 2 THEN CAST (1 AS TEXT) ELSE ARG ('x', TEXT) END AS \"n\"",
    "SELECT GLOBAL ('me') AS \"n\", - - 1 AS \"m\" FROM LATERAL (SELECT 1 AS \"x\") AS \"l\"",
    "SELECT UUID '00000000-0000-0000-0000-0000000000ab' AS \"n\"",
    "SELECT \"t\".\"name\" AS \"n\" FROM \"User\" AS \"t\" WHERE \"t\".\"age\" > 10",
];

const REFUSED: [&str; 8] = [
    "SELECT 1",
    "SELECT 1 = 1 IS NULL AS \"n\"",
    "SELECT 1 < 2 < 3 AS \"n\"",
    "SELECT 1 AS \"n\" FROM LEFT JOIN LATERAL (SELECT 1 AS \"n\") AS \"l\" ON TRUE",
    "SELECT 1 AS \"n\" LIMIT 1 OFFSET 1",
    "SELECT UUID '00000000-0000-0000-0000-0000000000AB' AS \"n\"",
    "SELECT 1 AS \"n\";;",
    "SELECT 1 AS \"n\" ORDER BY 1",
];

#[test]
fn every_form_is_read_back(rt: HostRuntime) -> Result<(), Fail> {
    for text in SAME.iter() {
        assert_eq!(rt; shown(rt.alloc(), text.as_bytes())?.as_str(), *text);
    }
    Ok(())
}

#[test]
fn other_texts_are_refused(rt: HostRuntime) -> Result<(), Fail> {
    for text in REFUSED.iter() {
        assert_eq!(rt; shown(rt.alloc(), text.as_bytes())?.as_str(), "query Q1");
    }
    Ok(())
}

fn is_read(alloc: Global, text: &str) -> Result<bool, AllocError> {
    Ok(shown(alloc, text.as_bytes())?.as_str() != "query Q1")
}

/// Whether so many such openings round a one are read as a statement.
fn is_read_inside(
    alloc: Global,
    times: u32,
    before: &str,
    behind: &str,
) -> Result<bool, AllocError> {
    is_read(alloc, repeated(alloc, times, before, behind)?.as_str())
}

#[test]
fn limits_are_kept(rt: HostRuntime) -> Result<(), Fail> {
    assert!(rt; is_read_inside(rt.alloc(), 1600, "(", ")")?);
    assert!(rt; !is_read_inside(rt.alloc(), 1601, "(", ")")?);
    assert!(rt; is_read_inside(rt.alloc(), 399, "ARRAY (SELECT ", " AS \"n\")")?);
    assert!(rt; !is_read_inside(rt.alloc(), 400, "ARRAY (SELECT ", " AS \"n\")")?);
    assert!(rt; is_read_inside(rt.alloc(), 798, "NOT ", "")?);
    assert!(rt; !is_read_inside(rt.alloc(), 799, "- ", "")?);
    assert!(rt; is_read_inside(rt.alloc(), 798, "1 + ", "")?);
    assert!(rt; !is_read_inside(rt.alloc(), 799, "1 + ", "")?);
    Ok(())
}

#[test]
fn deep_texts_stay_within_the_stack(rt: HostRuntime) -> Result<(), Fail> {
    assert!(rt; !is_read_inside(rt.alloc(), 1600, "ARRAY (SELECT ", " AS \"n\")")?);
    assert!(rt;
        !is_read_inside(
            rt.alloc(),
            1600,
            "1 AS \"n\" FROM LATERAL (SELECT ",
            ") AS \"l\""
        )?
    );
    assert!(rt; !is_read_inside(rt.alloc(), 1600, "ROW (1, ", ")")?);
    assert!(rt; !is_read_inside(rt.alloc(), 1600, "1 + (", ")")?);
    assert!(rt; !is_read_inside(rt.alloc(), 1_000_000, "(", "")?);
    assert!(rt; !is_read_inside(rt.alloc(), 500_000, "1 + ", "")?);
    Ok(())
}
