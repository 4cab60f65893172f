//! Worked examples, and that values may be lent to threads.

use crate::{
    Args, Argument, Boxed, Bytes, Fault, Item, List, Nested, Op, OpError, ScalarTy, Text, Val,
    apply_op, cast, cmp_val,
};
use std::alloc::{AllocError, Global};
use std::cmp::Ordering;
use std::test::Fail;

fn is_shared<T: Send + Sync>() {}

#[test]
fn values_are_lent_to_threads() {
    is_shared::<Text>();
    is_shared::<Bytes>();
    is_shared::<Val>();
    is_shared::<List<Val>>();
    is_shared::<Boxed<Val>>();
    is_shared::<Fault>();
    is_shared::<Item>();
    is_shared::<List<Item<Nested>>>();
    is_shared::<Nested>();
    is_shared::<Op>();
    is_shared::<OpError>();
    is_shared::<Argument>();
    is_shared::<Args>();
}

fn string(alloc: Global, text: &str) -> Result<Val, AllocError> {
    Ok(Val::Str(Text::from_str(alloc, text)?))
}

fn is_value(answer: Result<Val, OpError>, due: &Val) -> bool {
    match answer {
        Ok(value) => cmp_val(&value, due) == Ordering::Equal,
        Err(_) => false,
    }
}

fn is_fault(answer: Result<Val, OpError>, due: Fault) -> bool {
    match answer {
        Ok(_) => false,
        Err(OpError::Fault(fault)) => fault == due,
        Err(OpError::Memory) => false,
    }
}

fn is_due(answer: Result<Val, OpError>, due: Result<i64, Fault>) -> bool {
    match due {
        Ok(number) => is_value(answer, &Val::Int(number)),
        Err(fault) => is_fault(answer, fault),
    }
}

static NUMBERS: [(Op, i64, i64, Result<i64, Fault>); 20] = [
    (Op::Add, 2, 3, Ok(5)),
    (Op::Add, i64::MAX, 1, Err(Fault::IntOverflow)),
    (Op::Sub, 2, 5, Ok(-3)),
    (Op::Sub, i64::MIN, 1, Err(Fault::IntOverflow)),
    (Op::Mul, -4, 3, Ok(-12)),
    (
        Op::Mul,
        4_611_686_018_427_387_904,
        2,
        Err(Fault::IntOverflow),
    ),
    (Op::FloorDiv, 7, 2, Ok(3)),
    (Op::FloorDiv, -7, 2, Ok(-4)),
    (Op::FloorDiv, 7, -2, Ok(-4)),
    (Op::FloorDiv, -7, -2, Ok(3)),
    (Op::FloorDiv, -6, 3, Ok(-2)),
    (Op::FloorDiv, i64::MIN, -1, Err(Fault::IntOverflow)),
    (Op::FloorDiv, 1, 0, Err(Fault::DivisionByZero)),
    (Op::Mod, 7, 2, Ok(1)),
    (Op::Mod, -7, 2, Ok(1)),
    (Op::Mod, 7, -2, Ok(-1)),
    (Op::Mod, -7, -2, Ok(-1)),
    (Op::Mod, 6, -3, Ok(0)),
    (Op::Mod, i64::MIN, -1, Ok(0)),
    (Op::Mod, 1, 0, Err(Fault::DivisionByZero)),
];

#[test]
fn numbers_are_computed(rt: HostRuntime) {
    for (operator, a, b, due) in &NUMBERS {
        let operands = [Val::Int(*a), Val::Int(*b)];
        assert!(rt; is_due(apply_op(*operator, &operands), *due), "{a} and {b}");
    }
    assert!(rt; is_due(apply_op(Op::Neg, &[Val::Int(5)]), Ok(-5)));
    assert!(rt;
        is_due(
            apply_op(Op::Neg, &[Val::Int(i64::MIN)]),
            Err(Fault::IntOverflow)
        )
    );
}

/// What each comparison says of a less, an equal and a greater left side.
static COMPARISONS: [(Op, [bool; 3]); 6] = [
    (Op::Eq, [false, true, false]),
    (Op::Ne, [true, false, true]),
    (Op::Lt, [true, false, false]),
    (Op::Le, [true, true, false]),
    (Op::Gt, [false, false, true]),
    (Op::Ge, [false, true, true]),
];

fn compares(operator: Op, left: i64, right: i64, due: bool) -> bool {
    let operands = [Val::Int(left), Val::Int(right)];
    is_value(apply_op(operator, &operands), &Val::Bool(due))
}

#[test]
fn comparisons_follow_the_order(rt: HostRuntime) {
    for (operator, [less, equal, greater]) in &COMPARISONS {
        assert!(rt; compares(*operator, -1, 0, *less));
        assert!(rt; compares(*operator, 3, 3, *equal));
        assert!(rt; compares(*operator, 0, -1, *greater));
    }
}

/// Two truths, and what `and` and `or` make of them.
static TRUTHS: [[bool; 4]; 4] = [
    [false, false, false, false],
    [false, true, false, true],
    [true, false, false, true],
    [true, true, true, true],
];

#[test]
fn truths_are_joined(rt: HostRuntime) {
    for [a, b, and, or] in &TRUTHS {
        let operands = [Val::Bool(*a), Val::Bool(*b)];
        assert!(rt; is_value(apply_op(Op::And, &operands), &Val::Bool(*and)));
        assert!(rt; is_value(apply_op(Op::Or, &operands), &Val::Bool(*or)));
        assert!(rt; is_value(apply_op(Op::Not, &[Val::Bool(*a)]), &Val::Bool(!*a)));
    }
}

static LENGTHS: [(&str, i64); 6] = [
    ("", 0),
    ("abc", 3),
    ("é", 1),
    ("日本", 2),
    ("e\u{301}", 2),
    ("🙂", 1),
];

#[test]
fn texts_are_joined_and_counted(rt: HostRuntime) -> Result<(), Fail> {
    let alloc = rt.alloc();
    for (text, due) in &LENGTHS {
        let operands = [string(alloc, text)?];
        assert!(rt; is_due(apply_op(Op::Len, &operands), Ok(*due)), "{text}");
    }
    let operands = [string(alloc, "é")?, string(alloc, "x")?];
    assert!(rt; is_value(apply_op(Op::Concat, &operands), &string(alloc, "éx")?));
    Ok(())
}

fn tuple(alloc: Global, numbers: &[i64]) -> Result<Val, AllocError> {
    let mut parts = List::new(alloc);
    for number in numbers {
        parts.push(Val::Int(*number))?;
    }
    Ok(Val::Tuple(parts))
}

/// Whether the first value is less than the second, and the second greater than the first.
fn precedes(left: &Val, right: &Val) -> bool {
    cmp_val(left, right) == Ordering::Less && cmp_val(right, left) == Ordering::Greater
}

#[test]
fn values_are_ordered(rt: HostRuntime) -> Result<(), Fail> {
    let alloc = rt.alloc();
    let text = string(alloc, "")?;
    assert!(rt; precedes(&Val::Int(i64::MIN), &Val::Int(0)));
    assert!(rt; precedes(&Val::Int(i64::MAX), &text));
    assert!(rt; precedes(&text, &Val::Bool(false)));
    assert!(rt; precedes(&Val::Bool(false), &Val::Bool(true)));
    assert!(rt; precedes(&Val::Bool(true), &Val::Id(0)));
    assert!(rt; precedes(&Val::Id(0), &Val::Id(u128::MAX)));
    assert!(rt; precedes(&Val::Id(u128::MAX), &Val::Obj(0)));
    assert!(rt; precedes(&Val::Obj(1), &Val::Tuple(List::new(alloc))));
    assert!(rt; precedes(&tuple(alloc, &[2])?, &Val::Array(List::new(alloc))));
    Ok(())
}

/// Texts, each less than the next by its bytes.
static RISING_TEXTS: [(&str, &str); 4] = [("", "B"), ("B", "a"), ("a", "ab"), ("ab", "é")];

fn least<'a, T: Ord>(left: &'a T, right: &'a T) -> &'a T {
    if right < left { right } else { left }
}

#[test]
fn texts_are_compared_as_keys(rt: HostRuntime) -> Result<(), Fail> {
    let alloc = rt.alloc();
    let upper = Text::from_str(alloc, "Z")?;
    let lower = Text::from_str(alloc, "a")?;
    assert!(rt; least(&lower, &upper).as_str() == "Z");
    assert!(rt; upper != lower);
    Ok(())
}

#[test]
fn texts_are_ordered_by_their_bytes(rt: HostRuntime) -> Result<(), Fail> {
    let alloc = rt.alloc();
    for (less, greater) in &RISING_TEXTS {
        let less = string(alloc, less)?;
        let greater = string(alloc, greater)?;
        assert!(rt; precedes(&less, &greater));
        assert!(rt; cmp_val(&less.copied(alloc)?, &less) == Ordering::Equal);
    }
    Ok(())
}

#[test]
fn tuples_are_ordered_from_the_left(rt: HostRuntime) -> Result<(), Fail> {
    let alloc = rt.alloc();
    let short = tuple(alloc, &[1])?;
    let long = tuple(alloc, &[1, -5])?;
    let later = tuple(alloc, &[2])?;
    assert!(rt; precedes(&short, &long));
    assert!(rt; precedes(&long, &later));
    assert!(rt; cmp_val(&long.copied(alloc)?, &long) == Ordering::Equal);
    Ok(())
}

fn array(alloc: Global, numbers: &[i64]) -> Result<Val, AllocError> {
    let mut elements = List::new(alloc);
    for number in numbers {
        elements.push(Val::Int(*number))?;
    }
    Ok(Val::Array(elements))
}

#[test]
fn arrays_are_ordered_from_the_left(rt: HostRuntime) -> Result<(), Fail> {
    let alloc = rt.alloc();
    let short = array(alloc, &[1])?;
    let long = array(alloc, &[1, 0])?;
    let later = array(alloc, &[2])?;
    assert!(rt; precedes(&short, &long));
    assert!(rt; precedes(&long, &later));
    assert!(rt; cmp_val(&long.copied(alloc)?, &long) == Ordering::Equal);
    Ok(())
}

/// Whether no text of the list casts to the type.
fn are_refused(alloc: Global, ty: ScalarTy, texts: &[&str]) -> Result<bool, AllocError> {
    for text in texts {
        let value = string(alloc, text)?;
        if !is_fault(cast(alloc, ty, &value), Fault::CastText) {
            return Ok(false);
        }
    }
    Ok(true)
}

fn casts(alloc: Global, ty: ScalarTy, text: &str, due: &Val) -> Result<bool, AllocError> {
    let value = string(alloc, text)?;
    Ok(is_value(cast(alloc, ty, &value), due))
}

static NUMBER_TEXTS: [(&str, i64); 6] = [
    ("0", 0),
    ("-0", 0),
    ("007", 7),
    ("-012", -12),
    ("9223372036854775807", i64::MAX),
    ("-9223372036854775808", i64::MIN),
];

static NO_NUMBERS: [&str; 15] = [
    "",
    "-",
    "+1",
    " 1",
    "1 ",
    "--1",
    "-+1",
    "1.0",
    "1e3",
    "0x1",
    "1_0",
    "x",
    "٣",
    "9223372036854775808",
    "-9223372036854775809",
];

#[test]
fn texts_cast_to_numbers(rt: HostRuntime) -> Result<(), Fail> {
    let alloc = rt.alloc();
    for (text, due) in &NUMBER_TEXTS {
        assert!(rt;
            casts(alloc, ScalarTy::Int64, text, &Val::Int(*due))?,
            "{text}"
        );
    }
    assert!(rt; are_refused(alloc, ScalarTy::Int64, &NO_NUMBERS)?);
    Ok(())
}

static NO_TRUTHS: [&str; 5] = ["", "True", "true ", "t", "1"];

#[test]
fn texts_cast_to_truths(rt: HostRuntime) -> Result<(), Fail> {
    let alloc = rt.alloc();
    assert!(rt; casts(alloc, ScalarTy::Bool, "true", &Val::Bool(true))?);
    assert!(rt; casts(alloc, ScalarTy::Bool, "false", &Val::Bool(false))?);
    assert!(rt; are_refused(alloc, ScalarTy::Bool, &NO_TRUTHS)?);
    Ok(())
}

const ID: u128 = 0x67e5_5044_10b1_426f_9247_bb68_0e5f_e0c8;

static ID_TEXTS: [&str; 5] = [
    "67e55044-10b1-426f-9247-bb680e5fe0c8",
    "67E55044-10B1-426F-9247-BB680E5FE0C8",
    "67e5504410b1426f9247bb680e5fe0c8",
    "{67e55044-10b1-426f-9247-bb680e5fe0c8}",
    "urn:uuid:67e55044-10b1-426f-9247-bb680e5fe0c8",
];

static NO_IDS: [&str; 5] = [
    "",
    "67e55044-10b1-426f-9247-bb680e5fe0c",
    "67e5504-410b1-426f-9247-bb680e5fe0c8",
    "g7e55044-10b1-426f-9247-bb680e5fe0c8",
    " 67e55044-10b1-426f-9247-bb680e5fe0c8",
];

#[test]
fn texts_cast_to_ids(rt: HostRuntime) -> Result<(), Fail> {
    let alloc = rt.alloc();
    for text in &ID_TEXTS {
        assert!(rt; casts(alloc, ScalarTy::Uuid, text, &Val::Id(ID))?, "{text}");
    }
    assert!(rt; are_refused(alloc, ScalarTy::Uuid, &NO_IDS)?);
    Ok(())
}

fn prints(alloc: Global, value: &Val, due: &str) -> Result<bool, AllocError> {
    let due = string(alloc, due)?;
    Ok(is_value(cast(alloc, ScalarTy::Str, value), &due))
}

#[test]
fn values_cast_to_text(rt: HostRuntime) -> Result<(), Fail> {
    let alloc = rt.alloc();
    assert!(rt; prints(alloc, &Val::Int(i64::MIN), "-9223372036854775808")?);
    assert!(rt; prints(alloc, &Val::Bool(true), "true")?);
    assert!(rt; prints(alloc, &Val::Bool(false), "false")?);
    assert!(rt; prints(alloc, &Val::Id(ID), "67e55044-10b1-426f-9247-bb680e5fe0c8")?);
    assert!(rt; casts(alloc, ScalarTy::Str, "é", &string(alloc, "é")?)?);
    Ok(())
}

#[test]
fn values_cast_to_themselves(rt: HostRuntime) {
    let alloc = rt.alloc();
    assert!(rt; is_value(cast(alloc, ScalarTy::Int64, &Val::Int(-3)), &Val::Int(-3)));
    assert!(rt;
        is_value(
            cast(alloc, ScalarTy::Bool, &Val::Bool(false)),
            &Val::Bool(false)
        )
    );
    assert!(rt; is_value(cast(alloc, ScalarTy::Uuid, &Val::Id(ID)), &Val::Id(ID)));
}

static FAULTS: [(Fault, u8); 7] = [
    (Fault::IntOverflow, 1),
    (Fault::DivisionByZero, 2),
    (Fault::CastText, 3),
    (Fault::AssertSingle, 4),
    (Fault::AssertExists, 5),
    (Fault::AssertDistinct, 6),
    (Fault::NegativeLimit, 7),
];

#[test]
fn faults_have_their_numbers(rt: HostRuntime) {
    for (fault, number) in &FAULTS {
        assert_eq!(rt; fault.number(), *number);
    }
}
