//! Worked cardinalities, and the occurrences and the layout of trees that are built by hand.

use super::*;
use ev_value::{Boxed, List, Op, ScalarTy, Text};
use std::alloc::{AllocError, Global};
use std::test::Fail;

// Two cardinalities, and what their product, their sum and either of them have.
static CARDS: [(Card, Card, Card, Card, Card); 6] = [
    (Card::One, Card::One, Card::One, Card::AtLeastOne, Card::One),
    (
        Card::AtMostOne,
        Card::AtLeastOne,
        Card::Many,
        Card::AtLeastOne,
        Card::Many,
    ),
    (Card::Empty, Card::Many, Card::Empty, Card::Many, Card::Many),
    (
        Card::AtMostOne,
        Card::One,
        Card::AtMostOne,
        Card::AtLeastOne,
        Card::AtMostOne,
    ),
    (
        Card::Empty,
        Card::One,
        Card::Empty,
        Card::One,
        Card::AtMostOne,
    ),
    (
        Card::AtLeastOne,
        Card::AtLeastOne,
        Card::AtLeastOne,
        Card::AtLeastOne,
        Card::AtLeastOne,
    ),
];

#[test]
fn cards_are_worked_out(rt: HostRuntime) {
    for (left, right, times, plus, either) in &CARDS {
        assert!(rt; left.times(*right) == *times && right.times(*left) == *times);
        assert!(rt; left.plus(*right) == *plus && right.plus(*left) == *plus);
        assert!(rt; left.either(*right) == *either && right.either(*left) == *either);
    }
    assert!(rt; Card::Empty.or_one() == Card::One && Card::Many.or_one() == Card::AtLeastOne);
    assert!(rt; Card::AtMostOne.within(1) && !Card::AtMostOne.within(2));
}

// `User` with a property.
fn user(alloc: Global, property: u32) -> Result<Occurrence, AllocError> {
    let mut steps = List::new(alloc);
    steps.push(Step::Prop(PtrId(property)))?;
    let root = Root::Extent(TypeId(0));
    Ok(Occurrence {
        name: Text::from_str(alloc, "User")?,
        path: Path { root, steps },
        places: List::new(alloc),
    })
}

fn path_at(alloc: Global, start: u32, property: u32) -> Result<Expr, AllocError> {
    Ok(Expr::Path(start, user(alloc, property)?))
}

fn scope(alloc: Global, body: Expr) -> Result<Scope, AllocError> {
    Ok(Scope {
        start: 0,
        ty: None,
        body: Boxed::new(alloc, body)?,
    })
}

// `len(User.name)`
fn length_of_name(alloc: Global) -> Result<Expr, AllocError> {
    let mut operands = List::new(alloc);
    operands.push(path_at(alloc, 23, 1)?)?;
    Ok(Expr::Operation(19, Op::Len, operands))
}

fn first(alloc: Global) -> Result<Boxed<Expr>, AllocError> {
    Boxed::new(alloc, path_at(alloc, 7, 0)?)
}

// `User.age ?? len(User.name)`
fn age_or_length(alloc: Global) -> Result<Expr, AllocError> {
    let second = scope(alloc, length_of_name(alloc)?)?;
    Ok(Expr::Coalesce(7, first(alloc)?, second))
}

fn rows(alloc: Global, subject: Expr) -> Result<Select, AllocError> {
    Ok(Select {
        subject: Boxed::new(alloc, subject)?,
        ty: None,
        number: 1,
        filter: None,
        keys: List::new(alloc),
        offset: None,
        limit: None,
    })
}

fn select(alloc: Global, subject: Expr) -> Result<Expr, AllocError> {
    Ok(Expr::Select(0, List::new(alloc), rows(alloc, subject)?))
}

fn query(alloc: Global, subject: Expr) -> Result<Core, AllocError> {
    let root = scope(alloc, select(alloc, subject)?)?;
    Ok(Core {
        subject: None,
        root,
    })
}

// Whether the occurrence at a place stands in these scopes, and in an optional argument or not.
fn stands(found: &[ScopedPath], at: usize, scopes: &[u32], optional: bool) -> bool {
    match found.get(at) {
        Some(one) => one.scopes.as_slice() == scopes && one.optional == optional,
        None => false,
    }
}

#[test]
fn occurrences_stand_in_their_scopes(rt: HostRuntime) -> Result<(), Fail> {
    let alloc = rt.alloc();
    let query = query(alloc, age_or_length(alloc)?)?;
    let found = occurrences(alloc, &query)?;
    assert_eq!(rt; found.len(), 2);
    assert!(rt; stands(found.as_slice(), 0, &[0, 1], true));
    assert!(rt; stands(found.as_slice(), 1, &[0, 1, 2], false));
    Ok(())
}

#[test]
fn occurrences_are_direct_or_inside(rt: HostRuntime) -> Result<(), Fail> {
    let alloc = rt.alloc();
    let rows = rows(alloc, age_or_length(alloc)?)?;
    assert_eq!(rt; direct(alloc, rows.subject.get(), false)?.len(), 1);
    assert_eq!(rt; all(alloc, rows.subject.get())?.len(), 2);
    assert_eq!(rt; all_inside(alloc, &rows)?.len(), 2);
    Ok(())
}

fn element(alloc: Global, name: &str, card: Card) -> Result<Element, AllocError> {
    let value = scope(alloc, path_at(alloc, 0, 0)?)?;
    Ok(Element {
        start: 0,
        name: Text::from_str(alloc, name)?,
        need: None,
        width: None,
        ty: Some(Ty::Scalar(ScalarTy::Str)),
        card: Some(card),
        value,
    })
}

fn elements(alloc: Global) -> Result<List<Element>, AllocError> {
    let mut found = List::new(alloc);
    found.push(element(alloc, "name", Card::AtMostOne)?)?;
    found.push(element(alloc, "words", Card::Many)?)?;
    Ok(found)
}

// `select User {name, words}`, where a user may have many words
fn shaped(alloc: Global) -> Result<Carded, AllocError> {
    let subject = first(alloc)?;
    let core = query(alloc, Expr::Shaped(7, subject, None, 2, elements(alloc)?))?;
    let ty = Ty::Object(TypeId(0));
    Ok(Carded {
        typed: Typed { core, ty },
        card: Card::Many,
    })
}

fn is_field(fields: &[LayoutField], at: usize, name: &str, multi: bool) -> bool {
    match fields.get(at) {
        Some(field) => {
            field.name.as_str() == name
                && field.multi == multi
                && matches!(field.layout, Layout::Scalar)
        }
        None => false,
    }
}

#[test]
fn shapes_are_laid_out(rt: HostRuntime) -> Result<(), Fail> {
    let alloc = rt.alloc();
    match layout_of(alloc, &shaped(alloc)?)? {
        Layout::Shape(fields) => {
            assert!(rt; is_field(fields.as_slice(), 0, "name", false));
            assert!(rt; is_field(fields.as_slice(), 1, "words", true));
        }
        _ => assert!(rt; false),
    }
    Ok(())
}

#[test]
fn copies_are_the_same(rt: HostRuntime) -> Result<(), Fail> {
    let alloc = rt.alloc();
    let name = user(alloc, 1)?;
    let copy = name.copied(alloc)?;
    let root = name.path.prefix(alloc, 0)?;
    assert!(rt; copy.path.same(&name.path) && root.begins(&copy.path));
    assert!(rt; !root.same(&name.path));
    let mut types = List::new(alloc);
    types.push(Ty::Scalar(ScalarTy::Str))?;
    assert!(rt; matches!(Ty::Tuple(types).copied(alloc)?, Ty::Tuple(_)));
    Ok(())
}
