//! The scopes of trees that are built by hand, and a stack of scopes.

use super::*;
use core_ir::{Core, Expr, Occurrence, Path, PtrId, Root, Scope, Select, Step, TypeId};
use ev_value::{Boxed, List, Op, Text, Val};
use std::alloc::{AllocError, Global};
use std::test::Fail;

const AGE: u32 = 0;

const NAME: u32 = 1;

const FRIENDS: u32 = 2;

// The path of `User` with these pointers.
fn user_path(alloc: Global, pointers: &[u32]) -> Result<Path, AllocError> {
    let mut steps = List::new(alloc);
    for pointer in pointers {
        let pointer = PtrId(*pointer);
        steps.push(if pointer.0 == FRIENDS {
            Step::Link(pointer)
        } else {
            Step::Prop(pointer)
        })?;
    }
    let root = Root::Extent(TypeId(0));
    Ok(Path { root, steps })
}

fn user(alloc: Global, pointers: &[u32]) -> Result<Expr, AllocError> {
    let path = user_path(alloc, pointers)?;
    let name = Text::from_str(alloc, "User")?;
    let places = List::new(alloc);
    Ok(Expr::Path(0, Occurrence { name, path, places }))
}

fn scope(alloc: Global, body: Expr) -> Result<Scope, AllocError> {
    Ok(Scope {
        start: 0,
        ty: None,
        body: Boxed::new(alloc, body)?,
    })
}

// An operator of one or two operands.
fn operation(alloc: Global, op: Op, left: Expr, right: Option<Expr>) -> Result<Expr, AllocError> {
    let mut operands = List::new(alloc);
    operands.push(left)?;
    if let Some(right) = right {
        operands.push(right)?;
    }
    Ok(Expr::Operation(0, op, operands))
}

fn query(alloc: Global, subject: Expr, filter: Option<Boxed<Scope>>) -> Result<Core, AllocError> {
    let select = Select {
        subject: Boxed::new(alloc, subject)?,
        ty: None,
        number: 1,
        filter,
        keys: List::new(alloc),
        offset: None,
        limit: None,
    };
    Ok(Core {
        subject: None,
        root: scope(alloc, Expr::Select(0, List::new(alloc), select))?,
    })
}

// Whether a scope has these prefixes, in this order.
fn has(alloc: Global, tree: &ScopeTree, due: &[(&[u32], bool)]) -> Result<bool, AllocError> {
    for (at, (pointers, optional)) in due.iter().enumerate() {
        let path = user_path(alloc, pointers)?;
        match tree.prefixes.get(at) {
            Some(prefix) if prefix.path.same(&path) && prefix.optional == *optional => {}
            _ => return Ok(false),
        }
    }
    Ok(tree.prefixes.len() == due.len())
}

// Whether a query's one statement has these prefixes, and the one scope inside it has those.
fn has_two(
    alloc: Global,
    query: &Core,
    statement: &[(&[u32], bool)],
    inner: &[(&[u32], bool)],
) -> Result<bool, AllocError> {
    let tree = scopes_of(alloc, query)?;
    match tree.inner.get(0) {
        Some(first) => match first.inner.get(0) {
            Some(second) => Ok(
                tree.prefixes.is_empty()
                    && has(alloc, first, statement)?
                    && has(alloc, second, inner)?,
            ),
            None => Ok(false),
        },
        None => Ok(false),
    }
}

// `select User.age ?? len(User.name)`
fn age_or_length(alloc: Global) -> Result<Core, AllocError> {
    let length = operation(alloc, Op::Len, user(alloc, &[NAME])?, None)?;
    let second = scope(alloc, length)?;
    let first = Boxed::new(alloc, user(alloc, &[AGE])?)?;
    query(alloc, Expr::Coalesce(0, first, second), None)
}

static USER: [(&[u32], bool); 2] = [(&[], true), (&[AGE], true)];

static LENGTH: [(&[u32], bool); 1] = [(&[NAME], false)];

#[test]
fn the_left_of_coalesce_is_optional(rt: HostRuntime) -> Result<(), Fail> {
    let alloc = rt.alloc();
    let query = age_or_length(alloc)?;
    assert!(rt; has_two(alloc, &query, &USER, &LENGTH)?);
    Ok(())
}

fn compared(alloc: Global, op: Op, pointers: &[u32], value: Val) -> Result<Expr, AllocError> {
    operation(
        alloc,
        op,
        user(alloc, pointers)?,
        Some(Expr::Literal(0, value)),
    )
}

// `select User.friends filter .name = 'Bob' and User.age > 1`
fn friends_by_age(alloc: Global) -> Result<Core, AllocError> {
    let bob = Val::Str(Text::from_str(alloc, "Bob")?);
    let is_bob = compared(alloc, Op::Eq, &[FRIENDS, NAME], bob)?;
    let is_old = compared(alloc, Op::Gt, &[AGE], Val::Int(1))?;
    let both = operation(alloc, Op::And, is_bob, Some(is_old))?;
    let filter = Boxed::new(alloc, scope(alloc, both)?)?;
    query(alloc, user(alloc, &[FRIENDS])?, Some(filter))
}

static FRIENDS_OF_USER: [(&[u32], bool); 2] = [(&[], false), (&[FRIENDS], false)];

static COMPARED: [(&[u32], bool); 2] = [(&[FRIENDS, NAME], false), (&[AGE], false)];

#[test]
fn a_filter_knows_the_bound_user(rt: HostRuntime) -> Result<(), Fail> {
    let alloc = rt.alloc();
    let query = friends_by_age(alloc)?;
    assert!(rt; has_two(alloc, &query, &FRIENDS_OF_USER, &COMPARED)?);
    Ok(())
}

#[test]
fn the_longest_bound_prefix_is_found(rt: HostRuntime) -> Result<(), Fail> {
    let alloc = rt.alloc();
    let root = user_path(alloc, &[])?;
    let age = user_path(alloc, &[AGE])?;
    let mut stack = ScopeStack::new(alloc);
    stack.enter(alloc)?;
    stack.attach(alloc, &root, false, 3)?;
    assert!(rt; stack.find(&age) == Some((0, 3)));
    stack.close();
    assert!(rt; stack.find(&age).is_none());
    Ok(())
}

// `select (User.name, User.name, ..)`; or each with a property of its own.
fn tuple(alloc: Global, count: u32, differ: bool) -> Result<Core, AllocError> {
    let mut components = List::new(alloc);
    for at in 0..count {
        let pointer = if differ { at } else { NAME };
        components.push(user(alloc, &[pointer])?)?;
    }
    query(alloc, Expr::Tuple(0, components), None)
}

// How many prefixes a query's one statement has.
fn prefixes_of_statement(alloc: Global, query: &Core) -> Result<usize, AllocError> {
    let tree = scopes_of(alloc, query)?;
    match tree.inner.get(0) {
        Some(statement) => Ok(statement.prefixes.len()),
        None => Ok(0),
    }
}

// A comparison of all pairs of these for each prefix would not end.
#[test]
fn a_long_tuple_has_its_scopes(rt: HostRuntime) -> Result<(), Fail> {
    let alloc = rt.alloc();
    let equal = tuple(alloc, 2000, false)?;
    let different = tuple(alloc, 2000, true)?;
    assert!(rt; prefixes_of_statement(alloc, &equal)? == 1);
    assert!(rt; prefixes_of_statement(alloc, &different)? == 2001);
    Ok(())
}
