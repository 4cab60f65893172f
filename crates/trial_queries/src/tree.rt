//! Trees by hand, each of parts that may have failed.

use crate::together::{both, boxed, more, one};
use core_ir::{
    Alias, Conditional, Element, Expr, Key, Occurrence, Order, Path, PtrId, Root, Scope, Select,
    SetFunction, Step, Ty,
};
use ev_list::Absent;
use ev_value::{Boxed, List, Op, ScalarTy, Text, Val};
use std::alloc::{AllocError, Global};

/// A tree, unless memory ran out.
pub type Made<T> = Result<T, AllocError>;

/// The path of these steps.
pub fn path(alloc: Global, root: Root, steps: Made<List<Step>>) -> Made<Expr> {
    let (name, steps) = both(Text::from_str(alloc, "_"), steps)?;
    let path = Path { root, steps };
    let places = List::new(alloc);
    Ok(Expr::Path(0, Occurrence { name, path, places }))
}

pub fn no_steps(alloc: Global) -> Made<List<Step>> {
    Ok(List::new(alloc))
}

/// The steps and one more.
pub fn then(steps: Made<List<Step>>, next: Step) -> Made<List<Step>> {
    more(steps, Ok(next))
}

/// The steps and the property of the link that they end with.
pub fn then_property(alloc: Global, steps: Made<List<Step>>, name: &str) -> Made<List<Step>> {
    let (steps, name) = both(steps, Text::from_str(alloc, name))?;
    more(Ok(steps), Ok(Step::LinkProp(name)))
}

pub fn prop(pointer: u32) -> Step {
    Step::Prop(PtrId(pointer))
}

pub fn link(pointer: u32) -> Step {
    Step::Link(PtrId(pointer))
}

pub fn int(number: i64) -> Made<Expr> {
    Ok(Expr::Literal(0, Val::Int(number)))
}

pub fn truth(truth: bool) -> Made<Expr> {
    Ok(Expr::Literal(0, Val::Bool(truth)))
}

pub fn text(alloc: Global, text: &str) -> Made<Expr> {
    Ok(Expr::Literal(0, Val::Str(Text::from_str(alloc, text)?)))
}

pub fn global(alloc: Global, name: &str) -> Made<Expr> {
    Ok(Expr::Global(0, Text::from_str(alloc, name)?))
}

pub fn scope(alloc: Global, body: Made<Expr>) -> Made<Scope> {
    let body = boxed(alloc, body)?;
    Ok(Scope {
        start: 0,
        ty: None,
        body,
    })
}

/// An operator of two operands.
pub fn operation(alloc: Global, op: Op, left: Made<Expr>, right: Made<Expr>) -> Made<Expr> {
    let operands = more(one(alloc, left), right)?;
    Ok(Expr::Operation(0, op, operands))
}

pub fn len(alloc: Global, operand: Made<Expr>) -> Made<Expr> {
    let operands = one(alloc, operand)?;
    Ok(Expr::Operation(0, Op::Len, operands))
}

pub fn of_set(alloc: Global, function: SetFunction, set: Made<Expr>) -> Made<Expr> {
    let set = scope(alloc, set)?;
    Ok(Expr::OfSet(0, function, set))
}

pub fn coalesce(alloc: Global, first: Made<Expr>, second: Made<Expr>) -> Made<Expr> {
    let (first, second) = both(boxed(alloc, first), scope(alloc, second))?;
    Ok(Expr::Coalesce(0, first, second))
}

pub fn optional_equal(alloc: Global, left: Made<Expr>, right: Made<Expr>) -> Made<Expr> {
    let (left, right) = both(boxed(alloc, left), boxed(alloc, right))?;
    Ok(Expr::OptionalEqual(0, false, left, right))
}

/// `<int64>{}`
pub fn no_ints() -> Made<Expr> {
    Ok(Expr::EmptySet(0, Ty::Scalar(ScalarTy::Int64)))
}

/// `{first, second}`
pub fn set(alloc: Global, first: Made<Expr>, second: Made<Expr>) -> Made<Expr> {
    let elements = more(one(alloc, scope(alloc, first)), scope(alloc, second))?;
    Ok(Expr::Set(0, elements))
}

pub fn tuple(alloc: Global, first: Made<Expr>, second: Made<Expr>) -> Made<Expr> {
    let parts = more(one(alloc, first), second)?;
    Ok(Expr::Tuple(0, parts))
}

/// `[element]`
pub fn array_of_one(alloc: Global, element: Made<Expr>) -> Made<Expr> {
    let elements = one(alloc, element)?;
    Ok(Expr::Array(0, None, elements))
}

/// `[first, second]`
pub fn array_of_two(alloc: Global, first: Made<Expr>, second: Made<Expr>) -> Made<Expr> {
    let elements = more(one(alloc, first), second)?;
    Ok(Expr::Array(0, None, elements))
}

/// `<array<int64>>[]`
pub fn empty_array(alloc: Global) -> Made<Expr> {
    let elements = List::new(alloc);
    Ok(Expr::Array(0, Some(ScalarTy::Int64), elements))
}

/// `<array<int64>>{}`
pub fn no_arrays() -> Made<Expr> {
    Ok(Expr::EmptySet(0, Ty::Array(ScalarTy::Int64)))
}

/// `<array<int64>>operand`
pub fn array_cast(alloc: Global, operand: Made<Expr>) -> Made<Expr> {
    let operand = boxed(alloc, operand)?;
    Ok(Expr::ArrayCast(0, ScalarTy::Int64, operand))
}

/// `array_unpack(operand)`
pub fn unpack(alloc: Global, operand: Made<Expr>) -> Made<Expr> {
    let operand = boxed(alloc, operand)?;
    Ok(Expr::Unpack(0, operand))
}

/// `value if condition else other`
pub fn choose(
    alloc: Global,
    condition: Made<Expr>,
    value: Made<Expr>,
    other: Made<Expr>,
) -> Made<Expr> {
    let branches = both(scope(alloc, value), scope(alloc, other));
    let (condition, (value, other)) = both(boxed(alloc, condition), branches)?;
    Ok(Expr::If(
        0,
        Conditional {
            order: Order::ValueFirst,
            condition,
            value,
            other,
        },
    ))
}

pub fn element(alloc: Global, name: &str, value: Made<Expr>) -> Made<Element> {
    let (name, value) = both(Text::from_str(alloc, name), scope(alloc, value))?;
    Ok(Element {
        start: 0,
        name,
        need: None,
        width: None,
        ty: None,
        card: None,
        value,
    })
}

/// An expression with a shape, whose subject has the number.
pub fn shaped(
    alloc: Global,
    subject: Made<Expr>,
    number: u32,
    elements: Made<List<Element>>,
) -> Made<Expr> {
    let (subject, elements) = both(boxed(alloc, subject), elements)?;
    Ok(Expr::Shaped(0, subject, None, number, elements))
}

/// A scope as a clause.
pub fn clause(alloc: Global, value: Made<Expr>) -> Made<Option<Boxed<Scope>>> {
    Ok(Some(boxed(alloc, scope(alloc, value))?))
}

pub fn no_clause() -> Made<Option<Boxed<Scope>>> {
    Ok(None)
}

pub fn no_keys(alloc: Global) -> Made<List<Key>> {
    Ok(List::new(alloc))
}

pub fn ascending(alloc: Global, value: Made<Expr>) -> Made<List<Key>> {
    let value = scope(alloc, value)?;
    one(alloc, Ok(Key::Ascending(Absent::First, value)))
}

/// A statement whose subject has the number 1.
pub fn selecting(
    alloc: Global,
    subject: Made<Expr>,
    filter: Made<Option<Boxed<Scope>>>,
    keys: Made<List<Key>>,
    limit: Made<Option<Boxed<Scope>>>,
) -> Made<Select> {
    let clauses = both(filter, both(keys, limit));
    let (subject, (filter, (keys, limit))) = both(boxed(alloc, subject), clauses)?;
    Ok(Select {
        subject,
        ty: None,
        number: 1,
        filter,
        keys,
        offset: None,
        limit,
    })
}

/// The statement with an offset.
pub fn behind(alloc: Global, offset: Made<Expr>, select: Made<Select>) -> Made<Select> {
    let (offset, select) = both(clause(alloc, offset), select)?;
    Ok(Select { offset, ..select })
}

pub fn no_aliases(alloc: Global) -> Made<List<Alias>> {
    Ok(List::new(alloc))
}

pub fn alias(alloc: Global, number: u32, value: Made<Expr>) -> Made<List<Alias>> {
    let value = scope(alloc, value)?;
    one(alloc, Ok(Alias { number, value }))
}

/// A statement behind aliases.
pub fn statement(aliases: Made<List<Alias>>, select: Made<Select>) -> Made<Expr> {
    let (aliases, select) = both(aliases, select)?;
    Ok(Expr::Select(0, aliases, select))
}

/// A statement without aliases and clauses.
pub fn plain(alloc: Global, subject: Made<Expr>) -> Made<Expr> {
    let select = selecting(alloc, subject, no_clause(), no_keys(alloc), no_clause());
    statement(no_aliases(alloc), select)
}

pub fn repeat(alloc: Global, number: u32, iterator: Made<Expr>, body: Made<Expr>) -> Made<Expr> {
    let scopes = both(scope(alloc, iterator), scope(alloc, body));
    let (aliases, (iterator, body)) = both(no_aliases(alloc), scopes)?;
    Ok(Expr::For(0, aliases, number, iterator, body))
}
