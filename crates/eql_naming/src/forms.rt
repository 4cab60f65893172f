//! Forms over the trees of their parts.
ghost use Rattle.std.specs.Prelude.{◌≡◌, ◌≤◌, ◌∷◌, [], IfOk, length};
ghost use Rattle.core_ir.specs.declared.tree.Expr.TheVariants as expr;
ghost use Rattle.plan.specs.Plan.{tells};
ghost use Rattle.eql_naming.specs.Naming.{Answers};
ghost use Rattle.eql_naming.specs.Forms as rule;
ghost use Rattle.eql_naming.specs.Paths.{scope_at as scope_of};
ghost use Rattle.eql_naming.specs.Statements.{absent_ascending as absent_ascending_of, absent_descending as absent_descending_of};
ghost use Rattle.eql_naming.specs.Shapes.{need_of as need_for, width_of as width_for};

use crate::meaning::{Function, Meant, function_meant, is_module};
use crate::paths::{scope_at, type_of};
use crate::refusal::{NameRefusal, NameRule};
use ast::{BinaryOperator, EmptyPlace, Name, Parameter, QualifiedName, UnaryOperator};
use core_ir::{Conditional, Expr, Misfit, Order, Param, Scope, SetFunction, Ty};
use ev_index::Index;
use ev_list::Absent;
use ev_value::{Boxed, List, Op, OpError, ScalarTy, Text, Val, cast};
use std::alloc::{AllocError, Global};

/// The number that digits write. A token's digits always write one of 64 bits.
#[tactic(auto, using(crate::proofs::Numbers::number_value, crate::proofs::Numbers::number_fault))]
pub fn number(alloc: Global, digits: &Text) -> Result<Val, AllocError>
    ensures { IfOk result (λ v. v ≡ rule.number digits.now) }
{
    let text = Val::Str(digits.copied(alloc)?);
    match cast(alloc, ScalarTy::Int64, &text) {
        Ok(value) => Ok(value),
        Err(OpError::Fault(_)) => Ok(Val::Int(0)),
        Err(OpError::Memory) => Err(AllocError),
    }
}

/// Whether an expression is `{}`, in parentheses or not.
pub fn is_empty_set(x: &ast::Expr) -> bool
    ensures { result ≡ rule.is_empty_set x.now }
{
    match x {
        ast::Expr::Group(_, inner) => is_empty_set(inner.get()),
        ast::Expr::Set(_, elements) => match elements.as_slice() {
            [] => true,
            [_, ..] => false,
        },
        _ => false,
    }
}

/// `global name`
#[tactic(auto, unfolding(crate::specs::Forms::global))]
pub fn global(
    alloc: Global,
    index: &Index<'_>,
    start: u32,
    name: &Name,
    fresh: &mut u32,
) -> Result<Expr, NameRefusal>
    ensures { Answers (tells (rule.global index.now start name.now fresh.old)) result fresh.new }
{
    match index.global_type(&name.text) {
        Some(_) => Ok(Expr::Global(start, name.text.copied(alloc)?)),
        None => Err(NameRefusal::Rule(NameRule::N1, name.span.start)),
    }
}

// An operator or a function of one operand.
fn operation_of_one(alloc: Global, start: u32, op: Op, x: Expr) -> Result<Expr, AllocError>
    ensures { IfOk result (λ y. y ≡ rule.operated_alone start op x) }
{
    let mut operands = List::new(alloc);
    operands.push(x)?;
    Ok(Expr::Operation(start, op, operands))
}

// An operator of two operands.
fn operation(alloc: Global, start: u32, op: Op, x: Expr, y: Expr) -> Result<Expr, AllocError>
    ensures { IfOk result (λ z. z ≡ rule.operated start op x y) }
{
    let mut operands = List::new(alloc);
    operands.push(x)?;
    operands.push(y)?;
    Ok(Expr::Operation(start, op, operands))
}

// A function of a whole set, whose text begins at a byte.
fn of_set(
    alloc: Global,
    start: u32,
    function: SetFunction,
    from: u32,
    x: Expr,
) -> Result<Expr, AllocError>
    ensures { IfOk result (λ y. y ≡ rule.of_set_of start function from x) }
{
    Ok(Expr::OfSet(start, function, scope_at(alloc, from, x)?))
}

/// A function of one argument, whose text begins at a byte.
pub fn applied(
    alloc: Global,
    start: u32,
    function: Function,
    from: u32,
    x: Expr,
) -> Result<Expr, AllocError>
    ensures { IfOk result (λ y. y ≡ rule.applied start function from x) }
{
    match function {
        Function::Len => operation_of_one(alloc, start, Op::Len, x),
        Function::Unpack => Ok(Expr::Unpack(start, Boxed::new(alloc, x)?)),
        Function::OfSet(function) => of_set(alloc, start, function, from, x),
    }
}

/// The function that a name means.
#[tactic(auto, unfolding(crate::specs::Forms::called))]
pub fn called(name: &QualifiedName, fresh: &mut u32) -> Result<Function, NameRefusal>
    ensures { Answers (tells (rule.called name.now fresh.old)) result fresh.new }
{
    if !is_module(&name.module) {
        return Err(NameRefusal::Rule(NameRule::N7, name.start()));
    }
    match function_meant(name) {
        Some(function) => Ok(function),
        None => Err(NameRefusal::Rule(NameRule::N1, name.start())),
    }
}

/// A cast of an expression, over the meaning of its type.
pub fn cast_to(alloc: Global, start: u32, x: Expr, meant: Meant) -> Result<Expr, AllocError>
    ensures { IfOk result (λ y. y ≡ rule.cast_to start x meant) }
{
    match meant {
        Meant::Scalar(ty) => Ok(Expr::Cast(start, ty, Boxed::new(alloc, x)?)),
        Meant::Object(_) => {
            let mut parts = List::new(alloc);
            parts.push(x)?;
            Ok(Expr::Unfit(start, Misfit::ObjectCast, start, parts))
        }
    }
}

// A cast of `{}`, over the meaning of its type.
fn empty_of(alloc: Global, start: u32, meant: Meant) -> Expr
    ensures { result ≡ rule.empty_of start meant }
{
    match meant {
        Meant::Scalar(ty) => Expr::EmptySet(start, Ty::Scalar(ty)),
        Meant::Object(_) => Expr::Unfit(start, Misfit::ObjectCast, start, List::new(alloc)),
    }
}

/// A cast of `{}`.
#[tactic(auto, unfolding(crate::specs::Forms::empty_cast))]
pub fn empty_cast(
    alloc: Global,
    index: &Index<'_>,
    start: u32,
    name: &QualifiedName,
    fresh: &mut u32,
) -> Result<Expr, NameRefusal>
    ensures { Answers (tells (rule.empty_cast index.now start name.now fresh.old)) result fresh.new }
{
    let meant = type_of(index, name, fresh)?;
    Ok(empty_of(alloc, start, meant))
}

// The byte of the token behind `$`.
fn name_place(p: &Parameter) -> u32
    ensures { result ≡ rule.name_place p.now }
{
    let length = p.name.as_str().len();
    let end = p.span.end as usize;
    if length <= end {
        (end - length) as u32
    } else {
        0
    }
}

// A parameter, over the meaning of its type.
fn parameter_of(alloc: Global, start: u32, p: &Parameter, meant: Meant) -> Result<Expr, AllocError>
    ensures { IfOk result (λ x. x ≡ rule.parameter_of start p.now meant) }
{
    match meant {
        Meant::Scalar(ty) => {
            let name = p.name.copied(alloc)?;
            let optional = p.optional;
            Ok(Expr::Param(start, Param { name, ty, optional }))
        }
        Meant::Object(_) => {
            let parts = List::new(alloc);
            Ok(Expr::Unfit(start, Misfit::ObjectCast, start, parts))
        }
    }
}

/// A parameter under its cast, where parameters may be known or not.
#[tactic(auto, unfolding(crate::specs::Forms::parameter))]
pub fn parameter(
    alloc: Global,
    index: &Index<'_>,
    parameters: bool,
    start: u32,
    p: &Parameter,
    fresh: &mut u32,
) -> Result<Expr, NameRefusal>
    ensures { Answers (tells (rule.parameter index.now parameters start p.now fresh.old)) result fresh.new }
{
    let meant = type_of(index, &p.ty, fresh)?;
    if !parameters {
        return Err(NameRefusal::Rule(NameRule::N1, name_place(p)));
    }
    Ok(parameter_of(alloc, start, p, meant)?)
}

/// An operator before its operand, whose text begins at a byte.
pub fn prefixed(
    alloc: Global,
    start: u32,
    operator: UnaryOperator,
    from: u32,
    x: Expr,
) -> Result<Expr, AllocError>
    ensures { IfOk result (λ y. y ≡ rule.prefixed start operator from x) }
{
    match operator {
        UnaryOperator::Not => operation_of_one(alloc, start, Op::Not, x),
        UnaryOperator::Negate => operation_of_one(alloc, start, Op::Neg, x),
        UnaryOperator::Keep => Ok(Expr::Plus(start, Boxed::new(alloc, x)?)),
        UnaryOperator::Distinct => of_set(alloc, start, SetFunction::Distinct, from, x),
        UnaryOperator::Exists => of_set(alloc, start, SetFunction::Exists, from, x),
    }
}

/// How an operator joins its operands.
#[derive(Clone, Copy, PartialEq, Eq)]
pub enum Joint {
    /// By an operation on their items.
    Items(Op),
    /// As two sets, one behind the other.
    Sets,
    /// As what may be empty on both sides, negated or not.
    Optional(bool),
    /// As an item and a set, negated or not.
    Member(bool),
    /// As an expression and what stands for it where it is empty.
    Default,
    /// Not here.
    Unknown,
}

fn joint_of(operator: BinaryOperator) -> Joint
    ensures { result ≡ rule.joint_of operator }
{
    match operator {
        BinaryOperator::Union => Joint::Sets,
        BinaryOperator::Intersect => Joint::Unknown,
        BinaryOperator::Except => Joint::Unknown,
        BinaryOperator::Or => Joint::Items(Op::Or),
        BinaryOperator::And => Joint::Items(Op::And),
        BinaryOperator::Equal => Joint::Items(Op::Eq),
        BinaryOperator::NotEqual => Joint::Items(Op::Ne),
        BinaryOperator::OptionalEqual => Joint::Optional(false),
        BinaryOperator::OptionalNotEqual => Joint::Optional(true),
        BinaryOperator::Less => Joint::Items(Op::Lt),
        BinaryOperator::LessOrEqual => Joint::Items(Op::Le),
        BinaryOperator::Greater => Joint::Items(Op::Gt),
        BinaryOperator::GreaterOrEqual => Joint::Items(Op::Ge),
        BinaryOperator::Like => Joint::Unknown,
        BinaryOperator::Ilike => Joint::Unknown,
        BinaryOperator::In => Joint::Member(false),
        BinaryOperator::NotIn => Joint::Member(true),
        BinaryOperator::Add => Joint::Items(Op::Add),
        BinaryOperator::Subtract => Joint::Items(Op::Sub),
        BinaryOperator::Concat => Joint::Items(Op::Concat),
        BinaryOperator::Multiply => Joint::Items(Op::Mul),
        BinaryOperator::FloorDivide => Joint::Items(Op::FloorDiv),
        BinaryOperator::Remainder => Joint::Items(Op::Mod),
        BinaryOperator::Coalesce => Joint::Default,
    }
}

/// An operator between two operands, whose texts begin at these bytes. None where it is no part of the language here.
pub fn joined(
    alloc: Global,
    start: u32,
    operator: BinaryOperator,
    left: u32,
    x: Expr,
    right: u32,
    y: Expr,
) -> Result<Option<Expr>, AllocError>
    ensures { IfOk result (λ o. o ≡ rule.joined start operator left x right y) }
{
    match joint_of(operator) {
        Joint::Items(op) => Ok(Some(operation(alloc, start, op, x, y)?)),
        Joint::Sets => {
            let x = scope_at(alloc, left, x)?;
            let y = scope_at(alloc, right, y)?;
            Ok(Some(Expr::Union(start, x, y)))
        }
        Joint::Optional(negated) => {
            let x = Boxed::new(alloc, x)?;
            let y = Boxed::new(alloc, y)?;
            Ok(Some(Expr::OptionalEqual(start, negated, x, y)))
        }
        Joint::Member(negated) => {
            let x = Boxed::new(alloc, x)?;
            let y = scope_at(alloc, right, y)?;
            Ok(Some(Expr::In(start, negated, x, y)))
        }
        Joint::Default => {
            let x = Boxed::new(alloc, x)?;
            let y = scope_at(alloc, right, y)?;
            Ok(Some(Expr::Coalesce(start, x, y)))
        }
        Joint::Unknown => Ok(None),
    }
}

// The branches of a choice, whose texts begin at these bytes.
fn branches(
    alloc: Global,
    from: u32,
    value: Expr,
    from_other: u32,
    other: Expr,
) -> Result<(Scope, Scope), AllocError>
    ensures { IfOk result (λ b. (b.0 ≡ scope_of from value) × (b.1 ≡ scope_of from_other other)) }
{
    let value = scope_at(alloc, from, value)?;
    let other = scope_at(alloc, from_other, other)?;
    Ok((value, other))
}

// A choice over the scopes of its branches.
fn choice(
    alloc: Global,
    start: u32,
    order: Order,
    condition: Expr,
    value: Scope,
    other: Scope,
) -> Result<Expr, AllocError>
    ensures { IfOk result (λ x. x ≡ expr.If start (record { order = order; condition = condition; value = value; other = other })) }
{
    let condition = Boxed::new(alloc, condition)?;
    Ok(Expr::If(
        start,
        Conditional {
            order,
            condition,
            value,
            other,
        },
    ))
}

/// A choice of its parts, where the texts of its branches begin at these bytes.
pub fn chosen(
    alloc: Global,
    start: u32,
    order: Order,
    condition: Expr,
    from: u32,
    value: Expr,
    from_other: u32,
    other: Expr,
) -> Result<Expr, AllocError>
    ensures { IfOk result (λ x. x ≡ rule.chosen start order condition from value from_other other) }
{
    let (value, other) = branches(alloc, from, value, from_other, other)?;
    Ok(choice(alloc, start, order, condition, value, other)?)
}

/// Where an ascending order puts what is empty: least, if nothing is said.
pub fn absent_ascending(place: Option<EmptyPlace>) -> Absent
    ensures { result ≡ absent_ascending_of place }
{
    match place {
        None => Absent::First,
        Some(EmptyPlace::First) => Absent::First,
        Some(EmptyPlace::Last) => Absent::Last,
    }
}

/// Where a descending order puts what is empty.
pub fn absent_descending(place: Option<EmptyPlace>) -> Absent
    ensures { result ≡ absent_descending_of place }
{
    match place {
        None => Absent::Last,
        Some(EmptyPlace::First) => Absent::First,
        Some(EmptyPlace::Last) => Absent::Last,
    }
}

/// The word before an element, as the tree has it.
pub fn need_of(need: Option<ast::Need>) -> Option<core_ir::Need>
    ensures { result ≡ need_for need }
{
    match need {
        None => None,
        Some(ast::Need::Required) => Some(core_ir::Need::Required),
        Some(ast::Need::Optional) => Some(core_ir::Need::Optional),
    }
}

/// The other word before an element, as the tree has it.
pub fn width_of(width: Option<ast::Width>) -> Option<core_ir::Width>
    ensures { result ≡ width_for width }
{
    match width {
        None => None,
        Some(ast::Width::Single) => Some(core_ir::Width::Single),
        Some(ast::Width::Multi) => Some(core_ir::Width::Multi),
    }
}
