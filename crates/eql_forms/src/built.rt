//! Which surface trees are built over a schema, and as what.
ghost use Rattle.std.specs.Prelude.{◌≡◌, ◌<◌, ◌^◌, ◌↔◌, IfOk, IsTrue, Some, length};
ghost use Rattle.eql_forms.specs.Built as spec;
ghost use Rattle.eql_forms.specs.Built.{IsBuilt};

use crate::path::path;
use ast::{Alias, BinaryOperator, Clauses, Query, Statement};
use core_ir::{Expr, Scope};
use ev_schema::Schema;
use ev_value::{Boxed, List, Op, OpError, ScalarTy, Text, Val, cast};
use std::alloc::{AllocError, Global};

/// Why a surface tree has no tree over a schema.
#[derive(Clone, Copy, Debug, PartialEq, Eq)]
pub enum BuildError {
    /// The surface tree is of no built form.
    Unbuilt,
    /// Want of memory, which may come anywhere.
    Memory,
}

impl From<AllocError> for BuildError {
    ghost use Rattle.std.specs.Prelude.{◌≡◌};
    ghost use Rattle.eql_forms.specs.declared.built.BuildError.TheVariants as build_error;

    ghost from_gives = { λ _ e. e ≡ build_error.Memory };

    fn from(_e: AllocError) -> BuildError {
        BuildError::Memory
    }
}

// The number that the digits write.
#[tactic(auto, using(crate::proofs::Forms::number_value, crate::proofs::Forms::number_fault))]
fn number(alloc: Global, start: u32, digits: &Text) -> Result<Expr, BuildError>
    ensures { IsBuilt result (spec.number start digits.now) }
{
    let text = Val::Str(digits.copied(alloc)?);
    match cast(alloc, ScalarTy::Int64, &text) {
        Ok(value) => Ok(Expr::Literal(start, value)),
        Err(OpError::Fault(_)) => Err(BuildError::Unbuilt),
        Err(OpError::Memory) => Err(BuildError::Memory),
    }
}

// Elements between braces: one at the least.
fn braces(start: u32, elements: List<Scope>) -> Result<Expr, BuildError>
    ensures { IsBuilt result (spec.braces start (Some elements)) }
{
    if elements.is_empty() {
        return Err(BuildError::Unbuilt);
    }
    Ok(Expr::Set(start, elements))
}

// The sum of two trees.
fn add(alloc: Global, start: u32, left: Expr, right: Expr) -> Result<Expr, AllocError>
    ensures { IfOk result (λ x. Some x ≡ spec.sum start BinaryOperator.Add (Some left) (Some right)) }
{
    let mut operands = List::new(alloc);
    operands.push(left)?;
    operands.push(right)?;
    Ok(Expr::Operation(start, Op::Add, operands))
}

// A scope of a tree.
fn scope(alloc: Global, start: u32, body: Expr) -> Result<Scope, AllocError>
    ensures { IfOk result (λ s. Some s ≡ spec.scope_at start (Some body)) }
{
    let body = Boxed::new(alloc, body)?;
    Ok(Scope {
        start,
        ty: None,
        body,
    })
}

// The tree of an expression.
#[cycle(built)]
#[tactic(auto, using(crate::proofs::Forms::built_int, crate::proofs::Forms::built_group, crate::proofs::Forms::built_set, crate::proofs::Forms::built_binary))]
fn built(alloc: Global, expr: &ast::Expr) -> Result<Expr, BuildError>
    ensures { IsBuilt result (spec.built expr.now) }
{
    match expr {
        ast::Expr::Int(span, digits) => number(alloc, span.start, digits),
        ast::Expr::Group(_, inner) => built(alloc, inner.get()),
        ast::Expr::Set(span, elements) => {
            braces(span.start, built_all(alloc, elements.as_slice())?)
        }
        ast::Expr::Binary(span, binary) => sum(alloc, span.start, binary),
        _ => Err(BuildError::Unbuilt),
    }
}

// The sum of two expressions.
#[cycle(built)]
fn sum(alloc: Global, start: u32, binary: &ast::Binary) -> Result<Expr, BuildError>
    ensures { IsBuilt result (spec.sum start binary.now.operator (spec.built binary.now.left) (spec.built binary.now.right)) }
{
    if binary.operator != BinaryOperator::Add {
        return Err(BuildError::Unbuilt);
    }
    let left = built(alloc, binary.left.get())?;
    let right = built(alloc, binary.right.get())?;
    Ok(add(alloc, start, left, right)?)
}

// An element between braces, from its first byte on.
#[cycle(built)]
fn element(alloc: Global, expr: &ast::Expr) -> Result<Scope, BuildError>
    ensures { IsBuilt result (spec.element expr.now) }
{
    let body = built(alloc, expr)?;
    Ok(scope(alloc, expr.span().start, body)?)
}

// The elements of several expressions, one after the other.
#[cycle(built)]
#[tactic(auto, using(crate::proofs::Forms::list_start, crate::proofs::Forms::list_end, crate::proofs::Forms::list_turn, crate::proofs::Forms::list_lost))]
fn built_all(alloc: Global, exprs: &[ast::Expr]) -> Result<List<Scope>, BuildError>
    ensures { IsBuilt result (spec.built_all exprs.now) }
{
    let mut all = List::new(alloc);
    for expr in exprs {
        all.push(element(alloc, expr)?)?;
    }
    Ok(all)
}

// The tree of a subject: of an expression of a built form, or of a path.
fn subject_tree(alloc: Global, schema: &Schema, expr: &ast::Expr) -> Result<Expr, BuildError>
    requires types { length schema.now.types < 2 ^ 32 }
    requires some { 0 < length schema.now.pointers }
    requires few { length schema.now.pointers < 2 ^ 32 }
    ensures { IsBuilt result (spec.or_else (spec.built expr.now) (spec.path schema.now expr.now)) }
{
    match built(alloc, expr) {
        Ok(tree) => Ok(tree),
        Err(BuildError::Unbuilt) => path(alloc, schema, expr),
        Err(BuildError::Memory) => Err(BuildError::Memory),
    }
}

// The scope of a subject, from its first byte on.
fn subject(alloc: Global, schema: &Schema, expr: &ast::Expr) -> Result<Scope, BuildError>
    requires types { length schema.now.types < 2 ^ 32 }
    requires some { 0 < length schema.now.pointers }
    requires few { length schema.now.pointers < 2 ^ 32 }
    ensures { IsBuilt result (spec.subject schema.now expr.now) }
{
    let body = subject_tree(alloc, schema, expr)?;
    Ok(scope(alloc, expr.span().start, body)?)
}

fn has_none(clauses: &Clauses) -> bool
    ensures { IsTrue result ↔ spec.HasNone clauses.now }
{
    clauses.filter.is_none()
        && clauses.order.is_empty()
        && clauses.offset.is_none()
        && clauses.limit.is_none()
}

fn is_plain(aliases: &List<Alias>, clauses: &Clauses) -> bool
    ensures { IsTrue result ↔ spec.IsPlain aliases.now clauses.now }
{
    aliases.is_empty() && has_none(clauses)
}

/// The tree of a whole query over a schema: of a `select` of a built form or of a path, without aliases and without
/// clauses.
///
/// # Errors
///
/// `Unbuilt` where the query has another form, or names no property of the schema that is built.
#[tactic(auto, using(crate::proofs::Forms::built_plain, crate::proofs::Forms::built_other, crate::proofs::Forms::built_for))]
pub fn build_query(alloc: Global, schema: &Schema, query: &Query) -> Result<Scope, BuildError>
    requires types { length schema.now.types < 2 ^ 32 }
    requires some { 0 < length schema.now.pointers }
    requires few { length schema.now.pointers < 2 ^ 32 }
    ensures { IsBuilt result (spec.built_query schema.now query.now) }
{
    match &query.statement {
        Statement::Select(_, aliases, select) if is_plain(aliases, &select.clauses) => {
            subject(alloc, schema, select.subject.get())
        }
        _ => Err(BuildError::Unbuilt),
    }
}
