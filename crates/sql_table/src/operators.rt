//! Operators, casts and functions on cells.
ghost use Rattle.std.specs.Prelude.{◌≡◌, [], ◌∷◌, IfOk, Some, slice_get};
ghost use Rattle.ev_value.specs.Operator.{item_of_op};
ghost use Rattle.sql_table.specs.Operators.{truth_cell, value_of as value_of_cell, cell_of as cell_of_value, cell_item, holds as holds_cell, is_null as is_null_cell, on_one as on_one_item, on_two as on_two_item, bool_in as bool_in_value, text_in as text_in_value, known_truth as known_truth_of, opposite as opposite_of, both_truths as both_truths_of, either_truth as either_truth_of, join_item, len_item, unary_item, binary_item, cast_item, parts as parts_of, part as part_of, part_among, elements as elements_of, present as present_of, asserted as asserted_item, or_null, over_cells, function_item};
ghost use Rattle.sql_table.specs.Outcome.{Gives};

use crate::cell::Cell;
use ev_list::{
    all_true, any_true, count, distinct_fault, exists_fault, greatest, is_true, least,
    single_fault, sum,
};
use ev_value::{Fault, Item, List, Op, OpError, Text, Val, apply_op, cast};
use sql_ast::{BinaryOp, Function, SqlTy, UnaryOp};
use std::alloc::{AllocError, Global};

/// The value of a cell. Null, a row and an array have none.
#[tactic(auto, using(crate::proofs::Cells::value_row, crate::proofs::Cells::value_array))]
pub fn value_of(cell: Cell) -> Option<Val>
    ensures { result ≡ value_of_cell cell }
{
    match cell {
        Cell::Null => None,
        Cell::Val(value) => Some(value),
        Cell::Row(_) => None,
        Cell::Array(_) => None,
    }
}

fn cell_of(value: Option<Val>) -> Cell
    ensures { result ≡ cell_of_value value }
{
    match value {
        Some(value) => Cell::Val(value),
        None => Cell::Null,
    }
}

/// Whether a cell is true. Null is not.
#[tactic(auto, using(crate::proofs::Cells::value_row, crate::proofs::Cells::value_array))]
pub fn holds(cell: &Cell) -> bool
    ensures { result ≡ holds_cell cell.now }
{
    match cell {
        Cell::Null => false,
        Cell::Val(value) => is_true(value),
        Cell::Row(_) => false,
        Cell::Array(_) => false,
    }
}

#[tactic(auto, using(crate::proofs::Cells::null_row, crate::proofs::Cells::null_array))]
fn is_null(cell: &Cell) -> bool
    ensures { result ≡ is_null_cell cell.now }
{
    match cell {
        Cell::Null => true,
        Cell::Val(_) => false,
        Cell::Row(_) => false,
        Cell::Array(_) => false,
    }
}

fn on_one(operator: Op, operand: Cell) -> Result<Cell, OpError>
    ensures { Gives result (on_one_item operator operand) }
{
    match value_of(operand) {
        None => Ok(Cell::Null),
        Some(value) => {
            let operands = [value];
            Ok(Cell::Val(apply_op(operator, &operands)?))
        }
    }
}

fn on_two(operator: Op, left: Cell, right: Cell) -> Result<Cell, OpError>
    ensures { Gives result (on_two_item operator left right) }
{
    match (value_of(left), value_of(right)) {
        (Some(a), Some(b)) => on_values(operator, a, b),
        _ => Ok(Cell::Null),
    }
}

fn on_values(operator: Op, left: Val, right: Val) -> Result<Cell, OpError>
    ensures { Gives result (cell_item (item_of_op operator (left ∷ right ∷ []))) }
{
    let operands = [left, right];
    Ok(Cell::Val(apply_op(operator, &operands)?))
}

fn truth(truth: bool) -> Cell
    ensures { result ≡ truth_cell truth }
{
    Cell::Val(Val::Bool(truth))
}

/// The cell that says whether something holds; null where that is not known.
fn known_truth(truth_there: Option<bool>) -> Cell
    ensures { result ≡ known_truth_of truth_there }
{
    match truth_there {
        Some(told) => truth(told),
        None => Cell::Null,
    }
}

fn bool_of(value: &Val) -> Option<bool>
    ensures { result ≡ bool_in_value (Some value.now) }
{
    match value {
        Val::Bool(truth) => Some(*truth),
        _ => None,
    }
}

/// The bool in a cell. Null, a row, an array and a value of another kind have none.
fn bool_in(cell: Cell) -> Option<bool>
    ensures { result ≡ bool_in_value (value_of_cell cell) }
{
    match value_of(cell) {
        Some(value) => bool_of(&value),
        None => None,
    }
}

fn text_of(value: Val) -> Option<Text>
    ensures { result ≡ text_in_value (Some value) }
{
    match value {
        Val::Str(text) => Some(text),
        _ => None,
    }
}

/// The text in a cell. Null, a row, an array and a value of another kind have none.
fn text_in(cell: Cell) -> Option<Text>
    ensures { result ≡ text_in_value (value_of_cell cell) }
{
    match value_of(cell) {
        Some(value) => text_of(value),
        None => None,
    }
}

fn opposite(truth_there: Option<bool>) -> Option<bool>
    ensures { result ≡ opposite_of truth_there }
{
    match truth_there {
        Some(told) => Some(!told),
        None => None,
    }
}

fn both_truths(left: Option<bool>, right: Option<bool>) -> Option<bool>
    ensures { result ≡ both_truths_of left right }
{
    match (left, right) {
        (Some(true), _) => right,
        (Some(false), _) => Some(false),
        (None, Some(false)) => Some(false),
        (None, Some(true)) => None,
        (None, None) => None,
    }
}

fn either_truth(left: Option<bool>, right: Option<bool>) -> Option<bool>
    ensures { result ≡ either_truth_of left right }
{
    match (left, right) {
        (Some(true), _) => Some(true),
        (Some(false), _) => right,
        (None, Some(true)) => Some(true),
        (None, Some(false)) => None,
        (None, None) => None,
    }
}

fn joined(left: Cell, right: Cell) -> Result<Cell, OpError>
    ensures { Gives result (join_item left right) }
{
    match (text_in(left), text_in(right)) {
        (Some(a), Some(b)) => Ok(Cell::Val(Val::Str(a.joined(&b)?))),
        _ => Ok(Cell::Null),
    }
}

/// How many characters the text in a cell has; null where there is none.
fn counted_text(cell: Cell) -> Result<Cell, OpError>
    ensures { Gives result (len_item cell) }
{
    match text_in(cell) {
        Some(text) => {
            let operands = [Val::Str(text)];
            Ok(Cell::Val(apply_op(Op::Len, &operands)?))
        }
        None => Ok(Cell::Null),
    }
}

/// What an operator gives on a cell.
pub fn unary(operator: UnaryOp, operand: Cell) -> Result<Cell, OpError>
    ensures { Gives result (unary_item operator operand) }
{
    match operator {
        UnaryOp::Neg => on_one(Op::Neg, operand),
        UnaryOp::Not => Ok(known_truth(opposite(bool_in(operand)))),
        UnaryOp::IsNull => Ok(truth(is_null(&operand))),
        UnaryOp::IsNotNull => Ok(truth(!is_null(&operand))),
    }
}

/// What an operator gives on two cells. `AND` and `OR` know null as a third truth; the others give null where an
/// operand has no value. Only `+ - * // %` can fault.
pub fn binary(operator: BinaryOp, left: Cell, right: Cell) -> Result<Cell, OpError>
    ensures { Gives result (binary_item operator left right) }
{
    match operator {
        BinaryOp::Or => Ok(known_truth(either_truth(bool_in(left), bool_in(right)))),
        BinaryOp::And => Ok(known_truth(both_truths(bool_in(left), bool_in(right)))),
        BinaryOp::Eq => on_two(Op::Eq, left, right),
        BinaryOp::Ne => on_two(Op::Ne, left, right),
        BinaryOp::Lt => on_two(Op::Lt, left, right),
        BinaryOp::Le => on_two(Op::Le, left, right),
        BinaryOp::Gt => on_two(Op::Gt, left, right),
        BinaryOp::Ge => on_two(Op::Ge, left, right),
        BinaryOp::Add => on_two(Op::Add, left, right),
        BinaryOp::Sub => on_two(Op::Sub, left, right),
        BinaryOp::Concat => joined(left, right),
        BinaryOp::Mul => on_two(Op::Mul, left, right),
        BinaryOp::FloorDiv => on_two(Op::FloorDiv, left, right),
        BinaryOp::Mod => on_two(Op::Mod, left, right),
    }
}

/// A cell as a scalar type: null stays null.
#[tactic(auto, using(crate::proofs::Cells::cast_row, crate::proofs::Cells::cast_array))]
pub fn cast_cell(alloc: Global, operand: Cell, ty: &SqlTy) -> Result<Cell, OpError>
    ensures { Gives result (cast_item ty.now operand) }
{
    match ty {
        SqlTy::Scalar(ty) => match value_of(operand) {
            None => Ok(Cell::Null),
            Some(value) => Ok(Cell::Val(cast(alloc, *ty, &value)?)),
        },
        SqlTy::Row(_) => Ok(Cell::Null),
        SqlTy::Array(_) => Ok(Cell::Null),
    }
}

/// The elements of an array, where the cell is one.
#[tactic(auto, using(crate::proofs::Cells::elements_array, crate::proofs::Cells::elements_row))]
pub fn elements(cell: Cell) -> Option<List<Cell>>
    ensures { result ≡ elements_of cell }
{
    match cell {
        Cell::Null => None,
        Cell::Val(_) => None,
        Cell::Row(_) => None,
        Cell::Array(cells) => Some(cells),
    }
}

#[tactic(auto, using(crate::proofs::Cells::parts_array, crate::proofs::Cells::parts_row))]
fn parts(cell: Cell) -> Option<List<Cell>>
    ensures { result ≡ parts_of cell }
{
    match cell {
        Cell::Null => None,
        Cell::Val(_) => None,
        Cell::Row(cells) => Some(cells),
        Cell::Array(_) => None,
    }
}

/// The cell at a place; null where there is none.
fn cell_at(alloc: Global, cells: &[Cell], at: usize) -> Result<Cell, AllocError>
    ensures { IfOk result (λ c. c ≡ or_null (slice_get cells.now at)) }
{
    match cells.get(at) {
        Some(cell) => cell.copied(alloc),
        None => Ok(Cell::Null),
    }
}

/// The part of a row with a number. Parts count from 1; one that is not there is null.
#[tactic(auto, using(crate::proofs::Cells::part_at, crate::proofs::Cells::no_part, crate::proofs::Cells::no_parts))]
pub fn part(alloc: Global, row: Cell, number: i64) -> Result<Cell, AllocError>
    ensures { IfOk result (λ c. c ≡ part_of number row) }
{
    let Some(cells) = parts(row) else {
        return Ok(Cell::Null);
    };
    if number <= 0 {
        return Ok(Cell::Null);
    }
    cell_at(alloc, cells.as_slice(), (number - 1) as usize)
}

/// The values among cells, in their order.
fn present(alloc: Global, cells: List<Cell>) -> Result<List<Val>, AllocError>
    ensures { IfOk result (λ vs. vs ≡ present_of cells) }
{
    let mut left = cells;
    let mut taken = Vec::new(alloc);
    while let Some(cell) = left.pop() {
        if let Some(value) = value_of(cell) {
            taken.push(value)?;
        }
    }
    taken.reverse();
    Ok(List::from_vec(taken))
}

fn give(item: Item) -> Result<Cell, OpError>
    ensures { Gives result (cell_item item) }
{
    match item {
        Item::Value(value) => Ok(Cell::Val(value)),
        Item::Fault(fault) => Err(OpError::Fault(fault)),
    }
}

fn asserted(fault: Option<Fault>, cells: List<Cell>) -> Result<Cell, OpError>
    ensures { Gives result (asserted_item fault cells) }
{
    match fault {
        Some(fault) => Err(OpError::Fault(fault)),
        None => Ok(Cell::Array(cells)),
    }
}

/// What a function gives on the elements of an array. `LEN` is none of these.
fn over(alloc: Global, function: Function, cells: List<Cell>) -> Result<Cell, OpError>
    ensures { Gives result (over_cells function cells) }
{
    match function {
        Function::Len => Ok(Cell::Null),
        Function::CountOf => give(count(cells.as_slice())),
        Function::SumOf => give(sum(present(alloc, cells)?.as_slice())),
        Function::MinOf => Ok(cell_of(least(present(alloc, cells)?))),
        Function::MaxOf => Ok(cell_of(greatest(present(alloc, cells)?))),
        Function::AnyOf => Ok(truth(any_true(present(alloc, cells)?.as_slice()))),
        Function::AllOf => Ok(truth(all_true(present(alloc, cells)?.as_slice()))),
        Function::AssertSingle => asserted(single_fault(cells.as_slice()), cells),
        Function::AssertExists => asserted(exists_fault(cells.as_slice()), cells),
        Function::AssertDistinct => asserted(distinct_fault(cells.as_slice()), cells),
    }
}

/// What a function gives on a cell.
pub fn call(alloc: Global, function: Function, operand: Cell) -> Result<Cell, OpError>
    ensures { Gives result (function_item function operand) }
{
    match function {
        Function::Len => counted_text(operand),
        _ => match elements(operand) {
            None => Ok(Cell::Null),
            Some(cells) => over(alloc, function, cells),
        },
    }
}
