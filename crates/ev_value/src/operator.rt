//! Operators on values.
ghost use Rattle.std.specs.Prelude.{◌≡◌};
ghost use Rattle.ev_value.specs.Operator.{IsGiven, IsFound, item_of_op, numbers_in, truths_in, order_in, tried as tried_item};
ghost use Rattle.ev_value.specs.declared.operator.Op.TheVariants as op;

use crate::division::floor_division;
use crate::item::Fault;
use crate::order::cmp_val;
use crate::value::Val;
use std::alloc::AllocError;
use std::cmp::Ordering;

/// An operator or a plain function, which gives one value or one fault for the values of its operands.
#[derive(Clone, Copy, PartialEq, Eq)]
pub enum Op {
    Add,
    Sub,
    Mul,
    FloorDiv,
    Mod,
    Neg,
    Concat,
    Len,
    Eq,
    Ne,
    Lt,
    Le,
    Gt,
    Ge,
    And,
    Or,
    Not,
}

/// Why an operator or a cast gave no value.
#[derive(Clone, Copy)]
pub enum OpError {
    Fault(Fault),
    /// Want of memory, which comes only where a text is to be made.
    Memory,
}

impl From<AllocError> for OpError {
    ghost use Rattle.ev_value.specs.declared.operator.OpError.TheVariants as op_error;

    ghost from_gives = { λ _ e. e ≡ op_error.Memory };

    fn from(_: AllocError) -> OpError {
        OpError::Memory
    }
}

/// What is told for operands that do not fit the operator, which no query that has types asks.
const UNFIT: OpError = OpError::Fault(Fault::IntOverflow);

/// What the operator gives for the values of its operands, in the order of the text: a value or a fault, as the EdgeDB
/// documentation's pages on numerics, strings, generic and boolean operators say. The least number divided by -1 and
/// sums, products and negations out of range fault with `IntOverflow`, a zero divisor with `DivisionByZero`.
pub fn apply_op(operator: Op, operands: &[Val]) -> Result<Val, OpError>
    ensures { IsGiven result (item_of_op operator operands.now) }
{
    match operator {
        Op::Add => add(operands),
        Op::Sub => subtract(operands),
        Op::Mul => multiply(operands),
        Op::FloorDiv => quotient(operands),
        Op::Mod => remainder(operands),
        Op::Neg => negate(operands),
        Op::Concat => join(operands),
        Op::Len => count(operands),
        Op::Eq => Ok(Val::Bool(order(operands)?.is_eq())),
        Op::Ne => Ok(Val::Bool(order(operands)?.is_ne())),
        Op::Lt => Ok(Val::Bool(order(operands)?.is_lt())),
        Op::Le => Ok(Val::Bool(order(operands)?.is_le())),
        Op::Gt => Ok(Val::Bool(order(operands)?.is_gt())),
        Op::Ge => Ok(Val::Bool(order(operands)?.is_ge())),
        Op::And => both(operands),
        Op::Or => either(operands),
        Op::Not => opposite(operands),
    }
}

fn numbers(operands: &[Val]) -> Result<(i64, i64), OpError>
    ensures { IsFound result (numbers_in operands.now) }
{
    match operands {
        [Val::Int(a), Val::Int(b)] => Ok((*a, *b)),
        _ => Err(UNFIT),
    }
}

fn truths(operands: &[Val]) -> Result<(bool, bool), OpError>
    ensures { IsFound result (truths_in operands.now) }
{
    match operands {
        [Val::Bool(a), Val::Bool(b)] => Ok((*a, *b)),
        _ => Err(UNFIT),
    }
}

fn order(operands: &[Val]) -> Result<Ordering, OpError>
    ensures { IsFound result (order_in operands.now) }
{
    match operands {
        [left, right] => Ok(cmp_val(left, right)),
        _ => Err(UNFIT),
    }
}

/// A number that was tried in 64 bits.
fn tried(number: Option<i64>) -> Result<Val, OpError>
    ensures { IsGiven result (tried_item number) }
{
    match number {
        Some(number) => Ok(Val::Int(number)),
        None => Err(OpError::Fault(Fault::IntOverflow)),
    }
}

fn add(operands: &[Val]) -> Result<Val, OpError>
    ensures { IsGiven result (item_of_op op.Add operands.now) }
{
    let (a, b) = numbers(operands)?;
    tried(a.checked_add(b))
}

fn subtract(operands: &[Val]) -> Result<Val, OpError>
    ensures { IsGiven result (item_of_op op.Sub operands.now) }
{
    let (a, b) = numbers(operands)?;
    tried(a.checked_sub(b))
}

fn multiply(operands: &[Val]) -> Result<Val, OpError>
    ensures { IsGiven result (item_of_op op.Mul operands.now) }
{
    let (a, b) = numbers(operands)?;
    tried(a.checked_mul(b))
}

fn quotient(operands: &[Val]) -> Result<Val, OpError>
    ensures { IsGiven result (item_of_op op.FloorDiv operands.now) }
{
    let (a, b) = numbers(operands)?;
    if b == 0 {
        return Err(OpError::Fault(Fault::DivisionByZero));
    }
    let (quotient, _) = floor_division(a, b);
    tried(i64::try_from(quotient).ok())
}

fn remainder(operands: &[Val]) -> Result<Val, OpError>
    ensures { IsGiven result (item_of_op op.Mod operands.now) }
{
    let (a, b) = numbers(operands)?;
    if b == 0 {
        return Err(OpError::Fault(Fault::DivisionByZero));
    }
    let (_, rest) = floor_division(a, b);
    Ok(Val::Int(rest as i64))
}

fn negate(operands: &[Val]) -> Result<Val, OpError>
    ensures { IsGiven result (item_of_op op.Neg operands.now) }
{
    match operands {
        [Val::Int(a)] => tried(a.checked_neg()),
        _ => Err(UNFIT),
    }
}

fn join(operands: &[Val]) -> Result<Val, OpError>
    ensures { IsGiven result (item_of_op op.Concat operands.now) }
{
    match operands {
        [Val::Str(first), Val::Str(second)] => Ok(Val::Str(first.joined(second)?)),
        _ => Err(UNFIT),
    }
}

fn count(operands: &[Val]) -> Result<Val, OpError>
    ensures { IsGiven result (item_of_op op.Len operands.now) }
{
    match operands {
        [Val::Str(text)] => tried(i64::try_from(text.characters()).ok()),
        _ => Err(UNFIT),
    }
}

fn both(operands: &[Val]) -> Result<Val, OpError>
    ensures { IsGiven result (item_of_op op.And operands.now) }
{
    let (a, b) = truths(operands)?;
    Ok(Val::Bool(a & b))
}

fn either(operands: &[Val]) -> Result<Val, OpError>
    ensures { IsGiven result (item_of_op op.Or operands.now) }
{
    let (a, b) = truths(operands)?;
    Ok(Val::Bool(a | b))
}

fn opposite(operands: &[Val]) -> Result<Val, OpError>
    ensures { IsGiven result (item_of_op op.Not operands.now) }
{
    match operands {
        [Val::Bool(a)] => Ok(Val::Bool(!*a)),
        _ => Err(UNFIT),
    }
}
