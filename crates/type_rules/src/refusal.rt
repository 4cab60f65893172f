//! Why a tree has no types: the rules of the EdgeDB documentation's pages on types, operators and casts, by the letters that
//! the program prints.

use core_ir::PtrId;
use std::alloc::AllocError;
use thiserror::Error;

/// A rule of names or of types that fails.
#[derive(Clone, Copy, Debug, PartialEq, Eq)]
pub enum TypeRule {
    /// A type has no pointer of that name, or a link no property of it.
    N2,
    /// The operands of an operator do not suit it, a condition is no `bool`, or an offset or a limit no `int64`.
    T1,
    /// The argument of a function does not suit it.
    T2,
    /// A cast is not allowed.
    T3,
    /// The two sides of `??`, `union` or `if` do not agree.
    T4,
    /// An object of a related type is wanted.
    T5,
    /// The elements of a set or of an array do not agree, or there are none.
    T6,
    /// A parameter has two types, or is optional in one place only.
    T7,
    /// A key of an order is no scalar.
    T8,
}

/// Why a tree has no types. Memory can run out at any place.
#[derive(Clone, Copy, Debug, Drop, Error)]
pub enum TypeRefusal {
    /// No memory is left.
    #[error("out of memory")]
    Memory,
    /// The rule that fails first, and the byte where it does.
    #[error("{0:?} byte {1}")]
    Rule(TypeRule, u32),
    /// The first failing place is a step to a computed pointer whose expression is not known yet.
    #[error("pointer {}", (.0).0)]
    Needs(PtrId),
}

impl From<AllocError> for TypeRefusal {
    ghost use Rattle.std.specs.Prelude.{◌≡◌};
    ghost use Rattle.type_rules.specs.declared.refusal.TypeRefusal.TheVariants as refusal;

    ghost from_gives = { λ _ r. r ≡ refusal.Memory };

    fn from(_: AllocError) -> TypeRefusal {
        TypeRefusal::Memory
    }
}
