//! The clauses of a statement.
ghost use Rattle.std.specs.Prelude.{◌≡◌};
ghost use Rattle.type_infer.specs.Forms.{suits_clause, rule_of_clause};

use crate::kinds::is_scalar;
use core_ir::Ty;
use ev_value::ScalarTy;
use type_rules::{TypeRule, is_of};

/// What a clause of a statement is for.
#[derive(Clone, Copy)]
pub enum Clause {
    Filter,
    /// A key of an order.
    Key,
    /// An offset or a limit.
    Cut,
}

impl Clause {
    /// Whether a type suits the clause.
    pub fn suits(self, ty: &Ty) -> bool
        ensures { result ≡ suits_clause self ty.now }
    {
        match self {
            Clause::Filter => is_of(ScalarTy::Bool, ty),
            Clause::Key => is_scalar(ty),
            Clause::Cut => is_of(ScalarTy::Int64, ty),
        }
    }

    /// The rule that is told where it does not.
    pub fn rule(self) -> TypeRule
        ensures { result ≡ rule_of_clause self }
    {
        match self {
            Clause::Key => TypeRule::T8,
            Clause::Filter => TypeRule::T1,
            Clause::Cut => TypeRule::T1,
        }
    }
}
