//! Forms of several expressions one after the other, and of two.
ghost use Rattle.std.specs.Prelude.{◌≡◌, IfOk, [], ◌∷◌, ◌++◌};
ghost use Rattle.core_ir.specs.declared.tree.Expr.TheVariants as form;
ghost use Rattle.plan.specs.Plan.{tells};
ghost use Rattle.plan.specs.Ruled.{gives};
ghost use Rattle.type_infer.specs.Forms as rule;
ghost use Rattle.type_rules.specs.Known.{Known, known_by};
ghost use Rattle.type_infer.specs.Typing.{infer as infer_of, scope_of, all_of};
ghost use Rattle.type_rules.specs.Refusal.{Answers};

use crate::typer::Typer;
use core_ir::{Expr, Misfit, Scope, Ty};
use ev_value::{Boxed, List, Op, ScalarTy};
use std::alloc::{AllocError, Global};
use type_rules::{Notes, TypeRefusal, TypeRule, agreed, comparable, elements_type, operator_type};

/// The rule of an operator whose operands do not suit it.
fn operands_rule(operator: Op) -> TypeRule
    ensures { result ≡ rule.operands_rule operator }
{
    match operator {
        Op::Len => TypeRule::T2,
        _ => TypeRule::T1,
    }
}

/// The rule of what no type can be given to.
fn rule_of(misfit: Misfit) -> TypeRule
    ensures { result ≡ rule.rule_of misfit }
{
    match misfit {
        Misfit::ArgumentCount => TypeRule::T2,
        Misfit::ObjectCast => TypeRule::T3,
        Misfit::ScalarNarrowing => TypeRule::T5,
        Misfit::ScalarBackLink => TypeRule::N2,
    }
}

/// No expressions.
fn no_exprs(alloc: Global) -> (List<Expr>, List<Ty>)
    ensures { result ≡ ([], []) }
{
    (List::new(alloc), List::new(alloc))
}

/// One more expression with the type of its items, behind those that have theirs.
fn with_expr(
    done: (List<Expr>, List<Ty>),
    part: (Expr, Ty),
) -> Result<(List<Expr>, List<Ty>), AllocError>
    ensures { IfOk result (λ more. more ≡ (done.0 ++ part.0 ∷ [], done.1 ++ part.1 ∷ [])) }
{
    let (mut exprs, mut types) = done;
    exprs.push(part.0)?;
    types.push(part.1)?;
    Ok((exprs, types))
}

/// `[first, second, ..]` of elements that have their types.
#[tactic(auto, unfolding(crate::specs::Forms::array))]
fn array_of(
    byte: u32,
    written: Option<ScalarTy>,
    elements: (List<Expr>, List<Ty>),
) -> Result<(Expr, Ty), TypeRefusal>
    ensures { (k : Known) → Answers (tells (rule.array byte written (gives elements) k)) result k }
{
    let (elements, types) = elements;
    let Some(scalar) = elements_type(written, types.as_slice()) else {
        return Err(TypeRefusal::Rule(TypeRule::T6, byte));
    };
    Ok((Expr::Array(byte, written, elements), Ty::Array(scalar)))
}

fn made_equal(
    alloc: Global,
    byte: u32,
    negated: bool,
    left: Expr,
    right: Expr,
) -> Result<Expr, AllocError>
    ensures { IfOk result (λ x. x ≡ form.OptionalEqual byte negated left right) }
{
    let left = Boxed::new(alloc, left)?;
    let right = Boxed::new(alloc, right)?;
    Ok(Expr::OptionalEqual(byte, negated, left, right))
}

impl<'a> Typer<'a> {
    /// `left ?= right` and `left ?!= right` of sides that have their types.
    #[tactic(auto, unfolding(crate::specs::Forms::optional_equal))]
    fn optional_equal_of(
        &self,
        byte: u32,
        negated: bool,
        left: (Expr, Ty),
        right: (Expr, Ty),
    ) -> Result<(Expr, Ty), TypeRefusal>
        ensures { (k : Known) → Answers (tells (rule.optional_equal self.now.index.now byte negated (gives left) (gives right) k)) result k }
    {
        if !comparable(self.index.schema(), &left.1, &right.1) {
            return Err(TypeRefusal::Rule(TypeRule::T1, byte));
        }
        let form = made_equal(self.alloc, byte, negated, left.0, right.0)?;
        Ok((form, Ty::Scalar(ScalarTy::Bool)))
    }

    /// `left in set` and `left not in set` of sides that have their types.
    #[tactic(auto, unfolding(crate::specs::Forms::membership))]
    fn membership_of(
        &self,
        byte: u32,
        negated: bool,
        left: (Expr, Ty),
        set: (Scope, Ty),
    ) -> Result<(Expr, Ty), TypeRefusal>
        ensures { (k : Known) → Answers (tells (rule.membership self.now.index.now byte negated (gives left) (gives set) k)) result k }
    {
        if !comparable(self.index.schema(), &left.1, &set.1) {
            return Err(TypeRefusal::Rule(TypeRule::T1, byte));
        }
        let left = Boxed::new(self.alloc, left.0)?;
        Ok((
            Expr::In(byte, negated, left, set.0),
            Ty::Scalar(ScalarTy::Bool),
        ))
    }

    /// `first ?? second` of sides that have their types.
    #[tactic(auto, unfolding(crate::specs::Forms::coalesce))]
    fn coalesce_of(
        &self,
        byte: u32,
        first: (Expr, Ty),
        second: (Scope, Ty),
    ) -> Result<(Expr, Ty), TypeRefusal>
        ensures { (k : Known) → Answers (tells (rule.coalesce self.now.index.now byte (gives first) (gives second) k)) result k }
    {
        let Some(ty) = agreed(self.alloc, &first.1, &second.1, self.index.schema())? else {
            return Err(TypeRefusal::Rule(TypeRule::T4, byte));
        };
        let first = Boxed::new(self.alloc, first.0)?;
        Ok((Expr::Coalesce(byte, first, second.0), ty))
    }

    /// An operator or a plain function of operands that have their types.
    #[tactic(auto, unfolding(crate::specs::Forms::operation))]
    fn operation_of(
        &self,
        byte: u32,
        op: Op,
        operands: (List<Expr>, List<Ty>),
    ) -> Result<(Expr, Ty), TypeRefusal>
        ensures { (k : Known) → Answers (tells (rule.operation self.now.index.now byte op (gives operands) k)) result k }
    {
        let (operands, types) = operands;
        let Some(ty) = operator_type(self.index.schema(), op, types.as_slice()) else {
            return Err(TypeRefusal::Rule(operands_rule(op), byte));
        };
        Ok((Expr::Operation(byte, op, operands), ty))
    }

    /// Expressions in turn, with their types, and the types of their items.
    #[cycle(typing)]
    pub fn all(
        &self,
        exprs: &[Expr],
        notes: &mut Notes,
    ) -> Result<(List<Expr>, List<Ty>), TypeRefusal>
        ensures { Answers (tells (all_of self.now.index.now exprs.now (known_by notes.old))) result (known_by notes.new) }
    {
        let mut done = no_exprs(self.alloc);
        for expr in exprs {
            let part = self.infer(expr, notes)?;
            done = with_expr(done, part)?;
        }
        Ok(done)
    }

    /// An operator or a plain function of its operands.
    #[cycle(typing)]
    #[tactic(auto, unfolding(crate::specs::Forms::operation))]
    pub fn operation(
        &self,
        operands: &[Expr],
        byte: u32,
        op: Op,
        notes: &mut Notes,
    ) -> Result<(Expr, Ty), TypeRefusal>
        ensures { Answers (tells (rule.operation self.now.index.now byte op (all_of self.now.index.now operands.now) (known_by notes.old))) result (known_by notes.new) }
    {
        let operands = self.all(operands, notes)?;
        self.operation_of(byte, op, operands)
    }

    /// `(first, second, ..)`
    #[cycle(typing)]
    #[tactic(auto, unfolding(crate::specs::Forms::tuple))]
    pub fn tuple(
        &self,
        components: &[Expr],
        byte: u32,
        notes: &mut Notes,
    ) -> Result<(Expr, Ty), TypeRefusal>
        ensures { Answers (tells (rule.tuple byte (all_of self.now.index.now components.now) (known_by notes.old))) result (known_by notes.new) }
    {
        let (components, types) = self.all(components, notes)?;
        Ok((Expr::Tuple(byte, components), Ty::Tuple(types)))
    }

    /// `[first, second, ..]`
    #[cycle(typing)]
    #[tactic(auto, unfolding(crate::specs::Forms::array))]
    pub fn array(
        &self,
        elements: &[Expr],
        byte: u32,
        written: Option<ScalarTy>,
        notes: &mut Notes,
    ) -> Result<(Expr, Ty), TypeRefusal>
        ensures { Answers (tells (rule.array byte written (all_of self.now.index.now elements.now) (known_by notes.old))) result (known_by notes.new) }
    {
        let elements = self.all(elements, notes)?;
        array_of(byte, written, elements)
    }

    /// What no type can be given to.
    #[cycle(typing)]
    #[tactic(auto, unfolding(crate::specs::Forms::unfit))]
    pub fn unfit(
        &self,
        parts: &[Expr],
        misfit: Misfit,
        place: u32,
        notes: &mut Notes,
    ) -> Result<(Expr, Ty), TypeRefusal>
        ensures { Answers (tells (rule.unfit misfit place (all_of self.now.index.now parts.now) (known_by notes.old))) result (known_by notes.new) }
    {
        self.all(parts, notes)?;
        Err(TypeRefusal::Rule(rule_of(misfit), place))
    }

    /// `left ?= right` and `left ?!= right`, whose left side has its types.
    #[cycle(typing)]
    #[tactic(auto, unfolding(crate::specs::Forms::optional_equal))]
    pub fn optional_equal(
        &self,
        right: &Expr,
        byte: u32,
        negated: bool,
        left: (Expr, Ty),
        notes: &mut Notes,
    ) -> Result<(Expr, Ty), TypeRefusal>
        ensures { Answers (tells (rule.optional_equal self.now.index.now byte negated (gives left) (infer_of self.now.index.now right.now) (known_by notes.old))) result (known_by notes.new) }
    {
        let right = self.infer(right, notes)?;
        self.optional_equal_of(byte, negated, left, right)
    }

    /// `left in set` and `left not in set`, whose left side has its types.
    #[cycle(typing)]
    #[tactic(auto, unfolding(crate::specs::Forms::membership))]
    pub fn membership(
        &self,
        set: &Scope,
        byte: u32,
        negated: bool,
        left: (Expr, Ty),
        notes: &mut Notes,
    ) -> Result<(Expr, Ty), TypeRefusal>
        ensures { Answers (tells (rule.membership self.now.index.now byte negated (gives left) (scope_of self.now.index.now set.now) (known_by notes.old))) result (known_by notes.new) }
    {
        let set = self.scope(set, notes)?;
        self.membership_of(byte, negated, left, set)
    }

    /// `first ?? second`, whose first side has its types.
    #[cycle(typing)]
    #[tactic(auto, unfolding(crate::specs::Forms::coalesce))]
    pub fn coalesce(
        &self,
        second: &Scope,
        byte: u32,
        first: (Expr, Ty),
        notes: &mut Notes,
    ) -> Result<(Expr, Ty), TypeRefusal>
        ensures { Answers (tells (rule.coalesce self.now.index.now byte (gives first) (scope_of self.now.index.now second.now) (known_by notes.old))) result (known_by notes.new) }
    {
        let second = self.scope(second, notes)?;
        self.coalesce_of(byte, first, second)
    }
}
