//! Forms of sets: braces and choices.
ghost use Rattle.std.specs.Prelude.{◌≡◌, IfOk, [], ◌∷◌, ◌++◌};
ghost use Rattle.core_ir.specs.declared.tree.Order.TheVariants as orders;
ghost use Rattle.plan.specs.Plan.{tells};
ghost use Rattle.plan.specs.Ruled.{gives};
ghost use Rattle.type_infer.specs.Forms as rule;
ghost use Rattle.type_infer.specs.Rest as rest;
ghost use Rattle.type_rules.specs.Known.{Known, known_by};
ghost use Rattle.type_infer.specs.Typing.{infer as infer_of, scope_of, scopes_of, parts_of};
ghost use Rattle.type_rules.specs.Refusal.{Answers};

use crate::typer::Typer;
use core_ir::{Conditional, Expr, Order, Scope, Ty};
use ev_value::{Boxed, List, ScalarTy};
use std::alloc::{AllocError, Global};
use type_rules::{Notes, TypeRefusal, TypeRule, agreed, agreed_among, is_of};

/// No scopes.
fn no_scopes(alloc: Global) -> (List<Scope>, List<Ty>)
    ensures { result ≡ ([], []) }
{
    (List::new(alloc), List::new(alloc))
}

/// One more scope with the type of its items, behind those that have theirs.
fn with_scope(
    done: (List<Scope>, List<Ty>),
    part: (Scope, Ty),
) -> Result<(List<Scope>, List<Ty>), AllocError>
    ensures { IfOk result (λ more. more ≡ (done.0 ++ part.0 ∷ [], done.1 ++ part.1 ∷ [])) }
{
    let (mut scopes, mut types) = done;
    scopes.push(part.0)?;
    types.push(part.1)?;
    Ok((scopes, types))
}

/// A choice of its parts.
fn choice_of(
    alloc: Global,
    order: Order,
    condition: Expr,
    value: Scope,
    other: Scope,
) -> Result<Conditional, AllocError>
    ensures { IfOk result (λ c. c ≡ record { order = order; condition = condition; value = value; other = other }) }
{
    let condition = Boxed::new(alloc, condition)?;
    Ok(Conditional {
        order,
        condition,
        value,
        other,
    })
}

impl<'a> Typer<'a> {
    /// Scopes in turn, with their types, and the types of their items.
    #[cycle(typing)]
    pub fn scopes(
        &self,
        scopes: &[Scope],
        notes: &mut Notes,
    ) -> Result<(List<Scope>, List<Ty>), TypeRefusal>
        ensures { Answers (tells (scopes_of self.now.index.now scopes.now (known_by notes.old))) result (known_by notes.new) }
    {
        let mut done = no_scopes(self.alloc);
        for scope in scopes {
            let part = self.scope(scope, notes)?;
            done = with_scope(done, part)?;
        }
        Ok(done)
    }

    /// `{first, second, ..}` of elements that have their types.
    #[tactic(auto, unfolding(crate::specs::Forms::set))]
    fn set_of(
        &self,
        byte: u32,
        elements: (List<Scope>, List<Ty>),
    ) -> Result<(Expr, Ty), TypeRefusal>
        ensures { (k : Known) → Answers (tells (rule.set self.now.index.now byte (gives elements) k)) result k }
    {
        let (elements, types) = elements;
        let schema = self.index.schema();
        let Some(ty) = agreed_among(self.alloc, types.as_slice(), schema)? else {
            return Err(TypeRefusal::Rule(TypeRule::T6, byte));
        };
        Ok((Expr::Set(byte, elements), ty))
    }

    /// `{first, second, ..}`
    #[cycle(typing)]
    #[tactic(auto, unfolding(crate::specs::Forms::set))]
    pub fn set(
        &self,
        elements: &[Scope],
        byte: u32,
        notes: &mut Notes,
    ) -> Result<(Expr, Ty), TypeRefusal>
        ensures { Answers (tells (rule.set self.now.index.now byte (scopes_of self.now.index.now elements.now) (known_by notes.old))) result (known_by notes.new) }
    {
        let elements = self.scopes(elements, notes)?;
        self.set_of(byte, elements)
    }

    /// The parts of a choice, in the order of the text: its condition, and its branches.
    #[cycle(typing)]
    fn parts(&self, choice: &Conditional, notes: &mut Notes) -> Result<Parts, TypeRefusal>
        ensures { Answers (tells (parts_of self.now.index.now choice.now (known_by notes.old))) result (known_by notes.new) }
    {
        match choice.order {
            Order::ValueFirst => self.value_first(choice, notes),
            Order::ConditionFirst => self.condition_first(choice, notes),
        }
    }

    /// The parts of a choice whose first branch stands before its condition.
    #[cycle(typing)]
    fn value_first(&self, choice: &Conditional, notes: &mut Notes) -> Result<Parts, TypeRefusal>
        ensures { Answers (tells (rule.chosen orders.ValueFirst (infer_of self.now.index.now choice.now.condition) (scope_of self.now.index.now choice.now.value) (scope_of self.now.index.now choice.now.other) (known_by notes.old))) result (known_by notes.new) }
    {
        let value = self.scope(&choice.value, notes)?;
        self.condition_behind(choice, value, notes)
    }

    /// The condition and the other branch, behind the first branch.
    #[cycle(typing)]
    fn condition_behind(
        &self,
        choice: &Conditional,
        value: (Scope, Ty),
        notes: &mut Notes,
    ) -> Result<Parts, TypeRefusal>
        ensures { Answers (tells (rule.chosen orders.ValueFirst (infer_of self.now.index.now choice.now.condition) (gives value) (scope_of self.now.index.now choice.now.other) (known_by notes.old))) result (known_by notes.new) }
    {
        let condition = self.infer(choice.condition.get(), notes)?;
        self.other_behind(&choice.other, condition, value, notes)
    }

    /// The parts of a choice whose condition stands first.
    #[cycle(typing)]
    fn condition_first(&self, choice: &Conditional, notes: &mut Notes) -> Result<Parts, TypeRefusal>
        ensures { Answers (tells (rule.chosen orders.ConditionFirst (infer_of self.now.index.now choice.now.condition) (scope_of self.now.index.now choice.now.value) (scope_of self.now.index.now choice.now.other) (known_by notes.old))) result (known_by notes.new) }
    {
        let condition = self.infer(choice.condition.get(), notes)?;
        self.branches_behind(choice, condition, notes)
    }

    /// The branches, behind the condition.
    #[cycle(typing)]
    fn branches_behind(
        &self,
        choice: &Conditional,
        condition: (Expr, Ty),
        notes: &mut Notes,
    ) -> Result<Parts, TypeRefusal>
        ensures { Answers (tells (rule.chosen orders.ConditionFirst (gives condition) (scope_of self.now.index.now choice.now.value) (scope_of self.now.index.now choice.now.other) (known_by notes.old))) result (known_by notes.new) }
    {
        let value = self.scope(&choice.value, notes)?;
        self.other_behind(&choice.other, condition, value, notes)
    }

    /// The other branch, behind the condition and the first branch, in whichever order these stand.
    #[cycle(typing)]
    fn other_behind(
        &self,
        other: &Scope,
        condition: (Expr, Ty),
        value: (Scope, Ty),
        notes: &mut Notes,
    ) -> Result<Parts, TypeRefusal>
        ensures { Answers (tells (rule.chosen orders.ConditionFirst (gives condition) (gives value) (scope_of self.now.index.now other.now) (known_by notes.old))) result (known_by notes.new) }
    {
        let other = self.scope(other, notes)?;
        Ok((condition, value, other))
    }

    /// A choice whose parts have their types, and whose condition is a bool.
    fn with_branches(
        &self,
        byte: u32,
        order: Order,
        parts: Parts,
    ) -> Result<(Expr, Ty), TypeRefusal>
        ensures { Answers (tells (rest.branches self.now.index.now byte order parts tt)) result tt }
    {
        let (condition, value, other) = parts;
        let Some(ty) = agreed(self.alloc, &value.1, &other.1, self.index.schema())? else {
            return Err(TypeRefusal::Rule(TypeRule::T4, byte));
        };
        let form = choice_of(self.alloc, order, condition.0, value.0, other.0)?;
        Ok((Expr::If(byte, form), ty))
    }

    /// A choice whose parts have their types.
    #[tactic(auto, unfolding(crate::specs::Forms::judged))]
    fn judged(&self, byte: u32, order: Order, parts: Parts) -> Result<(Expr, Ty), TypeRefusal>
        ensures { Answers (tells (rule.judged self.now.index.now byte order parts tt)) result tt }
    {
        if !is_of(ScalarTy::Bool, &parts.0.1) {
            return Err(TypeRefusal::Rule(TypeRule::T1, byte));
        }
        self.with_branches(byte, order, parts)
    }

    /// A choice between two branches.
    #[cycle(typing)]
    #[tactic(auto, using(crate::proofs::Refusals::plainly), unfolding(crate::specs::Forms::choice))]
    pub fn choice(
        &self,
        choice: &Conditional,
        byte: u32,
        notes: &mut Notes,
    ) -> Result<(Expr, Ty), TypeRefusal>
        ensures { Answers (tells (rule.choice self.now.index.now byte choice.now.order (parts_of self.now.index.now choice.now) (known_by notes.old))) result (known_by notes.new) }
    {
        let parts = self.parts(choice, notes)?;
        self.judged(byte, choice.order, parts)
    }
}

/// The parts of a choice with their types: its condition, and its branches.
type Parts = ((Expr, Ty), (Scope, Ty), (Scope, Ty));
