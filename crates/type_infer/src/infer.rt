//! The types of an expression: each form by the method of its own name.
ghost use Rattle.std.specs.Prelude.{◌≡◌, Some, IfOk};
ghost use Rattle.plan.specs.Plan.{tells};
ghost use Rattle.type_rules.specs.Known.{known_by};
ghost use Rattle.type_infer.specs.Typing.{infer as infer_of, scope_of};
ghost use Rattle.type_rules.specs.Refusal.{Answers};

use crate::typer::Typer;
use core_ir::{Expr, Scope, Ty};
use ev_value::Boxed;
use std::alloc::{AllocError, Global};
use type_rules::{Notes, TypeRefusal};

/// A scope whose body has a type, which stands in its slot.
fn scoped(alloc: Global, start: u32, body: Expr, ty: Ty) -> Result<(Scope, Ty), AllocError>
    ensures { IfOk result (λ s. s ≡ (record { start = start; ty = Some ty; body = body }, ty)) }
{
    let slot = ty.copied(alloc)?;
    let body = Boxed::new(alloc, body)?;
    let scope = Scope {
        start,
        ty: Some(slot),
        body,
    };
    Ok((scope, ty))
}

impl<'a> Typer<'a> {
    /// An expression with its types, and the type of its items.
    #[cycle(typing)]
    #[tactic(auto, using(crate::proofs::Equations::forms))]
    pub fn infer(&self, expr: &Expr, notes: &mut Notes) -> Result<(Expr, Ty), TypeRefusal>
        ensures { Answers (tells (infer_of self.now.index.now expr.now (known_by notes.old))) result (known_by notes.new) }
    {
        match expr {
            Expr::Literal(byte, value) => self.constant(*byte, value),
            Expr::Param(byte, parameter) => self.parameter(*byte, parameter, notes),
            Expr::Global(byte, name) => self.global_value(*byte, name),
            Expr::Path(byte, occurrence) => self.path_of(*byte, occurrence, notes),
            Expr::OnBase(byte, base, occurrence) => self.on_base(base, *byte, occurrence, notes),
            Expr::Plus(byte, operand) => self.plus(operand.get(), *byte, notes),
            Expr::Cast(byte, to, operand) => self.cast(operand.get(), *byte, *to, notes),
            Expr::ArrayCast(byte, to, operand) => self.array_cast(operand.get(), *byte, *to, notes),
            Expr::Unpack(byte, operand) => self.unpack(operand.get(), *byte, notes),
            Expr::OfSet(byte, function, set) => self.of_set(set, *byte, *function, notes),
            Expr::EmptySet(byte, ty) => self.empty_set(*byte, ty),
            Expr::Operation(byte, op, operands) => {
                self.operation(operands.as_slice(), *byte, *op, notes)
            }
            Expr::Tuple(byte, components) => self.tuple(components.as_slice(), *byte, notes),
            Expr::Array(byte, written, elements) => {
                self.array(elements.as_slice(), *byte, *written, notes)
            }
            Expr::Unfit(_, misfit, place, parts) => {
                self.unfit(parts.as_slice(), *misfit, *place, notes)
            }
            Expr::Set(byte, elements) => self.set(elements.as_slice(), *byte, notes),
            Expr::If(byte, choice) => self.choice(choice, *byte, notes),
            Expr::OptionalEqual(byte, negated, left, right) => {
                let left = self.infer(left.get(), notes)?;
                self.optional_equal(right.get(), *byte, *negated, left, notes)
            }
            Expr::In(byte, negated, left, set) => {
                let left = self.infer(left.get(), notes)?;
                self.membership(set, *byte, *negated, left, notes)
            }
            Expr::Union(byte, first, second) => {
                let first = self.scope(first, notes)?;
                self.union(second, *byte, first, notes)
            }
            Expr::Coalesce(byte, first, second) => {
                let first = self.infer(first.get(), notes)?;
                self.coalesce(second, *byte, first, notes)
            }
            Expr::Shaped(byte, base, _, number, elements) => {
                let base = self.infer(base.get(), notes)?;
                self.shaped(elements.as_slice(), *byte, *number, base, notes)
            }
            Expr::Select(byte, aliases, select) => {
                let aliases = self.aliases(aliases.as_slice(), notes)?;
                self.select(select, *byte, aliases, notes)
            }
            Expr::For(byte, aliases, number, iterator, body) => {
                let aliases = self.aliases(aliases.as_slice(), notes)?;
                let head = self.iterated(iterator, *number, aliases, notes)?;
                self.each(body, *byte, *number, head, notes)
            }
        }
    }

    /// A scope with its types, and the type of its items.
    #[cycle(typing)]
    #[tactic(auto, unfolding(crate::specs::Forms::scope))]
    pub fn scope(&self, scope: &Scope, notes: &mut Notes) -> Result<(Scope, Ty), TypeRefusal>
        ensures { Answers (tells (scope_of self.now.index.now scope.now (known_by notes.old))) result (known_by notes.new) }
    {
        let (body, ty) = self.infer(scope.body.get(), notes)?;
        Ok(scoped(self.alloc, scope.start, body, ty)?)
    }
}
