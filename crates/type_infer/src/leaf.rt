//! Forms without parts: literals, parameters, globals and paths.
ghost use Rattle.std.specs.Prelude.{◌≡◌, IfOk, Some};
ghost use Rattle.plan.specs.Plan.{tells};
ghost use Rattle.type_infer.specs.Forms as rule;
ghost use Rattle.type_rules.specs.Known.{known_by};
ghost use Rattle.type_infer.specs.Known.{suits as suits_by};
ghost use Rattle.std.specs.Option.{option_copied};
ghost use Rattle.type_rules.specs.Refusal.{Answers};

use crate::typer::Typer;
use core_ir::{Expr, Occurrence, Param, Path, Ty};
use ev_value::{List, Text, Val};
use std::alloc::{AllocError, Global};
use type_rules::{Notes, TypeRefusal, TypeRule, literal, same_scalar, walk};

/// Whether a parameter has the type that the same one has elsewhere, and may be absent where that one may.
fn suits(parameter: &Param, other: Option<&Param>) -> bool
    ensures { result ≡ suits_by parameter.now (option_copied other.entry) }
{
    match other {
        Some(other) => {
            same_scalar(parameter.ty, other.ty) && (parameter.optional == other.optional)
        }
        None => true,
    }
}

/// The same parameter, in memory of its own.
fn copied_parameter(alloc: Global, parameter: &Param) -> Result<Param, AllocError>
    ensures { IfOk result (λ p. p ≡ parameter.now) }
{
    let name = parameter.name.copied(alloc)?;
    Ok(Param {
        name,
        ty: parameter.ty,
        optional: parameter.optional,
    })
}

impl<'a> Typer<'a> {
    /// A literal.
    #[tactic(auto, unfolding(crate::specs::Forms::constant))]
    pub fn constant(&self, byte: u32, value: &Val) -> Result<(Expr, Ty), TypeRefusal>
        ensures { Answers (tells (rule.constant byte value.now tt)) result tt }
    {
        let Some(scalar) = literal(value) else {
            return Err(TypeRefusal::Rule(TypeRule::T1, byte));
        };
        let value = value.copied(self.alloc)?;
        Ok((Expr::Literal(byte, value), Ty::Scalar(scalar)))
    }

    /// `global name`
    #[tactic(auto, unfolding(crate::specs::Forms::global_value))]
    pub fn global_value(&self, byte: u32, name: &Text) -> Result<(Expr, Ty), TypeRefusal>
        ensures { Answers (tells (rule.global_value self.now.index.now byte name.now tt)) result tt }
    {
        let Some(scalar) = self.index.global_type(name) else {
            return Err(TypeRefusal::Rule(TypeRule::T1, byte));
        };
        let name = name.copied(self.alloc)?;
        Ok((Expr::Global(byte, name), Ty::Scalar(scalar)))
    }

    /// `$name`
    #[tactic(auto, unfolding(crate::specs::Forms::parameter))]
    pub fn parameter(
        &self,
        byte: u32,
        parameter: &Param,
        notes: &mut Notes,
    ) -> Result<(Expr, Ty), TypeRefusal>
        ensures { Answers (tells (rule.parameter byte parameter.now (known_by notes.old))) result (known_by notes.new) }
    {
        if !suits(parameter, notes.parameter(&parameter.name)) {
            return Err(TypeRefusal::Rule(TypeRule::T7, byte));
        }
        notes.note_parameter(self.alloc, parameter)?;
        let copy = copied_parameter(self.alloc, parameter)?;
        Ok((Expr::Param(byte, copy), Ty::Scalar(parameter.ty)))
    }

    /// A path from its root.
    #[tactic(auto, unfolding(crate::specs::Forms::occurrence))]
    pub fn occurrence(
        &self,
        byte: u32,
        occurrence: &Occurrence,
        notes: &Notes,
    ) -> Result<(Occurrence, Ty), TypeRefusal>
        ensures { Answers (tells (rule.occurrence self.now.index.now byte occurrence.now (known_by notes.now))) result (known_by notes.now) }
    {
        let Some(root) = notes.root_type(self.alloc, occurrence.path.root)? else {
            return Err(TypeRefusal::Rule(TypeRule::T1, byte));
        };
        let walked = walk(self.alloc, self.index, byte, occurrence, root)?;
        let name = occurrence.name.copied(self.alloc)?;
        let places = List::from_slice(self.alloc, occurrence.places.as_slice())?;
        let path = Path {
            root: occurrence.path.root,
            steps: walked.steps,
        };
        Ok((Occurrence { name, path, places }, walked.reached))
    }

    /// A path.
    #[tactic(auto, unfolding(crate::specs::Forms::path_of))]
    pub fn path_of(
        &self,
        byte: u32,
        occurrence: &Occurrence,
        notes: &Notes,
    ) -> Result<(Expr, Ty), TypeRefusal>
        ensures { Answers (tells (rule.path_of self.now.index.now byte occurrence.now (known_by notes.now))) result (known_by notes.now) }
    {
        let (occurrence, ty) = self.occurrence(byte, occurrence, notes)?;
        Ok((Expr::Path(byte, occurrence), ty))
    }
}
