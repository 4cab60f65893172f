//! Forms of one expression or one set.
ghost use Rattle.std.specs.Prelude.{◌≡◌, Some};
ghost use Rattle.plan.specs.Plan.{tells};
ghost use Rattle.plan.specs.Ruled.{gives};
ghost use Rattle.type_infer.specs.Forms as rule;
ghost use Rattle.type_rules.specs.Known.{Known, known_by};
ghost use Rattle.type_infer.specs.Typing.{infer as infer_of, scope_of};
ghost use Rattle.type_rules.specs.Refusal.{Answers};

use crate::kinds::array_element;
use crate::typer::Typer;
use core_ir::{Expr, Occurrence, Scope, SetFunction, Ty};
use ev_value::{Boxed, ScalarTy};
use type_rules::{
    Notes, TypeRefusal, TypeRule, agreed, can_cast, function_type, is_of, same_scalar,
};

/// A function of a whole set that has its types.
#[tactic(auto, unfolding(crate::specs::Forms::of_set))]
fn function_of(
    byte: u32,
    function: SetFunction,
    set: (Scope, Ty),
) -> Result<(Expr, Ty), TypeRefusal>
    ensures { (k : Known) → Answers (tells (rule.of_set byte function (gives set) k)) result k }
{
    let (set, ty) = set;
    let Some(ty) = function_type(function, ty) else {
        return Err(TypeRefusal::Rule(TypeRule::T2, byte));
    };
    Ok((Expr::OfSet(byte, function, set), ty))
}

impl<'a> Typer<'a> {
    /// `<T>{}`
    pub fn empty_set(&self, byte: u32, ty: &Ty) -> Result<(Expr, Ty), TypeRefusal>
        ensures { Answers (tells (rule.empty_set byte ty.now tt)) result tt }
    {
        let kept = ty.copied(self.alloc)?;
        let items = ty.copied(self.alloc)?;
        Ok((Expr::EmptySet(byte, kept), items))
    }

    /// A path from an expression that has its types.
    #[tactic(auto, unfolding(crate::specs::Forms::on_base))]
    fn path_on(
        &self,
        byte: u32,
        base: (Scope, Ty),
        occurrence: &Occurrence,
        notes: &mut Notes,
    ) -> Result<(Expr, Ty), TypeRefusal>
        ensures { Answers (tells (rule.on_base self.now.index.now byte (gives base) occurrence.now (known_by notes.old))) result (known_by notes.new) }
    {
        let (base, ty) = base;
        notes.note_base(self.alloc, occurrence.path.root, &ty)?;
        let (occurrence, reached) = self.occurrence(byte, occurrence, notes)?;
        Ok((Expr::OnBase(byte, base, occurrence), reached))
    }

    /// The prefix `+` of an operand that has its types.
    #[tactic(auto, unfolding(crate::specs::Forms::plus))]
    fn plus_of(&self, byte: u32, operand: (Expr, Ty)) -> Result<(Expr, Ty), TypeRefusal>
        ensures { (k : Known) → Answers (tells (rule.plus byte (gives operand) k)) result k }
    {
        let (operand, ty) = operand;
        if !is_of(ScalarTy::Int64, &ty) {
            return Err(TypeRefusal::Rule(TypeRule::T1, byte));
        }
        let operand = Boxed::new(self.alloc, operand)?;
        Ok((Expr::Plus(byte, operand), ty))
    }

    /// `<T>operand` of an operand that has its types.
    #[tactic(auto, unfolding(crate::specs::Forms::cast))]
    fn cast_of(
        &self,
        byte: u32,
        to: ScalarTy,
        operand: (Expr, Ty),
    ) -> Result<(Expr, Ty), TypeRefusal>
        ensures { (k : Known) → Answers (tells (rule.cast byte to (gives operand) k)) result k }
    {
        let (operand, from) = operand;
        if !can_cast(&from, to) {
            return Err(TypeRefusal::Rule(TypeRule::T3, byte));
        }
        let operand = Boxed::new(self.alloc, operand)?;
        Ok((Expr::Cast(byte, to, operand), Ty::Scalar(to)))
    }

    /// `<array<T>>operand` of an operand that has its types.
    #[tactic(auto, unfolding(crate::specs::Forms::array_cast))]
    fn array_cast_of(
        &self,
        byte: u32,
        to: ScalarTy,
        operand: (Expr, Ty),
    ) -> Result<(Expr, Ty), TypeRefusal>
        ensures { (k : Known) → Answers (tells (rule.array_cast byte to (gives operand) k)) result k }
    {
        let (operand, from) = operand;
        let Some(from) = array_element(&from) else {
            return Err(TypeRefusal::Rule(TypeRule::T3, byte));
        };
        if !same_scalar(to, from) {
            return Err(TypeRefusal::Rule(TypeRule::T3, byte));
        }
        let operand = Boxed::new(self.alloc, operand)?;
        Ok((Expr::ArrayCast(byte, to, operand), Ty::Array(to)))
    }

    /// `array_unpack(operand)` of an operand that has its types.
    #[tactic(auto, unfolding(crate::specs::Forms::unpack))]
    fn unpack_of(&self, byte: u32, operand: (Expr, Ty)) -> Result<(Expr, Ty), TypeRefusal>
        ensures { (k : Known) → Answers (tells (rule.unpack byte (gives operand) k)) result k }
    {
        let (operand, ty) = operand;
        let Some(scalar) = array_element(&ty) else {
            return Err(TypeRefusal::Rule(TypeRule::T2, byte));
        };
        let operand = Boxed::new(self.alloc, operand)?;
        Ok((Expr::Unpack(byte, operand), Ty::Scalar(scalar)))
    }

    /// `first union second` of sets that have their types.
    #[tactic(auto, unfolding(crate::specs::Forms::union))]
    fn union_of(
        &self,
        byte: u32,
        first: (Scope, Ty),
        second: (Scope, Ty),
    ) -> Result<(Expr, Ty), TypeRefusal>
        ensures { (k : Known) → Answers (tells (rule.union self.now.index.now byte (gives first) (gives second) k)) result k }
    {
        let Some(ty) = agreed(self.alloc, &first.1, &second.1, self.index.schema())? else {
            return Err(TypeRefusal::Rule(TypeRule::T4, byte));
        };
        Ok((Expr::Union(byte, first.0, second.0), ty))
    }

    /// A path from an expression.
    #[cycle(typing)]
    #[tactic(auto, unfolding(crate::specs::Forms::on_base))]
    pub fn on_base(
        &self,
        base: &Scope,
        byte: u32,
        occurrence: &Occurrence,
        notes: &mut Notes,
    ) -> Result<(Expr, Ty), TypeRefusal>
        ensures { Answers (tells (rule.on_base self.now.index.now byte (scope_of self.now.index.now base.now) occurrence.now (known_by notes.old))) result (known_by notes.new) }
    {
        let base = self.scope(base, notes)?;
        self.path_on(byte, base, occurrence, notes)
    }

    /// The prefix `+`.
    #[cycle(typing)]
    #[tactic(auto, unfolding(crate::specs::Forms::plus))]
    pub fn plus(
        &self,
        operand: &Expr,
        byte: u32,
        notes: &mut Notes,
    ) -> Result<(Expr, Ty), TypeRefusal>
        ensures { Answers (tells (rule.plus byte (infer_of self.now.index.now operand.now) (known_by notes.old))) result (known_by notes.new) }
    {
        let operand = self.infer(operand, notes)?;
        self.plus_of(byte, operand)
    }

    /// `<T>operand`
    #[cycle(typing)]
    #[tactic(auto, unfolding(crate::specs::Forms::cast))]
    pub fn cast(
        &self,
        operand: &Expr,
        byte: u32,
        to: ScalarTy,
        notes: &mut Notes,
    ) -> Result<(Expr, Ty), TypeRefusal>
        ensures { Answers (tells (rule.cast byte to (infer_of self.now.index.now operand.now) (known_by notes.old))) result (known_by notes.new) }
    {
        let operand = self.infer(operand, notes)?;
        self.cast_of(byte, to, operand)
    }

    /// `<array<T>>operand`
    #[cycle(typing)]
    #[tactic(auto, unfolding(crate::specs::Forms::array_cast))]
    pub fn array_cast(
        &self,
        operand: &Expr,
        byte: u32,
        to: ScalarTy,
        notes: &mut Notes,
    ) -> Result<(Expr, Ty), TypeRefusal>
        ensures { Answers (tells (rule.array_cast byte to (infer_of self.now.index.now operand.now) (known_by notes.old))) result (known_by notes.new) }
    {
        let operand = self.infer(operand, notes)?;
        self.array_cast_of(byte, to, operand)
    }

    /// `array_unpack(operand)`
    #[cycle(typing)]
    #[tactic(auto, unfolding(crate::specs::Forms::unpack))]
    pub fn unpack(
        &self,
        operand: &Expr,
        byte: u32,
        notes: &mut Notes,
    ) -> Result<(Expr, Ty), TypeRefusal>
        ensures { Answers (tells (rule.unpack byte (infer_of self.now.index.now operand.now) (known_by notes.old))) result (known_by notes.new) }
    {
        let operand = self.infer(operand, notes)?;
        self.unpack_of(byte, operand)
    }

    /// A function of a whole set.
    #[cycle(typing)]
    #[tactic(auto, unfolding(crate::specs::Forms::of_set))]
    pub fn of_set(
        &self,
        set: &Scope,
        byte: u32,
        function: SetFunction,
        notes: &mut Notes,
    ) -> Result<(Expr, Ty), TypeRefusal>
        ensures { Answers (tells (rule.of_set byte function (scope_of self.now.index.now set.now) (known_by notes.old))) result (known_by notes.new) }
    {
        let set = self.scope(set, notes)?;
        function_of(byte, function, set)
    }

    /// `first union second`, whose first set has its types.
    #[cycle(typing)]
    #[tactic(auto, unfolding(crate::specs::Forms::union))]
    pub fn union(
        &self,
        second: &Scope,
        byte: u32,
        first: (Scope, Ty),
        notes: &mut Notes,
    ) -> Result<(Expr, Ty), TypeRefusal>
        ensures { Answers (tells (rule.union self.now.index.now byte (gives first) (scope_of self.now.index.now second.now) (known_by notes.old))) result (known_by notes.new) }
    {
        let second = self.scope(second, notes)?;
        self.union_of(byte, first, second)
    }
}
