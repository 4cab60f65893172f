//! From what was read to the core tree: each form by its rule.
ghost use Rattle.std.specs.Prelude.{◌≡◌, ◌++◌, ◌∷◌, [], true, false, None, Some, map, zero};
ghost use Rattle.plan.specs.Plan.{tells};
ghost use Rattle.ast.specs.Expression.{span_of};
ghost use Rattle.eql_naming.specs.Naming.{Answers};
ghost use Rattle.eql_naming.specs.Around as around_place;
ghost use Rattle.eql_naming.specs.Around.{entries};
ghost use Rattle.eql_naming.specs.Forms as form_rule;
ghost use Rattle.eql_naming.specs.Paths as path_rule;
ghost use Rattle.eql_naming.specs.Shapes as shape_rule;
ghost use Rattle.eql_naming.specs.Statements as statement_rule;
ghost use Rattle.ev_value.specs.declared.value.Val.TheVariants as val;
ghost use Rattle.eql_naming.specs.declared.refusal.NameRefusal.TheVariants.{Rule};
ghost use Rattle.eql_resolve.specs.Choices as choice_rule;
ghost use Rattle.eql_resolve.specs.Resolving as rule;
ghost use Rattle.eql_resolve.specs.Shaping as shaping_rule;

use ast::{
    Alias, Binary, Conditional, Element, Expr, For, ForBody, Key, Nested, Postfix, QualifiedName,
    Qualifiers, Select, Shaped, Statement, UnaryOperator,
};
use core_ir::{Misfit, Order, Scope, Step};
use eql_naming::{
    Around, Clauses, Defined, NameRefusal, NameRule, Rows, Subject, absent_ascending,
    absent_descending, applied, called, cast_to, chosen, element_subject, empty_cast, global,
    is_empty_set, joined, kept, linked_to, name, named, narrowed_to, need_of, nested_made, next,
    next_subject, no_elements, number, parameter, partial_back_link, partial_linked,
    partial_property, partial_step, pointer_element, prefixed, property_element, scope_at,
    selected_rows, shape_made, start_of_statement, step_behind, subject_of, type_of, undefined,
    width_of, with_element,
};
use ev_index::Index;
use ev_names::Names;
use ev_value::{Boxed, List, Text, Val};
use std::alloc::Global;

/// What naming knows everywhere: the schema, and whether there are parameters.
#[derive(Drop)]
pub struct Naming<'a> {
    pub alloc: Global,
    pub index: &'a Index<'a>,
    pub parameters: bool,
}

impl<'a> Naming<'a> {
    /// The tree of an expression, in a result position or not.
    #[cycle(names)]
    #[tactic(auto, using(crate::proofs::Equations::of_int, crate::proofs::Equations::of_str, crate::proofs::Equations::of_bool, crate::proofs::Equations::of_partial_step, crate::proofs::Equations::of_partial_back_link, crate::proofs::Equations::of_partial_property, crate::proofs::Equations::of_global, crate::proofs::Equations::of_name, crate::proofs::Equations::of_call, crate::proofs::Equations::of_statement, crate::proofs::Equations::of_group, crate::proofs::Equations::of_tuple, crate::proofs::Equations::of_set, crate::proofs::Equations::of_postfix, crate::proofs::Equations::of_shaped, crate::proofs::Equations::of_cast, crate::proofs::Equations::of_parameter, crate::proofs::Equations::of_unary, crate::proofs::Equations::of_binary, crate::proofs::Equations::of_if_else, crate::proofs::Equations::of_if_then))]
    pub fn resolve(
        &self,
        x: &Expr,
        in_result: bool,
        around: &Around<'_>,
        fresh: &mut u32,
    ) -> Result<core_ir::Expr, NameRefusal>
        ensures { Answers (tells (rule.resolve self.now.index.now self.now.parameters x.now in_result (entries around.now) fresh.old)) result fresh.new }
    {
        match x {
            Expr::Int(span, digits) => self.int(span.start, digits, fresh),
            Expr::Str(span, text) => self.text(span.start, text, fresh),
            Expr::Bool(span, truth) => Ok(core_ir::Expr::Literal(span.start, Val::Bool(*truth))),
            Expr::PartialStep(span, name) => {
                partial_step(self.alloc, span.start, &name.text, around, fresh)
            }
            Expr::PartialBackLink(span, _) => partial_back_link(span.start, around, fresh),
            Expr::PartialProperty(span, name) => {
                partial_property(self.alloc, span.start, &name.text, around, fresh)
            }
            Expr::Global(span, name) => global(self.alloc, self.index, span.start, name, fresh),
            Expr::Name(span, q) => name(self.alloc, self.index, span.start, q, around, fresh),
            Expr::Call(span, function, arguments) => {
                self.call(arguments.as_slice(), span.start, function, around, fresh)
            }
            Expr::Statement(_, statement) => {
                self.statement(statement.get(), in_result, around, fresh)
            }
            Expr::Group(_, inner) => self.resolve(inner.get(), in_result, around, fresh),
            Expr::Tuple(span, parts) => {
                self.tuple(parts.as_slice(), span.start, in_result, around, fresh)
            }
            Expr::Set(span, elements) => self.set(elements.as_slice(), span.start, around, fresh),
            Expr::Postfix(span, base, postfix) => {
                self.postfix(base.get(), span.start, postfix, around, fresh)
            }
            Expr::Shaped(span, form) => self.shaped(form, span.start, in_result, around, fresh),
            Expr::Cast(span, ty, operand) => {
                self.cast_of(operand.get(), span.start, ty, around, fresh)
            }
            Expr::Parameter(span, p) => parameter(
                self.alloc,
                self.index,
                self.parameters,
                span.start,
                p,
                fresh,
            ),
            Expr::Unary(span, operator, operand) => {
                self.unary(operand.get(), span.start, *operator, around, fresh)
            }
            Expr::Binary(span, form) => self.binary(form, span.start, around, fresh),
            Expr::IfElse(span, form) => self.if_else(form, span.start, around, fresh),
            Expr::IfThen(span, form) => self.if_then(form, span.start, around, fresh),
        }
    }

    fn int(&self, start: u32, digits: &Text, fresh: &mut u32) -> Result<core_ir::Expr, NameRefusal>
        ensures { Answers (tells (rule.literal start (form_rule.number digits.now) fresh.old)) result fresh.new }
    {
        Ok(core_ir::Expr::Literal(start, number(self.alloc, digits)?))
    }

    fn text(&self, start: u32, text: &Text, fresh: &mut u32) -> Result<core_ir::Expr, NameRefusal>
        ensures { Answers (tells (rule.literal start (val.Str text.now) fresh.old)) result fresh.new }
    {
        let value = Val::Str(text.copied(self.alloc)?);
        Ok(core_ir::Expr::Literal(start, value))
    }

    /// An expression as a scope, from the first byte of its text on.
    #[cycle(names)]
    fn scoped(
        &self,
        x: &Expr,
        in_result: bool,
        around: &Around<'_>,
        fresh: &mut u32,
    ) -> Result<Scope, NameRefusal>
        ensures { Answers (tells (rule.scoped (span_of x.now).start (rule.resolve self.now.index.now self.now.parameters x.now in_result (entries around.now)) fresh.old)) result fresh.new }
    {
        let body = self.resolve(x, in_result, around, fresh)?;
        Ok(scope_at(self.alloc, x.span().start, body)?)
    }

    /// Several expressions.
    #[cycle(names)]
    fn all(
        &self,
        all: &[Expr],
        in_result: bool,
        around: &Around<'_>,
        fresh: &mut u32,
    ) -> Result<List<core_ir::Expr>, NameRefusal>
        ensures { Answers (tells (rule.all_of self.now.index.now self.now.parameters in_result (entries around.now) all.now fresh.old)) result fresh.new }
    {
        let mut done = List::new(self.alloc);
        for x in all {
            let y = self.resolve(x, in_result, around, fresh)?;
            done.push(y)?;
        }
        Ok(done)
    }

    /// Several expressions as scopes.
    #[cycle(names)]
    fn scopes(
        &self,
        all: &[Expr],
        around: &Around<'_>,
        fresh: &mut u32,
    ) -> Result<List<Scope>, NameRefusal>
        ensures { Answers (tells (rule.scopes_of self.now.index.now self.now.parameters (entries around.now) all.now fresh.old)) result fresh.new }
    {
        let mut done = List::new(self.alloc);
        for x in all {
            let y = self.scoped(x, false, around, fresh)?;
            done.push(y)?;
        }
        Ok(done)
    }

    #[cycle(names)]
    fn call(
        &self,
        arguments: &[Expr],
        start: u32,
        function: &QualifiedName,
        around: &Around<'_>,
        fresh: &mut u32,
    ) -> Result<core_ir::Expr, NameRefusal>
        ensures { Answers (tells (rule.call_of self.now.index.now self.now.parameters (entries around.now) start function.now arguments.now fresh.old)) result fresh.new }
    {
        match arguments {
            [argument] => self.call_one(argument, start, function, around, fresh),
            _ => self.call_many(arguments, start, function, around, fresh),
        }
    }

    #[cycle(names)]
    #[tactic(auto, unfolding(eql_naming::specs::Forms::call))]
    fn call_one(
        &self,
        argument: &Expr,
        start: u32,
        function: &QualifiedName,
        around: &Around<'_>,
        fresh: &mut u32,
    ) -> Result<core_ir::Expr, NameRefusal>
        ensures { Answers (tells (form_rule.call start function.now (span_of argument.now).start (rule.resolve self.now.index.now self.now.parameters argument.now false (entries around.now)) fresh.old)) result fresh.new }
    {
        let function = called(function, fresh)?;
        let x = self.resolve(argument, false, around, fresh)?;
        Ok(applied(self.alloc, start, function, argument.span().start, x)?)
    }

    #[cycle(names)]
    #[tactic(auto, unfolding(eql_naming::specs::Forms::call_of_many))]
    fn call_many(
        &self,
        arguments: &[Expr],
        start: u32,
        function: &QualifiedName,
        around: &Around<'_>,
        fresh: &mut u32,
    ) -> Result<core_ir::Expr, NameRefusal>
        ensures { Answers (tells (form_rule.call_of_many start function.now (rule.all_of self.now.index.now self.now.parameters false (entries around.now) arguments.now) fresh.old)) result fresh.new }
    {
        let _ = called(function, fresh)?;
        let parts = self.all(arguments, false, around, fresh)?;
        Ok(core_ir::Expr::Unfit(start, Misfit::ArgumentCount, start, parts))
    }

    #[cycle(names)]
    #[tactic(auto, unfolding(eql_naming::specs::Forms::tuple))]
    fn tuple(
        &self,
        parts: &[Expr],
        start: u32,
        in_result: bool,
        around: &Around<'_>,
        fresh: &mut u32,
    ) -> Result<core_ir::Expr, NameRefusal>
        ensures { Answers (tells (form_rule.tuple start (rule.all_of self.now.index.now self.now.parameters in_result (entries around.now) parts.now) fresh.old)) result fresh.new }
    {
        let parts = self.all(parts, in_result, around, fresh)?;
        Ok(core_ir::Expr::Tuple(start, parts))
    }

    #[cycle(names)]
    #[tactic(auto, unfolding(eql_naming::specs::Forms::set))]
    fn set(
        &self,
        elements: &[Expr],
        start: u32,
        around: &Around<'_>,
        fresh: &mut u32,
    ) -> Result<core_ir::Expr, NameRefusal>
        ensures { Answers (tells (form_rule.set start (rule.scopes_of self.now.index.now self.now.parameters (entries around.now) elements.now) fresh.old)) result fresh.new }
    {
        let elements = self.scopes(elements, around, fresh)?;
        Ok(core_ir::Expr::Set(start, elements))
    }

    #[cycle(names)]
    fn cast_of(
        &self,
        operand: &Expr,
        start: u32,
        ty: &QualifiedName,
        around: &Around<'_>,
        fresh: &mut u32,
    ) -> Result<core_ir::Expr, NameRefusal>
        ensures { Answers (tells (rule.cast_of self.now.index.now (form_rule.is_empty_set operand.now) start ty.now (rule.resolve self.now.index.now self.now.parameters operand.now false (entries around.now)) fresh.old)) result fresh.new }
    {
        if is_empty_set(operand) {
            empty_cast(self.alloc, self.index, start, ty, fresh)
        } else {
            self.cast(operand, start, ty, around, fresh)
        }
    }

    #[cycle(names)]
    #[tactic(auto, unfolding(eql_naming::specs::Forms::cast))]
    fn cast(
        &self,
        operand: &Expr,
        start: u32,
        ty: &QualifiedName,
        around: &Around<'_>,
        fresh: &mut u32,
    ) -> Result<core_ir::Expr, NameRefusal>
        ensures { Answers (tells (form_rule.cast self.now.index.now start ty.now (rule.resolve self.now.index.now self.now.parameters operand.now false (entries around.now)) fresh.old)) result fresh.new }
    {
        let meant = type_of(self.index, ty, fresh)?;
        let x = self.resolve(operand, false, around, fresh)?;
        Ok(cast_to(self.alloc, start, x, meant)?)
    }

    #[cycle(names)]
    #[tactic(auto, unfolding(eql_naming::specs::Forms::unary))]
    fn unary(
        &self,
        operand: &Expr,
        start: u32,
        operator: UnaryOperator,
        around: &Around<'_>,
        fresh: &mut u32,
    ) -> Result<core_ir::Expr, NameRefusal>
        ensures { Answers (tells (form_rule.unary start operator (span_of operand.now).start (rule.resolve self.now.index.now self.now.parameters operand.now false (entries around.now)) fresh.old)) result fresh.new }
    {
        let x = self.resolve(operand, false, around, fresh)?;
        Ok(prefixed(self.alloc, start, operator, operand.span().start, x)?)
    }

    #[cycle(names)]
    #[tactic(auto, unfolding(eql_naming::specs::Forms::binary))]
    fn binary(
        &self,
        form: &Binary,
        start: u32,
        around: &Around<'_>,
        fresh: &mut u32,
    ) -> Result<core_ir::Expr, NameRefusal>
        ensures { Answers (tells (form_rule.binary start form.now.operator form.now.span.start (span_of form.now.left).start (rule.resolve self.now.index.now self.now.parameters form.now.left false (entries around.now)) (span_of form.now.right).start (rule.resolve self.now.index.now self.now.parameters form.now.right false (entries around.now)) fresh.old)) result fresh.new }
    {
        let x = self.resolve(form.left.get(), false, around, fresh)?;
        let y = self.resolve(form.right.get(), false, around, fresh)?;
        let left = form.left.get().span().start;
        let right = form.right.get().span().start;
        match joined(self.alloc, start, form.operator, left, x, right, y)? {
            Some(tree) => Ok(tree),
            None => Err(NameRefusal::Rule(NameRule::N7, form.span.start)),
        }
    }

    #[cycle(names)]
    #[tactic(auto, unfolding(eql_naming::specs::Forms::if_else))]
    fn if_else(
        &self,
        form: &Conditional,
        start: u32,
        around: &Around<'_>,
        fresh: &mut u32,
    ) -> Result<core_ir::Expr, NameRefusal>
        ensures { Answers (tells (form_rule.if_else start (span_of form.now.value).start (rule.resolve self.now.index.now self.now.parameters form.now.value false (entries around.now)) (rule.resolve self.now.index.now self.now.parameters form.now.condition false (entries around.now)) (span_of form.now.other).start (rule.resolve self.now.index.now self.now.parameters form.now.other false (entries around.now)) fresh.old)) result fresh.new }
    {
        let value = self.resolve(form.value.get(), false, around, fresh)?;
        self.condition_behind(form, start, value, around, fresh)
    }

    // The condition and the other branch of a choice, behind its first branch.
    #[cycle(names)]
    fn condition_behind(
        &self,
        form: &Conditional,
        start: u32,
        value: core_ir::Expr,
        around: &Around<'_>,
        fresh: &mut u32,
    ) -> Result<core_ir::Expr, NameRefusal>
        ensures { Answers (tells (choice_rule.condition_behind start (span_of form.now.value).start value (rule.resolve self.now.index.now self.now.parameters form.now.condition false (entries around.now)) (span_of form.now.other).start (rule.resolve self.now.index.now self.now.parameters form.now.other false (entries around.now)) fresh.old)) result fresh.new }
    {
        let condition = self.resolve(form.condition.get(), false, around, fresh)?;
        let from = form.value.get().span().start;
        self.last_branch(
            form.other.get(),
            start,
            Order::ValueFirst,
            condition,
            from,
            value,
            around,
            fresh,
        )
    }

    #[cycle(names)]
    #[tactic(auto, unfolding(eql_naming::specs::Forms::if_then))]
    fn if_then(
        &self,
        form: &Conditional,
        start: u32,
        around: &Around<'_>,
        fresh: &mut u32,
    ) -> Result<core_ir::Expr, NameRefusal>
        ensures { Answers (tells (form_rule.if_then start (rule.resolve self.now.index.now self.now.parameters form.now.condition false (entries around.now)) (span_of form.now.value).start (rule.resolve self.now.index.now self.now.parameters form.now.value false (entries around.now)) (span_of form.now.other).start (rule.resolve self.now.index.now self.now.parameters form.now.other false (entries around.now)) fresh.old)) result fresh.new }
    {
        let condition = self.resolve(form.condition.get(), false, around, fresh)?;
        self.branches_behind(form, start, condition, around, fresh)
    }

    // The branches of a choice, behind its condition.
    #[cycle(names)]
    fn branches_behind(
        &self,
        form: &Conditional,
        start: u32,
        condition: core_ir::Expr,
        around: &Around<'_>,
        fresh: &mut u32,
    ) -> Result<core_ir::Expr, NameRefusal>
        ensures { Answers (tells (choice_rule.branches_behind start condition (span_of form.now.value).start (rule.resolve self.now.index.now self.now.parameters form.now.value false (entries around.now)) (span_of form.now.other).start (rule.resolve self.now.index.now self.now.parameters form.now.other false (entries around.now)) fresh.old)) result fresh.new }
    {
        let value = self.resolve(form.value.get(), false, around, fresh)?;
        let from = form.value.get().span().start;
        self.last_branch(
            form.other.get(),
            start,
            Order::ConditionFirst,
            condition,
            from,
            value,
            around,
            fresh,
        )
    }

    // The last branch of a choice, behind its condition and its first branch.
    #[cycle(names)]
    fn last_branch(
        &self,
        other: &Expr,
        start: u32,
        order: Order,
        condition: core_ir::Expr,
        from: u32,
        value: core_ir::Expr,
        around: &Around<'_>,
        fresh: &mut u32,
    ) -> Result<core_ir::Expr, NameRefusal>
        ensures { Answers (tells (choice_rule.last_branch start order condition from value (span_of other.now).start (rule.resolve self.now.index.now self.now.parameters other.now false (entries around.now)) fresh.old)) result fresh.new }
    {
        let last = self.resolve(other, false, around, fresh)?;
        let from_other = other.span().start;
        Ok(chosen(
            self.alloc, start, order, condition, from, value, from_other, last,
        )?)
    }

    /// A postfix behind an expression.
    #[cycle(names)]
    fn postfix(
        &self,
        base: &Expr,
        start: u32,
        postfix: &Postfix,
        around: &Around<'_>,
        fresh: &mut u32,
    ) -> Result<core_ir::Expr, NameRefusal>
        ensures { Answers (tells (rule.postfix_of self.now.index.now self.now.parameters (entries around.now) start base.now postfix.now fresh.old)) result fresh.new }
    {
        let place = postfix.span.start;
        match &postfix.step {
            ast::Step::Dot(name) => self.dotted(base, start, &name.text, place, around, fresh),
            ast::Step::BackLink(_) => self.misplaced(base, NameRule::P3, place, around, fresh),
            ast::Step::Property(_) => self.misplaced(base, NameRule::P1, place, around, fresh),
            ast::Step::Is(ty) => self.narrow(base, start, place, ty, around, fresh),
        }
    }

    #[cycle(names)]
    #[tactic(auto, unfolding(eql_naming::specs::Paths::dotted))]
    fn dotted(
        &self,
        base: &Expr,
        start: u32,
        name: &Text,
        place: u32,
        around: &Around<'_>,
        fresh: &mut u32,
    ) -> Result<core_ir::Expr, NameRefusal>
        ensures { Answers (tells (path_rule.dotted start (span_of base.now).start name.now place (rule.resolve self.now.index.now self.now.parameters base.now false (entries around.now)) fresh.old)) result fresh.new }
    {
        let x = self.resolve(base, false, around, fresh)?;
        let step = Step::Dot(name.copied(self.alloc)?);
        step_behind(self.alloc, x, start, base.span().start, step, place, fresh)
    }

    #[cycle(names)]
    #[tactic(auto, unfolding(eql_naming::specs::Paths::misplaced))]
    fn misplaced(
        &self,
        base: &Expr,
        broken: NameRule,
        place: u32,
        around: &Around<'_>,
        fresh: &mut u32,
    ) -> Result<core_ir::Expr, NameRefusal>
        ensures { Answers (tells (path_rule.misplaced (Rule broken place) (rule.resolve self.now.index.now self.now.parameters base.now false (entries around.now)) fresh.old)) result fresh.new }
    {
        let _ = self.resolve(base, false, around, fresh)?;
        Err(NameRefusal::Rule(broken, place))
    }

    /// `[is T]` behind an expression.
    #[cycle(names)]
    #[tactic(auto, using(crate::proofs::Equations::of_narrow))]
    fn narrow(
        &self,
        base: &Expr,
        start: u32,
        place: u32,
        ty: &QualifiedName,
        around: &Around<'_>,
        fresh: &mut u32,
    ) -> Result<core_ir::Expr, NameRefusal>
        ensures { Answers (tells (rule.narrow_of self.now.index.now self.now.parameters base.now (entries around.now) start place ty.now fresh.old)) result fresh.new }
    {
        match base {
            Expr::PartialBackLink(span, name) => partial_linked(
                self.alloc, self.index, start, &name.text, span.start, ty, around, fresh,
            ),
            Expr::Postfix(_, inner, postfix) => match &postfix.step {
                ast::Step::BackLink(name) => self.back_linked(
                    inner.get(),
                    start,
                    &name.text,
                    postfix.span.start,
                    ty,
                    around,
                    fresh,
                ),
                _ => self.narrowed(base, start, ty, place, around, fresh),
            },
            _ => self.narrowed(base, start, ty, place, around, fresh),
        }
    }

    #[cycle(names)]
    #[tactic(auto, unfolding(eql_naming::specs::Paths::narrowed))]
    fn narrowed(
        &self,
        base: &Expr,
        start: u32,
        ty: &QualifiedName,
        place: u32,
        around: &Around<'_>,
        fresh: &mut u32,
    ) -> Result<core_ir::Expr, NameRefusal>
        ensures { Answers (tells (path_rule.narrowed self.now.index.now start (span_of base.now).start ty.now place (rule.resolve self.now.index.now self.now.parameters base.now false (entries around.now)) fresh.old)) result fresh.new }
    {
        let x = self.resolve(base, false, around, fresh)?;
        let meant = type_of(self.index, ty, fresh)?;
        narrowed_to(self.alloc, x, start, base.span().start, place, meant, fresh)
    }

    #[cycle(names)]
    #[tactic(auto, unfolding(eql_naming::specs::Paths::back_linked))]
    fn back_linked(
        &self,
        base: &Expr,
        start: u32,
        name: &Text,
        place: u32,
        ty: &QualifiedName,
        around: &Around<'_>,
        fresh: &mut u32,
    ) -> Result<core_ir::Expr, NameRefusal>
        ensures { Answers (tells (path_rule.back_linked self.now.index.now start (span_of base.now).start name.now place ty.now (rule.resolve self.now.index.now self.now.parameters base.now false (entries around.now)) fresh.old)) result fresh.new }
    {
        let x = self.resolve(base, false, around, fresh)?;
        let meant = type_of(self.index, ty, fresh)?;
        linked_to(
            self.alloc,
            x,
            start,
            base.span().start,
            name,
            place,
            meant,
            fresh,
        )
    }

    /// An expression with a shape.
    #[cycle(names)]
    #[tactic(auto, unfolding(eql_naming::specs::Shapes::shape))]
    fn shaped(
        &self,
        form: &Shaped,
        start: u32,
        in_result: bool,
        around: &Around<'_>,
        fresh: &mut u32,
    ) -> Result<core_ir::Expr, NameRefusal>
        ensures { Answers (tells (shape_rule.shape start in_result form.now.shape.span.start (rule.resolve self.now.index.now self.now.parameters form.now.base false (entries around.now)) (λ u. rule.elements_of self.now.index.now self.now.parameters (around_place.On u ∷ entries around.now) form.now.shape.elements) fresh.old)) result fresh.new }
    {
        let x = self.resolve(form.base.get(), false, around, fresh)?;
        self.shape_behind(form, start, in_result, x, around, fresh)
    }

    // A shape, behind the expression that has it.
    #[cycle(names)]
    fn shape_behind(
        &self,
        form: &Shaped,
        start: u32,
        in_result: bool,
        x: core_ir::Expr,
        around: &Around<'_>,
        fresh: &mut u32,
    ) -> Result<core_ir::Expr, NameRefusal>
        ensures { Answers (tells (shaping_rule.shape_behind start in_result form.now.shape.span.start x (λ u. rule.elements_of self.now.index.now self.now.parameters (around_place.On u ∷ entries around.now) form.now.shape.elements) fresh.old)) result fresh.new }
    {
        let number = *fresh;
        let subject = next_subject(self.alloc, &x, fresh)?;
        self.elements_behind(form, start, in_result, x, number, subject, around, fresh)
    }

    // The elements of a shape, behind the expression that has it and its subject.
    #[cycle(names)]
    fn elements_behind(
        &self,
        form: &Shaped,
        start: u32,
        in_result: bool,
        x: core_ir::Expr,
        number: u32,
        subject: Subject,
        around: &Around<'_>,
        fresh: &mut u32,
    ) -> Result<core_ir::Expr, NameRefusal>
        ensures { Answers (tells (shaping_rule.elements_behind start in_result form.now.shape.span.start x number (rule.elements_of self.now.index.now self.now.parameters (around_place.On subject ∷ entries around.now) form.now.shape.elements) fresh.old)) result fresh.new }
    {
        let elements = self.elements(
            form.shape.elements.as_slice(),
            &Around::Subject(&*around, &subject),
            fresh,
        )?;
        let brace = form.shape.span.start;
        shape_made(
            self.alloc, start, in_result, brace, x, number, elements, fresh,
        )
    }

    /// The elements of a shape.
    #[cycle(names)]
    fn elements(
        &self,
        all: &[Element],
        around: &Around<'_>,
        fresh: &mut u32,
    ) -> Result<List<core_ir::Element>, NameRefusal>
        ensures { Answers (tells (rule.elements_of self.now.index.now self.now.parameters (entries around.now) all.now fresh.old)) result fresh.new }
    {
        let mut made = no_elements(self.alloc);
        for x in all {
            let y = self.element(x, &made.keys, around, fresh)?;
            made = with_element(self.alloc, made, y)?;
        }
        Ok(made.list)
    }

    /// An element of a shape, after elements of these keys.
    #[cycle(names)]
    #[tactic(auto, using(crate::proofs::Equations::of_pointer, crate::proofs::Equations::of_nested, crate::proofs::Equations::of_property, crate::proofs::Equations::of_splat, crate::proofs::Equations::of_double_splat, crate::proofs::Equations::of_computed))]
    fn element(
        &self,
        x: &Element,
        keys: &Names,
        around: &Around<'_>,
        fresh: &mut u32,
    ) -> Result<core_ir::Element, NameRefusal>
        ensures { Answers (tells (rule.element_of self.now.index.now self.now.parameters x.now keys.now (entries around.now) fresh.old)) result fresh.new }
    {
        match x {
            Element::Pointer(span, name) => {
                pointer_element(self.alloc, span.start, &name.text, keys, around, fresh)
            }
            Element::Nested(span, name, form) => {
                self.nested_element(form, span.start, &name.text, keys, around, fresh)
            }
            Element::Property(span, name) => {
                property_element(self.alloc, span.start, &name.text, keys, around, fresh)
            }
            Element::Splat(span) => Err(NameRefusal::Rule(NameRule::N7, span.start)),
            Element::DoubleSplat(span) => Err(NameRefusal::Rule(NameRule::N7, span.start)),
            Element::Computed(span, words, name, value) => self.computed_element(
                value.get(),
                span.start,
                *words,
                &name.text,
                keys,
                around,
                fresh,
            ),
        }
    }

    #[cycle(names)]
    #[tactic(auto, unfolding(eql_naming::specs::Shapes::element))]
    fn computed_element(
        &self,
        value: &Expr,
        start: u32,
        words: Qualifiers,
        name: &Text,
        keys: &Names,
        around: &Around<'_>,
        fresh: &mut u32,
    ) -> Result<core_ir::Element, NameRefusal>
        ensures { Answers (tells (shape_rule.element keys.now start name.now (shape_rule.need_of words.need) (shape_rule.width_of words.width) (rule.scoped (span_of value.now).start (rule.resolve self.now.index.now self.now.parameters value.now true (entries around.now))) fresh.old)) result fresh.new }
    {
        let value = self.scoped(value, true, around, fresh)?;
        let key = name.copied(self.alloc)?;
        kept(
            keys,
            start,
            key,
            need_of(words.need),
            width_of(words.width),
            value,
            fresh,
        )
    }

    #[cycle(names)]
    #[tactic(auto, unfolding(eql_naming::specs::Shapes::element))]
    fn nested_element(
        &self,
        form: &Nested,
        start: u32,
        name: &Text,
        keys: &Names,
        around: &Around<'_>,
        fresh: &mut u32,
    ) -> Result<core_ir::Element, NameRefusal>
        ensures { Answers (tells (rule.nested_element_of self.now.index.now self.now.parameters keys.now (entries around.now) start name.now form.now fresh.old)) result fresh.new }
    {
        let value = self.nested(form, start, name, around, fresh)?;
        let key = name.copied(self.alloc)?;
        kept(keys, start, key, None, None, value, fresh)
    }

    #[cycle(names)]
    #[tactic(auto, unfolding(eql_naming::specs::Shapes::nested))]
    fn nested(
        &self,
        form: &Nested,
        start: u32,
        name: &Text,
        around: &Around<'_>,
        fresh: &mut u32,
    ) -> Result<Scope, NameRefusal>
        ensures { Answers (tells (rule.nested_of self.now.index.now self.now.parameters (entries around.now) start name.now form.now fresh.old)) result fresh.new }
    {
        match subject_of(around) {
            Some(outer) => self.nested_behind(form, start, name, outer, around, fresh),
            None => Err(NameRefusal::Rule(NameRule::N4, start)),
        }
    }

    #[cycle(names)]
    #[tactic(auto, unfolding(eql_naming::specs::Shapes::nested_behind))]
    fn nested_behind(
        &self,
        form: &Nested,
        start: u32,
        name: &Text,
        outer: &Subject,
        around: &Around<'_>,
        fresh: &mut u32,
    ) -> Result<Scope, NameRefusal>
        ensures { Answers (tells (rule.nested_behind_of self.now.index.now self.now.parameters (entries around.now) outer.now start name.now form.now fresh.old)) result fresh.new }
    {
        let subject = element_subject(self.alloc, outer, name)?;
        let shape_number = *fresh;
        let elements = self.numbered_elements(form, &subject, around, fresh)?;
        let number = *fresh;
        let clauses = self.numbered_clauses(form, &subject, around, fresh)?;
        Ok(nested_made(
            self.alloc,
            start,
            outer,
            name,
            shape_number,
            elements,
            number,
            clauses,
        )?)
    }

    // The elements of an element `p: {..}`, behind the number of its shape.
    #[cycle(names)]
    #[tactic(auto, unfolding(eql_naming::specs::Shapes::numbered))]
    fn numbered_elements(
        &self,
        form: &Nested,
        subject: &Subject,
        around: &Around<'_>,
        fresh: &mut u32,
    ) -> Result<List<core_ir::Element>, NameRefusal>
        ensures { Answers (tells (shape_rule.numbered (rule.elements_of self.now.index.now self.now.parameters (around_place.On subject.now ∷ entries around.now) form.now.shape.elements) fresh.old)) result fresh.new }
    {
        let _ = next(fresh)?;
        self.elements(
            form.shape.elements.as_slice(),
            &Around::Subject(&*around, subject),
            fresh,
        )
    }

    // The clauses of an element `p: {..}`, behind the number of its subject.
    #[cycle(names)]
    #[tactic(auto, unfolding(eql_naming::specs::Shapes::numbered))]
    fn numbered_clauses(
        &self,
        form: &Nested,
        subject: &Subject,
        around: &Around<'_>,
        fresh: &mut u32,
    ) -> Result<Clauses, NameRefusal>
        ensures { Answers (tells (shape_rule.numbered (rule.clauses_of self.now.index.now self.now.parameters (entries around.now) form.now.clauses subject.now) fresh.old)) result fresh.new }
    {
        let _ = next(fresh)?;
        self.clauses(&form.clauses, subject, around, fresh)
    }

    /// A statement, in a result position or not.
    #[cycle(names)]
    #[tactic(auto, using(crate::proofs::Equations::of_select, crate::proofs::Equations::of_for), unfolding(eql_naming::specs::Statements::select, eql_naming::specs::Statements::for_each))]
    pub fn statement(
        &self,
        x: &Statement,
        in_result: bool,
        around: &Around<'_>,
        fresh: &mut u32,
    ) -> Result<core_ir::Expr, NameRefusal>
        ensures { Answers (tells (rule.statement self.now.index.now self.now.parameters x.now in_result (entries around.now) fresh.old)) result fresh.new }
    {
        match x {
            Statement::Select(span, aliases, form) => {
                let defined = self.aliases(aliases.as_slice(), around, fresh)?;
                self.select_behind(form, span.start, defined, in_result, around, fresh)
            }
            Statement::For(span, aliases, form) => {
                let defined = self.aliases(aliases.as_slice(), around, fresh)?;
                self.for_behind(form, span.start, defined, in_result, around, fresh)
            }
        }
    }

    #[cycle(names)]
    #[tactic(auto, unfolding(eql_naming::specs::Statements::select_behind))]
    fn select_behind(
        &self,
        form: &Select,
        start: u32,
        defined: Defined,
        in_result: bool,
        around: &Around<'_>,
        fresh: &mut u32,
    ) -> Result<core_ir::Expr, NameRefusal>
        ensures { Answers (tells (rule.select_behind_of self.now.index.now self.now.parameters in_result (entries around.now) start defined form.now fresh.old)) result fresh.new }
    {
        let inner = Around::Aliases(&*around, &defined.names, defined.aliases.as_slice());
        let rows = self.rows(form, in_result, &inner, fresh)?;
        Ok(selected_rows(self.alloc, start, defined, rows)?)
    }

    /// The subject and the clauses of a select.
    #[cycle(names)]
    #[tactic(auto, unfolding(eql_naming::specs::Statements::rows))]
    fn rows(
        &self,
        form: &Select,
        in_result: bool,
        around: &Around<'_>,
        fresh: &mut u32,
    ) -> Result<Rows, NameRefusal>
        ensures { Answers (tells (rule.rows_of self.now.index.now self.now.parameters in_result (entries around.now) form.now fresh.old)) result fresh.new }
    {
        let subject = self.resolve(form.subject.get(), in_result, around, fresh)?;
        let number = *fresh;
        let behind = next_subject(self.alloc, &subject, fresh)?;
        let clauses = self.clauses(&form.clauses, &behind, around, fresh)?;
        Ok(Rows {
            subject,
            number,
            clauses,
        })
    }

    #[cycle(names)]
    #[tactic(auto, unfolding(eql_naming::specs::Statements::for_each_behind))]
    fn for_behind(
        &self,
        form: &For,
        start: u32,
        defined: Defined,
        in_result: bool,
        around: &Around<'_>,
        fresh: &mut u32,
    ) -> Result<core_ir::Expr, NameRefusal>
        ensures { Answers (tells (rule.for_behind_of self.now.index.now self.now.parameters in_result (entries around.now) start defined form.now fresh.old)) result fresh.new }
    {
        let inner = Around::Aliases(&*around, &defined.names, defined.aliases.as_slice());
        let iterator = self.scoped(form.iterator.get(), false, &inner, fresh)?;
        let number = next(fresh)?;
        let body = self.for_body(
            &form.body,
            in_result,
            &Around::Variable(&inner, &form.variable.text, number),
            fresh,
        )?;
        Ok(core_ir::Expr::For(start, defined.aliases, number, iterator, body))
    }

    /// The body of a loop.
    #[cycle(names)]
    #[tactic(auto, using(crate::proofs::Equations::of_body_statement, crate::proofs::Equations::of_body_expr))]
    fn for_body(
        &self,
        x: &ForBody,
        in_result: bool,
        around: &Around<'_>,
        fresh: &mut u32,
    ) -> Result<Scope, NameRefusal>
        ensures { Answers (tells (rule.for_body self.now.index.now self.now.parameters x.now in_result (entries around.now) fresh.old)) result fresh.new }
    {
        match x {
            ForBody::Statement(statement) => {
                self.scoped_statement(statement.get(), in_result, around, fresh)
            }
            ForBody::Expr(x) => self.scoped(x.get(), in_result, around, fresh),
        }
    }

    #[cycle(names)]
    fn scoped_statement(
        &self,
        x: &Statement,
        in_result: bool,
        around: &Around<'_>,
        fresh: &mut u32,
    ) -> Result<Scope, NameRefusal>
        ensures { Answers (tells (rule.scoped (statement_rule.start_of_statement x.now) (rule.statement self.now.index.now self.now.parameters x.now in_result (entries around.now)) fresh.old)) result fresh.new }
    {
        let body = self.statement(x, in_result, around, fresh)?;
        Ok(scope_at(self.alloc, start_of_statement(x), body)?)
    }

    /// The aliases of one `with`, each in the scope of those before it.
    #[cycle(names)]
    fn aliases(
        &self,
        all: &[Alias],
        around: &Around<'_>,
        fresh: &mut u32,
    ) -> Result<Defined, NameRefusal>
        ensures { Answers (tells (rule.aliases_of self.now.index.now self.now.parameters (entries around.now) all.now fresh.old)) result fresh.new }
    {
        let mut defined = undefined(self.alloc);
        for x in all {
            defined = self.alias(x, defined, around, fresh)?;
        }
        Ok(defined)
    }

    #[cycle(names)]
    #[tactic(auto, unfolding(eql_naming::specs::Statements::alias))]
    fn alias(
        &self,
        x: &Alias,
        defined: Defined,
        around: &Around<'_>,
        fresh: &mut u32,
    ) -> Result<Defined, NameRefusal>
        ensures { Answers (tells (rule.alias_of self.now.index.now self.now.parameters (entries around.now) defined x.now fresh.old)) result fresh.new }
    {
        let inner = Around::Aliases(&*around, &defined.names, defined.aliases.as_slice());
        let value = self.scoped(x.value.get(), false, &inner, fresh)?;
        named(
            self.alloc,
            defined,
            x.span.start,
            &x.name.text,
            value,
            fresh,
        )
    }

    /// The clauses of a statement: filter and keys stand behind the subject, offset and limit do not.
    #[cycle(names)]
    #[tactic(auto, unfolding(eql_naming::specs::Statements::clauses))]
    fn clauses(
        &self,
        form: &ast::Clauses,
        subject: &Subject,
        around: &Around<'_>,
        fresh: &mut u32,
    ) -> Result<Clauses, NameRefusal>
        ensures { Answers (tells (rule.clauses_of self.now.index.now self.now.parameters (entries around.now) form.now subject.now fresh.old)) result fresh.new }
    {
        let inner = Around::Subject(&*around, subject);
        let filter = self.clause(&form.filter, &inner, fresh)?;
        let keys = self.keys(form.order.as_slice(), &inner, fresh)?;
        self.cut(form, filter, keys, around, fresh)
    }

    // The clauses of a statement behind its filter and its keys.
    #[cycle(names)]
    #[tactic(auto, unfolding(eql_naming::specs::Statements::cut))]
    fn cut(
        &self,
        form: &ast::Clauses,
        filter: Option<Boxed<Scope>>,
        keys: List<core_ir::Key>,
        around: &Around<'_>,
        fresh: &mut u32,
    ) -> Result<Clauses, NameRefusal>
        ensures { Answers (tells (rule.cut_of self.now.index.now self.now.parameters (entries around.now) form.now filter keys fresh.old)) result fresh.new }
    {
        let offset = self.clause(&form.offset, around, fresh)?;
        let limit = self.clause(&form.limit, around, fresh)?;
        Ok(Clauses {
            filter,
            keys,
            offset,
            limit,
        })
    }

    /// A clause, if there is one.
    #[cycle(names)]
    fn clause(
        &self,
        x: &Option<Boxed<Expr>>,
        around: &Around<'_>,
        fresh: &mut u32,
    ) -> Result<Option<Boxed<Scope>>, NameRefusal>
        ensures { Answers (tells (rule.clause_of self.now.index.now self.now.parameters (entries around.now) x.now fresh.old)) result fresh.new }
    {
        match x {
            None => Ok(None),
            Some(x) => {
                let scope = self.scoped(x.get(), false, around, fresh)?;
                Ok(Some(Boxed::new(self.alloc, scope)?))
            }
        }
    }

    /// The keys of an order.
    #[cycle(names)]
    fn keys(
        &self,
        all: &[Key],
        around: &Around<'_>,
        fresh: &mut u32,
    ) -> Result<List<core_ir::Key>, NameRefusal>
        ensures { Answers (tells (rule.keys_of self.now.index.now self.now.parameters (entries around.now) all.now fresh.old)) result fresh.new }
    {
        let mut done = List::new(self.alloc);
        for x in all {
            let y = self.key(x, around, fresh)?;
            done.push(y)?;
        }
        Ok(done)
    }

    #[cycle(names)]
    #[tactic(auto, using(crate::proofs::Equations::of_ascending, crate::proofs::Equations::of_descending), unfolding(eql_naming::specs::Statements::ascending, eql_naming::specs::Statements::descending))]
    fn key(
        &self,
        x: &Key,
        around: &Around<'_>,
        fresh: &mut u32,
    ) -> Result<core_ir::Key, NameRefusal>
        ensures { Answers (tells (rule.key_of self.now.index.now self.now.parameters x.now (entries around.now) fresh.old)) result fresh.new }
    {
        match x {
            Key::Ascending(value, place) => {
                let value = self.scoped(value.get(), false, around, fresh)?;
                Ok(core_ir::Key::Ascending(absent_ascending(*place), value))
            }
            Key::Descending(value, place) => {
                let value = self.scoped(value.get(), false, around, fresh)?;
                Ok(core_ir::Key::Descending(absent_descending(*place), value))
            }
        }
    }
}
