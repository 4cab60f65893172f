//! The items of each form of expression.
ghost use Rattle.std.specs.Prelude.{◌≡◌, ◌++◌, IfOk, map};
ghost use Rattle.ev_value.specs.Item.{one as one_of};
ghost use Rattle.eql_sem.specs.Bindings.{pick as pick_in, given as given_in};
ghost use Rattle.eql_sem.specs.Forms.{strip as strip_items, dress as dress_items, bare as bare_item};
ghost use Rattle.eql_sem.specs.Meaning.{items};
ghost use Rattle.eql_sem.specs.Operations.{optional, tupled as tuples_of, cast_to as cast_items, optional_equal as optionally_equal, operated as operated_by, in_set as is_in_set, of_set as set_function, coalesced as coalesced_lists, chosen as chosen_lists, arrayed as arrays_of, unpacked as elements_in};
ghost use Rattle.eql_sem.specs.Parts.{values_in, lists_of, scopes_values};
ghost use Rattle.eql_eval.specs.Recursion.{Evaluates, task_items};
ghost use Rattle.eql_sem.specs.declared.binding.Name.TheVariants as name;

use crate::evaluator::Evaluator;
use crate::task::Task;
use core_ir::{Conditional, Expr, Path, Scope, SetFunction};
use eql_sem::{
    Bound, Formed, Name, World, arrayed, bare, cast_to, chosen, coalesced, dress, given, in_set,
    of_set, one, operated, optional_equal, pick, tupled, unpacked,
};
use ev_value::{Item, List, Op, ScalarTy, Text, Val};
use std::alloc::{AllocError, Global};

// The value of a bound path as a list.
fn path_items(
    alloc: Global,
    path: &Path,
    names: &[Name],
    bounds: &[Bound],
) -> Result<List<Item<Formed>>, AllocError>
    ensures { IfOk result (λ xs. xs ≡ dress_items (given_in (pick_in names.now bounds.now (name.Prefix path.now)))) }
{
    let name = Name::Prefix(path.copied(alloc)?);
    let found = given(alloc, &pick(names, bounds, &name))?;
    dress(alloc, found.as_slice())
}

impl<
    W: World,
    F: Fn(
        Global,
        &W,
        usize,
        &Expr,
        &[Name],
        &[Bound],
        Task,
    ) -> Result<List<Item<Formed>>, AllocError>,
> Evaluator<'_, W, F> {
    // The lists of several expressions.
    fn lists(
        &self,
        exprs: &[Expr],
        names: &[Name],
        bounds: &[Bound],
    ) -> Result<List<List<Item<Formed>>>, AllocError>
        requires { Evaluates W.means self.now.depth (F.pre self.now.inner) (F.post self.now.inner) }
        ensures { IfOk result (λ xs. xs ≡ lists_of (W.means self.now.world.now) exprs.now names.now bounds.now) }
    {
        let mut all = List::new(self.alloc);
        for expr in exprs {
            all.push(self.items(expr, names, bounds)?)?;
        }
        Ok(all)
    }

    // The values of several expressions.
    fn value_lists(
        &self,
        exprs: &[Expr],
        names: &[Name],
        bounds: &[Bound],
    ) -> Result<List<List<Item>>, AllocError>
        requires { Evaluates W.means self.now.depth (F.pre self.now.inner) (F.post self.now.inner) }
        ensures { IfOk result (λ xs. xs ≡ map strip_items (lists_of (W.means self.now.world.now) exprs.now names.now bounds.now)) }
    {
        let mut all = List::new(self.alloc);
        for expr in exprs {
            all.push(self.values(expr, names, bounds)?)?;
        }
        Ok(all)
    }

    // The values of several scopes, one after the other.
    fn values_of_scopes(
        &self,
        scopes: &[Scope],
        names: &[Name],
        bounds: &[Bound],
    ) -> Result<List<Item>, AllocError>
        requires { Evaluates W.means self.now.depth (F.pre self.now.inner) (F.post self.now.inner) }
        ensures { IfOk result (λ xs. xs ≡ scopes_values (W.means self.now.world.now) scopes.now names.now bounds.now) }
    {
        let mut all = List::new(self.alloc);
        for scope in scopes {
            all.append(self.scope_values(scope.body.get(), names, bounds)?)?;
        }
        Ok(all)
    }

    fn operation(
        &self,
        operator: Op,
        operands: &[Expr],
        names: &[Name],
        bounds: &[Bound],
    ) -> Result<List<Item<Formed>>, AllocError>
        requires { Evaluates W.means self.now.depth (F.pre self.now.inner) (F.post self.now.inner) }
        ensures { IfOk result (λ xs. xs ≡ dress_items (operated_by operator (map strip_items (lists_of (W.means self.now.world.now) operands.now names.now bounds.now)))) }
    {
        let operands = self.value_lists(operands, names, bounds)?;
        let found = operated(self.alloc, operator, operands.as_slice())?;
        dress(self.alloc, found.as_slice())
    }

    fn membership(
        &self,
        negated: bool,
        left: &Expr,
        set: &Scope,
        names: &[Name],
        bounds: &[Bound],
    ) -> Result<List<Item<Formed>>, AllocError>
        requires { Evaluates W.means self.now.depth (F.pre self.now.inner) (F.post self.now.inner) }
        ensures { IfOk result (λ xs. xs ≡ dress_items (is_in_set negated (strip_items (items (W.means self.now.world.now) left.now names.now bounds.now)) (values_in (W.means self.now.world.now) set.now.body names.now bounds.now))) }
    {
        let set = self.scope_values(set.body.get(), names, bounds)?;
        let left = self.values(left, names, bounds)?;
        let found = in_set(self.alloc, negated, left.as_slice(), set.as_slice())?;
        dress(self.alloc, found.as_slice())
    }

    fn set_function(
        &self,
        function: SetFunction,
        set: &Scope,
        names: &[Name],
        bounds: &[Bound],
    ) -> Result<List<Item<Formed>>, AllocError>
        requires { Evaluates W.means self.now.depth (F.pre self.now.inner) (F.post self.now.inner) }
        ensures { IfOk result (λ xs. xs ≡ dress_items (set_function function (values_in (W.means self.now.world.now) set.now.body names.now bounds.now))) }
    {
        let set = self.scope_values(set.body.get(), names, bounds)?;
        let found = of_set(self.alloc, function, set.as_slice())?;
        dress(self.alloc, found.as_slice())
    }

    fn union(
        &self,
        first: &Scope,
        second: &Scope,
        names: &[Name],
        bounds: &[Bound],
    ) -> Result<List<Item<Formed>>, AllocError>
        requires { Evaluates W.means self.now.depth (F.pre self.now.inner) (F.post self.now.inner) }
        ensures { IfOk result (λ xs. xs ≡ dress_items (values_in (W.means self.now.world.now) first.now.body names.now bounds.now ++ values_in (W.means self.now.world.now) second.now.body names.now bounds.now)) }
    {
        let mut all = self.scope_values(first.body.get(), names, bounds)?;
        all.append(self.scope_values(second.body.get(), names, bounds)?)?;
        dress(self.alloc, all.as_slice())
    }

    fn coalescing(
        &self,
        first: &Expr,
        second: &Scope,
        names: &[Name],
        bounds: &[Bound],
    ) -> Result<List<Item<Formed>>, AllocError>
        requires { Evaluates W.means self.now.depth (F.pre self.now.inner) (F.post self.now.inner) }
        ensures { IfOk result (λ xs. xs ≡ dress_items (coalesced_lists (strip_items (items (W.means self.now.world.now) first.now names.now bounds.now)) (values_in (W.means self.now.world.now) second.now.body names.now bounds.now))) }
    {
        let first = self.values(first, names, bounds)?;
        let second = self.scope_values(second.body.get(), names, bounds)?;
        let found = coalesced(self.alloc, first.as_slice(), second)?;
        dress(self.alloc, found.as_slice())
    }

    fn choice(
        &self,
        choice: &Conditional,
        names: &[Name],
        bounds: &[Bound],
    ) -> Result<List<Item<Formed>>, AllocError>
        requires { Evaluates W.means self.now.depth (F.pre self.now.inner) (F.post self.now.inner) }
        ensures { IfOk result (λ xs. xs ≡ dress_items (chosen_lists (strip_items (items (W.means self.now.world.now) choice.now.condition names.now bounds.now)) (values_in (W.means self.now.world.now) choice.now.value.body names.now bounds.now) (values_in (W.means self.now.world.now) choice.now.other.body names.now bounds.now))) }
    {
        let condition = self.values(choice.condition.get(), names, bounds)?;
        let value = self.scope_values(choice.value.body.get(), names, bounds)?;
        let other = self.scope_values(choice.other.body.get(), names, bounds)?;
        let found = chosen(
            self.alloc,
            condition.as_slice(),
            value.as_slice(),
            other.as_slice(),
        )?;
        dress(self.alloc, found.as_slice())
    }

    // The items of a prefix operator, a cast or a shape over one operand, before its own rule.
    fn dressed(
        &self,
        operand: &Expr,
        names: &[Name],
        bounds: &[Bound],
    ) -> Result<List<Item<Formed>>, AllocError>
        requires { Evaluates W.means self.now.depth (F.pre self.now.inner) (F.post self.now.inner) }
        ensures { IfOk result (λ xs. xs ≡ dress_items (strip_items (items (W.means self.now.world.now) operand.now names.now bounds.now))) }
    {
        let values = self.values(operand, names, bounds)?;
        dress(self.alloc, values.as_slice())
    }

    fn literal(&self, value: &Val) -> Result<List<Item<Formed>>, AllocError>
        ensures { IfOk result (λ xs. xs ≡ one_of (bare_item value.now)) }
    {
        one(self.alloc, Item::Value(bare(self.alloc, value)?))
    }

    fn param(&self, name: &Text) -> Result<List<Item<Formed>>, AllocError>
        ensures { IfOk result (λ xs. xs ≡ dress_items (optional ((W.means self.now.world.now).param name.now))) }
    {
        let found = self.world.param(self.alloc, name)?;
        dress(self.alloc, found.as_slice())
    }

    fn global(&self, name: &Text) -> Result<List<Item<Formed>>, AllocError>
        ensures { IfOk result (λ xs. xs ≡ dress_items (optional ((W.means self.now.world.now).global name.now))) }
    {
        let found = self.world.global(self.alloc, name)?;
        dress(self.alloc, found.as_slice())
    }

    fn casting(
        &self,
        ty: ScalarTy,
        operand: &Expr,
        names: &[Name],
        bounds: &[Bound],
    ) -> Result<List<Item<Formed>>, AllocError>
        requires { Evaluates W.means self.now.depth (F.pre self.now.inner) (F.post self.now.inner) }
        ensures { IfOk result (λ xs. xs ≡ dress_items (cast_items ty (strip_items (items (W.means self.now.world.now) operand.now names.now bounds.now)))) }
    {
        let operand = self.values(operand, names, bounds)?;
        let found = cast_to(self.alloc, ty, operand.as_slice())?;
        dress(self.alloc, found.as_slice())
    }

    fn tuple(
        &self,
        parts: &[Expr],
        names: &[Name],
        bounds: &[Bound],
    ) -> Result<List<Item<Formed>>, AllocError>
        requires { Evaluates W.means self.now.depth (F.pre self.now.inner) (F.post self.now.inner) }
        ensures { IfOk result (λ xs. xs ≡ tuples_of (lists_of (W.means self.now.world.now) parts.now names.now bounds.now)) }
    {
        let parts = self.lists(parts, names, bounds)?;
        tupled(self.alloc, parts.as_slice())
    }

    fn array(
        &self,
        elements: &[Expr],
        names: &[Name],
        bounds: &[Bound],
    ) -> Result<List<Item<Formed>>, AllocError>
        requires { Evaluates W.means self.now.depth (F.pre self.now.inner) (F.post self.now.inner) }
        ensures { IfOk result (λ xs. xs ≡ dress_items (arrays_of (map strip_items (lists_of (W.means self.now.world.now) elements.now names.now bounds.now)))) }
    {
        let elements = self.value_lists(elements, names, bounds)?;
        let found = arrayed(self.alloc, elements.as_slice())?;
        dress(self.alloc, found.as_slice())
    }

    fn unpacking(
        &self,
        operand: &Expr,
        names: &[Name],
        bounds: &[Bound],
    ) -> Result<List<Item<Formed>>, AllocError>
        requires { Evaluates W.means self.now.depth (F.pre self.now.inner) (F.post self.now.inner) }
        ensures { IfOk result (λ xs. xs ≡ dress_items (elements_in (strip_items (items (W.means self.now.world.now) operand.now names.now bounds.now)))) }
    {
        let operand = self.values(operand, names, bounds)?;
        let found = unpacked(self.alloc, operand.as_slice())?;
        dress(self.alloc, found.as_slice())
    }

    fn optional_equality(
        &self,
        negated: bool,
        left: &Expr,
        right: &Expr,
        names: &[Name],
        bounds: &[Bound],
    ) -> Result<List<Item<Formed>>, AllocError>
        requires { Evaluates W.means self.now.depth (F.pre self.now.inner) (F.post self.now.inner) }
        ensures { IfOk result (λ xs. xs ≡ dress_items (optionally_equal negated (strip_items (items (W.means self.now.world.now) left.now names.now bounds.now)) (strip_items (items (W.means self.now.world.now) right.now names.now bounds.now)))) }
    {
        let left = self.values(left, names, bounds)?;
        let right = self.values(right, names, bounds)?;
        let found = optional_equal(self.alloc, negated, left.as_slice(), right.as_slice())?;
        dress(self.alloc, found.as_slice())
    }

    fn set(
        &self,
        elements: &[Scope],
        names: &[Name],
        bounds: &[Bound],
    ) -> Result<List<Item<Formed>>, AllocError>
        requires { Evaluates W.means self.now.depth (F.pre self.now.inner) (F.post self.now.inner) }
        ensures { IfOk result (λ xs. xs ≡ dress_items (scopes_values (W.means self.now.world.now) elements.now names.now bounds.now)) }
    {
        let found = self.values_of_scopes(elements, names, bounds)?;
        dress(self.alloc, found.as_slice())
    }

    // The items of an expression, by its form.
    #[tactic(auto, using(eql_sem::proofs::Equations::item_forms))]
    fn form_items(
        &self,
        expr: &Expr,
        names: &[Name],
        bounds: &[Bound],
    ) -> Result<List<Item<Formed>>, AllocError>
        requires { Evaluates W.means self.now.depth (F.pre self.now.inner) (F.post self.now.inner) }
        ensures { IfOk result (λ xs. xs ≡ items (W.means self.now.world.now) expr.now names.now bounds.now) }
    {
        match expr {
            Expr::Literal(_, value) => self.literal(value),
            Expr::Param(_, param) => self.param(&param.name),
            Expr::Global(_, name) => self.global(name),
            Expr::Path(_, occurrence) => path_items(self.alloc, &occurrence.path, names, bounds),
            Expr::OnBase(_, _, occurrence) => path_items(
                self.alloc,
                &occurrence.path,
                names,
                bounds,
            ),
            Expr::Operation(_, operator, operands) => {
                self.operation(*operator, operands.as_slice(), names, bounds)
            }
            Expr::Plus(_, operand) => self.dressed(operand.get(), names, bounds),
            Expr::Cast(_, ty, operand) => self.casting(*ty, operand.get(), names, bounds),
            Expr::Tuple(_, parts) => self.tuple(parts.as_slice(), names, bounds),
            Expr::OptionalEqual(_, negated, left, right) => {
                self.optional_equality(*negated, left.get(), right.get(), names, bounds)
            }
            Expr::In(_, negated, left, set) => self.membership(
                *negated,
                left.get(),
                set,
                names,
                bounds,
            ),
            Expr::OfSet(_, function, set) => self.set_function(*function, set, names, bounds),
            Expr::Union(_, first, second) => self.union(first, second, names, bounds),
            Expr::Set(_, elements) => self.set(elements.as_slice(), names, bounds),
            Expr::Coalesce(_, first, second) => self.coalescing(first.get(), second, names, bounds),
            Expr::If(_, choice) => self.choice(choice, names, bounds),
            Expr::Shaped(_, subject, _, _, _) => self.dressed(subject.get(), names, bounds),
            Expr::Select(_, aliases, select) => {
                self.select_behind(aliases.as_slice(), select, names, bounds)
            }
            Expr::For(_, aliases, number, iterator, body) => self.for_behind(
                aliases.as_slice(),
                *number,
                iterator.body.get(),
                body.body.get(),
                names,
                bounds,
            ),
            Expr::Array(_, _, elements) => self.array(elements.as_slice(), names, bounds),
            Expr::ArrayCast(_, _, operand) => self.dressed(operand.get(), names, bounds),
            Expr::Unpack(_, operand) => self.unpacking(operand.get(), names, bounds),
            Expr::EmptySet(_, _) => Ok(List::new(self.alloc)),
            Expr::Unfit(_, _, _, _) => Ok(List::new(self.alloc)),
        }
    }

    /// What is asked of an expression.
    pub(crate) fn asked(
        &self,
        expr: &Expr,
        names: &[Name],
        bounds: &[Bound],
        task: Task,
    ) -> Result<List<Item<Formed>>, AllocError>
        requires { Evaluates W.means self.now.depth (F.pre self.now.inner) (F.post self.now.inner) }
        ensures { IfOk result (λ xs. xs ≡ task_items (W.means self.now.world.now) task expr.now names.now bounds.now) }
    {
        match task {
            Task::Items => self.form_items(expr, names, bounds),
            Task::Scope => {
                let found = self.scope_values(expr, names, bounds)?;
                dress(self.alloc, found.as_slice())
            }
            Task::Finish(item) => self.finished_item(expr, names, bounds, &item),
        }
    }
}
