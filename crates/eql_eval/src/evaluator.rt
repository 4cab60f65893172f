//! The evaluator: what every form asks of the expressions in it.
ghost use Rattle.std.specs.Prelude.{◌≡◌, IfOk};
ghost use Rattle.eql_sem.specs.Forms.{strip as strip_items};
ghost use Rattle.eql_sem.specs.Meaning.{items, finish, made};
ghost use Rattle.eql_sem.specs.Parts.{values_in};
ghost use Rattle.eql_eval.specs.Recursion.{Evaluates, task_items};

use crate::task::Task;
use core_ir::Expr;
use eql_sem::{Bound, Formed, Name, World, strip};
use ev_value::{Item, List};
use std::alloc::{AllocError, Global};

/// Works out what expressions mean over a world. What evaluates an expression inside another is a parameter, so that
/// each form is proved by itself.
#[derive(Clone, Copy)]
pub(crate) struct Evaluator<'a, W, F> {
    pub(crate) alloc: Global,
    pub(crate) world: &'a W,
    /// How many expressions may still stand one in the other. No tree in memory is as high as this is at first.
    pub(crate) depth: usize,
    pub(crate) inner: F,
}

impl<
    W: World,
    F: Fn(
        Global,
        &W,
        usize,
        &Expr,
        &[Name],
        &[Bound],
        Task,
    ) -> Result<List<Item<Formed>>, AllocError>,
> Evaluator<'_, W, F> {
    fn answer(
        &self,
        expr: &Expr,
        names: &[Name],
        bounds: &[Bound],
        task: Task,
    ) -> Result<List<Item<Formed>>, AllocError>
        requires { Evaluates W.means self.now.depth (F.pre self.now.inner) (F.post self.now.inner) }
        ensures { IfOk result (λ xs. xs ≡ task_items (W.means self.now.world.now) task expr.now names.now bounds.now) }
    {
        if self.depth == 0 {
            return Err(AllocError);
        }
        (self.inner)(
            self.alloc,
            self.world,
            self.depth - 1,
            expr,
            names,
            bounds,
            task,
        )
    }

    /// The items of an expression.
    pub(crate) fn items(
        &self,
        expr: &Expr,
        names: &[Name],
        bounds: &[Bound],
    ) -> Result<List<Item<Formed>>, AllocError>
        requires { Evaluates W.means self.now.depth (F.pre self.now.inner) (F.post self.now.inner) }
        ensures { IfOk result (λ xs. xs ≡ items (W.means self.now.world.now) expr.now names.now bounds.now) }
    {
        self.answer(expr, names, bounds, Task::Items)
    }

    /// The items of an expression, without their forms.
    pub(crate) fn values(
        &self,
        expr: &Expr,
        names: &[Name],
        bounds: &[Bound],
    ) -> Result<List<Item>, AllocError>
        requires { Evaluates W.means self.now.depth (F.pre self.now.inner) (F.post self.now.inner) }
        ensures { IfOk result (λ xs. xs ≡ strip_items (items (W.means self.now.world.now) expr.now names.now bounds.now)) }
    {
        let found = self.items(expr, names, bounds)?;
        strip(self.alloc, found.as_slice())
    }

    /// The values of a scope with this body, worked out as a question of its own.
    #[tactic(auto, using(crate::proofs::Dressing::strip_dress))]
    pub(crate) fn inner_values(
        &self,
        body: &Expr,
        names: &[Name],
        bounds: &[Bound],
    ) -> Result<List<Item>, AllocError>
        requires { Evaluates W.means self.now.depth (F.pre self.now.inner) (F.post self.now.inner) }
        ensures { IfOk result (λ xs. xs ≡ values_in (W.means self.now.world.now) body.now names.now bounds.now) }
    {
        let found = self.answer(body, names, bounds, Task::Scope)?;
        strip(self.alloc, found.as_slice())
    }

    /// An item of an expression with its form finished.
    pub(crate) fn made(
        &self,
        expr: &Expr,
        names: &[Name],
        bounds: &[Bound],
        item: Formed,
    ) -> Result<List<Item<Formed>>, AllocError>
        requires { Evaluates W.means self.now.depth (F.pre self.now.inner) (F.post self.now.inner) }
        ensures { IfOk result (λ xs. xs ≡ made (W.means self.now.world.now) (finish (W.means self.now.world.now) expr.now) names.now bounds.now item) }
    {
        self.answer(expr, names, bounds, Task::Finish(item))
    }
}
