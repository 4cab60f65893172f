//! Scopes: what stands in them under each extension of a binding by their prefixes.
ghost use Rattle.std.specs.Prelude.{◌≡◌, ◌∷◌, ◌++◌, [], IfOk, Option};
ghost use Rattle.ev_value.specs.Item.{bind};
ghost use Rattle.eql_sem.specs.Forms.{strip as strip_items};
ghost use Rattle.eql_sem.specs.Meaning.{items, bases, finish, made, base_among};
ghost use Rattle.eql_sem.specs.Parts.{values_in, items_in, extended_by, made_under};
ghost use Rattle.eql_sem.specs.Scopes.{value_list as value_list_of, root_list as root_list_of, extensions as extensions_of};
ghost use Rattle.eql_eval.specs.Recursion.{Evaluates};

use crate::base::find_base;
use crate::evaluator::Evaluator;
use crate::task::Task;
use core_ir::{Expr, Path, Root};
use eql_sem::{
    Bound, Copies, Formed, Name, World, add_turns, copied_bounds, copied_names, from_bound,
    last_property, listed, nearest, one, pick, prefixes_of_scope, property_of_path, turns, walk,
    with_name, within,
};
use ev_value::{Item, List};
use path_scope::Prefix;
use std::alloc::{AllocError, Global};

impl<
    W: World,
    F: Fn(
        Global,
        &W,
        usize,
        &Expr,
        &[Name],
        &[Bound],
        Task,
    ) -> Result<List<Item<Formed>>, AllocError>,
> Evaluator<'_, W, F> {
    // The list of the base with a number among those of a scope with this body.
    #[tactic(auto, using(crate::proofs::BaseLaws::base_some, crate::proofs::BaseLaws::base_none))]
    fn base_list(
        &self,
        body: &Expr,
        number: u32,
        names: &[Name],
        bounds: &[Bound],
    ) -> Result<List<Item>, AllocError>
        requires { Evaluates W.means self.now.depth (F.pre self.now.inner) (F.post self.now.inner) }
        ensures { IfOk result (λ xs. xs ≡ base_among (bases (W.means self.now.world.now) body.now) number names.now bounds.now) }
    {
        match find_base(body, number) {
            Some(base) => self.inner_values(base.body.get(), names, bounds),
            None => Ok(List::new(self.alloc)),
        }
    }

    // The list of a root that is not bound.
    fn root_list(
        &self,
        body: &Expr,
        root: Root,
        names: &[Name],
        bounds: &[Bound],
    ) -> Result<List<Item>, AllocError>
        requires { Evaluates W.means self.now.depth (F.pre self.now.inner) (F.post self.now.inner) }
        ensures { IfOk result (λ xs. xs ≡ root_list_of (W.means self.now.world.now) (base_among (bases (W.means self.now.world.now) body.now)) root names.now bounds.now) }
    {
        match root {
            Root::Extent(ty) => self.world.extent(self.alloc, ty),
            Root::Alias(number) => listed(self.alloc, &pick(names, bounds, &Name::Alias(number))),
            Root::Base(number) => self.base_list(body, number, names, bounds),
            Root::Var(_) | Root::Subject(_) => Ok(List::new(self.alloc)),
        }
    }

    // The list of a path.
    fn value_list(
        &self,
        body: &Expr,
        path: &Path,
        names: &[Name],
        bounds: &[Bound],
    ) -> Result<List<Item>, AllocError>
        requires { Evaluates W.means self.now.depth (F.pre self.now.inner) (F.post self.now.inner) }
        ensures { IfOk result (λ xs. xs ≡ value_list_of (W.means self.now.world.now) (base_among (bases (W.means self.now.world.now) body.now)) path.now names.now bounds.now) }
    {
        let steps = path.steps.as_slice();
        match last_property(self.alloc, steps)? {
            Some((link, name)) => {
                property_of_path(self.alloc, self.world, path, link, &name, names, bounds)
            }
            None => match nearest(self.alloc, steps.len(), names, bounds, path)? {
                Some((bound, more)) => from_bound(self.alloc, self.world, bound, more.as_slice()),
                None => {
                    let from = self.root_list(body, path.root, names, bounds)?;
                    walk(self.alloc, self.world, steps, from)
                }
            },
        }
    }

    // Each of the bindings, extended by a prefix.
    fn extended(
        &self,
        body: &Expr,
        prefix: &Prefix,
        names: &[Name],
        rows: &[Item<List<Bound>>],
    ) -> Result<List<Item<List<Bound>>>, AllocError>
        requires { Evaluates W.means self.now.depth (F.pre self.now.inner) (F.post self.now.inner) }
        ensures { IfOk result (λ xs. xs ≡ extended_by (W.means self.now.world.now) (base_among (bases (W.means self.now.world.now) body.now)) prefix.now names.now rows.now) }
    {
        let mut all = List::new(self.alloc);
        for row in rows {
            match row {
                Item::Value(bounds) => {
                    let bounds = bounds.as_slice();
                    let found = self.value_list(body, &prefix.path, names, bounds)?;
                    let turns = turns(self.alloc, prefix.optional, found.as_slice())?;
                    add_turns(self.alloc, bounds, turns.as_slice(), &mut all)?;
                }
                Item::Fault(fault) => all.push(Item::Fault(*fault))?,
            }
        }
        Ok(all)
    }

    /// All extensions of a binding by the prefixes of a scope with this body.
    #[tactic(auto, using(crate::proofs::Extending::extensions_begin, crate::proofs::Extending::extensions_kept, crate::proofs::Extending::extensions_done))]
    pub(crate) fn extensions(
        &self,
        body: &Expr,
        prefixes: &[Prefix],
        names: &[Name],
        bounds: &[Bound],
    ) -> Result<List<Item<List<Bound>>>, AllocError>
        requires { Evaluates W.means self.now.depth (F.pre self.now.inner) (F.post self.now.inner) }
        ensures { IfOk result (λ xs. xs ≡ extensions_of (W.means self.now.world.now) (base_among (bases (W.means self.now.world.now) body.now)) prefixes.now names.now bounds.now) }
    {
        let mut rows = one(self.alloc, Item::Value(copied_bounds(self.alloc, bounds)?))?;
        let mut inner = copied_names(self.alloc, names)?;
        for prefix in prefixes {
            rows = self.extended(body, prefix, inner.as_slice(), rows.as_slice())?;
            let name = Name::Prefix(prefix.path.copied(self.alloc)?);
            inner = with_name(self.alloc, name, inner.as_slice())?;
        }
        Ok(rows)
    }

    // The values of an expression under each of the bindings.
    fn values_under(
        &self,
        body: &Expr,
        names: &[Name],
        rows: &[Item<List<Bound>>],
    ) -> Result<List<Item>, AllocError>
        requires { Evaluates W.means self.now.depth (F.pre self.now.inner) (F.post self.now.inner) }
        ensures { IfOk result (λ xs. xs ≡ bind rows.now (λ b. strip_items (items (W.means self.now.world.now) body.now names.now b))) }
    {
        let mut all = List::new(self.alloc);
        for row in rows {
            match row {
                Item::Value(bounds) => { all.append(self.values(body, names, bounds.as_slice())?)? }
                Item::Fault(fault) => all.push(Item::Fault(*fault))?,
            }
        }
        Ok(all)
    }

    /// The values of a scope with this body.
    pub(crate) fn scope_values(
        &self,
        body: &Expr,
        names: &[Name],
        bounds: &[Bound],
    ) -> Result<List<Item>, AllocError>
        requires { Evaluates W.means self.now.depth (F.pre self.now.inner) (F.post self.now.inner) }
        ensures { IfOk result (λ xs. xs ≡ values_in (W.means self.now.world.now) body.now names.now bounds.now) }
    {
        let prefixes = prefixes_of_scope(self.alloc, body, names)?;
        let rows = self.extensions(body, prefixes.as_slice(), names, bounds)?;
        let inner = within(self.alloc, prefixes.as_slice(), names)?;
        self.values_under(body, inner.as_slice(), rows.as_slice())
    }

    // Each of the items with its form finished.
    fn made_each(
        &self,
        body: &Expr,
        names: &[Name],
        bounds: &[Bound],
        found: &[Item<Formed>],
    ) -> Result<List<Item<Formed>>, AllocError>
        requires { Evaluates W.means self.now.depth (F.pre self.now.inner) (F.post self.now.inner) }
        ensures { IfOk result (λ xs. xs ≡ bind found.now (made (W.means self.now.world.now) (finish (W.means self.now.world.now) body.now) names.now bounds.now)) }
    {
        let mut all = List::new(self.alloc);
        for item in found {
            match item {
                Item::Value(formed) => {
                    let formed = formed.copied_in(self.alloc)?;
                    all.append(self.made(body, names, bounds, formed)?)?
                }
                Item::Fault(fault) => all.push(Item::Fault(*fault))?,
            }
        }
        Ok(all)
    }

    // The finished items of an expression under one binding.
    fn made_items(
        &self,
        body: &Expr,
        names: &[Name],
        bounds: &[Bound],
    ) -> Result<List<Item<Formed>>, AllocError>
        requires { Evaluates W.means self.now.depth (F.pre self.now.inner) (F.post self.now.inner) }
        ensures { IfOk result (λ xs. xs ≡ bind (items (W.means self.now.world.now) body.now names.now bounds.now) (made (W.means self.now.world.now) (finish (W.means self.now.world.now) body.now) names.now bounds.now)) }
    {
        let found = self.items(body, names, bounds)?;
        self.made_each(body, names, bounds, found.as_slice())
    }

    // The finished items of an expression under each of the bindings.
    fn items_under(
        &self,
        body: &Expr,
        names: &[Name],
        rows: &[Item<List<Bound>>],
    ) -> Result<List<Item<Formed>>, AllocError>
        requires { Evaluates W.means self.now.depth (F.pre self.now.inner) (F.post self.now.inner) }
        ensures { IfOk result (λ xs. xs ≡ made_under (W.means self.now.world.now) body.now names.now rows.now) }
    {
        let mut all = List::new(self.alloc);
        for row in rows {
            match row {
                Item::Value(bounds) => {
                    all.append(self.made_items(body, names, bounds.as_slice())?)?
                }
                Item::Fault(fault) => all.push(Item::Fault(*fault))?,
            }
        }
        Ok(all)
    }

    /// The items of a scope with this body in a result position, their forms finished.
    pub(crate) fn scope_items(
        &self,
        body: &Expr,
        names: &[Name],
        bounds: &[Bound],
    ) -> Result<List<Item<Formed>>, AllocError>
        requires { Evaluates W.means self.now.depth (F.pre self.now.inner) (F.post self.now.inner) }
        ensures { IfOk result (λ xs. xs ≡ items_in (W.means self.now.world.now) body.now names.now bounds.now) }
    {
        let prefixes = prefixes_of_scope(self.alloc, body, names)?;
        let rows = self.extensions(body, prefixes.as_slice(), names, bounds)?;
        let inner = within(self.alloc, prefixes.as_slice(), names)?;
        self.items_under(body, inner.as_slice(), rows.as_slice())
    }
}
