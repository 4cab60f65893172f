//! Forms, finished once the rows that are left are known: shapes are made, those in components too.
ghost use Rattle.std.specs.Prelude.{◌≡◌, ◌∷◌, ◌++◌, IfOk};
ghost use Rattle.ev_value.specs.Item.{one as one_of};
ghost use Rattle.eql_sem.specs.Forms.{tuple_forms, shape_forms, with_forms, name_of_root, subject_of as subject_in};
ghost use Rattle.eql_sem.specs.Meaning.{finish, made};
ghost use Rattle.eql_sem.specs.Operations.{gathered as gathered_of};
ghost use Rattle.eql_sem.specs.Parts.{finished_all, fields_of};
ghost use Rattle.eql_eval.specs.Recursion.{Evaluates};

use crate::evaluator::Evaluator;
use crate::task::Task;
use core_ir::{Element, Expr, Root};
use eql_sem::{
    Bound, Form, FormField, Formed, Name, World, field, forms_of, gathered, one, root_name, shapes,
    subject_bound, tuples, with_bound, with_name, with_value,
};
use ev_value::{Item, List, Val};
use std::alloc::{AllocError, Global};

// The form that nothing is made of any more.
fn as_it_is(alloc: Global, form: &Form) -> Result<List<Item<Form>>, AllocError>
    ensures { IfOk result (λ xs. xs ≡ one_of form.now) }
{
    one(alloc, Item::Value(form.copied(alloc)?))
}

impl<
    W: World,
    F: Fn(
        Global,
        &W,
        usize,
        &Expr,
        &[Name],
        &[Bound],
        Task,
    ) -> Result<List<Item<Formed>>, AllocError>,
> Evaluator<'_, W, F> {
    // What becomes of a form of an expression inside this one.

    fn finished_form(
        &self,
        part: &Expr,
        names: &[Name],
        bounds: &[Bound],
        form: &Form,
    ) -> Result<List<Item<Form>>, AllocError>
        requires { Evaluates W.means self.now.depth (F.pre self.now.inner) (F.post self.now.inner) }
        ensures { IfOk result (λ xs. xs ≡ finish (W.means self.now.world.now) part.now names.now bounds.now form.now) }
    {
        let form = form.copied(self.alloc)?;
        let item = Formed {
            value: Val::Bool(false),
            form,
        };
        let made = self.made(part, names, bounds, item)?;
        forms_of(self.alloc, made.as_slice())
    }

    // What becomes of the forms of a tuple's components.
    fn finished_parts(
        &self,
        parts: &[Expr],
        names: &[Name],
        bounds: &[Bound],
        forms: &[Form],
    ) -> Result<List<List<Item<Form>>>, AllocError>
        requires { Evaluates W.means self.now.depth (F.pre self.now.inner) (F.post self.now.inner) }
        ensures { IfOk result (λ xs. xs ≡ finished_all (W.means self.now.world.now) parts.now names.now bounds.now forms.now) }
    {
        let mut all = List::new(self.alloc);
        let mut left = forms;
        for part in parts {
            let Some((form, more)) = left.split_first() else {
                return Ok(all);
            };
            all.push(self.finished_form(part, names, bounds, form)?)?;
            left = more;
        }
        Ok(all)
    }

    // The fields of a shape, each with the forms of its items or with its faults.
    fn field_lists(
        &self,
        elements: &[Element],
        names: &[Name],
        bounds: &[Bound],
    ) -> Result<List<List<Item<FormField>>>, AllocError>
        requires { Evaluates W.means self.now.depth (F.pre self.now.inner) (F.post self.now.inner) }
        ensures { IfOk result (λ xs. xs ≡ fields_of (W.means self.now.world.now) elements.now names.now bounds.now) }
    {
        let mut all = List::new(self.alloc);
        for element in elements {
            let items = self.scope_items(element.value.body.get(), names, bounds)?;
            all.push(field(self.alloc, &element.name, items.as_slice())?)?;
        }
        Ok(all)
    }

    // A shape around the object of a form.
    fn shaped(
        &self,
        number: u32,
        elements: &[Element],
        names: &[Name],
        bounds: &[Bound],
        form: &Form,
    ) -> Result<List<Item<Form>>, AllocError>
        requires { Evaluates W.means self.now.depth (F.pre self.now.inner) (F.post self.now.inner) }
        ensures { IfOk result (λ xs. xs ≡ shape_forms (gathered_of (fields_of (W.means self.now.world.now) elements.now (name_of_root (Root.Subject number) ∷ names.now) (subject_in form.now ∷ bounds.now)))) }
    {
        let names = with_name(
            self.alloc,
            root_name(self.alloc, Root::Subject(number)),
            names,
        )?;
        let bounds = with_bound(self.alloc, subject_bound(self.alloc, form)?, bounds)?;
        let fields = self.field_lists(elements, names.as_slice(), bounds.as_slice())?;
        let fields = gathered(self.alloc, fields.as_slice())?;
        shapes(self.alloc, fields.as_slice())
    }

    // A tuple of its components' finished forms.
    fn finished_tuple(
        &self,
        parts: &[Expr],
        names: &[Name],
        bounds: &[Bound],
        forms: &[Form],
    ) -> Result<List<Item<Form>>, AllocError>
        requires { Evaluates W.means self.now.depth (F.pre self.now.inner) (F.post self.now.inner) }
        ensures { IfOk result (λ xs. xs ≡ tuple_forms (gathered_of (finished_all (W.means self.now.world.now) parts.now names.now bounds.now forms.now))) }
    {
        let parts = self.finished_parts(parts, names, bounds, forms)?;
        let parts = gathered(self.alloc, parts.as_slice())?;
        tuples(self.alloc, parts.as_slice())
    }

    // What becomes of a form of the expression.
    #[tactic(auto, using(eql_sem::proofs::Equations::finish_forms))]
    fn finish(
        &self,
        expr: &Expr,
        names: &[Name],
        bounds: &[Bound],
        form: &Form,
    ) -> Result<List<Item<Form>>, AllocError>
        requires { Evaluates W.means self.now.depth (F.pre self.now.inner) (F.post self.now.inner) }
        ensures { IfOk result (λ xs. xs ≡ finish (W.means self.now.world.now) expr.now names.now bounds.now form.now) }
    {
        match expr {
            Expr::Tuple(_, parts) => match form {
                Form::Tuple(forms) => {
                    self.finished_tuple(parts.as_slice(), names, bounds, forms.as_slice())
                }
                Form::Value(_) | Form::Shape(_) => as_it_is(self.alloc, form),
            },
            Expr::Shaped(_, _, _, number, elements) => {
                self.shaped(*number, elements.as_slice(), names, bounds, form)
            }
            Expr::Literal(..)
            | Expr::Param(..)
            | Expr::Global(..)
            | Expr::Path(..)
            | Expr::OnBase(..)
            | Expr::Operation(..)
            | Expr::Plus(..)
            | Expr::Cast(..)
            | Expr::OptionalEqual(..)
            | Expr::In(..)
            | Expr::OfSet(..)
            | Expr::Union(..)
            | Expr::Set(..)
            | Expr::Coalesce(..)
            | Expr::If(..)
            | Expr::Select(..)
            | Expr::For(..) => as_it_is(self.alloc, form),
            Expr::Array(..)
            | Expr::ArrayCast(..)
            | Expr::Unpack(..)
            | Expr::EmptySet(..)
            | Expr::Unfit(..) => as_it_is(self.alloc, form),
        }
    }

    /// An item of the expression with its form finished.
    pub(crate) fn finished_item(
        &self,
        expr: &Expr,
        names: &[Name],
        bounds: &[Bound],
        item: &Formed,
    ) -> Result<List<Item<Formed>>, AllocError>
        requires { Evaluates W.means self.now.depth (F.pre self.now.inner) (F.post self.now.inner) }
        ensures { IfOk result (λ xs. xs ≡ made (W.means self.now.world.now) (finish (W.means self.now.world.now) expr.now) names.now bounds.now item.now) }
    {
        let forms = self.finish(expr, names, bounds, &item.form)?;
        with_value(self.alloc, &item.value, forms.as_slice())
    }
}
