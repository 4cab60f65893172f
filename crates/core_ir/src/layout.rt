//! Layouts: how an answer is nested.

ghost use Rattle.std.specs.Prelude.{◌≡◌, IfOk, Some, map};
ghost use Rattle.std.specs.Option.{option_copied};
ghost use Rattle.core_ir.specs.Layout.{plain as plain_of_type, plain_slot as plain_of_slot, is_multi as is_multi_by, layout_by as layout_of_expr};
ghost use Rattle.core_ir.specs.LayoutParts.{field_of, layouts_of};

use crate::card::Card;
use crate::phase::Carded;
use crate::tree::{Element, Expr};
use crate::ty::Ty;
use ev_value::{List, Text};
use std::alloc::{AllocError, Global};

/// How the items of a result are laid out as JSON. An array of scalars is one value and counts as a scalar.
#[derive(Drop)]
#[cycle(layout)]
pub enum Layout {
    Scalar,
    /// An object without a shape, by its id.
    Object,
    Shape(List<LayoutField>),
    Tuple(List<Layout>),
}

/// A field of a shape.
#[derive(Drop)]
#[cycle(layout)]
pub struct LayoutField {
    pub name: Text,
    /// Whether it is an array, and not one value or `null`.
    pub multi: bool,
    pub layout: Layout,
}

// The layout of what has no shape in it.
#[cycle(plain)]
#[tactic(auto, using(crate::proofs::LayoutLaws::plain_forms))]
fn plain(alloc: Global, ty: &Ty) -> Result<Layout, AllocError>
    ensures { IfOk result (λ l. l ≡ plain_of_type ty.now) }
{
    match ty {
        Ty::Scalar(_) => Ok(Layout::Scalar),
        Ty::Object(_) => Ok(Layout::Object),
        Ty::Tuple(parts) => Ok(Layout::Tuple(plain_all(alloc, parts.as_slice())?)),
        Ty::Array(_) => Ok(Layout::Scalar),
    }
}

#[cycle(plain)]
fn plain_all(alloc: Global, types: &[Ty]) -> Result<List<Layout>, AllocError>
    ensures { IfOk result (λ ls. ls ≡ map plain_of_type types.now) }
{
    let mut found = List::new(alloc);
    for ty in types {
        found.push(plain(alloc, ty)?)?;
    }
    Ok(found)
}

fn plain_slot(alloc: Global, ty: Option<&Ty>) -> Result<Layout, AllocError>
    ensures { IfOk result (λ l. l ≡ plain_of_slot (option_copied ty.entry)) }
{
    match ty {
        Some(ty) => plain(alloc, ty),
        None => Ok(Layout::Scalar),
    }
}

fn is_multi(card: Option<Card>) -> bool
    ensures { result ≡ is_multi_by card }
{
    match card {
        Some(card) => card.is_many(),
        None => true,
    }
}

#[cycle(layout_of)]
#[tactic(auto, using(crate::proofs::LayoutLaws::layout_forms))]
fn layout_by(alloc: Global, expr: &Expr, ty: Option<&Ty>) -> Result<Layout, AllocError>
    ensures { IfOk result (λ l. l ≡ layout_of_expr expr.now (option_copied ty.entry)) }
{
    match expr {
        Expr::Shaped(_, _, _, _, elements) => Ok(Layout::Shape(fields(
            alloc,
            elements.as_slice(),
        )?)),
        Expr::Tuple(_, parts) => match ty {
            Some(Ty::Tuple(types)) => {
                let layouts = layouts(alloc, parts.as_slice(), types.as_slice())?;
                Ok(Layout::Tuple(layouts))
            }
            Some(Ty::Scalar(_) | Ty::Object(_) | Ty::Array(_)) | None => plain_slot(alloc, ty),
        },
        Expr::Select(_, _, select) => layout_by(alloc, select.subject.get(), ty),
        Expr::For(_, _, _, _, body) => layout_by(alloc, body.body.get(), ty),
        Expr::Literal(..)
        | Expr::Param(..)
        | Expr::Global(..)
        | Expr::Path(..)
        | Expr::OnBase(..)
        | Expr::Operation(..)
        | Expr::Plus(..)
        | Expr::Cast(..)
        | Expr::OptionalEqual(..)
        | Expr::In(..)
        | Expr::OfSet(..)
        | Expr::Union(..)
        | Expr::Set(..)
        | Expr::Coalesce(..)
        | Expr::If(..) => plain_slot(alloc, ty),
        Expr::Array(..)
        | Expr::ArrayCast(..)
        | Expr::Unpack(..)
        | Expr::EmptySet(..)
        | Expr::Unfit(..) => plain_slot(alloc, ty),
    }
}

// The layouts of expressions with their types, as far as both go.
#[cycle(layout_of)]
fn layouts(alloc: Global, exprs: &[Expr], types: &[Ty]) -> Result<List<Layout>, AllocError>
    ensures { IfOk result (λ ls. ls ≡ layouts_of exprs.now types.now) }
{
    let mut found = List::new(alloc);
    let mut rest = types;
    for expr in exprs {
        match rest {
            [ty, more @ ..] => {
                found.push(layout_by(alloc, expr, Some(ty))?)?;
                rest = more;
            }
            [] => return Ok(found),
        }
    }
    Ok(found)
}

#[cycle(layout_of)]
fn fields(alloc: Global, elements: &[Element]) -> Result<List<LayoutField>, AllocError>
    ensures { IfOk result (λ fs. fs ≡ map field_of elements.now) }
{
    let mut found = List::new(alloc);
    for element in elements {
        found.push(field(alloc, element)?)?;
    }
    Ok(found)
}

#[cycle(layout_of)]
fn field(alloc: Global, element: &Element) -> Result<LayoutField, AllocError>
    ensures { IfOk result (λ f. f ≡ field_of element.now) }
{
    let name = element.name.copied(alloc)?;
    Ok(LayoutField {
        name,
        multi: is_multi(element.card),
        layout: layout_by(alloc, element.value.body.get(), element.ty.as_ref())?,
    })
}

/// How the items of a query's answer are laid out.
pub fn layout_of(alloc: Global, carded: &Carded) -> Result<Layout, AllocError>
    ensures { IfOk result (λ l. l ≡ layout_of_expr carded.now.typed.core.root.body (Some carded.now.typed.ty)) }
{
    layout_by(
        alloc,
        carded.typed.core.root.body.get(),
        Some(&carded.typed.ty),
    )
}
