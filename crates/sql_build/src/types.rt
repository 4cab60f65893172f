//! Heights and types.
ghost use Rattle.std.specs.Prelude.{◌≡◌, IfOk};
ghost use Rattle.sql_grammar.specs.Trees as t;

use crate::held::{list_of, pushed};
use ev_value::{Boxed, List, ScalarTy};
use sql_ast::SqlTy;
use sql_grammar::{GrownTy, MAX_HEIGHT, Types};
use std::alloc::{AllocError, Global};

/// Whether a tree of this height is too high.
pub fn too_high(height: usize) -> bool
    ensures { result ≡ t.too_high height }
{
    MAX_HEIGHT < height
}

/// One more, as long as it counts.
pub fn above(height: usize) -> usize
    ensures { result ≡ t.above height }
{
    if MAX_HEIGHT < height {
        height
    } else {
        height + 1
    }
}

/// A scalar type.
#[inline(never)]
pub fn scalar_ty(alloc: Global, scalar: ScalarTy) -> Result<Boxed<GrownTy>, AllocError>
    ensures { IfOk result (λ made. made ≡ t.scalar_ty scalar) }
{
    let found = GrownTy {
        ty: SqlTy::Scalar(scalar),
        height: 1,
    };
    Boxed::new(alloc, found)
}

/// No types.
pub fn no_types(alloc: Global) -> Types
    ensures { result ≡ t.no_types }
{
    Types {
        items: List::new(alloc),
        height: 0,
    }
}

/// One type.
#[inline(never)]
pub fn first_type(alloc: Global, ty: Boxed<GrownTy>) -> Result<Types, AllocError>
    ensures { IfOk result (λ made. made ≡ t.first_type ty) }
{
    let ty = ty.into_inner();
    let height = ty.height;
    let items = list_of(alloc, ty.ty)?;
    Ok(Types { items, height })
}

/// The types with one more behind them.
#[inline(never)]
pub fn added_type(all: Types, ty: Boxed<GrownTy>) -> Result<Types, AllocError>
    ensures { IfOk result (λ made. made ≡ t.added_type all ty) }
{
    let ty = ty.into_inner();
    let height = all.height.max(ty.height);
    let items = pushed(all.items, ty.ty)?;
    Ok(Types { items, height })
}

/// The type of a row.
#[inline(never)]
pub fn row_ty(alloc: Global, all: Types) -> Result<Boxed<GrownTy>, AllocError>
    ensures { IfOk result (λ made. made ≡ t.row_ty all) }
{
    let height = above(all.height);
    let found = GrownTy {
        ty: SqlTy::Row(all.items),
        height,
    };
    Boxed::new(alloc, found)
}

/// The type of an array.
#[inline(never)]
pub fn array_ty(alloc: Global, ty: Boxed<GrownTy>) -> Result<Boxed<GrownTy>, AllocError>
    ensures { IfOk result (λ made. made ≡ t.array_ty ty) }
{
    let ty = ty.into_inner();
    let height = above(ty.height);
    let element = Boxed::new(alloc, ty.ty)?;
    let found = GrownTy {
        ty: SqlTy::Array(element),
        height,
    };
    Boxed::new(alloc, found)
}
