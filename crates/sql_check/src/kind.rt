//! Types compared.
ghost use Rattle.std.specs.Prelude.{◌≡◌};
ghost use Rattle.sql_check.specs.Types as types;

use ev_value::ScalarTy;
use sql_ast::SqlTy;

/// Whether two scalar types are the same.
pub fn same_scalar(a: ScalarTy, b: ScalarTy) -> bool
    ensures { result ≡ types.same_scalar a b }
{
    match a {
        ScalarTy::Int64 => matches!(b, ScalarTy::Int64),
        ScalarTy::Str => matches!(b, ScalarTy::Str),
        ScalarTy::Bool => matches!(b, ScalarTy::Bool),
        ScalarTy::Uuid => matches!(b, ScalarTy::Uuid),
    }
}

/// Whether two types are the same.
#[cycle(same)]
#[tactic(auto, using(crate::proofs::TyForms::same_scalars, crate::proofs::TyForms::same_rows, crate::proofs::TyForms::same_arrays, crate::proofs::TyForms::scalar_row, crate::proofs::TyForms::scalar_array, crate::proofs::TyForms::row_scalar, crate::proofs::TyForms::row_array, crate::proofs::TyForms::array_scalar, crate::proofs::TyForms::array_row))]
pub fn same(a: &SqlTy, b: &SqlTy) -> bool
    ensures { result ≡ types.same_type a.now b.now }
{
    match a {
        SqlTy::Scalar(a) => match b {
            SqlTy::Scalar(b) => same_scalar(*a, *b),
            SqlTy::Row(_) => false,
            SqlTy::Array(_) => false,
        },
        SqlTy::Row(parts) => match b {
            SqlTy::Scalar(_) => false,
            SqlTy::Row(others) => all_same(parts.as_slice(), others.as_slice()),
            SqlTy::Array(_) => false,
        },
        SqlTy::Array(a) => match b {
            SqlTy::Scalar(_) => false,
            SqlTy::Row(_) => false,
            SqlTy::Array(b) => same(a.get(), b.get()),
        },
    }
}

/// Whether two lists of types are the same, place by place.
#[cycle(same)]
pub fn all_same(firsts: &[SqlTy], others: &[SqlTy]) -> bool
    ensures { result ≡ types.all_same firsts.now others.now }
{
    let mut left = others;
    for first in firsts {
        match left {
            [other, more @ ..] => {
                if !same(first, other) {
                    return false;
                }
                left = more;
            }
            [] => return false,
        }
    }
    left.is_empty()
}

/// Whether the type is this scalar type.
pub fn is_of(scalar: ScalarTy, ty: &SqlTy) -> bool
    ensures { result ≡ types.is_of scalar ty.now }
{
    match ty {
        SqlTy::Scalar(other) => same_scalar(scalar, *other),
        SqlTy::Row(_) => false,
        SqlTy::Array(_) => false,
    }
}

/// Whether the type is INT, TEXT, BOOL or UUID.
pub fn is_scalar(ty: &SqlTy) -> bool
    ensures { result ≡ types.is_scalar ty.now }
{
    match ty {
        SqlTy::Scalar(_) => true,
        SqlTy::Row(_) => false,
        SqlTy::Array(_) => false,
    }
}

/// Whether the type is an array.
#[tactic(auto, using(crate::proofs::TyForms::array_of))]
pub fn is_array(ty: &SqlTy) -> bool
    ensures { result ≡ types.is_array ty.now }
{
    match ty {
        SqlTy::Scalar(_) => false,
        SqlTy::Row(_) => false,
        SqlTy::Array(_) => true,
    }
}
