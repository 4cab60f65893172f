//! What kind of type a type is.
ghost use Rattle.std.specs.Prelude.{◌≡◌};
ghost use Rattle.type_infer.specs.Kinds as kind;

use core_ir::Ty;
use ev_value::ScalarTy;

/// Whether a type is a scalar one.
pub fn is_scalar(ty: &Ty) -> bool
    ensures { result ≡ kind.is_scalar ty.now }
{
    match ty {
        Ty::Scalar(_) => true,
        Ty::Object(_) | Ty::Tuple(_) | Ty::Array(_) => false,
    }
}

/// Whether a type is one of objects.
pub fn is_object(ty: &Ty) -> bool
    ensures { result ≡ kind.is_object ty.now }
{
    match ty {
        Ty::Object(_) => true,
        Ty::Scalar(_) | Ty::Tuple(_) | Ty::Array(_) => false,
    }
}

/// The elements' type of an array type.
pub fn array_element(ty: &Ty) -> Option<ScalarTy>
    ensures { result ≡ kind.array_element ty.now }
{
    match ty {
        Ty::Array(scalar) => Some(*scalar),
        Ty::Scalar(_) | Ty::Object(_) | Ty::Tuple(_) => None,
    }
}
