//! The names of the scalar types.
ghost use Rattle.std.specs.Prelude.{◌≡◌};
ghost use Rattle.ev_names.specs.Scalar as spec;

use ev_value::ScalarTy;

/// The scalar type with a name.
pub fn scalar_named(name: &str) -> Option<ScalarTy>
    ensures { result ≡ spec.scalar_named name.now }
{
    if name == "int64" {
        Some(ScalarTy::Int64)
    } else if name == "str" {
        Some(ScalarTy::Str)
    } else if name == "bool" {
        Some(ScalarTy::Bool)
    } else if name == "uuid" {
        Some(ScalarTy::Uuid)
    } else {
        None
    }
}
