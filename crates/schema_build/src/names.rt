//! What the names of types mean.
ghost use Rattle.std.specs.Prelude.{◌≡◌};
ghost use Rattle.ev_names.specs.Names.{place_of};
ghost use Rattle.schema_build.specs.Names as spec;

use ast::QualifiedName;
use ev_names::{Names, scalar_named};
use ev_value::{ScalarTy, Text};

/// A type by its name.
#[derive(Clone, Copy, PartialEq, Eq)]
pub enum Meant {
    Scalar(ScalarTy),
    /// An object type, by its place among all.
    Object(usize),
}

/// Whether an object type is meant.
pub fn is_object(meant: Option<Meant>) -> bool
    ensures { result ≡ spec.is_object meant }
{
    match meant {
        Some(Meant::Object(_)) => true,
        Some(Meant::Scalar(_)) => false,
        None => false,
    }
}

/// Whether a scalar type is meant.
pub fn is_scalar(meant: Option<Meant>) -> bool
    ensures { result ≡ spec.is_scalar meant }
{
    match meant {
        Some(Meant::Scalar(_)) => true,
        Some(Meant::Object(_)) => false,
        None => false,
    }
}

fn object_named(types: &Names, name: &Text) -> Option<Meant>
    ensures { result ≡ spec.as_object (place_of name.now types.now) }
{
    match types.find(name) {
        Some(place) => Some(Meant::Object(place)),
        None => None,
    }
}

/// The type that a name means, where the names of the object types are given.
pub fn meaning_of(types: &Names, name: &QualifiedName) -> Option<Meant>
    ensures { result ≡ spec.meaning_of types.now name.now }
{
    let text = &name.name.text;
    match &name.module {
        None => match scalar_named(text.as_str()) {
            Some(scalar) => Some(Meant::Scalar(scalar)),
            None => object_named(types, text),
        },
        Some(module) => meaning_behind(types, module.text.as_str(), text),
    }
}

fn meaning_behind(types: &Names, prefix: &str, name: &Text) -> Option<Meant>
    ensures { result ≡ spec.behind types.now prefix.now name.now }
{
    if prefix == "default" {
        return object_named(types, name);
    }
    if prefix != "std" {
        return None;
    }
    match scalar_named(name.as_str()) {
        Some(scalar) => Some(Meant::Scalar(scalar)),
        None => None,
    }
}
