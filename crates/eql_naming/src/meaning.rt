//! What names mean over a schema.
ghost use Rattle.std.specs.Prelude.{◌≡◌};
ghost use Rattle.ev_names.specs.Scalar.{scalar_named as scalar_type_named};
ghost use Rattle.ev_schema.specs.Named.{type_named as object_type_named};
ghost use Rattle.eql_naming.specs.Names as spec;

use ast::{Name, QualifiedName};
use core_ir::{SetFunction, TypeId};
use ev_index::Index;
use ev_names::scalar_named;
use ev_value::{ScalarTy, Text};

/// A type by its name.
#[derive(Clone, Copy, PartialEq, Eq)]
pub enum Meant {
    Scalar(ScalarTy),
    Object(TypeId),
}

/// A function by its name.
#[derive(Clone, Copy, PartialEq, Eq)]
pub enum Function {
    Len,
    Unpack,
    OfSet(SetFunction),
}

/// Whether a name has the module `std` or `default`, or none.
pub fn is_module(of: &Option<Name>) -> bool
    ensures { result ≡ spec.is_module of.now }
{
    match of {
        None => true,
        Some(module) => module.text.as_str() == "std" || module.text.as_str() == "default",
    }
}

// An object type with a name.
fn object_named(index: &Index<'_>, name: &Text) -> Option<Meant>
    ensures { result ≡ spec.as_object (object_type_named index.now.types name.now) }
{
    match index.type_named(name) {
        Some(ty) => Some(Meant::Object(ty)),
        None => None,
    }
}

// A scalar type with a name.
fn scalar(name: &Text) -> Option<Meant>
    ensures { result ≡ spec.as_scalar (scalar_type_named name.now) }
{
    match scalar_named(name.as_str()) {
        Some(ty) => Some(Meant::Scalar(ty)),
        None => None,
    }
}

/// The type that a name means. Alone it means a scalar type before an object type.
pub fn type_meant(index: &Index<'_>, name: &QualifiedName) -> Option<Meant>
    ensures { result ≡ spec.type_meant index.now name.now }
{
    let text = &name.name.text;
    match &name.module {
        None => match scalar_named(text.as_str()) {
            Some(ty) => Some(Meant::Scalar(ty)),
            None => object_named(index, text),
        },
        Some(module) => {
            if module.text.as_str() == "std" {
                scalar(text)
            } else {
                object_named(index, text)
            }
        }
    }
}

/// The function with a name.
fn function_named(name: &str) -> Option<Function>
    ensures { result ≡ spec.function_named name.now }
{
    if name == "count" {
        Some(Function::OfSet(SetFunction::Count))
    } else if name == "sum" {
        Some(Function::OfSet(SetFunction::Sum))
    } else if name == "min" {
        Some(Function::OfSet(SetFunction::Min))
    } else if name == "max" {
        Some(Function::OfSet(SetFunction::Max))
    } else if name == "any" {
        Some(Function::OfSet(SetFunction::Any))
    } else if name == "all" {
        Some(Function::OfSet(SetFunction::All))
    } else if name == "len" {
        Some(Function::Len)
    } else if name == "assert_single" {
        Some(Function::OfSet(SetFunction::AssertSingle))
    } else if name == "assert_exists" {
        Some(Function::OfSet(SetFunction::AssertExists))
    } else if name == "assert_distinct" {
        Some(Function::OfSet(SetFunction::AssertDistinct))
    } else if name == "array_agg" {
        Some(Function::OfSet(SetFunction::ArrayAgg))
    } else if name == "array_unpack" {
        Some(Function::Unpack)
    } else {
        None
    }
}

/// The function that a name means, alone or behind `std`.
pub fn function_meant(name: &QualifiedName) -> Option<Function>
    ensures { result ≡ spec.function_meant name.now }
{
    match &name.module {
        None => function_named(name.name.text.as_str()),
        Some(module) => {
            if module.text.as_str() == "std" {
                function_named(name.name.text.as_str())
            } else {
                None
            }
        }
    }
}
