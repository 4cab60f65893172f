//! What is noted from the places before: the types of roots, and the parameters (the EdgeDB documentation's page on
//! parameters).
ghost use Rattle.std.specs.Prelude.{◌≡◌, IfOk, OnOk};
ghost use Rattle.std.specs.Option.{option_copied};
ghost use Rattle.type_rules.specs.Known.{known_by, nothing_known, with_type, with_base, with_parameter, root_type as root_type_of};

use core_ir::{Param, Root, Ty};
use ev_value::Text;
use std::alloc::{AllocError, Global};
use std::collections::BTreeMap;

/// The type of each numbered root and each parameter that were met so far. Contracts see both as functions.
#[derive(Drop)]
pub struct Notes {
    types: BTreeMap<u32, Ty>,
    parameters: BTreeMap<Text, Param>,
}

impl Notes {
    /// Nothing is noted yet.
    pub fn new(alloc: Global) -> Notes
        ensures { known_by result ≡ nothing_known }
    {
        Notes {
            types: BTreeMap::new(alloc),
            parameters: BTreeMap::new(alloc),
        }
    }

    /// The type of a root with a number.
    fn type_of(&self, alloc: Global, number: u32) -> Result<Option<Ty>, AllocError>
        ensures { IfOk result (λ t. t ≡ (known_by self.now).type_of number) }
    {
        match self.types.get(&number) {
            Some(ty) => Ok(Some(ty.copied(alloc)?)),
            None => Ok(None),
        }
    }

    /// The type of what a path begins with.
    pub fn root_type(&self, alloc: Global, root: Root) -> Result<Option<Ty>, AllocError>
        ensures { IfOk result (λ t. t ≡ root_type_of (known_by self.now) root) }
    {
        match root {
            Root::Extent(ty) => Ok(Some(Ty::Object(ty))),
            Root::Alias(number) => self.type_of(alloc, number),
            Root::Var(number) => self.type_of(alloc, number),
            Root::Subject(number) => self.type_of(alloc, number),
            Root::Base(number) => self.type_of(alloc, number),
        }
    }

    /// The parameter with a name.
    pub fn parameter(&self, name: &Text) -> Option<&Param>
        ensures { option_copied result ≡ (known_by self.now).parameter name.now }
    {
        self.parameters.get(name)
    }

    /// Notes the type of the root with a number.
    pub fn note_type(&mut self, alloc: Global, number: u32, ty: &Ty) -> Result<(), AllocError>
        ensures { OnOk result (known_by self.new ≡ with_type number ty.now (known_by self.old)) }
    {
        let ty = ty.copied(alloc)?;
        self.types.insert(number, ty)?;
        Ok(())
    }

    /// Notes the type of the expression that a path begins with.
    pub fn note_base(&mut self, alloc: Global, root: Root, ty: &Ty) -> Result<(), AllocError>
        ensures { OnOk result (known_by self.new ≡ with_base root ty.now (known_by self.old)) }
    {
        match root {
            Root::Base(number) => self.note_type(alloc, number, ty),
            Root::Extent(_) => Ok(()),
            Root::Alias(_) => Ok(()),
            Root::Var(_) => Ok(()),
            Root::Subject(_) => Ok(()),
        }
    }

    /// Notes a parameter.
    pub fn note_parameter(&mut self, alloc: Global, parameter: &Param) -> Result<(), AllocError>
        ensures { OnOk result (known_by self.new ≡ with_parameter parameter.now (known_by self.old)) }
    {
        let name = parameter.name.copied(alloc)?;
        let kept = copied_parameter(alloc, parameter)?;
        self.parameters.insert(name, kept)?;
        Ok(())
    }
}

/// The same parameter, in memory of its own.
fn copied_parameter(alloc: Global, parameter: &Param) -> Result<Param, AllocError>
    ensures { IfOk result (λ p. p ≡ parameter.now) }
{
    let name = parameter.name.copied(alloc)?;
    Ok(Param {
        name,
        ty: parameter.ty,
        optional: parameter.optional,
    })
}
