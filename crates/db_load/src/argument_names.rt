//! The names that may have values.
ghost use Rattle.std.specs.Prelude.{◌≡◌, IfOk};
ghost use Rattle.db_load.specs.ArgumentValues.{wanted_globals as wanted_globals_of, wanted_params as wanted_params_of, ty_of as ty_of_name};

use ev_list::Param;
use ev_schema::GlobalInfo;
use ev_value::{List, ScalarTy, Text};
use std::alloc::{AllocError, Global};

/// A name that may have a value of a type.
#[derive(Drop)]
pub struct Wanted {
    pub name: Text,
    pub ty: ScalarTy,
}

fn typed_name(alloc: Global, name: &Text, ty: ScalarTy) -> Result<Wanted, AllocError>
    ensures { IfOk result (λ w. w ≡ record { name = name.now; ty = ty }) }
{
    let name = name.copied(alloc)?;
    Ok(Wanted { name, ty })
}

/// The globals of a schema, with their types.
pub fn wanted_globals(alloc: Global, globals: &[GlobalInfo]) -> Result<List<Wanted>, AllocError>
    ensures { IfOk result (λ ws. ws ≡ wanted_globals_of globals.now) }
{
    let mut all = List::new(alloc);
    for global in globals {
        all.push(typed_name(alloc, &global.name, global.ty)?)?;
    }
    Ok(all)
}

/// The parameters of a query, with their types.
pub fn wanted_params(alloc: Global, params: &[Param]) -> Result<List<Wanted>, AllocError>
    ensures { IfOk result (λ ws. ws ≡ wanted_params_of params.now) }
{
    let mut all = List::new(alloc);
    for param in params {
        all.push(typed_name(alloc, &param.name, param.ty)?)?;
    }
    Ok(all)
}

/// The type of the values of a name. None where it may have none.
pub fn ty_of(wanted: &[Wanted], name: &str) -> Option<ScalarTy>
    ensures { result ≡ ty_of_name wanted.now name.now }
{
    for one in wanted {
        if one.name.as_str() == name {
            return Some(one.ty);
        }
    }
    None
}
