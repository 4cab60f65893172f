//! M1: types and globals that are declared twice.
ghost use Rattle.std.specs.Prelude.{◌≡◌, ◌++◌, IfOk, OnOk};
ghost use Rattle.schema_build.specs.Twice as spec;

use crate::least::{at_if, sooner};
use ev_names::Names;
use sdl_ast::Decl;
use std::alloc::{AllocError, Global};

/// The names of types, and apart from them those of globals.
#[derive(Drop)]
pub struct Declared {
    pub types: Names,
    pub globals: Names,
    /// The least byte of a declaration that repeats an earlier one.
    pub repeated: Option<u32>,
}

fn repeated(types: &Names, globals: &Names, decl: &Decl) -> Option<u32>
    ensures { result ≡ spec.repeated types.now globals.now decl.now }
{
    match decl {
        Decl::Type(span, found) => at_if(types.has(&found.name.text), span.start),
        Decl::Global(span, found) => at_if(globals.has(&found.name.text), span.start),
    }
}

fn add_type(alloc: Global, types: &mut Names, decl: &Decl) -> Result<(), AllocError>
    ensures { OnOk result (types.new ≡ types.old ++ spec.type_name decl.now) }
{
    match decl {
        Decl::Type(_, found) => types.add(alloc, &found.name.text),
        Decl::Global(_, _) => Ok(()),
    }
}

fn add_global(alloc: Global, globals: &mut Names, decl: &Decl) -> Result<(), AllocError>
    ensures { OnOk result (globals.new ≡ globals.old ++ spec.global_name decl.now) }
{
    match decl {
        Decl::Global(_, found) => globals.add(alloc, &found.name.text),
        Decl::Type(_, _) => Ok(()),
    }
}

/// The names of all declarations.
#[tactic(auto, using(crate::proofs::LeastLaws::sooner_none, crate::proofs::LeastLaws::sooner_assoc))]
pub fn names_declared(alloc: Global, decls: &[Decl]) -> Result<Declared, AllocError>
    ensures { IfOk result (λ d. (d.types ≡ spec.type_names decls.now) × (d.repeated ≡ spec.repeats decls.now)) }
{
    let mut types = Names::new(alloc);
    let mut globals = Names::new(alloc);
    let mut found = None;
    for decl in decls {
        found = sooner(found, repeated(&types, &globals, decl));
        add_type(alloc, &mut types, decl)?;
        add_global(alloc, &mut globals, decl)?;
    }
    Ok(Declared {
        types,
        globals,
        repeated: found,
    })
}
