//! The factored prefixes of a scope, in time that grows with its occurrences.
ghost use Rattle.std.specs.Prelude.{◌≡◌, ◌∷◌, [], IfOk, OnOk, filter};
ghost use Rattle.path_scope.specs.Factored.{binds, prefix_at, prefixes_of, added, factored};
ghost use Rattle.path_scope.specs.FactoredLaw.{FactoredIsExact};

use crate::around::Around;
use crate::beginning::Beginning;
use crate::found::Found;
use crate::prefix::Prefix;
use core_ir::{Direct, Occurrence, Path};
use ev_value::List;
use std::alloc::{AllocError, Global};

// Adds the root and the first steps of an occurrence, where the scope binds them and they are not listed yet.
fn add_prefix<'a>(
    alloc: Global,
    around: &Around<'a>,
    occurrence: &'a Occurrence,
    count: usize,
    found: &mut Found<'a>,
) -> Result<(), AllocError>
    ensures { OnOk result (found.new ≡ added found.old (filter (binds around.now.direct around.now.all around.now.bound) (prefix_at around.now.direct occurrence.now count ∷ []))) }
{
    let beginning = Beginning::new(&occurrence.path, count);
    if around.binds(&beginning) && !found.has(&beginning) {
        let prefix = Prefix {
            path: occurrence.path.prefix(alloc, count)?,
            name: occurrence.name.copied(alloc)?,
            optional: around.is_optional(&beginning),
        };
        found.push(beginning, prefix)?;
    }
    Ok(())
}

// Adds all that an occurrence begins with, its root alone first.
fn add_prefixes<'a>(
    alloc: Global,
    around: &Around<'a>,
    occurrence: &'a Occurrence,
    found: &mut Found<'a>,
) -> Result<(), AllocError>
    ensures { OnOk result (found.new ≡ added found.old (filter (binds around.now.direct around.now.all around.now.bound) (prefixes_of around.now.direct occurrence.now))) }
{
    add_prefix(alloc, around, occurrence, 0, found)?;
    for count in 0..occurrence.path.steps.len() {
        add_prefix(alloc, around, occurrence, count + 1, found)?;
    }
    Ok(())
}

/// The factored prefixes of a scope with these direct occurrences and these occurrences, where these paths are bound
/// around it.
pub fn factored_prefixes(
    alloc: Global,
    direct: &[Direct],
    all: &[Occurrence],
    bound: &[Path],
) -> Result<List<Prefix>, AllocError>
    ensures { IfOk result (λ fs. fs ≡ factored direct.now all.now bound.now) }
{
    let around = Around::new(alloc, direct, all, bound)?;
    let mut found = Found::new(alloc);
    for occurrence in all {
        add_prefixes(alloc, &around, occurrence, &mut found)?;
    }
    Ok(found.into_prefixes())
}

/// A scope's factored prefixes are the longest common prefixes of a direct occurrence and an occurrence that are not
/// bound around it, each once.
pub fn factored_is_exact()
    ensures { FactoredIsExact }
{}
