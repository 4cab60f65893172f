//! What the factored prefixes of a scope depend on.
ghost use Rattle.std.specs.Prelude.{◌≡◌, IfOk, ◌&&◌, not};
ghost use Rattle.path_scope.specs.Factored.{joins, is_bound, is_optional as is_optional_of};
ghost use Rattle.path_scope.specs.Around.{HasPaths};

use crate::beginning::Beginning;
use crate::branches::Branches;
use core_ir::{Direct, Occurrence, Path};
use std::alloc::{AllocError, Global};
use std::collections::HashSet;
use std::marker::Model;

/// The occurrences of a scope and the paths that are bound around it, with a quick way to tell what the scope does with
/// a prefix. Contracts see the three lists, which are kept for that.
#[derive(Drop)]
pub struct Around<'a> {
    direct: &'a [Direct],
    all: &'a [Occurrence],
    bound: &'a [Path],
    branches: Branches<'a>,
    taken: HashSet<Beginning<'a>>,
}

impl<'a> Model for Around<'a> {
    ghost use Rattle.path_scope.specs.Around.{Setting, HasPaths};
    ghost use Rattle.path_scope.specs.Branches.{Knows};

    ghost Value = { Setting };

    ghost view = { λ a. record { direct = a.direct.now; all = a.all.now; bound = a.bound.now } };

    ghost invariant = { λ a. Knows a.branches a.direct.now a.all.now × HasPaths a.taken a.bound.now };
}

// The paths as a set.
fn set_of<'a>(alloc: Global, bound: &'a [Path]) -> Result<HashSet<Beginning<'a>>, AllocError>
    ensures { IfOk result (λ s. HasPaths s bound.now) }
{
    let mut paths = HashSet::new(alloc);
    for path in bound {
        paths.insert(Beginning::whole(path))?;
    }
    Ok(paths)
}

impl<'a> Around<'a> {
    pub fn new(
        alloc: Global,
        direct: &'a [Direct],
        all: &'a [Occurrence],
        bound: &'a [Path],
    ) -> Result<Around<'a>, AllocError>
        ensures { IfOk result (λ a. a ≡ record { direct = direct.now; all = all.now; bound = bound.now }) }
    {
        Ok(Around {
            direct,
            all,
            bound,
            branches: Branches::of(alloc, direct, all)?,
            taken: set_of(alloc, bound)?,
        })
    }

    /// Whether the scope binds a prefix.
    pub fn binds(&self, prefix: &Beginning) -> bool
        ensures { result ≡ (joins self.now.direct self.now.all prefix.now && not (is_bound self.now.bound prefix.now)) }
    {
        self.branches.part_at(prefix) && !self.taken.contains(prefix)
    }

    /// Whether each direct occurrence that a prefix begins is optional.
    pub fn is_optional(&self, prefix: &Beginning) -> bool
        ensures { result ≡ is_optional_of self.now.direct prefix.now }
    {
        self.branches.is_optional_at(prefix)
    }
}
