//! The prefixes that were found so far.
ghost use Rattle.std.specs.Prelude.{◌≡◌, ◌∷◌, ◌++◌, [], OnOk};
ghost use Rattle.path_scope.specs.Factored.{is_listed};

use crate::beginning::Beginning;
use crate::prefix::Prefix;
use ev_value::List;
use std::alloc::{AllocError, Global};
use std::collections::HashSet;
use std::marker::Model;

/// Prefixes, and a quick way to tell whether a path is one of theirs. Contracts see the list of them.
#[derive(Drop)]
pub struct Found<'a> {
    prefixes: List<Prefix>,
    listed: HashSet<Beginning<'a>>,
}

impl<'a> Model for Found<'a> {
    ghost use Rattle.std.specs.Prelude.{List};
    ghost use Rattle.path_scope.specs.declared.prefix.Prefix.{Prefix};
    ghost use Rattle.path_scope.specs.Found.{Lists};

    ghost Value = { List Prefix };

    ghost view = { λ f. f.prefixes };

    ghost invariant = { λ f. Lists f.listed f.prefixes };
}

impl<'a> Found<'a> {
    /// No prefix was found yet.
    pub fn new(alloc: Global) -> Found<'a>
        ensures { result ≡ [] }
    {
        Found {
            prefixes: List::new(alloc),
            listed: HashSet::new(alloc),
        }
    }

    /// Whether a path is one of theirs.
    pub fn has(&self, path: &Beginning) -> bool
        ensures { result ≡ is_listed self.now path.now }
    {
        self.listed.contains(path)
    }

    /// Puts a prefix with this path last.
    pub fn push(&mut self, path: Beginning<'a>, prefix: Prefix) -> Result<(), AllocError>
        requires { prefix.path ≡ path }
        ensures { OnOk result (self.new ≡ self.old ++ prefix ∷ []) }
    {
        self.prefixes.push(prefix)?;
        match self.listed.insert(path) {
            Ok(_) => Ok(()),
            Err(_) => {
                let _ = self.prefixes.pop();
                Err(AllocError)
            }
        }
    }

    pub fn into_prefixes(self) -> List<Prefix>
        ensures { result ≡ self.entry }
    {
        self.prefixes
    }
}
