//! The scopes that are open where a query is worked on from the outside in.
ghost use Rattle.std.specs.Prelude.{◌≡◌, ◌∷◌, ◌++◌, ◌<◌, ◌-◌, [], OnOk, OnErr, length, fold, false, slice_set};
ghost use Rattle.path_scope.specs.Stack.{is_open, in_use, outer, innermost, better as better_of, IsLongestBound};

use core_ir::Path;
use ev_value::List;
use std::alloc::{AllocError, Global};
use std::marker::Model;

/// A path that is attached to a scope.
#[derive(Drop)]
pub struct Attached {
    pub path: Path,
    /// Whether the scope goes on, without a value, where the path has none.
    pub optional: bool,
    /// The number of the alias whose row has the path's value.
    pub alias: u32,
}

/// The open scopes, the innermost last. Contracts see the list of them, each as the list of what is attached to it.
#[derive(Drop)]
pub struct ScopeStack {
    scopes: Vec<List<Attached>>,
}

impl Model for ScopeStack {
    ghost use Rattle.std.specs.Prelude.{List};
    ghost use Rattle.path_scope.specs.declared.stack.Attached.{Attached};

    ghost Value = { List (List Attached) };

    ghost view = { λ s. s.scopes.items };
}

// The better of an answer so far and one more path that is attached.
fn better(best: Option<(usize, u32)>, attached: &Attached, path: &Path) -> Option<(usize, u32)>
    ensures { result ≡ better_of path.now best attached.now }
{
    let steps = attached.path.steps.len();
    let is_longer = match best {
        Some((length, _)) => length < steps,
        None => true,
    };
    if attached.path.begins(path) && is_longer {
        Some((steps, attached.alias))
    } else {
        best
    }
}

fn best_in(scope: &[Attached], path: &Path, start: Option<(usize, u32)>) -> Option<(usize, u32)>
    ensures { result ≡ fold (better_of path.now) start scope.now }
{
    let mut best = start;
    for attached in scope {
        best = better(best, attached, path);
    }
    best
}

impl ScopeStack {
    /// No scope is open.
    pub fn new(alloc: Global) -> ScopeStack
        ensures { result ≡ [] }
    {
        ScopeStack {
            scopes: Vec::new(alloc),
        }
    }

    /// Opens a scope inside the innermost one.
    pub fn enter(&mut self, alloc: Global) -> Result<(), AllocError>
        ensures ok { OnOk result (self.new ≡ self.old ++ [] ∷ []) }
        ensures err { OnErr result (self.new ≡ self.old) }
    {
        self.scopes.push(List::new(alloc))?;
        Ok(())
    }

    /// Closes the innermost scope.
    pub fn close(&mut self)
        requires { 0 < length self.old }
        ensures { self.new ≡ outer self.old }
    {
        self.scopes.pop();
    }

    /// Attaches a path to the innermost scope.
    pub fn attach(
        &mut self,
        alloc: Global,
        path: &Path,
        optional: bool,
        alias: u32,
    ) -> Result<(), AllocError>
        requires is_open { 0 < length self.old }
        requires new_path { is_open self.old path.now ≡ false }
        requires new_alias { in_use self.old alias ≡ false }
        ensures ok { OnOk result (self.new ≡ slice_set self.old (length self.old - 1) (innermost self.old ++ record { path = path.now; optional = optional; alias = alias } ∷ [])) }
        ensures err { OnErr result (self.new ≡ self.old) }
    {
        let path = path.copied(alloc)?;
        let last = self.scopes.len() - 1;
        self.scopes[last].push(Attached {
            path,
            optional,
            alias,
        })
    }

    /// How many steps the longest path has that is attached to an open scope and begins this one, with its alias. None
    /// where no path that begins it is attached.
    pub fn find(&self, path: &Path) -> Option<(usize, u32)>
        ensures { IsLongestBound self.now path.now result }
    {
        let mut best = None;
        for scope in &self.scopes {
            best = best_in(scope.as_slice(), path, best);
        }
        best
    }
}
