//! Beginnings of paths, as the keys of maps that copy no path.
ghost use Rattle.std.specs.Prelude.{◌≡◌, fold, flat_map};
ghost use Rattle.std.specs.Cmp.{partial_equiv_from_equiv};
ghost use Rattle.core_ir.specs.Path.{path_eq, prefix};
ghost use Rattle.path_scope.specs.Beginning.{path_input, root_input, step_input, path_equivalence, path_alike};

use core_ir::{Path, Root, Step, same_steps};
use std::hash::{Hash, Hasher};
use std::marker::Model;

/// The root and the first steps of a path. Contracts see the path that they make.
#[derive(Drop)]
pub struct Beginning<'a> {
    path: &'a Path,
    count: usize,
}

impl<'a> Model for Beginning<'a> {
    ghost use Rattle.core_ir.specs.declared.path.Path.{Path};
    ghost use Rattle.core_ir.specs.Path.{prefix};

    ghost Value = { Path };

    ghost view = { λ b. prefix b.count b.path.now };
}

impl<'a> Beginning<'a> {
    /// The root and the first `count` steps, or all where there are fewer.
    pub fn new(path: &'a Path, count: usize) -> Beginning<'a>
        ensures { result ≡ prefix count path.now }
    {
        Beginning { path, count }
    }

    /// All of a path.
    pub fn whole(path: &'a Path) -> Beginning<'a>
        ensures { result ≡ path.now }
    {
        Beginning::new(path, path.steps.len())
    }

    fn root(&self) -> Root
        ensures { result ≡ self.now.root }
    {
        self.path.root
    }

    fn steps(&self) -> &[Step]
        ensures { result.now ≡ self.now.steps }
    {
        let steps = self.path.steps.as_slice();
        let end = self.count.min(steps.len());
        &steps[..end]
    }
}

impl<'a> PartialEq for Beginning<'a> {
    ghost eq = { path_eq };

    ghost laws = { partial_equiv_from_equiv path_equivalence };

    fn eq(&self, other: &Beginning<'a>) -> bool {
        self.root().same(other.root()) && same_steps(self.steps(), other.steps())
    }
}

impl<'a> Eq for Beginning<'a> {
    ghost laws = { path_equivalence };
}

// Feeds a root's number.
fn hash_root<H: Hasher>(root: Root, state: &mut H)
    ensures { state.new ≡ fold H.write state.old (root_input root) }
{
    match root {
        Root::Extent(ty) => state.write_u32(ty.0),
        Root::Alias(number) => state.write_u32(number),
        Root::Var(number) => state.write_u32(number),
        Root::Subject(number) => state.write_u32(number),
        Root::Base(number) => state.write_u32(number),
    }
}

// Feeds a step's name or number.
fn hash_step<H: Hasher>(step: &Step, state: &mut H)
    ensures { state.new ≡ fold H.write state.old (step_input step.now) }
{
    match step {
        Step::Dot(name) => name.as_str().hash(state),
        Step::BackDot(name, _) => name.as_str().hash(state),
        Step::Prop(pointer) => state.write_u32(pointer.0),
        Step::Link(pointer) => state.write_u32(pointer.0),
        Step::Comp(pointer) => state.write_u32(pointer.0),
        Step::Back(pointer, _) => state.write_u32(pointer.0),
        Step::Is(ty) => state.write_u32(ty.0),
        Step::LinkProp(name) => name.as_str().hash(state),
    }
}

fn hash_steps<H: Hasher>(steps: &[Step], state: &mut H)
    ensures { state.new ≡ fold H.write state.old (flat_map step_input steps.now) }
{
    for step in steps {
        hash_step(step, state);
    }
}

impl<'a> Hash for Beginning<'a> {
    ghost hash_input = { path_input };

    ghost respects_eq = { path_alike };

    fn hash<H: Hasher>(&self, state: &mut H) {
        hash_root(self.root(), state);
        hash_steps(self.steps(), state);
    }
}
