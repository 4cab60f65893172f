//! Paths: where they begin and the steps that they take, as the EdgeDB documentation's page on paths says.

ghost use Rattle.std.specs.Prelude.{◌≡◌, ◌↔◌, IsTrue, IfOk, OnOk, ◌++◌, ◌≤◌, length, take};
ghost use Rattle.core_ir.specs.Path.{root_eq, step_eq, steps_eq, path_eq, alike as alike_of, prefix as prefix_of, begins as begins_of, PathsAreEqual};

use ev_value::{List, Text};
use std::alloc::{AllocError, Global};

/// The number of an object type among a schema's types.
#[derive(Clone, Copy, Debug, PartialEq, Eq)]
pub struct TypeId(pub u32);

/// The number of a pointer among a schema's pointers.
#[derive(Clone, Copy, Debug, PartialEq, Eq)]
pub struct PtrId(pub u32);

/// Where a path begins. Aliases, variables, subjects and base expressions are numbered, each with a number of its own
/// in the whole query.
#[derive(Clone, Copy, Debug, PartialEq, Eq)]
pub enum Root {
    /// All objects of a type.
    Extent(TypeId),
    /// A name that `with` defines.
    Alias(u32),
    /// The variable of a `for`.
    Var(u32),
    /// The subject of a statement or of a shape.
    Subject(u32),
    /// An expression that is not a path.
    Base(u32),
}

/// A step of a path. The phase of types turns `Dot` into `Prop`, `Link` or `Comp`, and `BackDot` into `Back`.
#[derive(Drop)]
pub enum Step {
    /// `.name`, a pointer that is not looked up yet.
    Dot(Text),
    /// `.<name[is T]`, a link that is not looked up yet.
    BackDot(Text, TypeId),
    /// To the values of a stored property.
    Prop(PtrId),
    /// To the targets of a stored link.
    Link(PtrId),
    /// To the values of a computed pointer.
    Comp(PtrId),
    /// To the objects of a type whose link leads here.
    Back(PtrId, TypeId),
    /// `[is T]`
    Is(TypeId),
    /// `@name`, a property of the link that the step before it takes.
    LinkProp(Text),
}

/// A root and the steps from it.
#[derive(Drop)]
pub struct Path {
    pub root: Root,
    pub steps: List<Step>,
}

impl Root {
    /// Whether it is that root.
    pub fn same(self, other: Root) -> bool
        ensures { result ≡ root_eq self other }
    {
        match (self, other) {
            (Root::Extent(a), Root::Extent(b)) => a.0 == b.0,
            (Root::Alias(a), Root::Alias(b)) => a == b,
            (Root::Var(a), Root::Var(b)) => a == b,
            (Root::Subject(a), Root::Subject(b)) => a == b,
            (Root::Base(a), Root::Base(b)) => a == b,
            _ => false,
        }
    }
}

impl Step {
    /// The same step, in memory of its own.
    pub fn copied(&self, alloc: Global) -> Result<Step, AllocError>
        ensures { IfOk result (λ s. s ≡ self.now) }
    {
        match self {
            Step::Dot(name) => Ok(Step::Dot(name.copied(alloc)?)),
            Step::BackDot(name, ty) => Ok(Step::BackDot(name.copied(alloc)?, *ty)),
            Step::Prop(pointer) => Ok(Step::Prop(*pointer)),
            Step::Link(pointer) => Ok(Step::Link(*pointer)),
            Step::Comp(pointer) => Ok(Step::Comp(*pointer)),
            Step::Back(pointer, ty) => Ok(Step::Back(*pointer, *ty)),
            Step::Is(ty) => Ok(Step::Is(*ty)),
            Step::LinkProp(name) => Ok(Step::LinkProp(name.copied(alloc)?)),
        }
    }

    /// Whether it is that step.
    pub fn same(&self, other: &Step) -> bool
        ensures { result ≡ step_eq self.now other.now }
    {
        match (self, other) {
            (Step::Dot(a), Step::Dot(b)) | (Step::LinkProp(a), Step::LinkProp(b)) => a == b,
            (Step::BackDot(a, s), Step::BackDot(b, t)) => a == b && s.0 == t.0,
            (Step::Prop(a), Step::Prop(b)) => a.0 == b.0,
            (Step::Link(a), Step::Link(b)) => a.0 == b.0,
            (Step::Comp(a), Step::Comp(b)) => a.0 == b.0,
            (Step::Back(a, s), Step::Back(b, t)) => a.0 == b.0 && s.0 == t.0,
            (Step::Is(a), Step::Is(b)) => a.0 == b.0,
            _ => false,
        }
    }
}

/// The same steps, in memory of their own.
pub fn copied_steps(alloc: Global, steps: &[Step]) -> Result<List<Step>, AllocError>
    ensures { IfOk result (λ ss. ss ≡ steps.now) }
{
    let mut copies = List::new(alloc);
    for step in steps {
        copies.push(step.copied(alloc)?)?;
    }
    Ok(copies)
}

/// How many steps the two begin with alike.
pub fn alike(left: &[Step], right: &[Step]) -> usize
    ensures count { result ≡ alike_of left.now right.now }
    ensures within { result ≤ length left.now }
{
    let mut rest = right;
    let mut count = 0;
    for step in left {
        match rest {
            [first, more @ ..] if step.same(first) => {
                rest = more;
                count += 1;
            }
            _ => return count,
        }
    }
    count
}

/// Whether they are the same steps.
pub fn same_steps(left: &[Step], right: &[Step]) -> bool
    ensures { result ≡ steps_eq left.now right.now }
{
    let mut rest = right;
    for step in left {
        match rest {
            [first, more @ ..] if step.same(first) => rest = more,
            _ => return false,
        }
    }
    rest.is_empty()
}

impl Path {
    /// The same path, in memory of its own.
    pub fn copied(&self, alloc: Global) -> Result<Path, AllocError>
        ensures { IfOk result (λ p. p ≡ self.now) }
    {
        Ok(Path {
            root: self.root,
            steps: copied_steps(alloc, self.steps.as_slice())?,
        })
    }

    /// Whether it is that path.
    pub fn same(&self, other: &Path) -> bool
        ensures { result ≡ path_eq self.now other.now }
    {
        self.root.same(other.root) && same_steps(self.steps.as_slice(), other.steps.as_slice())
    }

    /// The root and the first `count` steps, or all where there are fewer.
    pub fn prefix(&self, alloc: Global, count: usize) -> Result<Path, AllocError>
        ensures { IfOk result (λ p. p ≡ prefix_of count self.now) }
    {
        let steps = self.steps.as_slice();
        let end = count.min(steps.len());
        Ok(Path {
            root: self.root,
            steps: copied_steps(alloc, &steps[..end])?,
        })
    }

    /// Whether the other path goes on from this one, or is this one.
    pub fn begins(&self, other: &Path) -> bool
        ensures { result ≡ begins_of self.now other.now }
    {
        let steps = self.steps.as_slice();
        let longer = other.steps.as_slice();
        let end = steps.len().min(longer.len());
        self.root.same(other.root) && same_steps(steps, &longer[..end])
    }
}

/// Two paths are the same exactly where they are equal.
pub fn paths_are_equal()
    ensures { PathsAreEqual }
{}
