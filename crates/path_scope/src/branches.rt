//! Where the paths of a scope part: how they go on from each of their beginnings.
ghost use Rattle.std.specs.Prelude.{◌≡◌, OnOk, IfOk};
ghost use Rattle.path_scope.specs.Branches.{met as met_of, part, behind, nothing as nothing_known, with_path as with_path_of, seeing, seeing_at, seeing_direct, seeing_all, node_at, Knows};

use crate::beginning::Beginning;
use core_ir::{Direct, Occurrence, Path, Step};
use std::alloc::{AllocError, Global};
use std::collections::HashMap;
use std::marker::Model;

/// A step in its path. Contracts see the step.
#[derive(Drop)]
pub struct Next<'a> {
    step: &'a Step,
}

impl<'a> Model for Next<'a> {
    ghost use Rattle.core_ir.specs.declared.path.Step.{Step};

    ghost Value = { Step };

    ghost view = { λ n. n.step.now };
}

/// How the paths that begin with a prefix go on from it.
#[derive(Drop)]
pub enum Onward<'a> {
    /// No path begins with it.
    Nowhere,
    /// All take one step.
    By(Next<'a>),
    /// One ends there, or two take different steps.
    Apart,
}

/// Where a path is seen.
#[derive(Clone, Copy)]
pub enum Seen {
    /// As a direct occurrence, which is optional or not.
    Directly(bool),
    /// Among all occurrences.
    Anywhere,
}

/// What is known of a prefix.
#[derive(Drop)]
pub struct Node<'a> {
    /// How the direct occurrences go on from it.
    pub direct: Onward<'a>,
    /// How all occurrences go on from it.
    pub any: Onward<'a>,
    /// Whether each direct occurrence that begins with it is optional.
    pub optional: bool,
}

/// What is known of each beginning of the paths that were seen.
#[derive(Drop)]
pub struct Branches<'a> {
    nodes: HashMap<Beginning<'a>, Node<'a>>,
}

// How a path goes on behind its first steps.
fn way_behind(path: &Path, count: usize) -> Onward<'_>
    ensures { result ≡ behind count path.now }
{
    match path.steps.as_slice().get(count) {
        Some(step) => Onward::By(Next { step }),
        None => Onward::Apart,
    }
}

impl<'a> Onward<'a> {
    fn again(&self) -> Onward<'a>
        ensures { result ≡ self.now }
    {
        match self {
            Onward::Nowhere => Onward::Nowhere,
            Onward::By(next) => Onward::By(Next { step: next.step }),
            Onward::Apart => Onward::Apart,
        }
    }

    // How the paths go on, and one more that goes on like this.
    fn met(&self, more: Onward<'a>) -> Onward<'a>
        ensures { result ≡ met_of self.now more.entry }
    {
        match (self, &more) {
            (Onward::Nowhere, _) => more,
            (Onward::By(_), Onward::Nowhere) => self.again(),
            (Onward::By(first), Onward::By(second)) if first.step.same(second.step) => self.again(),
            _ => Onward::Apart,
        }
    }

    // Whether of these paths and those two part at once.
    fn parts_from(&self, other: &Onward) -> bool
        ensures { result ≡ part self.now other.now }
    {
        match (self, other) {
            (Onward::Nowhere, _) | (_, Onward::Nowhere) => false,
            (Onward::By(first), Onward::By(second)) => !first.step.same(second.step),
            _ => true,
        }
    }
}

impl<'a> Node<'a> {
    fn nothing() -> Node<'a>
        ensures { result ≡ nothing_known }
    {
        Node {
            direct: Onward::Nowhere,
            any: Onward::Nowhere,
            optional: true,
        }
    }

    // What is known once one more path goes on like this.
    fn with_path(&self, kind: Seen, more: Onward<'a>) -> Node<'a>
        ensures { result ≡ with_path_of kind more.entry self.now }
    {
        match kind {
            Seen::Directly(optional) => Node {
                direct: self.direct.met(more),
                any: self.any.again(),
                optional: self.optional && optional,
            },
            Seen::Anywhere => Node {
                direct: self.direct.again(),
                any: self.any.met(more),
                optional: self.optional,
            },
        }
    }
}

impl<'a> Branches<'a> {
    /// Nothing was seen.
    pub fn new(alloc: Global) -> Branches<'a>
        ensures { (p : _) → node_at result p ≡ nothing_known }
    {
        Branches {
            nodes: HashMap::new(alloc),
        }
    }

    // What is known of a prefix, and one more path goes on from it like this.
    fn with_path_at(&self, prefix: &Beginning, kind: Seen, more: Onward<'a>) -> Node<'a>
        ensures { result ≡ with_path_of kind more.entry (node_at self.now prefix.now) }
    {
        match self.nodes.get(prefix) {
            Some(node) => node.with_path(kind, more),
            None => Node::nothing().with_path(kind, more),
        }
    }

    // Sees a path's beginning of so many steps.
    fn see_at(&mut self, path: &'a Path, count: usize, kind: Seen) -> Result<(), AllocError>
        ensures { OnOk result ((p : _) → node_at self.new p ≡ seeing_at count kind path.now p (node_at self.old p)) }
    {
        let key = Beginning::new(path, count);
        let more = way_behind(path, count);
        let known = self.with_path_at(&key, kind, more);
        self.nodes.insert(key, known)?;
        Ok(())
    }

    // Sees all that a path begins with, its root alone first.
    fn see(&mut self, path: &'a Path, kind: Seen) -> Result<(), AllocError>
        ensures { OnOk result ((p : _) → node_at self.new p ≡ seeing kind path.now p (node_at self.old p)) }
    {
        self.see_at(path, 0, kind)?;
        for count in 0..path.steps.len() {
            self.see_at(path, count + 1, kind)?;
        }
        Ok(())
    }

    fn see_direct(&mut self, direct: &'a [Direct]) -> Result<(), AllocError>
        ensures { OnOk result ((p : _) → node_at self.new p ≡ seeing_direct direct.now p (node_at self.old p)) }
    {
        for d in direct {
            self.see(&d.occurrence.path, Seen::Directly(d.optional))?;
        }
        Ok(())
    }

    fn see_all(&mut self, all: &'a [Occurrence]) -> Result<(), AllocError>
        ensures { OnOk result ((p : _) → node_at self.new p ≡ seeing_all all.now p (node_at self.old p)) }
    {
        for occurrence in all {
            self.see(&occurrence.path, Seen::Anywhere)?;
        }
        Ok(())
    }

    /// What is known from the direct occurrences and the occurrences of a scope.
    pub fn of(
        alloc: Global,
        direct: &'a [Direct],
        all: &'a [Occurrence],
    ) -> Result<Branches<'a>, AllocError>
        ensures { IfOk result (λ b. Knows b direct.now all.now) }
    {
        let mut branches = Branches::new(alloc);
        branches.see_direct(direct)?;
        branches.see_all(all)?;
        Ok(branches)
    }

    /// Whether a direct occurrence and an occurrence part at a prefix.
    pub fn part_at(&self, prefix: &Beginning) -> bool
        ensures { result ≡ part (node_at self.now prefix.now).direct (node_at self.now prefix.now).any }
    {
        match self.nodes.get(prefix) {
            Some(node) => node.direct.parts_from(&node.any),
            None => false,
        }
    }

    /// Whether each direct occurrence that begins with a prefix is optional.
    pub fn is_optional_at(&self, prefix: &Beginning) -> bool
        ensures { result ≡ (node_at self.now prefix.now).optional }
    {
        match self.nodes.get(prefix) {
            Some(node) => node.optional,
            None => true,
        }
    }
}
