//! What is bound where an expression is evaluated.
ghost use Rattle.std.specs.Prelude.{◌≡◌, ◌∷◌, IfOk};
ghost use Rattle.std.specs.Option.{option_copied};
ghost use Rattle.eql_sem.specs.Bindings.{name_eq, paths_of, pick as pick_in, given as given_in, listed as listed_in};

use crate::item::all_values;
use core_ir::Path;
use ev_value::{Item, List, Val, copied_values};
use std::alloc::{AllocError, Global};

/// What has a value in a scope: a prefix of paths, or a name that `with` defines. A list of names has the newest first.
#[derive(Drop)]
pub enum Name {
    Prefix(Path),
    /// The alias with this number, whose list is a root.
    Alias(u32),
}

/// What a name stands for.
#[derive(Drop)]
pub enum Bound {
    /// A prefix that has no value here.
    Nothing,
    One(Val),
    /// The list of an alias.
    Listed(List<Val>),
}

impl Name {
    /// The same name, in memory of its own.
    pub fn copied(&self, alloc: Global) -> Result<Name, AllocError>
        ensures { IfOk result (λ n. n ≡ self.now) }
    {
        match self {
            Name::Prefix(path) => Ok(Name::Prefix(path.copied(alloc)?)),
            Name::Alias(number) => Ok(Name::Alias(*number)),
        }
    }

    /// Whether it is that name.
    pub fn same(&self, other: &Name) -> bool
        ensures { result ≡ name_eq self.now other.now }
    {
        match (self, other) {
            (Name::Prefix(path), Name::Prefix(another)) => path.same(another),
            (Name::Alias(number), Name::Alias(another)) => number == another,
            _ => false,
        }
    }
}

impl Bound {
    /// The same thing, in memory of its own.
    pub fn copied(&self, alloc: Global) -> Result<Bound, AllocError>
        ensures { IfOk result (λ b. b ≡ self.now) }
    {
        match self {
            Bound::Nothing => Ok(Bound::Nothing),
            Bound::One(value) => Ok(Bound::One(value.copied(alloc)?)),
            Bound::Listed(values) => Ok(Bound::Listed(copied_values(alloc, values.as_slice())?)),
        }
    }
}

/// The names in scope behind a new one.
pub fn with_name(alloc: Global, name: Name, names: &[Name]) -> Result<List<Name>, AllocError>
    ensures { IfOk result (λ ns. ns ≡ name ∷ names.now) }
{
    let mut all = List::new(alloc);
    all.push(name)?;
    for other in names {
        all.push(other.copied(alloc)?)?;
    }
    Ok(all)
}

/// What the names stand for, behind what a new one stands for.
pub fn with_bound(alloc: Global, bound: Bound, bounds: &[Bound]) -> Result<List<Bound>, AllocError>
    ensures { IfOk result (λ bs. bs ≡ bound ∷ bounds.now) }
{
    let mut all = List::new(alloc);
    all.push(bound)?;
    for other in bounds {
        all.push(other.copied(alloc)?)?;
    }
    Ok(all)
}

/// What names stand for, in memory of its own.
pub fn copied_bounds(alloc: Global, bounds: &[Bound]) -> Result<List<Bound>, AllocError>
    ensures { IfOk result (λ bs. bs ≡ bounds.now) }
{
    let mut all = List::new(alloc);
    for bound in bounds {
        all.push(bound.copied(alloc)?)?;
    }
    Ok(all)
}

/// The prefixes among names.
pub fn paths(alloc: Global, names: &[Name]) -> Result<List<Path>, AllocError>
    ensures { IfOk result (λ ps. ps ≡ paths_of names.now) }
{
    let mut all = List::new(alloc);
    for name in names {
        if let Name::Prefix(path) = name {
            all.push(path.copied(alloc)?)?;
        }
    }
    Ok(all)
}

/// What a name stands for, if it is in scope.
pub fn pick<'a>(names: &[Name], bounds: &'a [Bound], name: &Name) -> Option<&'a Bound>
    ensures { option_copied result ≡ pick_in names.now bounds.now name.now }
{
    match names {
        [] => None,
        [first, names @ ..] => match bounds {
            [] => None,
            [bound, bounds @ ..] => {
                if first.same(name) {
                    Some(bound)
                } else {
                    pick(names, bounds, name)
                }
            }
        },
    }
}

/// The value of a prefix as a list: none where it is not bound or stands for nothing.
pub fn given(alloc: Global, bound: &Option<&Bound>) -> Result<List<Item>, AllocError>
    ensures { IfOk result (λ xs. xs ≡ given_in (option_copied bound.now)) }
{
    let mut all = List::new(alloc);
    if let Some(Bound::One(value)) = bound {
        all.push(Item::Value(value.copied(alloc)?))?;
    }
    Ok(all)
}

/// The list of an alias: none where it is not in scope.
pub fn listed(alloc: Global, bound: &Option<&Bound>) -> Result<List<Item>, AllocError>
    ensures { IfOk result (λ xs. xs ≡ listed_in (option_copied bound.now)) }
{
    match bound {
        Some(Bound::Listed(values)) => all_values(alloc, values.as_slice()),
        _ => Ok(List::new(alloc)),
    }
}
