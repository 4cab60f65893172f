//! The tree: one form for each way to write an expression.
//!
//! Each node carries the first byte of its text. A part whose paths are bound for themselves is a `Scope`. What a
//! later phase finds out stands in a slot, empty until then.

ghost use Rattle.std.specs.Prelude.{◌≡◌, IfOk};

use crate::card::Card;
use crate::path::Path;
use crate::ty::Ty;
use ev_list::{Absent, Param};
use ev_value::{Boxed, List, Op, ScalarTy, Text, Val};
use std::alloc::{AllocError, Global};

/// A part of the text whose paths are bound for themselves: an argument that is a set, a condition, a key, an element,
/// a branch, a definition, a base.
#[derive(Drop)]
#[cycle(core)]
pub struct Scope {
    /// The first byte.
    pub start: u32,
    /// The slot of the phase of types.
    pub ty: Option<Ty>,
    pub body: Boxed<Expr>,
}

/// A path where it stands in the text.
#[derive(Drop)]
pub struct Occurrence {
    /// The root's name as written, without a module; `_` for a subject or a base.
    pub name: Text,
    pub path: Path,
    /// The first bytes of the steps that stand at this place, which are the last ones of the path.
    pub places: List<u32>,
}

impl Occurrence {
    /// The same occurrence, in memory of its own.
    pub fn copied(&self, alloc: Global) -> Result<Occurrence, AllocError>
        ensures { IfOk result (λ o. o ≡ self.now) }
    {
        let name = self.name.copied(alloc)?;
        let path = self.path.copied(alloc)?;
        let places = List::from_slice(alloc, self.places.as_slice())?;
        Ok(Occurrence { name, path, places })
    }
}

/// A path of a scope that no inner scope contains.
#[derive(Drop)]
pub struct Direct {
    pub occurrence: Occurrence,
    /// Whether it stands in an argument of `??`, `?=` or `?!=` that may be empty.
    pub optional: bool,
}

/// An expression.
#[derive(Drop)]
#[cycle(core)]
pub enum Expr {
    Literal(u32, Val),
    Param(u32, Param),
    /// `global name`
    Global(u32, Text),
    Path(u32, Occurrence),
    /// A path from an expression that is none: `(select User).name`.
    OnBase(u32, Scope, Occurrence),
    /// An operator or a plain function of its operands, in the order of the text.
    Operation(u32, Op, List<Expr>),
    /// The prefix `+`.
    Plus(u32, Boxed<Expr>),
    Cast(u32, ScalarTy, Boxed<Expr>),
    Tuple(u32, List<Expr>),
    /// `?=`, or `?!=` where it is negated.
    OptionalEqual(u32, bool, Boxed<Expr>, Boxed<Expr>),
    /// `in`, or `not in` where it is negated.
    In(u32, bool, Boxed<Expr>, Scope),
    /// A function of a whole set.
    OfSet(u32, SetFunction, Scope),
    /// `first union second`
    Union(u32, Scope, Scope),
    /// `{first, second, ..}`
    Set(u32, List<Scope>),
    /// `first ?? second`
    Coalesce(u32, Boxed<Expr>, Scope),
    If(u32, Conditional),
    /// An expression with a shape, the slot of the phase of types for it, and the number of the shape's subject.
    Shaped(u32, Boxed<Expr>, Option<Ty>, u32, List<Element>),
    /// A `select` and the aliases before it.
    Select(u32, List<Alias>, Select),
    /// `for variable in iterator union body`, and the aliases before it.
    For(u32, List<Alias>, u32, Scope, Scope),
    /// `[first, second, ..]`; with the type of its elements where they are written, as in `<array<str>>[]`.
    Array(u32, Option<ScalarTy>, List<Expr>),
    /// A cast to an array of a scalar type, which only types need: it changes no item.
    ArrayCast(u32, ScalarTy, Boxed<Expr>),
    /// `array_unpack`: the elements of each array in turn.
    Unpack(u32, Boxed<Expr>),
    /// `<T>{}`: no items of a type.
    EmptySet(u32, Ty),
    /// What types refuse once its parts have theirs: the rule that fails, and the byte where it does.
    Unfit(u32, Misfit, u32, List<Expr>),
}

/// What no type can be given to, though all its names are known.
#[derive(Clone, Copy, Debug, PartialEq, Eq)]
pub enum Misfit {
    /// A function of a whole set with no argument or several.
    ArgumentCount,
    /// A cast or a parameter of an object type.
    ObjectCast,
    /// `[is T]` with a scalar type.
    ScalarNarrowing,
    /// `.<l[is T]` with a scalar type.
    ScalarBackLink,
}

/// A function whose argument is a whole set.
#[derive(Clone, Copy, Debug, PartialEq, Eq)]
pub enum SetFunction {
    Count,
    Sum,
    Min,
    Max,
    Any,
    All,
    Exists,
    Distinct,
    AssertSingle,
    AssertExists,
    AssertDistinct,
    /// One array of all items.
    ArrayAgg,
}

/// A choice between two branches.
#[derive(Drop)]
#[cycle(core)]
pub struct Conditional {
    pub order: Order,
    pub condition: Boxed<Expr>,
    pub value: Scope,
    pub other: Scope,
}

/// The order in which the parts of a choice stand in the text.
#[derive(Clone, Copy, Debug, PartialEq, Eq)]
pub enum Order {
    /// `value if condition else other`
    ValueFirst,
    /// `if condition then value else other`
    ConditionFirst,
}

/// `name := value` before a statement.
#[derive(Drop)]
#[cycle(core)]
pub struct Alias {
    pub number: u32,
    pub value: Scope,
}

/// A subject and the clauses of its statement.
#[derive(Drop)]
#[cycle(core)]
pub struct Select {
    pub subject: Boxed<Expr>,
    /// The slot of the phase of types for the subject.
    pub ty: Option<Ty>,
    /// The number of the subject's root.
    pub number: u32,
    pub filter: Option<Boxed<Scope>>,
    pub keys: List<Key>,
    pub offset: Option<Boxed<Scope>>,
    pub limit: Option<Boxed<Scope>>,
}

/// A key of an order, with where it puts what is empty.
#[derive(Drop)]
#[cycle(core)]
pub enum Key {
    Ascending(Absent, Scope),
    Descending(Absent, Scope),
}

/// An element of a shape.
#[derive(Drop)]
#[cycle(core)]
pub struct Element {
    /// The first byte, of a word before the name if one stands there.
    pub start: u32,
    /// The key in the answer; of a link property it begins with `@`.
    pub name: Text,
    pub need: Option<Need>,
    pub width: Option<Width>,
    /// The slot of the phase of types.
    pub ty: Option<Ty>,
    /// The slot of the phase of cardinalities.
    pub card: Option<Card>,
    pub value: Scope,
}

/// `required` or `optional`.
#[derive(Clone, Copy, Debug, PartialEq, Eq)]
pub enum Need {
    Required,
    Optional,
}

/// `single` or `multi`.
#[derive(Clone, Copy, Debug, PartialEq, Eq)]
pub enum Width {
    Single,
    Multi,
}
