//! What each phase hands to the next.

use crate::card::Card;
use crate::path::TypeId;
use crate::tree::Scope;
use crate::ty::Ty;

/// A tree whose names are known.
#[derive(Drop)]
pub struct Core {
    /// Of an expression of a schema the type of its subject, which is `Root::Subject(0)`. A query has none.
    pub subject: Option<TypeId>,
    /// Of a query the scope round its outermost statement, of a schema's expression that expression.
    pub root: Scope,
}

/// A tree with its types.
#[derive(Drop)]
pub struct Typed {
    pub core: Core,
    pub ty: Ty,
}

/// A tree with its types and its cardinalities.
#[derive(Drop)]
pub struct Carded {
    pub typed: Typed,
    pub card: Card,
}

/// A tree and whether its objects are cut to those that the rules of their types show.
#[derive(Drop)]
pub struct Guarded {
    pub carded: Carded,
    pub guarded: bool,
}
