//! What naming makes of aliases and of clauses.

use core_ir::{Alias, Element, Expr, Key, Scope};
use ev_names::Names;
use ev_value::{Boxed, List};

/// The aliases of one `with`, as far as they are defined, and their names in the same order.
#[derive(Drop)]
pub struct Defined {
    pub names: Names,
    pub aliases: List<Alias>,
}

/// The clauses of a statement.
#[derive(Drop)]
pub struct Clauses {
    pub filter: Option<Boxed<Scope>>,
    pub keys: List<Key>,
    pub offset: Option<Boxed<Scope>>,
    pub limit: Option<Boxed<Scope>>,
}

/// The subject and the clauses of a select.
#[derive(Drop)]
pub struct Rows {
    pub subject: Expr,
    pub number: u32,
    pub clauses: Clauses,
}

/// The elements of a shape so far, and their keys in the same order.
#[derive(Drop)]
pub struct Elements {
    pub keys: Names,
    pub list: List<Element>,
}
