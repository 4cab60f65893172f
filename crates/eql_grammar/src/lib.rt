//! The grammar of EdgeQL's queries: which tokens spell which tree, and how many of them are read before a text is refused.
//! The grammar is `specs/Grammar`, and `specs/Readers` is how it is read from the left with one token to look at.
//! Takes tokens as lists; gives trees with their heights. It holds no code but the types of what is half read (`Grown..`).
//! Contract: both are one, production by production, within the limits on open parts and height (lemmas in `proofs/`);
//! a text spells at most one query.
//! Seen by `eql_build`, `eql_cursor`, `eql_parse`, `sdl_grammar`, `sdl_parse`; by `edge_run`.
#![tactic(auto)]

mod class;
mod grown;
mod limits;

pub use class::Class;
pub use grown::{
    Asked, Body, Bunch, Direction, Elements, Frame, GrownAlias, GrownClauses, GrownElement,
    GrownExpr, GrownKey, GrownShape, GrownStatement, Head, Heads, Infix, Leveled, Nest, Opening,
    Placement, Prefix, Qualified, With,
};
pub use limits::{MAX_HEIGHT, MAX_OPEN};
