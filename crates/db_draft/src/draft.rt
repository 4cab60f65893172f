//! What a document writes of an object, as plain data: no deeper than an object with values can be.

use ev_value::{List, Text};

/// A value without parts.
#[derive(Drop)]
pub enum Plain {
    Null,
    Bool(bool),
    Int(i64),
    Str(Text),
    /// A number that is no `i64`, or an array or an object where neither may stand.
    Other,
}

/// A value under a key.
#[derive(Drop)]
pub struct Field {
    pub name: Text,
    pub value: Plain,
}

/// What may stand in an array.
#[derive(Drop)]
pub enum Element {
    Plain(Plain),
    /// A target with its link's properties, each under its key.
    Object(List<Field>),
}

/// What may stand for a pointer.
#[derive(Drop)]
pub enum Draft {
    One(Element),
    Array(List<Element>),
}

/// What stands for a pointer, under the pointer's name.
#[derive(Drop)]
pub struct Member {
    pub name: Text,
    pub value: Draft,
}

/// An object: what names its type, and what stands under the names of pointers, `id` among them.
#[derive(Drop)]
pub struct ObjectDraft {
    pub ty: Option<Draft>,
    pub members: List<Member>,
}
