//! Why objects are refused.

/// A rule on data.
#[derive(Clone, Copy, Debug, PartialEq, Eq)]
pub enum Rule {
    /// The text is JSON.
    X1,
    /// It is an object with the format's number and an array of objects, and nothing more.
    X2,
    /// An id is a uuid: an object's own, and that of a target.
    X3,
    /// No id stands twice.
    X4,
    /// An object's type is known and not abstract.
    X5,
    /// A key is a stored pointer, or a property of the link.
    X6,
    /// A value is of the pointer's type, and the values of a multi pointer stand in an array.
    X7,
    /// A required pointer is not empty.
    X8,
    /// No array stands for a single pointer.
    X9,
    /// A target is there and of the link's type.
    X10,
    /// No target stands twice in one link.
    X11,
    /// A value meets the constraints.
    X12,
    /// No value of an exclusive pointer stands twice.
    X13,
}

/// A rule that fails, and where. Objects are numbered from 0 in the order of the document.
#[derive(Clone, Copy, Debug, PartialEq, Eq)]
pub struct Broken {
    pub rule: Rule,
    /// The object that is told. None where the text as a whole fails.
    pub object: Option<u32>,
    /// The earlier object with the same id or value, or the object that is a target twice.
    pub other: Option<u32>,
}

/// Why objects are refused, if not for want of memory.
#[derive(Clone, Copy, Debug, PartialEq, Eq)]
pub enum DataRefusal {
    Rule(Broken),
    Memory,
}
