//! Types of values.

/// A type without `TVar`.
#[derive(Clone, Copy, PartialEq, Eq, Debug)]
pub enum Base {
    Int,
    Bool,
    Unit,
}

/// A type: `refs` times `TVar` around the base.
///
/// A variable holds values of a type with at most `MOST_REFS`, so the type of a reference has at most one more.
#[derive(Clone, Copy, PartialEq, Eq, Debug)]
pub struct Ty {
    pub base: Base,
    pub refs: u8,
}

impl Ty {
    /// The most `TVar` of the type of what a variable holds.
    pub const MOST_REFS: u8 = 8;
}
