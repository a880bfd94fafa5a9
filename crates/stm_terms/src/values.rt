//! Values, references and faults.

/// A variable: one of the store, or one that the block has made.
///
/// `Old` counts the store's variables from 0; `New` counts those of the block, in the order in which they were made.
#[derive(Clone, Copy, PartialEq, Eq, Debug)]
pub enum Ref {
    Old(u32),
    New(u32),
}

/// What a variable holds and an expression gives.
#[derive(Clone, Copy, PartialEq, Eq, Debug)]
pub enum Value {
    Int(i64),
    Bool(bool),
    Unit,
    Var(Ref),
}

/// How a block ends that throws: by `throw`, with its number, or by a sum, difference or product out of range.
#[derive(Clone, Copy, PartialEq, Eq, Debug)]
pub enum Fault {
    Thrown(i64),
    Overflow,
}
