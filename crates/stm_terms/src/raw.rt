//! Trees as they are parsed, with names and places.

use crate::expr::Op;

/// A part of a text, by the offsets of its first byte and of the one after its last.
#[derive(Clone, Copy)]
pub struct Span {
    pub start: usize,
    pub end: usize,
}

/// An expression with the place, in bytes from 0, where each part begins. A name is its span in the text.
#[derive(Drop)]
pub enum RawExpr {
    Int(i64, usize),
    Bool(bool, usize),
    Unit(usize),
    Name(Span),
    Bin(Op, Box<RawExpr>, Box<RawExpr>),
}

/// An action. A part that may be at fault has its place, and a name is its span in the text.
#[derive(Drop)]
pub enum RawAction {
    Return(RawExpr),
    Read(RawExpr),
    Write(RawExpr, RawExpr),
    Make(RawExpr),
    Retry,
    Throw(RawExpr),
    /// A choice, with the place of its second branch.
    If {
        condition: RawExpr,
        first: Box<RawAction>,
        at: usize,
        second: Box<RawAction>,
    },
    /// Two branches, with the place of the second.
    OrElse {
        first: Box<RawAction>,
        at: usize,
        second: Box<RawAction>,
    },
    /// A name, what is bound to it, with its place, and the rest.
    Bind {
        name: Span,
        at: usize,
        bound: Box<RawAction>,
        rest: Box<RawAction>,
    },
    /// A name, its value, and the rest.
    Let {
        name: Span,
        value: RawExpr,
        rest: Box<RawAction>,
    },
    Seq(Box<RawAction>, Box<RawAction>),
    /// An action, a name, and the handler, with its place, which sees the number that was thrown under the name.
    Catch {
        action: Box<RawAction>,
        name: Span,
        at: usize,
        handler: Box<RawAction>,
    },
}
