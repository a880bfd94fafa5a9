//! Expressions.

use crate::values::Value;

/// An operator on two values.
#[derive(Clone, Copy, PartialEq, Eq, Debug)]
pub enum Op {
    Mul,
    Add,
    Sub,
    Eq,
    Lt,
    Le,
    And,
    Or,
}

/// An expression. Locals are numbered from 0, the outermost first; `Global` is a reference to a variable of the store.
#[derive(Drop)]
pub enum Expr {
    Lit(Value),
    Local(u32),
    Global(u32),
    Bin(Op, Box<Expr>, Box<Expr>),
}
