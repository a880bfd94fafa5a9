//! The language of atomic blocks: types, values, trees and verdicts, the value of an expression, and printed texts.
//!
//! `kinds` has the types, `values` the values, `expr` and `action` the trees, and `verdicts` with `lists` what a block comes to; `same` and
//! `same_verdict` compare trees and verdicts. `raw` has the trees as parsed, and `raw_block` the parsed block, which the parser makes and
//! the check takes. `eval` evaluates expressions, `naming` says which words are names, `limits` how many of each there may be, and `text`
//! prints types, values and verdicts.
//!
//! The meaning of a block, which everything above is proved against, is in `specs/`: `Ast` (the trees that the
//! definitions speak of), `Value` (the value of an expression), `Changes` (what a block sees and has changed) and `Semantics`
//! (what an action does), `ReadSet` (what it reads), `Verdict` (what a block does on a store) and `Typing` (the types of
//! expressions and actions, and when a block's view is well typed). Beside it stand `ParsedAst` (the trees that a text writes,
//! with names and places), `ParsedBlock` (what callers see of a parsed block: such a tree with its text), `Names` (which words
//! are names), `Limits` (how long, how deep and how many), `Texts` (what is printed of types, values and verdicts) and `UnlessNoMemory`
//! (when a call, of any crate, answers as its definition does).
#![tactic(auto)]

pub mod action;
pub mod eval;
pub mod expr;
pub mod kinds;
pub mod limits;
pub mod lists;
pub mod naming;
pub mod raw;
pub mod raw_block;
pub mod same;
pub mod same_verdict;
pub mod text;
pub mod values;
pub mod verdicts;

pub use action::Action;
pub use eval::eval_expr;
pub use expr::{Expr, Op};
pub use kinds::{Base, Ty};
pub use lists::{News, PlainList, Writes};
pub use naming::{LONGEST_NAME, is_name};
pub use raw::{RawAction, RawExpr, Span};
pub use raw_block::Raw;
pub use std::alloc::AllocError as NoMemory;
pub use text::{write_number, write_type, write_value, write_verdict};
pub use values::{Fault, Ref, Value};
pub use verdicts::Verdict;
