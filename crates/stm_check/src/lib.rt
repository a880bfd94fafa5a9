//! Typing: the check that makes a parsed block a typed one or reports its first fault, and typed blocks.
//!
//! `check_block` has the check of a whole block, and `fault` what it reports; `typed` has the blocks that it returns. The check goes by
//! `actions` and `expressions`: `checker` is what they look names up in, with the locals of `scope`, `types` judges types, and `uses` notes
//! the variables that a block names. `laws` says what typing is worth.
//!
//! stm_terms defines typing (`specs/Typing`). What a reader has to believe here is in these modules of specs/: `TypedBlock` has what
//! callers see of a block, `Scopes` which local a name means, `CheckFunction` what the check finds, with the order of the faults,
//! `CheckedBlock` which block it returns, and `Resolving` what a parsed tree is without its names. `Laws` ties the check and the resolving
//! to typing, and typing to what a block does: a well typed block is never stuck, and its verdict fits the store.
#![tactic(auto)]

mod actions;
pub mod check_block;
pub mod checker;
mod expressions;
pub mod fault;
pub mod laws;
pub mod scope;
pub mod typed;
pub mod types;
pub mod uses;

pub use check_block::check;
pub use fault::TypeFault;
pub use typed::{SharedBlock, Typed};
