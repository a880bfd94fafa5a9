//! The block of a text in one pass: from the tokens to the checked tree, without the tree of the parser.
//!
//! A text that is refused for any reason, a limit, or lack of memory gives none; the parser and the check then say why. `block` is the
//! entry. `expressions` and `actions` are the descent, which goes as the one of stm_parse and checks each part as stm_check does.
//! `numbers` and `names` have what both need: the numbers of literals, and the locals.
//!
//! What a reader has to believe is in `specs/OnePass`: what was read is what the grammar reads, and what was made of it is what
//! the check makes of it.
#![tactic(auto)]

mod actions;
pub mod block;
mod expressions;
mod names;
mod numbers;

pub use block::block_in_one_pass;
