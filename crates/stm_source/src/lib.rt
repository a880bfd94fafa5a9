//! Blocks and variables from their texts, as the commands of a run, the lines of scripts and the lines of histories take them.
//!
//! `block` compiles the text of a block over names, and `block_cache` keeps blocks by their texts. `declaring` declares the variable
//! of a text, and `refusal` says why either is refused. `naming` prints the name of a variable. `laws` says that the grammar alone
//! decides what a text is read as.
//!
//! What a reader has to believe is in these modules of specs/: `CompiledBlock` has the block of a text, `DeclaredVariable` the
//! variable that a text declares, each with the first reason why it is refused; `OutOfMemory` which refusals say that memory ran
//! out, `NameText` how a name is printed, and `Readings` that one answer is right by the grammar.
#![tactic(auto)]

pub mod block;
mod block_cache;
pub mod declaring;
pub mod laws;
pub mod naming;
pub mod refusal;

pub use block::block_of;
pub use block_cache::BlockCache;
pub use refusal::Refusal;
