//! The transitions of "Composable Memory Transactions", and that they do what `run` says.
//!
//! The laws are in `laws`. What a reader has to believe is in `specs/Transitions` and `specs/Laws`, and below in `stm_terms`.
#![tactic(auto)]

pub mod laws;
