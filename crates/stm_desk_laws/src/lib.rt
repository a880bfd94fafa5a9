//! Laws of a desk's whole life: checkpoints and restarts change nothing of what a history means, and its integers stay in range.
//!
//! The laws are in `laws`. What a reader has to believe is in `specs/Lives` and `specs/IntegerRange`, and below in `stm_events` and
//! `stm_machine`.
#![tactic(auto)]

pub mod laws;
