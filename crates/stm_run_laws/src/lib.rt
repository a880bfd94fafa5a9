//! Laws of runs: what holds of the console's text, whatever lines came before.
//!
//! `laws` has a function for each, whose contract is the law. What a reader has to believe is in `specs/Laws` (each line is
//! answered, and the queue is a set of tickets), `specs/Unseen` (no answer shows whether a checkpoint was made) and
//! `specs/ReadBack` (what `history` prints is read back), and below in `stm_run`.
#![tactic(auto)]

pub mod laws;
