//! Evaluation of a block on an unchanging copy of a store.
//!
//! `block` returns a block's verdict and what it read, on the nested log of `stm_log`. `message` is what an evaluation
//! returns: its type keeps that the verdict holds on each store in which the values that were read are found again. `forked`
//! returns the same message, and runs both branches of an `orElse` at once, by threads. `laws` states why a message holds: what
//! a block does depends only on what it reads, also in left branches and in actions that were rolled back.
//!
//! What a reader has to believe is in `specs/`: `Messages` (when a message is true, and what holds of a block on a store),
//! `EvaluatedFields` (the parts of a message), `JobAnswers` (what is returned for a job), `CoveredJobs` (what a store must have for
//! jobs) and `Laws`.
#![tactic(auto)]

pub mod block;
pub mod evaluate_job;
pub mod forked;
mod interpreter;
pub mod job;
pub mod laws;
pub mod message;
mod outcome;
mod primitives;
pub mod scratch;

pub use block::{try_action, try_block};
pub use evaluate_job::evaluate;
pub use forked::evaluate_forked;
pub use job::Job;
pub use message::Evaluated;
pub use scratch::{Scratch, try_block_in};
pub use stm_log::Reads;
pub use stm_terms::limits::MAX_LEVELS;
