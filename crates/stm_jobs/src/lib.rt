//! Jobs, evaluated by several threads.
//!
//! `evaluate_all` returns what one thread would, by as many threads as it is given. `slot` is the place in which a job is
//! evaluated, and `all` has threads process the slots of all jobs.
//!
//! What a reader has to believe is in `specs/Answers`: what is returned for all jobs, by what `stm_eval` returns for each.
#![tactic(auto)]

pub mod all;
pub mod slot;

pub use all::{Answer, evaluate_all};
pub use stm_terms::limits::MAX_WORKERS;
