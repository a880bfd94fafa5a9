//! Runs that keep their history in a file.
//!
//! `run_durable` (`streams`) does what `stm_run::run` does on a desk whose history is kept in a file. Answers are held back until
//! the events of their lines are in the file and, as the sync mode says, on the disk: so no answer that anybody saw is lost in a
//! crash. With a checkpoint a new file takes the place of the old one, and has the checkpoint and what comes after it.
//!
//! `session` is a run under way, `recording` adds events to the file in batches, `beginning` replaces it at a checkpoint, `resuming`
//! has the console that a file gives, `ranges` says that numbers are in range, `laws` that events and checkpoints can be in lines,
//! and `fault` why a run ends.
//!
//! What a reader has to believe is in `specs/DurableRun`: the console that a file gives, what the file has, and what a crash may
//! leave; and in `specs/WholeRun`: what holds when a run ends.
#![tactic(auto)]

mod beginning;
mod fault;
mod laws;
mod ranges;
mod recording;
mod resuming;
mod session;
mod streams;

pub use fault::DurableFault;
pub use streams::run_durable;
