//! The machine: a state of the slow desk, with kept reads and verdicts, a queue and an index.
//!
//! No call of `Machine` goes over all waiting blocks. Its contracts range over every state that it is at (`specs/Machine`). A
//! desk is a machine with a list of its events; a checker is a machine alone.
//!
//! `machine` has the machine, over `index`, which finds what becomes stale. `submit`, `queue`, `evaluation`, `deliver`, `finish` and
//! `cancel` are the life of a block; `declare` and `label` are calls of their own, and `atomic` runs a block at once. `queries` has the
//! questions, and `checkpoint` the states that a history may begin from, over `restored` and `right_delivery`.
#![tactic(auto)]

pub mod atomic;
pub mod cancel;
pub mod checkpoint;
pub mod declare;
pub mod deliver;
pub mod evaluation;
pub mod finish;
mod index;
pub mod label;
pub mod machine;
pub mod queries;
pub mod queue;
mod restored;
mod right_delivery;
pub mod submit;

pub use checkpoint::{AddError, Checkpoint, CheckpointBlock, CheckpointError};
pub use finish::Plan;
pub use machine::Machine;
