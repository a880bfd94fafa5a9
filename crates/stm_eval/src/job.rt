//! Work for an evaluator.

use stm_check::SharedBlock;

/// A waiting block that is to be evaluated, under its ticket.
#[derive(Drop)]
pub struct Job {
    pub ticket: u32,
    pub block: SharedBlock,
}
