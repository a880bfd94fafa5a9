//! What a waiting block waits for.

use stm_terms::values::Value;

/// A variable that a block read, with the value that it read and another one that it was left with.
#[derive(Clone, Copy)]
pub struct Change {
    pub variable: u32,
    pub read: Value,
    pub left: Value,
}

/// What a waiting block waits for.
#[derive(Drop)]
pub enum Reason<'a> {
    /// An evaluation: there was none yet.
    New,
    /// Another evaluation. `finish` is the ticket of the first block that finished since its last delivery and changed
    /// variables that it had read; `changes` has these variables, ascending.
    Stale { finish: u32, changes: Vec<Change> },
    /// Another evaluation, but the block was stale already at the checkpoint that the history begins from, which doesn't know that finish: it was
    /// made before checkpoints kept causes.
    WasStale,
    /// A change of one of these variables, of which it read these values: it is current and blocks.
    Waits(&'a [(u32, Value)]),
    /// Its finish: it is current and doesn't block.
    Ready,
}
