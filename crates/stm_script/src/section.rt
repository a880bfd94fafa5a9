//! What a client of a script is to do.

use stm_check::SharedBlock;
use stm_terms::values::Value;

/// How many sections a script may have.
pub const MAX_SECTIONS: usize = 64;

/// One thing that a client does. `Finish` and `Cancel` name one of the section's submissions,
/// counted from 0; `Expect` names a variable by its number, and the value that it should have.
#[derive(Drop)]
pub enum Task {
    Submit(SharedBlock),
    Finish(usize),
    Cancel(usize),
    Expect(u32, Value),
}

/// What one client does, in order.
#[derive(Drop)]
pub struct Section {
    pub tasks: Vec<Task>,
}
