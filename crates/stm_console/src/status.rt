//! The exit statuses of the program. The failures of reader, writer and memory have theirs by `RunFault::status`.

/// All was done that the words ask for, and nothing wrong was found.
pub const DONE: u8 = 0;

/// A read or a write failed, or a line of a script is wrong.
pub const FAILED: u8 = 1;

/// The words were refused.
pub const REFUSED: u8 = 2;

/// A history isn't legal, also that of a storm's clients, or a storm's desk couldn't be closed; the file of a run has no history to go
/// on from; or an exploration found a fault or too many states.
pub const NOT_RIGHT: u8 = 3;

/// Memory ran out, or a thread didn't start.
pub const NO_MEMORY: u8 = 4;
