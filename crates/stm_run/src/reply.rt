//! How a line is answered.

/// Where the answer to a line is.
#[derive(Clone, Copy, PartialEq, Eq, Debug)]
pub enum Reply {
    /// In the text that was appended.
    Text,
    /// It is the history, which is still to be written: it can be longer than memory holds.
    History,
    /// It is the events from the one with this number on, counted from 1, and how many there are: still to be written, too.
    Events(u32),
    /// Not known yet: it is asked for a checkpoint, which is still to be made.
    Checkpoint,
}
