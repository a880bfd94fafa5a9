//! What is reported of a line that is not accepted.

use crate::fault::HistoryFault;
use stm_events::errors::{
    CancelError, DeliverError, FinishError, LabelError, LateDeclareError, SubmitError,
};

/// Why a desk refuses the call of an event. None of these is out of memory.
#[derive(Clone, Copy, Debug, PartialEq, Eq, Drop)]
pub enum CallRefusal {
    Submission(SubmitError),
    Delivery(DeliverError),
    Finish(FinishError),
    Cancellation(CancelError),
    Declaration(LateDeclareError),
    Labelling(LabelError),
}

/// What is reported of a line that is not accepted.
#[derive(Drop)]
pub enum Explanation {
    /// The line that would be accepted at this place for the same call, without its line feed.
    Expected(String),
    /// Why a desk refuses the call at this place.
    Refused(CallRefusal),
    /// The line can't be read as a header, a variable, a waiting block of a checkpoint or an event, whichever is due, or what would be
    /// accepted has no line: a block with a `catch` in format 1, a declaration or a label in a format other than 5, or a line of more than
    /// 1,048,576 bytes.
    Unreadable,
}

/// The first fault of bytes, the number of its line, counted from 1, and what is reported of that line.
#[derive(Drop)]
pub struct Reason {
    pub fault: HistoryFault,
    pub line: u32,
    pub explanation: Explanation,
}
