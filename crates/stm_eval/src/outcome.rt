//! How an action goes on and ends.

use stm_terms::action::Action;
use stm_terms::values::{Fault, Value};

/// How an action ended. After a return the log's top frame has its changes.
#[derive(Clone, Copy)]
pub(crate) enum Outcome {
    Returned(Value),
    Threw(Fault),
    Retried,
}

/// What is left of an action after a step: an action that does the rest, or nothing.
#[derive(Clone, Copy)]
pub(crate) enum Step<'a> {
    On(&'a Action),
    Ended(Outcome),
}
