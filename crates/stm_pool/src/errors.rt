//! Why a desk isn't shown or closed.

use thiserror::Error;

/// Why a client isn't shown the desk. `Lost`: the history lacks what the client did or has seen.
#[derive(Clone, Copy, Debug, PartialEq, Eq, Error)]
pub enum ViewError {
    #[error("the history lacks what the client did or has seen")]
    Lost,
    #[error("out of memory")]
    NoMemory,
}

/// Why a desk can't be closed. `Differs` has the client whose events in the history are not those
/// of its pass.
#[derive(Clone, Copy, Debug, PartialEq, Eq, Error)]
pub enum CloseError {
    #[error("a pass is missing")]
    PassMissing,
    #[error("the history has other events of client {0} than its pass")]
    Differs(u32),
}
