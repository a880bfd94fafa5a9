//! Why reading lines and writing texts fails.

ghost use Rattle.std.specs.Prelude.{◌≡◌, ◌≢◌};
ghost use Rattle.stm_lines.specs.RunStatus.{status_of};

use thiserror::Error;

/// Why a run ended before its input did.
#[derive(Clone, Copy, Debug, PartialEq, Eq, Error)]
pub enum RunFault {
    #[error("stmdesk: read fault")]
    Read,
    #[error("stmdesk: write fault")]
    Write,
    #[error("stmdesk: out of memory")]
    NoMemory,
}

impl RunFault {
    /// The exit status of a run that ends so.
    pub fn status(self) -> u8
        ensures status { result ≡ status_of self }
        ensures some { result ≢ 0 }
    {
        match self {
            RunFault::Read => 1,
            RunFault::Write => 1,
            RunFault::NoMemory => 4,
        }
    }
}
