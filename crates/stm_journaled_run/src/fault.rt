//! Why a run that keeps its history ends.

ghost use Rattle.std.specs.Prelude.{◌≡◌, ◌≢◌};
ghost use Rattle.stm_journaled_run.specs.DurableRun.{durable_status};

use stm_journal::JournalError;
use stm_lines::RunFault;
use thiserror::Error;

/// Why a run that keeps its history ended before its input did.
#[derive(Clone, Copy, Debug, PartialEq, Eq, Error)]
pub enum DurableFault {
    /// Reading, writing or memory failed.
    #[error("{0}")]
    Run(RunFault),
    /// Events could not be recorded.
    #[error("stmdesk: journal fault: {0}")]
    Journal(JournalError),
}

impl DurableFault {
    /// The exit status of a run that ends so.
    pub fn status(self) -> u8
        ensures status { result ≡ durable_status self }
        ensures some { result ≢ 0 }
    {
        match self {
            DurableFault::Run(fault) => fault.status(),
            DurableFault::Journal(JournalError::NoMemory) => 4,
            DurableFault::Journal(_) => 1,
        }
    }
}
