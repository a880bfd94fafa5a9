//! Why a call fails.

ghost use Rattle.std.specs.Prelude.{◌≡◌};
ghost use Rattle.stm_journal.specs.declared.error.JournalError.TheVariants.{NoMemory};

use std::alloc::{AllocError, AllocFailed};
use thiserror::Error;

/// Why a call on a device or a journal fails.
#[derive(Clone, Copy, Debug, PartialEq, Eq, Error)]
pub enum JournalError {
    /// An allocation failed.
    #[error("out of memory")]
    NoMemory,
    /// The disk failed.
    #[error("the disk failed")]
    Failed,
    /// The disk has no space left.
    #[error("no space left on the disk")]
    NoSpace,
    /// The file would have more than 2^62 bytes.
    #[error("the file is too long")]
    Full,
    /// A batch has more than 1 MiB.
    #[error("the batch is too long")]
    TooLong,
    /// More bytes follow the whole lines of a file than a batch can have: no crash leaves that.
    #[error("more than a batch follows the last whole line")]
    TornTooLong,
}

impl From<AllocError> for JournalError {
    ghost from_gives = { λ _ e. e ≡ NoMemory };

    fn from(_: AllocError) -> Self {
        JournalError::NoMemory
    }
}

impl<T: Drop> From<AllocFailed<T>> for JournalError {
    ghost from_gives = { λ _ e. e ≡ NoMemory };

    fn from(_: AllocFailed<T>) -> Self {
        JournalError::NoMemory
    }
}
