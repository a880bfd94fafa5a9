//! The files in which runs keep their histories.

ghost use Rattle.std.specs.Prelude.{◌≡◌, ℕ, List, Option, IfOk};
ghost use Rattle.stm_journal.specs.Disk.{IsSettled};
ghost use Rattle.stm_console.specs.Journal.{HasBytes, open_status};

use crate::status::{FAILED, NO_MEMORY};
use std::io;
use std::io::ErrorKind;
use stm_journal::{Device, Replace};
use thiserror::Error;

/// Why a file can't be opened.
#[derive(Clone, Copy, Debug, Error)]
pub enum OpenError {
    /// Another run has it open.
    #[error("in use")]
    InUse,
    /// It is a directory.
    #[error("is a directory")]
    Directory,
    /// It is a device, a pipe, or a link that leads nowhere.
    #[error("not a regular file")]
    NotRegular,
    /// Its name is one that a checkpoint may take for its new file.
    #[error("names like .NAME.stmdesk-new are kept for checkpoints")]
    KeptName,
    /// It is what the run reads its commands from.
    #[error("standard input is the journal")]
    IsInput,
    /// It is what the run writes its answers to.
    #[error("standard output is the journal")]
    IsOutput,
    /// It is what the run writes its messages to.
    #[error("standard error is the journal")]
    IsErrors,
    /// A standard stream is closed, so that the file would take its place.
    #[error("a standard stream is closed, and /dev/null can't be opened in its place")]
    NoStreams,
    /// It can't be locked, so that another run might open it too.
    #[error("can't be locked: {0}")]
    NoLock(io::Error),
    /// The system doesn't open it.
    #[error("{0}")]
    System(io::Error),
    /// Memory ran out.
    #[error("out of memory")]
    NoMemory,
}

impl OpenError {
    /// The exit status of a run whose file isn't opened for this reason.
    pub fn status(self) -> u8
        ensures { result ≡ open_status self }
    {
        match self {
            OpenError::NoMemory => NO_MEMORY,
            OpenError::InUse => FAILED,
            OpenError::Directory => FAILED,
            OpenError::NotRegular => FAILED,
            OpenError::KeptName => FAILED,
            OpenError::IsInput => FAILED,
            OpenError::IsOutput => FAILED,
            OpenError::IsErrors => FAILED,
            OpenError::NoStreams => FAILED,
            OpenError::NoLock(_) => FAILED,
            OpenError::System(_) => FAILED,
        }
    }
}

impl From<io::Error> for OpenError {
    fn from(error: io::Error) -> Self {
        if error.kind() == ErrorKind::OutOfMemory {
            OpenError::NoMemory
        } else {
            OpenError::System(error)
        }
    }
}

/// Files by their names.
pub trait JournalFiles {
    /// A file that is open.
    type File: Device + Replace + Drop;

    /// The bytes of the file of this name, if they are known; none of a file that is missing.
    ghost contents: { Self → List ℕ → Option (List ℕ) };

    /// Opens the file of this name for reading and writing, and makes it if it is missing. No other run has it open then. Neither
    /// has a clause. It is settled: reads return what the disk has. If its bytes are known the device is honest, and has them.
    fn open(&self, name: &str) -> Result<Self::File, OpenError>
        ensures contents { IfOk result (HasBytes Self.File.disk (contents self.now name.now)) }
        ensures settled { IfOk result (IsSettled Self.File.disk) };
}
