//! Why no file can take the place of another.

use crate::error::JournalError;
use crate::file::error_of;
use std::alloc::AllocError;
use std::fmt::{Display, Formatter};
use std::io::ErrorKind;
use std::{fmt, io};
use thiserror::Error;

/// What is in the way of a file that is to take the place of another.
#[derive(Clone, Copy, Debug, Error)]
pub enum Obstacle {
    /// A file of its name is there, and locked.
    #[error("in use")]
    InUse,
    /// A file of its name is there that wasn't begun to take the place of this one.
    #[error("another file has this name")]
    Foreign,
    /// It can't have the owner and the group of the file that it is to replace.
    #[error("it can't have the owner and the group of the file that it replaces: {0}")]
    Owner(io::Error),
    /// The path of the file that is to be replaced, or that of the new one, leads to another file meanwhile.
    #[error("another file has taken the place of the journal")]
    Moved,
    /// The file was opened by a link, and its real path isn't known.
    #[error("the real path of the file isn't known")]
    NoPath,
    /// The system refuses a call.
    #[error("{0}")]
    System(io::Error),
    /// Memory ran out.
    #[error("out of memory")]
    NoMemory,
}

impl Obstacle {
    /// The error of a journal for this reason.
    pub fn error(self) -> JournalError {
        match self {
            Obstacle::NoMemory => JournalError::NoMemory,
            Obstacle::System(error) => error_of(error),
            _ => JournalError::Failed,
        }
    }
}

impl From<io::Error> for Obstacle {
    fn from(error: io::Error) -> Self {
        if error.kind() == ErrorKind::OutOfMemory {
            Obstacle::NoMemory
        } else {
            Obstacle::System(error)
        }
    }
}

impl From<AllocError> for Obstacle {
    fn from(_: AllocError) -> Self {
        Obstacle::NoMemory
    }
}

/// An obstacle, and the path of the file that was to take the place of another.
#[derive(Drop)]
pub struct Refusal {
    pub path: String,
    pub obstacle: Obstacle,
}

impl Display for Refusal {
    fn fmt<W: fmt::Write>(&self, f: &mut Formatter<W>) -> fmt::Result {
        write!(f, "{}: {}", self.path, self.obstacle)
    }
}
