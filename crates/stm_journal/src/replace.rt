//! A file that takes the place of another.

ghost use Rattle.std.specs.Prelude.{◌≡◌, IsTrue, IfOk};
ghost use Rattle.stm_journal.specs.Disk.{IsOnDisk, FailsOnlyByDisk};
ghost use Rattle.stm_journal.specs.Replacing.{IsEmptyFile, StaysAsBefore, PutsOrKeeps, journal_result};

use crate::device::Device;
use crate::error::JournalError;
use thiserror::Error;

/// Why no file has taken the place of another.
#[derive(Clone, Copy, Debug, PartialEq, Eq, Error)]
pub enum ReplaceError {
    /// Nothing has changed: the old file is as it was, and more can be added to it.
    #[error("{0}")]
    Refused(JournalError),
    /// It is the old file or the new one, and a crash may leave either.
    #[error("{0}")]
    Unfinished(JournalError),
}

/// A device whose file another one can replace in one step.
///
/// As with `Device`, the clauses hold if the device is honest, and of a file of the system they are trusted.
pub trait Replace: Device {
    /// Makes an empty file beside this one, and leaves this one as it is. An earlier file beside it is lost.
    fn beside(&mut self) -> Result<Self, JournalError>
    where
        Self: Sized,
        // The new file has no bytes yet.
        ensures made { IfOk result (IsEmptyFile Self.disk) }
        // Whatever the result, this one is as it was.
        ensures same { StaysAsBefore Self.disk self.old self.new }
        // It fails only if the disk fails, or if memory runs out.
        ensures fault { FailsOnlyByDisk Self.disk self.old self.new result };

    /// Puts another file, which is on the disk, in the place of this one.
    fn put(&mut self, other: Self) -> Result<(), ReplaceError>
    where
        Self: Sized,
        requires durable { IsOnDisk Self.disk other }
        // On `Ok` the other file is there, and on the disk. On `Refused` nothing has changed. On `Unfinished` it is the one or the other,
        // and a crash may leave either.
        ensures puts { PutsOrKeeps Self.disk self.old other self.new result }
        ensures fault { FailsOnlyByDisk Self.disk self.old self.new (journal_result result) };

    /// Reports on standard error why no file has taken the place of this one, unless that was reported since one did.
    fn report(&mut self, error: JournalError)
        ensures { IsTrue Self.disk.is_honest → self.new ≡ self.old };
}
