//! A device that runs out of space.

ghost use Rattle.stm_journal.specs.Disk.{claims_nothing, lawful_nothing};

use stm_journal::{Device, JournalError, Memory, Replace, ReplaceError};

/// A device in memory with room for a number of bytes. A write that finds no room leaves none of its bytes.
#[derive(Drop)]
pub(crate) struct Disk {
    pub file: Memory,
    pub room: usize,
}

impl Device for Disk {
    ghost disk = { claims_nothing };

    ghost lawful = { lawful_nothing };

    fn len(&self) -> Result<usize, JournalError> {
        self.file.len()
    }

    fn read_at(&self, at: usize, buffer: &mut [u8]) -> Result<usize, JournalError> {
        if at > self.file.bytes().len() {
            return Err(JournalError::Failed);
        }
        self.file.read_at(at, buffer)
    }

    fn settle(&mut self) -> Result<(), JournalError> {
        self.file.settle()
    }

    fn write_at(&mut self, at: usize, bytes: &[u8]) -> Result<(), JournalError> {
        if bytes.len() > self.room.saturating_sub(at) || at > self.file.bytes().len() {
            return Err(JournalError::NoSpace);
        }
        self.file.write_at(at, bytes)
    }

    fn cut(&mut self, len: usize) -> Result<(), JournalError> {
        if len > self.file.bytes().len() {
            return Err(JournalError::Failed);
        }
        self.file.cut(len)
    }

    fn sync(&mut self) -> Result<(), JournalError> {
        self.file.sync()
    }
}

impl Replace for Disk {
    fn beside(&mut self) -> Result<Self, JournalError> {
        let room = self.room;
        let file = self.file.beside()?;
        Ok(Disk { file, room })
    }

    fn put(&mut self, other: Self) -> Result<(), ReplaceError> {
        self.file.put(other.file)
    }

    fn report(&mut self, _error: JournalError) {}
}
