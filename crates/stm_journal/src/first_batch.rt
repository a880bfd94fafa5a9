//! The first batch of a file, whose front is known.
//!
//! It is opened by its first byte, as each batch is with `SyncMode::Full`. Before the bulk of it is written, its front is: the gate, then
//! one byte more, and then the others, each synced before the next. So a crash leaves a file that begins as the batch does, or that is
//! shorter than the front, and no other file can be taken for one of these.

ghost use Rattle.std.specs.Prelude.{◌≡◌, ◌≤◌, [], length, take, OnOk};
ghost use Rattle.stm_journal.specs.FirstBatch.{LeavesFirst, MayPutFirst, ShowsFirst};
ghost use Rattle.stm_journal.specs.Disk.{Shows, IsOnDisk, CrashLeaves, FailsOnlyByDisk};
ghost use Rattle.stm_journal.specs.Journal.{IsAtRest};
ghost use Rattle.stm_journal.specs.Text.{IsWhole};

use crate::device::Device;
use crate::error::JournalError;
use crate::journal::{Journal, put};

impl<D: Device> Journal<D> {
    /// Adds the first batch to an empty file, so that a crash leaves all of it or nothing, and a file that is known from others by the
    /// first `front` bytes of the batch. At `Ok` it is acknowledged.
    ///
    /// After an error nothing more can be added: open the file again.
    pub fn append_first(&mut self, batch: &[u8], front: usize) -> Result<(), JournalError>
        requires { MayPutFirst D.disk self.old batch.now front }
        ensures done { OnOk result (Shows D.disk self.new.device batch.now) }
        ensures at_rest { OnOk result (IsAtRest D.disk self.new) }
        ensures sync { self.new.sync ≡ self.old.sync }
        // A crash at any moment of the call leaves all of the batch or nothing, and a file that is begun, or whole but for one byte.
        ensures any_moment { CrashLeaves D.disk self.old.device self.new.device (LeavesFirst (take front batch.now) batch.now) }
        // After an error the file is also one of these.
        ensures left { ShowsFirst D.disk self.new.device (take front batch.now) batch.now }
        ensures fault { FailsOnlyByDisk D.disk self.old.device self.new.device result }
    {
        put_first(&mut self.device, batch, front)?;
        self.len = batch.len();
        Ok(())
    }
}

/// Writes a first batch, in steps.
fn put_first<D: Device>(device: &mut D, batch: &[u8], front: usize) -> Result<(), JournalError>
    requires empty { Shows D.disk device.old [] }
    requires durable { IsOnDisk D.disk device.old }
    requires lines { IsWhole batch.now }
    requires some { 2 ≤ front }
    requires within { front ≤ length batch.now }
    ensures added { OnOk result (Shows D.disk device.new batch.now) }
    ensures durable { OnOk result (IsOnDisk D.disk device.new) }
    ensures any_moment { CrashLeaves D.disk device.old device.new (LeavesFirst (take front batch.now) batch.now) }
    ensures fault { FailsOnlyByDisk D.disk device.old device.new result }
{
    // The gate: what comes after it doesn't count until it is opened.
    put(device, 0, b"\0")?;
    put(device, 1, &batch[1..2])?;
    put(device, 2, &batch[2..front])?;
    put(device, front, &batch[front..])?;
    put(device, 0, &batch[..1])
}
