//! Events, recorded in a file.

ghost use Rattle.std.specs.Prelude.{◌≡◌, ◌≢◌, ◌++◌, ◌+◌, ◌<◌, ◌≤◌, [], true, false, IsTrue, length, take, OnOk, IfOk, IfErr};
ghost use Rattle.stm_journal.specs.Device.{most_file, only_full};
ghost use Rattle.stm_journal.specs.Disk.{Shows, CrashLeaves, FailsOnlyIf};
ghost use Rattle.stm_journal.specs.Journal.{IsAtRest, MayLeave, most_batch};
ghost use Rattle.stm_journal.specs.Text.{IsWhole};
ghost use Rattle.stm_history_text.specs.Starts.{lent_start};
ghost use Rattle.stm_history_file.specs.Durable.{start_of_file, history_front, IsBegunOrWhole, batch_text, batch_sync, KeepsSome, CanBeRecorded, HasRecorded, LeavesRecording, RefusesLongEvents, RecordsUnless};

use std::alloc::Global;
use stm_events::Event;
use stm_history_text::{write_events, write_start};
use stm_journal::{Device, Journal, JournalError, MAX_BATCH, SyncMode};
use stm_machine::Checkpoint;
use stm_store::Table;

/// How each history begins.
pub(crate) const HISTORY_FRONT: &[u8] = b"{\"format\":";

/// The file of a history, whether it has its first lines, and the format that these say or are to say.
#[derive(Drop)]
pub struct HistoryFile<D: Device> {
    pub journal: Journal<D>,
    pub begun: bool,
    pub format: u32,
}

/// The bytes of a batch.
fn batch_of(
    alloc: Global,
    begun: bool,
    format: u32,
    table: &Table,
    checkpoint: Option<&Checkpoint>,
    events: &[Event],
) -> Result<Vec<u8>, JournalError>
    ensures ok { IfOk result (λ batch. batch.items
        ≡ batch_text begun (lent_start format table.now checkpoint.entry) events.now) }
    ensures err { IfErr result (λ e. e ≡ JournalError.NoMemory) }
{
    let mut batch = Vec::new(alloc);
    if !begun && write_start(alloc, &mut batch, format, table, checkpoint).is_err() {
        return Err(JournalError::NoMemory);
    }
    match write_events(alloc, &mut batch, events) {
        Ok(()) => Ok(batch),
        Err(_) => Err(JournalError::NoMemory),
    }
}

/// Adds a batch to a journal, and syncs it as its place in the file asks for.
fn add_batch<D: Device>(
    journal: &mut Journal<D>,
    begun: bool,
    batch: &[u8],
) -> Result<(), JournalError>
    requires at_rest { IsAtRest D.disk journal.old }
    requires empty { begun ≡ false → Shows D.disk journal.old.device [] }
    requires lines { IsWhole batch.now }
    requires room { length batch.now ≤ most_batch }
    requires front { begun ≡ false → take 10 batch.now ≡ history_front }
    ensures added { OnOk result (Shows D.disk journal.new.device (D.disk.seen journal.old.device ++ batch.now)) }
    ensures at_rest { OnOk result (IsAtRest D.disk journal.new) }
    ensures sync { journal.new.sync ≡ journal.old.sync }
    ensures any_moment { CrashLeaves D.disk journal.old.device journal.new.device
        (MayLeave (batch_sync journal.old.sync begun) D.disk.fills_with_zeros (D.disk.seen journal.old.device) batch.now) }
    ensures left { IsTrue D.disk.is_honest
        → MayLeave (batch_sync journal.old.sync begun) D.disk.fills_with_zeros (D.disk.seen journal.old.device) batch.now
        (D.disk.seen journal.new.device) }
    // The first batch leaves a file in which it is begun, or all of it but for its first byte.
    ensures begun_moment { begun ≡ false → journal.old.sync ≢ SyncMode.Never
        → CrashLeaves D.disk journal.old.device journal.new.device (IsBegunOrWhole batch.now) }
    ensures begun_left { begun ≡ false → journal.old.sync ≢ SyncMode.Never → IsTrue D.disk.is_honest
        → IsBegunOrWhole batch.now (D.disk.seen journal.new.device) }
    ensures fault { FailsOnlyIf D.disk journal.old.device journal.new.device
        (only_full (most_file < length (D.disk.seen journal.old.device) + length batch.now)) result }
{
    if begun {
        return journal.append(batch);
    }
    match journal.sync {
        SyncMode::Never => journal.append(batch),
        SyncMode::Full | SyncMode::Sector | SyncMode::Append => {
            journal.append_first(batch, HISTORY_FRONT.len())
        }
    }
}

impl<D: Device> HistoryFile<D> {
    /// Records events after those that the file has, as one batch. The first batch also has the lines before the events, even if
    /// there is no event, in the format of the file.
    ///
    /// A batch of more than 1 MiB is refused before anything is written, as `TooLong` unless memory runs out; the caller records
    /// fewer events at a time. After `TooLong` more can be recorded. After any other error open the file again.
    pub fn record(
        &mut self,
        alloc: Global,
        table: &Table,
        checkpoint: Option<&Checkpoint>,
        events: &[Event],
    ) -> Result<(), JournalError>
        // The file has some history that begins so, and no sync of it has failed.
        requires kept { KeepsSome D.disk self.old (start_of_file self.old table.now checkpoint) }
        // The lines before the events can be written in its format, and so can the events, from some state on.
        requires fit { CanBeRecorded (start_of_file self.old table.now checkpoint) events.now }
        // The events come after those that the file has.
        ensures recorded { OnOk result (HasRecorded D.disk self.old self.new (start_of_file self.old table.now checkpoint.entry) events.now) }
        // Whatever the result, a crash at any moment leaves what the sync mode promises (`LeavesRecording` says when it is another file).
        ensures any_moment { LeavesRecording D.disk self.old self.new (start_of_file self.old table.now checkpoint.entry) events.now }
        // A batch that is too long is refused, and nothing is written.
        ensures refused { RefusesLongEvents self.old self.new (start_of_file self.old table.now checkpoint.entry) events.now result }
        // The call fails only if the disk does, if memory runs out, or if the batch or the file is too long.
        ensures fault { RecordsUnless D.disk self.old self.new (start_of_file self.old table.now checkpoint.entry) events.now result }
        // The file is synced as before, and its format is the one of before.
        ensures sync { self.new.journal.sync ≡ self.old.journal.sync }
        ensures format { self.new.format ≡ self.old.format }
    {
        let batch = match batch_of(alloc, self.begun, self.format, table, checkpoint, events) {
            Ok(batch) => batch,
            Err(error) => return Err(error),
        };
        if batch.len() > MAX_BATCH {
            return Err(JournalError::TooLong);
        }
        match add_batch(&mut self.journal, self.begun, &batch) {
            Ok(()) => {
                self.begun = true;
                Ok(())
            }
            Err(error) => Err(error),
        }
    }
}
