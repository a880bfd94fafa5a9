//! A history that begins, begins again from a checkpoint, or goes over to another format, in a new file.

ghost use Rattle.std.specs.Prelude.{◌≡◌, [], true, false, Some, IsTrue, IfOk, OnOk};
ghost use Rattle.stm_history_text.specs.HistoryText.{history_text};
ghost use Rattle.stm_history_text.specs.Starts.{lent_start};
ghost use Rattle.stm_lines.specs.WrittenFronts.{WritesText};
ghost use Rattle.stm_history.specs.Judgement.{AreShortLines};
ghost use Rattle.stm_journal.specs.Disk.{Shows, HasLength, IsOnDisk};
ghost use Rattle.stm_journal.specs.NewFile.{written_to};
ghost use Rattle.stm_journal.specs.Replacing.{journal_result};
ghost use Rattle.stm_history_file.specs.Durable.{KeepsAny, KeepsSome, LeavesOldOrAll, LeavesRecording, BeginsAs, BeginsUnless, CanBeRecorded, HasRecorded};

use crate::measured::MeasuredFile;
use crate::recording::HistoryFile;
use std::alloc::Global;
use std::io::Write;
use stm_events::Event;
use stm_history_text::{WriteFault, write_events, write_start};
use stm_journal::{Device, JournalError, NewFile, Replace, ReplaceError};
use stm_machine::Checkpoint;
use stm_store::Table;

/// Writes a whole history in the format.
fn write_whole<W: Write>(
    alloc: Global,
    writer: &mut W,
    format: u32,
    table: &Table,
    checkpoint: Option<&Checkpoint>,
    events: &[Event],
) -> Result<(), WriteFault>
    ensures { WritesText result (W.contents writer.old) (W.contents writer.new)
        (history_text (lent_start format table.now checkpoint.entry) events.now) }
{
    match write_start(alloc, writer, format, table, checkpoint) {
        Ok(()) => {}
        Err(fault) => return Err(fault),
    }
    match write_events(alloc, writer, events) {
        Ok(()) => Ok(()),
        Err(fault) => Err(fault),
    }
}

/// Writes the lines before the events, and those of the events, to a new file, and syncs it. Returned are the device and the length of its
/// file.
fn write_new<D: Device + Drop>(
    alloc: Global,
    file: NewFile<D>,
    format: u32,
    table: &Table,
    checkpoint: Option<&Checkpoint>,
    events: &[Event],
) -> Result<(D, usize), JournalError>
    requires empty { IsTrue D.disk.is_honest → written_to file ≡ Some [] }
    ensures text { IfOk result (λ r. Shows D.disk r.0 (history_text (lent_start format table.now checkpoint.entry) events.now)) }
    ensures len { IfOk result (λ r. HasLength D.disk r.0 r.1) }
    ensures durable { IfOk result (λ r. IsOnDisk D.disk r.0) }
    ensures short { IsTrue D.disk.is_honest → OnOk result (AreShortLines (history_text (lent_start format table.now checkpoint.entry) events.now)) }
    ensures fault { BeginsUnless D.disk (lent_start format table.now checkpoint.entry) events.now result }
{
    let mut measured = MeasuredFile {
        file,
        line: Some(0),
    };
    match write_whole(alloc, &mut measured, format, table, checkpoint, events) {
        Ok(()) => {}
        Err(WriteFault::NoMemory) => return Err(JournalError::NoMemory),
        Err(WriteFault::Write) => {
            return Err(measured.file.fault().unwrap_or(JournalError::NoMemory));
        }
    }
    if measured.line.is_none() {
        return Err(JournalError::TooLong);
    }
    let MeasuredFile { file, line: _ } = measured;
    file.finish()
}

impl<D: Replace + Drop> HistoryFile<D> {
    /// Puts a whole history in the place of the one that the file has: one that begins from a checkpoint or, if there is none, from a
    /// table, in this format and with these events. It writes it to a new file beside the old one, syncs that, and puts it in the place of
    /// the old one. It may be longer than a batch.
    ///
    /// A refusal leaves the file as it was, and more can be recorded in it. After any other error nothing more can be recorded: it is
    /// the old file or the new one. A line of more than 1 MiB is refused as `TooLong`, since no such line is read again.
    #[tactic(auto, using(stm_journal::proofs::Faults::may_fail))]
    pub fn begin_anew(
        &mut self,
        alloc: Global,
        format: u32,
        table: &Table,
        checkpoint: Option<&Checkpoint>,
        events: &[Event],
    ) -> Result<(), ReplaceError>
        // The file has some history, and no sync of it has failed.
        requires kept { KeepsAny D.disk self.old }
        // The lines before the events can be written in the format, and so can the events, from some state on.
        requires fit { CanBeRecorded (lent_start format table.now checkpoint) events.now }
        // What it has done to the file: on `Ok`, after a refusal, and after any other error.
        ensures begins { BeginsAs D.disk self.old self.new (lent_start format table.now checkpoint.entry) events.now result }
        // A crash at any moment of the call leaves what it might have left before, or the whole new file.
        ensures any_moment { LeavesOldOrAll D.disk self.old self.new (history_text (lent_start format table.now checkpoint.entry) events.now) }
        // The file is synced as before.
        ensures sync { self.new.journal.sync ≡ self.old.journal.sync }
        // The call fails only if devices of this kind may fail, if memory runs out, or if a line or the file is too long.
        ensures fault { BeginsUnless D.disk (lent_start format table.now checkpoint.entry) events.now (journal_result result) }
    {
        let file = match self.journal.new_file(alloc) {
            Ok(file) => file,
            Err(error) => return Err(ReplaceError::Refused(error)),
        };
        let (device, len) = match write_new(alloc, file, format, table, checkpoint, events) {
            Ok(new) => new,
            Err(error) => return Err(ReplaceError::Refused(error)),
        };
        match self.journal.replace(device, len) {
            Ok(()) => {
                self.begun = true;
                self.format = format;
                Ok(())
            }
            Err(error) => Err(error),
        }
    }

    /// Lets a history begin in a file that has none: records the lines before the events as a batch or, if they are too long for one, in a
    /// new file, which takes the place of the old one. After an error open the file again.
    #[tactic(auto, using(stm_journal::proofs::Faults::may_fail))]
    pub fn begin(
        &mut self,
        alloc: Global,
        format: u32,
        table: &Table,
        checkpoint: Option<&Checkpoint>,
    ) -> Result<(), JournalError>
        // No sync of the file has failed.
        requires kept { KeepsSome D.disk self.old (lent_start format table.now checkpoint) }
        // The lines before the events can be written in the format.
        requires fit { CanBeRecorded (lent_start format table.now checkpoint) [] }
        // It has no history yet.
        requires none { self.old.begun ≡ false }
        // The lines before the events were recorded.
        ensures recorded { OnOk result (HasRecorded D.disk self.old self.new (lent_start format table.now checkpoint.entry) []) }
        // If the journal syncs, a crash at any moment, and an error, leave no history yet or all lines before the events, and no other file,
        // unless the crash tears the byte that opens the first batch.
        ensures any_moment { LeavesRecording D.disk self.old self.new (lent_start format table.now checkpoint.entry) [] }
        // The format is the new one, and the file is synced as before.
        ensures format { self.new.format ≡ format }
        ensures sync { self.new.journal.sync ≡ self.old.journal.sync }
        // The call fails only if devices of this kind may fail, if memory runs out, or if a line or the file is too long.
        ensures fault { BeginsUnless D.disk (lent_start format table.now checkpoint.entry) [] result }
    {
        self.format = format;
        match self.record(alloc, table, checkpoint, &[]) {
            Ok(()) => Ok(()),
            Err(JournalError::TooLong) => {
                match self.begin_anew(alloc, format, table, checkpoint, &[]) {
                    Ok(()) => Ok(()),
                    Err(ReplaceError::Refused(error)) => Err(error),
                    Err(ReplaceError::Unfinished(error)) => Err(error),
                }
            }
            Err(error) => Err(error),
        }
    }

    /// Reports why the history didn't begin again, unless that was reported since it did. No clause says what is reported.
    pub fn report(&mut self, error: JournalError)
        ensures same { IsTrue D.disk.is_honest → self.new ≡ self.old }
        ensures sync { self.new.journal.sync ≡ self.old.journal.sync }
        ensures format { self.new.format ≡ self.old.format }
    {
        self.journal.report(error)
    }
}
