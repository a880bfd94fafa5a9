//! The events of a console that its file doesn't have yet, recorded in batches.

ghost use Rattle.std.specs.Prelude.{◌≡◌, ◌⊎◌, ◌<◌, ◌≤◌, [], true, false, IsTrue, MatchBool, length, take, drop, OnOk, IfOk, IsErrOf};
ghost use Rattle.stm_event_lines.specs.Lines.{declaring_format};
ghost use Rattle.stm_history_text.specs.HistoryText.{history_text};
ghost use Rattle.stm_history_text.specs.Starts.{format_for};
ghost use Rattle.stm_journal.specs.Disk.{LeavesOnly};
ghost use Rattle.stm_history_file.specs.Durable.{CanBeRecorded, KeepsAny, KeepsSome, KeepsHistory, KeepsEach, Records, LeavesHistory, LeavesOldOrAll};
ghost use Rattle.stm_run.specs.declared.console.Console.TheVariants.{Open};
ghost use Rattle.stm_run.specs.ConsoleState.{events_of};
ghost use Rattle.stm_journaled_run.specs.DurableRun.{RecordsUnlessDisk, KeepsConsole, start_in};
ghost use Rattle.stm_journaled_run.specs.Committing.{LeavesBatches, LeavesBatchOf, LeavesBatchesOf, CommitLeaves, MayCommit};
ghost use Rattle.stm_journaled_run.specs.NewEvents.{MayBeginRun, needs_declaring_format};

use crate::laws::last_events_fit;
use crate::ranges::are_in_range;
use std::alloc::Global;
use stm_commands::OpenDesk;
use stm_event_lines::formats::DECLARING_FORMAT;
use stm_events::Event;
use stm_history_file::HistoryFile;
use stm_history_text::format_for;
use stm_journal::{Device, JournalError, Replace, ReplaceError};
use stm_run::console::Console;

/// The most events of a batch.
const MOST_EVENTS: usize = 4_096;

/// Records events as one batch, after those that the file has.
#[tactic(auto, using(stm_journal::proofs::Faults::may_fail))]
fn record_after<D: Device>(
    alloc: Global,
    desk: &OpenDesk,
    format: u32,
    events: &[Event],
    file: &mut HistoryFile<D>,
) -> Result<(), JournalError>
    requires kept { KeepsSome D.disk file.old (start_in format (Open desk.now)) }
    requires fit { CanBeRecorded (start_in format (Open desk.now)) events.now }
    requires format { file.old.format ≡ format }
    ensures recorded { OnOk result (Records D.disk file.old file.new (start_in format (Open desk.now)) events.now) }
    ensures begun { OnOk result (file.new.begun ≡ true) }
    ensures sync { file.new.journal.sync ≡ file.old.journal.sync }
    ensures same_format { file.new.format ≡ file.old.format }
    ensures fault { RecordsUnlessDisk D.disk result }
    ensures refused { IsTrue D.disk.is_honest → IsErrOf result JournalError.TooLong → file.new ≡ file.old }
    ensures any_moment { LeavesBatchOf D.disk file.old file.new (start_in format (Open desk.now)) events.now }
{
    file.record(alloc, desk.table(), desk.begins_from(), events)
}

/// Records events as one batch, if they aren't too many or too long for one; a single event is not too many. Whether it did.
fn record_batch<D: Device>(
    alloc: Global,
    desk: &OpenDesk,
    format: u32,
    events: &[Event],
    file: &mut HistoryFile<D>,
) -> Result<bool, JournalError>
    requires kept { KeepsSome D.disk file.old (start_in format (Open desk.now)) }
    requires begun { IsTrue D.disk.is_honest → file.old.begun ≡ true }
    requires fit { CanBeRecorded (start_in format (Open desk.now)) events.now }
    requires format { file.old.format ≡ format }
    ensures recorded { IfOk result (λ done. MatchBool done
        (Records D.disk file.old file.new (start_in format (Open desk.now)) events.now)
        (KeepsEach D.disk file.old file.new (start_in format (Open desk.now)))) }
    ensures begun { OnOk result (IsTrue D.disk.is_honest → file.new.begun ≡ true) }
    ensures many { IfOk result (λ done. done ≡ false → 1 < length events.now) }
    ensures sync { file.new.journal.sync ≡ file.old.journal.sync }
    ensures same_format { file.new.format ≡ file.old.format }
    ensures fault { RecordsUnlessDisk D.disk result }
    ensures any_moment { LeavesBatchesOf D.disk file.old file.new (start_in format (Open desk.now)) events.now }
{
    if events.len() > MOST_EVENTS {
        return Ok(false);
    }
    match record_after(alloc, desk, format, events, file) {
        Ok(()) => Ok(true),
        Err(JournalError::TooLong) => {
            if events.len() > 1 {
                Ok(false)
            } else {
                Err(JournalError::TooLong)
            }
        }
        Err(error) => Err(error),
    }
}

/// Records events after the first batch of a file: as one batch if that can be, or half of them and then the others.
fn record_batches<D: Device>(
    alloc: Global,
    desk: &OpenDesk,
    format: u32,
    events: &[Event],
    file: &mut HistoryFile<D>,
) -> Result<(), JournalError>
    requires kept { KeepsSome D.disk file.old (start_in format (Open desk.now)) }
    requires begun { IsTrue D.disk.is_honest → file.old.begun ≡ true }
    requires fit { CanBeRecorded (start_in format (Open desk.now)) events.now }
    requires format { file.old.format ≡ format }
    ensures recorded { OnOk result (Records D.disk file.old file.new (start_in format (Open desk.now)) events.now) }
    ensures begun { OnOk result (IsTrue D.disk.is_honest → file.new.begun ≡ true) }
    ensures sync { file.new.journal.sync ≡ file.old.journal.sync }
    ensures same_format { file.new.format ≡ file.old.format }
    ensures fault { RecordsUnlessDisk D.disk result }
    ensures any_moment { LeavesBatchesOf D.disk file.old file.new (start_in format (Open desk.now)) events.now }
{
    if record_batch(alloc, desk, format, events, file)? {
        return Ok(());
    }
    let (first, rest) = events.split_at(events.len() / 2);
    record_batches(alloc, desk, format, first, file)?;
    record_batches(alloc, desk, format, rest, file)
}

/// Records the lines before the events in this format, unless the file has them.
fn begin_file<D: Replace + Drop>(
    alloc: Global,
    desk: &OpenDesk,
    format: u32,
    file: &mut HistoryFile<D>,
) -> Result<(), JournalError>
    requires kept { KeepsSome D.disk file.old (start_in format (Open desk.now)) }
    requires fit { CanBeRecorded (start_in format (Open desk.now)) [] }
    requires format { file.old.begun ≡ true → file.old.format ≡ format }
    ensures kept { OnOk result (KeepsEach D.disk file.old file.new (start_in format (Open desk.now))) }
    ensures begun { OnOk result (file.new.begun ≡ true) }
    ensures format { OnOk result (file.new.format ≡ format) }
    ensures sync { file.new.journal.sync ≡ file.old.journal.sync }
    ensures fault { RecordsUnlessDisk D.disk result }
    ensures any_moment { LeavesBatchOf D.disk file.old file.new (start_in format (Open desk.now)) [] }
{
    if file.begun {
        Ok(())
    } else {
        file.begin(alloc, format, desk.table(), desk.begins_from())
    }
}

/// Records the events of a desk after the first ones, which the file has: in the format of the file or, if it has no history yet, in
/// this one.
fn record_from<D: Replace + Drop>(
    alloc: Global,
    desk: &OpenDesk,
    format: u32,
    recorded: usize,
    file: &mut HistoryFile<D>,
) -> Result<usize, JournalError>
    requires within { recorded ≤ length desk.now.desk.history }
    requires kept { KeepsHistory D.disk file.old (start_in format (Open desk.now)) (take recorded desk.now.desk.history) }
    requires fit { CanBeRecorded (start_in format (Open desk.now)) (drop recorded desk.now.desk.history) }
    requires format { file.old.begun ≡ true → file.old.format ≡ format }
    ensures count { IfOk result (λ n. n ≡ length desk.now.desk.history) }
    ensures recorded { OnOk result (KeepsHistory D.disk file.new (start_in format (Open desk.now)) desk.now.desk.history) }
    ensures begun { OnOk result (IsTrue D.disk.is_honest → file.new.begun ≡ true) }
    ensures format { OnOk result (file.new.format ≡ format) }
    ensures sync { file.new.journal.sync ≡ file.old.journal.sync }
    ensures fault { RecordsUnlessDisk D.disk result }
    // A crash at any moment leaves the history from before, perhaps without the first batch, or with batches of these events.
    ensures any_moment { IsTrue D.disk.is_honest
        → LeavesOnly D.disk file.old.journal.device file.new.journal.device
        (λ c. LeavesHistory file.old.journal.sync D.disk.fills_with_zeros file.old.begun (start_in format (Open desk.now)) (take recorded desk.now.desk.history) [] c
        ⊎ LeavesBatches file.old.journal.sync D.disk.fills_with_zeros (start_in format (Open desk.now)) (take recorded desk.now.desk.history) (drop recorded desk.now.desk.history) c) }
{
    let history = desk.history();
    begin_file(alloc, desk, format, file)?;
    record_batches(alloc, desk, format, later_events(history, recorded), file)?;
    Ok(history.len())
}

/// The events after the first ones.
fn later_events(history: &[Event], recorded: usize) -> &[Event]
    requires { recorded ≤ length history.now }
    ensures { result.now ≡ drop recorded history.now }
{
    &history[recorded..]
}

/// Whether the file can't have these events in its format: one declares a variable or labels a block.
fn needs_another_format<D: Device>(file: &HistoryFile<D>, events: &[Event]) -> bool
    ensures no { result ≡ false → (file.now.format ≡ declaring_format) ⊎ (needs_declaring_format events.now ≡ false) }
{
    file.format != DECLARING_FORMAT && format_for(None, events) == DECLARING_FORMAT
}

/// The format in which the events of a desk are recorded: that of the file or, if it has no history yet, that of the desk's history.
fn recording_format<D: Device>(desk: &OpenDesk, file: &HistoryFile<D>) -> u32
    ensures begun { file.now.begun ≡ true → result ≡ file.now.format }
    ensures none { file.now.begun ≡ false → result ≡ format_for desk.now.desk.checkpoint desk.now.desk.history }
{
    if file.begun {
        file.format
    } else {
        format_for(desk.begins_from(), desk.history())
    }
}

/// Writes the whole history of a desk, in the format of late declarations and labels, to a new file that takes the place of the old
/// one. How many events it has.
#[tactic(auto, using(stm_journal::proofs::Faults::may_fail))]
fn record_anew<D: Replace + Drop>(
    alloc: Global,
    desk: &OpenDesk,
    file: &mut HistoryFile<D>,
) -> Result<usize, JournalError>
    requires kept { KeepsAny D.disk file.old }
    requires may_begin { MayBeginRun (Open desk.now) }
    ensures count { IfOk result (λ n. n ≡ length desk.now.desk.history) }
    ensures recorded { OnOk result (KeepsHistory D.disk file.new (start_in declaring_format (Open desk.now)) desk.now.desk.history) }
    ensures begun { OnOk result (file.new.begun ≡ true) }
    ensures format { OnOk result (file.new.format ≡ declaring_format) }
    ensures sync { file.new.journal.sync ≡ file.old.journal.sync }
    ensures fault { RecordsUnlessDisk D.disk result }
    ensures fit { CanBeRecorded (start_in declaring_format (Open desk.now)) desk.now.desk.history }
    // A crash at any moment leaves what it might have left before, or the whole new file.
    ensures any_moment { LeavesOldOrAll D.disk file.old file.new (history_text (start_in declaring_format (Open desk.now)) desk.now.desk.history) }
{
    let history = desk.history();
    are_in_range(history);
    last_events_fit();
    let (table, from) = (desk.table(), desk.begins_from());
    match file.begin_anew(alloc, DECLARING_FORMAT, table, from, history) {
        Ok(()) => Ok(history.len()),
        Err(ReplaceError::Refused(error)) => Err(error),
        Err(ReplaceError::Unfinished(error)) => Err(error),
    }
}

/// Records the events of an open desk that its file doesn't have. How many it then has. If one declares a variable or labels a block
/// and the file is in a format in which none can, the whole history is written to a new file.
fn record_open<D: Replace + Drop>(
    alloc: Global,
    desk: &OpenDesk,
    recorded: usize,
    file: &mut HistoryFile<D>,
) -> Result<usize, JournalError>
    requires { MayCommit (KeepsConsole D.disk file.old)
        (Open desk.now) recorded }
    ensures count { IfOk result (λ n. n ≡ length desk.now.desk.history) }
    ensures recorded { OnOk result (KeepsConsole D.disk file.new
        (Open desk.now)) }
    ensures sync { file.new.journal.sync ≡ file.old.journal.sync }
    ensures fault { RecordsUnlessDisk D.disk result }
    ensures any_moment { CommitLeaves D.disk file.old file.new (Open desk.now) recorded }
{
    let history = desk.history();
    let later = later_events(history, recorded);
    if file.begun && needs_another_format(file, later) {
        return record_anew(alloc, desk, file);
    }
    are_in_range(later);
    last_events_fit();
    let format = recording_format(desk, file);
    record_from(alloc, desk, format, recorded, file)
}

/// Records the events of a console that its file doesn't have, once the desk is open. How many it then has.
pub(crate) fn record_new<D: Replace + Drop>(
    alloc: Global,
    console: &Console,
    recorded: usize,
    file: &mut HistoryFile<D>,
) -> Result<usize, JournalError>
    requires { MayCommit (KeepsConsole D.disk file.old)
        console.now recorded }
    ensures count { IfOk result (λ n. n ≡ length (events_of console.now)) }
    ensures recorded { OnOk result (KeepsConsole D.disk file.new
        console.now) }
    ensures sync { file.new.journal.sync ≡ file.old.journal.sync }
    ensures fault { RecordsUnlessDisk D.disk result }
    ensures any_moment { CommitLeaves D.disk file.old file.new console.now recorded }
{
    match console {
        Console::Declaring { .. } => Ok(recorded),
        Console::Open(desk) => record_open(alloc, desk, recorded, file),
    }
}
