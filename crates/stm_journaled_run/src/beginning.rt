//! A new file for a console that makes a checkpoint.

ghost use Rattle.std.specs.Prelude.{◌≡◌, ◌≢◌, Some, true, false, OnOk, IfOk, IfErr};
ghost use Rattle.stm_machine.specs.Checkpoints.{MayStart};
ghost use Rattle.stm_desk.specs.Checkpointed.{checkpoint_now};
ghost use Rattle.stm_journal.specs.declared.error.JournalError.TheVariants.{NoMemory as OutOfMemory};
ghost use Rattle.stm_journal.specs.Replacing.{OnRefused, journal_result};
ghost use Rattle.stm_run.specs.declared.console.Console.TheVariants.{Open};
ghost use Rattle.stm_run.specs.ConsoleState.{present_checkpoint, is_open, table_of, with_checkpoint};
ghost use Rattle.stm_journaled_run.specs.DurableRun.{RecordsUnlessDisk, RunsUnlessDisk, KeepsConsole, KeepsConsoles};
ghost use Rattle.stm_journaled_run.specs.Committing.{MayBeginAnew, BeginningLeaves, BeginsOrKeeps};
ghost use Rattle.stm_journaled_run.specs.NewEvents.{MayBeginRun};

use crate::fault::DurableFault;
use crate::laws::checkpoints_fit;
use crate::ranges::{blocks_in_range, cells_in_range};
use std::alloc::Global;
use stm_commands::OpenDesk;
use stm_desk::Checkpoint;
use stm_history_file::HistoryFile;
use stm_history_text::format_for;
use stm_journal::{JournalError, Replace, ReplaceError};
use stm_lines::RunFault;
use stm_run::console::Console;

/// Replaces the file of an open desk by one that begins from the checkpoint of the desk.
fn begin_desk_anew<D: Replace + Drop>(
    alloc: Global,
    desk: &OpenDesk,
    checkpoint: &Checkpoint,
    file: &mut HistoryFile<D>,
) -> Result<(), ReplaceError>
    requires may { MayBeginAnew (KeepsConsole D.disk file.old) (with_checkpoint (Open desk.now)) }
    requires taken { checkpoint.now ≡ checkpoint_now desk.now.desk }
    requires start { MayStart desk.now.desk.table (Some checkpoint.now) }
    ensures kept { OnOk result (KeepsConsole D.disk file.new (with_checkpoint (Open desk.now))) }
    ensures may_begin { OnOk result (MayBeginRun (with_checkpoint (Open desk.now))) }
    ensures refused { OnRefused result (KeepsConsoles D.disk file.old file.new) }
    ensures sync { file.new.journal.sync ≡ file.old.journal.sync }
    ensures fault { RecordsUnlessDisk D.disk (journal_result result) }
    ensures any_moment { BeginningLeaves D.disk file.old file.new (with_checkpoint (Open desk.now)) }
{
    cells_in_range(checkpoint.store());
    blocks_in_range(checkpoint.blocks());
    // The names of a checkpoint may be known together, as this shows.
    let _names = checkpoint.names().len();
    checkpoints_fit();
    let format = format_for(Some(checkpoint), &[]);
    file.begin_anew(alloc, format, desk.table(), Some(checkpoint), &[])
}

/// Replaces the file of a console by one that begins from the checkpoint of its open desk. A refusal leaves the file as it was.
fn begin_file_anew<D: Replace + Drop>(
    alloc: Global,
    console: &Console,
    checkpoint: &Checkpoint,
    file: &mut HistoryFile<D>,
) -> Result<(), ReplaceError>
    requires open { is_open console.now ≡ true }
    requires may { MayBeginAnew (KeepsConsole D.disk file.old) (with_checkpoint console.now) }
    requires taken { checkpoint.now ≡ present_checkpoint console.now }
    requires start { MayStart (table_of console.now) (Some checkpoint.now) }
    ensures kept { OnOk result (KeepsConsole D.disk file.new (with_checkpoint console.now)) }
    ensures may_begin { OnOk result (MayBeginRun (with_checkpoint console.now)) }
    ensures refused { OnRefused result (KeepsConsoles D.disk file.old file.new) }
    ensures sync { file.new.journal.sync ≡ file.old.journal.sync }
    ensures fault { RecordsUnlessDisk D.disk (journal_result result) }
    // A crash at any moment leaves what the file had, or the lines of the checkpoint.
    ensures any_moment { BeginningLeaves D.disk file.old file.new (with_checkpoint console.now) }
{
    match console {
        Console::Open(desk) => begin_desk_anew(alloc, desk, checkpoint, file),
        Console::Declaring { .. } => unreachable!(),
    }
}

/// Whether memory ran out.
fn is_no_memory(error: JournalError) -> bool
    ensures yes { result ≡ true → error ≡ OutOfMemory }
    ensures no { result ≡ false → error ≢ OutOfMemory }
{
    match error {
        JournalError::NoMemory => true,
        JournalError::Failed => false,
        JournalError::NoSpace => false,
        JournalError::Full => false,
        JournalError::TooLong => false,
        JournalError::TornTooLong => false,
    }
}

/// Does what `begin_file_anew` does, and reports a refusal. Returns whether the file was replaced. If memory ran out, that is an error.
pub(crate) fn begin_or_report<D: Replace + Drop>(
    alloc: Global,
    console: &Console,
    checkpoint: &Checkpoint,
    file: &mut HistoryFile<D>,
) -> Result<bool, DurableFault>
    requires open { is_open console.now ≡ true }
    requires may { MayBeginAnew (KeepsConsole D.disk file.old) (with_checkpoint console.now) }
    requires taken { checkpoint.now ≡ present_checkpoint console.now }
    requires start { MayStart (table_of console.now) (Some checkpoint.now) }
    ensures begun { IfOk result (BeginsOrKeeps D.disk file.old file.new (with_checkpoint console.now)) }
    ensures sync { file.new.journal.sync ≡ file.old.journal.sync }
    ensures cause { IfErr result (RunsUnlessDisk D.disk) }
    ensures journal { IfErr result (λ e. (f : RunFault) → e ≡ DurableFault.Run f → ⊥) }
    ensures any_moment { BeginningLeaves D.disk file.old file.new (with_checkpoint console.now) }
{
    match begin_file_anew(alloc, console, checkpoint, file) {
        Ok(()) => Ok(true),
        Err(ReplaceError::Refused(error)) => {
            if is_no_memory(error) {
                return Err(DurableFault::Journal(error));
            }
            file.report(error);
            Ok(false)
        }
        Err(ReplaceError::Unfinished(error)) => Err(DurableFault::Journal(error)),
    }
}
