//! A run that keeps its history in a file.

ghost use Rattle.std.specs.Prelude.{◌≡◌, ℕ, List, Option, None};
ghost use Rattle.stm_journaled_run.specs.DurableRun.{LoadsAtMost, durable_status};
ghost use Rattle.stm_journal.specs.Disk.{IsSettled};
ghost use Rattle.stm_console.specs.Journal.{HasBytes, load_status, open_status, unopened_status, journal_status};
ghost use Rattle.stm_console.specs.Program.{RunsOn, streams};
ghost use Rattle.stm_options.specs.Options.{AreRunOptions};

use crate::files::{JournalFiles, OpenError};
use crate::status::{DONE, FAILED, NO_MEMORY, NOT_RIGHT};
use std::alloc::Global;
use std::io::{Read, Write};
use std::random::RandomSource;
use std::thread::Threads;
use stm_history::{HistoryFault, LoadFault, Loaded};
use stm_history_file::{OpenFault, Opened, open_history};
use stm_journal::{JournalError, Replace, SyncMode};
use stm_journaled_run::{DurableFault, run_durable};
use stm_lines::RunFault;
use stm_options::Options;
use stm_store::Seed;

/// Reports that memory ran out.
fn report_no_memory<E: Write>(errors: &mut E) -> u8
    ensures { result ≡ NO_MEMORY }
{
    let _ = writeln!(errors, "{}", RunFault::NoMemory);
    NO_MEMORY
}

/// Reports why a file can't be opened, and returns the status.
fn report_open<E: Write>(name: &str, error: OpenError, errors: &mut E) -> u8
    ensures { result ≡ open_status error }
{
    if let OpenError::NoMemory = error {
        return report_no_memory(errors);
    }
    // A message would be written to the journal.
    if let OpenError::IsErrors = error {
        return FAILED;
    }
    let _ = writeln!(errors, "stmdesk: {name}: {error}");
    error.status()
}

/// Reports an error of a file.
fn report_failed<E: Write>(name: &str, error: JournalError, errors: &mut E) -> u8
    ensures { result ≡ FAILED }
{
    let _ = writeln!(errors, "stmdesk: {name}: {error}");
    FAILED
}

/// Reports why a file can't be read or repaired, and returns the status.
fn report_journal<E: Write>(name: &str, error: JournalError, errors: &mut E) -> u8
    ensures { result ≡ journal_status error }
{
    match error {
        JournalError::NoMemory => report_no_memory(errors),
        JournalError::Failed => report_failed(name, error, errors),
        JournalError::NoSpace => report_failed(name, error, errors),
        JournalError::Full => report_failed(name, error, errors),
        JournalError::TooLong => report_failed(name, error, errors),
        JournalError::TornTooLong => {
            let _ = writeln!(
                errors,
                "stmdesk: {name}: more than 1048576 bytes after the last whole line"
            );
            NOT_RIGHT
        }
    }
}

/// Reports why the lines of a file are no history to go on from, and returns the status.
fn report_load<E: Write>(name: &str, fault: LoadFault, errors: &mut E) -> u8
    ensures { result ≡ load_status fault }
{
    match fault {
        LoadFault::OldFormat(format) => {
            let _ = writeln!(
                errors,
                "stmdesk: {name}: format {format}; a journal has format 3, 4 or 5"
            );
            NOT_RIGHT
        }
        LoadFault::Fault(HistoryFault::BadHeader) => {
            let _ = writeln!(errors, "stmdesk: {name}: bad header");
            NOT_RIGHT
        }
        LoadFault::Fault(HistoryFault::BadLine(line)) => {
            let _ = writeln!(errors, "stmdesk: {name}: bad line {line}");
            NOT_RIGHT
        }
        LoadFault::Fault(HistoryFault::NotLegal(line)) => {
            let _ = writeln!(errors, "stmdesk: {name}: not legal {line}");
            NOT_RIGHT
        }
        LoadFault::Fault(HistoryFault::ReadFault) => {
            report_journal(name, JournalError::Failed, errors)
        }
        LoadFault::Fault(HistoryFault::NoMemory) => report_no_memory(errors),
    }
}

/// Reports why a file isn't gone on from, and returns the status.
fn report_unopened<E: Write>(name: &str, fault: OpenFault, errors: &mut E) -> u8
    ensures { result ≡ unopened_status fault }
{
    match fault {
        OpenFault::Journal(error) => report_journal(name, error, errors),
        OpenFault::History(fault) => report_load(name, fault, errors),
        OpenFault::Foreign => report_load(name, LoadFault::Fault(HistoryFault::BadHeader), errors),
    }
}

/// Reports why a run ended, and returns the status.
fn report_durable<E: Write>(fault: DurableFault, errors: &mut E) -> u8
    ensures { result ≡ durable_status fault }
{
    match fault {
        DurableFault::Journal(JournalError::NoMemory) => report_no_memory(errors),
        _ => {
            let _ = writeln!(errors, "{fault}");
            fault.status()
        }
    }
}

/// Reports what a repair dropped, if it dropped anything.
fn report_dropped<E: Write>(name: &str, dropped: usize, errors: &mut E) {
    if dropped > 0 {
        let _ = writeln!(
            errors,
            "stmdesk: {name}: dropped {dropped} bytes after the last whole line"
        );
    }
}

/// How many events a history has, if it has no room for another one. It is no obstacle if checkpoints are made at as many events:
/// then the command `checkpoint` makes room.
fn full_count(loaded: &Option<Loaded>, options: Options) -> Option<usize>
    ensures { result ≡ None → LoadsAtMost options.max_events loaded.now }
{
    match loaded {
        Some(loaded) => {
            let count = loaded.events.len();
            let limit = options.max_events as usize;
            if count < limit || (count == limit && count >= options.checkpoint_every as usize) {
                None
            } else {
                Some(count)
            }
        }
        None => None,
    }
}

/// A run on a device that was opened.
fn run_on_device<T: Threads + RandomSource + Sync, D: Replace + Drop, R: Read, W: Write, E: Write>(
    rt: &T,
    alloc: Global,
    options: Options,
    sync: SyncMode,
    name: &str,
    device: D,
    reader: &mut R,
    writer: &mut W,
    errors: &mut E,
) -> u8
    requires options { AreRunOptions options }
    requires settled { IsSettled D.disk device }
    ensures { (contents : Option (List ℕ)) → HasBytes D.disk contents device
        → RunsOn options contents (streams (R.remaining reader.old) (R.remaining reader.new)
        (W.contents writer.old) (W.contents writer.new)) result }
{
    match open_history(alloc, Seed::random(rt), device, sync) {
        Ok(opened) => {
            let Opened {
                mut file,
                loaded,
                found,
            } = opened;
            report_dropped(name, found.dropped, errors);
            match full_count(&loaded, options) {
                Some(count) => {
                    let _ = writeln!(
                        errors,
                        "stmdesk: {name}: the history is full ({count} events)"
                    );
                    FAILED
                }
                None => match run_durable(rt, alloc, reader, writer, &mut file, loaded, options) {
                    Ok(()) => DONE,
                    Err(fault) => report_durable(fault, errors),
                },
            }
        }
        Err((_, fault)) => report_unopened(name, fault, errors),
    }
}

/// Opens the file of this name, and goes on from the history that it has (`stm_journaled_run`), or begins one.
///
/// A file that has no history is left as it was, and so is one whose history is full, but for what comes after its last whole
/// line. What the file has at the end, and what a crash may leave of it, is in the contract of `run_durable`: the file is opened
/// and closed here, so that this one can't name it.
pub(crate) fn run_on_file<
    T: Threads + RandomSource + Sync,
    F: JournalFiles,
    R: Read,
    W: Write,
    E: Write,
>(
    rt: &T,
    alloc: Global,
    files: &F,
    options: Options,
    sync: SyncMode,
    name: &str,
    reader: &mut R,
    writer: &mut W,
    errors: &mut E,
) -> u8
    requires { AreRunOptions options }
    ensures { RunsOn options (F.contents files.now name.now)
        (streams (R.remaining reader.old) (R.remaining reader.new) (W.contents writer.old) (W.contents writer.new)) result }
{
    match files.open(name) {
        Ok(device) => run_on_device(
            rt, alloc, options, sync, name, device, reader, writer, errors,
        ),
        Err(error) => report_open(name, error, errors),
    }
}
