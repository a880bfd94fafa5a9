//! From the bytes of a reader to the bytes of a writer, with the events in a file.

ghost use Rattle.std.specs.Prelude.{◌≡◌, ◌≢◌, ◌+◌, ◌<◌, [], true, ℕ, Ok, length, string_bytes, OnOk, IfOk, IfErr, IfSome, IsErrOf};
ghost use Rattle.stm_history_file.specs.Durable.{CanGoOnFrom};
ghost use Rattle.stm_history.specs.Loading.{IsResumable};
ghost use Rattle.stm_lines.specs.TakenLines.{bytes_to_come};
ghost use Rattle.stm_lines.specs.Unread.{unread};
ghost use Rattle.stm_options.specs.Options.{AreRunOptions};
ghost use Rattle.stm_run.specs.ConsoleState.{events_of};
ghost use Rattle.stm_journaled_run.specs.DurableRun.{LoadsAtMost, RunsUnlessDisk, RefusalCause, resumed_console};
ghost use Rattle.stm_journaled_run.specs.WholeRun.{EndsRun, run_view};
ghost use Rattle.stm_journaled_run.specs.Committing.{FailsOver, WholeLinesAnswered};
ghost use Rattle.stm_journaled_run.specs.GoingOn.{AnswersNext, FailsAfterLines, FailsUnderWay, FinishesOver, InputLeaves, IsBetweenLines, IsFresh, IsUnderWay, LinesLeave, NextLeaves, StaysAfterLines, WritesWhole, run_at};

use crate::fault::DurableFault;
use crate::resuming::resumed_console;
use crate::session::DurableSession;
use std::alloc::Global;
use std::io::{Read, Write};
use std::marker::Brand;
use std::random::RandomSource;
use std::sync::ledger::{Blank, Ledger};
use std::thread::Threads;
use stm_commands::Threading;
use stm_history::Loaded;
use stm_history_file::HistoryFile;
use stm_journal::{Device, Replace};
use stm_lines::calls::Calls;
use stm_lines::command_lines::{CommandLine, next_command_line};
use stm_lines::{LineReader, RunFault, Steps};
use stm_options::Options;
use stm_store::Seed;
use stm_terms::NoMemory;

/// Commits and hands on what the writer holds, unless the next line is whole in the bytes that were read: the reader isn't called
/// before the answers to all lines were handed on.
fn commit_before_read<W: Write, D: Replace + Drop>(
    alloc: Global,
    session: &mut DurableSession,
    lines: &LineReader,
    writer: &mut W,
    file: &mut HistoryFile<D>,
) -> Result<(), DurableFault>
    requires { (every : ℕ) × IsBetweenLines D.disk every (run_at file.old session.old (W.contents writer.old)) }
    ensures tries { session.new.tries_from ≡ session.old.tries_from }
    ensures sync { file.new.journal.sync ≡ file.old.journal.sync }
    ensures cause { IfErr result (RunsUnlessDisk D.disk) }
    ensures done { OnOk result (StaysAfterLines D.disk (run_at file.old session.old (W.contents writer.old))
        (run_at file.new session.new (W.contents writer.new))) }
    ensures fault { IfErr result (FailsAfterLines D.disk (run_at file.old session.old (W.contents writer.old))
        file.new (W.contents writer.new)) }
    ensures any_moment { LinesLeave D.disk (run_at file.old session.old (W.contents writer.old)) file.new }
    ensures read { IfErr result (λ e. e ≢ DurableFault.Run RunFault.Read) }
{
    if lines.is_buffered() {
        Ok(())
    } else {
        session.hand_on(alloc, file, writer)
    }
}

/// Answers the next line, if there is one; returns whether more may follow. After a fault of the reader, what is held is still
/// committed.
fn answer_next<T: Threads + Sync, R: Read, W: Write, D: Replace + Drop, L: Ledger>(
    rt: &T,
    alloc: Global,
    every: u32,
    session: &mut DurableSession,
    lines: &mut LineReader,
    calls: &mut Calls<R, L>,
    writer: &mut W,
    file: &mut HistoryFile<D>,
) -> Result<bool, DurableFault>
    requires come { IsUnderWay D.disk every (unread R.remaining lines.old calls.old) (run_at file.old session.old (W.contents writer.old)) }
    requires because { 0 < session.old.tries_from → RefusalCause D.disk }
    ensures because { 0 < session.new.tries_from → RefusalCause D.disk }
    ensures same_reader { calls.new.reader.ghost_name ≡ calls.old.reader.ghost_name }
    ensures same_steps { calls.new.steps.ghost_name ≡ calls.old.steps.ghost_name }
    ensures shorter { result ≡ Ok true → bytes_to_come calls.new.left lines.new.chunk < bytes_to_come calls.old.left lines.old.chunk }
    ensures sync { file.new.journal.sync ≡ file.old.journal.sync }
    ensures cause { IfErr result (RunsUnlessDisk D.disk) }
    ensures done { IfOk result (AnswersNext D.disk every (unread R.remaining lines.old calls.old) (unread R.remaining lines.new calls.new)
        (run_at file.old session.old (W.contents writer.old)) (run_at file.new session.new (W.contents writer.new))) }
    ensures fault { IfErr result (FailsUnderWay D.disk every (unread R.remaining lines.old calls.old)
        (run_at file.old session.old (W.contents writer.old)) file.new (W.contents writer.new)) }
    ensures read_fault { IsErrOf result (DurableFault.Run RunFault.Read) → WritesWhole D.disk every (unread R.remaining lines.old calls.old)
        (run_at file.old session.old (W.contents writer.old)) (R.remaining calls.new.reader.now) (W.contents writer.new) }
    ensures any_moment { NextLeaves D.disk every (unread R.remaining lines.old calls.old)
        (run_at file.old session.old (W.contents writer.old)) file.new }
{
    match next_command_line(lines, calls) {
        Ok(CommandLine::Whole) => {
            match session.answer_line(rt, alloc, every, lines.line(), file, writer) {
                Ok(()) => Ok(true),
                Err(fault) => Err(fault),
            }
        }
        Ok(CommandLine::Last) => {
            match session.answer_line(rt, alloc, every, lines.line(), file, writer) {
                Ok(()) => Ok(false),
                Err(fault) => Err(fault),
            }
        }
        Ok(CommandLine::End) => Ok(false),
        Err(fault) => match session.commit(alloc, file, writer) {
            Ok(()) => Err(DurableFault::Run(fault)),
            Err(other) => Err(other),
        },
    }
}

/// A run of which nothing was read. `run_from` owns the session and the lines, so that this function, with a loop and many
/// ends, owns nothing.
fn run_session<T: Threads + Sync, R: Read, W: Write, D: Replace + Drop, L: Ledger>(
    rt: &T,
    alloc: Global,
    every: u32,
    session: &mut DurableSession,
    lines: &mut LineReader,
    calls: &mut Calls<R, L>,
    writer: &mut W,
    file: &mut HistoryFile<D>,
) -> Result<(), DurableFault>
    requires chunk { lines.old.chunk ≡ [] }
    requires fresh { IsFresh D.disk file.old session.old }
    ensures same_reader { calls.new.reader.ghost_name ≡ calls.old.reader.ghost_name }
    ensures same_steps { calls.new.steps.ghost_name ≡ calls.old.steps.ghost_name }
    ensures sync { file.new.journal.sync ≡ file.old.journal.sync }
    ensures cause { IfErr result (RunsUnlessDisk D.disk) }
    ensures done { OnOk result (FinishesOver D.disk file.new every session.old.console (R.remaining calls.old.reader.now)
        (W.contents writer.old) (W.contents writer.new)) }
    ensures fault { IfErr result (FailsOver D.disk file.old file.new every session.old.console (R.remaining calls.old.reader.now)
        (W.contents writer.old) (W.contents writer.new)) }
    ensures read_fault { IsErrOf result (DurableFault.Run RunFault.Read) → WholeLinesAnswered (RefusalCause D.disk) every session.old.console
        (R.remaining calls.old.reader.now) (R.remaining calls.new.reader.now) (W.contents writer.old) (W.contents writer.new) }
    ensures any_moment { InputLeaves D.disk file.old file.new every session.old.console (R.remaining calls.old.reader.now) }
{
    'lines: loop {
        commit_before_read(alloc, session, lines, writer, file)?;
        if !answer_next(rt, alloc, every, session, lines, calls, writer, file)? {
            return session.hand_on(alloc, file, writer);
        }
    }
}

/// How many events were loaded.
#[tactic(auto, unfolding(stm_run::specs::Console::initial_console))]
fn loaded_count(loaded: &Option<Loaded>) -> usize
    ensures { (limit : ℕ) → result ≡ length (events_of (resumed_console limit loaded.now)) }
{
    match loaded {
        None => 0,
        Some(loaded) => loaded.events.len(),
    }
}

/// The session of a run that goes on from what was loaded.
fn resumed_session<T: Threads + RandomSource + Sync>(
    rt: &T,
    alloc: Global,
    loaded: Option<Loaded>,
    options: Options,
) -> Result<DurableSession, NoMemory>
    requires options { AreRunOptions options }
    requires resumable { IfSome loaded IsResumable }
    requires fits { LoadsAtMost options.max_events loaded }
    ensures console { IfOk result (λ s. s.console ≡ resumed_console options.max_events loaded) }
    ensures held { IfOk result (λ s. string_bytes s.held ≡ []) }
    ensures tries { IfOk result (λ s. s.tries_from ≡ 0) }
    ensures recorded { IfOk result (λ s. s.recorded ≡ length (events_of (resumed_console options.max_events loaded))) }
{
    let recorded = loaded_count(&loaded);
    let threading = Threading::new(options.workers, options.levels);
    match resumed_console(alloc, Seed::random(rt), loaded, options.max_events) {
        Ok(console) => Ok(DurableSession::new(alloc, console, recorded, threading)),
        Err(error) => Err(error),
    }
}

/// A run whose session has begun.
fn run_begun<T: Threads + Sync, R: Read, W: Write, D: Replace + Drop, L: Ledger>(
    rt: &T,
    alloc: Global,
    every: u32,
    session: &mut DurableSession,
    reader: &mut R,
    writer: &mut W,
    file: &mut HistoryFile<D>,
    blank: Blank,
) -> Result<(), DurableFault>
    requires fresh { IsFresh D.disk file.old session.old }
    requires name { blank.name ≡ L.name }
    requires parts { blank.parts ≡ L.parts }
    requires some { 0 < blank.parts }
    ensures sync { file.new.journal.sync ≡ file.old.journal.sync }
    ensures cause { IfErr result (RunsUnlessDisk D.disk) }
    ensures done { OnOk result (FinishesOver D.disk file.new every session.old.console (R.remaining reader.old)
        (W.contents writer.old) (W.contents writer.new)) }
    ensures fault { IfErr result (FailsOver D.disk file.old file.new every session.old.console (R.remaining reader.old)
        (W.contents writer.old) (W.contents writer.new)) }
    ensures read_fault { IsErrOf result (DurableFault.Run RunFault.Read) → WholeLinesAnswered (RefusalCause D.disk) every session.old.console
        (R.remaining reader.old) (R.remaining reader.new) (W.contents writer.old) (W.contents writer.new) }
    ensures any_moment { InputLeaves D.disk file.old file.new every session.old.console (R.remaining reader.old) }
{
    let mut steps = Steps::<L>::new(blank);
    let mut lines = LineReader::new(alloc);
    let mut calls = Calls::new(reader, &mut steps);
    run_session(
        rt, alloc, every, session, &mut lines, &mut calls, writer, file,
    )
}

/// Does what `stm_run::run` does on a desk whose history is kept in a file: it goes on from the history that was loaded, and writes no
/// answer before the events of its line are in the file and, as the sync mode says, on the disk.
///
/// Answers are held until then. They are committed before each call of the reader, at the end, before `history` and `events`, and
/// as soon as 64 KiB are held. Events are recorded in batches of at most 4,096; an event whose line has more than 1 MiB is
/// refused as `JournalError::TooLong`. After a fault of the journal the file has to be opened again.
///
/// If an event declares a variable and the file is in a format in which none can, the whole history is written to a new file that
/// takes the place of the old one: so once at most.
///
/// At a checkpoint a new file takes the place of the old one at once. A line asks for a checkpoint, or one comes by itself after a
/// line that adds an event, once the history has `checkpoint_every` events. If the file refuses it, the run goes on in the old file: the
/// line is refused, or no checkpoint comes by itself, and is tried again when an eighth of `checkpoint_every` events has been added.
/// `Replace::report` says why.
///
/// That each answer waits for its events also while the run goes on is in the contracts of the two functions that write
/// (`DurableSession::write_held`, `write_streamed`). No clause says when answers are committed, how large batches are, or when a checkpoint
/// that was refused is tried again.
pub fn run_durable<T: Threads + RandomSource + Sync, R: Read, W: Write, D: Replace + Drop>(
    rt: &T,
    alloc: Global,
    reader: &mut R,
    writer: &mut W,
    file: &mut HistoryFile<D>,
    loaded: Option<Loaded>,
    options: Options,
) -> Result<(), DurableFault>
    requires options { AreRunOptions options }
    // As `open_history` returns them: the file has what was loaded.
    requires opened { CanGoOnFrom D.disk file.old loaded }
    requires fits { LoadsAtMost options.max_events loaded }
    // What was written, and what the file has. A crash after the run leaves a file that covers what was written; one at any moment of it
    // the history from before, and some first events of its lines.
    ensures { EndsRun D.disk file.old file.new (run_view options loaded
        (R.remaining reader.old) (R.remaining reader.new) (W.contents writer.old) (W.contents writer.new)) result }
{
    match resumed_session(rt, alloc, loaded, options) {
        Ok(mut session) => run_begun::<T, R, W, D, Brand>(
            rt,
            alloc,
            options.checkpoint_every,
            &mut session,
            reader,
            writer,
            file,
            Blank::new(1),
        ),
        Err(_) => Err(DurableFault::Run(RunFault::NoMemory)),
    }
}
