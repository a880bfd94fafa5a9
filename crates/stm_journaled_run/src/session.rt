//! A run under way, which keeps its history in a file: lines in, events to the file, answers out.
//!
//! Answers are held until the events of their lines are in the file. Each byte of an answer is written by `write_held` or
//! `write_streamed`, which ask for a file that has the history of all lines so far.

ghost use Rattle.std.specs.Prelude.{◌≡◌, ◌≢◌, ◌<◌, ◌++◌, [], true, false, ℕ, List, Some, length, string_bytes, OnOk, OnErr, IfOk, IfErr};
ghost use Rattle.std.specs.Io.KnownBytes.{Appends};
ghost use Rattle.stm_terms.specs.Texts.{IsPrefixOf};
ghost use Rattle.stm_lines.specs.WrittenFronts.{WritesText};
ghost use Rattle.stm_run.specs.Abstraction.{IsStep};
ghost use Rattle.stm_run.specs.Console.{step};
ghost use Rattle.stm_machine.specs.Checkpoints.{MayStart};
ghost use Rattle.stm_commands.specs.Checkpointing.{are_tickets_full};
ghost use Rattle.stm_run.specs.declared.console.Console.TheVariants.{Open};
ghost use Rattle.stm_run.specs.ConsoleState.{present_checkpoint, present_desk, is_open, table_of, events_of, with_checkpoint};
ghost use Rattle.stm_run.specs.Fitting.{VariablesFit};
ghost use Rattle.stm_run.specs.Growing.{Grows};
ghost use Rattle.stm_run.specs.LineCheckpoints.{asked_checkpoint_step, asks_checkpoint, reply_checkpoints, line_checkpoints, is_streamed, refused_step, made_step};
ghost use Rattle.stm_journaled_run.specs.DurableRun.{RunsUnlessDisk, RefusalCause, KeepsConsole};
ghost use Rattle.stm_journaled_run.specs.Committing.{MayCommit, MayBeginAnew, streamed_text, HasNotWritten, CommitLeaves, BeginningLeaves, BeginningLeavesEither, no_checkpoint_text, HasTriedCheckpoint, HasTakenLine, has_begun, HasNotTaken, TakingLeaves};
ghost use Rattle.stm_journaled_run.specs.GoingOn.{AnswersLine, FailsAfterLines, FailsAtLine, IsBetweenLines, LineLeaves, LinesLeave, StaysAfterLines, run_at};

use crate::beginning::begin_or_report;
use crate::fault::DurableFault;
use crate::recording::record_new;
use std::alloc::Global;
use std::io::Write;
use std::thread::Threads;
use stm_commands::Threading;
use stm_commands::commands::checkpoint::write_checkpoint_line;
use stm_commands::refusals::refuse;
use stm_desk::Checkpoint;
use stm_history_file::HistoryFile;
use stm_journal::{Device, Replace};
use stm_lines::RunFault;
use stm_lines::output::{flush, write_text};
use stm_run::console::Console;
use stm_run::reply::Reply;
use stm_run::session::fault_of;
use stm_terms::NoMemory;

/// How many bytes of answers are held at least before they are written in mid-input: 64 KiB.
const MOST_HELD: usize = 65_536;

/// What became of a checkpoint that was tried.
#[derive(Clone, Copy)]
pub(crate) enum Tried {
    /// It was made, in the file too. The history had this many events.
    Made(u32),
    /// Tickets could run out after it.
    TicketsFull,
    /// The file refused it.
    RefusedByFile,
}

/// How a line was taken, whose answer is held, or all of it that isn't to be streamed.
#[derive(Clone, Copy)]
pub(crate) enum Taken {
    /// Its events are to be recorded.
    Held,
    /// It made a checkpoint, which the file has.
    Begun,
    /// Its checkpoint couldn't be made, or wasn't tried again. Its events are to be recorded.
    Unmade,
    /// What is left of its answer is to be streamed.
    Streamed(Reply),
}

/// The console, the answers that are held, how many of its events are in the file, from how many on a checkpoint is tried by itself
/// after one that was refused, and how many threads evaluate.
pub(crate) struct DurableSession {
    console: Console,
    held: String,
    recorded: usize,
    tries_from: usize,
    threading: Threading,
}

// Written out, and not derived, so that the proof of each owner calls it once.
impl Drop for DurableSession {
    fn drop(self) {
        let DurableSession {
            console: _,
            held: _,
            recorded: _,
            tries_from: _,
            threading: _,
        } = self;
    }
}

impl DurableSession {
    /// A run that begins with this console. The file has the first `recorded` of its events.
    pub(crate) fn new(
        alloc: Global,
        console: Console,
        recorded: usize,
        threading: Threading,
    ) -> DurableSession
        ensures console { result.console ≡ console }
        ensures held { string_bytes result.held ≡ [] }
        ensures recorded { result.recorded ≡ recorded }
        ensures tries { result.tries_from ≡ 0 }
    {
        DurableSession {
            console,
            held: String::new(alloc),
            recorded,
            tries_from: 0,
            threading,
        }
    }

    /// Answers a line, and holds the answer, or what of it isn't to be streamed.
    fn hold_answer<T: Threads + Sync>(
        &mut self,
        rt: &T,
        alloc: Global,
        line: &[u8],
    ) -> Result<Reply, NoMemory>
        ensures step { IfOk result (λ r. IsStep r (string_bytes self.old.held) (string_bytes self.new.held)
            self.new.console (step self.old.console line.now)) }
        ensures asked { IfOk result (λ r. asks_checkpoint r ≡ true
            → self.new.console ≡ Open (present_desk self.old.console)) }
        ensures made { IfOk result (λ r. reply_checkpoints (present_desk self.old.console) r
            ≡ line_checkpoints self.old.console line.now) }
        ensures grows { OnOk result (Grows self.old.console self.new.console) }
        ensures variables { OnOk result (VariablesFit (table_of self.old.console)
            → VariablesFit (table_of self.new.console)) }
        ensures streamed { IfOk result (λ r. is_streamed r ≡ true
            → events_of self.new.console ≡ events_of self.old.console) }
        ensures recorded { self.new.recorded ≡ self.old.recorded }
        ensures tries { self.new.tries_from ≡ self.old.tries_from }
    {
        stm_run::fitting_laws::variables_stay_fit();
        self.console
            .answer(rt, alloc, self.threading, line, &mut self.held)
    }

    /// Writes the answers that are held. A crash at any moment of it leaves what the file has: the events of all lines so far.
    fn write_held<D: Device, W: Write>(
        &mut self,
        file: &HistoryFile<D>,
        writer: &mut W,
    ) -> Result<(), RunFault>
        requires { KeepsConsole D.disk file.now self.old.console }
        ensures done { OnOk result (Appends (W.contents writer.old) (W.contents writer.new)
            (string_bytes self.old.held)) }
        ensures none { OnOk result (string_bytes self.new.held ≡ []) }
        ensures part { OnErr result ((front : List ℕ)
            × IsPrefixOf front (string_bytes self.old.held)
            × Appends (W.contents writer.old) (W.contents writer.new) front) }
        ensures console { self.new.console ≡ self.old.console }
        ensures recorded { self.new.recorded ≡ self.old.recorded }
        ensures tries { self.new.tries_from ≡ self.old.tries_from }
        ensures fault { IfErr result (λ e. e ≢ RunFault.Read) }
    {
        match write_text(writer, self.held.as_bytes()) {
            Ok(()) => {
                self.held.clear();
                Ok(())
            }
            Err(fault) => Err(fault),
        }
    }

    /// Writes the history, or its later events, if that is the reply: they can be longer than memory holds. A crash at any
    /// moment of it leaves what the file has: the events of all lines so far.
    fn write_streamed<D: Device, W: Write>(
        &self,
        alloc: Global,
        reply: Reply,
        file: &HistoryFile<D>,
        writer: &mut W,
    ) -> Result<(), RunFault>
        requires { KeepsConsole D.disk file.now self.now.console }
        ensures written { WritesText result (W.contents writer.old) (W.contents writer.new)
            (streamed_text reply self.now.console) }
        ensures fault { IfErr result (λ e. e ≢ RunFault.Read) }
    {
        let written = match reply {
            Reply::Text | Reply::Checkpoint => return Ok(()),
            Reply::History => self.console.write_history(alloc, writer),
            Reply::Events(n) => self.console.write_later_events(alloc, writer, n),
        };
        match written {
            Ok(()) => Ok(()),
            Err(fault) => Err(fault_of(fault)),
        }
    }

    /// Records the events of all lines so far in the file, and then writes the answers that are held.
    pub(crate) fn commit<D: Replace + Drop, W: Write>(
        &mut self,
        alloc: Global,
        file: &mut HistoryFile<D>,
        writer: &mut W,
    ) -> Result<(), DurableFault>
        requires { MayCommit (KeepsConsole D.disk file.old) self.old.console self.old.recorded }
        ensures done { OnOk result (Appends (W.contents writer.old) (W.contents writer.new)
            (string_bytes self.old.held)) }
        ensures none { OnOk result (string_bytes self.new.held ≡ []) }
        ensures count { OnOk result (self.new.recorded ≡ length (events_of self.old.console)) }
        ensures console { self.new.console ≡ self.old.console }
        ensures tries { self.new.tries_from ≡ self.old.tries_from }
        ensures sync { file.new.journal.sync ≡ file.old.journal.sync }
        ensures cause { IfErr result (RunsUnlessDisk D.disk) }
        // The file has the events, unless that was the fault; then nothing was written.
        ensures kept { OnOk result (KeepsConsole D.disk file.new self.old.console) }
        ensures fault { IfErr result (λ e. HasNotWritten e (W.contents writer.old) (W.contents writer.new)
            (string_bytes self.old.held) (KeepsConsole D.disk file.new self.old.console)) }
        ensures any_moment { CommitLeaves D.disk file.old file.new self.old.console self.old.recorded }
    {
        match record_new(alloc, &self.console, self.recorded, file) {
            Ok(count) => {
                self.recorded = count;
                match self.write_held(file, writer) {
                    Ok(()) => Ok(()),
                    Err(fault) => Err(DurableFault::Run(fault)),
                }
            }
            Err(error) => Err(DurableFault::Journal(error)),
        }
    }

    /// Commits, and then hands on what the writer holds.
    pub(crate) fn hand_on<D: Replace + Drop, W: Write>(
        &mut self,
        alloc: Global,
        file: &mut HistoryFile<D>,
        writer: &mut W,
    ) -> Result<(), DurableFault>
        requires { MayCommit (KeepsConsole D.disk file.old) self.old.console self.old.recorded }
        ensures done { OnOk result (Appends (W.contents writer.old) (W.contents writer.new)
            (string_bytes self.old.held)) }
        ensures none { OnOk result (string_bytes self.new.held ≡ []) }
        ensures count { OnOk result (self.new.recorded ≡ length (events_of self.old.console)) }
        ensures console { self.new.console ≡ self.old.console }
        ensures tries { self.new.tries_from ≡ self.old.tries_from }
        ensures sync { file.new.journal.sync ≡ file.old.journal.sync }
        ensures cause { IfErr result (RunsUnlessDisk D.disk) }
        ensures kept { OnOk result (KeepsConsole D.disk file.new self.old.console) }
        ensures fault { IfErr result (λ e. HasNotWritten e (W.contents writer.old) (W.contents writer.new)
            (string_bytes self.old.held) (KeepsConsole D.disk file.new self.old.console)) }
        ensures any_moment { CommitLeaves D.disk file.old file.new self.old.console self.old.recorded }
    {
        match self.commit(alloc, file, writer) {
            Ok(()) => match flush(writer) {
                Ok(()) => Ok(()),
                Err(fault) => Err(DurableFault::Run(fault)),
            },
            Err(fault) => Err(fault),
        }
    }

    /// Commits, and then writes what is to be streamed.
    fn stream<D: Replace + Drop, W: Write>(
        &mut self,
        alloc: Global,
        reply: Reply,
        file: &mut HistoryFile<D>,
        writer: &mut W,
    ) -> Result<(), DurableFault>
        requires { MayCommit (KeepsConsole D.disk file.old) self.old.console self.old.recorded }
        ensures done { OnOk result (Appends (W.contents writer.old) (W.contents writer.new)
            (string_bytes self.old.held ++ streamed_text reply self.old.console)) }
        ensures none { OnOk result (string_bytes self.new.held ≡ []) }
        ensures count { OnOk result (self.new.recorded ≡ length (events_of self.old.console)) }
        ensures console { self.new.console ≡ self.old.console }
        ensures tries { self.new.tries_from ≡ self.old.tries_from }
        ensures sync { file.new.journal.sync ≡ file.old.journal.sync }
        ensures cause { IfErr result (RunsUnlessDisk D.disk) }
        ensures kept { OnOk result (KeepsConsole D.disk file.new self.old.console) }
        ensures fault { IfErr result (λ e. HasNotWritten e (W.contents writer.old) (W.contents writer.new)
            (string_bytes self.old.held ++ streamed_text reply self.old.console) (KeepsConsole D.disk file.new self.old.console)) }
        ensures any_moment { CommitLeaves D.disk file.old file.new self.old.console self.old.recorded }
    {
        match self.commit(alloc, file, writer) {
            Ok(()) => match self.write_streamed(alloc, reply, file, writer) {
                Ok(()) => Ok(()),
                Err(fault) => Err(DurableFault::Run(fault)),
            },
            Err(fault) => Err(fault),
        }
    }

    /// Puts a checkpoint of the open desk into a new file, which takes the place of the old one, and lets the history begin from it.
    fn begin_anew<D: Replace + Drop>(
        &mut self,
        alloc: Global,
        checkpoint: Checkpoint,
        file: &mut HistoryFile<D>,
    ) -> Result<Tried, DurableFault>
        requires open { is_open self.old.console ≡ true }
        requires may { MayBeginAnew (KeepsConsole D.disk file.old) (with_checkpoint self.old.console) }
        requires taken { checkpoint ≡ present_checkpoint self.old.console }
        requires start { MayStart (table_of self.old.console) (Some checkpoint) }
        requires room { are_tickets_full (present_desk self.old.console) ≡ false }
        ensures tried { IfOk result (HasTriedCheckpoint D.disk file.old file.new self.old.console self.new.console
            self.old.recorded self.new.recorded) }
        ensures held { string_bytes self.new.held ≡ string_bytes self.old.held }
        ensures tries { self.new.tries_from ≡ self.old.tries_from }
        ensures sync { file.new.journal.sync ≡ file.old.journal.sync }
        ensures cause { IfErr result (RunsUnlessDisk D.disk) }
        ensures journal { IfErr result (λ e. (f : RunFault) → e ≡ DurableFault.Run f → ⊥) }
        ensures any_moment { BeginningLeaves D.disk file.old file.new (with_checkpoint self.old.console) }
    {
        match begin_or_report(alloc, &self.console, &checkpoint, file) {
            Ok(true) => {
                // The history of the console has no event then.
                self.recorded = 0;
                Ok(Tried::Made(self.console.begin_from(checkpoint)))
            }
            Ok(false) => Ok(Tried::RefusedByFile),
            Err(fault) => Err(fault),
        }
    }

    /// Makes a checkpoint of the open desk, unless tickets could run out after it or the file refuses it: then nothing has changed.
    fn try_checkpoint<D: Replace + Drop>(
        &mut self,
        alloc: Global,
        file: &mut HistoryFile<D>,
    ) -> Result<Tried, DurableFault>
        requires open { is_open self.old.console ≡ true }
        requires may { MayBeginAnew (KeepsConsole D.disk file.old) (with_checkpoint self.old.console) }
        ensures tried { IfOk result (HasTriedCheckpoint D.disk file.old file.new self.old.console self.new.console
            self.old.recorded self.new.recorded) }
        ensures held { string_bytes self.new.held ≡ string_bytes self.old.held }
        ensures tries { self.new.tries_from ≡ self.old.tries_from }
        ensures sync { file.new.journal.sync ≡ file.old.journal.sync }
        ensures cause { IfErr result (RunsUnlessDisk D.disk) }
        ensures fault { IfErr result (HasNotTaken D.disk file.old file.new (asked_checkpoint_step self.old.console).0) }
        ensures any_moment { BeginningLeavesEither D.disk file.old file.new self.old.console }
    {
        match self.console.next_checkpoint() {
            Ok(Some(checkpoint)) => self.begin_anew(alloc, checkpoint, file),
            Ok(None) => Ok(Tried::TicketsFull),
            Err(_) => Err(DurableFault::Run(RunFault::NoMemory)),
        }
    }

    /// Makes the checkpoint that a line asked for, and holds the answer.
    fn checkpoint_asked<D: Replace + Drop>(
        &mut self,
        alloc: Global,
        file: &mut HistoryFile<D>,
    ) -> Result<Taken, DurableFault>
        requires open { is_open self.old.console ≡ true }
        requires may { MayBeginAnew (KeepsConsole D.disk file.old) (with_checkpoint self.old.console) }
        requires because { 0 < self.old.tries_from → RefusalCause D.disk }
        ensures taken { IfOk result (HasTakenLine D.disk file.old file.new (asked_checkpoint_step self.old.console)
            (self.old.console, no_checkpoint_text) self.new.console (string_bytes self.old.held) (string_bytes self.new.held)
            self.old.recorded self.new.recorded) }
        ensures room { IfOk result (λ k. k ≡ Taken.Unmade → are_tickets_full (present_desk self.old.console) ≡ false) }
        ensures same { IfOk result (λ k. has_begun k ≡ false → self.new.console ≡ self.old.console) }
        ensures because { 0 < self.new.tries_from → RefusalCause D.disk }
        ensures sync { file.new.journal.sync ≡ file.old.journal.sync }
        ensures cause { IfErr result (RunsUnlessDisk D.disk) }
        ensures fault { IfErr result (HasNotTaken D.disk file.old file.new (asked_checkpoint_step self.old.console).0) }
        ensures any_moment { BeginningLeavesEither D.disk file.old file.new self.old.console }
    {
        match self.try_checkpoint(alloc, file) {
            Ok(Tried::Made(count)) => {
                self.tries_from = 0;
                match write_checkpoint_line(count, &mut self.held) {
                    Ok(()) => Ok(Taken::Begun),
                    Err(_) => Err(DurableFault::Run(RunFault::NoMemory)),
                }
            }
            Ok(Tried::TicketsFull) => match refuse("TicketsFull", &mut self.held) {
                Ok(()) => Ok(Taken::Held),
                Err(_) => Err(DurableFault::Run(RunFault::NoMemory)),
            },
            Ok(Tried::RefusedByFile) => match refuse("NoCheckpoint", &mut self.held) {
                Ok(()) => Ok(Taken::Unmade),
                Err(_) => Err(DurableFault::Run(RunFault::NoMemory)),
            },
            Err(fault) => Err(fault),
        }
    }

    /// Makes a checkpoint after a line that added events, if they are at least `every` then. After one that was refused, the next is
    /// tried when an eighth of that has been added.
    fn checkpoint_due<D: Replace + Drop>(
        &mut self,
        alloc: Global,
        every: u32,
        file: &mut HistoryFile<D>,
    ) -> Result<Taken, DurableFault>
        requires open { is_open self.old.console ≡ true }
        requires may { MayBeginAnew (KeepsConsole D.disk file.old) (with_checkpoint self.old.console) }
        requires because { 0 < self.old.tries_from → RefusalCause D.disk }
        ensures taken { IfOk result (HasTakenLine D.disk file.old file.new ((asked_checkpoint_step self.old.console).0, [])
            (self.old.console, []) self.new.console (string_bytes self.old.held) (string_bytes self.new.held)
            self.old.recorded self.new.recorded) }
        ensures same { IfOk result (λ k. has_begun k ≡ false → self.new.console ≡ self.old.console) }
        ensures because { 0 < self.new.tries_from → RefusalCause D.disk }
        ensures sync { file.new.journal.sync ≡ file.old.journal.sync }
        ensures cause { IfErr result (RunsUnlessDisk D.disk) }
        ensures fault { IfErr result (HasNotTaken D.disk file.old file.new (asked_checkpoint_step self.old.console).0) }
        ensures any_moment { BeginningLeavesEither D.disk file.old file.new self.old.console }
    {
        let count = self.console.event_count();
        if count < self.tries_from {
            return Ok(Taken::Unmade);
        }
        match self.try_checkpoint(alloc, file) {
            Ok(Tried::Made(_)) => {
                self.tries_from = 0;
                Ok(Taken::Begun)
            }
            Ok(Tried::TicketsFull) => Ok(Taken::Held),
            Ok(Tried::RefusedByFile) => {
                self.tries_from = count.saturating_add(every as usize / 8 + 1);
                Ok(Taken::Unmade)
            }
            Err(fault) => Err(fault),
        }
    }

    /// Answers a line, makes the checkpoint that it asks for or that is due after it, and holds the answer, or what of it isn't to be
    /// streamed.
    fn take_line<T: Threads + Sync, D: Replace + Drop>(
        &mut self,
        rt: &T,
        alloc: Global,
        every: u32,
        line: &[u8],
        file: &mut HistoryFile<D>,
    ) -> Result<Taken, DurableFault>
        requires may { MayCommit (KeepsConsole D.disk file.old) self.old.console self.old.recorded }
        requires because { 0 < self.old.tries_from → RefusalCause D.disk }
        ensures taken { IfOk result (HasTakenLine D.disk file.old file.new (made_step every self.old.console line.now)
            (refused_step self.old.console line.now) self.new.console (string_bytes self.old.held) (string_bytes self.new.held)
            self.old.recorded self.new.recorded) }
        ensures grows { IfOk result (λ k. has_begun k ≡ false → Grows self.old.console self.new.console) }
        ensures variables { IfOk result (λ k. has_begun k ≡ false → VariablesFit (table_of self.new.console)) }
        ensures because { 0 < self.new.tries_from → RefusalCause D.disk }
        ensures sync { file.new.journal.sync ≡ file.old.journal.sync }
        ensures cause { IfErr result (RunsUnlessDisk D.disk) }
        ensures fault { IfErr result (HasNotTaken D.disk file.old file.new (made_step every self.old.console line.now).0) }
        ensures any_moment { TakingLeaves D.disk file.old file.new self.old.console self.old.recorded
            (made_step every self.old.console line.now).0 }
    {
        let before = self.console.event_count();
        match self.hold_answer(rt, alloc, line) {
            Ok(Reply::Text) => {
                let count = self.console.event_count();
                if before < count && count >= every as usize {
                    self.checkpoint_due(alloc, every, file)
                } else {
                    Ok(Taken::Held)
                }
            }
            Ok(Reply::Checkpoint) => self.checkpoint_asked(alloc, file),
            Ok(reply) => Ok(Taken::Streamed(reply)),
            Err(_) => Err(DurableFault::Run(RunFault::NoMemory)),
        }
    }

    /// Commits if what is held is long.
    fn commit_if_long<D: Replace + Drop, W: Write>(
        &mut self,
        alloc: Global,
        file: &mut HistoryFile<D>,
        writer: &mut W,
    ) -> Result<(), DurableFault>
        requires { (every : ℕ) × IsBetweenLines D.disk every (run_at file.old self.old (W.contents writer.old)) }
        ensures tries { self.new.tries_from ≡ self.old.tries_from }
        ensures sync { file.new.journal.sync ≡ file.old.journal.sync }
        ensures cause { IfErr result (RunsUnlessDisk D.disk) }
        ensures done { OnOk result (StaysAfterLines D.disk (run_at file.old self.old (W.contents writer.old))
            (run_at file.new self.new (W.contents writer.new))) }
        ensures fault { IfErr result (FailsAfterLines D.disk (run_at file.old self.old (W.contents writer.old))
            file.new (W.contents writer.new)) }
        ensures any_moment { LinesLeave D.disk (run_at file.old self.old (W.contents writer.old)) file.new }
        ensures read { IfErr result (λ e. e ≢ DurableFault.Run RunFault.Read) }
    {
        if self.held.len() < MOST_HELD {
            Ok(())
        } else {
            self.commit(alloc, file, writer)
        }
    }

    /// Answers a line. What is held is committed as soon as it is long, before an answer that is streamed, and with a checkpoint.
    pub(crate) fn answer_line<T: Threads + Sync, D: Replace + Drop, W: Write>(
        &mut self,
        rt: &T,
        alloc: Global,
        every: u32,
        line: &[u8],
        file: &mut HistoryFile<D>,
        writer: &mut W,
    ) -> Result<(), DurableFault>
        requires between { IsBetweenLines D.disk every (run_at file.old self.old (W.contents writer.old)) }
        requires because { 0 < self.old.tries_from → RefusalCause D.disk }
        ensures because { 0 < self.new.tries_from → RefusalCause D.disk }
        ensures sync { file.new.journal.sync ≡ file.old.journal.sync }
        ensures cause { IfErr result (RunsUnlessDisk D.disk) }
        ensures done { OnOk result (AnswersLine D.disk every line.now (run_at file.old self.old (W.contents writer.old))
            (run_at file.new self.new (W.contents writer.new))) }
        ensures fault { IfErr result (FailsAtLine D.disk every line.now (run_at file.old self.old (W.contents writer.old))
            file.new (W.contents writer.new)) }
        ensures any_moment { LineLeaves D.disk every line.now (run_at file.old self.old (W.contents writer.old)) file.new }
        ensures read { IfErr result (λ e. e ≢ DurableFault.Run RunFault.Read) }
    {
        match self.take_line(rt, alloc, every, line, file) {
            Ok(Taken::Held) => self.commit_if_long(alloc, file, writer),
            Ok(Taken::Begun) => match self.write_held(file, writer) {
                Ok(()) => Ok(()),
                Err(fault) => Err(DurableFault::Run(fault)),
            },
            Ok(Taken::Unmade) => Ok(()),
            Ok(Taken::Streamed(reply)) => self.stream(alloc, reply, file, writer),
            Err(fault) => Err(fault),
        }
    }
}
