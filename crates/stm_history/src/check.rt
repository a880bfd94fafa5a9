//! Whole files, judged line by line.

ghost use Rattle.std.specs.Prelude.{◌≡◌, ◌++◌, ◌∷◌, [], ◌+◌, ◌≤◌, ◌<◌, ◌^◌, ℕ, List, None, OnOk, IfOk, IfErr, IfSome, MatchBool, Ok, true, length, is_some};
ghost use Rattle.stm_events.specs.declared.event.Event.{Event as AnyEvent};
ghost use Rattle.std.specs.Io.KnownBytes.{prepend_known};
ghost use Rattle.stm_lines.specs.Lines.{NoLineFeed};
ghost use Rattle.stm_lines.specs.TakenLines.{bytes_to_come};
ghost use Rattle.stm_history.specs.Checking.{MayRefuse, StopsAt};
ghost use Rattle.stm_history.specs.Progress.{CheckerState, at_header, at_variables, at_events, LeadsTo, strange};
ghost use Rattle.stm_history.specs.Reading.{FailsIn, IsReadingFault, TakesLine, TakesRest};
ghost use Rattle.stm_event_lines.specs.Fits.{FitsNames, FitsFormat};
ghost use Rattle.stm_history.specs.Following.{Follows};
ghost use Rattle.stm_history.specs.Judgement.{IsHistory, IsShort, JudgesHistory, ReportsFault, lines_before, next_line};
ghost use Rattle.stm_history_text.specs.Starts.{Start, names_after};
ghost use Rattle.stm_event_lines.specs.Lines.{event_line};
ghost use Rattle.stm_history.specs.declared.check.Stage.TheVariants.{Running};
ghost use Rattle.stm_history.specs.Stages.{keeps, IsRunning, IsStage, CountsWithinLimits, LeadsToStage, Reached, refused_by};
ghost use Rattle.stm_history.specs.Progress.{with_table as progress_with};

use crate::beginning::{take_block, take_cell, take_checkpoint_header};
use crate::fault::{HistoryFault, Legal};
use crate::replayer::Replayer;
use crate::stepping::StepError;
use std::alloc::Global;
use std::io::Read;
use std::marker::Brand;
use std::mem;
use std::sync::ledger::{Blank, Ledger};
use stm_event_lines::checkpoint::CheckpointHeader;
use stm_event_lines::formats::fits_format;
use stm_event_lines::read::{LineError, read_header, read_variable};
use stm_event_lines::variable::Variable;
use stm_events::event::Event;
use stm_lines::calls::Calls;
use stm_lines::line_reader::Line;
use stm_lines::{LineReader, RunFault, Steps};
use stm_machine::checkpoint::Checkpoint;
use stm_store::{Cell, DeclareError, Names, Seed, Table};

/// The most bytes of a line.
pub(crate) const MAX_LINE: usize = 1_048_576;

/// The most variables of a table.
pub(crate) const MAX_CELLS: u32 = Table::LIMIT as u32;

/// How far the lines have come: before the first; in a format, among the variables, of which this many were announced; among the
/// variables of a checkpoint, of which some have these names; in a format, among its waiting blocks, of which this many were
/// announced; in a format, among the events. Each stage has whether the events are kept.
#[derive(Drop)]
pub(crate) enum Stage {
    Before {
        keep: bool,
    },
    Declaring {
        keep: bool,
        format: u32,
        vars: u32,
        table: Table,
    },
    AtCells {
        keep: bool,
        header: CheckpointHeader,
        names: Names,
        cells: Vec<Cell>,
    },
    AtBlocks {
        keep: bool,
        format: u32,
        waiting: u32,
        checkpoint: Checkpoint,
    },
    Running {
        format: u32,
        table: Table,
        checkpoint: Option<Checkpoint>,
        replayer: Replayer,
    },
}

/// The stage in a format if this many variables were announced and these were read.
fn with_table(
    alloc: Global,
    keep: bool,
    format: u32,
    vars: u32,
    table: Table,
) -> Result<Stage, HistoryFault>
    requires { length table ≤ vars }
    ensures stage { IfOk result (λ s. IsStage s (progress_with format vars table)) }
    ensures err { IfErr result (λ e. e ≡ HistoryFault.NoMemory) }
    ensures keeps { IfOk result (λ s. keeps s ≡ keep) }
{
    if table.len() < vars as usize {
        return Ok(Stage::Declaring {
            keep,
            format,
            vars,
            table,
        });
    }
    match Replayer::open(alloc, format, &table, keep) {
        Ok(replayer) => Ok(Stage::Running {
            format,
            table,
            checkpoint: None,
            replayer,
        }),
        Err(_) => Err(HistoryFault::NoMemory),
    }
}

/// Takes the first line.
fn take_header(alloc: Global, seed: Seed, keep: bool, line: &[u8]) -> Result<Stage, HistoryFault>
    ensures leads { IfOk result (λ s. LeadsToStage at_header line.now s) }
    ensures refused { IfErr result (λ e. MayRefuse at_header line.now e) }
    ensures keeps { IfOk result (λ s. keeps s ≡ keep) }
{
    match read_header(alloc, line) {
        Ok(header) => {
            if header.vars <= MAX_CELLS {
                let table = Table::with_seed(alloc, seed);
                with_table(alloc, keep, header.format, header.vars, table)
            } else {
                Err(HistoryFault::BadHeader)
            }
        }
        Err(LineError::Bad) => take_checkpoint_header(alloc, seed, keep, line),
        Err(LineError::NoMemory) => Err(HistoryFault::NoMemory),
    }
}

fn declare_refused(error: DeclareError) -> HistoryFault
    ensures { result ≡ refused_by error }
{
    match error {
        DeclareError::NoMemory => HistoryFault::NoMemory,
        DeclareError::Twice => HistoryFault::BadHeader,
        DeclareError::TypeOfValue => HistoryFault::BadHeader,
        DeclareError::TableFull => HistoryFault::BadHeader,
    }
}

/// Takes a variable's line.
fn take_variable(
    alloc: Global,
    keep: bool,
    format: u32,
    vars: u32,
    mut table: Table,
    line: &[u8],
) -> Result<Stage, HistoryFault>
    requires { length table < vars }
    ensures leads { IfOk result (λ s. LeadsToStage (at_variables format vars table) line.now s) }
    ensures refused { IfErr result (λ e. MayRefuse (at_variables format vars table) line.now e) }
    ensures keeps { IfOk result (λ s. keeps s ≡ keep) }
{
    match read_variable(alloc, line) {
        Ok(variable) => {
            match table.declare(&variable.name, variable.kind, variable.value) {
                Ok(_) => with_table(alloc, keep, format, vars, table),
                Err(error) => Err(declare_refused(error)),
            }
        }
        Err(LineError::Bad) => Err(HistoryFault::BadHeader),
        Err(LineError::NoMemory) => Err(HistoryFault::NoMemory),
    }
}

/// How many lines come before the events.
fn lines_before(table: &Table, checkpoint: &Option<Checkpoint>) -> u32
    ensures lines { result ≡ lines_before table.now checkpoint.now }
    ensures few { result ≤ 1065537 }
{
    match checkpoint {
        Some(checkpoint) => {
            // The store and the waiting blocks are known to be few by this.
            let _next = checkpoint.next();
            checkpoint.store().len() as u32 + checkpoint.blocks().len() as u32 + 1
        }
        None => table.len() as u32 + 1,
    }
}

/// The number of the line that comes next.
pub(crate) fn line_number(
    table: &Table,
    checkpoint: &Option<Checkpoint>,
    replayer: &Replayer,
) -> u32
    requires { (S : Start) × (H : List AnyEvent) × Follows S H replayer.now }
    ensures { (S : Start) (H : List AnyEvent) → S.table ≡ table.now → S.checkpoint ≡ checkpoint.now
        → Follows S H replayer.now → result ≡ next_line S H }
{
    lines_before(table, checkpoint) + replayer.events + 1
}

/// Takes an event that was read from the line of this number.
fn take_event(
    format: u32,
    replayer: &mut Replayer,
    event: &Event,
    number: u32,
) -> Result<(), HistoryFault>
    requires { (S : Start) × (H : List AnyEvent) × Follows S H replayer.old }
    ensures done { OnOk result ((S : Start) (H : List AnyEvent)
        → Follows S H replayer.old → Follows S (H ++ event.now ∷ []) replayer.new) }
    ensures fits { OnOk result (FitsFormat format event.now) }
    ensures refused { IfErr result (λ e. (S : Start) (H : List AnyEvent) → S.format ≡ format
        → Follows S H replayer.old → FitsNames (names_after S H) event.now → number ≡ next_line S H
        → MayRefuse (at_events S H) (event_line event.now) e) }
    ensures keeps { OnOk result (is_some replayer.new.kept ≡ is_some replayer.old.kept) }
{
    if !fits_format(format, event) {
        return Err(HistoryFault::BadLine(number));
    }
    match replayer.step(event) {
        Ok(()) => Ok(()),
        Err(StepError::NotAllowed) => Err(HistoryFault::NotLegal(number)),
        Err(StepError::NoMemory) => Err(HistoryFault::NoMemory),
    }
}

/// Takes an event's line.
fn take_event_line(
    alloc: Global,
    format: u32,
    table: &Table,
    checkpoint: &Option<Checkpoint>,
    replayer: &mut Replayer,
    line: &[u8],
) -> Result<(), HistoryFault>
    requires { (S : Start) × (H : List AnyEvent) × Follows S H replayer.old }
    ensures leads { OnOk result ((S : Start) (H : List AnyEvent)
        → S.format ≡ format → S.table ≡ table.now → S.checkpoint ≡ checkpoint.now
        → Follows S H replayer.old
        → (e : AnyEvent) × LeadsTo (at_events S H) line.now (at_events S (H ++ e ∷ []))
        × Follows S (H ++ e ∷ []) replayer.new) }
    ensures refused { IfErr result (λ e. (S : Start) (H : List AnyEvent)
        → S.format ≡ format → S.table ≡ table.now → S.checkpoint ≡ checkpoint.now
        → Follows S H replayer.old → MayRefuse (at_events S H) line.now e) }
    ensures keeps { OnOk result (is_some replayer.new.kept ≡ is_some replayer.old.kept) }
{
    let number = line_number(table, checkpoint, replayer);
    match replayer.read(alloc, line) {
        Ok(event) => take_event(format, replayer, &event, number),
        Err(LineError::Bad) => Err(HistoryFault::BadLine(number)),
        Err(LineError::NoMemory) => Err(HistoryFault::NoMemory),
    }
}

/// Takes a line before those of the events.
fn take_first_line(
    alloc: Global,
    seed: Seed,
    stage: Stage,
    line: &[u8],
) -> Result<Stage, HistoryFault>
    requires stage { (p : CheckerState) × IsStage stage p × CountsWithinLimits p }
    requires before { IsRunning stage → ⊥ }
    ensures leads { IfOk result (λ s. (p : CheckerState) → IsStage stage p
        → LeadsToStage p line.now s) }
    ensures refused { IfErr result (λ e. (p : CheckerState) → IsStage stage p
        → MayRefuse p line.now e) }
    ensures keeps { IfOk result (λ s. keeps s ≡ keeps stage) }
{
    match stage {
        Stage::Before { keep } => take_header(alloc, seed, keep, line),
        Stage::Declaring {
            keep,
            format,
            vars,
            table,
        } => take_variable(alloc, keep, format, vars, table, line),
        Stage::AtCells {
            keep,
            header,
            names,
            cells,
        } => take_cell(alloc, seed, keep, header, names, cells, line),
        Stage::AtBlocks {
            keep,
            format,
            waiting,
            checkpoint,
        } => take_block(alloc, seed, keep, format, waiting, checkpoint, line),
        Stage::Running { .. } => unreachable!(),
    }
}

/// Takes a line before those of the events, and puts the stage that it leads to in the place of this one. A fault leaves some stage.
fn go_on(alloc: Global, seed: Seed, stage: &mut Stage, line: &[u8]) -> Result<(), HistoryFault>
    requires stage { (p : CheckerState) × IsStage stage.old p × CountsWithinLimits p }
    requires before { IsRunning stage.old → ⊥ }
    ensures leads { OnOk result ((p : CheckerState) → IsStage stage.old p
        → LeadsToStage p line.now stage.new) }
    ensures refused { IfErr result (λ e. (p : CheckerState) → IsStage stage.old p
        → MayRefuse p line.now e) }
    ensures keeps { OnOk result (keeps stage.new ≡ keeps stage.old) }
{
    let first = mem::replace(stage, Stage::Before { keep: false });
    *stage = take_first_line(alloc, seed, first, line)?;
    Ok(())
}

/// Takes a whole line. A fault leaves some stage.
fn take_line(alloc: Global, seed: Seed, stage: &mut Stage, line: &[u8]) -> Result<(), HistoryFault>
    requires { (p : CheckerState) × IsStage stage.old p × CountsWithinLimits p }
    ensures leads { OnOk result ((p : CheckerState) → IsStage stage.old p
        → LeadsToStage p line.now stage.new) }
    ensures refused { IfErr result (λ e. (p : CheckerState) → IsStage stage.old p
        → MayRefuse p line.now e) }
    ensures keeps { OnOk result (keeps stage.new ≡ keeps stage.old) }
{
    // The events are most of the lines, and their stage is large: it isn't moved.
    if let Stage::Running {
        format,
        table,
        checkpoint,
        replayer,
    } = stage
    {
        return take_event_line(alloc, *format, table, checkpoint, replayer, line);
    }
    go_on(alloc, seed, stage, line)
}

/// The fault at a line that can't be one of this place.
fn strange_fault(stage: &Stage) -> HistoryFault
    requires { (p : CheckerState) × IsStage stage.now p × CountsWithinLimits p }
    ensures { (p : CheckerState) → IsStage stage.now p → result ≡ strange p }
{
    match stage {
        Stage::Before { .. } => HistoryFault::BadHeader,
        Stage::Declaring { .. } => HistoryFault::BadHeader,
        Stage::AtCells { .. } => HistoryFault::BadHeader,
        Stage::AtBlocks { .. } => HistoryFault::BadHeader,
        Stage::Running {
            table,
            checkpoint,
            replayer,
            ..
        } => HistoryFault::BadLine(line_number(table, checkpoint, replayer)),
    }
}

/// A check under way: the seed of its table, the stage, how many bytes of whole lines led to it, and the bytes of a line that
/// has begun.
pub(crate) struct Checker {
    pub alloc: Global,
    pub seed: Seed,
    pub stage: Stage,
    pub whole: usize,
    pub line: Vec<u8>,
}

// Written out, and not derived, so that the proof of each owner calls it once.
impl Drop for Checker {
    fn drop(self) {
        let Checker {
            alloc: _,
            seed: _,
            stage: _,
            whole: _,
            line: _,
        } = self;
    }
}

impl Checker {
    /// The stage that was reached.
    pub(crate) fn into_stage(self) -> Stage
        ensures same { result ≡ self.stage }
    {
        let Checker {
            alloc: _,
            seed: _,
            stage,
            whole: _,
            line: _,
        } = self;
        stage
    }

    /// Before the first line. The caller says whether the events are to be kept.
    pub(crate) fn new(alloc: Global, seed: Seed, keep: bool) -> Checker
        ensures reached { Reached result.stage result.whole result.line.items [] }
        ensures keeps { keeps result.stage ≡ keep }
    {
        Checker {
            alloc,
            seed,
            stage: Stage::Before { keep },
            whole: 0,
            line: Vec::new(alloc),
        }
    }

    /// Takes a line that a line feed ended.
    fn take_whole(&mut self, line: &[u8]) -> Result<(), HistoryFault>
        requires reached { (taken : List ℕ) × Reached self.old.stage self.old.whole [] taken
            × (length taken < 2 ^ 62) }
        requires plain { NoLineFeed line.now }
        requires short { IsShort line.now }
        ensures done { OnOk result ((taken : List ℕ)
            → Reached self.old.stage self.old.whole [] taken
            → Reached self.new.stage self.new.whole [] (taken ++ (line.now ++ 10 ∷ []))) }
        ensures fault { IfErr result (λ e. (taken more : List ℕ)
            → Reached self.old.stage self.old.whole [] taken
            → ReportsFault e (taken ++ ((line.now ++ 10 ∷ []) ++ more))) }
        ensures stops { IfErr result (λ e. (taken more : List ℕ)
            → Reached self.old.stage self.old.whole [] taken
            → StopsAt e self.new.whole (taken ++ ((line.now ++ 10 ∷ []) ++ more))) }
        ensures keeps { OnOk result (keeps self.new.stage ≡ keeps self.old.stage) }
        ensures same_line { self.new.line.items ≡ self.old.line.items }
    {
        match take_line(self.alloc, self.seed, &mut self.stage, line) {
            Ok(()) => {
                self.whole += line.len() + 1;
                Ok(())
            }
            Err(fault) => Err(fault),
        }
    }

    /// Takes the last line, which no line feed ended.
    fn take_last(&mut self, line: &[u8]) -> Result<(), HistoryFault>
        requires none { self.old.line.items ≡ [] }
        requires plain { NoLineFeed line.now }
        requires short { IsShort line.now }
        ensures done { OnOk result ((taken : List ℕ)
            → Reached self.old.stage self.old.whole [] taken
            → Reached self.new.stage self.new.whole self.new.line.items (taken ++ line.now)) }
        ensures fault { IfErr result (λ e. (taken more : List ℕ)
            → Reached self.old.stage self.old.whole [] taken
            → ReportsFault e (taken ++ (line.now ++ more))) }
        ensures stops { IfErr result (λ e. (taken more : List ℕ)
            → Reached self.old.stage self.old.whole [] taken
            → StopsAt e self.new.whole (taken ++ (line.now ++ more))) }
        ensures keeps { keeps self.new.stage ≡ keeps self.old.stage }
    {
        match self.line.extend_from_slice(line) {
            Ok(()) => Ok(()),
            Err(_) => Err(HistoryFault::NoMemory),
        }
    }

    /// Judges where the bytes end.
    pub(crate) fn end(&self) -> Result<Legal, HistoryFault>
        requires { (taken : List ℕ) × Reached self.now.stage self.now.whole self.now.line.items taken }
        ensures done { IfOk result (λ n. (taken : List ℕ)
            → Reached self.now.stage self.now.whole self.now.line.items taken
            → IsHistory taken n) }
        ensures fault { IfErr result (λ e. (taken : List ℕ)
            → Reached self.now.stage self.now.whole self.now.line.items taken
            → ReportsFault e taken) }
        ensures stops { IfErr result (λ e. (taken : List ℕ)
            → Reached self.now.stage self.now.whole self.now.line.items taken
            → StopsAt e self.now.whole taken) }
        ensures running { OnOk result (IsRunning self.now.stage) }
        ensures line { OnOk result (self.now.line.items ≡ []) }
    {
        if !self.line.is_empty() {
            return Err(strange_fault(&self.stage));
        }
        match &self.stage {
            Stage::Before { .. } => Err(HistoryFault::BadHeader),
            Stage::Declaring { .. } => Err(HistoryFault::BadHeader),
            Stage::AtCells { .. } => Err(HistoryFault::BadHeader),
            Stage::AtBlocks { .. } => Err(HistoryFault::BadHeader),
            Stage::Running { replayer, .. } => Ok(replayer.numbers()),
        }
    }
}

/// What the fault of reading a line is to a check.
fn fault_of(fault: RunFault) -> HistoryFault
    ensures { IsReadingFault result }
{
    match fault {
        RunFault::NoMemory => HistoryFault::NoMemory,
        RunFault::Read => HistoryFault::ReadFault,
        RunFault::Write => HistoryFault::ReadFault,
    }
}

/// Takes the next line, if there is one; returns whether more may follow.
fn take_next<R: Read, L: Ledger>(
    checker: &mut Checker,
    lines: &mut LineReader,
    calls: &mut Calls<R, L>,
) -> Result<bool, HistoryFault>
    requires reached { (taken : List ℕ) × Reached checker.old.stage checker.old.whole [] taken
        × (length taken < 2 ^ 62) }
    requires none { checker.old.line.items ≡ [] }
    ensures taken { IfOk result (λ more. MatchBool more
        (TakesLine checker.old.stage checker.new.stage checker.old.whole checker.new.whole []
        (prepend_known lines.old.chunk (R.remaining calls.old.reader.now))
        (prepend_known lines.new.chunk (R.remaining calls.new.reader.now))
        (bytes_to_come calls.old.left lines.old.chunk)
        (bytes_to_come calls.new.left lines.new.chunk))
        (TakesRest checker.old.stage checker.new.stage checker.old.whole checker.new.whole
        checker.new.line.items
        (prepend_known lines.old.chunk (R.remaining calls.old.reader.now)))) }
    ensures none { result ≡ Ok true → checker.new.line.items ≡ [] }
    ensures fault { IfErr result (λ e. FailsIn e checker.old.stage checker.old.whole
        checker.new.whole (prepend_known lines.old.chunk (R.remaining calls.old.reader.now))) }
    ensures keeps { OnOk result (keeps checker.new.stage ≡ keeps checker.old.stage) }
{
    match lines.next_line(calls, MAX_LINE) {
        Ok(Line::Whole) => match checker.take_whole(lines.line()) {
            Ok(()) => Ok(true),
            Err(fault) => Err(fault),
        },
        Ok(Line::Last) => match checker.take_last(lines.line()) {
            Ok(()) => Ok(false),
            Err(fault) => Err(fault),
        },
        Ok(Line::TooLong) => Err(strange_fault(&checker.stage)),
        Ok(Line::End) => Ok(false),
        Err(fault) => Err(fault_of(fault)),
    }
}

/// Takes all bytes, before any of which was read.
fn read_lines<R: Read, L: Ledger>(
    checker: &mut Checker,
    lines: &mut LineReader,
    calls: &mut Calls<R, L>,
) -> Result<(), HistoryFault>
    requires reached { Reached checker.old.stage checker.old.whole checker.old.line.items [] }
    requires chunk { lines.old.chunk ≡ [] }
    requires left { calls.old.left ≤ 4294967295 }
    ensures done { OnOk result ((taken : List ℕ)
        × IfSome (R.remaining calls.old.reader.now) (λ bytes. bytes ≡ taken)
        × Reached checker.new.stage checker.new.whole checker.new.line.items taken) }
    ensures fault { IfErr result (λ e.
        IfSome (R.remaining calls.old.reader.now) (λ bytes. ReportsFault e bytes)) }
    ensures stops { IfErr result (λ e.
        IfSome (R.remaining calls.old.reader.now) (λ bytes. StopsAt e checker.new.whole bytes)) }
    ensures keeps { OnOk result (keeps checker.new.stage ≡ keeps checker.old.stage) }
{
    'lines: loop {
        if !take_next(checker, lines, calls)? {
            return Ok(());
        }
    }
}

/// Takes all bytes by calls that a new ledger counts.
fn read_from<R: Read, L: Ledger>(
    checker: &mut Checker,
    reader: &mut R,
    blank: Blank,
) -> Result<(), HistoryFault>
    requires reached { Reached checker.old.stage checker.old.whole checker.old.line.items [] }
    requires name { blank.name ≡ L.name }
    requires parts { blank.parts ≡ L.parts }
    requires some { 0 < blank.parts }
    ensures done { OnOk result ((taken : List ℕ)
        × IfSome (R.remaining reader.old) (λ bytes. bytes ≡ taken)
        × Reached checker.new.stage checker.new.whole checker.new.line.items taken) }
    ensures fault { IfErr result (λ e.
        IfSome (R.remaining reader.old) (λ bytes. ReportsFault e bytes)) }
    ensures stops { IfErr result (λ e.
        IfSome (R.remaining reader.old) (λ bytes. StopsAt e checker.new.whole bytes)) }
    ensures keeps { OnOk result (keeps checker.new.stage ≡ keeps checker.old.stage) }
{
    let mut steps = Steps::<L>::new(blank);
    let mut lines = LineReader::new(checker.alloc);
    let mut calls = Calls::new(reader, &mut steps);
    read_lines(checker, &mut lines, &mut calls)
}

/// Takes all bytes that the reader has left, before any of which was taken.
pub(crate) fn read_all<R: Read>(checker: &mut Checker, reader: &mut R) -> Result<(), HistoryFault>
    requires { Reached checker.old.stage checker.old.whole checker.old.line.items [] }
    ensures done { OnOk result ((taken : List ℕ)
        × IfSome (R.remaining reader.old) (λ bytes. bytes ≡ taken)
        × Reached checker.new.stage checker.new.whole checker.new.line.items taken) }
    ensures fault { IfErr result (λ e.
        IfSome (R.remaining reader.old) (λ bytes. ReportsFault e bytes)) }
    // The whole lines that were taken led to where the fault is.
    ensures stops { IfErr result (λ e.
        IfSome (R.remaining reader.old) (λ bytes. StopsAt e checker.new.whole bytes)) }
    ensures keeps { OnOk result (keeps checker.new.stage ≡ keeps checker.old.stage) }
{
    read_from::<R, Brand>(checker, reader, Blank::new(1))
}

/// Judges the bytes that the reader has left, before any of which was taken.
fn check_rest<R: Read>(checker: &mut Checker, reader: &mut R) -> Result<Legal, HistoryFault>
    requires { Reached checker.old.stage checker.old.whole checker.old.line.items [] }
    ensures done { IfOk result (λ n. IfSome (R.remaining reader.old) (λ bytes. IsHistory bytes n)) }
    ensures fault { IfErr result (λ e.
        IfSome (R.remaining reader.old) (λ bytes. ReportsFault e bytes)) }
{
    match read_all(checker, reader) {
        Ok(()) => checker.end(),
        Err(fault) => Err(fault),
    }
}

/// Judges the bytes of a reader as a history of format 1, 2, 3, 4 or 5, line by line; docs/HISTORY.md has the formats.
///
/// No clause says what it costs, nor when it is `ReadFault`: of a line no more than 1,048,577 bytes are kept, and it is `ReadFault` if the
/// reader fails or was called 4,294,967,295 times.
pub fn check_history<R: Read>(alloc: Global, reader: &mut R) -> Result<Legal, HistoryFault>
    // What is judged of the bytes that the reader had left: the numbers of their history, or their first fault.
    ensures { IfSome (R.remaining reader.old) (λ bytes. JudgesHistory bytes result) }
{
    check_history_with(alloc, Seed::fixed(), reader)
}

/// Judges the bytes of a reader as `check_history` does, and looks up the names of variables under the seed.
pub fn check_history_with<R: Read>(
    alloc: Global,
    seed: Seed,
    reader: &mut R,
) -> Result<Legal, HistoryFault>
    // What is judged of the bytes that the reader had left: the numbers of their history, or their first fault.
    ensures { IfSome (R.remaining reader.old) (λ bytes. JudgesHistory bytes result) }
{
    let mut checker = Checker::new(alloc, seed, false);
    check_rest(&mut checker, reader)
}
