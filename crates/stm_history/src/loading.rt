//! Whole files, read to go on from.

ghost use Rattle.std.specs.Prelude.{◌≡◌, ◌≢◌, [], true, ℕ, List, None, OnOk, IfErr, IfSome, is_some};
ghost use Rattle.stm_events.specs.declared.event.Event.{Event as AnyEvent};
ghost use Rattle.stm_event_lines.specs.Lines.{declaring_format, table_format};
ghost use Rattle.stm_machine.specs.Checkpoints.{start_of};
ghost use Rattle.stm_history.specs.Loading.{IsWholeHistory, LoadsAs, ReportsLoadFault, loaded_start};
ghost use Rattle.stm_history_text.specs.Starts.{GoesByPresentRule};
ghost use Rattle.stm_history.specs.Stages.{keeps, Reached, KeepsEvents};
ghost use Rattle.stm_events.specs.SlowDesk.{state_from};
ghost use Rattle.stm_machine.specs.Machine.{IsAt};

use crate::check::{Checker, Stage, read_all};
use crate::fault::HistoryFault;
use crate::replayer::Replayer;
use std::alloc::Global;
use std::io::Read;
use stm_event_lines::formats::{DECLARING_FORMAT, TABLE_FORMAT};
use stm_events::event::Event;
use stm_machine::checkpoint::Checkpoint;
use stm_machine::machine::Machine;
use stm_store::{Seed, Table};

/// Why a history isn't loaded.
#[derive(Clone, Copy, Debug, PartialEq, Eq, Drop)]
pub enum LoadFault {
    /// It is no legal history: its first error.
    Fault(HistoryFault),
    /// It is legal, in format 1 or 2, by whose rule of what becomes stale no desk goes.
    OldFormat(u32),
}

/// A legal history: its format, which is 3, 4 or 5, its table, the checkpoint that it begins from if it does, its events, and the
/// machine that they lead to. With a checkpoint the table is empty: the names are the checkpoint's.
pub struct Loaded {
    pub format: u32,
    pub table: Table,
    pub checkpoint: Option<Checkpoint>,
    pub events: Vec<Event>,
    pub machine: Machine,
}

// Written out, and not derived, so that the proof of each owner calls it once.
impl Drop for Loaded {
    fn drop(self) {
        let Loaded {
            format: _,
            table: _,
            checkpoint: _,
            events: _,
            machine: _,
        } = self;
    }
}

impl Loaded {
    /// The table, the checkpoint, the events and the machine.
    pub fn into_parts(self) -> (Table, Option<Checkpoint>, Vec<Event>, Machine)
        ensures table { result.0 ≡ self.table }
        ensures checkpoint { result.1 ≡ self.checkpoint }
        ensures events { result.2 ≡ self.events }
        ensures machine { result.3 ≡ self.machine }
    {
        let Loaded {
            format: _,
            table,
            checkpoint,
            events,
            machine,
        } = self;
        (table, checkpoint, events, machine)
    }
}

/// What a replayer that keeps the events has come to.
fn loaded_of(
    format: u32,
    table: Table,
    checkpoint: Option<Checkpoint>,
    replayer: Replayer,
) -> Loaded
    requires { is_some replayer.kept ≡ true }
    ensures format { result.format ≡ format }
    ensures table { result.table ≡ table }
    ensures checkpoint { result.checkpoint ≡ checkpoint }
    ensures machine { result.machine ≡ replayer.machine }
    ensures events { (H : List AnyEvent) → IfSome replayer.kept (λ events. events.items ≡ H)
        → result.events.items ≡ H }
{
    let (machine, kept) = replayer.into_parts();
    match kept {
        Some(events) => Loaded {
            format,
            table,
            checkpoint,
            events,
            machine,
        },
        None => unreachable!(),
    }
}

/// Whether a history may go on from its format, or begins from a checkpoint; `OldFormat` if not.
fn goes_by_present_rule(format: u32, checkpoint: &Option<Checkpoint>) -> Result<(), LoadFault>
    ensures ok { OnOk result (GoesByPresentRule format checkpoint.now) }
    ensures fault { IfErr result (λ e. (e ≡ LoadFault.OldFormat format) × (format ≢ table_format)
        × (format ≢ declaring_format) × (checkpoint.now ≡ None)) }
{
    match checkpoint {
        Some(_) => Ok(()),
        None => {
            if format == TABLE_FORMAT || format == DECLARING_FORMAT {
                Ok(())
            } else {
                Err(LoadFault::OldFormat(format))
            }
        }
    }
}

impl Checker {
    /// Judges, when the bytes end, whether they are a history to go on from.
    fn may_load(&self) -> Result<(), LoadFault>
        requires { (taken : List ℕ) × Reached self.now.stage self.now.whole self.now.line.items taken }
        ensures ok { OnOk result (keeps self.now.stage ≡ true → KeepsEvents self.now.stage) }
        ensures line { OnOk result (self.now.line.items ≡ []) }
        ensures fault { IfErr result (λ e. (taken : List ℕ)
            → Reached self.now.stage self.now.whole self.now.line.items taken
            → ReportsLoadFault e taken) }
    {
        match self.end() {
            Ok(_) => {}
            Err(fault) => return Err(LoadFault::Fault(fault)),
        }
        match &self.stage {
            Stage::Before { .. } => unreachable!(),
            Stage::Declaring { .. } => unreachable!(),
            Stage::AtCells { .. } => unreachable!(),
            Stage::AtBlocks { .. } => unreachable!(),
            Stage::Running {
                format,
                checkpoint,
                ..
            } => goes_by_present_rule(*format, checkpoint),
        }
    }

    /// The history that was read.
    fn into_loaded(self) -> Loaded
        requires reached { (taken : List ℕ) × Reached self.stage self.whole self.line.items taken }
        requires stage { KeepsEvents self.stage }
        requires line { self.line.items ≡ [] }
        ensures history { (taken : List ℕ) → Reached self.stage self.whole self.line.items taken
            → IsWholeHistory (loaded_start result) taken result.events.items }
        ensures latest { GoesByPresentRule result.format result.checkpoint }
        ensures at { IsAt result.machine (state_from (start_of result.table result.checkpoint) result.events.items) }
    {
        match self.into_stage() {
            Stage::Before { .. } => unreachable!(),
            Stage::Declaring { .. } => unreachable!(),
            Stage::AtCells { .. } => unreachable!(),
            Stage::AtBlocks { .. } => unreachable!(),
            Stage::Running {
                format,
                table,
                checkpoint,
                replayer,
            } => loaded_of(format, table, checkpoint, replayer),
        }
    }
}

/// Takes the bytes that the reader has left, before any of which was taken, and judges them.
fn load_rest<R: Read>(checker: &mut Checker, reader: &mut R) -> Result<(), LoadFault>
    requires reached { Reached checker.old.stage checker.old.whole checker.old.line.items [] }
    requires keeps { keeps checker.old.stage ≡ true }
    ensures stage { OnOk result (KeepsEvents checker.new.stage) }
    ensures line { OnOk result (checker.new.line.items ≡ []) }
    ensures done { OnOk result ((taken : List ℕ)
        × IfSome (R.remaining reader.old) (λ bytes. bytes ≡ taken)
        × Reached checker.new.stage checker.new.whole checker.new.line.items taken) }
    ensures fault { IfErr result (λ e.
        IfSome (R.remaining reader.old) (λ bytes. ReportsLoadFault e bytes)) }
{
    match read_all(checker, reader) {
        Ok(()) => checker.may_load(),
        Err(fault) => Err(LoadFault::Fault(fault)),
    }
}

/// Reads the text of a legal history of format 3, 4 or 5 to its end, line by line, and keeps what it read. It judges as
/// `check_history_with` does. The names of variables are looked up under the seed. Each installed verdict is evaluated once, which no
/// clause says.
pub fn load_history<R: Read>(alloc: Global, seed: Seed, reader: &mut R) -> Result<Loaded, LoadFault>
    // What was loaded of the bytes that the reader had left, or why nothing was.
    ensures { LoadsAs (R.remaining reader.old) result }
{
    let mut checker = Checker::new(alloc, seed, true);
    match load_rest(&mut checker, reader) {
        Ok(()) => Ok(checker.into_loaded()),
        Err(fault) => Err(fault),
    }
}
