//! The exploration of a script, which needs no desk.

ghost use Rattle.std.specs.Prelude.{◌≡◌, ◌≢◌, ◌++◌, [], true, false, vec_len, IfOk};
ghost use Rattle.stm_explore_script.specs.Diagnostics.{fault_diagnostics, right_diagnostics};
ghost use Rattle.stm_embed.specs.Exploring.{IsDiagnosed, explore_options, ended_status, invalid_line};
ghost use Rattle.stm_embed.specs.Status.{no_memory};

use crate::status::{BAD_SCRIPT, FAULTY, INCOMPLETE, NO_ROOM, RIGHT};
use std::alloc::{AllocError, Global};
use stm_explore_script::diagnostics::{write_fault_diagnostics, write_right_diagnostics};
use stm_explore_script::{ExploreFault, Warning, write_exploration, write_fault_history};
use stm_options::ExploreOptions;
use stm_script::ScriptFault;
use stm_store::Seed;
use stm_terms::NoMemory;

/// The options of an exploration, as C gives them.
#[repr(C)]
pub struct Wanted {
    /// How many states are kept at most.
    pub max_states: u32,
    /// Whether the history of the fault is written in place of what was found.
    pub history: bool,
    /// Whether every state is explored.
    pub all: bool,
    /// Whether every block may throw.
    pub allow_throws: bool,
    /// Whether what each step of a fault's order does is written, too, and the last store.
    pub trace: bool,
    /// Whether it is a fault if a client can't ever do its next step again.
    pub progress: bool,
}

impl Wanted {
    /// The options as the exploration takes them.
    pub(crate) fn options(&self) -> ExploreOptions
        ensures { result ≡ explore_options self.now }
    {
        ExploreOptions {
            max_states: self.max_states,
            history: self.history,
            all: self.all,
            allow_throws: self.allow_throws,
            trace: self.trace,
            progress: self.progress,
        }
    }
}

/// What C gets of an exploration besides its text.
#[repr(C)]
pub struct Explored {
    /// How many bytes its text has.
    pub length: usize,
    /// The first line of the script that is invalid, counted from 1; 0 if none is.
    pub line: u32,
}

/// How an exploration ended. Lines of scripts count from 1.
#[derive(Clone, Copy, Drop)]
pub enum Ended {
    Right,
    Faulty,
    Incomplete,
    BadScript(ScriptFault),
    NoRoom,
}

impl Ended {
    /// The status of an exploration that ended so.
    pub(crate) fn status(self) -> u32
        ensures status { result ≡ ended_status self }
        ensures some { result ≢ no_memory }
    {
        match self {
            Ended::Right => RIGHT,
            Ended::Faulty => FAULTY,
            Ended::Incomplete => INCOMPLETE,
            Ended::BadScript(_) => BAD_SCRIPT,
            Ended::NoRoom => NO_ROOM,
        }
    }

    /// The line of the script that is invalid, or 0.
    pub(crate) fn line(self) -> u32
        ensures { result ≡ invalid_line self }
    {
        match self {
            Ended::BadScript(fault) => fault.line,
            Ended::Right => 0,
            Ended::Faulty => 0,
            Ended::Incomplete => 0,
            Ended::NoRoom => 0,
        }
    }
}

/// Appends the diagnostics of a script that is right, and returns where they begin.
fn add_warnings(history: bool, warnings: &[Warning], text: &mut Vec<u8>) -> Result<usize, NoMemory>
    ensures { IfOk result (λ length. (length ≡ vec_len text.old)
        × (text.new.items ≡ text.old.items ++ right_diagnostics history warnings.now)) }
{
    let length = text.len();
    match write_right_diagnostics(history, warnings, text) {
        Ok(()) => Ok(length),
        Err(_) => Err(AllocError),
    }
}

/// Appends the diagnostics of an exploration that didn't find all right, and returns where they begin.
fn add_reason(history: bool, fault: ExploreFault, text: &mut Vec<u8>) -> Result<usize, NoMemory>
    ensures { IfOk result (λ length. (length ≡ vec_len text.old)
        × (text.new.items ≡ text.old.items ++ fault_diagnostics history fault)) }
{
    let length = text.len();
    match write_fault_diagnostics(history, fault, text) {
        Ok(()) => Ok(length),
        Err(_) => Err(AllocError),
    }
}

/// Explores a script, and writes what was found, and after it the diagnostics. Returns how it ended, and where they begin.
fn explore_states(
    alloc: Global,
    script: &[u8],
    options: ExploreOptions,
    text: &mut Vec<u8>,
) -> Result<(Ended, usize), NoMemory>
    requires empty { text.old.items ≡ [] }
    requires states { options.history ≡ false }
    ensures { IfOk result (λ r. IsDiagnosed script.now options r.0 r.1 text.new.items) }
{
    let mut reader = script;
    match write_exploration(alloc, Seed::fixed(), &mut reader, text, options) {
        Ok(warnings) => Ok((Ended::Right, add_warnings(false, &warnings, text)?)),
        Err(ExploreFault::Faulty) => Ok((Ended::Faulty, text.len())),
        Err(ExploreFault::Incomplete) => {
            let length = add_reason(false, ExploreFault::Incomplete, text)?;
            Ok((Ended::Incomplete, length))
        }
        Err(ExploreFault::Script(fault)) => {
            let length = add_reason(false, ExploreFault::Script(fault), text)?;
            Ok((Ended::BadScript(fault), length))
        }
        Err(ExploreFault::NoRoom) => Err(AllocError),
        Err(ExploreFault::Replay) => Err(AllocError),
        Err(ExploreFault::Run(_)) => Err(AllocError),
    }
}

/// Explores a script, and writes the history of the fault, and after it the diagnostics. Returns how it ended, and where they begin.
fn explore_history(
    alloc: Global,
    script: &[u8],
    options: ExploreOptions,
    text: &mut Vec<u8>,
) -> Result<(Ended, usize), NoMemory>
    requires empty { text.old.items ≡ [] }
    requires history { options.history ≡ true }
    ensures { IfOk result (λ r. IsDiagnosed script.now options r.0 r.1 text.new.items) }
{
    let mut reader = script;
    match write_fault_history(alloc, Seed::fixed(), &mut reader, text, options) {
        Ok(warnings) => Ok((Ended::Right, add_warnings(true, &warnings, text)?)),
        Err(ExploreFault::Faulty) => Ok((Ended::Faulty, text.len())),
        Err(ExploreFault::Incomplete) => {
            let length = add_reason(true, ExploreFault::Incomplete, text)?;
            Ok((Ended::Incomplete, length))
        }
        Err(ExploreFault::Script(fault)) => {
            let length = add_reason(true, ExploreFault::Script(fault), text)?;
            Ok((Ended::BadScript(fault), length))
        }
        Err(ExploreFault::NoRoom) => {
            let length = add_reason(true, ExploreFault::NoRoom, text)?;
            Ok((Ended::NoRoom, length))
        }
        Err(ExploreFault::Replay) => Err(AllocError),
        Err(ExploreFault::Run(_)) => Err(AllocError),
    }
}

/// Explores a script, and writes what the options ask for, and after it the diagnostics, on memory that holds nothing else. Returns how it
/// ended, and where the diagnostics begin.
pub(crate) fn explore_script(
    alloc: Global,
    script: &[u8],
    options: ExploreOptions,
    text: &mut Vec<u8>,
) -> Result<(Ended, usize), NoMemory>
    requires { text.old.items ≡ [] }
    ensures { IfOk result (λ r. IsDiagnosed script.now options r.0 r.1 text.new.items) }
{
    if options.history {
        explore_history(alloc, script, options, text)
    } else {
        explore_states(alloc, script, options, text)
    }
}
