//! The history that a storm leaves, replayed.

ghost use Rattle.std.specs.Prelude.{◌≡◌, length, IfOk, IfSome};
ghost use Rattle.stm_pool.specs.Storms.{CountsDesk};
ghost use Rattle.stm_storm.specs.StormEnd.{IsReplayed, IsReplayedIfClosed, IsStormEnd};

use std::alloc::Global;
use stm_history::{HistoryFault, replay};
use stm_pool::{Counts, Report};
use stm_store::Table;
use stm_terms::NoMemory;

/// What is found of a storm's history.
#[derive(Clone, Copy, PartialEq, Eq, Debug)]
pub enum Replay {
    /// The desk couldn't be closed: it lacks a pass, or a client's events are not those of its pass.
    NotClosed,
    /// It has this many events, and isn't legal over the opened table.
    NotLegal(u32),
    /// It has this many events, and is legal over the opened table.
    Legal(u32),
}

/// What is found of a closed desk's history.
fn judge(alloc: Global, table: &Table, report: &Report) -> Result<Replay, NoMemory>
    requires { report.now.events ≡ length report.now.desk.history }
    ensures { IfOk result (λ r. IsReplayed table.now report.now.desk.history r) }
{
    match replay(alloc, table, report.desk.history()) {
        Ok(_) => Ok(Replay::Legal(report.events)),
        Err(HistoryFault::NotLegal(_)) => Ok(Replay::NotLegal(report.events)),
        Err(_) => Err(NoMemory),
    }
}

/// Replays the history of a storm's desk over its table, if the desk could be closed.
pub(crate) fn replay_storm(
    alloc: Global,
    table: &Table,
    counts: &[Counts],
    report: &Option<Report>,
) -> Result<Replay, NoMemory>
    requires { IfSome report.now (λ r. CountsDesk counts.now r) }
    ensures found { IfOk result (λ r. IsReplayedIfClosed table.now report.now r) }
    ensures end { IfOk result (λ r. IsStormEnd table.now counts.now r) }
{
    match report {
        Some(report) => judge(alloc, table, report),
        None => Ok(Replay::NotClosed),
    }
}
