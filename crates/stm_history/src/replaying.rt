//! Lists of events, judged.

ghost use Rattle.std.specs.Prelude.{[], List, IfErr, OnOk};
ghost use Rattle.stm_store.specs.Tables.{Declared};
ghost use Rattle.stm_history.specs.Following.{Follows};
ghost use Rattle.stm_history.specs.Judgement.{IsFirstIllegal, ReplaysAs};
ghost use Rattle.stm_history_text.specs.Starts.{table_start};

use crate::fault::{HistoryFault, Legal};
use crate::replayer::Replayer;
use crate::stepping::StepError;
use std::alloc::Global;
use stm_event_lines::formats::TABLE_FORMAT;
use stm_events::event::Event;
use stm_store::Table;

/// Takes the events of a list, one after another, before any of which was taken. `NotLegal` counts them from 1.
fn step_all(replayer: &mut Replayer, history: &[Event]) -> Result<(), HistoryFault>
    requires { (T : List Declared) × Follows (table_start T) [] replayer.old }
    ensures done { OnOk result ((T : List Declared)
        → Follows (table_start T) [] replayer.old
        → Follows (table_start T) history.now replayer.new) }
    ensures fault { IfErr result (λ e. (T : List Declared)
        → Follows (table_start T) [] replayer.old → IsFirstIllegal e T history.now) }
{
    for event in history {
        let number = replayer.events + 1;
        match replayer.step(event) {
            Ok(()) => {}
            Err(StepError::NotAllowed) => return Err(HistoryFault::NotLegal(number)),
            Err(StepError::NoMemory) => return Err(HistoryFault::NoMemory),
        }
    }
    Ok(())
}

/// Judges a list of events over a table, by the present rule. `NotLegal` counts the events from 1.
pub fn replay(alloc: Global, table: &Table, history: &[Event]) -> Result<Legal, HistoryFault>
    // The list is legal, and the numbers are its own; otherwise the first event that isn't allowed is reported.
    ensures { ReplaysAs table.now history.now result }
{
    let mut replayer = match Replayer::open(alloc, TABLE_FORMAT, table, false) {
        Ok(replayer) => replayer,
        Err(_) => return Err(HistoryFault::NoMemory),
    };
    match step_all(&mut replayer, history) {
        Ok(()) => Ok(replayer.numbers()),
        Err(fault) => Err(fault),
    }
}
