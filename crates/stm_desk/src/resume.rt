//! A desk that goes on from where a history ends.

ghost use Rattle.std.specs.Prelude.{◌≤◌, ◌↔◌, length, IsOk, IfOk};
ghost use Rattle.stm_events.specs.Labels.{AreSameLabels};
ghost use Rattle.stm_terms.specs.Limits.{max_events as most_events};
ghost use Rattle.stm_machine.specs.Checkpoints.{labels_of_history};
ghost use Rattle.stm_desk.specs.DeskView.{CanResume, IsResumed};

use crate::desk::Desk;
use crate::past::Past;
use stm_events::{Event, LabelTable};
use stm_machine::{Checkpoint, Machine};
use stm_store::Table;
use thiserror::Error;

/// The history has more events than the desk may take.
#[derive(Clone, Copy, Debug, PartialEq, Eq, Error)]
#[error("the history has more events than the desk takes")]
pub struct TooManyEvents;

impl Desk {
    /// A desk with this table and these events, which begin from the checkpoint if there is one, on which each new and each stale block
    /// is queued, and none is out. It takes `max_events` events, with those that are there. Nothing is allocated, and no block is
    /// evaluated.
    ///
    /// `stm_history::load_history` returns the five for the text of a history.
    pub fn resume(
        table: Table,
        checkpoint: Option<Checkpoint>,
        events: Vec<Event>,
        machine: Machine,
        labels: LabelTable,
        max_events: u32,
    ) -> Result<Desk, TooManyEvents>
        // The history is legal, and the machine is at the state that it leads to.
        requires history { CanResume table checkpoint events.items machine }
        // The labels are those that the events give.
        requires labels { AreSameLabels labels (labels_of_history checkpoint events.items) }
        requires small { max_events ≤ most_events }
        ensures fits { IsOk result ↔ (length events.items ≤ max_events) }
        ensures resumed { IfOk result (IsResumed table checkpoint events.items max_events) }
    {
        if events.len() > max_events as usize {
            return Err(TooManyEvents);
        }
        Ok(Desk::resumed(table, checkpoint, events, machine, labels, max_events))
    }

    /// The desk, of a history that has no more events than it may take.
    fn resumed(
        table: Table,
        checkpoint: Option<Checkpoint>,
        events: Vec<Event>,
        mut machine: Machine,
        labels: LabelTable,
        max_events: u32,
    ) -> Desk
        requires history { CanResume table checkpoint events.items machine }
        requires labels { AreSameLabels labels (labels_of_history checkpoint events.items) }
        requires small { max_events ≤ most_events }
        requires few { length events.items ≤ max_events }
        ensures { IsResumed table checkpoint events.items max_events result }
    {
        machine.recall();
        let past = Past::none(*events.allocator());
        let desk = Desk {
            table,
            checkpoint,
            limit: max_events,
            history: events,
            machine,
            labels,
            past,
        };
        // The queue is known to be right by this.
        let _queue = desk.waiting();
        desk
    }
}
