//! The desk, and how it opens.

ghost use Rattle.std.specs.Prelude.{◌≡◌, ◌≤◌, IfOk};
ghost use Rattle.stm_terms.specs.Limits.{max_events as most_events};
ghost use Rattle.stm_desk.specs.DeskView.{new_desk, is_full};

use crate::past::Past;
use std::alloc::Global;
use std::marker::Model;
use stm_events::{Event, LabelTable, StalenessRule};
use stm_machine::{Checkpoint, Machine};
use stm_store::Table;
use stm_terms::NoMemory;

/// The desk. Contracts see the table that it was opened on, the checkpoint that its history begins from, how many events it takes,
/// its history, and the tickets that are queued or out.
pub struct Desk {
    pub(crate) table: Table,
    pub(crate) checkpoint: Option<Checkpoint>,
    pub(crate) limit: u32,
    pub(crate) history: Vec<Event>,
    pub(crate) machine: Machine,
    pub(crate) labels: LabelTable,
    // What is left of the history before the checkpoint: it is dropped a few events at a time, and no answer depends on it.
    pub(crate) past: Past,
}

// Written out, and not derived, so that the proof of each owner calls it once.
impl Drop for Desk {
    fn drop(self) {
        let Desk {
            table: _,
            checkpoint: _,
            limit: _,
            history: _,
            machine: _,
            labels: _,
            past: _,
        } = self;
    }
}

impl Model for Desk {
    ghost use Rattle.std.specs.Coded.{codes};
    ghost use Rattle.stm_terms.specs.TreeEncoding.{act_code};
    ghost use Rattle.stm_desk.specs.DeskView.{DeskView};
    ghost use Rattle.stm_desk.specs.Kept.{DeskInvariant, HasLabels};

    ghost Value = { DeskView };

    ghost coded = { Prim.hlevel (codes, act_code) };

    ghost view = { λ d. record {
      table = d.table;
      checkpoint = d.checkpoint;
      limit = d.limit;
      history = d.history.items;
      pending = d.machine.pending;
    } };

    ghost invariant = { λ d. DeskInvariant d.table d.checkpoint d.limit d.history.items d.machine
        × HasLabels d.checkpoint d.history.items d.labels };
}

impl Desk {
    /// How many blocks may wait.
    pub const MAX_WAITING: usize = Machine::MAX_WAITING;

    /// How many events a history may have.
    pub const MAX_EVENTS: u32 = Event::MAX_EVENTS;

    /// A desk with the variables of a table, on which no block waits. It takes this many events.
    pub fn open(alloc: Global, table: &Table, max_events: u32) -> Result<Desk, NoMemory>
        requires { max_events ≤ most_events }
        ensures { IfOk result (λ d. d ≡ new_desk table.now max_events) }
    {
        let machine = Machine::open(alloc, StalenessRule::Changed, table)?;
        let table = table.copy(alloc)?;
        Ok(Desk {
            table,
            checkpoint: None,
            limit: max_events,
            history: Vec::new(alloc),
            machine,
            labels: LabelTable::empty(alloc),
            past: Past::none(alloc),
        })
    }

    /// Whether the history has no room for an event.
    pub fn is_full(&self) -> bool
        ensures { result ≡ is_full self.now }
    {
        self.history.len() >= self.limit as usize
    }
}
