//! The machine, and how it opens.

ghost use Rattle.std.specs.Prelude.{◌≡◌, [], IfOk};
ghost use Rattle.stm_events.specs.SlowDesk.{initial_state};
ghost use Rattle.stm_machine.specs.Machine.{IsAt};

use std::alloc::Global;
use std::marker::Model;
use stm_events::staleness::StalenessRule;
use stm_queue::Pending;
use stm_store::{Names, Store, Table};
use stm_terms::{NoMemory, limits};
use stm_waiting::{TicketSet, WaitingBlocks};
use stm_watch::Watch;

/// A state of the slow desk: its rule, its store, the names of variables, the next ticket, the waiting blocks with what their last
/// deliveries brought, the tickets that are queued or out, which tickets watch which variables, and which blocks could finish now. It
/// keeps no events.
pub struct Machine {
    pub(crate) alloc: Global,
    pub(crate) rule: StalenessRule,
    pub(crate) store: Store,
    pub(crate) names: Names,
    pub(crate) next: u32,
    pub(crate) waiting: WaitingBlocks,
    pub(crate) pending: Pending,
    pub(crate) watch: Watch,
    // The blocks that are current and don't block.
    pub(crate) ready: TicketSet,
}

// Written out, and not derived, so that the proof of each owner calls it once.
impl Drop for Machine {
    fn drop(self) {
        let Machine {
            alloc: _,
            rule: _,
            store: _,
            names: _,
            next: _,
            waiting: _,
            pending: _,
            watch: _,
            ready: _,
        } = self;
    }
}

impl Model for Machine {
    ghost use Rattle.std.specs.Coded.{codes};
    ghost use Rattle.stm_terms.specs.TreeEncoding.{act_code};
    ghost use Rattle.stm_machine.specs.IndexEncoding.{pairs_code};
    ghost use Rattle.stm_machine.specs.Machine.{Parts};
    ghost use Rattle.stm_machine.specs.ReadySet.{AreReady};

    ghost Value = { Parts };

    ghost coded = { Prim.hlevel (codes, act_code, pairs_code) };

    ghost view = { λ m. record {
      rule = m.rule;
      store = m.store;
      names = m.names;
      next = m.next;
      entries = m.waiting;
      pending = m.pending.entries;
      watch = m.watch;
    } };

    ghost invariant = { λ m. AreReady m.ready.tickets m.waiting m.pending.entries };
}

impl Machine {
    /// How many blocks may wait.
    pub const MAX_WAITING: usize = limits::MAX_WAITING;

    /// A machine with the variables of a table, on which no block waits. The rule is that of the history that it is led through.
    pub fn open(alloc: Global, rule: StalenessRule, table: &Table) -> Result<Machine, NoMemory>
        ensures at { IfOk result (λ m. IsAt m (initial_state rule table.now)) }
        ensures pending { IfOk result (λ m. m.pending ≡ []) }
    {
        Ok(Machine {
            alloc,
            rule,
            store: Store::open(alloc, table)?,
            names: Names::of_table(alloc, table)?,
            next: 1,
            waiting: WaitingBlocks::empty(alloc),
            pending: Pending::empty(alloc),
            watch: Watch::empty(alloc),
            ready: TicketSet::empty(alloc),
        })
    }
}
