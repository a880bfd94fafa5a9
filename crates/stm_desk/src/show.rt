//! What a desk shows.

ghost use Rattle.std.specs.Prelude.{◌≡◌, ◌≤◌, None, length, option_map, slice_get};
ghost use Rattle.std.specs.Option.{option_copied};
ghost use Rattle.stm_events.specs.SlowDesk.{find_waiter, serial, serial_steps_from};
ghost use Rattle.stm_events.specs.States.{IsLegalFrom};
ghost use Rattle.stm_events.specs.Ready.{next_ready, next_waiting};
ghost use Rattle.stm_events.specs.BlockStatus.{shown, standing_of, AreReadNow, read_then};
ghost use Rattle.stm_machine.specs.JobsHandedOut.{block_at};
ghost use Rattle.stm_events.specs.Headline.{HeadlineHoldsBy};
ghost use Rattle.stm_events.specs.HeadlineFrom.{HeadlineHoldsFrom};
ghost use Rattle.stm_machine.specs.Checkpoints.{MayStart};
ghost use Rattle.stm_queue.specs.Queue.{queued, tickets};
ghost use Rattle.stm_queue.specs.SortedTickets.{IsRising};
ghost use Rattle.stm_desk.specs.DeskView.{start_state, state_of, DeskQueueIsRight, AllHaveVerdicts, SettlesInRounds};

use crate::desk::Desk;
use stm_check::SharedBlock;
use stm_events::{Event, StalenessRule, Status};
use stm_store::{Names, Store, Table};
use stm_terms::values::Value;

impl Desk {
    /// How the block under a ticket stands; none if no block waits. A stale verdict is the one that the block had at its
    /// last delivery, and a current one is the one that running the block from scratch on the present store gives.
    pub fn status(&self, ticket: u32) -> Option<Status<'_>>
        ensures { option_map shown result ≡ standing_of (state_of self.now) ticket }
    {
        self.machine.status(ticket)
    }

    /// What the block under a ticket read at its last delivery, in ascending order; none if no block waits or it is new. On the present
    /// store the reads of a current block have these values.
    pub fn reads(&self, ticket: u32) -> Option<&[(u32, Value)]>
        ensures then { option_copied result
            ≡ read_then (find_waiter ticket (state_of self.now).waiters) }
        ensures present { AreReadNow (state_of self.now) ticket (option_copied result) }
    {
        self.machine.reads(ticket)
    }

    /// The block that waits under a ticket.
    pub fn block(&self, ticket: u32) -> Option<&SharedBlock>
        ensures { option_copied result ≡ block_at (state_of self.now) ticket }
    {
        self.machine.block(ticket)
    }

    /// The i-th queued ticket, counted from the lowest.
    pub fn queued_at(&self, i: usize) -> Option<u32>
        ensures { result ≡ slice_get (queued self.now.pending) i }
    {
        self.machine.queued_at(i)
    }

    /// The present store: that of running the blocks that finished in the history alone, and of making the variables that were declared
    /// in it, one after another, on the store that it begins with.
    pub fn store(&self) -> &Store
        ensures store { result.now ≡ (state_of self.now).store }
        ensures serial { result.now
            ≡ serial (start_state self.now).store
            (serial_steps_from (start_state self.now) self.now.history) }
    {
        self.machine.store()
    }

    /// The names of variables: those that the history begins with, and those of the variables that were declared in it.
    pub fn names(&self) -> &Names
        ensures { result.now ≡ (state_of self.now).names }
    {
        self.machine.names()
    }

    /// The table that the desk was opened on.
    pub fn table(&self) -> &Table
        ensures { result.now ≡ self.now.table }
    {
        &self.table
    }

    /// The events so far. What holds of every desk is said here.
    pub fn history(&self) -> &[Event]
        ensures history { result.now ≡ self.now.history }
        // It begins where a history may: with the first values of the table's variables, or from the checkpoint.
        ensures start { MayStart self.now.table self.now.checkpoint }
        // It is legal from there, and has no more events than the desk takes.
        ensures legal { IsLegalFrom (start_state self.now) self.now.history }
        ensures few { length self.now.history ≤ self.now.limit }
        // Each ticket of a new or stale block is queued or out, and no other is; the tickets ascend.
        ensures queue { DeskQueueIsRight self.now }
        ensures rising { IsRising (tickets self.now.pending) }
        // Each waiting block has a verdict on the present store.
        ensures verdicts { AllHaveVerdicts (state_of self.now) }
        // Settling begins with a round, however much room there is.
        ensures rounds { SettlesInRounds (state_of self.now) }
        // The headline holds of the history, from where it begins.
        ensures headline { HeadlineHoldsFrom (start_state self.now) self.now.history }
        // If it begins with the first values of the variables, the headline holds in the words for that.
        ensures from_variables { self.now.checkpoint ≡ None
            → HeadlineHoldsBy StalenessRule.Changed self.now.table self.now.history }
    {
        // The queue is known to be right by this, and the variables to be well typed by the next call.
        let _queue = self.machine.waiting();
        let _variables = self.table.len();
        self.history.as_slice()
    }

    /// How many blocks wait.
    pub fn waiting(&self) -> usize
        ensures { result ≡ length (state_of self.now).waiters }
    {
        self.machine.waiting()
    }

    /// The least waiting ticket above this one.
    pub fn next_waiting(&self, after: u32) -> Option<u32>
        ensures { result ≡ next_waiting after (state_of self.now) }
    {
        self.machine.next_waiting(after)
    }

    /// The lowest ticket above this one of a block that could finish now: it is current, and its verdict isn't `Blocks`. The others
    /// cost nothing, however many wait.
    pub fn next_ready(&self, after: u32) -> Option<u32>
        ensures { result ≡ next_ready after (state_of self.now) }
    {
        self.machine.next_ready(after)
    }
}
