//! What the machine shows.

ghost use Rattle.std.specs.Prelude.{◌≡◌, ◌≤◌, length, option_map};
ghost use Rattle.std.specs.Option.{option_copied};
ghost use Rattle.stm_queue.specs.Queue.{tickets};
ghost use Rattle.stm_queue.specs.SortedTickets.{IsRising};
ghost use Rattle.stm_events.specs.SlowDesk.{Slow, find_waiter};
ghost use Rattle.stm_terms.specs.Limits.{max_waiting};
ghost use Rattle.stm_events.specs.Ready.{next_ready, next_waiting};
ghost use Rattle.stm_machine.specs.Machine.{IsAt};
ghost use Rattle.stm_machine.specs.QueueAndIndex.{QueueIsRight};
ghost use Rattle.stm_events.specs.BlockStatus.{shown, standing_of, AreReadNow, read_then};
ghost use Rattle.stm_machine.specs.JobsHandedOut.{block_at};

use crate::machine::Machine;
use stm_check::SharedBlock;
use stm_events::status::Status;
use stm_store::{Names, Store};
use stm_terms::values::Value;

impl Machine {
    /// The status of the block under a ticket; none if no block waits. A stale verdict is the one that the block had at its
    /// last delivery, and a current one is the one that it has on the present store.
    pub fn status(&self, ticket: u32) -> Option<Status<'_>>
        ensures { (s : Slow) → IsAt self.now s
            → option_map shown result
            ≡ standing_of s ticket }
    {
        match self.waiting.get(ticket) {
            None => None,
            Some(waiting) => match &waiting.held {
                None => Some(Status::New),
                Some(held) => {
                    if self.pending.has(ticket) {
                        Some(Status::Stale(self.waiting.verdict(held)))
                    } else {
                        Some(Status::Current(self.waiting.verdict(held)))
                    }
                }
            },
        }
    }

    /// What the block under a ticket read at its last delivery, in ascending order; none if no block waits or it is new. On the
    /// present store the reads of a current block have these values.
    pub fn reads(&self, ticket: u32) -> Option<&[(u32, Value)]>
        ensures then { (s : Slow) → IsAt self.now s
            → option_copied result ≡ read_then (find_waiter ticket s.waiters) }
        ensures present { (s : Slow) → IsAt self.now s
            → AreReadNow s ticket (option_copied result) }
    {
        match self.waiting.get(ticket) {
            None => None,
            Some(waiting) => match &waiting.held {
                None => None,
                Some(held) => Some(held.reads.as_slice()),
            },
        }
    }

    /// The block that waits under a ticket.
    pub fn block(&self, ticket: u32) -> Option<&SharedBlock>
        ensures { (s : Slow) → IsAt self.now s → option_copied result ≡ block_at s ticket }
    {
        match self.waiting.get(ticket) {
            None => None,
            Some(waiting) => Some(&waiting.block),
        }
    }

    /// The present store.
    pub fn store(&self) -> &Store
        ensures held { result.now ≡ self.now.store }
        ensures store { (s : Slow) → IsAt self.now s → result.now ≡ s.store }
    {
        &self.store
    }

    /// The names of variables.
    pub fn names(&self) -> &Names
        ensures { (s : Slow) → IsAt self.now s → result.now ≡ s.names }
    {
        &self.names
    }

    /// How many blocks wait, which are never more than may wait. The clauses `queue` and `rising` say what holds of every queue.
    pub fn waiting(&self) -> usize
        ensures waiting { (s : Slow) → IsAt self.now s → result ≡ length s.waiters }
        ensures few { (s : Slow) → IsAt self.now s → result ≤ max_waiting }
        ensures queue { (s : Slow) → IsAt self.now s → QueueIsRight s self.now.pending }
        ensures rising { IsRising (tickets self.now.pending) }
    {
        // The tickets are known to rise by this.
        let _rising = self.pending.has_room(0);
        self.waiting.len()
    }

    /// The least waiting ticket above this one.
    pub fn next_waiting(&self, after: u32) -> Option<u32>
        ensures { (s : Slow) → IsAt self.now s
            → result ≡ next_waiting after s }
    {
        self.waiting.first_above(after)
    }

    /// The lowest ticket above this one of a block that could finish now: it is current, and its verdict isn't `Blocks`. The others
    /// cost nothing, however many wait.
    pub fn next_ready(&self, after: u32) -> Option<u32>
        ensures { (s : Slow) → IsAt self.now s → result ≡ next_ready after s }
    {
        self.ready.next_above(after)
    }
}
