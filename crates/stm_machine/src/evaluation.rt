//! The evaluations that a machine makes itself: which block is next, what it does, and keeping its verdict.

ghost use Rattle.std.specs.Prelude.{◌≡◌, ◌<◌, true, false, Some, IfOk, OnOk, OnErr, IfSome, IsSome, is_some, slice_get};
ghost use Rattle.stm_store.specs.Cells.{plains};
ghost use Rattle.stm_queue.specs.Queue.{first_queued, queued, tickets, without_ticket};
ghost use Rattle.stm_queue.specs.SortedTickets.{IsRising};
ghost use Rattle.stm_watch.specs.Pairs.{WithReads};
ghost use Rattle.stm_events.specs.declared.event.What.{What as AnyWhat};
ghost use Rattle.stm_events.specs.SlowDesk.{Slow, find_waiter};
ghost use Rattle.stm_machine.specs.QueueAndIndex.{due_of};
ghost use Rattle.stm_machine.specs.SettleChoices.{some_out, next_due};
ghost use Rattle.stm_machine.specs.Machine.{IsAt, MovesBy};
ghost use Rattle.stm_machine.specs.Keeping.{IsVerdictUnder, MayKeep};
ghost use Rattle.stm_machine.specs.JobsHandedOut.{IsPresent};
ghost use Rattle.stm_waiting.specs.Entries.{kept_at};
ghost use Rattle.stm_waiting.specs.FreshReads.{AreFreshFor};

use crate::machine::Machine;
use crate::queue::job_of;
use std::alloc::Global;
use stm_eval::{Evaluated, Scratch, evaluate, try_block_in};
use stm_events::shared_verdict::SharedVerdict;
use stm_log::Reads;
use stm_store::Frozen;
use stm_terms::NoMemory;
use stm_terms::verdicts::Verdict;
use stm_waiting::{TicketSet, WaitingBlocks};
use stm_watch::Watch;

/// What keeping a verdict takes: two holds on it, a list for what was read unless there is one, room for the ticket in the set
/// of those that could finish, and that the ticket watches what was read.
fn memory_to_keep(
    alloc: Global,
    waiting: &WaitingBlocks,
    watch: &mut Watch,
    ready: &mut TicketSet,
    ticket: u32,
    verdict: Verdict,
    scratch: &Scratch,
) -> Result<(SharedVerdict, SharedVerdict, Option<Reads>), NoMemory>
    ensures verdicts { IfOk result (λ p. (p.0 ≡ verdict) × (p.1 ≡ verdict)) }
    ensures fresh { IfOk result (λ p. AreFreshFor p.2 (kept_at ticket waiting.now) scratch.now) }
    ensures watch { OnOk result (WithReads watch.old ticket scratch.now watch.new) }
    ensures ready { ready.new.tickets ≡ ready.old.tickets }
    ensures room { OnOk result (0 < ready.new.room) }
    ensures err { OnErr result (watch.new ≡ watch.old) }
{
    let held = SharedVerdict::new(alloc, verdict)?;
    let told = held.share()?;
    let fresh = waiting.fresh_reads(ticket, scratch)?;
    ready.make_room()?;
    match watch.add(ticket, scratch.as_slice()) {
        Ok(()) => Ok((held, told, fresh)),
        Err(refused) => Err(refused),
    }
}

impl Machine {
    /// Whether some ticket is queued.
    pub fn has_queued(&self) -> bool
        ensures { result ≡ is_some (first_queued self.now.pending) }
    {
        self.pending.has_queued()
    }

    /// The i-th queued ticket, counted from the lowest.
    pub fn queued_at(&self, i: usize) -> Option<u32>
        ensures { result ≡ slice_get (queued self.now.pending) i }
    {
        self.pending.queued_at(i)
    }

    /// The lowest ticket of a block that is new or stale, if no ticket is out.
    pub fn first_due(&self) -> Option<u32>
        requires { some_out self.now.pending ≡ false }
        ensures { (s : Slow) → IsAt self.now s → result ≡ next_due s }
    {
        self.next_queued()
    }

    /// The lowest queued ticket, whether or not others are out. Its block is new or stale.
    pub fn next_queued(&self) -> Option<u32>
        ensures first { result ≡ first_queued self.now.pending }
        ensures due { IfSome result (λ t. (s : Slow) → IsAt self.now s
            → due_of (find_waiter t s.waiters) ≡ true) }
        ensures rising { IsRising (tickets self.now.pending) }
    {
        // The tickets are known to rise by this.
        let _rising = self.pending.has_room(0);
        self.pending.queued_at(0)
    }

    /// What the block under a ticket does on the present store, of which an unchanging copy is given.
    // A message is moved by value; a call that isn't inlined copies it.
    #[inline(always)]
    pub fn evaluated(&self, frozen: &Frozen, ticket: u32) -> Result<Evaluated, NoMemory>
        requires waits { (s : Slow) × IsAt self.now s × IsSome (find_waiter ticket s.waiters) }
        requires store { frozen.now ≡ plains self.now.store }
        ensures { IfOk result (λ m. (s : Slow) → IsAt self.now s → IsPresent s ticket m) }
    {
        let job = job_of(&self.waiting, ticket)?;
        match evaluate(self.alloc, job, frozen) {
            Ok(message) => Ok(message),
            Err((_, refused)) => Err(refused),
        }
    }

    /// The verdict on the present store, of which an unchanging copy is given, of the block under a ticket. The lists then have
    /// what it read.
    pub fn verdict_in(
        &self,
        scratch: &mut Scratch,
        frozen: &Frozen,
        ticket: u32,
    ) -> Result<Verdict, NoMemory>
        requires waits { (s : Slow) × IsAt self.now s × IsSome (find_waiter ticket s.waiters) }
        requires store { frozen.now ≡ plains self.now.store }
        ensures { IfOk result (λ v. (s : Slow) → IsAt self.now s → IsVerdictUnder s ticket v scratch.new) }
    {
        let waiting = match self.waiting.get(ticket) {
            Some(waiting) => waiting,
            None => unreachable!(),
        };
        try_block_in(scratch, frozen, waiting.block.block())
    }

    /// Keeps the verdict that the block under a ticket has on the present store, with what it read: the block is current from then
    /// on, neither queued nor out. The answer is the verdict, for the event.
    pub fn keep(
        &mut self,
        ticket: u32,
        verdict: Verdict,
        scratch: &Scratch,
    ) -> Result<SharedVerdict, NoMemory>
        // At a state that the machine is at, nothing refuses it.
        requires { (s : Slow) × IsAt self.old s × MayKeep s ticket verdict scratch.now }
        ensures done { OnOk result
            (MovesBy (AnyWhat.Installed ticket verdict) self.old self.new) }
        ensures verdict { IfOk result (λ v. v ≡ verdict) }
        ensures pending { OnOk result (self.new.pending
            ≡ without_ticket ticket self.old.pending) }
        ensures unchanged { OnErr result (self.new ≡ self.old) }
    {
        let taken = memory_to_keep(
            self.alloc,
            &self.waiting,
            &mut self.watch,
            &mut self.ready,
            ticket,
            verdict,
            scratch,
        );
        match taken {
            Ok((held, told, fresh)) => {
                self.ready.add_if(!held.blocks(), ticket);
                self.waiting.hold_reads(ticket, fresh, scratch, held);
                let _ = self.pending.remove(ticket);
                Ok(told)
            }
            Err(refused) => Err(refused),
        }
    }
}
