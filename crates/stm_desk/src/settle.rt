//! Settling and draining: all that can run, in a fixed order.

ghost use Rattle.std.specs.Prelude.{◌≡◌, ◌<◌, ◌≤◌, true, false, None, Some, length, IfOk, OnOk, IfErr, OnErr};
ghost use Rattle.stm_store.specs.Cells.{plains};
ghost use Rattle.stm_events.specs.SlowDesk.{find_waiter};
ghost use Rattle.stm_terms.specs.Limits.{max_clients};
ghost use Rattle.stm_events.specs.SlowSettle.{AllBlock, Order as AnyOrder};
ghost use Rattle.stm_events.specs.States.{IsPossible, IsTypedState, IsLegalFrom};
ghost use Rattle.stm_machine.specs.QueueAndIndex.{due_of};
ghost use Rattle.stm_machine.specs.SettleChoices.{some_out, next_due};
ghost use Rattle.stm_desk.specs.DeskView.{start_state, state_of};
ghost use Rattle.stm_desk.specs.Settling.{requeued_all, slow_drain, HasBegun, RunsAs, SettlesAs, DrainsAs, ServesAsSettling};
ghost use Rattle.stm_desk.specs.Steps.{ready_there, InstallsNext, FinishesNext, IsNextEvent, StopsFor, StopsFinish, finish_why};
ghost use Rattle.stm_desk.specs.WorkOrders.{order_of, due_in, end_in, unless_below};

use crate::desk::Desk;
use crate::errors::{SettleStop, SettleWhy};
use stm_eval::Scratch;
use stm_events::FinishError;
use stm_store::Frozen;

/// In which order the work is done.
#[derive(Clone, Copy, Drop)]
enum WorkOrder {
    /// All blocks that are new or stale are evaluated before one is finished.
    Rounds,
    /// The lowest block that is new or stale or can finish is evaluated or finished.
    Lowest,
}

/// A ticket, unless the other one is below it.
fn unless_below(ticket: u32, other: Option<u32>) -> Option<u32>
    ensures { result ≡ unless_below ticket other }
{
    match other {
        Some(other) => { if other < ticket { None } else { Some(ticket) } }
        None => Some(ticket),
    }
}

/// How much settling or draining did.
#[derive(Clone, Copy, Debug, PartialEq, Eq, Drop)]
pub struct Settled {
    /// How many blocks finished.
    pub finished: u32,
    /// How many deliveries were accepted.
    pub evaluations: u32,
}

fn why_of_finish(refusal: FinishError) -> SettleWhy
    requires { StopsFinish refusal }
    ensures { result ≡ finish_why refusal }
{
    match refusal {
        FinishError::HistoryFull => SettleWhy::HistoryFull,
        FinishError::CellsFull => SettleWhy::CellsFull,
        FinishError::NoMemory => SettleWhy::NoMemory,
        FinishError::NoTicket
        | FinishError::NotEvaluated
        | FinishError::Stale
        | FinishError::Blocks => unreachable!(),
    }
}

impl Desk {
    /// Every ticket that is out is queued again.
    fn call_back(&mut self)
        ensures { self.new ≡ requeued_all self.old }
    {
        self.machine.recall();
    }

    /// The lowest ticket of a block that is new or stale.
    fn next_due(&self) -> Option<u32>
        requires { some_out self.now.pending ≡ false }
        ensures first { result ≡ next_due (state_of self.now) }
        ensures possible { IsPossible (state_of self.now) }
        ensures legal { IsLegalFrom (start_state self.now) self.now.history }
        ensures few { length self.now.history ≤ self.now.limit }
    {
        self.machine.first_due()
    }

    /// The lowest ticket of a block that is new or stale, unless a block below it could finish.
    fn next_due_below(&self) -> Option<u32>
        requires { some_out self.now.pending ≡ false }
        ensures first { result ≡ due_in WorkOrder.Lowest (state_of self.now) }
        ensures possible { IsPossible (state_of self.now) }
        ensures legal { IsLegalFrom (start_state self.now) self.now.history }
        ensures few { length self.now.history ≤ self.now.limit }
    {
        match self.next_due() {
            Some(due) => unless_below(due, self.next_ready(0)),
            None => None,
        }
    }

    /// The ticket that is evaluated next, if the next thing is an evaluation.
    fn next_evaluated(&self, order: WorkOrder) -> Option<u32>
        requires { some_out self.now.pending ≡ false }
        ensures first { result ≡ due_in order (state_of self.now) }
        ensures possible { IsPossible (state_of self.now) }
        ensures legal { IsLegalFrom (start_state self.now) self.now.history }
        ensures few { length self.now.history ≤ self.now.limit }
    {
        match order {
            WorkOrder::Rounds => self.next_due(),
            WorkOrder::Lowest => self.next_due_below(),
        }
    }

    /// The block of a ticket that is new or stale is evaluated and delivered, in any order of work in which that comes next.
    fn deliver_next(
        &mut self,
        client: u32,
        scratch: &mut Scratch,
        frozen: &Frozen,
        ticket: u32,
    ) -> Result<(), SettleWhy>
        requires client { client < max_clients }
        requires due { due_of (find_waiter ticket (state_of self.old).waiters) ≡ true }
        requires store { frozen.now ≡ plains (state_of self.old).store }
        ensures done { OnOk result ((next : AnyOrder) → InstallsNext next (state_of self.old) ticket
            → IsNextEvent next client 0 1 self.old self.new) }
        ensures why { IfErr result (λ why. (next : AnyOrder) → InstallsNext next (state_of self.old) ticket
            → StopsFor next why self.old) }
        ensures unchanged { OnErr result (self.new ≡ self.old) }
        ensures store { (state_of self.new).store ≡ (state_of self.old).store }
    {
        let verdict = match self.verdict_due(scratch, frozen, ticket) {
            Ok(verdict) => verdict,
            Err(_) => return Err(SettleWhy::NoMemory),
        };
        if self.is_full() {
            return Err(SettleWhy::HistoryFull);
        }
        match self.keep_verdict(client, ticket, verdict, scratch) {
            Ok(()) => Ok(()),
            Err(_) => Err(SettleWhy::NoMemory),
        }
    }

    /// Evaluations in an order of work, until the next thing is none. How many they were, also at a stop.
    fn deliver_all(
        &mut self,
        order: WorkOrder,
        client: u32,
        scratch: &mut Scratch,
    ) -> Result<u32, (u32, SettleWhy)>
        requires client { client < max_clients }
        requires none_out { some_out self.old.pending ≡ false }
        ensures begun { IfOk result (λ n. HasBegun (order_of order) client self.old self.new 0 n) }
        ensures none_due { OnOk result (due_in order (state_of self.new) ≡ None) }
        ensures stopped { IfErr result (λ e.
            HasBegun (order_of order) client self.old self.new 0 e.0) }
        ensures why { IfErr result (λ e. StopsFor (order_of order) e.1 self.new) }
        ensures none_out { some_out self.new.pending ≡ false }
        ensures possible { IsPossible (state_of self.new) }
        ensures legal { IsLegalFrom (start_state self.new) self.new.history }
        ensures few { OnOk result (length self.new.history ≤ self.new.limit) }
    {
        let mut delivered = 0;
        if self.next_evaluated(order).is_none() {
            return Ok(delivered);
        }
        let frozen = match self.store().freeze() {
            Ok(frozen) => frozen,
            Err(_) => return Err((delivered, SettleWhy::NoMemory)),
        };
        loop {
            let ticket = match self.next_evaluated(order) {
                Some(ticket) => ticket,
                None => return Ok(delivered),
            };
            match self.deliver_next(client, scratch, &frozen, ticket) {
                Ok(()) => {}
                Err(why) => return Err((delivered, why)),
            }
            delivered += 1;
        }
    }

    /// The ticket that is finished next, if the next thing isn't an evaluation.
    fn next_end(&self, order: WorkOrder) -> Option<u32>
        requires possible { IsPossible (state_of self.now) }
        requires none_due { due_in order (state_of self.now) ≡ None }
        ensures { result ≡ end_in order (state_of self.now) }
    {
        self.next_ready(0)
    }

    /// The block of a ticket that could finish is finished, in any order of work in which that comes next.
    fn finish_next(&mut self, client: u32, ticket: u32) -> Result<(), SettleWhy>
        requires client { client < max_clients }
        requires ready { ready_there (state_of self.old).store
            (find_waiter ticket (state_of self.old).waiters) ≡ true }
        requires few { length self.old.history ≤ self.old.limit }
        ensures done { OnOk result ((next : AnyOrder) → FinishesNext next (state_of self.old) ticket
            → IsNextEvent next client 1 0 self.old self.new) }
        ensures why { IfErr result (λ why. (next : AnyOrder) → FinishesNext next (state_of self.old) ticket
            → StopsFor next why self.old) }
        ensures unchanged { OnErr result (self.new ≡ self.old) }
    {
        match self.finish(client, ticket) {
            Ok(_) => Ok(()),
            Err(refusal) => Err(why_of_finish(refusal)),
        }
    }

    /// Evaluates, delivers and finishes in an order of work, until nothing is left to do or something can't be done. First each
    /// ticket that is out is queued.
    fn run(&mut self, order: WorkOrder, client: u32) -> Result<Settled, SettleStop>
        requires { client < max_clients }
        ensures done { RunsAs (order_of order) client (requeued_all self.old) self.new result }
        ensures settled { OnOk result (AllBlock (state_of self.new)) }
        ensures none_out { some_out self.new.pending ≡ false }
    {
        self.call_back();
        let mut finished = 0;
        let mut evaluations = 0;
        let mut scratch = Scratch::new(*self.history.allocator());
        loop {
            match self.deliver_all(order, client, &mut scratch) {
                Ok(delivered) => evaluations += delivered,
                Err((delivered, why)) => {
                    return Err(SettleStop {
                        finished,
                        evaluations: evaluations + delivered,
                        why,
                    });
                }
            }
            let ticket = match self.next_end(order) {
                Some(ticket) => ticket,
                None => {
                    // Each waiting block is known to have a verdict by this.
                    let _events = self.history();
                    return Ok(Settled {
                        finished,
                        evaluations,
                    });
                }
            };
            match self.finish_next(client, ticket) {
                Ok(()) => finished += 1,
                Err(why) => {
                    return Err(SettleStop {
                        finished,
                        evaluations,
                        why,
                    });
                }
            }
        }
    }

    /// Evaluates and delivers what is new or stale, and finishes the lowest block that doesn't block, until nothing is left
    /// to do or something can't be done. The caller's number is below 128. First each ticket that is out is queued.
    pub fn settle(&mut self, client: u32) -> Result<Settled, SettleStop>
        requires { client < max_clients }
        // It did what the definition of settling does, and returns its counts or why it stopped.
        ensures done { SettlesAs client (requeued_all self.old) self.new result }
        // After `Ok` each waiting block is current and blocks.
        ensures settled { OnOk result (AllBlock (state_of self.new)) }
        // No ticket is out, whatever the result.
        ensures none_out { some_out self.new.pending ≡ false }
    {
        self.run(WorkOrder::Rounds, client)
    }

    /// The state is one that events may go on from, and all in it is well typed.
    fn know_typed(&self)
        ensures possible { IsPossible (state_of self.now) }
        ensures typed { IsTypedState (state_of self.now) }
    {
        // The state is known to be possible by this, and the variables to be well typed by the next call.
        let _waiting = self.machine.waiting();
        let _variables = self.table.len();
    }

    /// Finishes the same blocks in the same order as `settle`, and evaluates a block only once those below it have come to rest: the
    /// lowest block that is new or stale, or doesn't block, is evaluated if it is new or stale and finished if not, until nothing is
    /// left to do or something can't be done. The caller's number is below 128. First each ticket that is out is queued.
    pub fn drain(&mut self, client: u32) -> Result<Settled, SettleStop>
        requires { client < max_clients }
        // It did what the definition of draining does, and returns its counts or why it stopped.
        ensures done { DrainsAs client (requeued_all self.old) self.new result }
        // After `Ok` each waiting block is current and blocks.
        ensures settled { OnOk result (AllBlock (state_of self.new)) }
        // It finished what `settle` would have finished, in the same order and with the same verdicts, and the store is the same; it
        // evaluated no more than `settle` would have.
        ensures serves { OnOk result
            (ServesAsSettling (state_of self.old) (slow_drain (requeued_all self.old))) }
        // No ticket is out, whatever the result.
        ensures none_out { some_out self.new.pending ≡ false }
    {
        self.know_typed();
        self.run(WorkOrder::Lowest, client)
    }
}
