//! The queued blocks, evaluated by the thread that has the desk.

ghost use Rattle.std.specs.Prelude.{◌≡◌, ◌<◌, ◌≤◌, true, false, drop, length, slice_get, Some, IfOk, OnOk, OnErr, IfSome};
ghost use Rattle.stm_store.specs.Cells.{plains};
ghost use Rattle.stm_queue.specs.Queue.{queued, tickets};
ghost use Rattle.stm_queue.specs.SortedTickets.{IsRising};
ghost use Rattle.stm_events.specs.SlowDesk.{find_waiter};
ghost use Rattle.stm_terms.specs.Limits.{max_clients};
ghost use Rattle.stm_events.specs.declared.event.What.TheVariants.{Installed};
ghost use Rattle.stm_machine.specs.Keeping.{IsVerdictUnder};
ghost use Rattle.stm_machine.specs.QueueAndIndex.{due_of};
ghost use Rattle.stm_desk.specs.DeskView.{state_of, is_full, with_event};

use crate::desk::Desk;
use stm_eval::Scratch;
use stm_events::{DeliverError, Event, What};
use stm_store::Frozen;
use stm_terms::NoMemory;
use stm_terms::verdicts::Verdict;

/// How far an evaluation of queued blocks came: how many verdicts were installed, and the refusal that stopped it.
#[derive(Clone, Copy, Drop)]
pub struct Evaluation {
    pub count: u32,
    pub stop: Option<DeliverError>,
}

impl Desk {
    ghost use Rattle.stm_desk.specs.Evaluating.{with_evaluated, evaluate_lowest, evaluated_by_call, HasEvaluatedSome};

    /// The lowest queued ticket, whether or not others are out. Its block is new or stale.
    fn next_queued(&self) -> Option<u32>
        ensures first { result ≡ slice_get (queued self.now.pending) 0 }
        ensures due { IfSome result (λ t. due_of (find_waiter t (state_of self.now).waiters) ≡ true) }
        ensures rising { IsRising (tickets self.now.pending) }
    {
        self.machine.next_queued()
    }

    /// The verdict on the present store of the block of a new or stale ticket. The lists then have what it read.
    pub(crate) fn verdict_due(
        &self,
        scratch: &mut Scratch,
        frozen: &Frozen,
        ticket: u32,
    ) -> Result<Verdict, NoMemory>
        requires due { due_of (find_waiter ticket (state_of self.now).waiters) ≡ true }
        requires store { frozen.now ≡ plains (state_of self.now).store }
        ensures verdict { IfOk result (λ v. IsVerdictUnder (state_of self.now) ticket v scratch.new) }
        ensures few { length self.now.history ≤ self.now.limit }
    {
        self.machine.verdict_in(scratch, frozen, ticket)
    }

    /// Installs the verdict that the block of a new or stale ticket has on the present store, with what it read.
    pub(crate) fn keep_verdict(
        &mut self,
        client: u32,
        ticket: u32,
        verdict: Verdict,
        scratch: &Scratch,
    ) -> Result<(), NoMemory>
        requires client { client < max_clients }
        requires room { is_full self.old ≡ false }
        requires due { due_of (find_waiter ticket (state_of self.old).waiters) ≡ true }
        requires verdict { IsVerdictUnder (state_of self.old) ticket verdict scratch.now }
        ensures accepted { OnOk result
            (self.new ≡ with_event self.old client (Installed ticket verdict)) }
        ensures unchanged { OnErr result (self.new ≡ self.old) }
    {
        self.history.reserve(1)?;
        let verdict = self.machine.keep(ticket, verdict, scratch)?;
        self.history.push_reserved(Event {
            client,
            what: What::Installed { ticket, verdict },
        });
        self.past.let_few_go();
        Ok(())
    }

    /// The block of the lowest queued ticket is evaluated on the present store, and its verdict installed.
    fn evaluate_next(
        &mut self,
        client: u32,
        scratch: &mut Scratch,
        frozen: &Frozen,
        ticket: u32,
    ) -> Result<(), NoMemory>
        requires client { client < max_clients }
        requires room { is_full self.old ≡ false }
        requires first { slice_get (queued self.old.pending) 0 ≡ Some ticket }
        requires rising { IsRising (tickets self.old.pending) }
        requires due { due_of (find_waiter ticket (state_of self.old).waiters) ≡ true }
        requires store { frozen.now ≡ plains (state_of self.old).store }
        ensures done { OnOk result (self.new ≡ with_evaluated self.old client ticket) }
        ensures rest { OnOk result (queued self.new.pending ≡ drop 1 (queued self.old.pending)) }
        ensures store { (state_of self.new).store ≡ (state_of self.old).store }
        ensures unchanged { OnErr result (self.new ≡ self.old) }
    {
        match self.verdict_due(scratch, frozen, ticket) {
            Ok(verdict) => self.keep_verdict(client, ticket, verdict, scratch),
            Err(refused) => Err(refused),
        }
    }

    /// Evaluates the n lowest queued tickets, or all of them, on a copy of the present store.
    fn evaluate_on(
        &mut self,
        client: u32,
        scratch: &mut Scratch,
        frozen: &Frozen,
        n: u32,
    ) -> Result<Evaluation, NoMemory>
        requires client { client < max_clients }
        requires store { frozen.now ≡ plains (state_of self.old).store }
        ensures done { IfOk result (λ e.
            evaluated_by_call self.new e ≡ evaluate_lowest self.old client n) }
        ensures few { IfOk result (λ e. e.count ≤ n) }
        ensures left { OnErr result (HasEvaluatedSome client n self.old self.new) }
        ensures same { (state_of self.new).store ≡ (state_of self.old).store }
    {
        for count in 0..n {
            let ticket = match self.next_queued() {
                Some(ticket) => ticket,
                None => return Ok(Evaluation { count, stop: None }),
            };
            if self.is_full() {
                return Ok(Evaluation {
                    count,
                    stop: Some(DeliverError::HistoryFull),
                });
            }
            self.evaluate_next(client, scratch, frozen, ticket)?;
        }
        Ok(Evaluation {
            count: n,
            stop: None,
        })
    }

    /// Evaluates the n lowest queued tickets, or all of them, in ascending order on the present store, and installs each verdict.
    /// If the history is full it stops at the next ticket, which stays queued like those after it. Tickets that are out stay out.
    /// The caller's number is below 128. After `NoMemory` the first of them are evaluated, and the others are queued as before.
    pub fn evaluate_queued(&mut self, client: u32, n: u32) -> Result<Evaluation, NoMemory>
        requires { client < max_clients }
        // After `Ok` as many of the n lowest are evaluated as there was room for.
        ensures done { IfOk result (λ e.
            evaluated_by_call self.new e ≡ evaluate_lowest self.old client n) }
        ensures few { IfOk result (λ e. e.count ≤ n) }
        // After an out-of-memory error a first part of them is.
        ensures left { OnErr result (HasEvaluatedSome client n self.old self.new) }
        ensures same { (state_of self.new).store ≡ (state_of self.old).store }
    {
        if self.next_queued().is_none() {
            return Ok(Evaluation {
                count: 0,
                stop: None,
            });
        }
        let alloc = *self.history.allocator();
        match self.store().freeze() {
            Ok(frozen) => self.evaluate_on(client, &mut Scratch::new(alloc), &frozen, n),
            Err(refused) => Err(refused),
        }
    }
}
