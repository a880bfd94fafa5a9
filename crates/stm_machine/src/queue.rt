//! Work that is handed out, and comes back. No event is of it: the machine stays at its state.

ghost use Rattle.std.specs.Prelude.{◌≡◌, ◌≢◌, ◌≤◌, ℕ, true, None, map, take, vec_len, IfOk};
ghost use Rattle.stm_queue.specs.Queue.{has_ticket, queued, is_out, queued_again, recalled};
ghost use Rattle.stm_events.specs.SlowDesk.{Slow};
ghost use Rattle.stm_waiting.specs.Entries.{kept_at};
ghost use Rattle.stm_machine.specs.Machine.{IsAt, Stays};
ghost use Rattle.stm_events.specs.Refusals.{pending_left};
ghost use Rattle.stm_machine.specs.JobsHandedOut.{sent, AreKept, IsKeptJob, TakesJobs};

use crate::machine::Machine;
use std::alloc::Global;
use stm_eval::Job;
use stm_events::errors::DeliverError;
use stm_queue::Pending;
use stm_store::Frozen;
use stm_terms::NoMemory;
use stm_waiting::WaitingBlocks;

/// The job of a block that waits.
pub(crate) fn job_of(waiting: &WaitingBlocks, ticket: u32) -> Result<Job, NoMemory>
    requires { kept_at ticket waiting.now ≢ None }
    ensures ticket { IfOk result (λ j. j.ticket ≡ ticket) }
    ensures block { IfOk result (λ j. IsKeptJob waiting.now j) }
{
    match waiting.get(ticket) {
        Some(block) => {
            let block = block.block.share()?;
            Ok(Job { ticket, block })
        }
        None => unreachable!(),
    }
}

/// The jobs of the n lowest queued tickets, or of all of them.
fn jobs_of(
    alloc: Global,
    waiting: &WaitingBlocks,
    pending: &Pending,
    n: usize,
) -> Result<Vec<Job>, NoMemory>
    requires { (t : ℕ) → has_ticket t pending.now.entries ≡ true → kept_at t waiting.now ≢ None }
    ensures tickets { IfOk result (λ js. map (λ j. j.ticket) js.items
        ≡ take n (queued pending.now.entries)) }
    ensures blocks { IfOk result (λ js. AreKept waiting.now js.items) }
    ensures few { IfOk result (λ js. vec_len js ≤ n) }
{
    let mut jobs = Vec::new(alloc);
    for i in 0..n {
        match pending.queued_at(i) {
            Some(ticket) => {
                let job = job_of(waiting, ticket)?;
                jobs.push(job)?;
            }
            None => return Ok(jobs),
        }
    }
    Ok(jobs)
}

/// The n lowest queued tickets are out.
fn send_out(pending: &mut Pending, n: usize)
    ensures { pending.new.entries ≡ sent n pending.old.entries }
{
    for _ in 0..n {
        let _ = pending.take_first();
    }
}

/// A ticket whose message was overtaken is queued again.
fn queue_overtaken(pending: &mut Pending, refusal: DeliverError, ticket: u32)
    ensures { pending.new.entries ≡ pending_left refusal ticket pending.old.entries }
{
    match refusal {
        DeliverError::Overtaken(_) => {
            let _ = pending.hand_back(ticket);
        }
        _ => {}
    }
}

impl Machine {
    /// The jobs of the n lowest queued tickets, or of all of them, which are out from then on, and an unchanging copy of the
    /// present store, which has their variables.
    pub fn take(&mut self, n: usize) -> Result<(Frozen, Vec<Job>), NoMemory>
        requires { (s : Slow) × IsAt self.old s }
        ensures taken { TakesJobs n self.old result self.new }
        ensures kept { Stays self.old self.new }
    {
        let frozen = self.store.freeze()?;
        let jobs = jobs_of(self.alloc, &self.waiting, &self.pending, n)?;
        send_out(&mut self.pending, jobs.len());
        Ok((frozen, jobs))
    }

    /// A ticket that is out is queued again, and the answer is whether it was out.
    pub fn hand_back(&mut self, ticket: u32) -> bool
        ensures was { result ≡ is_out ticket self.old.pending }
        ensures queued { self.new
            ≡ record self.old { pending = queued_again ticket self.old.pending } }
        ensures kept { Stays self.old self.new }
    {
        self.pending.hand_back(ticket)
    }

    /// A message of the ticket was refused. If it was overtaken and its ticket is out, the ticket is queued again.
    pub fn after_refusal(&mut self, refusal: DeliverError, ticket: u32)
        ensures left { self.new
            ≡ record self.old { pending = pending_left refusal ticket self.old.pending } }
        ensures kept { Stays self.old self.new }
    {
        queue_overtaken(&mut self.pending, refusal, ticket);
    }

    /// Every ticket that is out is queued again.
    pub fn recall(&mut self)
        ensures recalled { self.new ≡ record self.old { pending = recalled self.old.pending } }
        ensures kept { Stays self.old self.new }
    {
        self.pending.recall();
    }
}
