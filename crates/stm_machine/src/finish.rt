//! A block that finishes.

ghost use Rattle.std.specs.Prelude.{◌≡◌, ℕ, ◌≤◌, false, not, ◌&&◌, nat_eq, Some, IfOk, OnOk, OnErr, length};
ghost use Rattle.std.specs.List.{list_any};
ghost use Rattle.stm_terms.specs.UnlessNoMemory.{RefusedAs};
ghost use Rattle.stm_store.specs.Cells.{plains, Fits, applied, made_by, applied_answer};
ghost use Rattle.stm_watch.specs.Pairs.{watches};
ghost use Rattle.stm_queue.specs.SortedTickets.{IsRising};
ghost use Rattle.stm_events.specs.SlowDesk.{Slow, waking};
ghost use Rattle.stm_events.specs.Refusals.{overflows, finish_refused};
ghost use Rattle.stm_machine.specs.Machine.{IsAt, MovesOrStays};
ghost use Rattle.stm_machine.specs.Plans.{IsPlanFor, finish_by};
ghost use Rattle.stm_machine.specs.QueueAndIndex.{with_tickets};

use crate::index::{forget, queue_all, stale_tickets, unwatch_all};
use crate::machine::Machine;
use std::alloc::Global;
use stm_events::errors::FinishError;
use stm_events::shared_verdict::{SharedVerdict, blocks};
use stm_events::staleness::StalenessRule;
use stm_events::tickets::Tickets;
use stm_queue::Pending;
use stm_store::{Applied, Store};
use stm_terms::NoMemory;
use stm_terms::verdicts::Verdict;
use stm_watch::Watch;

/// What a finish is to do: the verdict, with its new variables before they are numbered; the number that the first of them
/// gets; and the tickets that become stale, in ascending order.
#[derive(Drop)]
pub struct Plan {
    pub verdict: SharedVerdict,
    pub first_new: u32,
    pub stale: Tickets,
}

/// Whether the new variables of a verdict don't fit the store.
pub(crate) fn overflows_store(store: &Store, verdict: &Verdict) -> bool
    ensures { result ≡ overflows store.now (Some verdict.now) }
{
    news_of(verdict) > Store::LIMIT - store.len()
}

fn news_of(verdict: &Verdict) -> usize
    ensures { result ≡ length (made_by verdict.now) }
{
    match verdict {
        Verdict::Commits { news, .. } => news.as_slice().len(),
        _ => 0,
    }
}

/// The verdict, the number and the tickets that a finish needs.
pub(crate) fn make_plan(
    alloc: Global,
    rule: StalenessRule,
    store: &Store,
    watch: &Watch,
    verdict: &SharedVerdict,
    ticket: u32,
) -> Result<Plan, NoMemory>
    ensures verdict { IfOk result (λ p. p.verdict ≡ verdict.now) }
    ensures first_new { IfOk result (λ p. p.first_new ≡ length store.now) }
    ensures rising { IfOk result (λ p. IsRising p.stale) }
    ensures watchers { IfOk result (λ p. (u : ℕ)
        → list_any (nat_eq u) p.stale
        ≡ (not (nat_eq u ticket) && watches watch.now (waking rule store.now verdict.now) u)) }
{
    let blocks = Verdict::Blocks;
    let stale = stale_tickets(alloc, rule, store, watch, verdict.get(&blocks), ticket)?;
    Ok(Plan {
        verdict: verdict.share()?,
        first_new: store.len() as u32,
        stale: Tickets::new(alloc, stale)?,
    })
}

/// Makes room for a finish, and then its writes.
pub(crate) fn take_effect(
    pending: &mut Pending,
    store: &mut Store,
    verdict: &SharedVerdict,
    stale: usize,
) -> Result<Applied, NoMemory>
    requires { Fits (plains store.old) verdict.now }
    ensures entries { pending.new.entries ≡ pending.old.entries }
    ensures tickets { OnOk result (stale ≤ pending.new.room) }
    ensures store { OnOk result (store.new ≡ applied store.old verdict.now) }
    ensures told { IfOk result (λ a. a ≡ applied_answer store.old verdict.now) }
    ensures err { OnErr result (store.new ≡ store.old) }
{
    pending.make_room(stale)?;
    let blocks = Verdict::Blocks;
    match store.apply(verdict.get(&blocks)) {
        Ok(applied) => Ok(applied),
        Err(_) => Err(NoMemory),
    }
}

impl Machine {
    /// Why the block under a ticket can't finish, or what its finish is to do. `full` says whether the history is.
    pub fn plan(&self, full: bool, ticket: u32) -> Result<Plan, FinishError>
        ensures refused { (s : Slow) → IsAt self.now s
            → RefusedAs FinishError.NoMemory (finish_refused s full ticket) result }
        ensures plan { IfOk result (λ p. (s : Slow) → IsAt self.now s → IsPlanFor s ticket p) }
        ensures room { OnOk result (full ≡ false) }
    {
        let waiting = match self.waiting.get(ticket) {
            Some(waiting) => waiting,
            None => return Err(FinishError::NoTicket),
        };
        // The store and the block are known to be well typed by these.
        let _cells = self.store.len();
        let _action = waiting.block.block().action();
        let held = match &waiting.held {
            Some(held) => held,
            None => return Err(FinishError::NotEvaluated),
        };
        let verdict = self.waiting.verdict(held);
        if self.pending.has(ticket) {
            return Err(FinishError::Stale);
        }
        if blocks(verdict) {
            return Err(FinishError::Blocks);
        }
        if full {
            return Err(FinishError::HistoryFull);
        }
        if overflows_store(&self.store, verdict) {
            return Err(FinishError::CellsFull);
        }
        match make_plan(
            self.alloc,
            self.rule,
            &self.store,
            &self.watch,
            &held.verdict,
            ticket,
        ) {
            Ok(plan) => Ok(plan),
            Err(_) => Err(FinishError::NoMemory),
        }
    }

    /// The block takes effect by its plan and waits no more. Its stale tickets are queued.
    pub fn finish(&mut self, ticket: u32, plan: &Plan) -> Result<Applied, NoMemory>
        // At a state that the machine is at, nothing refuses it.
        requires { (s : Slow) × IsAt self.old s × IsPlanFor s ticket plan.now }
        ensures moves { MovesOrStays result
            (finish_by ticket plan.now)
            (with_tickets plan.now.stale self.old.pending)
            self.old self.new }
        ensures applied { IfOk result (λ a. a ≡ applied_answer self.old.store plan.now.verdict) }
    {
        let stale = plan.stale.as_slice();
        match take_effect(
            &mut self.pending,
            &mut self.store,
            &plan.verdict,
            stale.len(),
        ) {
            Ok(applied) => {
                unwatch_all(&mut self.watch, &self.waiting, stale);
                let _ = forget(&mut self.waiting, &mut self.watch, ticket);
                self.ready.remove(ticket);
                self.ready.remove_all(stale);
                queue_all(&mut self.pending, stale);
                Ok(applied)
            }
            Err(refused) => Err(refused),
        }
    }
}
