//! A block that is submitted, evaluated and finished at once.

ghost use Rattle.std.specs.Prelude.{◌≡◌, ◌∷◌, ◌++◌, [], false, None, Some, IfOk, OnOk, OnErr};
ghost use Rattle.stm_store.specs.Cells.{applied_answer};
ghost use Rattle.stm_watch.specs.Pairs.{WithReads};
ghost use Rattle.stm_events.specs.SlowDesk.{Slow};
ghost use Rattle.stm_events.specs.Refusals.{overflows, submit_refused};
ghost use Rattle.stm_waiting.specs.Entries.{AllBelow, with_held};
ghost use Rattle.stm_machine.specs.Atomic.{IsVerdictOf, IsRunPlanFor, PlansRunBy, RunsBlocksBy, MayWaitCurrent, MovesThrough, submitted_current};
ghost use Rattle.stm_machine.specs.Machine.{IsAt, HasTicketLeft};
ghost use Rattle.stm_machine.specs.QueueAndIndex.{with_tickets};

use crate::finish::{Plan, make_plan, overflows_store, take_effect};
use crate::index::{queue_all, unwatch_all};
use crate::machine::Machine;
use stm_check::SharedBlock;
use stm_eval::{Scratch, try_block_in};
use stm_events::shared_verdict::SharedVerdict;
use stm_store::Applied;
use stm_terms::NoMemory;
use stm_terms::values::Value;
use stm_terms::verdicts::Verdict;
use stm_waiting::{Held, WaitingBlocks};
use stm_watch::Watch;

/// One block more, after the others, whose ticket watches what was read.
fn insert_watched(
    waiting: &mut WaitingBlocks,
    watch: &mut Watch,
    ticket: u32,
    block: SharedBlock,
    reads: &[(u32, Value)],
) -> Result<(), NoMemory>
    requires { AllBelow ticket waiting.old }
    ensures inserted { OnOk result (waiting.new
        ≡ waiting.old ++ (ticket, record { block = block; held = None }) ∷ []) }
    ensures watched { OnOk result (WithReads watch.old ticket reads.now watch.new) }
    ensures err { OnErr result ((waiting.new ≡ waiting.old) × (watch.new ≡ watch.old)) }
{
    waiting.insert(ticket, block)?;
    match watch.add(ticket, reads) {
        Ok(()) => Ok(()),
        Err(refused) => {
            let _ = waiting.remove(ticket);
            Err(refused)
        }
    }
}

/// One block more, after the others, with its verdict and what was read, which its ticket watches.
fn insert_current(
    waiting: &mut WaitingBlocks,
    watch: &mut Watch,
    ticket: u32,
    block: SharedBlock,
    verdict: SharedVerdict,
    scratch: &Scratch,
) -> Result<(), NoMemory>
    requires { AllBelow ticket waiting.old }
    ensures inserted { OnOk result (waiting.new
        ≡ with_held ticket (record { reads = scratch.now; verdict = verdict })
        (waiting.old ++ (ticket, record { block = block; held = None }) ∷ [])) }
    ensures watched { OnOk result (WithReads watch.old ticket scratch.now watch.new) }
    ensures err { OnErr result ((waiting.new ≡ waiting.old) × (watch.new ≡ watch.old)) }
{
    let reads = scratch.copy()?;
    insert_watched(waiting, watch, ticket, block, scratch.as_slice())?;
    waiting.hold(ticket, Held { reads, verdict });
    Ok(())
}

impl Machine {
    /// The ticket that the next submission gets.
    pub fn next_ticket(&self) -> u32
        ensures held { result ≡ self.now.next }
        ensures next { (s : Slow) → IsAt self.now s → result ≡ s.next }
    {
        self.next
    }

    /// The verdict on the present store of a block that may be submitted. The lists then have what it read.
    pub fn verdict_of(
        &self,
        scratch: &mut Scratch,
        block: &SharedBlock,
    ) -> Result<Verdict, NoMemory>
        requires { (s : Slow) × IsAt self.now s × (submit_refused s false block.now ≡ None) }
        ensures { IfOk result (λ v. (s : Slow) → IsAt self.now s → IsVerdictOf s block.now v scratch.new) }
    {
        // The store and the block are known to be well typed by these.
        let _cells = self.store.len();
        let _action = block.block().action();
        let frozen = self.store.freeze()?;
        try_block_in(scratch, &frozen, block.block())
    }

    /// Whether the new variables of a verdict don't fit the store.
    pub fn overflows(&self, verdict: &Verdict) -> bool
        ensures { (s : Slow) → IsAt self.now s → result ≡ overflows s.store (Some verdict.now) }
    {
        overflows_store(&self.store, verdict)
    }

    /// What running a block to its end by this verdict is to do.
    pub fn plan_run(&self, verdict: &SharedVerdict) -> Result<Plan, NoMemory>
        ensures verdict { IfOk result (λ p. p.verdict ≡ verdict.now) }
        ensures plan { IfOk result (PlansRunBy self.now verdict.now) }
    {
        make_plan(
            self.alloc,
            self.rule,
            &self.store,
            &self.watch,
            verdict,
            self.next,
        )
    }

    /// A block of this verdict is submitted, evaluated and finished by its plan. It never waits. All memory is taken before the
    /// first change.
    pub fn run(&mut self, plan: &Plan) -> Result<Applied, NoMemory>
        // At a state that the machine is at, a ticket is left, and a block may end by the plan.
        requires { (s : Slow) × IsAt self.old s × HasTicketLeft s × IsRunPlanFor s plan.now }
        ensures done { OnOk result (RunsBlocksBy plan.now self.old self.new) }
        ensures applied { IfOk result (λ a. a ≡ applied_answer self.old.store plan.now.verdict) }
        ensures pending { OnOk result (self.new.pending
            ≡ with_tickets plan.now.stale self.old.pending) }
        ensures unchanged { OnErr result (self.new ≡ self.old) }
    {
        let stale = plan.stale.as_slice();
        match take_effect(
            &mut self.pending,
            &mut self.store,
            &plan.verdict,
            stale.len(),
        ) {
            Ok(applied) => {
                unwatch_all(&mut self.watch, &self.waiting, stale);
                self.ready.remove_all(stale);
                queue_all(&mut self.pending, stale);
                self.next += 1;
                Ok(applied)
            }
            Err(refused) => Err(refused),
        }
    }

    /// A block that blocks is submitted, and waits current, neither queued nor out.
    pub fn submit_current(
        &mut self,
        block: SharedBlock,
        verdict: SharedVerdict,
        scratch: &Scratch,
    ) -> Result<(), NoMemory>
        requires { (s : Slow) × IsAt self.old s × MayWaitCurrent s block verdict scratch.now }
        ensures done { OnOk result
            (MovesThrough (submitted_current self.old.next block verdict) self.old self.new) }
        ensures pending { OnOk result (self.new.pending ≡ self.old.pending) }
        ensures unchanged { OnErr result (self.new ≡ self.old) }
    {
        match insert_current(
            &mut self.waiting,
            &mut self.watch,
            self.next,
            block,
            verdict,
            scratch,
        ) {
            Ok(()) => {
                self.next += 1;
                Ok(())
            }
            Err(refused) => Err(refused),
        }
    }
}
