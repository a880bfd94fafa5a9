//! A transaction at once.

ghost use Rattle.std.specs.Prelude.{◌≡◌, ◌≢◌, ◌+◌, ◌<◌, ◌≤◌, ◌++◌, ◌∷◌, [], true, false, None, Some, IfOk, OnOk, IfErr, OnErr, IfSome, if◌then◌else◌, vec_len, vec_capacity};
ghost use Rattle.stm_store.specs.Cells.{plains, Fits, applied_answer};
ghost use Rattle.stm_events.specs.Refusals.{overflows, submit_refused};
ghost use Rattle.stm_events.specs.SlowAtomically.{atomically};
ghost use Rattle.stm_events.specs.SlowDesk.{is_blocks, verdict_on};
ghost use Rattle.stm_terms.specs.Limits.{max_clients};
ghost use Rattle.stm_events.specs.declared.event.What.TheVariants.{Submitted, Installed, Finished};
ghost use Rattle.stm_machine.specs.Atomic.{IsVerdictOf};
ghost use Rattle.stm_machine.specs.Machine.{event};
ghost use Rattle.stm_desk.specs.DeskView.{state_of, lacks_room};
ghost use Rattle.stm_desk.specs.Events.{whats_ran};
ghost use Rattle.stm_desk.specs.Refusals.{atomic_refusal, atomic_refusal_before, IsAtomicError};
ghost use Rattle.stm_desk.specs.RunAtOnce.{HasRunAtOnce};
ghost use Rattle.stm_desk.specs.Settling.{with_whats};

use crate::desk::Desk;
use crate::errors::AtomicError;
use crate::finish::{Finish, finish_by};
use crate::submit::say_typed;
use stm_check::SharedBlock;
use stm_eval::Scratch;
use stm_events::shared_verdict::blocks;
use stm_events::{Event, SharedVerdict, SubmitError, What};
use stm_machine::Plan;
use stm_terms::NoMemory;
use stm_terms::verdicts::Verdict;

/// A block that was run atomically: its ticket, and what its finish did. There is none if the block blocks; it waits then.
#[derive(Drop)]
pub struct Ran {
    pub ticket: u32,
    pub finish: Option<Finish>,
}

/// The three events of a block that ends by its plan, and room for them in a list of events.
fn ended_events(
    events: &mut Vec<Event>,
    client: u32,
    ticket: u32,
    block: SharedBlock,
    plan: &Plan,
) -> Result<(Event, Event, Event), NoMemory>
    ensures submitted { IfOk result (λ es. es.0 ≡ event client (Submitted ticket block)) }
    ensures installed { IfOk result (λ es. es.1 ≡ event client (Installed ticket plan.now.verdict)) }
    ensures finished { IfOk result (λ es. es.2 ≡ event client
        (Finished ticket plan.now.verdict plan.now.first_new plan.now.stale)) }
    ensures items { events.new.items ≡ events.old.items }
    ensures room { OnOk result (vec_len events.new + 3 ≤ vec_capacity events.new) }
{
    events.reserve(3)?;
    let verdict = plan.verdict.share()?;
    let finished = What::Finished {
        ticket,
        verdict: plan.verdict.share()?,
        first_new: plan.first_new,
        stale: plan.stale.share()?,
    };
    Ok((
        Event {
            client,
            what: What::Submitted { ticket, block },
        },
        Event {
            client,
            what: What::Installed { ticket, verdict },
        },
        Event {
            client,
            what: finished,
        },
    ))
}

/// Three events more, for which there is room.
fn push_three(events: &mut Vec<Event>, three: (Event, Event, Event))
    requires { vec_len events.old + 3 ≤ vec_capacity events.old }
    ensures { events.new.items
        ≡ ((events.old.items ++ three.0 ∷ []) ++ three.1 ∷ []) ++ three.2 ∷ [] }
{
    let (one, two, three) = three;
    events.push_reserved(one);
    events.push_reserved(two);
    events.push_reserved(three);
}

/// Two events more, for which there is room.
fn push_two(events: &mut Vec<Event>, one: Event, two: Event)
    requires { vec_len events.old + 2 ≤ vec_capacity events.old }
    ensures { events.new.items ≡ (events.old.items ++ one ∷ []) ++ two ∷ [] }
{
    events.push_reserved(one);
    events.push_reserved(two);
}

impl Desk {
    /// Whether the history has no room for n events.
    fn lacks_room(&self, n: usize) -> bool
        requires { n ≤ 3 }
        ensures { result ≡ lacks_room self.now n }
    {
        self.history.len() + n > self.limit as usize
    }

    /// Why the block can't be run atomically, as far as it shows before it is evaluated.
    fn may_run(&self, block: &SharedBlock) -> Result<(), AtomicError>
        ensures allowed { OnOk result (submit_refused (state_of self.now) false block.now ≡ None) }
        ensures room { OnOk result (lacks_room self.now 2 ≡ false) }
        ensures refused { IfErr result (λ e. atomic_refusal_before self.now block.now ≡ Some e) }
        ensures told { IfErr result (λ e. atomic_refusal self.now block.now ≡ Some e) }
        ensures memory { IfErr result (λ e. e ≢ AtomicError.NoMemory) }
    {
        match self.machine.may_submit(false, block) {
            Ok(()) | Err(SubmitError::HistoryFull | SubmitError::NoMemory) => {
                if self.lacks_room(2) {
                    Err(AtomicError::HistoryFull)
                } else {
                    Ok(())
                }
            }
            Err(SubmitError::Foreign(number)) => Err(AtomicError::Foreign(number)),
            Err(SubmitError::WaitingFull) => Err(AtomicError::WaitingFull),
        }
    }

    /// The verdict on the present store of a block that may be submitted. The lists then have what it read.
    fn verdict_at_once(
        &self,
        scratch: &mut Scratch,
        block: &SharedBlock,
    ) -> Result<Verdict, NoMemory>
        requires { submit_refused (state_of self.now) false block.now ≡ None }
        ensures { IfOk result (λ v. IsVerdictOf (state_of self.now) block.now v scratch.new) }
    {
        self.machine.verdict_of(scratch, block)
    }

    /// Whether the new variables of a verdict don't fit the store.
    fn overflows(&self, verdict: &Verdict) -> bool
        ensures { result ≡ overflows (state_of self.now).store (Some verdict.now) }
    {
        self.machine.overflows(verdict)
    }

    /// A block that blocks is submitted and installed, and waits.
    fn submit_current(
        &mut self,
        client: u32,
        block: SharedBlock,
        verdict: SharedVerdict,
        scratch: &Scratch,
    ) -> Result<u32, NoMemory>
        requires client { client < max_clients }
        requires allowed { submit_refused (state_of self.old) false block ≡ None }
        requires room { lacks_room self.old 2 ≡ false }
        requires verdict { IsVerdictOf (state_of self.old) block verdict scratch.now }
        requires blocks { is_blocks verdict ≡ true }
        ensures accepted { OnOk result (self.new
            ≡ with_whats self.old client (atomically (state_of self.old) block)) }
        ensures ticket { IfOk result (λ t. t ≡ (state_of self.old).next) }
        ensures unchanged { OnErr result (self.new ≡ self.old) }
    {
        say_typed(&block);
        let ticket = self.machine.next_ticket();
        let shared = block.share()?;
        let installed = verdict.share()?;
        self.history.reserve(2)?;
        self.machine.submit_current(block, verdict, scratch)?;
        push_two(
            &mut self.history,
            Event {
                client,
                what: What::Submitted {
                    ticket,
                    block: shared,
                },
            },
            Event {
                client,
                what: What::Installed {
                    ticket,
                    verdict: installed,
                },
            },
        );
        self.past.let_few_go();
        Ok(ticket)
    }

    /// A block that ends is submitted, installed and finished.
    fn finish_at_once(
        &mut self,
        client: u32,
        block: SharedBlock,
        verdict: &SharedVerdict,
    ) -> Result<(u32, Finish), NoMemory>
        requires client { client < max_clients }
        requires allowed { submit_refused (state_of self.old) false block ≡ None }
        requires room { lacks_room self.old 3 ≡ false }
        requires verdict { verdict_on (state_of self.old).store block ≡ Some verdict.now }
        requires fits { Fits (plains (state_of self.old).store) verdict.now }
        requires ends { is_blocks verdict.now ≡ false }
        requires cells { overflows (state_of self.old).store (Some verdict.now) ≡ false }
        ensures accepted { OnOk result (self.new
            ≡ with_whats self.old client (atomically (state_of self.old) block)) }
        ensures events { IfOk result (λ r. atomically (state_of self.old) block
            ≡ whats_ran block (record { ticket = r.0; finish = Some r.1 })) }
        ensures ticket { IfOk result (λ r. r.0 ≡ (state_of self.old).next) }
        ensures applied { IfOk result (λ r. r.1.applied
            ≡ applied_answer (state_of self.old).store r.1.verdict) }
        ensures unchanged { OnErr result (self.new ≡ self.old) }
    {
        say_typed(&block);
        let ticket = self.machine.next_ticket();
        let plan = self.machine.plan_run(verdict)?;
        let events = ended_events(&mut self.history, client, ticket, block, &plan)?;
        let applied = self.machine.run(&plan)?;
        self.labels.remove(ticket);
        push_three(&mut self.history, events);
        self.past.let_few_go();
        Ok((ticket, finish_by(plan, applied)))
    }

    /// A block whose verdict is known, and that nothing refuses, is run atomically.
    fn run_allowed(
        &mut self,
        client: u32,
        block: SharedBlock,
        verdict: Verdict,
        scratch: &Scratch,
        waits: bool,
    ) -> Result<Ran, NoMemory>
        requires client { client < max_clients }
        requires allowed { submit_refused (state_of self.old) false block ≡ None }
        requires room { lacks_room self.old (if waits then 2 else 3) ≡ false }
        requires verdict { IsVerdictOf (state_of self.old) block verdict scratch.now }
        requires waits { is_blocks verdict ≡ waits }
        requires cells { overflows (state_of self.old).store (Some verdict) ≡ false }
        ensures accepted { OnOk result (self.new
            ≡ with_whats self.old client (atomically (state_of self.old) block)) }
        ensures events { IfOk result (λ r. atomically (state_of self.old) block ≡ whats_ran block r) }
        ensures ticket { IfOk result (λ r. r.ticket ≡ (state_of self.old).next) }
        ensures applied { IfOk result (λ r. IfSome r.finish (λ f. f.applied
            ≡ applied_answer (state_of self.old).store f.verdict)) }
        ensures unchanged { OnErr result (self.new ≡ self.old) }
    {
        let verdict = SharedVerdict::new(*self.history.allocator(), verdict)?;
        if waits {
            let ticket = self.submit_current(client, block, verdict, scratch)?;
            Ok(Ran {
                ticket,
                finish: None,
            })
        } else {
            let (ticket, finish) = self.finish_at_once(client, block, &verdict)?;
            Ok(Ran {
                ticket,
                finish: Some(finish),
            })
        }
    }

    /// Why a block whose verdict is known can't be run atomically.
    fn may_end(
        &self,
        block: &SharedBlock,
        verdict: &Verdict,
        waits: bool,
    ) -> Result<(), AtomicError>
        requires allowed { submit_refused (state_of self.now) false block.now ≡ None }
        requires verdict { verdict_on (state_of self.now).store block.now ≡ Some verdict.now }
        requires waits { is_blocks verdict.now ≡ waits }
        ensures room { OnOk result (lacks_room self.now (if waits then 2 else 3) ≡ false) }
        ensures cells { OnOk result (overflows (state_of self.now).store (Some verdict.now) ≡ false) }
        ensures allowed { OnOk result (atomic_refusal self.now block.now ≡ None) }
        ensures refused { IfErr result (λ e. atomic_refusal self.now block.now ≡ Some e) }
    {
        if self.lacks_room(if waits { 2 } else { 3 }) {
            return Err(AtomicError::HistoryFull);
        }
        if self.overflows(verdict) {
            return Err(AtomicError::CellsFull);
        }
        Ok(())
    }

    /// A block whose verdict is known is run atomically.
    fn run_by(
        &mut self,
        client: u32,
        block: SharedBlock,
        verdict: Verdict,
        scratch: &Scratch,
    ) -> Result<Ran, AtomicError>
        requires client { client < max_clients }
        requires allowed { submit_refused (state_of self.old) false block ≡ None }
        requires room { lacks_room self.old 2 ≡ false }
        requires verdict { IsVerdictOf (state_of self.old) block verdict scratch.now }
        ensures accepted { IfOk result (HasRunAtOnce client block self.old self.new) }
        ensures refused { IfErr result (λ e. e ≢ AtomicError.NoMemory
            → atomic_refusal self.old block ≡ Some e) }
        ensures unchanged { OnErr result (self.new ≡ self.old) }
    {
        let waits = blocks(&verdict);
        match self.may_end(&block, &verdict, waits) {
            Ok(()) => Ok(self.run_allowed(client, block, verdict, scratch, waits)?),
            Err(refusal) => Err(refusal),
        }
    }

    /// Runs a block at once: it is submitted, evaluated on the present store, and finished if it doesn't block; if it does, it waits
    /// under its ticket, current. The other tickets stay queued, out or stale as they are, but for those that the finish makes stale.
    /// The caller's number is below 128. A refusal changes nothing, not even the next ticket.
    pub fn atomically(&mut self, client: u32, block: SharedBlock) -> Result<Ran, AtomicError>
        requires { client < max_clients }
        // Accepted: the block is submitted, evaluated and, unless it blocks, finished.
        ensures accepted { IfOk result (HasRunAtOnce client block self.old self.new) }
        // Refused for the first reason that holds. An out-of-memory error may come before the reasons that only the verdict shows.
        ensures refused { IfErr result (IsAtomicError self.old block) }
        ensures unchanged { OnErr result (self.new ≡ self.old) }
    {
        match self.may_run(&block) {
            Ok(()) => {}
            Err(refusal) => return Err(refusal),
        }
        let mut scratch = Scratch::new(*self.history.allocator());
        let verdict = self.verdict_at_once(&mut scratch, &block)?;
        self.run_by(client, block, verdict, &scratch)
    }
}
