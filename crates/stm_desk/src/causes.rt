//! Why the stale blocks are stale, for a checkpoint.

ghost use Rattle.std.specs.Prelude.{◌≡◌, ℕ, ◌||◌, ◌&&◌, false, nat_eq, if◌then◌else◌, IfOk, OnOk, Some, None, option_map};
ghost use Rattle.std.specs.HashSet.{contains};
ghost use Rattle.std.specs.Option.{option_or};
ghost use Rattle.stm_events.specs.KeptCauses.{kept_cause_of};
ghost use Rattle.stm_events.specs.SlowDesk.{find_waiter};
ghost use Rattle.stm_desk.specs.DeskView.{state_of};
ghost use Rattle.stm_desk.specs.Reasons.{was_stale, kept_cause_in, kept_cause_at};
ghost use Rattle.stm_desk.specs.ReasonsByEvents.{HasWritable, IsWritable, EachIsWritable};
ghost use Rattle.stm_desk.specs.Checkpointed.{kept_cause, causes_of};
ghost use Rattle.stm_desk.specs.Causes.{cause_by as kept_by, cause_in_list, cause_listed, last_listed, has_stale, reads_under as read_under, cause_sought, IsSought};

use crate::desk::Desk;
use crate::reason::Change;
use crate::why::changes_by;
use std::alloc::Global;
use std::collections::HashSet;
use stm_events::{CauseTable, Event, KeptCause, SharedVerdict, What};
use stm_machine::{Checkpoint, CheckpointBlock};
use stm_terms::NoMemory;
use stm_terms::lists::Writes;
use stm_terms::values::Value;

fn insert(tickets: &mut HashSet<u32>, ticket: u32) -> Result<(), NoMemory>
    ensures { OnOk result ((t : ℕ) → contains nat_eq tickets.new t ≡ (nat_eq ticket t || contains nat_eq tickets.old t)) }
{
    match tickets.insert(ticket) {
        Ok(_) => Ok(()),
        Err(_) => Err(NoMemory),
    }
}

/// The tickets of the stale ones of these blocks.
fn stale_tickets(alloc: Global, blocks: &[CheckpointBlock]) -> Result<HashSet<u32>, NoMemory>
    ensures { IfOk result (λ s. (t : ℕ) → contains nat_eq s t ≡ has_stale t blocks.now) }
{
    let mut tickets = HashSet::new(alloc);
    for block in blocks {
        add_if_stale(&mut tickets, block)?;
    }
    Ok(tickets)
}

/// The ticket of a block joins the others if the block is stale.
fn add_if_stale(tickets: &mut HashSet<u32>, block: &CheckpointBlock) -> Result<(), NoMemory>
    ensures { OnOk result ((t : ℕ) → contains nat_eq tickets.new t
        ≡ ((nat_eq block.now.ticket t && block.now.stale) || contains nat_eq tickets.old t)) }
{
    if block.stale {
        insert(tickets, block.ticket)
    } else {
        Ok(())
    }
}

/// A cause as a checkpoint keeps it.
fn kept(alloc: Global, finish: u32, changes: &[Change]) -> Result<KeptCause, NoMemory>
    ensures { IfOk result (λ k. k ≡ kept_cause (record { finish = finish; changes = changes.now })) }
{
    let mut left = Vec::new(alloc);
    for change in changes {
        left.push((change.variable, change.left))?;
    }
    Ok(KeptCause {
        finish,
        left: Writes::from_vec(left),
    })
}

/// Why a block of these reads is stale that a finish with this verdict made so, in a store that had this many cells.
fn cause_by(
    alloc: Global,
    finish: u32,
    first_new: u32,
    verdict: &SharedVerdict,
    reads: &[(u32, Value)],
) -> Result<KeptCause, NoMemory>
    requires { HasWritable first_new verdict.now }
    ensures { IfOk result (λ k. k ≡ kept_by finish first_new verdict.now reads.now) }
{
    let changes = changes_by(alloc, reads, verdict, first_new)?;
    kept(alloc, finish, changes.as_slice())
}

impl Desk {
    /// What the block under a ticket read at its last delivery; nothing if no block waits or it is new.
    fn reads_under(&self, ticket: u32) -> &[(u32, Value)]
        ensures { result.now ≡ read_under self.now ticket }
    {
        match self.reads(ticket) {
            Some(reads) => reads,
            None => &[],
        }
    }

    /// Each missing ticket of the list of a finish gets the finish as its cause.
    fn find_in_list(
        &self,
        alloc: Global,
        finish: u32,
        first_new: u32,
        verdict: &SharedVerdict,
        stale: &[u32],
        missing: &mut HashSet<u32>,
        causes: &mut CauseTable,
    ) -> Result<(), NoMemory>
        requires { HasWritable first_new verdict.now }
        ensures { OnOk result ((t : ℕ) → IsSought (contains nat_eq missing.old t) (kept_cause_of t causes.old)
            (cause_in_list t (kept_by finish first_new verdict.now (read_under self.now t)) stale.now)
            (contains nat_eq missing.new t) (kept_cause_of t causes.new)) }
    {
        for ticket in stale {
            self.find_for(alloc, *ticket, finish, first_new, verdict, missing, causes)?;
        }
        Ok(())
    }

    /// A ticket of the list of a finish gets the finish as its cause, if it is missing.
    fn find_for(
        &self,
        alloc: Global,
        ticket: u32,
        finish: u32,
        first_new: u32,
        verdict: &SharedVerdict,
        missing: &mut HashSet<u32>,
        causes: &mut CauseTable,
    ) -> Result<(), NoMemory>
        requires { HasWritable first_new verdict.now }
        ensures { OnOk result ((t : ℕ) → IsSought (contains nat_eq missing.old t) (kept_cause_of t causes.old)
            (if nat_eq t ticket then Some (kept_by finish first_new verdict.now (read_under self.now t)) else None)
            (contains nat_eq missing.new t) (kept_cause_of t causes.new)) }
    {
        if !missing.remove(&ticket) {
            return Ok(());
        }
        let cause = cause_by(alloc, finish, first_new, verdict, self.reads_under(ticket))?;
        causes.set(ticket, cause)
    }

    /// The missing tickets of an event's list get its finish as their cause: only a finish makes blocks stale.
    fn find_by(
        &self,
        alloc: Global,
        what: &What,
        missing: &mut HashSet<u32>,
        causes: &mut CauseTable,
    ) -> Result<(), NoMemory>
        requires { IsWritable what.now }
        ensures { OnOk result ((t : ℕ) → IsSought (contains nat_eq missing.old t) (kept_cause_of t causes.old)
            (cause_listed t (read_under self.now t) what.now) (contains nat_eq missing.new t) (kept_cause_of t causes.new)) }
    {
        match what {
            What::Finished {
                ticket,
                verdict,
                first_new,
                stale,
            } => self.find_in_list(
                alloc,
                *ticket,
                *first_new,
                verdict,
                stale.as_slice(),
                missing,
                causes,
            ),
            _ => Ok(()),
        }
    }

    /// The causes by these events, from the last one back: a missing ticket gets the last event whose list has it. Ends as soon as none is
    /// missing.
    fn find_from_end(
        &self,
        alloc: Global,
        events: &[Event],
        missing: &mut HashSet<u32>,
        causes: &mut CauseTable,
    ) -> Result<(), NoMemory>
        requires { EachIsWritable events.now }
        ensures { OnOk result ((t : ℕ) → IsSought (contains nat_eq missing.old t) (kept_cause_of t causes.old)
            (last_listed t (read_under self.now t) events.now) (contains nat_eq missing.new t) (kept_cause_of t causes.new)) }
    {
        let mut i = events.len();
        while i > 0 {
            if missing.is_empty() {
                return Ok(());
            }
            self.find_by(alloc, &events[i - 1].what, missing, causes)?;
            i -= 1;
        }
        Ok(())
    }

    /// The causes of missing tickets: through the history from its end, and then in the checkpoint that it begins from, if there is one.
    fn find_causes(
        &self,
        alloc: Global,
        missing: &mut HashSet<u32>,
        causes: &mut CauseTable,
    ) -> Result<(), NoMemory>
        requires { EachIsWritable self.now.history }
        ensures { OnOk result ((t : ℕ) → kept_cause_of t causes.new ≡ cause_sought (contains nat_eq missing.old t)
            (option_or (last_listed t (read_under self.now t) self.now.history) (kept_cause_at t self.now.checkpoint)) (kept_cause_of t causes.old)) }
    {
        self.find_from_end(alloc, self.history(), missing, causes)?;
        find_kept_at(alloc, self.begins_from(), missing, causes)
    }

    /// The causes of the stale blocks, for a checkpoint with these blocks.
    pub(crate) fn causes(
        &self,
        alloc: Global,
        blocks: &[CheckpointBlock],
    ) -> Result<CauseTable, NoMemory>
        requires { (t : ℕ) → has_stale t blocks.now ≡ was_stale (find_waiter t (state_of self.now).waiters) }
        ensures { IfOk result (λ c. (t : ℕ) → kept_cause_of t c ≡ causes_of self.now t) }
    {
        // The store is known to be well typed by this.
        let _variables = self.table.len();
        let mut missing = stale_tickets(alloc, blocks)?;
        let mut causes = CauseTable::empty(alloc);
        self.find_causes(alloc, &mut missing, &mut causes)?;
        Ok(causes)
    }
}

/// The causes of missing tickets that the checkpoint keeps, if there is one.
fn find_kept_at(
    alloc: Global,
    checkpoint: Option<&Checkpoint>,
    missing: &mut HashSet<u32>,
    causes: &mut CauseTable,
) -> Result<(), NoMemory>
    ensures { OnOk result ((t : ℕ) → kept_cause_of t causes.new
        ≡ cause_sought (contains nat_eq missing.old t) (kept_cause_at t (option_map (λ c. c.now) checkpoint.entry)) (kept_cause_of t causes.old)) }
{
    match checkpoint {
        Some(checkpoint) => find_kept(alloc, checkpoint.blocks(), missing, causes),
        None => Ok(()),
    }
}

/// The causes of missing tickets that these blocks of a checkpoint keep.
fn find_kept(
    alloc: Global,
    blocks: &[CheckpointBlock],
    missing: &mut HashSet<u32>,
    causes: &mut CauseTable,
) -> Result<(), NoMemory>
    ensures { OnOk result ((t : ℕ) → kept_cause_of t causes.new
        ≡ cause_sought (contains nat_eq missing.old t) (kept_cause_in t blocks.now) (kept_cause_of t causes.old)) }
{
    for block in blocks {
        find_kept_by(alloc, block, missing, causes)?;
    }
    Ok(())
}

/// The cause that one block of a checkpoint keeps, if its ticket is missing.
fn find_kept_by(
    alloc: Global,
    block: &CheckpointBlock,
    missing: &mut HashSet<u32>,
    causes: &mut CauseTable,
) -> Result<(), NoMemory>
    ensures missing { OnOk result ((t : ℕ) → contains nat_eq missing.new t
        ≡ if nat_eq block.now.ticket t then false else contains nat_eq missing.old t) }
    ensures cause { OnOk result ((t : ℕ) → kept_cause_of t causes.new
        ≡ cause_sought (contains nat_eq missing.old t) (if nat_eq block.now.ticket t then block.now.cause else None) (kept_cause_of t causes.old)) }
{
    if missing.remove(&block.ticket) {
        set_cause(alloc, block, causes)
    } else {
        Ok(())
    }
}

/// The ticket of a block gets the cause that the block keeps, if it keeps one.
fn set_cause(
    alloc: Global,
    block: &CheckpointBlock,
    causes: &mut CauseTable,
) -> Result<(), NoMemory>
    ensures { OnOk result ((t : ℕ) → kept_cause_of t causes.new
        ≡ cause_sought (nat_eq block.now.ticket t) block.now.cause (kept_cause_of t causes.old)) }
{
    match &block.cause {
        Some(cause) => causes.set(block.ticket, cause.copy(alloc)?),
        None => Ok(()),
    }
}
