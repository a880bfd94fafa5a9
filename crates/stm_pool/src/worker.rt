//! A worker: it evaluates what is queued until the desk is stopped.

ghost use Rattle.std.specs.Prelude.{◌≡◌, ◌≤◌, Some};
ghost use Rattle.stm_terms.specs.Limits.{max_levels};
ghost use Rattle.stm_store.specs.Cells.{Covers};
ghost use Rattle.stm_pool.specs.Worked.{OnlyDelivers};

use crate::calls::Next;
use crate::pass::Pass;
use crate::shared::SharedDesk;
use std::alloc::Global;
use std::sync::Wait;
use std::sync::ledger::Ledger;
use std::thread::Threads;
use stm_desk::DeliverError;
use stm_eval::{Evaluated, Job, evaluate_forked};
use stm_store::Frozen;

/// What is called without the lock: before an evaluation, whether to begin it, and after an
/// accepted delivery.
pub trait Gate<R> {
    fn before(&self, rt: &R, ticket: u32) -> bool;

    fn after(&self, rt: &R, ticket: u32);
}

/// How a worker ended.
#[derive(Clone, Copy, Debug, PartialEq, Eq)]
pub enum WorkEnd {
    Stopped,
    HistoryFull,
    NoMemory,
}

/// Evaluates what is queued until the desk is stopped. If the history is full or memory runs out,
/// its ticket is queued again and the desk stopped first. Both branches of an `orElse` run at once,
/// in threads of their own, `levels` deep.
///
/// The clause says that the pass comes back with deliveries of this worker and no other new event. How the worker ended is only tested.
pub fn work<L: Ledger, G: Gate<R>, R: Wait + Threads + Sync>(
    rt: &R,
    alloc: Global,
    shared: &SharedDesk<L>,
    gate: &G,
    pass: Pass<L>,
    levels: u32,
) -> (Pass<L>, WorkEnd)
    requires { levels ≤ max_levels }
    ensures { OnlyDelivers pass result.0 }
{
    let mut pass = pass;
    for _ in rt.forever() {
        if let Some(end) = round(rt, alloc, shared, gate, &mut pass, levels) {
            return (pass, end);
        }
    }
    unreachable!()
}

/// A round: a ticket is taken, evaluated without the lock, and delivered.
fn round<L: Ledger, G: Gate<R>, R: Wait + Threads + Sync>(
    rt: &R,
    alloc: Global,
    shared: &SharedDesk<L>,
    gate: &G,
    pass: &mut Pass<L>,
    levels: u32,
) -> Option<WorkEnd>
    requires { levels ≤ max_levels }
    ensures { OnlyDelivers pass.old pass.new }
{
    match shared.next_job(rt) {
        Ok(Next::Job(store, job)) => do_job(rt, alloc, shared, gate, pass, levels, &store, job),
        Ok(Next::Idle) => None,
        Ok(Next::Stopped) => Some(WorkEnd::Stopped),
        Err(_) => {
            shared.stop(rt);
            Some(WorkEnd::NoMemory)
        }
    }
}

/// The job in hand is evaluated and delivered, unless the gate keeps it from beginning.
fn do_job<L: Ledger, G: Gate<R>, R: Wait + Threads + Sync>(
    rt: &R,
    alloc: Global,
    shared: &SharedDesk<L>,
    gate: &G,
    pass: &mut Pass<L>,
    levels: u32,
    store: &Frozen,
    job: Job,
) -> Option<WorkEnd>
    requires levels { levels ≤ max_levels }
    requires covered { Covers store.now job.block.uses }
    ensures { OnlyDelivers pass.old pass.new }
{
    let ticket = job.ticket;
    if !gate.before(rt, ticket) {
        shared.hand_back(rt, ticket);
        return None;
    }
    match evaluate_forked(rt, alloc, job, store, levels) {
        Ok(message) => deliver(rt, shared, gate, pass, ticket, message),
        Err(_) => give_up(rt, shared, ticket, WorkEnd::NoMemory),
    }
}

/// The message is delivered.
fn deliver<L: Ledger, G: Gate<R>, R: Wait>(
    rt: &R,
    shared: &SharedDesk<L>,
    gate: &G,
    pass: &mut Pass<L>,
    ticket: u32,
    message: Evaluated,
) -> Option<WorkEnd>
    ensures { OnlyDelivers pass.old pass.new }
{
    match shared.deliver(rt, pass, message) {
        Ok(()) => {
            gate.after(rt, ticket);
            None
        }
        Err(refused) => end_refused(rt, shared, ticket, refused),
    }
}

/// What a message leads to that was refused, with the fault. One that is refused for what happened meanwhile ends the round.
fn end_refused<L: Ledger, R: Wait>(
    rt: &R,
    shared: &SharedDesk<L>,
    ticket: u32,
    refused: (Evaluated, DeliverError),
) -> Option<WorkEnd> {
    match refused {
        (_, DeliverError::HistoryFull) => give_up(rt, shared, ticket, WorkEnd::HistoryFull),
        (_, DeliverError::NoMemory) => give_up(rt, shared, ticket, WorkEnd::NoMemory),
        (_, _) => None,
    }
}

/// The ticket in hand is queued again, and the desk stopped.
fn give_up<L: Ledger, R: Wait>(
    rt: &R,
    shared: &SharedDesk<L>,
    ticket: u32,
    end: WorkEnd,
) -> Option<WorkEnd>
    ensures { result ≡ Some end }
{
    shared.hand_back(rt, ticket);
    shared.stop(rt);
    Some(end)
}
