//! The calls of a shared desk, each on its own.

use crate::blocks::block_of;
use crate::declaring;
use crate::desk_calls::say_finish;
use crate::words::{first_word, number, say, say_number, say_whether};
use std::alloc::{AllocError, Global};
use std::fmt::Write;
use std::sync::Wait;
use std::sync::atomic::{AtomicU32, Ordering};
use std::sync::ledger::Ledger;
use std::thread::Threads;
use stm_desk::{CancelError, DeliverError, FinishError, SubmitError};
use stm_eval::{Evaluated, Job, evaluate};
use stm_pool::{self, Gate, Next, Pass, SharedDesk, View, ViewError, WorkEnd};
use stm_store::{Names, Table};
use stm_terms::write_value;

fn submit<L: Ledger, R: Wait>(
    shared: &SharedDesk<L>,
    pass: &mut Pass<L>,
    table: &Table,
    rt: &R,
    alloc: Global,
    text: &str,
    out: &mut String,
) -> Result<(), AllocError> {
    let names = Names::of_table(alloc, table)?;
    let Some(block) = block_of(alloc, &names, text, out)? else {
        return Ok(());
    };
    match shared.submit(rt, pass, block) {
        Ok(ticket) => writeln!(out, "ticket {ticket}"),
        Err(SubmitError::NoMemory) => Err(AllocError),
        Err(refusal) => writeln!(out, "refused {refusal:?}"),
    }
}

fn finish<L: Ledger, R: Wait>(
    shared: &SharedDesk<L>,
    pass: &mut Pass<L>,
    rt: &R,
    ticket: u32,
    out: &mut String,
) -> Result<(), AllocError> {
    match shared.finish(rt, pass, ticket) {
        Ok(done) => say_finish(&done, out),
        Err(FinishError::NoMemory) => Err(AllocError),
        Err(refusal) => writeln!(out, "refused {refusal:?}"),
    }
}

fn cancel<L: Ledger, R: Wait>(
    shared: &SharedDesk<L>,
    pass: &mut Pass<L>,
    rt: &R,
    ticket: u32,
    out: &mut String,
) -> Result<(), AllocError> {
    match shared.cancel(rt, pass, ticket) {
        Ok(()) => say("done", out),
        Err(CancelError::NoMemory) => Err(AllocError),
        Err(refusal) => writeln!(out, "refused {refusal:?}"),
    }
}

/// Prints the number of events and the values of all variables.
fn say_view(view: &View, out: &mut String) -> Result<(), AllocError> {
    write!(out, "events {} store", view.events)?;
    for id in 0..view.store.len() as u32 {
        out.push_str(" ")?;
        write_value(view.store.value(id), out)?;
    }
    out.push_str("\n")
}

fn view<L: Ledger, R: Wait>(
    shared: &SharedDesk<L>,
    pass: &mut Pass<L>,
    rt: &R,
    out: &mut String,
) -> Result<(), AllocError> {
    match shared.view(rt, pass) {
        Ok(view) => say_view(&view, out),
        Err(ViewError::NoMemory) => Err(AllocError),
        Err(refusal) => writeln!(out, "refused {refusal:?}"),
    }
}

/// Keeps a message, if its block was evaluated; otherwise its ticket is queued again.
fn keep_message<L: Ledger, R: Wait>(
    shared: &SharedDesk<L>,
    made: Result<Evaluated, (Job, AllocError)>,
    messages: &mut Vec<Option<Evaluated>>,
    rt: &R,
    out: &mut String,
) -> Result<(), AllocError> {
    match made {
        Ok(message) => {
            writeln!(out, "job {}", message.ticket())?;
            messages.push(Some(message))?;
            Ok(())
        }
        Err((job, refused)) => {
            shared.hand_back(rt, job.ticket);
            Err(refused)
        }
    }
}

/// Takes a ticket, and keeps the message of its block. Room for the message is asked for first.
fn job<L: Ledger, R: Wait>(
    shared: &SharedDesk<L>,
    messages: &mut Vec<Option<Evaluated>>,
    rt: &R,
    alloc: Global,
    out: &mut String,
) -> Result<(), AllocError> {
    messages.reserve(1)?;
    match shared.next_job(rt)? {
        Next::Stopped => say("stopped", out),
        Next::Idle => say("idle", out),
        Next::Job(store, job) => {
            keep_message(shared, evaluate(alloc, job, &store), messages, rt, out)
        }
    }
}

/// Delivers a message; one that is refused is there again.
fn deliver<L: Ledger, R: Wait>(
    shared: &SharedDesk<L>,
    pass: &mut Pass<L>,
    place: &mut Option<Evaluated>,
    rt: &R,
    out: &mut String,
) -> Result<(), AllocError> {
    let Some(message) = place.take() else {
        return say("refused no message", out);
    };
    match shared.deliver(rt, pass, message) {
        Ok(()) => say("done", out),
        Err((message, refusal)) => {
            *place = Some(message);
            match refusal {
                DeliverError::NoMemory => Err(AllocError),
                _ => writeln!(out, "refused {refusal:?}"),
            }
        }
    }
}

/// Makes a call with a pass.
fn answer_pass<L: Ledger, R: Wait>(
    shared: &SharedDesk<L>,
    pass: &mut Pass<L>,
    messages: &mut Vec<Option<Evaluated>>,
    table: &Table,
    rt: &R,
    alloc: Global,
    call: &str,
    rest: &str,
    out: &mut String,
) -> Result<(), AllocError> {
    match call {
        "submit" => submit(shared, pass, table, rt, alloc, rest, out),
        "declare_late" => { declaring::answer_shared(shared, pass, table, rt, alloc, rest, out) }
        "finish" => finish(shared, pass, rt, number(rest), out),
        "cancel" => cancel(shared, pass, rt, number(rest), out),
        "view" => view(shared, pass, rt, out),
        "deliver" => {
            let place = (number(rest) as usize).wrapping_sub(1);
            match messages.as_mut_slice().get_mut(place) {
                Some(place) => deliver(shared, pass, place, rt, out),
                None => say("refused no message", out),
            }
        }
        _ => say("no such call", out),
    }
}

/// Makes a call of the shared desk.
pub fn answer_shared<L: Ledger, R: Wait>(
    shared: &SharedDesk<L>,
    passes: &mut Vec<Pass<L>>,
    messages: &mut Vec<Option<Evaluated>>,
    table: &Table,
    rt: &R,
    alloc: Global,
    text: &str,
    out: &mut String,
) -> Result<(), AllocError> {
    let (call, rest) = first_word(text);
    match call {
        "stop" => {
            shared.stop(rt);
            say("done", out)
        }
        "wait_past" => say_number(shared.wait_past(rt, number(rest)), out),
        "hand_back" => say_whether(shared.hand_back(rt, number(rest)), out),
        "job" => job(shared, messages, rt, alloc, out),
        _ => {
            let (client, rest) = first_word(rest);
            match passes.as_mut_slice().get_mut(number(client) as usize) {
                Some(pass) => {
                    answer_pass(shared, pass, messages, table, rt, alloc, call, rest, out)
                }
                None => say("refused no pass", out),
            }
        }
    }
}

/// A gate that says no N times, and stops the desk after M deliveries.
#[derive(Drop)]
struct Counting<'a, L: Ledger> {
    shared: &'a SharedDesk<L>,
    refusals: AtomicU32,
    left: AtomicU32,
    asked: AtomicU32,
}

impl<'a, L: Ledger, R: Wait> Gate<R> for Counting<'a, L> {
    fn before(&self, _rt: &R, _ticket: u32) -> bool {
        self.asked.fetch_add(1, Ordering::SeqCst);
        if self.refusals.load(Ordering::SeqCst) == 0 {
            return true;
        }
        self.refusals.fetch_sub(1, Ordering::SeqCst);
        false
    }

    fn after(&self, rt: &R, _ticket: u32) {
        if self.left.fetch_sub(1, Ordering::SeqCst) <= 1 {
            self.shared.stop(rt);
        }
    }
}

/// Runs a worker with the last pass until N deliveries are made. Its gate first refuses M times.
pub fn work<L: Ledger, R: Wait + Threads + Sync>(
    shared: &SharedDesk<L>,
    passes: &mut Vec<Pass<L>>,
    rt: &R,
    alloc: Global,
    text: &str,
    out: &mut String,
) -> Result<(), AllocError> {
    let (deliveries, refusals) = first_word(text);
    let Some(pass) = passes.pop() else {
        return say("refused no pass", out);
    };
    let gate = Counting {
        shared,
        refusals: AtomicU32::new(number(refusals)),
        left: AtomicU32::new(number(deliveries)),
        asked: AtomicU32::new(0),
    };
    let (pass, end) = stm_pool::work(rt, alloc, shared, &gate, pass, 0);
    passes.push(pass)?;
    match end {
        WorkEnd::NoMemory => Err(AllocError),
        _ => writeln!(out, "{end:?} asked {}", gate.asked.load(Ordering::SeqCst)),
    }
}
