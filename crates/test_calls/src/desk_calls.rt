//! The calls that change a desk, each on its own.

ghost use Rattle.std.specs.Prelude.{◌<◌};
ghost use Rattle.stm_terms.specs.Limits.{max_clients};

use crate::desks::Counts;
use crate::words::say;
use std::alloc::AllocError;
use std::fmt::Write;
use stm_check::SharedBlock;
use stm_desk::{
    AtomicError, CancelError, CheckpointError, Desk, Finish, FinishError, SettleStop, SettleWhy,
    Settled, SubmitError,
};
use stm_terms::verdicts::Verdict;
use stm_terms::{write_value, write_verdict};

/// Submits a block, and answers with its ticket.
pub fn submit(
    desk: &mut Desk,
    client: u32,
    block: SharedBlock,
    out: &mut String,
) -> Result<(), AllocError>
    requires { client < max_clients }
{
    match desk.submit(client, block) {
        Ok(ticket) => writeln!(out, "ticket {ticket}"),
        Err(SubmitError::NoMemory) => Err(AllocError),
        Err(refusal) => writeln!(out, "refused {refusal:?}"),
    }
}

/// Prints tickets, or that there are none.
pub fn say_tickets(tickets: &[u32], out: &mut String) -> Result<(), AllocError> {
    if tickets.is_empty() {
        return say(" none", out);
    }
    for ticket in tickets {
        write!(out, " {ticket}")?;
    }
    out.push_str("\n")
}

/// Prints what a finish did.
pub fn say_finish(finish: &Finish, out: &mut String) -> Result<(), AllocError> {
    let blocks = Verdict::Blocks;
    write_verdict(finish.verdict.get(&blocks), out)?;
    write!(out, " first {} result ", finish.applied.first_new)?;
    match finish.applied.result {
        Some(value) => write_value(value, out)?,
        None => out.push_str("none")?,
    }
    out.push_str(" stale")?;
    say_tickets(finish.stale.as_slice(), out)
}

/// Finishes the block of a ticket.
pub fn finish(desk: &mut Desk, client: u32, ticket: u32, out: &mut String) -> Result<(), AllocError>
    requires { client < max_clients }
{
    match desk.finish(client, ticket) {
        Ok(done) => say_finish(&done, out),
        Err(FinishError::NoMemory) => Err(AllocError),
        Err(refusal) => writeln!(out, "refused {refusal:?}"),
    }
}

/// Runs a block atomically, and answers with its ticket, and with what its finish did or that it waits.
pub fn atomically(
    desk: &mut Desk,
    client: u32,
    block: SharedBlock,
    out: &mut String,
) -> Result<(), AllocError>
    requires { client < max_clients }
{
    match desk.atomically(client, block) {
        Ok(ran) => {
            write!(out, "ticket {} ", ran.ticket)?;
            match &ran.finish {
                Some(done) => say_finish(done, out),
                None => say("waits", out),
            }
        }
        Err(AtomicError::NoMemory) => Err(AllocError),
        Err(refusal) => writeln!(out, "refused {refusal:?}"),
    }
}

/// Cancels the block of a ticket.
pub fn cancel(desk: &mut Desk, client: u32, ticket: u32, out: &mut String) -> Result<(), AllocError>
    requires { client < max_clients }
{
    match desk.cancel(client, ticket) {
        Ok(()) => say("done", out),
        Err(CancelError::NoMemory) => Err(AllocError),
        Err(refusal) => writeln!(out, "refused {refusal:?}"),
    }
}

/// Prints all that settling or draining did, with the calls that ran out of memory.
fn say_settled(
    settled: &mut Counts,
    done: Settled,
    word: &str,
    out: &mut String,
) -> Result<(), AllocError> {
    let finished = settled.finished.saturating_add(done.finished);
    let evaluations = settled.evaluations.saturating_add(done.evaluations);
    *settled = Counts {
        finished: 0,
        evaluations: 0,
    };
    writeln!(out, "{word} {finished} evaluations {evaluations}")
}

fn say_stop(
    settled: &mut Counts,
    stop: SettleStop,
    word: &str,
    out: &mut String,
) -> Result<(), AllocError> {
    let done = Settled {
        finished: stop.finished,
        evaluations: stop.evaluations,
    };
    match stop.why {
        SettleWhy::HistoryFull => {
            out.push_str("stopped HistoryFull ")?;
            say_settled(settled, done, word, out)
        }
        SettleWhy::CellsFull => {
            out.push_str("stopped CellsFull ")?;
            say_settled(settled, done, word, out)
        }
        SettleWhy::NoMemory => {
            settled.finished = settled.finished.saturating_add(done.finished);
            settled.evaluations = settled.evaluations.saturating_add(done.evaluations);
            Err(AllocError)
        }
    }
}

/// Settles the desk, or drains it.
pub fn settle_or_drain(
    desk: &mut Desk,
    settled: &mut Counts,
    client: u32,
    call: &str,
    out: &mut String,
) -> Result<(), AllocError>
    requires { client < max_clients }
{
    let is_drain = call == "drain";
    let word = if is_drain { "drained" } else { "settled" };
    let answer = if is_drain {
        desk.drain(client)
    } else {
        desk.settle(client)
    };
    match answer {
        Ok(done) => say_settled(settled, done, word, out),
        Err(stop) => say_stop(settled, stop, word, out),
    }
}

/// Makes a checkpoint, and answers with how many events the history had.
pub fn checkpoint(desk: &mut Desk, out: &mut String) -> Result<(), AllocError> {
    match desk.checkpoint() {
        Ok(events) => writeln!(out, "checkpoint {events}"),
        Err(CheckpointError::NoMemory) => Err(AllocError),
        Err(refusal) => writeln!(out, "refused {refusal:?}"),
    }
}
