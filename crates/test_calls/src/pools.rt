//! A shared desk in one thread: a line opens it on the declared variables, and makes calls of it
//! one after another.

ghost use Rattle.std.specs.Prelude.{◌≡◌, ◌≤◌};
ghost use Rattle.stm_terms.specs.Limits.{max_clients, max_events};

use crate::histories::say_replay;
use crate::pool_calls::{answer_shared, work};
use crate::tables;
use crate::words::{first_word, number, say};
use std::alloc::{AllocError, Global};
use std::fmt::Write;
use std::marker::Brand;
use std::mem;
use std::sync::Wait;
use std::sync::ledger::{Blank, Ledger};
use std::thread::Threads;
use stm_desk::Desk;
use stm_eval::Evaluated;
use stm_pool::{Pass, Report, SharedDesk};
use stm_store::Table;

/// How many passes a shared desk may have.
const PASSES: u32 = 128;

/// The shared desk, until it is closed, its passes, the messages that were made, and the variables
/// that blocks may name.
struct Session<L: Ledger> {
    shared: Option<SharedDesk<L>>,
    passes: Vec<Pass<L>>,
    messages: Vec<Option<Evaluated>>,
    table: Table,
}

// Written out, and not derived, so that the proof of each owner calls it once.
impl<L: Ledger> Drop for Session<L> {
    fn drop(self) {
        let Session {
            shared: _,
            passes: _,
            messages: _,
            table: _,
        } = self;
    }
}

/// The calls of a line, which are separated by ` / `, and whether one that runs out of memory is not
/// made again.
#[derive(Clone, Copy)]
struct Calls<'a> {
    text: &'a str,
    are_once: bool,
}

/// Prints what a desk was when it was closed. Its history is judged again if that ran out of
/// memory, since the desk is open no more.
fn say_report(report: &Report, alloc: Global, out: &mut String) -> Result<(), AllocError> {
    let queued = if report.desk.has_queued() {
        "yes"
    } else {
        "no"
    };
    writeln!(out, "events {} queued {queued}", report.events)?;
    match say_replay(&report.desk, alloc, out) {
        Ok(()) => Ok(()),
        Err(_) => say_replay(&report.desk, alloc, out),
    }
}

/// Moves the last few passes from one list to the end of another.
fn move_last<L: Ledger>(
    from: &mut Vec<Pass<L>>,
    to: &mut Vec<Pass<L>>,
    count: u32,
) -> Result<(), AllocError> {
    for _ in 0..count {
        match from.pop() {
            Some(pass) => to.push(pass)?,
            None => {}
        }
    }
    Ok(())
}

/// The session has a desk that was not closed, and its passes.
fn reopen<L: Ledger>(session: &mut Session<L>, shared: SharedDesk<L>, passes: Vec<Pass<L>>) {
    session.shared = Some(shared);
    session.passes = passes;
}

/// Closes the desk with the passes of the session, which has both again after a refusal.
fn close_desk<L: Ledger>(
    session: &mut Session<L>,
    shared: SharedDesk<L>,
    alloc: Global,
    out: &mut String,
) -> Result<(), AllocError> {
    let passes = mem::replace(&mut session.passes, Vec::new(alloc));
    match shared.close(passes) {
        Ok(report) => say_report(&report, alloc, out),
        Err((shared, passes, refusal)) => {
            reopen(session, shared, passes);
            writeln!(out, "refused {refusal:?}")
        }
    }
}

/// Closes the desk with the passes but for the last few, which are there again after a refusal.
fn close<L: Ledger>(
    session: &mut Session<L>,
    alloc: Global,
    without: u32,
    out: &mut String,
) -> Result<(), AllocError> {
    let mut kept = Vec::with_capacity(alloc, session.passes.len())?;
    move_last(&mut session.passes, &mut kept, without)?;
    let answered = match session.shared.take() {
        Some(shared) => close_desk(session, shared, alloc, out),
        None => say("refused no desk", out),
    };
    move_last(&mut kept, &mut session.passes, without)?;
    answered
}

/// Makes one call of a line.
fn answer_call<L: Ledger, R: Wait + Threads + Sync>(
    session: &mut Session<L>,
    rt: &R,
    alloc: Global,
    text: &str,
    out: &mut String,
) -> Result<(), AllocError> {
    let (call, rest) = first_word(text);
    match (call, &session.shared) {
        ("declare", _) => tables::answer_declare(&mut session.table, alloc, rest, out),
        ("close", _) => close(session, alloc, number(rest), out),
        (_, None) => say("refused no desk", out),
        ("work", Some(shared)) => work(shared, &mut session.passes, rt, alloc, rest, out),
        (_, Some(shared)) => answer_shared(
            shared,
            &mut session.passes,
            &mut session.messages,
            &session.table,
            rt,
            alloc,
            text,
            out,
        ),
    }
}

/// Makes a call of a line. One that runs out of memory is made again, or answered as `no memory` with
/// its number, from 0. A worker that runs out of memory has stopped the desk, so the whole line is
/// made again unless calls are made once.
fn answer_numbered<L: Ledger, R: Wait + Threads + Sync>(
    session: &mut Session<L>,
    rt: &R,
    alloc: Global,
    call: Calls<'_>,
    number: usize,
    out: &mut String,
) -> Result<(), AllocError> {
    match answer_call(session, rt, alloc, call.text, out) {
        Ok(()) => Ok(()),
        Err(_) if call.are_once => writeln!(out, "no memory call {number}"),
        Err(refused) if call.text.starts_with("work") => Err(refused),
        Err(_) => answer_call(session, rt, alloc, call.text, out),
    }
}

/// Makes the calls of a line.
fn answer_calls<L: Ledger, R: Wait + Threads + Sync>(
    session: &mut Session<L>,
    rt: &R,
    alloc: Global,
    calls: Calls<'_>,
    out: &mut String,
) -> Result<(), AllocError> {
    let Calls { mut text, are_once } = calls;
    for number in 0..text.len() {
        let (call, more) = text.split_once(" / ").unwrap_or((text, ""));
        let call = Calls {
            text: call,
            are_once,
        };
        answer_numbered(session, rt, alloc, call, number, out)?;
        if more.is_empty() {
            return Ok(());
        }
        text = more;
    }
    Ok(())
}

fn answer_with<L: Ledger, R: Wait + Threads + Sync>(
    rt: &R,
    alloc: Global,
    blank: Blank,
    table: &Table,
    passes: u32,
    limit: u32,
    calls: Calls<'_>,
    out: &mut String,
) -> Result<(), AllocError>
    requires name { blank.name ≡ L.name }
    requires parts { (blank.parts ≡ L.parts) × (blank.parts ≡ passes) }
    requires passes { passes ≤ max_clients }
    requires limit { limit ≤ max_events }
{
    let copy = table.copy(alloc)?;
    let (shared, passes) = SharedDesk::<L>::open(alloc, blank, table, passes, limit)?;
    let mut session = Session {
        shared: Some(shared),
        passes,
        messages: Vec::new(alloc),
        table: copy,
    };
    answer_calls(&mut session, rt, alloc, calls, out)
}

/// Opens the desk under a ledger of its own.
fn answer_open<R: Wait + Threads + Sync>(
    rt: &R,
    alloc: Global,
    table: &Table,
    passes: u32,
    limit: u32,
    calls: Calls<'_>,
    out: &mut String,
) -> Result<(), AllocError>
    requires passes { passes ≤ max_clients }
    requires limit { limit ≤ max_events }
{
    let blank = Blank::new(u64::from(passes));
    answer_with::<Brand, R>(rt, alloc, blank, table, passes, limit, calls, out)
}

/// Answers a line of calls of a shared desk, after the numbers of its passes and of the events
/// that it takes.
pub fn answer<R: Wait + Threads + Sync>(
    rt: &R,
    table: &Table,
    alloc: Global,
    are_once: bool,
    text: &str,
    out: &mut String,
) -> Result<(), AllocError> {
    let (passes, rest) = first_word(text);
    let (limit, text) = first_word(rest);
    let passes = number(passes);
    let limit = number(limit);
    if passes > PASSES || limit > Desk::MAX_EVENTS {
        return say("refused too many", out);
    }
    let calls = Calls { text, are_once };
    answer_open(rt, alloc, table, passes, limit, calls, out)
}
