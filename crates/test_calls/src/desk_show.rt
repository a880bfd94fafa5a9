//! What a desk shows.

use crate::desk_calls::say_tickets;
use crate::words::{say, say_count, say_number, say_whether};
use std::alloc::AllocError;
use std::fmt::Write;
use stm_desk::{Desk, Status};
use stm_events::{Event, SharedVerdict, Tickets, What};
use stm_store::{Names, Store};
use stm_terms::text::write_writes;
use stm_terms::{Ty, Value, Verdict, write_type, write_value, write_verdict};

fn say_verdict(front: &str, verdict: &Verdict, out: &mut String) -> Result<(), AllocError> {
    out.push_str(front)?;
    write_verdict(verdict, out)?;
    out.push_str("\n")
}

fn say_status(status: Option<Status>, out: &mut String) -> Result<(), AllocError> {
    match status {
        None => say("none", out),
        Some(Status::New) => say("new", out),
        Some(Status::Stale(verdict)) => say_verdict("stale ", verdict, out),
        Some(Status::Current(verdict)) => say_verdict("current ", verdict, out),
    }
}

fn say_reads(desk: &Desk, ticket: u32, out: &mut String) -> Result<(), AllocError> {
    match desk.reads(ticket) {
        None => say("none", out),
        Some(reads) => {
            out.push_str("reads ")?;
            write_writes(reads, out)?;
            out.push_str("\n")
        }
    }
}

fn say_cell(store: &Store, id: u32, out: &mut String) -> Result<(), AllocError> {
    if id as usize >= store.len() {
        return say("refused no variable", out);
    }
    write_type(store.kind(id), out)?;
    out.push_str(" = ")?;
    write_value(store.value(id), out)?;
    writeln!(out, " count {}", store.count(id))
}

/// Prints the variables of a store that have names.
pub fn say_names(names: &Names, store: &Store, out: &mut String) -> Result<(), AllocError> {
    out.push_str("names")?;
    for number in 0..store.len() as u32 {
        match names.name_of(number) {
            Some(name) => write!(out, " #{number}={name}")?,
            None => {}
        }
    }
    say("", out)
}

fn say_block(desk: &Desk, ticket: u32, out: &mut String) -> Result<(), AllocError> {
    match desk.block(ticket) {
        None => say("none", out),
        Some(block) => say(block.block().text(), out),
    }
}

fn say_finished(
    ticket: u32,
    verdict: &SharedVerdict,
    first_new: u32,
    stale: &Tickets,
    out: &mut String,
) -> Result<(), AllocError> {
    write!(out, "finished {ticket} ")?;
    write_verdict(verdict.get(&Verdict::Blocks), out)?;
    write!(out, " first {first_new} stale")?;
    say_tickets(stale.as_slice(), out)
}

fn say_declared(name: &str, kind: Ty, value: Value, out: &mut String) -> Result<(), AllocError> {
    write!(out, "declared {name} : ")?;
    write_type(kind, out)?;
    out.push_str(" = ")?;
    write_value(value, out)?;
    out.push_str("\n")
}

fn say_event(event: &Event, out: &mut String) -> Result<(), AllocError> {
    write!(out, "client {} ", event.client)?;
    match &event.what {
        What::Submitted { ticket, block } => {
            writeln!(out, "submitted {ticket} {}", block.block().text())
        }
        What::Installed { ticket, verdict } => {
            write!(out, "installed {ticket} ")?;
            say_verdict("", verdict.get(&Verdict::Blocks), out)
        }
        What::Cancelled { ticket } => writeln!(out, "cancelled {ticket}"),
        What::Finished {
            ticket,
            verdict,
            first_new,
            stale,
        } => say_finished(*ticket, verdict, *first_new, stale, out),
        What::Declared { name, kind, value } => say_declared(name.as_str(), *kind, *value, out),
        What::Labelled { ticket, label } => writeln!(out, "labelled {ticket} {}", label.as_str()),
    }
}

/// A copy of the event of a number, counted from 1.
fn answer_event(desk: &Desk, number: u32, out: &mut String) -> Result<(), AllocError> {
    match desk.history().get((number as usize).wrapping_sub(1)) {
        Some(event) => {
            let copy = event.copy()?;
            say_event(&copy, out)
        }
        None => say("none", out),
    }
}

/// Answers a call that shows something.
pub fn answer(desk: &Desk, call: &str, n: u32, out: &mut String) -> Result<(), AllocError> {
    match call {
        "status" => say_status(desk.status(n), out),
        "reads" => say_reads(desk, n, out),
        "block" => say_block(desk, n, out),
        "show" => say_cell(desk.store(), n, out),
        "names" => say_names(desk.names(), desk.store(), out),
        "cells" => say_count(desk.store().len(), out),
        "waiting" => say_count(desk.waiting(), out),
        "next" => say_number(desk.next_waiting(n), out),
        "queued" => say_whether(desk.has_queued(), out),
        "full" => say_whether(desk.is_full(), out),
        "events" => say_count(desk.history().len(), out),
        "event" => answer_event(desk, n, out),
        _ => say("no such call", out),
    }
}
