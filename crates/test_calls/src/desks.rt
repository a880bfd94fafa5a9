//! Calls of the desk.

ghost use Rattle.std.specs.Prelude.{◌<◌};
ghost use Rattle.stm_terms.specs.Limits.{max_clients};

use crate::blocks::block_of;
use crate::desk_work::{self, Work};
use crate::words::{first_word, number, say, say_whether};
use crate::{declaring, desk_calls, desk_show};
use std::alloc::{AllocError, Global};
use stm_check::SharedBlock;
use stm_desk::Desk;
use stm_store::{Names, Table};

/// How many clients a desk has.
const CLIENTS: u32 = 128;

/// A desk, what it handed out, how far settling came, and who makes the calls.
pub struct Desks {
    desk: Option<Desk>,
    work: Work,
    settled: Counts,
    client: u32,
}

// Written out, and not derived, so that the proof of each owner calls it once.
impl Drop for Desks {
    fn drop(self) {
        let Desks {
            desk: _,
            work: _,
            settled: _,
            client: _,
        } = self;
    }
}

/// The finishes and the deliveries of settling or draining, over calls that ran out of memory.
#[derive(Clone, Copy)]
pub struct Counts {
    pub finished: u32,
    pub evaluations: u32,
}

impl Desks {
    /// No desk.
    pub fn new(alloc: Global) -> Desks {
        Desks {
            desk: None,
            work: Work::new(alloc),
            settled: Counts {
                finished: 0,
                evaluations: 0,
            },
            client: 0,
        }
    }

    /// The desk that is there.
    pub fn desk(&self) -> Option<&Desk> {
        self.desk.as_ref()
    }

    /// Another desk, in place of the one that was there.
    pub fn replace(&mut self, desk: Desk) {
        self.desk = Some(desk);
    }

    /// What was handed out.
    pub fn work_mut(&mut self) -> &mut Work {
        &mut self.work
    }
}

/// Opens a desk on the declared variables.
fn open(
    desks: &mut Desks,
    alloc: Global,
    table: &Table,
    limit: u32,
    out: &mut String,
) -> Result<(), AllocError> {
    if limit > Desk::MAX_EVENTS {
        return say("refused too many events", out);
    }
    desks.desk = Some(Desk::open(alloc, table, limit)?);
    say("done", out)
}

/// Makes a call that takes a block, if there is one.
fn answer_block(
    desk: &mut Desk,
    client: u32,
    call: &str,
    block: Option<SharedBlock>,
    out: &mut String,
) -> Result<(), AllocError>
    requires { client < max_clients }
{
    match block {
        Some(block) => match call {
            "atomically" => desk_calls::atomically(desk, client, block, out),
            _ => desk_calls::submit(desk, client, block, out),
        },
        None => Ok(()),
    }
}

/// Makes a call that takes a block, whose text is checked over the variables of the table in place of the desk's.
fn answer_foreign(
    desk: &mut Desk,
    client: u32,
    table: &Table,
    alloc: Global,
    text: &str,
    out: &mut String,
) -> Result<(), AllocError>
    requires { client < max_clients }
{
    let (call, text) = first_word(text);
    let names = Names::of_table(alloc, table)?;
    let block = block_of(alloc, &names, text, out)?;
    answer_block(desk, client, call, block, out)
}

/// Makes a call that may change the desk.
fn answer_change(
    desk: &mut Desk,
    work: &mut Work,
    settled: &mut Counts,
    client: u32,
    alloc: Global,
    text: &str,
    out: &mut String,
) -> Result<(), AllocError>
    requires { client < max_clients }
{
    let (call, rest) = first_word(text);
    match call {
        "take" => desk_work::take(desk, work, number(rest) as usize, out),
        "evaluate" => desk_work::evaluate_jobs(work, alloc, out),
        "deliver" => desk_work::deliver(desk, work, client, number(rest), out),
        "evaluate_queued" => desk_work::evaluate_queued(desk, client, number(rest), out),
        "finish" => desk_calls::finish(desk, client, number(rest), out),
        "cancel" => desk_calls::cancel(desk, client, number(rest), out),
        "settle" | "drain" => desk_calls::settle_or_drain(desk, settled, client, call, out),
        "checkpoint" => desk_calls::checkpoint(desk, out),
        "hand_back" => say_whether(desk.hand_back(number(rest)), out),
        _ => desk_show::answer(desk, call, number(rest), out),
    }
}

/// Makes a call on the desk that is there.
fn answer_desk(
    desks: &mut Desks,
    table: &Table,
    alloc: Global,
    text: &str,
    out: &mut String,
) -> Result<(), AllocError> {
    let client = desks.client;
    if client >= CLIENTS {
        return say("refused no client", out);
    }
    match &mut desks.desk {
        None => say("refused no desk", out),
        Some(desk) => {
            let (call, rest) = first_word(text);
            match call {
                "submit" | "atomically" => {
                    let block = block_of(alloc, desk.names(), rest, out)?;
                    answer_block(desk, client, call, block, out)
                }
                "foreign" => answer_foreign(desk, client, table, alloc, rest, out),
                "declare" => declaring::answer_desk(desk, client, alloc, rest, out),
                _ => answer_change(
                    desk,
                    &mut desks.work,
                    &mut desks.settled,
                    client,
                    alloc,
                    text,
                    out,
                ),
            }
        }
    }
}

/// Answers a call of the desk.
pub fn answer(
    desks: &mut Desks,
    table: &Table,
    alloc: Global,
    text: &str,
    out: &mut String,
) -> Result<(), AllocError> {
    let (call, rest) = first_word(text);
    match call {
        "open" => open(desks, alloc, table, number(rest), out),
        "client" => {
            desks.client = number(rest);
            say("done", out)
        }
        _ => answer_desk(desks, table, alloc, text, out),
    }
}
