//! The scheduler as a library: a worker waits for a job, a client brings one, and the worker takes it.
#![tactic(auto)]

use anyhow::{Result, bail, ensure};
use std::alloc::Global;
use stm_check::{SharedBlock, check};
use stm_desk::{Desk, Finish, Status};
use stm_eval::{Evaluated, Job, evaluate};
use stm_parse::parse_block;
use stm_store::{Frozen, Names, Table};
use stm_terms::{Base, Ty, Value, Verdict, is_name, write_value, write_verdict};

/// Takes the job from its slot, and waits while there is none. A job is a number, and 0 means that there is none.
const WORKER: &str =
    "do { j <- readTVar slot; if j == 0 then retry else do { writeTVar slot 0; return j } }";

/// Puts job 20 into the slot, and waits while there is one in it.
const CLIENT: &str = "do { j <- readTVar slot; if j == 0 then writeTVar slot 20 else retry }";

/// The type of a variable that holds numbers.
const INT: Ty = Ty {
    base: Base::Int,
    refs: 0,
};

/// Who makes the calls: a number below 128, which the history keeps.
const ME: u32 = 0;

/// Declares the one variable, `slot`, which holds 0 at first.
fn declare(table: &mut Table) -> Result<()> {
    let name = "slot";
    ensure!(is_name(name), "{name} is no name");
    table.declare(name, INT, Value::Int(0))?;
    Ok(())
}

/// A desk with this variable. Its history may have as many events as any.
fn open(alloc: Global) -> Result<Desk> {
    let mut table = Table::empty(alloc);
    declare(&mut table)?;
    Ok(Desk::open(alloc, &table, Desk::MAX_EVENTS)?)
}

/// Parses a block, and checks it over names of variables.
fn block(alloc: Global, names: &Names, text: &str) -> Result<SharedBlock> {
    let raw = match parse_block(alloc, text) {
        Ok(raw) => raw,
        Err(fault) => bail!("the text is no block: {fault:?}"),
    };
    match check(alloc, names, raw) {
        Ok(typed) => Ok(SharedBlock::new(alloc, typed)?),
        Err(fault) => bail!("the block is not well typed: {fault:?}"),
    }
}

/// Submits a block, which waits from then on. The answer is its ticket.
fn submit(alloc: Global, desk: &mut Desk, text: &str) -> Result<u32> {
    let block = block(alloc, desk.names(), text)?;
    Ok(desk.submit(ME, block)?)
}

/// Prints what happened to a ticket, with its verdict.
fn tell(rt: &HostRuntime, ticket: u32, what: &str, verdict: &Verdict) -> Result<()> {
    let mut text = String::new(rt.alloc());
    write_verdict(verdict, &mut text)?;
    println!(rt; "{ticket} {what}: {text}")?;
    Ok(())
}

/// Evaluates a job on a frozen copy of the store, and delivers the message. A message may come late, and from any
/// evaluator: if a variable that was read has changed, it is refused.
fn work(rt: &HostRuntime, desk: &mut Desk, frozen: &Frozen, job: Job) -> Result<()> {
    let has_all = frozen.covers(job.block.block().uses());
    ensure!(has_all, "the copy lacks a variable of the block");
    match evaluate(rt.alloc(), job, frozen) {
        Ok(message) => deliver(rt, desk, message),
        Err(_) => bail!("out of memory"),
    }
}

fn deliver(rt: &HostRuntime, desk: &mut Desk, message: Evaluated) -> Result<()> {
    tell(rt, message.ticket(), "evaluated", message.verdict())?;
    match desk.deliver(ME, message) {
        Ok(()) => Ok(()),
        Err((_, refusal)) => bail!("the message is refused: {refusal}"),
    }
}

/// Takes all jobs, of the blocks that are new or stale, with a frozen copy of the store.
fn work_all(rt: &HostRuntime, desk: &mut Desk) -> Result<()> {
    let (frozen, jobs) = desk.take(Desk::MAX_WAITING)?;
    for job in jobs {
        work(rt, desk, &frozen, job)?;
    }
    Ok(())
}

/// Has a block take effect. Those that had read what it writes are stale from then on.
fn finish(rt: &HostRuntime, desk: &mut Desk, ticket: u32) -> Result<()> {
    let done = desk.finish(ME, ticket)?;
    tell_finish(rt, desk, ticket, &done)
}

fn tell_finish(rt: &HostRuntime, desk: &Desk, ticket: u32, done: &Finish) -> Result<()> {
    let blocks = Verdict::Blocks;
    tell(rt, ticket, "finished", done.verdict.get(&blocks))?;
    for other in done.stale.as_slice() {
        if let Some(Status::Stale(verdict)) = desk.status(*other) {
            tell(rt, *other, "stale", verdict)?;
        }
    }
    Ok(())
}

/// Prints what each variable holds, and how many events the history has.
fn show(rt: &HostRuntime, desk: &Desk) -> Result<()> {
    let store = desk.store();
    for id in 0..store.len() as u32 {
        let mut value = String::new(rt.alloc());
        write_value(store.value(id), &mut value)?;
        println!(rt; "#{id} = {value}, written {} times", store.count(id))?;
    }
    println!(rt; "{} events", desk.history().len())?;
    Ok(())
}

/// The worker comes first, and blocks. The client changes what the worker had read, so that one is evaluated again.
fn by_hand(rt: &HostRuntime, desk: &mut Desk) -> Result<()> {
    let worker = submit(rt.alloc(), desk, WORKER)?;
    let client = submit(rt.alloc(), desk, CLIENT)?;
    work_all(rt, desk)?;
    finish(rt, desk, client)?;
    work_all(rt, desk)?;
    finish(rt, desk, worker)
}

/// Settling does all of that by itself.
fn by_settling(rt: &HostRuntime, desk: &mut Desk) -> Result<()> {
    submit(rt.alloc(), desk, WORKER)?;
    submit(rt.alloc(), desk, CLIENT)?;
    let done = desk.settle(ME)?;
    println!(rt;
        "settled: {} finished after {} evaluations",
        done.finished, done.evaluations
    )?;
    Ok(())
}

fn main(rt: HostRuntime) -> Result<()> {
    let mut desk = open(rt.alloc())?;
    by_hand(&rt, &mut desk)?;
    by_settling(&rt, &mut desk)?;
    show(&rt, &desk)
}
