//! Jobs that a desk handed out, and the messages made of them.

ghost use Rattle.std.specs.Prelude.{◌<◌, IfOk, OnOk};
ghost use Rattle.stm_store.specs.Cells.{Covers};
ghost use Rattle.stm_terms.specs.Limits.{max_clients};
ghost use Rattle.stm_eval.specs.CoveredJobs.{AreJobsCovered};

use crate::words::say;
use std::alloc::{AllocError, Global};
use std::fmt::Write;
use std::thread::Threads;
use stm_desk::{DeliverError, Desk, Evaluation};
use stm_eval::{Evaluated, Job, evaluate};
use stm_jobs::{Answer, MAX_WORKERS, evaluate_all};
use stm_store::Frozen;

/// The jobs of the last call that took some, the copy of the store beside them, and the messages made of them.
pub struct Work {
    frozen: Option<Frozen>,
    jobs: Vec<Job>,
    messages: Vec<Option<Evaluated>>,
}

// Written out, and not derived, so that the proof of each owner calls it once.
impl Drop for Work {
    fn drop(self) {
        let Work {
            frozen: _,
            jobs: _,
            messages: _,
        } = self;
    }
}

impl Work {
    /// Nothing.
    pub fn new(alloc: Global) -> Work {
        Work {
            frozen: None,
            jobs: Vec::new(alloc),
            messages: Vec::new(alloc),
        }
    }
}

fn say_jobs(jobs: &[Job], out: &mut String) -> Result<(), AllocError> {
    out.push_str("jobs")?;
    if jobs.is_empty() {
        return say(" none", out);
    }
    for job in jobs {
        write!(out, " {}", job.ticket)?;
    }
    out.push_str("\n")
}

/// Takes jobs, and keeps them with the copy of the store.
pub fn take(
    desk: &mut Desk,
    work: &mut Work,
    n: usize,
    out: &mut String,
) -> Result<(), AllocError> {
    let (frozen, jobs) = desk.take(n)?;
    say_jobs(jobs.as_slice(), out)?;
    work.frozen = Some(frozen);
    work.jobs = jobs;
    Ok(())
}

/// The message of a job, which stays.
pub fn message_of(
    job: &Job,
    frozen: &Frozen,
    alloc: Global,
) -> Result<Option<Evaluated>, AllocError> {
    if !frozen.covers(job.block.block().uses()) {
        return Ok(None);
    }
    let block = job.block.share()?;
    message_of_copy(
        Job {
            ticket: job.ticket,
            block,
        },
        frozen,
        alloc,
    )
}

fn message_of_copy(
    job: Job,
    frozen: &Frozen,
    alloc: Global,
) -> Result<Option<Evaluated>, AllocError>
    requires { Covers frozen.now job.block.uses }
{
    match evaluate(alloc, job, frozen) {
        Ok(message) => Ok(Some(message)),
        Err((_, refused)) => Err(refused),
    }
}

fn make_messages(
    messages: &mut Vec<Option<Evaluated>>,
    jobs: &[Job],
    frozen: &Frozen,
    alloc: Global,
) -> Result<(), AllocError> {
    for job in jobs {
        messages.push(message_of(job, frozen, alloc)?)?;
    }
    Ok(())
}

/// Makes a message of each job that was taken, on the copy that came with them.
pub fn evaluate_jobs(work: &mut Work, alloc: Global, out: &mut String) -> Result<(), AllocError> {
    match &work.frozen {
        None => say("refused no jobs", out),
        Some(frozen) => {
            let mut messages = Vec::new(alloc);
            make_messages(&mut messages, work.jobs.as_slice(), frozen, alloc)?;
            work.messages = messages;
            say("done", out)
        }
    }
}

/// A copy of the job at the end of the list, if the store covers it; its block is shared.
fn push_copy(copied: &mut Vec<Job>, job: &Job, frozen: &Frozen) -> Result<(), AllocError>
    requires { AreJobsCovered frozen.now copied.old.items }
    ensures { OnOk result (AreJobsCovered frozen.now copied.new.items) }
{
    if !frozen.covers(job.block.block().uses()) {
        return Ok(());
    }
    let block = job.block.share()?;
    copied.push(Job {
        ticket: job.ticket,
        block,
    })?;
    Ok(())
}

/// Copies of the jobs that the store covers.
pub fn copies(jobs: &[Job], frozen: &Frozen, alloc: Global) -> Result<Vec<Job>, AllocError>
    ensures { IfOk result (λ v. AreJobsCovered frozen.now v.items) }
{
    let mut copied = Vec::new(alloc);
    for job in jobs {
        push_copy(&mut copied, job, frozen)?;
    }
    Ok(copied)
}

fn keep_messages(
    messages: &mut Vec<Option<Evaluated>>,
    answers: Vec<Answer>,
) -> Result<(), AllocError> {
    for answer in answers {
        match answer {
            Ok(message) => messages.push(Some(message))?,
            Err((_, refused)) => return Err(refused),
        }
    }
    Ok(())
}

/// The same by N threads.
pub fn evaluate_by_threads<R: Threads + Sync>(
    work: &mut Work,
    rt: &R,
    alloc: Global,
    workers: usize,
    out: &mut String,
) -> Result<(), AllocError> {
    if workers == 0 || workers > MAX_WORKERS as usize {
        return say("refused no workers", out);
    }
    match &work.frozen {
        None => say("refused no jobs", out),
        Some(frozen) => {
            let jobs = copies(work.jobs.as_slice(), frozen, alloc)?;
            match evaluate_all(rt, alloc, frozen, jobs, workers, 0) {
                Ok(answers) => {
                    let mut messages = Vec::new(alloc);
                    keep_messages(&mut messages, answers)?;
                    work.messages = messages;
                    say("done", out)
                }
                Err((_, refused)) => Err(refused),
            }
        }
    }
}

/// Delivers a message. One that is refused is there again.
fn deliver_one(
    desk: &mut Desk,
    place: &mut Option<Evaluated>,
    client: u32,
) -> Option<Result<(), DeliverError>>
    requires { client < max_clients }
{
    match place.take() {
        None => None,
        Some(message) => match desk.deliver(client, message) {
            Ok(()) => Some(Ok(())),
            Err((message, refusal)) => {
                *place = Some(message);
                Some(Err(refusal))
            }
        },
    }
}

/// Delivers the message of a number, counted from 1.
pub fn deliver(
    desk: &mut Desk,
    work: &mut Work,
    client: u32,
    number: u32,
    out: &mut String,
) -> Result<(), AllocError>
    requires { client < max_clients }
{
    let place = (number as usize).wrapping_sub(1);
    match work.messages.as_mut_slice().get_mut(place) {
        None => say("refused no message", out),
        Some(place) => match deliver_one(desk, place, client) {
            None => say("refused no message", out),
            Some(Ok(())) => say("done", out),
            Some(Err(DeliverError::NoMemory)) => Err(AllocError),
            Some(Err(refusal)) => writeln!(out, "refused {refusal:?}"),
        },
    }
}

/// Evaluates the n lowest queued blocks on the desk itself.
pub fn evaluate_queued(
    desk: &mut Desk,
    client: u32,
    n: u32,
    out: &mut String,
) -> Result<(), AllocError>
    requires { client < max_clients }
{
    let Evaluation { count, stop } = desk.evaluate_queued(client, n)?;
    match stop {
        None => writeln!(out, "evaluated {count}"),
        Some(refusal) => writeln!(out, "evaluated {count} refused {refusal:?}"),
    }
}
