//! `take`: the lowest queued tickets are handed out.

ghost use Rattle.std.specs.Prelude.{◌≡◌, ◌≤◌, ◌+◌, map, length, OnOk, IfOk};
ghost use Rattle.stm_terms.specs.Texts.{spaced, list_text};
ghost use Rattle.stm_machine.specs.JobsHandedOut.{sent};
ghost use Rattle.stm_desk.specs.DeskView.{state_of};
ghost use Rattle.stm_commands.specs.Jobs.{taken, jobs_of, job_text, numbered, jobs_line, take_jobs_step, take_step};
ghost use Rattle.stm_commands.specs.OpenInvariant.{job_kept, AreStored, JobsStand};
ghost use Rattle.stm_commands.specs.Printing.{Prints, TakesStep};

use crate::jobs::{KeptJob, with_store};
use crate::open_desk::OpenDesk;
use crate::refusals::{refuse, refuse_argument};
use std::alloc::Global;
use stm_desk::Desk;
use stm_eval::Job;
use stm_lines::arguments::number_of;
use stm_terms::NoMemory;

/// The most jobs that a run hands out.
const MAX_JOBS: usize = 65_536;

/// Appends a job's number and ticket.
fn write_job(number: u32, ticket: u32, out: &mut String) -> Result<(), NoMemory>
    ensures { Prints result out.old out.new (job_text (number, ticket)) }
{
    write!(out, "{number}={ticket}")
}

/// Appends jobs, each after a space.
fn write_spaced_jobs(first: u32, jobs: &[Job], out: &mut String) -> Result<(), NoMemory>
    requires { first + length jobs.now ≤ u32.MAX }
    ensures { Prints result out.old out.new
        (spaced job_text (numbered first (map (λ j. j.ticket) jobs.now))) }
{
    let mut number = first;
    for job in jobs {
        out.push_str(" ")?;
        write_job(number, job.ticket, out)?;
        number += 1;
    }
    Ok(())
}

/// Appends jobs by their numbers, which begin with this one, and tickets.
fn write_jobs(first: u32, jobs: &[Job], out: &mut String) -> Result<(), NoMemory>
    requires { first + length jobs.now ≤ u32.MAX }
    ensures { Prints result out.old out.new
        (list_text job_text (numbered first (map (λ j. j.ticket) jobs.now))) }
{
    match jobs {
        [] => out.push_str("none"),
        [job, rest @ ..] => {
            write_job(first, job.ticket, out)?;
            write_spaced_jobs(first + 1, rest, out)
        }
    }
}

#[tactic(auto, unfolding(crate::specs::Jobs::jobs_line))]
fn write_jobs_line(first: u32, jobs: &[Job], out: &mut String) -> Result<(), NoMemory>
    requires { first + length jobs.now ≤ u32.MAX }
    ensures { Prints result out.old out.new (jobs_line first (map (λ j. j.ticket) jobs.now)) }
{
    out.push_str("jobs ")?;
    write_jobs(first, jobs, out)?;
    out.push_str("\n")
}

/// Hands out the n lowest queued tickets, or all, whose jobs' numbers begin with this one.
fn hand_out(
    desk: &mut Desk,
    alloc: Global,
    first: u32,
    n: u32,
    out: &mut String,
) -> Result<Vec<KeptJob>, NoMemory>
    requires { first + n ≤ u32.MAX }
    ensures text { Prints result out.old out.new (jobs_line first (taken desk.old n)) }
    ensures made { IfOk result (λ made.
        map job_kept made.items ≡ jobs_of (state_of desk.old) (taken desk.old n)) }
    ensures stand { IfOk result (λ made. JobsStand desk.old (map job_kept made.items)) }
    ensures stored { IfOk result (λ made. AreStored made.items) }
    ensures out { OnOk result (desk.new
        ≡ record desk.old { pending = sent (length (taken desk.old n)) desk.old.pending }) }
    ensures same { desk.new ≡ record desk.old { pending = desk.new.pending } }
{
    // The history is known to be legal by this.
    let _events = desk.history();
    let (store, jobs) = desk.take(n as usize)?;
    write_jobs_line(first, &jobs, out)?;
    let made = with_store(alloc, &store, jobs)?;
    Ok(made)
}

impl OpenDesk {
    /// Hands out the n lowest queued tickets, or all.
    fn take(&mut self, alloc: Global, n: u32, out: &mut String) -> Result<(), NoMemory>
        ensures { TakesStep result self.new out.old out.new (take_jobs_step self.old n) }
    {
        if n as usize + self.jobs.len() > MAX_JOBS {
            return refuse("JobsFull", out);
        }
        let first = self.jobs.len() as u32 + 1;
        let made = hand_out(&mut self.desk, alloc, first, n, out)?;
        self.stores.append(&self.desk, &mut self.jobs, made)
    }

    /// Answers `take`: the jobs of the lowest queued tickets.
    #[tactic(auto, unfolding(crate::specs::Jobs::take_step))]
    pub fn answer_take(
        &mut self,
        alloc: Global,
        argument: &str,
        out: &mut String,
    ) -> Result<(), NoMemory>
        ensures { TakesStep result self.new out.old out.new (take_step self.old argument.now) }
    {
        match number_of(argument.as_bytes()) {
            Some(n) => self.take(alloc, n, out),
            None => refuse_argument(out),
        }
    }
}
