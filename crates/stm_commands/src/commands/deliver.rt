//! `deliver`: what a job's block does is delivered.

ghost use Rattle.std.specs.Prelude.{◌≡◌, ◌+◌, List, map, option_map, IfSome, Some};
ghost use Rattle.std.specs.Option.{option_copied};
ghost use Rattle.stm_events.specs.SlowDesk.{Waiter};
ghost use Rattle.stm_events.specs.States.{IsLegalFrom};
ghost use Rattle.stm_machine.specs.Checkpoints.{MayStart};
ghost use Rattle.stm_desk.specs.DeskView.{start_state, state_of};
ghost use Rattle.stm_commands.specs.Jobs.{job_at, delivered_line, deliver_job_step, deliver_step};
ghost use Rattle.stm_commands.specs.OpenDesk.{on_desk};
ghost use Rattle.stm_commands.specs.OpenInvariant.{job_kept, HasStore, HaveStores, JobStands, HasGrown};
ghost use Rattle.stm_commands.specs.Printing.{Prints, TakesStep};

use crate::delivery::{deliver_job, refused_unevaluated};
use crate::jobs::{KeptJob, job_of_number};
use crate::open_desk::OpenDesk;
use crate::refusals::{refuse, refuse_argument, refuse_delivery};
use std::alloc::Global;
use stm_desk::Desk;
use stm_lines::arguments::number_of;
use stm_terms::NoMemory;
use stm_terms::text::write_number;

#[tactic(auto, unfolding(crate::specs::Jobs::delivered_line))]
fn write_delivered(ticket: u32, out: &mut String) -> Result<(), NoMemory>
    ensures { Prints result out.old out.new (delivered_line ticket) }
{
    out.push_str("delivered ")?;
    write_number(ticket, out)?;
    out.push_str("\n")
}

/// Delivers what the block of a job does on the store of its `take`. The block isn't evaluated if no delivery to its ticket
/// would be accepted.
fn deliver_kept(
    desk: &mut Desk,
    alloc: Global,
    kept: &KeptJob,
    out: &mut String,
) -> Result<(), NoMemory>
    requires start { MayStart desk.old.table desk.old.checkpoint }
    requires legal { IsLegalFrom (start_state desk.old) desk.old.history }
    requires stands { JobStands desk.old (job_kept kept.now) }
    requires stored { HasStore (state_of desk.old).waiters kept.now }
    ensures step { TakesStep result desk.new out.old out.new
        (deliver_job_step desk.old (Some (job_kept kept.now))) }
    ensures grown { HasGrown desk.old desk.new }
    ensures store { (state_of desk.new).store ≡ (state_of desk.old).store }
{
    if let Some(refusal) = refused_unevaluated(desk, kept.ticket) {
        return refuse_delivery(refusal, out);
    }
    match &kept.store {
        Some(store) => {
            let job = kept.job()?;
            match deliver_job(desk, alloc, store, job)? {
                None => write_delivered(kept.ticket, out),
                Some(refusal) => refuse_delivery(refusal, out),
            }
        }
        None => unreachable!(),
    }
}

/// The job of a number, with what a delivery asks of it.
fn kept_job(jobs: &[KeptJob], number: u32) -> Option<&KeptJob>
    // Seen with the stores at their `take`, it is the job of this number.
    ensures kept { option_map job_kept (option_copied result)
        ≡ job_at number (map job_kept jobs.now) }
    // If each of these jobs whose ticket waits has its store, so has this one.
    ensures stored { (ws : List Waiter) → HaveStores ws jobs.now
        → IfSome (option_copied result) (λ k. HasStore ws k) }
{
    job_of_number(jobs, number)
}

impl OpenDesk {
    /// Delivers what the block of a job does on the store of its `take`.
    fn deliver(&mut self, alloc: Global, number: u32, out: &mut String) -> Result<(), NoMemory>
        ensures { TakesStep result self.new out.old out.new
            (on_desk self.old (deliver_job_step self.old.desk (job_at number self.old.jobs))) }
    {
        match kept_job(&self.jobs, number) {
            Some(kept) => deliver_kept(&mut self.desk, alloc, kept, out),
            None => refuse("NoJob", out),
        }
    }

    /// Answers `deliver`: the verdict of a job's block on the store of its `take` is kept, or refused.
    #[tactic(auto, unfolding(crate::specs::Jobs::deliver_step))]
    pub fn answer_deliver(
        &mut self,
        alloc: Global,
        argument: &str,
        out: &mut String,
    ) -> Result<(), NoMemory>
        ensures { TakesStep result self.new out.old out.new (deliver_step self.old argument.now) }
    {
        match number_of(argument.as_bytes()) {
            Some(number) => self.deliver(alloc, number, out),
            None => refuse_argument(out),
        }
    }
}
