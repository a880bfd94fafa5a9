//! Jobs that were handed out, each with the store at its `take`.

ghost use Rattle.std.specs.Prelude.{◌≡◌, IfOk};
ghost use Rattle.std.specs.Option.{option_copied};
ghost use Rattle.stm_commands.specs.Jobs.{job_at};
ghost use Rattle.stm_commands.specs.OpenInvariant.{handed_out, job_kept, job_within, IsStored, AreStored, KeepsJobs};

use std::alloc::Global;
use std::snapshot::Snapshot;
use stm_check::SharedBlock;
use stm_eval::Job;
use stm_store::Frozen;
use stm_terms::NoMemory;

/// A block that was handed out under its ticket. It has its store as long as its ticket waits; what that store was at the
/// `take` contracts know for ever, and that takes no memory.
#[derive(Drop)]
pub struct KeptJob {
    pub ticket: u32,
    pub block: SharedBlock,
    pub store: Option<Frozen>,
    pub at_take: Snapshot<Frozen>,
}

impl KeptJob {
    /// A copy of the job.
    pub fn job(&self) -> Result<Job, NoMemory>
        ensures { IfOk result (λ j. j ≡ job_within self.now) }
    {
        Ok(Job {
            ticket: self.ticket,
            block: self.block.share()?,
        })
    }
}

/// A job with the store at its `take`.
fn keep_job(store: &Frozen, job: Job) -> Result<KeptJob, NoMemory>
    ensures kept { IfOk result (λ k. job_kept k ≡ handed_out store.now job) }
    ensures stored { IfOk result (λ k. IsStored k) }
{
    let Job { ticket, block } = job;
    let at_take = Snapshot::of(store);
    Ok(KeptJob {
        ticket,
        block,
        store: Some(store.share()?),
        at_take,
    })
}

/// The jobs, each kept with this store as that of its `take`.
pub fn with_store(alloc: Global, store: &Frozen, jobs: Vec<Job>) -> Result<Vec<KeptJob>, NoMemory>
    ensures kept { IfOk result (λ made. KeepsJobs store.now jobs.items made.items) }
    ensures stored { IfOk result (λ made. AreStored made.items) }
{
    let mut made = Vec::new(alloc);
    for job in jobs {
        let kept = keep_job(store, job)?;
        made.push(kept)?;
    }
    Ok(made)
}

/// The job of a number, which counts from 1.
pub fn job_of_number(jobs: &[KeptJob], number: u32) -> Option<&KeptJob>
    ensures { option_copied result ≡ job_at number jobs.now }
{
    if number == 0 {
        return None;
    }
    jobs.get(number as usize - 1)
}
