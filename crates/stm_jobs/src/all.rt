//! Many jobs at once.

ghost use Rattle.std.specs.Prelude.{◌≡◌, ℕ, ◌<◌, ◌≤◌, All, vec_len, slice_index_or, IfOk, IfErr};
ghost use Rattle.stm_terms.specs.Limits.{max_levels, max_workers};
ghost use Rattle.stm_eval.specs.CoveredJobs.{AreJobsCovered};
ghost use Rattle.stm_jobs.specs.Answers.{AnswerJobs};
ghost use Rattle.stm_jobs.specs.Slots.{IsWorked, IsReady};

use crate::slot::{Slot, answers_of, slots_of, work_on};
use std::alloc::Global;
use std::thread;
use std::thread::Threads;
use stm_eval::{Evaluated, Job};
use stm_store::Frozen;
use stm_terms::NoMemory;

/// A job's message, or the job back if memory ran out.
pub type Answer = Result<Evaluated, (Job, NoMemory)>;

fn work_all<R: Threads + Sync>(
    rt: &R,
    alloc: Global,
    frozen: &Frozen,
    slots: &mut Vec<Slot>,
    workers: usize,
    levels: u32,
)
    requires some { 0 < workers }
    requires levels { levels ≤ max_levels }
    requires ready { All (λ s. IsReady frozen.now s) slots.old.items }
    ensures len { vec_len slots.new ≡ vec_len slots.old }
    ensures each { (k : ℕ) (d : _) → k < vec_len slots.old → IsWorked frozen.now
        (slice_index_or slots.old.items k d) (slice_index_or slots.new.items k d) }
{
    thread::for_each_mut(
        rt,
        slots.as_mut_slice(),
        workers,
        &|_, slot|
            requires levels { levels ≤ max_levels }
            requires ready { IsReady frozen.now slot.old }
        { work_on(rt, alloc, frozen, slot, levels) },
    );
}

/// Evaluates the jobs by at most `workers` threads on a store that has the variables of their blocks, and returns the answers
/// in the order of the jobs. If memory runs out for the list of the answers, the jobs are handed back.
///
/// No clause says the rest: they are handed back before any of them is evaluated; if a thread can't be started, the caller's
/// thread does its share; both branches of an `orElse` run at once, in threads of their own, `levels` deep.
pub fn evaluate_all<R: Threads + Sync>(
    rt: &R,
    alloc: Global,
    frozen: &Frozen,
    jobs: Vec<Job>,
    workers: usize,
    levels: u32,
) -> Result<Vec<Answer>, (Vec<Job>, NoMemory)>
    requires workers { (0 < workers) × (workers ≤ max_workers) }
    requires levels { levels ≤ max_levels }
    requires covered { AreJobsCovered frozen.now jobs.items }
    ensures len { IfOk result (λ v. vec_len v ≡ vec_len jobs) }
    ensures each { IfOk result (λ v. AnswerJobs jobs.items frozen.now v.items) }
    ensures back { IfErr result (λ e. e.0 ≡ jobs) }
{
    let Ok(room) = Vec::with_capacity(alloc, jobs.len()) else {
        return Err((jobs, NoMemory));
    };
    let mut slots = slots_of(alloc, jobs)?;
    work_all(rt, alloc, frozen, &mut slots, workers, levels);
    Ok(answers_of(slots, room))
}
