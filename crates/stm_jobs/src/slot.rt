//! The place in which a job is evaluated.

ghost use Rattle.std.specs.Prelude.{◌≡◌, ℕ, ◌<◌, ◌≤◌, [], map, vec_len, vec_capacity, slice_index_or, IfOk, IfErr};
ghost use Rattle.stm_terms.specs.Limits.{max_levels};
ghost use Rattle.stm_jobs.specs.Slots.{IsWorked, IsDone, IsReady, todo, slot_of};

use crate::all::Answer;
use std::alloc::Global;
use std::thread::Threads;
use stm_eval::{Evaluated, Job, evaluate_forked};
use stm_store::Frozen;
use stm_terms::NoMemory;

/// A job, and then its message. For a job that is left memory ran out.
///
/// It is a struct of two options and no enum of jobs and answers: that a type may go to another
/// thread is found by a search, which ends before it has gone through three blocks.
#[derive(Drop)]
pub struct Slot {
    pub job: Option<Job>,
    pub message: Option<Evaluated>,
}

/// Evaluates the slot's job, with the branches of its outer `levels` of `orElse` at once.
pub(crate) fn work_on<R: Threads + Sync>(
    rt: &R,
    alloc: Global,
    frozen: &Frozen,
    slot: &mut Slot,
    levels: u32,
)
    requires levels { levels ≤ max_levels }
    requires ready { IsReady frozen.now slot.old }
    ensures { IsWorked frozen.now slot.old slot.new }
{
    match slot.job.take() {
        Some(job) => match evaluate_forked(rt, alloc, job, frozen, levels) {
            Ok(message) => slot.message = Some(message),
            Err((job, _)) => slot.job = Some(job),
        },
        None => {}
    }
}

/// A slot for each job.
pub(crate) fn slots_of(alloc: Global, jobs: Vec<Job>) -> Result<Vec<Slot>, (Vec<Job>, NoMemory)>
    ensures done { IfOk result (λ v. v.items ≡ map todo jobs.items) }
    ensures back { IfErr result (λ e. e.0 ≡ jobs) }
{
    let Ok(mut slots) = Vec::with_capacity(alloc, jobs.len()) else {
        return Err((jobs, NoMemory));
    };
    for job in jobs {
        slots.push_reserved(Slot {
            job: Some(job),
            message: None,
        });
    }
    Ok(slots)
}

/// What the slot of a job that was worked on answers.
fn answer(slot: Slot) -> Answer
    requires { IsDone slot }
    ensures { slot ≡ slot_of result }
{
    let Slot { job, message } = slot;
    match (job, message) {
        (None, Some(message)) => Ok(message),
        (Some(job), None) => Err((job, NoMemory)),
        _ => unreachable!(),
    }
}

/// Moves the answers into a list that has room for them.
pub(crate) fn answers_of(slots: Vec<Slot>, room: Vec<Answer>) -> Vec<Answer>
    requires done { (k : ℕ) (d : _) → k < vec_len slots → IsDone (slice_index_or slots.items k d) }
    requires room { (room.items ≡ []) × (vec_capacity room ≡ vec_len slots) }
    ensures { slots.items ≡ map slot_of result.items }
{
    let mut answers = room;
    for slot in slots {
        answers.push_reserved(answer(slot));
    }
    answers
}
