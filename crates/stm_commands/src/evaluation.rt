//! The evaluation of all that is queued: by threads, or on the desk itself.

ghost use Rattle.std.specs.Prelude.{◌≡◌, ◌≤◌, ◌<◌, ◌+◌, List, map, IfOk, vec_len};
ghost use Rattle.stm_terms.specs.declared.kinds.Ty.{Ty};
ghost use Rattle.stm_terms.specs.declared.values.Value.{Value};
ghost use Rattle.stm_eval.specs.declared.job.Job.{Job};
ghost use Rattle.stm_eval.specs.JobAnswers.{IsMessageOf, AnswersJob};
ghost use Rattle.stm_jobs.specs.Answers.{AnswerJobs};
ghost use Rattle.stm_eval.specs.CoveredJobs.{AreJobsCovered};
ghost use Rattle.stm_terms.specs.Limits.{max_waiting};
ghost use Rattle.stm_events.specs.States.{IsLegalFrom};
ghost use Rattle.stm_machine.specs.Checkpoints.{MayStart};
ghost use Rattle.stm_desk.specs.DeskView.{start_state, state_of};
ghost use Rattle.stm_options.specs.declared.options.TheConstants.Options.{MAX_WORKERS};
ghost use Rattle.stm_commands.specs.Evaluation.{EvaluatesQueued, delivered_so_far, delivered_next, delivered_all};
ghost use Rattle.stm_commands.specs.OpenInvariant.{handed_out, JobStands, JobsStand, HasGrown, OwnsTicket, OwnTheirTickets, none_delivered};

use crate::delivery::deliver_message;
use crate::threading::Threading;
use std::alloc::Global;
use std::mem;
use std::thread::Threads;
use stm_desk::{Desk, Evaluation};
use stm_eval::{Evaluated, Job};
use stm_jobs::{Answer, evaluate_all};
use stm_store::Frozen;
use stm_terms::NoMemory;

/// Delivers the next message, unless one was refused before: then its ticket is queued again.
fn deliver_next(
    desk: &mut Desk,
    message: Evaluated,
    so_far: Evaluation,
) -> Result<Evaluation, NoMemory>
    requires few { so_far.count < max_waiting }
    requires own { OwnsTicket (state_of desk.old) message }
    requires start { MayStart desk.old.table desk.old.checkpoint }
    requires legal { IsLegalFrom (start_state desk.old) desk.old.history }
    ensures done { (cells : List (Ty × Value)) (job : Job) → IsMessageOf job cells message →
        JobStands desk.old (handed_out cells job) → IfOk result (λ p. delivered_so_far desk.new p
        ≡ delivered_next (delivered_so_far desk.old so_far) (handed_out cells job) so_far.stop) }
    ensures few { IfOk result (λ p. p.count ≤ so_far.count + 1) }
    ensures grown { HasGrown desk.old desk.new }
    ensures store { (state_of desk.new).store ≡ (state_of desk.old).store }
{
    let ticket = message.ticket();
    if so_far.stop.is_some() {
        desk.hand_back(ticket);
        return Ok(so_far);
    }
    let refusal = deliver_message(desk, message)?;
    if refusal.is_some() {
        desk.hand_back(ticket);
        return Ok(Evaluation {
            count: so_far.count,
            stop: refusal,
        });
    }
    Ok(Evaluation {
        count: so_far.count + 1,
        stop: None,
    })
}

/// Delivers the next answer. A job that comes back unevaluated means that memory ran out.
fn deliver_answer(
    desk: &mut Desk,
    answer: Answer,
    so_far: Evaluation,
) -> Result<Evaluation, NoMemory>
    requires few { so_far.count < max_waiting }
    requires own { IfOk answer (OwnsTicket (state_of desk.old)) }
    requires start { MayStart desk.old.table desk.old.checkpoint }
    requires legal { IsLegalFrom (start_state desk.old) desk.old.history }
    ensures done { (cells : List (Ty × Value)) (job : Job) → AnswersJob job cells answer →
        JobStands desk.old (handed_out cells job) → IfOk result (λ p. delivered_so_far desk.new p
        ≡ delivered_next (delivered_so_far desk.old so_far) (handed_out cells job) so_far.stop) }
    ensures few { IfOk result (λ p. p.count ≤ so_far.count + 1) }
    ensures grown { HasGrown desk.old desk.new }
    ensures store { (state_of desk.new).store ≡ (state_of desk.old).store }
{
    match answer {
        Ok(message) => deliver_next(desk, message, so_far),
        Err((_, refused)) => Err(refused),
    }
}

/// Delivers answers one after another until one is refused. `before` counts the deliveries that were accepted earlier. The answer
/// that is refused and those after it are queued again.
fn deliver_answers(
    desk: &mut Desk,
    answers: Vec<Answer>,
    before: Evaluation,
) -> Result<Evaluation, NoMemory>
    requires few { before.count + vec_len answers ≤ max_waiting }
    requires own { OwnTheirTickets (state_of desk.old) answers.items }
    requires start { MayStart desk.old.table desk.old.checkpoint }
    requires legal { IsLegalFrom (start_state desk.old) desk.old.history }
    ensures done { (cells : List (Ty × Value)) (jobs : List Job) →
        AnswerJobs jobs cells answers.items → JobsStand desk.old (map (handed_out cells) jobs) →
        IfOk result (λ p. delivered_so_far desk.new p
        ≡ delivered_all (delivered_so_far desk.old before) (map (handed_out cells) jobs)) }
    ensures few { IfOk result (λ p. p.count ≤ before.count + vec_len answers) }
    ensures grown { HasGrown desk.old desk.new }
    ensures store { (state_of desk.new).store ≡ (state_of desk.old).store }
{
    let mut so_far = before;
    for answer in answers {
        so_far = deliver_answer(desk, answer, so_far)?;
    }
    Ok(so_far)
}

/// How many bytes of text of the blocks are enough work for one thread: to evaluate them takes about 90 microseconds, and to start
/// a thread about 40.
const BYTES_OF_A_THREAD: usize = 65_536;

/// By how many threads jobs are evaluated: as many as there are workers, but no more than their blocks are worth.
fn threads_for(threading: Threading, jobs: &[Job]) -> usize
    ensures some { 0 < result }
    ensures few { result ≤ MAX_WORKERS }
{
    let mut bytes: usize = 0;
    for job in jobs {
        bytes = bytes.saturating_add(job.block.block().text().len());
    }
    let worth = bytes / BYTES_OF_A_THREAD + 1;
    worth.min(threading.workers() as usize)
}

/// Evaluates jobs by threads on a store, and delivers their answers in the order of the jobs. `before` counts the deliveries that
/// were accepted earlier.
fn evaluate_batch<T: Threads + Sync>(
    desk: &mut Desk,
    rt: &T,
    alloc: Global,
    threading: Threading,
    store: &Frozen,
    jobs: Vec<Job>,
    before: Evaluation,
) -> Result<Evaluation, NoMemory>
    requires few { before.count + vec_len jobs ≤ max_waiting }
    requires start { MayStart desk.old.table desk.old.checkpoint }
    requires legal { IsLegalFrom (start_state desk.old) desk.old.history }
    requires covered { AreJobsCovered store.now jobs.items }
    requires stand { JobsStand desk.old (map (handed_out store.now) jobs.items) }
    ensures done { IfOk result (λ p. delivered_so_far desk.new p
        ≡ delivered_all (delivered_so_far desk.old before) (map (handed_out store.now) jobs.items)) }
    ensures few { IfOk result (λ p. p.count ≤ before.count + vec_len jobs) }
    ensures grown { HasGrown desk.old desk.new }
    ensures store { (state_of desk.new).store ≡ (state_of desk.old).store }
{
    let workers = threads_for(threading, jobs.as_slice());
    match evaluate_all(rt, alloc, store, jobs, workers, threading.levels()) {
        Ok(answers) => deliver_answers(desk, answers, before),
        Err((_, refused)) => Err(refused),
    }
}

/// How many bytes of text of the blocks each worker evaluates before they are delivered. Threads are started once for that many, and
/// their messages are held until then.
const BYTES_OF_A_BATCH: usize = 524_288;

/// Evaluates jobs by threads on a store, and delivers their answers in the order of the jobs, batch by batch.
fn evaluate_jobs<T: Threads + Sync>(
    desk: &mut Desk,
    rt: &T,
    alloc: Global,
    threading: Threading,
    store: &Frozen,
    jobs: Vec<Job>,
) -> Result<Evaluation, NoMemory>
    requires few { vec_len jobs ≤ max_waiting }
    requires start { MayStart desk.old.table desk.old.checkpoint }
    requires legal { IsLegalFrom (start_state desk.old) desk.old.history }
    requires covered { AreJobsCovered store.now jobs.items }
    requires stand { JobsStand desk.old (map (handed_out store.now) jobs.items) }
    ensures done { IfOk result (λ p. delivered_so_far desk.new p
        ≡ delivered_all (none_delivered desk.old) (map (handed_out store.now) jobs.items)) }
    ensures grown { HasGrown desk.old desk.new }
    ensures store { (state_of desk.new).store ≡ (state_of desk.old).store }
{
    let mut so_far = Evaluation {
        count: 0,
        stop: None,
    };
    let most = BYTES_OF_A_BATCH * threading.workers() as usize;
    let mut bytes: usize = 0;
    let mut batch = Vec::new(alloc);
    for job in jobs {
        bytes = bytes.saturating_add(job.block.block().text().len());
        batch.push(job)?;
        if bytes >= most {
            let full = mem::replace(&mut batch, Vec::new(alloc));
            so_far = evaluate_batch(desk, rt, alloc, threading, store, full, so_far)?;
            bytes = 0;
        }
    }
    evaluate_batch(desk, rt, alloc, threading, store, batch, so_far)
}

/// Evaluates by threads and delivers all that is queued, in ascending order of the tickets.
fn evaluate_by_threads<T: Threads + Sync>(
    desk: &mut Desk,
    rt: &T,
    alloc: Global,
    threading: Threading,
) -> Result<Evaluation, NoMemory>
    requires start { MayStart desk.old.table desk.old.checkpoint }
    requires legal { IsLegalFrom (start_state desk.old) desk.old.history }
    ensures done { IfOk result (EvaluatesQueued desk.old desk.new) }
    ensures grown { HasGrown desk.old desk.new }
    ensures store { (state_of desk.new).store ≡ (state_of desk.old).store }
{
    match desk.take(Desk::MAX_WAITING) {
        Ok((store, jobs)) => evaluate_jobs(desk, rt, alloc, threading, &store, jobs),
        Err(refused) => Err(refused),
    }
}

/// Evaluates all that is queued on the desk itself, in ascending order of the tickets.
pub fn evaluate_here(desk: &mut Desk) -> Result<Evaluation, NoMemory>
    ensures done { IfOk result (EvaluatesQueued desk.old desk.new) }
    ensures grown { HasGrown desk.old desk.new }
    ensures same { (state_of desk.new).store ≡ (state_of desk.old).store }
{
    // The queue is known to be right by this.
    let _events = desk.history();
    let answer = desk.evaluate_queued(0, Desk::MAX_WAITING as u32);
    // The history is known to be legal by this.
    let _after = desk.history();
    match answer {
        Ok(evaluation) => Ok(evaluation),
        Err(refused) => Err(refused),
    }
}

/// Blocks of fewer bytes of text than this, on average, are evaluated on the desk itself: a job and a message of each would take
/// longer than its evaluation.
const BYTES_OF_A_JOB: usize = 512;

/// The average is taken over the lowest queued blocks, at most this many.
const BLOCKS_OF_A_SAMPLE: usize = 64;

/// The bytes of the text of the block that waits under a ticket.
fn text_bytes(desk: &Desk, ticket: u32) -> usize {
    match desk.block(ticket) {
        Some(block) => block.block().text().len(),
        None => 0,
    }
}

/// Whether the queued blocks have short texts on average.
fn are_short(desk: &Desk) -> bool {
    let mut bytes: usize = 0;
    for place in 0..BLOCKS_OF_A_SAMPLE {
        match desk.queued_at(place) {
            Some(ticket) => bytes = bytes.saturating_add(text_bytes(desk, ticket)),
            None => return bytes <= place * BYTES_OF_A_JOB,
        }
    }
    bytes <= BLOCKS_OF_A_SAMPLE * BYTES_OF_A_JOB
}

/// Whether the queued blocks are evaluated on the desk itself, and not by threads.
fn is_work_for_one(desk: &Desk, threading: Threading) -> bool {
    threading.levels() == 0 && (threading.workers() == 1 || are_short(desk))
}

/// Evaluates and delivers all that is queued, in ascending order of the tickets: by threads, or on the desk itself if that is
/// faster. No answer depends on which.
pub fn evaluate_queued<T: Threads + Sync>(
    desk: &mut Desk,
    rt: &T,
    alloc: Global,
    threading: Threading,
) -> Result<Evaluation, NoMemory>
    // As the type of a desk keeps it; `Desk::history` says so.
    requires start { MayStart desk.old.table desk.old.checkpoint }
    requires legal { IsLegalFrom (start_state desk.old) desk.old.history }
    ensures done { IfOk result (EvaluatesQueued desk.old desk.new) }
    ensures grown { HasGrown desk.old desk.new }
    ensures same { (state_of desk.new).store ≡ (state_of desk.old).store }
{
    if is_work_for_one(desk, threading) {
        evaluate_here(desk)
    } else {
        evaluate_by_threads(desk, rt, alloc, threading)
    }
}
