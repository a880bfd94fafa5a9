//! Messages made and read.

ghost use Rattle.std.specs.Prelude.{◌≡◌};
ghost use Rattle.stm_store.specs.Cells.{Covers};
ghost use Rattle.stm_eval.specs.Messages.{MessageIsValid};
ghost use Rattle.stm_eval.specs.EvaluatedFields.{message_ticket, message_block, message_reads, message_verdict, HoldsWhereRead};
ghost use Rattle.stm_eval.specs.JobAnswers.{AnswersJob};

use crate::block::try_block;
use crate::job::Job;
use crate::message::Evaluated;
use std::alloc::Global;
use stm_check::SharedBlock;
use stm_log::Reads;
use stm_store::Frozen;
use stm_terms::NoMemory;
use stm_terms::verdicts::Verdict;

/// Evaluates a block on a store that has the variables which it names. After `NoMemory` the job is as it was.
pub fn evaluate(alloc: Global, job: Job, frozen: &Frozen) -> Result<Evaluated, (Job, NoMemory)>
    requires { Covers frozen.now job.block.uses }
    ensures { AnswersJob job frozen.now result }
{
    match try_block(alloc, frozen, job.block.block()) {
        Ok((verdict, reads)) => Ok(Evaluated::of(job, reads, verdict)),
        Err(refused) => Err((job, refused)),
    }
}

impl Evaluated {
    /// The message of a job whose block was evaluated.
    pub(crate) fn of(job: Job, reads: Reads, found: Verdict) -> Evaluated
        requires { MessageIsValid job.block.tree reads found }
        ensures job { (message_ticket result ≡ job.ticket) × (message_block result ≡ job.block) }
        ensures held { (message_reads result ≡ reads) × (message_verdict result ≡ found) }
    {
        let Job { ticket, block } = job;
        Evaluated {
            ticket,
            block,
            reads,
            verdict: found,
        }
    }

    /// The ticket that was evaluated.
    pub fn ticket(&self) -> u32
        ensures { result ≡ message_ticket self.now }
    {
        self.ticket
    }

    /// The block that was evaluated.
    pub fn block(&self) -> &SharedBlock
        ensures { result.now ≡ message_block self.now }
    {
        &self.block
    }

    /// The variables that the block read, ascending, with the values that they had. On variables with these values the block
    /// reads the same, and its verdict is the message's.
    pub fn reads(&self) -> &Reads
        ensures value { result.now ≡ message_reads self.now }
        ensures holds { HoldsWhereRead self.now }
    {
        &self.reads
    }

    /// The verdict, which is the block's on all variables that have the values which it read.
    pub fn verdict(&self) -> &Verdict
        ensures value { result.now ≡ message_verdict self.now }
        ensures holds { HoldsWhereRead self.now }
    {
        &self.verdict
    }

    /// What the block read, and its verdict.
    pub fn into_parts(self) -> (Reads, Verdict)
        ensures reads { result.0 ≡ message_reads self }
        ensures verdict { result.1 ≡ message_verdict self }
    {
        (self.reads, self.verdict)
    }

    /// The verdict alone.
    pub fn into_verdict(self) -> Verdict
        ensures { result ≡ message_verdict self }
    {
        self.verdict
    }
}
