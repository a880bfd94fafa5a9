//! `eval`: all that is queued is evaluated and delivered.

ghost use Rattle.std.specs.Prelude.{◌+◌};
ghost use Rattle.stm_commands.specs.Evaluation.{evaluated_line, evaluation_text, eval_desk_step, eval_step};
ghost use Rattle.stm_commands.specs.OpenDesk.{on_desk};
ghost use Rattle.stm_commands.specs.Printing.{Prints, TakesStep};

use crate::evaluation::{evaluate_here, evaluate_queued};
use crate::open_desk::OpenDesk;
use crate::refusals::{refuse_argument, refuse_delivery};
use crate::threading::Threading;
use std::alloc::Global;
use std::thread::Threads;
use stm_desk::DeliverError;
use stm_terms::NoMemory;
use stm_terms::text::write_number;

#[tactic(auto, unfolding(crate::specs::Evaluation::evaluated_line))]
fn write_evaluated(count: u32, out: &mut String) -> Result<(), NoMemory>
    ensures { Prints result out.old out.new (evaluated_line count) }
{
    out.push_str("evaluated ")?;
    write_number(count, out)?;
    out.push_str("\n")
}

/// Appends how evaluating all that was queued ended.
fn write_evaluation(
    count: u32,
    stop: Option<DeliverError>,
    out: &mut String,
) -> Result<(), NoMemory>
    ensures { Prints result out.old out.new (evaluation_text count stop) }
{
    match stop {
        None => write_evaluated(count, out),
        Some(refusal) => refuse_delivery(refusal, out),
    }
}

impl OpenDesk {
    /// Evaluates and delivers all that is queued.
    fn eval<T: Threads + Sync>(
        &mut self,
        rt: &T,
        alloc: Global,
        threading: Threading,
        out: &mut String,
    ) -> Result<(), NoMemory>
        ensures { TakesStep result self.new out.old out.new
            (on_desk self.old (eval_desk_step self.old.desk)) }
    {
        let progress = evaluate_queued(&mut self.desk, rt, alloc, threading)?;
        write_evaluation(progress.count, progress.stop, out)
    }

    /// Evaluates and delivers all that is queued, on the desk itself.
    fn eval_here(&mut self, out: &mut String) -> Result<(), NoMemory>
        ensures { TakesStep result self.new out.old out.new
            (on_desk self.old (eval_desk_step self.old.desk)) }
    {
        let progress = evaluate_here(&mut self.desk)?;
        write_evaluation(progress.count, progress.stop, out)
    }

    /// Answers `eval` as `answer_eval` does, but starts no thread.
    #[tactic(auto, unfolding(crate::specs::Evaluation::eval_step))]
    pub fn answer_eval_here(&mut self, argument: &str, out: &mut String) -> Result<(), NoMemory>
        ensures { TakesStep result self.new out.old out.new (eval_step self.old argument.now) }
    {
        if !argument.is_empty() {
            return refuse_argument(out);
        }
        self.eval_here(out)
    }

    /// Answers `eval`: all queued blocks are evaluated, and what they do is delivered. Prints how many there were, or the first refusal.
    #[tactic(auto, unfolding(crate::specs::Evaluation::eval_step))]
    pub fn answer_eval<T: Threads + Sync>(
        &mut self,
        rt: &T,
        alloc: Global,
        threading: Threading,
        argument: &str,
        out: &mut String,
    ) -> Result<(), NoMemory>
        ensures { TakesStep result self.new out.old out.new (eval_step self.old argument.now) }
    {
        if !argument.is_empty() {
            return refuse_argument(out);
        }
        self.eval(rt, alloc, threading, out)
    }
}
