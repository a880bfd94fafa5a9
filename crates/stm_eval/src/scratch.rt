//! Evaluation of one block after another, with the same lists.

ghost use Rattle.std.specs.Prelude.{◌≡◌, ◌≢◌, ◌≤◌, ◌^◌, [], length, Some, IfOk, OnOk};
ghost use Rattle.stm_terms.specs.Ast.{act_of};
ghost use Rattle.stm_terms.specs.Changes.{cell_value, no_changes};
ghost use Rattle.stm_terms.specs.Semantics.{run, Stuck};
ghost use Rattle.stm_terms.specs.ReadSet.{reads_of};
ghost use Rattle.stm_terms.specs.Typing.{Rising, makes};
ghost use Rattle.stm_terms.specs.Verdict.{verdict, verdict_from};
ghost use Rattle.stm_eval.specs.InterpreterSteps.{outcome};
ghost use Rattle.stm_store.specs.Cells.{Covers};

use crate::interpreter::evaluate;
use crate::outcome::Outcome;
use std::alloc::Global;
use std::marker::Model;
use stm_check::Typed;
use stm_log::{Log, Reads};
use stm_store::Frozen;
use stm_terms::NoMemory;
use stm_terms::action::Action;
use stm_terms::values::Value;
use stm_terms::verdicts::Verdict;

/// The lists of an evaluation, which the next one uses again. Contracts see what the last evaluation read.
#[derive(Drop)]
pub struct Scratch {
    locals: Vec<Value>,
    log: Log,
}

impl Model for Scratch {
    ghost use Rattle.std.specs.Prelude.{List, ℕ};
    ghost use Rattle.stm_terms.specs.declared.values.Value.{Value as Held};

    ghost Value = { List (ℕ × Held) };

    ghost view = { λ s. s.log.reads };
}

impl Scratch {
    /// Empty lists.
    pub fn new(alloc: Global) -> Scratch
        ensures { result ≡ [] }
    {
        Scratch {
            locals: Vec::new(alloc),
            log: Log::start(alloc),
        }
    }

    /// What the last evaluation read.
    pub fn as_slice(&self) -> &[(u32, Value)]
        ensures value { result.now ≡ self.now }
        ensures rising { Rising self.now }
    {
        self.log.reads()
    }

    /// A list of what the last evaluation read.
    pub fn copy(&self) -> Result<Reads, NoMemory>
        ensures { IfOk result (λ r. r ≡ self.now) }
    {
        self.log.copy_reads()
    }

    /// Puts what the last evaluation read in place of a list of as many reads. It takes no memory.
    pub fn overwrite(&self, reads: &mut Reads)
        requires { length reads.old ≡ length self.now }
        ensures { reads.new ≡ self.now }
    {
        self.log.overwrite_reads(reads);
    }
}

/// Runs an action that is a whole block, from an empty log.
fn run_again(scratch: &mut Scratch, frozen: &Frozen, action: &Action) -> Result<Verdict, NoMemory>
    requires defined { run (cell_value frozen.now) (act_of action.now) [] no_changes ≢ Stuck }
    requires room { makes (act_of action.now) ≤ 2 ^ 32 }
    ensures verdict { IfOk result (λ v. verdict (cell_value frozen.now) (act_of action.now) ≡ Some v) }
    ensures reads { OnOk result (scratch.new ≡ reads_of (cell_value frozen.now) (act_of action.now)) }
{
    scratch.log.restart();
    scratch.locals.clear();
    let end = evaluate(frozen, action, &mut scratch.locals, &mut scratch.log)?;
    Ok(taken(&mut scratch.log, end))
}

/// The verdict of a log that ended so. What was read stays in the log.
fn taken(log: &mut Log, end: Outcome) -> Verdict
    ensures verdict { verdict_from (outcome end log.old.top) ≡ Some result }
    ensures reads { log.new.reads ≡ log.old.reads }
{
    match end {
        Outcome::Returned(result) => {
            let (writes, news) = log.take_changes();
            Verdict::Commits {
                writes,
                news,
                result,
            }
        }
        Outcome::Threw(fault) => Verdict::Throws(fault),
        Outcome::Retried => Verdict::Blocks,
    }
}

/// The verdict of a block on a store that has the variables which it names. The lists then have what it read there.
#[tactic(auto, using(stm_check::proofs::Weakening::block_defined))]
pub fn try_block_in(
    scratch: &mut Scratch,
    frozen: &Frozen,
    block: &Typed,
) -> Result<Verdict, NoMemory>
    requires { Covers frozen.now block.now.uses }
    ensures verdict { IfOk result (λ v. verdict (cell_value frozen.now) block.now.tree ≡ Some v) }
    ensures reads { OnOk result (scratch.new ≡ reads_of (cell_value frozen.now) block.now.tree) }
{
    // The store and the block are known to be well typed by these.
    let _cells = frozen.len();
    let action = block.action();
    run_again(scratch, frozen, action)
}
