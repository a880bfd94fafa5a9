//! A whole block, run on a frozen store.

ghost use Rattle.std.specs.Prelude.{◌≡◌, ◌≢◌, ◌+◌, ◌≤◌, ◌^◌, [], length, Some, IfOk, OnOk};
ghost use Rattle.stm_terms.specs.Ast.{act_of};
ghost use Rattle.stm_terms.specs.Changes.{cell_value, no_changes};
ghost use Rattle.stm_terms.specs.Semantics.{run, Stuck};
ghost use Rattle.stm_terms.specs.ReadSet.{reads_of, looks, insert_reads};
ghost use Rattle.stm_terms.specs.Typing.{makes};
ghost use Rattle.stm_terms.specs.Verdict.{verdict, verdict_from};
ghost use Rattle.stm_eval.specs.InterpreterSteps.{outcome};
ghost use Rattle.stm_store.specs.Cells.{Covers, Fits};

use crate::interpreter::evaluate;
use crate::outcome::Outcome;
use std::alloc::Global;
use stm_check::Typed;
use stm_log::{Ends, Log, Reads};
use stm_store::Frozen;
use stm_terms::NoMemory;
use stm_terms::action::Action;
use stm_terms::verdicts::Verdict;

/// Runs an action that is a whole block; its locals are its own.
fn run_whole(
    alloc: Global,
    frozen: &Frozen,
    action: &Action,
    log: &mut Log,
) -> Result<Outcome, NoMemory>
    requires defined { run (cell_value frozen.now) (act_of action.now) [] log.old.top ≢ Stuck }
    requires room { length log.old.top.news + makes (act_of action.now) ≤ 2 ^ 32 }
    ensures outcome { IfOk result (λ e.
        run (cell_value frozen.now) (act_of action.now) [] log.old.top ≡ outcome e log.new.top) }
    ensures reads { OnOk result (log.new.reads
        ≡ insert_reads (cell_value frozen.now)
        (looks (cell_value frozen.now) (act_of action.now) [] log.old.top) log.old.reads) }
    ensures below { OnOk result (log.new.below ≡ log.old.below) }
{
    let mut locals = Vec::new(alloc);
    evaluate(frozen, action, &mut locals, log)
}

/// The verdict of a log that ended so, and what it read.
pub(crate) fn judged(ends: Ends, end: Outcome) -> (Verdict, Reads)
    ensures verdict { verdict_from
        (outcome end (record { writes = ends.writes; news = ends.news })) ≡ Some result.0 }
    ensures reads { result.1 ≡ ends.reads }
{
    let Ends {
        writes,
        news,
        reads,
    } = ends;
    match end {
        Outcome::Returned(result) => (
            Verdict::Commits {
                writes,
                news,
                result,
            },
            reads,
        ),
        Outcome::Threw(fault) => (Verdict::Throws(fault), reads),
        Outcome::Retried => (Verdict::Blocks, reads),
    }
}

/// The verdict of an action that is a whole block and has a meaning on this store, and what it reads there.
pub fn try_action(
    alloc: Global,
    frozen: &Frozen,
    action: &Action,
) -> Result<(Verdict, Reads), NoMemory>
    requires defined { run (cell_value frozen.now) (act_of action.now) [] no_changes ≢ Stuck }
    requires room { makes (act_of action.now) ≤ 2 ^ 32 }
    ensures verdict { IfOk result (λ r.
        verdict (cell_value frozen.now) (act_of action.now) ≡ Some r.0) }
    ensures reads { IfOk result (λ r. r.1 ≡ reads_of (cell_value frozen.now) (act_of action.now)) }
{
    let mut log = Log::start(alloc);
    let end = run_whole(alloc, frozen, action, &mut log)?;
    let ends = log.finish()?;
    Ok(judged(ends, end))
}

/// The verdict of a block on a store that has the variables which it names, and what it reads there. The verdict fits
/// the store.
#[tactic(auto, using(stm_check::proofs::Weakening::block_defined, stm_check::proofs::Weakening::verdict_fits))]
pub fn try_block(
    alloc: Global,
    frozen: &Frozen,
    block: &Typed,
) -> Result<(Verdict, Reads), NoMemory>
    requires { Covers frozen.now block.now.uses }
    ensures verdict { IfOk result (λ r. verdict (cell_value frozen.now) block.now.tree ≡ Some r.0) }
    ensures reads { IfOk result (λ r. r.1 ≡ reads_of (cell_value frozen.now) block.now.tree) }
    ensures fits { IfOk result (λ r. Fits frozen.now r.0) }
{
    // The store and the block are known to be well typed by these.
    let _cells = frozen.len();
    let action = block.action();
    let (verdict, reads) = try_action(alloc, frozen, action)?;
    Ok((verdict, reads))
}
