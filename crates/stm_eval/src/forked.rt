//! Evaluation with both branches of an `orElse` at once.
//!
//! The walk is the interpreter's. In the outer levels of `orElse` each branch runs in a thread of its own where one can
//! be started: the left one goes on with the log, in a frame, and the right one with a copy that was made before. Where
//! the left one retried, what it read is joined to what the right one read. Else nothing of the right one counts.

ghost use Rattle.std.specs.Prelude.{◌≡◌, ◌≢◌, ◌+◌, ◌<◌, ◌≤◌, [], List, Some, length, take, OnOk, OnErr, IfOk};
ghost use denote.Param.Send.{IsSync};
ghost use Rattle.stm_terms.specs.declared.values.Value.{Value as AnyValue};
ghost use Rattle.stm_terms.specs.Ast.{Act, act_of, or_else, bind, seq, catch};
ghost use Rattle.stm_terms.specs.Changes.{Variables, cell_value};
ghost use Rattle.stm_terms.specs.ReadSet.{reads_of};
ghost use Rattle.stm_terms.specs.Verdict.{verdict};
ghost use Rattle.stm_store.specs.Cells.{Covers};
ghost use Rattle.stm_log.specs.LogModel.{Logged};
ghost use Rattle.stm_eval.specs.JobAnswers.{AnswersJob};
ghost use Rattle.stm_terms.specs.Limits.{max_levels};
ghost use Rattle.stm_eval.specs.InterpreterSteps.{size, size_left, StepsTo};
ghost use Rattle.stm_eval.specs.BothBranches.{DefinedLeft, IsReadSetOf, CanRun, RunsTo, entered};

use crate::block::judged;
use crate::interpreter::{after_action, evaluate, run_choice, run_let};
use crate::job::Job;
use crate::message::Evaluated;
use crate::outcome::{Outcome, Step};
use std::alloc::Global;
use std::mem;
use std::thread::{Threads, join};
use stm_check::Typed;
use stm_log::{Log, Reads};
use stm_store::Frozen;
use stm_terms::NoMemory;
use stm_terms::action::Action;
use stm_terms::values::Value;
use stm_terms::verdicts::Verdict;

/// What a branch of an `orElse` works on.
#[derive(Drop)]
struct BranchState {
    locals: Vec<Value>,
    log: Log,
}

/// Runs an action on a log, with the branches of its outer `levels` of `orElse` at once. The log's other frames and the
/// locals are left as they were.
#[cycle(walk)]
fn walk<R: Threads + Sync>(
    rt: &R,
    alloc: Global,
    frozen: &Frozen,
    action: &Action,
    locals: &mut Vec<Value>,
    log: &mut Log,
    levels: u32,
) -> Result<Outcome, NoMemory>
    requires { CanRun (cell_value frozen.now) (act_of action.now) locals.old.items log.old }
    ensures { IfOk result (λ e. RunsTo (cell_value frozen.now) (act_of action.now)
        locals.old.items log.old e locals.new.items log.new) }
{
    if levels == 0 {
        return alone(frozen, action, locals, log);
    }
    let outer = locals.len();
    let mut rest = action;
    loop {
        match step(rt, alloc, frozen, rest, locals, log, levels)? {
            Step::On(next) => rest = next,
            Step::Ended(end) => {
                locals.truncate(outer);
                return Ok(end);
            }
        }
    }
}

/// One step of an action. Locals are added if the rest has more of them.
#[cycle(walk)]
#[tactic(auto, using(crate::proofs::InsertedReads::reads_in_turn))]
fn step<'a, R: Threads + Sync>(
    rt: &R,
    alloc: Global,
    frozen: &Frozen,
    action: &'a Action,
    locals: &mut Vec<Value>,
    log: &mut Log,
    levels: u32,
) -> Result<Step<'a>, NoMemory>
    requires levels { 0 < levels }
    requires run { CanRun (cell_value frozen.now) (act_of action.now) locals.old.items log.old }
    ensures steps { IfOk result (λ s. StepsTo (cell_value frozen.now) (act_of action.now)
        locals.old.items log.old s locals.new.items log.new) }
    ensures locals { OnOk result (
        take (length locals.old.items) locals.new.items ≡ locals.old.items) }
    ensures smaller { IfOk result (λ s. size_left s < size (act_of action.now)) }
    ensures defined { IfOk result (λ s.
        DefinedLeft (cell_value frozen.now) s locals.new.items log.new.top) }
    ensures read_set { OnOk result (IsReadSetOf (cell_value frozen.now) log.new.reads) }
{
    match action {
        Action::If(e, a, b) => Ok(run_choice(frozen, e, a, b, locals, log)),
        Action::OrElse(a, b) => {
            let end = run_or_else(rt, alloc, frozen, action, a, b, locals, log, levels - 1)?;
            Ok(Step::Ended(end))
        }
        Action::Bind(a, b) => walk_bound(rt, alloc, frozen, a, b, locals, log, levels),
        Action::Let(e, b) => run_let(frozen, e, b, locals, log),
        Action::Seq(a, b) => walk_first(rt, alloc, frozen, a, b, locals, log, levels),
        Action::Catch(a, b) => walk_caught(rt, alloc, frozen, a, b, locals, log, levels),
        _ => Ok(Step::Ended(alone(frozen, action, locals, log)?)),
    }
}

/// A statement that binds a name, with `levels` at once within it. The rest is left to be run, with one more local, if the
/// statement returned.
#[cycle(walk)]
#[tactic(auto, using(crate::proofs::InsertedReads::reads_in_turn))]
fn walk_bound<'a, R: Threads + Sync>(
    rt: &R,
    alloc: Global,
    frozen: &Frozen,
    bound: &Action,
    rest: &'a Action,
    locals: &mut Vec<Value>,
    log: &mut Log,
    levels: u32,
) -> Result<Step<'a>, NoMemory>
    requires { CanRun (cell_value frozen.now) (bind (act_of bound.now) (act_of rest.now))
        locals.old.items log.old }
    ensures steps { IfOk result (λ s. StepsTo (cell_value frozen.now)
        (bind (act_of bound.now) (act_of rest.now))
        locals.old.items log.old s locals.new.items log.new) }
    ensures locals { OnOk result (
        take (length locals.old.items) locals.new.items ≡ locals.old.items) }
    ensures smaller { IfOk result (λ s. size_left s ≤ size (act_of rest.now)) }
    ensures defined { IfOk result (λ s.
        DefinedLeft (cell_value frozen.now) s locals.new.items log.new.top) }
    ensures read_set { OnOk result (IsReadSetOf (cell_value frozen.now) log.new.reads) }
{
    match walk(rt, alloc, frozen, bound, locals, log, levels)? {
        Outcome::Returned(v) => {
            locals.push(v)?;
            Ok(Step::On(rest))
        }
        end => Ok(Step::Ended(end)),
    }
}

/// A statement whose result is dropped, with `levels` at once within it. The rest is left to be run if it returned.
#[cycle(walk)]
#[tactic(auto, using(crate::proofs::InsertedReads::reads_in_turn))]
fn walk_first<'a, R: Threads + Sync>(
    rt: &R,
    alloc: Global,
    frozen: &Frozen,
    first: &Action,
    rest: &'a Action,
    locals: &mut Vec<Value>,
    log: &mut Log,
    levels: u32,
) -> Result<Step<'a>, NoMemory>
    requires { CanRun (cell_value frozen.now) (seq (act_of first.now) (act_of rest.now))
        locals.old.items log.old }
    ensures steps { IfOk result (λ s. StepsTo (cell_value frozen.now)
        (seq (act_of first.now) (act_of rest.now))
        locals.old.items log.old s locals.new.items log.new) }
    ensures locals { OnOk result (
        take (length locals.old.items) locals.new.items ≡ locals.old.items) }
    ensures smaller { IfOk result (λ s. size_left s ≤ size (act_of rest.now)) }
    ensures defined { IfOk result (λ s.
        DefinedLeft (cell_value frozen.now) s locals.new.items log.new.top) }
    ensures read_set { OnOk result (IsReadSetOf (cell_value frozen.now) log.new.reads) }
{
    match walk(rt, alloc, frozen, first, locals, log, levels)? {
        Outcome::Returned(_) => Ok(Step::On(rest)),
        end => Ok(Step::Ended(end)),
    }
}

/// The action of a `catch`, in a frame of its own, with `levels` at once within it. The handler is left to be run if the
/// action threw a number, with that as one more local, from the view before it; what the action read stays.
#[cycle(walk)]
fn walk_caught<'a, R: Threads + Sync>(
    rt: &R,
    alloc: Global,
    frozen: &Frozen,
    action: &Action,
    handler: &'a Action,
    locals: &mut Vec<Value>,
    log: &mut Log,
    levels: u32,
) -> Result<Step<'a>, NoMemory>
    requires { CanRun (cell_value frozen.now) (catch (act_of action.now) (act_of handler.now))
        locals.old.items log.old }
    ensures steps { IfOk result (λ s. StepsTo (cell_value frozen.now)
        (catch (act_of action.now) (act_of handler.now))
        locals.old.items log.old s locals.new.items log.new) }
    ensures locals { OnOk result (
        take (length locals.old.items) locals.new.items ≡ locals.old.items) }
    ensures smaller { IfOk result (λ s. size_left s ≤ size (act_of handler.now)) }
    ensures defined { IfOk result (λ s.
        DefinedLeft (cell_value frozen.now) s locals.new.items log.new.top) }
    ensures read_set { OnOk result (IsReadSetOf (cell_value frozen.now) log.new.reads) }
{
    log.enter()?;
    let end = walk(rt, alloc, frozen, action, locals, log, levels)?;
    after_action(end, handler, locals, log)
}

/// An action by this thread alone.
fn alone(
    frozen: &Frozen,
    action: &Action,
    locals: &mut Vec<Value>,
    log: &mut Log,
) -> Result<Outcome, NoMemory>
    requires { CanRun (cell_value frozen.now) (act_of action.now) locals.old.items log.old }
    ensures { IfOk result (λ e. RunsTo (cell_value frozen.now) (act_of action.now)
        locals.old.items log.old e locals.new.items log.new) }
{
    evaluate(frozen, action, locals, log)
}

/// `orElse`, with `levels` more at once within each branch. Where the branches can't be given locals and logs of their own,
/// one runs after the other.
#[cycle(walk)]
fn run_or_else<R: Threads + Sync>(
    rt: &R,
    alloc: Global,
    frozen: &Frozen,
    action: &Action,
    left: &Action,
    right: &Action,
    locals: &mut Vec<Value>,
    log: &mut Log,
    levels: u32,
) -> Result<Outcome, NoMemory>
    requires branches { act_of action.now ≡ or_else (act_of left.now) (act_of right.now) }
    requires run { CanRun (cell_value frozen.now) (or_else (act_of left.now) (act_of right.now))
        locals.old.items log.old }
    ensures { IfOk result (λ e. RunsTo (cell_value frozen.now)
        (or_else (act_of left.now) (act_of right.now))
        locals.old.items log.old e locals.new.items log.new) }
{
    match fork(alloc, locals, log) {
        Ok((left_state, right_state)) => {
            run_both(
                rt,
                alloc,
                frozen,
                left,
                right,
                left_state,
                right_state,
                locals,
                log,
                levels,
            )
        }
        Err(_) => alone(frozen, action, locals, log),
    }
}

/// The states that the branches of an `orElse` begin with. The left one is the state itself, in a frame; the right one is
/// a copy.
fn fork(
    alloc: Global,
    locals: &mut Vec<Value>,
    log: &mut Log,
) -> Result<(BranchState, BranchState), NoMemory>
    ensures left { IfOk result (λ s.
        (s.0.locals.items ≡ locals.old.items) × (s.0.log ≡ entered log.old)) }
    ensures right { IfOk result (λ s. (s.1.locals.items ≡ locals.old.items) × (s.1.log ≡ log.old)) }
    ensures err { OnErr result ((locals.new.items ≡ locals.old.items) × (log.new ≡ log.old)) }
{
    let right = copy_of(alloc, locals, log)?;
    log.enter()?;
    let left = BranchState {
        locals: mem::replace(locals, Vec::new(alloc)),
        log: mem::replace(log, Log::start(alloc)),
    };
    Ok((left, right))
}

fn copy_of(alloc: Global, locals: &[Value], log: &Log) -> Result<BranchState, NoMemory>
    ensures { IfOk result (λ s. (s.locals.items ≡ locals.now) × (s.log ≡ log.now)) }
{
    Ok(BranchState {
        locals: locals.to_vec(alloc)?,
        log: log.copy()?,
    })
}

/// Both branches at once. The end of the `orElse` is left in the locals and the log that are lent.
#[cycle(walk)]
fn run_both<R: Threads + Sync>(
    rt: &R,
    alloc: Global,
    frozen: &Frozen,
    left: &Action,
    right: &Action,
    left_state: BranchState,
    right_state: BranchState,
    locals: &mut Vec<Value>,
    log: &mut Log,
    levels: u32,
) -> Result<Outcome, NoMemory>
    requires locals { left_state.locals.items ≡ right_state.locals.items }
    requires log { left_state.log ≡ entered right_state.log }
    requires run { CanRun (cell_value frozen.now) (or_else (act_of left.now) (act_of right.now))
        right_state.locals.items right_state.log }
    ensures { IfOk result (λ e. RunsTo (cell_value frozen.now)
        (or_else (act_of left.now) (act_of right.now))
        right_state.locals.items right_state.log e locals.new.items log.new) }
{
    let ((left_end, mut left_state), (right_end, mut right_state)) = join(
        rt,
        move || -> (Result<Outcome, NoMemory>, BranchState)
            requires sync { IsSync R.row }
            requires run { CanRun (cell_value frozen.now) (act_of left.now)
                left_state.locals.items left_state.log }
            ensures { IfOk result.0 (λ e. RunsTo (cell_value frozen.entry.now)
                (act_of left.entry.now) left_state.locals.items left_state.log e
                result.1.locals.items result.1.log) }
        { run_branch(rt, alloc, frozen, left, left_state, levels) },
        move || -> (Result<Outcome, NoMemory>, BranchState)
            requires sync { IsSync R.row }
            requires run { CanRun (cell_value frozen.now) (act_of right.now)
                right_state.locals.items right_state.log }
            ensures { IfOk result.0 (λ e. RunsTo (cell_value frozen.entry.now)
                (act_of right.entry.now) right_state.locals.items right_state.log e
                result.1.locals.items result.1.log) }
        { run_branch(rt, alloc, frozen, right, right_state, levels) },
    );
    choose(
        left_end,
        &mut left_state,
        right_end,
        &mut right_state,
        locals,
        log,
    )
}

/// A branch that has run, and how it ended.
#[cycle(walk)]
fn run_branch<R: Threads + Sync>(
    rt: &R,
    alloc: Global,
    frozen: &Frozen,
    action: &Action,
    state: BranchState,
    levels: u32,
) -> (Result<Outcome, NoMemory>, BranchState)
    requires { CanRun (cell_value frozen.now) (act_of action.now) state.locals.items state.log }
    ensures { IfOk result.0 (λ e. RunsTo (cell_value frozen.now) (act_of action.now)
        state.locals.items state.log e result.1.locals.items result.1.log) }
{
    let mut state = state;
    let end = walk(
        rt,
        alloc,
        frozen,
        action,
        &mut state.locals,
        &mut state.log,
        levels,
    );
    (end, state)
}

/// What an `orElse` comes to once both branches have run, the left one in a frame: the left one's end, or, if that
/// retried, the right one's, with the left one's reads joined to its own.
fn choose(
    left_end: Result<Outcome, NoMemory>,
    left_state: &mut BranchState,
    right_end: Result<Outcome, NoMemory>,
    right_state: &mut BranchState,
    locals: &mut Vec<Value>,
    log: &mut Log,
) -> Result<Outcome, NoMemory>
    requires { OnOk left_end (left_state.old.log.below ≢ []) }
    // over any variables, branches, locals and log that the two were run on
    ensures { (S : Variables) (a b : Act) (vs : List AnyValue) (h : Logged) → IsReadSetOf S h.reads
        → IfOk left_end (λ e. RunsTo S a vs (entered h) e
        left_state.old.locals.items left_state.old.log)
        → IfOk right_end (λ e. RunsTo S b vs h e
        right_state.old.locals.items right_state.old.log)
        → IfOk result (λ e. RunsTo S (or_else a b) vs h e locals.new.items log.new) }
{
    match left_end? {
        Outcome::Returned(v) => {
            left_state.log.keep()?;
            left_state.swap(locals, log);
            Ok(Outcome::Returned(v))
        }
        Outcome::Threw(f) => {
            left_state.log.discard();
            left_state.swap(locals, log);
            Ok(Outcome::Threw(f))
        }
        Outcome::Retried => {
            let end = right_end?;
            right_state.log.join_reads(&left_state.log)?;
            right_state.swap(locals, log);
            Ok(end)
        }
    }
}

impl BranchState {
    /// Gives its locals and its log for these.
    fn swap(&mut self, locals: &mut Vec<Value>, log: &mut Log)
        ensures locals { locals.new.items ≡ self.old.locals.items }
        ensures log { log.new ≡ self.old.log }
    {
        mem::swap(&mut self.locals, locals);
        mem::swap(&mut self.log, log);
    }
}

/// Runs an action that is a whole block; its locals are its own.
fn run_whole_forked<R: Threads + Sync>(
    rt: &R,
    alloc: Global,
    frozen: &Frozen,
    action: &Action,
    log: &mut Log,
    levels: u32,
) -> Result<Outcome, NoMemory>
    requires { CanRun (cell_value frozen.now) (act_of action.now) [] log.old }
    ensures { IfOk result (λ e. RunsTo (cell_value frozen.now) (act_of action.now)
        [] log.old e [] log.new) }
{
    let mut locals = Vec::new(alloc);
    walk(rt, alloc, frozen, action, &mut locals, log, levels)
}

/// The verdict of a block on a store that has the variables which it names, and what it reads there.
fn try_forked<R: Threads + Sync>(
    rt: &R,
    alloc: Global,
    frozen: &Frozen,
    block: &Typed,
    levels: u32,
) -> Result<(Verdict, Reads), NoMemory>
    requires { Covers frozen.now block.now.uses }
    ensures verdict { IfOk result (λ r. verdict (cell_value frozen.now) block.now.tree ≡ Some r.0) }
    ensures reads { IfOk result (λ r. r.1 ≡ reads_of (cell_value frozen.now) block.now.tree) }
{
    // The store and the block are known to be well typed by these.
    let _cells = frozen.len();
    let action = block.action();
    let mut log = Log::start(alloc);
    let end = run_whole_forked(rt, alloc, frozen, action, &mut log, levels)?;
    let ends = log.finish()?;
    Ok(judged(ends, end))
}

/// As `evaluate`, with both branches of an `orElse` at once, by threads, `levels` deep. The right branch's verdict and reads
/// count only if the left one retried.
///
/// No clause says the rest: the right branch's lack of memory counts only then, too; if the log and the locals can't be copied,
/// or a thread can't be started, one branch runs after the other; with no levels no thread is started.
pub fn evaluate_forked<R: Threads + Sync>(
    rt: &R,
    alloc: Global,
    job: Job,
    frozen: &Frozen,
    levels: u32,
) -> Result<Evaluated, (Job, NoMemory)>
    requires levels { levels ≤ max_levels }
    requires covered { Covers frozen.now job.block.uses }
    ensures { AnswersJob job frozen.now result }
{
    match try_forked(rt, alloc, frozen, job.block.block(), levels) {
        Ok((verdict, reads)) => Ok(Evaluated::of(job, reads, verdict)),
        Err(refused) => Err((job, refused)),
    }
}
