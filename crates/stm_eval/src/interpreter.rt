//! One action after another, on the log.
//!
//! A long `do` is walked by a loop, one step at a time. A step calls the evaluator again for the first part of a
//! statement, for the left branch of `orElse` and for the action of `catch`, so the stack grows with the depth of a block
//! and not with its length.

ghost use Rattle.std.specs.Prelude.{◌≡◌, ◌≢◌, ◌+◌, ◌<◌, ◌≤◌, ◌^◌, [], length, take, OnOk, IfOk};
ghost use Rattle.stm_terms.specs.Ast.{act_of, term_of, if_else, or_else, bind, let_in, seq, catch};
ghost use Rattle.stm_terms.specs.Changes.{cell_value};
ghost use Rattle.stm_terms.specs.Semantics.{run, Stuck};
ghost use Rattle.stm_terms.specs.ReadSet.{looks, insert_reads};
ghost use Rattle.stm_terms.specs.Typing.{makes};
ghost use Rattle.stm_eval.specs.BothBranches.{AllBranchesDefined, DefinedLeft};
ghost use Rattle.stm_eval.specs.InterpreterSteps.{outcome, outcome_left, looks_left, makes_left, size, size_left, StepsTo};
ghost use Rattle.stm_eval.specs.NestedFrames.{AfterLeft, AfterAction};

use crate::outcome::{Outcome, Step};
use crate::primitives::{run_make, run_read, run_return, run_throw, run_write};
use stm_log::Log;
use stm_store::Frozen;
use stm_terms::NoMemory;
use stm_terms::action::Action;
use stm_terms::eval::eval_expr;
use stm_terms::expr::Expr;
use stm_terms::values::{Fault, Value};

/// Runs an action on a log. The log's other frames and the locals are left as they were.
#[cycle(evaluate)]
pub(crate) fn evaluate(
    frozen: &Frozen,
    action: &Action,
    locals: &mut Vec<Value>,
    log: &mut Log,
) -> Result<Outcome, NoMemory>
    requires defined { run (cell_value frozen.now) (act_of action.now)
        locals.old.items log.old.top ≢ Stuck }
    requires room { length log.old.top.news + makes (act_of action.now) ≤ 2 ^ 32 }
    ensures outcome { IfOk result (λ e.
        run (cell_value frozen.now) (act_of action.now) locals.old.items log.old.top
        ≡ outcome e log.new.top) }
    ensures reads { OnOk result (log.new.reads
        ≡ insert_reads (cell_value frozen.now)
        (looks (cell_value frozen.now) (act_of action.now) locals.old.items log.old.top)
        log.old.reads) }
    ensures made { OnOk result (
        length log.new.top.news ≤ length log.old.top.news + makes (act_of action.now)) }
    ensures below { OnOk result (log.new.below ≡ log.old.below) }
    ensures locals { OnOk result (locals.new.items ≡ locals.old.items) }
{
    let outer = locals.len();
    let mut rest = action;
    loop {
        match step(frozen, rest, locals, log)? {
            Step::On(next) => rest = next,
            Step::Ended(end) => {
                locals.truncate(outer);
                return Ok(end);
            }
        }
    }
}

/// One step of an action. Locals are added if the rest has more of them.
#[cycle(evaluate)]
fn step<'a>(
    frozen: &Frozen,
    action: &'a Action,
    locals: &mut Vec<Value>,
    log: &mut Log,
) -> Result<Step<'a>, NoMemory>
    requires defined { run (cell_value frozen.now) (act_of action.now)
        locals.old.items log.old.top ≢ Stuck }
    requires room { length log.old.top.news + makes (act_of action.now) ≤ 2 ^ 32 }
    ensures steps { IfOk result (λ s. StepsTo (cell_value frozen.now) (act_of action.now)
        locals.old.items log.old s locals.new.items log.new) }
    ensures locals { OnOk result (
        take (length locals.old.items) locals.new.items ≡ locals.old.items) }
    ensures smaller { IfOk result (λ s. size_left s < size (act_of action.now)) }
{
    match action {
        Action::Return(e) => Ok(Step::Ended(run_return(frozen, e, locals, log))),
        Action::Read(at) => Ok(Step::Ended(run_read(frozen, at, locals, log)?)),
        Action::Write(at, e) => Ok(Step::Ended(run_write(frozen, at, e, locals, log)?)),
        Action::Make(kind, e) => Ok(Step::Ended(run_make(frozen, *kind, e, locals, log)?)),
        Action::Retry => Ok(Step::Ended(Outcome::Retried)),
        Action::Throw(e) => Ok(Step::Ended(run_throw(frozen, e, locals, log))),
        Action::If(e, a, b) => Ok(run_choice(frozen, e, a, b, locals, log)),
        Action::OrElse(a, b) => run_left(frozen, a, b, locals, log),
        Action::Bind(a, b) => run_bound(frozen, a, b, locals, log),
        Action::Let(e, b) => run_let(frozen, e, b, locals, log),
        Action::Seq(a, b) => run_first(frozen, a, b, locals, log),
        Action::Catch(a, b) => run_caught(frozen, a, b, locals, log),
    }
}

/// `if`: the branch that the condition chooses is left to be run.
pub(crate) fn run_choice<'a>(
    frozen: &Frozen,
    condition: &Expr,
    first: &'a Action,
    second: &'a Action,
    locals: &[Value],
    log: &Log,
) -> Step<'a>
    requires { run (cell_value frozen.now)
        (if_else (term_of condition.now) (act_of first.now) (act_of second.now))
        locals.now log.now.top ≢ Stuck }
    ensures outcome { run (cell_value frozen.now)
        (if_else (term_of condition.now) (act_of first.now) (act_of second.now))
        locals.now log.now.top
        ≡ outcome_left (cell_value frozen.now) result locals.now log.now.top }
    ensures reads { looks (cell_value frozen.now)
        (if_else (term_of condition.now) (act_of first.now) (act_of second.now))
        locals.now log.now.top
        ≡ looks_left (cell_value frozen.now) result locals.now log.now.top }
    ensures made { makes_left result ≤ makes (act_of first.now) + makes (act_of second.now) }
    ensures smaller { size_left result ≤ size (act_of first.now) + size (act_of second.now) }
    ensures defined { AllBranchesDefined (cell_value frozen.now)
        (if_else (term_of condition.now) (act_of first.now) (act_of second.now))
        locals.now log.now.top
        → DefinedLeft (cell_value frozen.now) result locals.now log.now.top }
{
    match eval_expr(condition, locals) {
        Ok(Value::Bool(true)) => Step::On(first),
        Ok(Value::Bool(false)) => Step::On(second),
        Ok(_) => unreachable!(),
        Err(f) => Step::Ended(Outcome::Threw(f)),
    }
}

/// `let`: the rest is left to be run, with one more local.
pub(crate) fn run_let<'a>(
    frozen: &Frozen,
    value: &Expr,
    rest: &'a Action,
    locals: &mut Vec<Value>,
    log: &Log,
) -> Result<Step<'a>, NoMemory>
    requires { run (cell_value frozen.now) (let_in (term_of value.now) (act_of rest.now))
        locals.old.items log.now.top ≢ Stuck }
    ensures outcome { IfOk result (λ s.
        run (cell_value frozen.now) (let_in (term_of value.now) (act_of rest.now))
        locals.old.items log.now.top
        ≡ outcome_left (cell_value frozen.now) s locals.new.items log.now.top) }
    ensures reads { IfOk result (λ s.
        looks (cell_value frozen.now) (let_in (term_of value.now) (act_of rest.now))
        locals.old.items log.now.top
        ≡ looks_left (cell_value frozen.now) s locals.new.items log.now.top) }
    ensures made { IfOk result (λ s. makes_left s ≤ makes (act_of rest.now)) }
    ensures locals { OnOk result (
        take (length locals.old.items) locals.new.items ≡ locals.old.items) }
    ensures smaller { IfOk result (λ s. size_left s ≤ size (act_of rest.now)) }
    ensures defined { IfOk result (λ s.
        AllBranchesDefined (cell_value frozen.now) (let_in (term_of value.now) (act_of rest.now))
        locals.old.items log.now.top
        → DefinedLeft (cell_value frozen.now) s locals.new.items log.now.top) }
{
    match eval_expr(value, locals) {
        Ok(v) => {
            locals.push(v)?;
            Ok(Step::On(rest))
        }
        Err(f) => Ok(Step::Ended(Outcome::Threw(f))),
    }
}

/// A statement that binds a name: the rest is left to be run, with one more local, if the statement returned.
#[cycle(evaluate)]
fn run_bound<'a>(
    frozen: &Frozen,
    bound: &Action,
    rest: &'a Action,
    locals: &mut Vec<Value>,
    log: &mut Log,
) -> Result<Step<'a>, NoMemory>
    requires defined { run (cell_value frozen.now) (bind (act_of bound.now) (act_of rest.now))
        locals.old.items log.old.top ≢ Stuck }
    requires room { length log.old.top.news + makes (act_of bound.now) ≤ 2 ^ 32 }
    ensures steps { IfOk result (λ s. StepsTo (cell_value frozen.now)
        (bind (act_of bound.now) (act_of rest.now))
        locals.old.items log.old s locals.new.items log.new) }
    ensures locals { OnOk result (
        take (length locals.old.items) locals.new.items ≡ locals.old.items) }
    ensures smaller { IfOk result (λ s. size_left s ≤ size (act_of rest.now)) }
{
    match evaluate(frozen, bound, locals, log)? {
        Outcome::Returned(v) => {
            locals.push(v)?;
            Ok(Step::On(rest))
        }
        end => Ok(Step::Ended(end)),
    }
}

/// A statement whose result is dropped: the rest is left to be run if the statement returned.
#[cycle(evaluate)]
fn run_first<'a>(
    frozen: &Frozen,
    first: &Action,
    rest: &'a Action,
    locals: &mut Vec<Value>,
    log: &mut Log,
) -> Result<Step<'a>, NoMemory>
    requires defined { run (cell_value frozen.now) (seq (act_of first.now) (act_of rest.now))
        locals.old.items log.old.top ≢ Stuck }
    requires room { length log.old.top.news + makes (act_of first.now) ≤ 2 ^ 32 }
    ensures steps { IfOk result (λ s. StepsTo (cell_value frozen.now)
        (seq (act_of first.now) (act_of rest.now))
        locals.old.items log.old s locals.new.items log.new) }
    ensures locals { OnOk result (locals.new.items ≡ locals.old.items) }
    ensures smaller { IfOk result (λ s. size_left s ≤ size (act_of rest.now)) }
{
    match evaluate(frozen, first, locals, log)? {
        Outcome::Returned(_) => Ok(Step::On(rest)),
        end => Ok(Step::Ended(end)),
    }
}

/// The left branch of `orElse`, in a frame of its own. The right branch is left to be run if it retried, from the view
/// before it; what it read stays.
#[cycle(evaluate)]
fn run_left<'a>(
    frozen: &Frozen,
    left: &Action,
    right: &'a Action,
    locals: &mut Vec<Value>,
    log: &mut Log,
) -> Result<Step<'a>, NoMemory>
    requires defined { run (cell_value frozen.now) (act_of left.now)
        locals.old.items log.old.top ≢ Stuck }
    requires room { length log.old.top.news + makes (act_of left.now) ≤ 2 ^ 32 }
    ensures steps { IfOk result (λ s. StepsTo (cell_value frozen.now)
        (or_else (act_of left.now) (act_of right.now))
        locals.old.items log.old s locals.new.items log.new) }
    ensures locals { OnOk result (locals.new.items ≡ locals.old.items) }
    ensures smaller { IfOk result (λ s. size_left s ≤ size (act_of right.now)) }
{
    log.enter()?;
    let end = evaluate(frozen, left, locals, log)?;
    after_left(end, right, log)
}

/// What is left of an `orElse` whose left branch ended so, in a frame of its own.
fn after_left<'a>(end: Outcome, right: &'a Action, log: &mut Log) -> Result<Step<'a>, NoMemory>
    requires { log.old.below ≢ [] }
    ensures goes_on { IfOk result (λ s. AfterLeft end (act_of right.now) log.old s log.new) }
    ensures smaller { IfOk result (λ s. size_left s ≤ size (act_of right.now)) }
{
    match end {
        Outcome::Returned(v) => {
            log.keep()?;
            Ok(Step::Ended(Outcome::Returned(v)))
        }
        Outcome::Threw(f) => {
            log.discard();
            Ok(Step::Ended(Outcome::Threw(f)))
        }
        Outcome::Retried => {
            log.discard();
            Ok(Step::On(right))
        }
    }
}

/// The action of a `catch`, in a frame of its own. The handler is left to be run if the action threw a number, with that
/// as one more local, from the view before it; what the action read stays.
#[cycle(evaluate)]
fn run_caught<'a>(
    frozen: &Frozen,
    action: &Action,
    handler: &'a Action,
    locals: &mut Vec<Value>,
    log: &mut Log,
) -> Result<Step<'a>, NoMemory>
    requires defined { run (cell_value frozen.now) (act_of action.now)
        locals.old.items log.old.top ≢ Stuck }
    requires room { length log.old.top.news + makes (act_of action.now) ≤ 2 ^ 32 }
    ensures steps { IfOk result (λ s. StepsTo (cell_value frozen.now)
        (catch (act_of action.now) (act_of handler.now))
        locals.old.items log.old s locals.new.items log.new) }
    ensures locals { OnOk result (
        take (length locals.old.items) locals.new.items ≡ locals.old.items) }
    ensures smaller { IfOk result (λ s. size_left s ≤ size (act_of handler.now)) }
{
    log.enter()?;
    let end = evaluate(frozen, action, locals, log)?;
    after_action(end, handler, locals, log)
}

/// What is left of a `catch` whose action ended so, in a frame of its own.
pub(crate) fn after_action<'a>(
    end: Outcome,
    handler: &'a Action,
    locals: &mut Vec<Value>,
    log: &mut Log,
) -> Result<Step<'a>, NoMemory>
    requires { log.old.below ≢ [] }
    ensures goes_on { IfOk result (λ s. AfterAction end (act_of handler.now)
        locals.old.items log.old s locals.new.items log.new) }
    ensures locals { OnOk result (
        take (length locals.old.items) locals.new.items ≡ locals.old.items) }
    ensures smaller { IfOk result (λ s. size_left s ≤ size (act_of handler.now)) }
{
    match end {
        Outcome::Returned(v) => {
            log.keep()?;
            Ok(Step::Ended(Outcome::Returned(v)))
        }
        Outcome::Threw(Fault::Thrown(n)) => {
            log.discard();
            locals.push(Value::Int(n))?;
            Ok(Step::On(handler))
        }
        end => {
            log.discard();
            Ok(Step::Ended(end))
        }
    }
}
