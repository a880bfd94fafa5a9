//! The actions that have no actions in them, run on the log.

ghost use Rattle.std.specs.Prelude.{◌≡◌, ◌≢◌, ◌+◌, ◌≤◌, ◌<◌, ◌^◌, length, OnOk, IfOk};
ghost use Rattle.stm_terms.specs.Ast.{term_of, return, read, write, make, throw};
ghost use Rattle.stm_terms.specs.Changes.{cell_value};
ghost use Rattle.stm_terms.specs.Semantics.{run, Stuck};
ghost use Rattle.stm_terms.specs.ReadSet.{looks, insert_reads};
ghost use Rattle.stm_eval.specs.InterpreterSteps.{outcome};

use crate::outcome::Outcome;
use stm_log::Log;
use stm_store::Frozen;
use stm_terms::NoMemory;
use stm_terms::eval::eval_expr;
use stm_terms::expr::Expr;
use stm_terms::kinds::Ty;
use stm_terms::values::{Fault, Value};

/// `return value`.
pub(crate) fn run_return(frozen: &Frozen, value: &Expr, locals: &[Value], log: &Log) -> Outcome
    requires { run (cell_value frozen.now) (return (term_of value.now))
        locals.now log.now.top ≢ Stuck }
    ensures { run (cell_value frozen.now) (return (term_of value.now)) locals.now log.now.top
        ≡ outcome result log.now.top }
{
    match eval_expr(value, locals) {
        Ok(v) => Outcome::Returned(v),
        Err(f) => Outcome::Threw(f),
    }
}

/// `readTVar at`.
pub(crate) fn run_read(
    frozen: &Frozen,
    at: &Expr,
    locals: &[Value],
    log: &mut Log,
) -> Result<Outcome, NoMemory>
    requires { run (cell_value frozen.now) (read (term_of at.now)) locals.now log.old.top ≢ Stuck }
    ensures outcome { IfOk result (λ e.
        run (cell_value frozen.now) (read (term_of at.now)) locals.now log.old.top
        ≡ outcome e log.new.top) }
    ensures reads { OnOk result (log.new.reads
        ≡ insert_reads (cell_value frozen.now)
        (looks (cell_value frozen.now) (read (term_of at.now)) locals.now log.old.top)
        log.old.reads) }
    ensures made { OnOk result (length log.new.top.news ≡ length log.old.top.news) }
    ensures below { OnOk result (log.new.below ≡ log.old.below) }
{
    match eval_expr(at, locals) {
        Ok(Value::Var(r)) => Ok(Outcome::Returned(log.read(frozen, r)?)),
        Ok(_) => unreachable!(),
        Err(f) => Ok(Outcome::Threw(f)),
    }
}

/// `writeTVar at value`.
pub(crate) fn run_write(
    frozen: &Frozen,
    at: &Expr,
    value: &Expr,
    locals: &[Value],
    log: &mut Log,
) -> Result<Outcome, NoMemory>
    requires { run (cell_value frozen.now) (write (term_of at.now) (term_of value.now))
        locals.now log.old.top ≢ Stuck }
    ensures outcome { IfOk result (λ e.
        run (cell_value frozen.now) (write (term_of at.now) (term_of value.now))
        locals.now log.old.top
        ≡ outcome e log.new.top) }
    ensures reads { OnOk result (log.new.reads ≡ log.old.reads) }
    ensures made { OnOk result (length log.new.top.news ≡ length log.old.top.news) }
    ensures below { OnOk result (log.new.below ≡ log.old.below) }
{
    match eval_expr(at, locals) {
        Ok(w) => match eval_expr(value, locals) {
            Ok(v) => match w {
                Value::Var(r) => {
                    log.write(r, v)?;
                    Ok(Outcome::Returned(Value::Unit))
                }
                _ => unreachable!(),
            },
            Err(f) => Ok(Outcome::Threw(f)),
        },
        Err(f) => Ok(Outcome::Threw(f)),
    }
}

/// `newTVar value`, a cell of this type.
pub(crate) fn run_make(
    frozen: &Frozen,
    kind: Ty,
    value: &Expr,
    locals: &[Value],
    log: &mut Log,
) -> Result<Outcome, NoMemory>
    requires defined { run (cell_value frozen.now) (make kind (term_of value.now))
        locals.now log.old.top ≢ Stuck }
    requires room { length log.old.top.news < 2 ^ 32 }
    ensures outcome { IfOk result (λ e.
        run (cell_value frozen.now) (make kind (term_of value.now)) locals.now log.old.top
        ≡ outcome e log.new.top) }
    ensures reads { OnOk result (log.new.reads ≡ log.old.reads) }
    ensures made { OnOk result (length log.new.top.news ≤ length log.old.top.news + 1) }
    ensures below { OnOk result (log.new.below ≡ log.old.below) }
{
    match eval_expr(value, locals) {
        Ok(v) => Ok(Outcome::Returned(Value::Var(log.make(kind, v)?))),
        Err(f) => Ok(Outcome::Threw(f)),
    }
}

/// `throw number`.
pub(crate) fn run_throw(frozen: &Frozen, number: &Expr, locals: &[Value], log: &Log) -> Outcome
    requires { run (cell_value frozen.now) (throw (term_of number.now))
        locals.now log.now.top ≢ Stuck }
    ensures { run (cell_value frozen.now) (throw (term_of number.now)) locals.now log.now.top
        ≡ outcome result log.now.top }
{
    match eval_expr(number, locals) {
        Ok(Value::Int(n)) => Outcome::Threw(Fault::Thrown(n)),
        Ok(_) => unreachable!(),
        Err(f) => Outcome::Threw(f),
    }
}
