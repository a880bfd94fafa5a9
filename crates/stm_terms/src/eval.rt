//! The value of an expression.

ghost use Rattle.std.specs.Prelude.{◌≡◌, ◌≢◌, Some, None};
ghost use Rattle.stm_terms.specs.Ast.{term_of};
ghost use Rattle.stm_terms.specs.Value.{value, decides, apply_op};
ghost use Rattle.stm_terms.specs.OverflowArithmetic.{int_or_overflow};

use crate::expr::{Expr, Op};
use crate::values::{Fault, Ref, Value};

/// The value of an expression that has a meaning under these locals, or its overflow.
///
/// `&&` and `||` skip the right side if the left one decides.
pub fn eval_expr(expr: &Expr, locals: &[Value]) -> Result<Value, Fault>
    requires { value (term_of expr.now) locals.now ≢ None }
    ensures { value (term_of expr.now) locals.now ≡ Some result }
{
    match expr {
        Expr::Lit(v) => Ok(*v),
        Expr::Local(i) => Ok(locals[*i as usize]),
        Expr::Global(i) => Ok(Value::Var(Ref::Old(*i))),
        Expr::Bin(op, left, right) => {
            let first = eval_expr(left, locals)?;
            if left_decides(*op, first) {
                Ok(first)
            } else {
                apply(*op, first, eval_expr(right, locals)?)
            }
        }
    }
}

/// Whether the left side gives the value alone.
fn left_decides(op: Op, left: Value) -> bool
    ensures { result ≡ decides op left }
{
    match (op, left) {
        (Op::And, Value::Bool(b)) => !b,
        (Op::Or, Value::Bool(b)) => b,
        _ => false,
    }
}

/// The value of an operator at two values that it takes.
fn apply(op: Op, left: Value, right: Value) -> Result<Value, Fault>
    requires { apply_op op left right ≢ None }
    ensures { apply_op op left right ≡ Some result }
{
    match (op, left, right) {
        (Op::Mul, Value::Int(x), Value::Int(y)) => whole(x.checked_mul(y)),
        (Op::Add, Value::Int(x), Value::Int(y)) => whole(x.checked_add(y)),
        (Op::Sub, Value::Int(x), Value::Int(y)) => whole(x.checked_sub(y)),
        (Op::Lt, Value::Int(x), Value::Int(y)) => Ok(Value::Bool(x < y)),
        (Op::Le, Value::Int(x), Value::Int(y)) => Ok(Value::Bool(x <= y)),
        (Op::And, Value::Bool(x), Value::Bool(y)) => Ok(Value::Bool(x && y)),
        (Op::Or, Value::Bool(x), Value::Bool(y)) => Ok(Value::Bool(x || y)),
        (Op::Eq, x, y) => Ok(Value::Bool(x == y)),
        _ => unreachable!(),
    }
}

/// A number that was in range, or an overflow.
fn whole(n: Option<i64>) -> Result<Value, Fault>
    ensures { result ≡ int_or_overflow n }
{
    match n {
        Some(n) => Ok(Value::Int(n)),
        None => Err(Fault::Overflow),
    }
}
