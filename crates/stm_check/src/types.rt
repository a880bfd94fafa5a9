//! Types of operators, references and branches.

ghost use Rattle.std.specs.Prelude.{◌≡◌, ◌<◌, ◌≤◌, Some, None, option_map};
ghost use Rattle.stm_terms.specs.Limits.{most_refs};
ghost use Rattle.stm_terms.specs.Typing.{var_ty, deref_ty, same_ty, join_types, result_type};
ghost use Rattle.stm_check.specs.CheckFunction.{wanted, given, as_wanted};

use stm_terms::expr::Op;
use stm_terms::kinds::{Base, Ty};

pub const INT: Ty = Ty {
    base: Base::Int,
    refs: 0,
};

pub const BOOL: Ty = Ty {
    base: Base::Bool,
    refs: 0,
};

pub const UNIT: Ty = Ty {
    base: Base::Unit,
    refs: 0,
};

/// Whether two types are equal.
pub fn same(t: Ty, u: Ty) -> bool
    ensures { result ≡ same_ty t u }
{
    let bases = match (t.base, u.base) {
        (Base::Int, Base::Int) => true,
        (Base::Bool, Base::Bool) => true,
        (Base::Unit, Base::Unit) => true,
        _ => false,
    };
    bases && t.refs == u.refs
}

/// The type of references to cells of a type.
pub fn reference_to(t: Ty) -> Ty
    requires { t.refs ≤ most_refs }
    ensures { result ≡ var_ty t }
{
    Ty {
        base: t.base,
        refs: t.refs + 1,
    }
}

/// The type of the cells that references of a type stand for.
pub fn inside(t: Ty) -> Option<Ty>
    ensures { result ≡ deref_ty t }
{
    if t.refs == 0 {
        None
    } else {
        Some(Ty {
            base: t.base,
            refs: t.refs - 1,
        })
    }
}

/// The type that both operands must have, if that is fixed.
pub fn wanted(op: Op) -> Option<Ty>
    ensures { result ≡ wanted op }
{
    match op {
        Op::Mul | Op::Add | Op::Sub | Op::Lt | Op::Le => Some(INT),
        Op::And | Op::Or => Some(BOOL),
        Op::Eq => None,
    }
}

/// The type of what an operator gives.
pub fn given(op: Op) -> Ty
    ensures { result ≡ given op }
{
    match op {
        Op::Mul | Op::Add | Op::Sub => INT,
        Op::Lt | Op::Le | Op::And | Op::Or | Op::Eq => BOOL,
    }
}

/// Whether a type is the one that is wanted, if one is.
pub fn as_wanted(wanted: Option<Ty>, t: Ty) -> bool
    ensures { result ≡ as_wanted wanted t }
{
    match wanted {
        Some(w) => same(t, w),
        None => true,
    }
}

/// What two branches have in common, or an action and its handler, with none for any type; the outer option is none if their types
/// differ.
pub fn join(first: Option<Ty>, second: Option<Ty>) -> Option<Option<Ty>>
    ensures { option_map result_type result
        ≡ join_types (result_type first) (result_type second) }
{
    match (first, second) {
        (None, r) => Some(r),
        (Some(t), None) => Some(Some(t)),
        (Some(t), Some(u)) => { if same(t, u) { Some(Some(t)) } else { None } }
    }
}
