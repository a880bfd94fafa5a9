//! Whether a value is of a type, and whether cells have values of their types.

ghost use Rattle.std.specs.Prelude.{◌≡◌, []};
ghost use Rattle.stm_terms.specs.Typing.{same_ty, var_ty};
ghost use Rattle.stm_store.specs.Cells.{kinds_of, plains};
ghost use Rattle.stm_store.specs.FitsDecision.{has_type, making, news_fit};

use crate::cell::Cell;
use stm_terms::kinds::{Base, Ty};
use stm_terms::values::{Ref, Value};

/// The type of values that refer to nothing.
pub(crate) fn plain_type(base: Base) -> Ty
    ensures { result ≡ record { base = base; refs = 0 } }
{
    Ty { base, refs: 0 }
}

/// Whether `kind` is the type of references to cells of the type `inner`.
pub(crate) fn refers_to(inner: Ty, kind: Ty) -> bool
    ensures { result ≡ same_ty (var_ty inner) kind }
{
    inner.base == kind.base && kind.refs > 0 && inner.refs == kind.refs - 1
}

/// Whether each of these cells has a value of its type, which has at most 8 `TVar`.
pub(crate) fn are_typed(cells: &[Cell]) -> bool
    ensures { result ≡ news_fit (kinds_of (plains cells.now)) (making []) (plains cells.now) }
{
    for cell in cells {
        if !(cell.kind.refs <= Ty::MOST_REFS && has_type(cells, cell.value, cell.kind)) {
            return false;
        }
    }
    true
}

/// Whether the value is of the type, where these are the cells.
fn has_type(cells: &[Cell], value: Value, kind: Ty) -> bool
    ensures { result ≡ has_type (kinds_of (plains cells.now)) (making []) value kind }
{
    match value {
        Value::Int(_) => plain_type(Base::Int) == kind,
        Value::Bool(_) => plain_type(Base::Bool) == kind,
        Value::Unit => plain_type(Base::Unit) == kind,
        Value::Var(Ref::Old(id)) => match kind_of(cells, id) {
            Some(inner) => refers_to(inner, kind),
            None => false,
        },
        Value::Var(Ref::New(_)) => false,
    }
}

/// The type of the cell of this number, if it exists.
fn kind_of(cells: &[Cell], id: u32) -> Option<Ty>
    ensures { result ≡ kinds_of (plains cells.now) id }
{
    cells.get(id as usize).map(|c| c.kind)
}
