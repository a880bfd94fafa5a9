//! Whether a verdict can be applied to a store.

ghost use Rattle.std.specs.Prelude.{◌≡◌, is_some};
ghost use Rattle.stm_terms.specs.Typing.{type_of, kind_of};
ghost use Rattle.stm_store.specs.Cells.{kinds_of, plains};
ghost use Rattle.stm_store.specs.FitsDecision.{has_type, rise_from, making, writes_fit, news_fit, fits_decision};

use crate::cell_list::CellList;
use crate::covers::kind_at;
use crate::types::{plain_type, refers_to};
use stm_terms::kinds::{Base, Ty};
use stm_terms::values::{Ref, Value};
use stm_terms::verdicts::Verdict;

/// Whether the verdict fits the cells.
pub(crate) fn fits(cells: &CellList, verdict: &Verdict) -> bool
    ensures { result ≡ fits_decision (plains cells.now) verdict.now }
{
    match verdict {
        Verdict::Commits {
            writes,
            news,
            result,
        } => {
            let writes = writes.as_slice();
            let news = news.as_slice();
            (rise(writes) && writes_hold(cells, news, writes))
                && (news_hold(cells, news) && exists(cells, news, *result))
        }
        _ => true,
    }
}

/// Whether the variables ascend, each once.
fn rise(writes: &[(u32, Value)]) -> bool
    ensures { result ≡ rise_from 0 writes.now }
{
    let mut least: u64 = 0;
    for (id, _) in writes {
        if (*id as u64) < least {
            return false;
        }
        least = *id as u64 + 1;
    }
    true
}

/// Whether each variable written exists and has the type of its new value.
fn writes_hold(cells: &CellList, news: &[(Ty, Value)], writes: &[(u32, Value)]) -> bool
    ensures { result ≡ writes_fit (kinds_of (plains cells.now)) (making news.now) writes.now }
{
    for (id, value) in writes {
        match kind_at(cells, *id) {
            Some(kind) if value_has(cells, news, *value, kind) => {}
            _ => return false,
        }
    }
    true
}

/// Whether each new cell has a value of its type, which has at most 8 `TVar`.
fn news_hold(cells: &CellList, news: &[(Ty, Value)]) -> bool
    ensures { result ≡ news_fit (kinds_of (plains cells.now)) (making news.now) news.now }
{
    for (kind, value) in news {
        if !(kind.refs <= Ty::MOST_REFS && value_has(cells, news, *value, *kind)) {
            return false;
        }
    }
    true
}

/// Whether the value has the type.
#[inline]
fn value_has(cells: &CellList, news: &[(Ty, Value)], value: Value, kind: Ty) -> bool
    ensures { result ≡ has_type (kinds_of (plains cells.now)) (making news.now) value kind }
{
    match value {
        Value::Int(_) => plain_type(Base::Int) == kind,
        Value::Bool(_) => plain_type(Base::Bool) == kind,
        Value::Unit => plain_type(Base::Unit) == kind,
        Value::Var(reference) => match kind_of_ref(cells, news, reference) {
            Some(inner) => refers_to(inner, kind),
            None => false,
        },
    }
}

/// Whether the value's reference, if it is one, is to a variable that exists.
fn exists(cells: &CellList, news: &[(Ty, Value)], value: Value) -> bool
    ensures { result ≡ is_some (type_of (kinds_of (plains cells.now)) (making news.now) value) }
{
    match value {
        Value::Var(reference) => kind_of_ref(cells, news, reference).is_some(),
        _ => true,
    }
}

/// The type of a cell that a verdict refers to, if it exists.
fn kind_of_ref(cells: &CellList, news: &[(Ty, Value)], reference: Ref) -> Option<Ty>
    ensures { result ≡ kind_of (kinds_of (plains cells.now)) (making news.now) reference }
{
    match reference {
        Ref::Old(id) => kind_at(cells, id),
        Ref::New(k) => news.get(k as usize).map(|c| c.0),
    }
}
