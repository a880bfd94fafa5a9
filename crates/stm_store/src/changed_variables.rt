//! Which variables a verdict changes.

ghost use Rattle.std.specs.Prelude.{◌≡◌, ◌++◌, ◌≤◌, length, map, filter, slice_get, IfOk, OnOk};
ghost use Rattle.stm_terms.specs.declared.values.Ref.TheVariants.{Old as OldRef};
ghost use Rattle.stm_terms.specs.declared.values.Value.TheVariants.{Var as Variable};
ghost use Rattle.stm_terms.specs.Value.{same_value};
ghost use Rattle.stm_store.specs.Cells.{most_cells, renumbered, changes_value, changed_by};

use crate::cell_list::CellList;
use stm_terms::NoMemory;
use stm_terms::values::{Ref, Value};
use stm_terms::verdicts::Verdict;

fn is_same(one: Value, other: Value) -> bool
    ensures { result ≡ same_value one other }
{
    one == other
}

/// Whether the value is the variable of this number.
fn is_variable(id: u64, value: Value) -> bool
    ensures { result ≡ same_value (Variable (OldRef id)) value }
{
    match value {
        Value::Var(Ref::Old(held)) => id == held as u64,
        _ => false,
    }
}

/// Whether a value, with its new reference as a variable of a store that had this many cells, is the one that is held.
fn is_held(len: u32, value: Value, held: Value) -> bool
    ensures { result ≡ same_value (renumbered len value) held }
{
    match value {
        Value::Var(Ref::New(k)) => is_variable(len as u64 + k as u64, held),
        value => is_same(value, held),
    }
}

/// Whether the variable exists and this write changes its value.
fn changes(cells: &CellList, len: u32, id: u32, value: Value) -> bool
    ensures { result ≡ changes_value len (slice_get cells.now id) value }
{
    let id = id as usize;
    if id >= cells.len() {
        return false;
    }
    let held = cells.get(id).value;
    !is_held(len, value, held)
}

fn push_changed(
    changed: &mut Vec<u32>,
    cells: &CellList,
    len: u32,
    writes: &[(u32, Value)],
) -> Result<(), NoMemory>
    ensures { OnOk result (changed.new.items
        ≡ changed.old.items
        ++ map (λ w. w.0)
        (filter (λ w. changes_value len (slice_get cells.now w.0) w.1) writes.now)) }
{
    for (variable, value) in writes {
        if changes(cells, len, *variable, *value) {
            changed.push(*variable)?;
        }
    }
    Ok(())
}

/// The variables that a verdict changes, in the order in which it writes them.
pub(crate) fn changed_variables(cells: &CellList, verdict: &Verdict) -> Result<Vec<u32>, NoMemory>
    requires { length cells.now ≤ most_cells }
    ensures { IfOk result (λ vs. vs.items ≡ changed_by cells.now verdict.now) }
{
    let mut changed = Vec::new(cells.allocator());
    match verdict {
        Verdict::Commits { writes, .. } => {
            let len = cells.len() as u32;
            push_changed(&mut changed, cells, len, writes.as_slice())?;
            Ok(changed)
        }
        _ => Ok(changed),
    }
}
