//! What the values and the cells of a verdict become in a store.

ghost use Rattle.std.specs.Prelude.{◌≡◌};
ghost use Rattle.stm_store.specs.Cells.{renumbered, rewritten, new_cell};
ghost use Rattle.stm_store.specs.FreshReferences.{HasNumber};

use crate::cell::Cell;
use stm_terms::kinds::Ty;
use stm_terms::values::{Ref, Value};

/// A value with its new references as variables of a store that had this many cells.
pub(crate) fn renumber(len: u32, value: Value) -> Value
    requires { HasNumber len value }
    ensures { result ≡ renumbered len value }
{
    match value {
        Value::Var(Ref::New(k)) => Value::Var(Ref::Old(len + k)),
        value => value,
    }
}

/// A cell that a value is written to.
pub(crate) fn rewrite(len: u32, value: Value, cell: Cell) -> Cell
    requires { HasNumber len value }
    ensures { result ≡ rewritten len value cell }
{
    cell.written(renumber(len, value))
}

/// A new cell, which no block has written.
pub(crate) fn make(len: u32, kind: Ty, value: Value) -> Cell
    requires { HasNumber len value }
    ensures { result ≡ new_cell len (kind, value) }
{
    Cell {
        kind,
        value: renumber(len, value),
        count: 0,
    }
}
