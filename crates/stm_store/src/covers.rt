//! Whether a store has the variables that a block names.

ghost use Rattle.std.specs.Prelude.{◌≡◌};
ghost use Rattle.stm_store.specs.Cells.{kinds_of, plains};
ghost use Rattle.stm_store.specs.FitsDecision.{covers_all};

use crate::cell_list::CellList;
use stm_terms::kinds::Ty;

/// The type of a variable, if it exists.
pub(crate) fn kind_at(cells: &CellList, id: u32) -> Option<Ty>
    ensures { result ≡ kinds_of (plains cells.now) id }
{
    if (id as usize) < cells.len() {
        Some(cells.get(id as usize).kind)
    } else {
        None
    }
}

/// Whether all of these variables exist with these types.
pub(crate) fn covers(cells: &CellList, uses: &[(u32, Ty)]) -> bool
    ensures { result ≡ covers_all (plains cells.now) uses.now }
{
    for (id, kind) in uses {
        match kind_at(cells, *id) {
            Some(there) if there == *kind => {}
            _ => return false,
        }
    }
    true
}
