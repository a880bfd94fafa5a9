//! A cell of a store.

ghost use Rattle.std.specs.Prelude.{◌≡◌, if◌then◌else◌};
ghost use Rattle.stm_terms.specs.Value.{same_value};
ghost use Rattle.stm_store.specs.Cells.{counted};

use stm_terms::kinds::Ty;
use stm_terms::values::Value;

/// A variable's type, its value, and how many finished blocks changed it; the count stays at its greatest value.
#[derive(Clone, Copy, PartialEq, Eq, Debug)]
pub struct Cell {
    pub kind: Ty,
    pub value: Value,
    pub count: u64,
}

impl Cell {
    /// The cell after one more block has written this value. The write is counted if it changes the value.
    pub fn written(self, value: Value) -> Cell
        ensures kind { result.kind ≡ self.kind }
        ensures value { result.value ≡ value }
        ensures count { result.count
            ≡ (if same_value value self.value then self.count else counted self.count) }
    {
        if value == self.value {
            self
        } else {
            Cell {
                kind: self.kind,
                value,
                count: self.count.saturating_add(1),
            }
        }
    }
}
