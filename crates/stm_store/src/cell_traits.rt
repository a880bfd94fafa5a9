//! What a list of cells is, and what a page of a longer one is.

ghost use Rattle.std.specs.Prelude.{◌≡◌, ℕ, ◌<◌, ◌^◌, List, [], ◌∷◌, ◌++◌, Some, length, slice_get, slice_set, IfOk, OnOk, OnErr};
ghost use Rattle.stm_store.specs.declared.cell.Cell.{Cell as AnyCell};

use crate::cell::Cell;
use std::alloc::{AllocError, Global};

/// A list of cells.
pub(crate) trait Cells: Clone + Drop {
    ghost cells: { Self → List AnyCell };

    fn get(&self, id: usize) -> Cell
        requires { id < length (cells self.now) }
        ensures { slice_get (cells self.now) id ≡ Some result };

    /// Changes a cell.
    fn set(&mut self, id: usize, cell: Cell) -> Result<(), AllocError>
        requires { id < length (cells self.old) }
        ensures ok { OnOk result (cells self.new ≡ slice_set (cells self.old) id cell) }
        ensures err { OnErr result (cells self.new ≡ cells self.old) };

    /// Adds a cell at the end.
    fn push(&mut self, cell: Cell) -> Result<(), AllocError>
        requires { length (cells self.old) < 2 ^ 32 }
        ensures ok { OnOk result (cells self.new ≡ cells self.old ++ cell ∷ []) }
        ensures err { OnErr result (cells self.new ≡ cells self.old) };

    // a copy has the same cells
    ghost copied: { (l m : Self) → Self.is_clone l m → cells m ≡ cells l };
}

/// A list of cells that serves as a page of a longer one.
pub(crate) trait AsPage: Cells {
    /// How many cells a full page has.
    const SIZE: usize;

    ghost SIZE: { ℕ };

    /// A page of one cell.
    fn of(alloc: Global, cell: Cell) -> Result<Self, AllocError>
        ensures { IfOk result (λ p. Self.cells p ≡ cell ∷ []) };

    // a page has room for a cell
    ghost room: { 0 < SIZE };
}
