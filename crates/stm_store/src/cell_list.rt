//! A list of cells, which its copies share.

ghost use Rattle.std.specs.Prelude.{◌≡◌, ◌<◌, ◌≤◌, ◌^◌, [], ◌∷◌, ◌++◌, Some, length, take, slice_get, IfOk, OnOk, OnErr};
ghost use Rattle.stm_terms.specs.Typing.{Rising};
ghost use Rattle.stm_store.specs.Cells.{with_writes};
ghost use Rattle.stm_store.specs.FreshReferences.{AreWritable};

use crate::cell::Cell;
use crate::cell_traits::Cells;
use crate::tree::Tree;
use std::alloc::{AllocError, Global};
use std::marker::Model;
use stm_terms::values::Value;

/// A list of cells in parts, whose last cells may be cut off again without taking memory: they stay after the end, and are
/// overwritten when the list grows.
#[derive(Drop)]
pub(crate) struct CellList {
    tree: Tree,
    len: usize,
}

impl Model for CellList {
    ghost use Rattle.std.specs.Prelude.{◌≤◌, List, length, take};
    ghost use Rattle.stm_store.specs.declared.cell.Cell.{Cell as AnyCell};

    ghost Value = { List AnyCell };

    ghost view = { λ l. take l.len l.tree };

    ghost invariant = { λ l. l.len ≤ length l.tree };
}

impl CellList {
    pub(crate) fn empty(alloc: Global) -> CellList
        ensures { result ≡ [] }
    {
        CellList {
            tree: Tree::empty(alloc),
            len: 0,
        }
    }

    pub(crate) fn allocator(&self) -> Global {
        self.tree.allocator()
    }

    pub(crate) fn len(&self) -> usize
        ensures { result ≡ length self.now }
    {
        self.len
    }

    pub(crate) fn get(&self, id: usize) -> Cell
        requires { id < length self.now }
        ensures { slice_get self.now id ≡ Some result }
    {
        self.tree.get(id)
    }

    /// A second list of the same cells, which shares them.
    pub(crate) fn share(&self) -> Result<CellList, AllocError>
        ensures { IfOk result (λ l. l ≡ self.now) }
    {
        Ok(CellList {
            tree: self.tree.share()?,
            len: self.len,
        })
    }

    /// Makes the writes of a verdict in a store that had this many cells; after an out-of-memory error, none of them.
    pub(crate) fn write(&mut self, len: u32, writes: &[(u32, Value)]) -> Result<(), AllocError>
        requires len { len ≤ length self.old }
        requires writable { AreWritable len writes.now }
        requires rising { Rising writes.now }
        ensures ok { OnOk result (self.new ≡ with_writes len writes.now self.old) }
        ensures err { OnErr result (self.new ≡ self.old) }
    {
        self.tree.write(len, writes)
    }

    /// Adds a cell at the end.
    pub(crate) fn push(&mut self, cell: Cell) -> Result<(), AllocError>
        requires { length self.old < 2 ^ 32 }
        ensures ok { OnOk result (self.new ≡ self.old ++ cell ∷ []) }
        ensures err { OnErr result (self.new ≡ self.old) }
    {
        if self.len < self.tree.len() {
            self.tree.set(self.len, cell)?;
            self.len += 1;
            Ok(())
        } else {
            self.tree.push(cell)?;
            self.len += 1;
            Ok(())
        }
    }

    /// Keeps this many cells, from the first on. It takes no memory.
    pub(crate) fn truncate(&mut self, len: usize)
        requires { len ≤ length self.old }
        ensures { self.new ≡ take len self.old }
    {
        self.len = len;
    }
}
