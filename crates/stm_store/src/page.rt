//! A page of cells.

ghost use Rattle.std.specs.Prelude.{◌≡◌, ◌+◌, ◌<◌, length};
ghost use Rattle.std.proofs.Common.{lit<};
ghost use Rattle.stm_store.specs.Pages.{page_cells};
ghost use Rattle.stm_store.specs.RangeWrites.{AreWithin, with_writes_from};

use crate::cell::Cell;
use crate::cell_traits::{AsPage, Cells};
use crate::renumber::rewrite;
use std::alloc::{AllocError, Global};
use std::marker::Model;
use stm_terms::values::Value;

/// A few cells. Contracts see a list; the owner of a page puts at most `Page::SIZE` cells into it.
#[derive(Drop)]
pub(crate) struct Page {
    cells: Vec<Cell>,
}

impl Model for Page {
    ghost use Rattle.std.specs.Prelude.{List};
    ghost use Rattle.stm_store.specs.declared.cell.Cell.{Cell as AnyCell};

    ghost Value = { List AnyCell };

    ghost view = { λ p. p.cells.items };
}

impl Page {
    pub(crate) fn len(&self) -> usize
        ensures { result ≡ length self.now }
    {
        self.cells.len()
    }

    /// Makes these writes to the cells of a page whose first has this number.
    #[inline(always)]
    pub(crate) fn write(&mut self, first: usize, len: u32, writes: &[(u32, Value)])
        requires { AreWithin len first (first + length self.old) writes.now }
        ensures { self.new ≡ with_writes_from len first writes.now self.old }
    {
        for (id, value) in writes {
            let at = *id as usize - first;
            self.cells[at] = rewrite(len, *value, self.cells[at]);
        }
    }
}

impl Cells for Page {
    ghost cells = { λ p. p };

    ghost copied = { λ l m same. same };

    fn get(&self, at: usize) -> Cell {
        self.cells[at]
    }

    fn set(&mut self, at: usize, cell: Cell) -> Result<(), AllocError> {
        self.cells[at] = cell;
        Ok(())
    }

    fn push(&mut self, cell: Cell) -> Result<(), AllocError> {
        self.cells.push(cell)?;
        Ok(())
    }
}

impl AsPage for Page {
    const SIZE: usize = 64;

    ghost SIZE = { page_cells };

    ghost room = { lit< tt };

    /// A page of one cell, with room for the others.
    fn of(alloc: Global, cell: Cell) -> Result<Page, AllocError> {
        let mut cells = Vec::with_capacity(alloc, Page::SIZE)?;
        cells.push(cell)?;
        Ok(Page { cells })
    }
}

impl Clone for Page {
    ghost is_clone = { λ p q. q ≡ p };

    /// A page of the same cells, with room for the others.
    fn clone(&self) -> Result<Page, AllocError> {
        let mut cells = Vec::with_capacity(*self.cells.allocator(), Page::SIZE)?;
        cells.extend_from_slice(&self.cells)?;
        Ok(Page { cells })
    }
}
