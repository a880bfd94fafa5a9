//! A list of cells behind one pointer, which its copies share.

ghost use Rattle.std.specs.Prelude.{◌≡◌, ◌<◌, ◌^◌, [], ◌∷◌, ◌++◌, Some, length, slice_get, slice_set, IfOk, OnOk, OnErr};
ghost use Rattle.std.specs.Arc.{arc_value};
ghost use Rattle.stm_store.specs.RangeWrites.{AreWithin, with_writes_from};

use crate::cell::Cell;
use crate::cell_traits::{AsPage, Cells};
use crate::in_place::{write_one_page, write_one_part, write_parts};
use crate::page::Page;
use crate::paged_list::{Paged, push_cell, set_cell};
use crate::parts::{Part, Parts};
use std::alloc::{AllocError, Global};
use std::marker::Model;
use std::sync::Arc;
use stm_terms::values::Value;

/// What a list of cells points to: nothing, or the smallest of a page, a part and a list of parts that has held all its cells.
#[derive(Drop)]
pub(crate) enum Root {
    Empty,
    Page(Arc<Page>),
    Part(Arc<Part>),
    Parts(Arc<Parts>),
}

/// A list of cells behind one pointer. A copy moves that pointer. A change copies the page that it falls into and the lists of
/// pages and parts that lead to it, if another list shares them, and otherwise nothing.
#[derive(Drop)]
pub(crate) struct Tree {
    alloc: Global,
    root: Root,
}

impl Model for Tree {
    ghost use Rattle.std.specs.Prelude.{List};
    ghost use Rattle.stm_store.specs.declared.cell.Cell.{Cell as AnyCell};
    ghost use Rattle.stm_store.specs.Roots.{cells_at, IsRoot};

    ghost Value = { List AnyCell };

    ghost view = { λ t. cells_at t.root };

    ghost invariant = { λ t. IsRoot t.root };
}

impl Tree {
    pub(crate) fn empty(alloc: Global) -> Tree
        ensures { result ≡ [] }
    {
        Tree {
            alloc,
            root: Root::Empty,
        }
    }

    pub(crate) fn allocator(&self) -> Global {
        self.alloc
    }

    pub(crate) fn len(&self) -> usize
        ensures { result ≡ length self.now }
    {
        match &self.root {
            Root::Empty => 0,
            Root::Page(page) => page.len(),
            Root::Part(part) => part.len(),
            Root::Parts(parts) => parts.len(),
        }
    }

    pub(crate) fn get(&self, id: usize) -> Cell
        requires { id < length self.now }
        ensures { slice_get self.now id ≡ Some result }
    {
        match &self.root {
            Root::Empty => unreachable!(),
            Root::Page(page) => page.get(id),
            Root::Part(part) => part.get(id),
            Root::Parts(parts) => parts.get(id),
        }
    }

    /// A second list of the same cells, which shares them. It takes no memory.
    pub(crate) fn share(&self) -> Result<Tree, AllocError>
        ensures { IfOk result (λ t. t ≡ self.now) }
    {
        let root = match &self.root {
            Root::Empty => Root::Empty,
            Root::Page(page) => Root::Page(Arc::try_clone(page)?),
            Root::Part(part) => Root::Part(Arc::try_clone(part)?),
            Root::Parts(parts) => Root::Parts(Arc::try_clone(parts)?),
        };
        Ok(Tree {
            alloc: self.alloc,
            root,
        })
    }

    /// Makes these writes; after an out-of-memory error, none of them. What another list shares is copied first.
    pub(crate) fn write(&mut self, len: u32, writes: &[(u32, Value)]) -> Result<(), AllocError>
        requires { AreWithin len 0 (length self.old) writes.now }
        ensures ok { OnOk result (self.new ≡ with_writes_from len 0 writes.now self.old) }
        ensures err { OnErr result (self.new ≡ self.old) }
    {
        if writes.is_empty() {
            return Ok(());
        }
        match &mut self.root {
            Root::Empty => unreachable!(),
            Root::Page(page) => write_one_page(page, len, writes),
            Root::Part(part) => write_one_part(part, len, writes),
            Root::Parts(parts) => write_parts(parts, len, writes),
        }
    }

    /// Changes a cell. What another list shares is copied first.
    pub(crate) fn set(&mut self, id: usize, cell: Cell) -> Result<(), AllocError>
        requires { id < length self.old }
        ensures ok { OnOk result (self.new ≡ slice_set self.old id cell) }
        ensures err { OnErr result (self.new ≡ self.old) }
    {
        match &mut self.root {
            Root::Empty => unreachable!(),
            Root::Page(page) => set_cell(page, id, cell),
            Root::Part(part) => set_cell(part, id, cell),
            Root::Parts(parts) => set_cell(parts, id, cell),
        }
    }

    /// Adds a cell at the end. A full page becomes the first of a part, and a full part the first of a list of parts.
    pub(crate) fn push(&mut self, cell: Cell) -> Result<(), AllocError>
        requires { length self.old < 2 ^ 32 }
        ensures ok { OnOk result (self.new ≡ self.old ++ cell ∷ []) }
        ensures err { OnErr result (self.new ≡ self.old) }
    {
        match &mut self.root {
            Root::Empty => {
                let page = Arc::new(self.alloc, Page::of(self.alloc, cell)?)?;
                self.root = Root::Page(page);
                Ok(())
            }
            Root::Page(page) => {
                if page.len() < Page::SIZE {
                    return push_cell(page, cell);
                }
                let part = extended(self.alloc, page, cell)?;
                self.root = Root::Part(part);
                Ok(())
            }
            Root::Part(part) => {
                if part.len() < Part::SIZE {
                    return push_cell(part, cell);
                }
                let parts = extended(self.alloc, part, cell)?;
                self.root = Root::Parts(parts);
                Ok(())
            }
            Root::Parts(parts) => push_cell(parts, cell),
        }
    }
}

/// A list of pages that has the cells of a full page, which it shares, and a cell more.
fn extended<P: AsPage>(
    alloc: Global,
    full: &Arc<P>,
    cell: Cell,
) -> Result<Arc<Paged<P>>, AllocError>
    requires full { length (P.cells (arc_value full.now)) ≡ P.SIZE }
    requires small { P.SIZE < 2 ^ 32 }
    ensures { IfOk result (λ l. arc_value l ≡ P.cells (arc_value full.now) ++ cell ∷ []) }
{
    let mut list = Paged::of_page(alloc, Arc::try_clone(full)?)?;
    list.push(cell)?;
    Ok(Arc::new(alloc, list)?)
}
