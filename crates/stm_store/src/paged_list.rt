//! A list of cells in pages, which its copies share.

ghost use Rattle.std.specs.Prelude.{◌≡◌, ◌+◌, ◌-◌, ◌*◌, ◌<◌, ◌^◌, min, [], ◌∷◌, ◌++◌, length, slice_set, IfOk, OnOk, OnErr};
ghost use Rattle.std.specs.Arc.{arc_value};
ghost use Rattle.std.proofs.Common.{lit<, mul-pos};
ghost use Rattle.std.proofs.Math.Nat.{le-min};

use crate::cell::Cell;
use crate::cell_traits::{AsPage, Cells};
use std::alloc::{AllocError, Global};
use std::marker::Model;
use std::sync::Arc;

/// A list of cells in pages, each of which is a list of at most `P::SIZE` cells.
///
/// A copy shares the pages, so that it moves a pointer for each page and no cell. A change copies the one page that it falls
/// into, if another list shares it, and otherwise nothing.
#[derive(Drop)]
pub(crate) struct Paged<P: AsPage> {
    pub(crate) pages: Vec<Arc<P>>,
    pub(crate) len: usize,
}

impl<P: AsPage> Model for Paged<P> {
    ghost use Rattle.std.specs.Prelude.{List};
    ghost use Rattle.stm_store.specs.declared.cell.Cell.{Cell as AnyCell};
    ghost use Rattle.stm_store.specs.Pages.{contents_by, flatten, ArePages};

    ghost Value = { List AnyCell };

    ghost view = { λ l. flatten (contents_by P.cells l.pages.items) };

    ghost invariant = { λ l. ArePages P.SIZE l.len (contents_by P.cells l.pages.items) };
}

impl<P: AsPage> Paged<P> {
    pub(crate) fn empty(alloc: Global) -> Paged<P>
        ensures { result ≡ [] }
    {
        Paged {
            pages: Vec::new(alloc),
            len: 0,
        }
    }

    /// A list of one full page.
    pub(crate) fn of_page(alloc: Global, page: Arc<P>) -> Result<Paged<P>, AllocError>
        requires { length (P.cells (arc_value page)) ≡ P.SIZE }
        ensures { IfOk result (λ l. l ≡ P.cells (arc_value page)) }
    {
        let mut pages = Vec::new(alloc);
        pages.push(page)?;
        Ok(Paged {
            pages,
            len: P::SIZE,
        })
    }

    pub(crate) fn len(&self) -> usize
        ensures { result ≡ length self.now }
    {
        self.len
    }
}

impl<P: AsPage> Cells for Paged<P> {
    ghost cells = { λ l. l };

    ghost copied = { λ l m same. same };

    fn get(&self, id: usize) -> Cell {
        let (page, at) = place::<P>(id);
        let page: &P = &self.pages[page];
        page.get(at)
    }

    /// Changes a cell. A page that another list shares is copied first.
    fn set(&mut self, id: usize, cell: Cell) -> Result<(), AllocError> {
        let (page, at) = place::<P>(id);
        set_cell(&mut self.pages[page], at, cell)
    }

    fn push(&mut self, cell: Cell) -> Result<(), AllocError> {
        let (last, at) = place::<P>(self.len);
        if at == 0 {
            let alloc = *self.pages.allocator();
            let page = Arc::new(alloc, P::of(alloc, cell)?)?;
            self.pages.push(page)?;
            self.len += 1;
            Ok(())
        } else {
            push_cell(&mut self.pages[last], cell)?;
            self.len += 1;
            Ok(())
        }
    }
}

impl<P: AsPage> AsPage for Paged<P> {
    /// 64 full pages.
    const SIZE: usize = usize::saturating_mul(P::SIZE, 64);

    ghost SIZE = { min (P.SIZE * 64) (2 ^ 64 - 1) };

    ghost room = { le-min (mul-pos P.room (lit< tt)) (lit< tt) };

    fn of(alloc: Global, cell: Cell) -> Result<Paged<P>, AllocError> {
        let mut list = Paged::empty(alloc);
        list.push(cell)?;
        Ok(list)
    }
}

impl<P: AsPage> Clone for Paged<P> {
    ghost is_clone = { λ p q. q ≡ p };

    /// A list of the same cells, which shares the pages.
    fn clone(&self) -> Result<Paged<P>, AllocError> {
        Ok(Paged {
            pages: self.pages.clone()?,
            len: self.len,
        })
    }
}

/// The page of a cell, and its place there.
pub(crate) fn place<P: AsPage>(id: usize) -> (usize, usize)
    ensures id { id ≡ P.SIZE * result.0 + result.1 }
    ensures at { result.1 < P.SIZE }
{
    (id / P::SIZE, id % P::SIZE)
}

pub(crate) fn set_cell<P: Cells>(page: &mut Arc<P>, at: usize, cell: Cell) -> Result<(), AllocError>
    requires { at < length (P.cells (arc_value page.old)) }
    ensures ok { OnOk result (P.cells (arc_value page.new)
        ≡ slice_set (P.cells (arc_value page.old)) at cell) }
    ensures err { OnErr result (P.cells (arc_value page.new) ≡ P.cells (arc_value page.old)) }
{
    let page = Arc::make_mut(page)?;
    page.set(at, cell)
}

pub(crate) fn push_cell<P: Cells>(page: &mut Arc<P>, cell: Cell) -> Result<(), AllocError>
    requires { length (P.cells (arc_value page.old)) < 2 ^ 32 }
    ensures ok { OnOk result (P.cells (arc_value page.new)
        ≡ P.cells (arc_value page.old) ++ cell ∷ []) }
    ensures err { OnErr result (P.cells (arc_value page.new) ≡ P.cells (arc_value page.old)) }
{
    let page = Arc::make_mut(page)?;
    page.push(cell)
}
