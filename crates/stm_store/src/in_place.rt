//! Writing in place, all or none.
//!
//! What another list shares is copied before it is written: a page, and each list of pages or parts that leads to it. The
//! copies need memory. So each page is made this list's own on the way down, before anything is written, and its cells are
//! written on the way back, which needs no memory: after an out-of-memory error no cell has been written. The writes
//! ascend by variable, so that each call hands on what comes after its page. The stack grows with the pages that are written,
//! and not with the writes.

ghost use Rattle.std.specs.Prelude.{◌≡◌, ◌+◌, ◌-◌, ◌^◌, ◌<◌, ◌≤◌, nat_lt, ◌∷◌, ◌++◌, length, OnOk, OnErr};
ghost use Rattle.std.specs.Arc.{arc_value};
ghost use Rattle.std.specs.List.{prefix_len};
ghost use Rattle.stm_store.specs.Pages.{page_cells, part_cells, contents, flatten, sizes, ArePages};
ghost use Rattle.stm_store.specs.RangeWrites.{AreWithin, StartsBelow, with_writes_from};

use crate::page::Page;
use crate::paged_list::place;
use crate::parts::{Part, Parts};
use std::alloc::AllocError;
use std::sync::Arc;
use stm_terms::values::Value;

/// Makes these writes in a page; after an out-of-memory error, none of them.
pub(crate) fn write_one_page(
    page: &mut Arc<Page>,
    len: u32,
    writes: &[(u32, Value)],
) -> Result<(), AllocError>
    requires { AreWithin len 0 (length (arc_value page.old)) writes.now }
    ensures ok { OnOk result (arc_value page.new
        ≡ with_writes_from len 0 writes.now (arc_value page.old)) }
    ensures err { OnErr result (arc_value page.new ≡ arc_value page.old) }
{
    let page = Arc::make_mut(page)?;
    page.write(0, len, writes);
    Ok(())
}

/// Makes these writes, at least one, in a part; after an out-of-memory error, none of them.
pub(crate) fn write_one_part(
    part: &mut Arc<Part>,
    len: u32,
    writes: &[(u32, Value)],
) -> Result<(), AllocError>
    requires small { length (arc_value part.old) ≤ part_cells }
    requires some { 0 < length writes.now }
    requires writes { AreWithin len 0 (length (arc_value part.old)) writes.now }
    ensures ok { OnOk result (arc_value part.new
        ≡ with_writes_from len 0 writes.now (arc_value part.old)) }
    ensures err { OnErr result (arc_value part.new ≡ arc_value part.old) }
    ensures size { length (arc_value part.new) ≡ length (arc_value part.old) }
{
    // No part comes after it.
    write_part(0, part, &mut [], len, writes)
}

/// Makes these writes in a list of parts; after an out-of-memory error, none of them.
pub(crate) fn write_parts(
    parts: &mut Arc<Parts>,
    len: u32,
    writes: &[(u32, Value)],
) -> Result<(), AllocError>
    requires { AreWithin len 0 (length (arc_value parts.old)) writes.now }
    ensures ok { OnOk result (arc_value parts.new
        ≡ with_writes_from len 0 writes.now (arc_value parts.old)) }
    ensures err { OnErr result (arc_value parts.new ≡ arc_value parts.old) }
{
    let parts = Arc::make_mut(parts)?;
    write(parts, len, writes)
}

/// Makes these writes in a list of parts that no other list shares; after an out-of-memory error, none of them.
fn write(cells: &mut Parts, len: u32, writes: &[(u32, Value)]) -> Result<(), AllocError>
    requires { AreWithin len 0 (length cells.old) writes.now }
    ensures ok { OnOk result (cells.new ≡ with_writes_from len 0 writes.now cells.old) }
    ensures err { OnErr result (cells.new ≡ cells.old) }
{
    // No page comes before the first part.
    write_pages(0, 0, &mut [], cells.pages.as_mut_slice(), len, writes)
}

/// Makes these writes in these pages, whose cells have the numbers from `first` to before `end`, and in the parts after
/// them.
#[cycle(write)]
fn write_pages(
    first: usize,
    end: usize,
    pages: &mut [Arc<Page>],
    parts: &mut [Arc<Part>],
    len: u32,
    writes: &[(u32, Value)],
) -> Result<(), AllocError>
    requires order { first ≤ end }
    requires pages { ArePages page_cells (end - first) (contents pages.old) }
    requires parts { ArePages part_cells (length (flatten (contents parts.old)))
        (contents parts.old) }
    requires writes { AreWithin len first (end + length (flatten (contents parts.old))) writes.now }
    ensures ok { OnOk result (flatten (contents pages.new) ++ flatten (contents parts.new)
        ≡ with_writes_from len first writes.now
        (flatten (contents pages.old) ++ flatten (contents parts.old))) }
    ensures err { OnErr result (flatten (contents pages.new) ++ flatten (contents parts.new)
        ≡ flatten (contents pages.old) ++ flatten (contents parts.old)) }
    ensures sizes { sizes pages.new ≡ sizes pages.old }
    ensures part_sizes { sizes parts.new ≡ sizes parts.old }
{
    if writes.is_empty() {
        return Ok(());
    }
    let id = writes[0].0 as usize;
    if id < end {
        let (skipped, at) = place::<Page>(id - first);
        let (_, others) = pages.split_at_mut(skipped);
        let (here, behind) = others.split_at_mut(1);
        write_page(id - at, end, &mut here[0], behind, parts, len, writes)
    } else {
        let (skipped, at) = place::<Part>(id - end);
        let (_, others) = parts.split_at_mut(skipped);
        let (here, behind) = others.split_at_mut(1);
        write_part(id - at, &mut here[0], behind, len, writes)
    }
}

/// Makes these writes in this part, to which the first of them goes, and in those after it.
#[cycle(write)]
fn write_part(
    first: usize,
    part: &mut Arc<Part>,
    parts: &mut [Arc<Part>],
    len: u32,
    writes: &[(u32, Value)],
) -> Result<(), AllocError>
    requires parts { ArePages part_cells
        (length (arc_value part.old ++ flatten (contents parts.old)))
        (arc_value part.old ∷ contents parts.old) }
    requires writes { AreWithin len first
        (first + length (arc_value part.old ++ flatten (contents parts.old))) writes.now }
    requires here { StartsBelow (first + length (arc_value part.old)) writes.now }
    requires room { first + length (arc_value part.old) < 2 ^ 64 }
    ensures ok { OnOk result (arc_value part.new ++ flatten (contents parts.new)
        ≡ with_writes_from len first writes.now
        (arc_value part.old ++ flatten (contents parts.old))) }
    ensures err { OnErr result (arc_value part.new ++ flatten (contents parts.new)
        ≡ arc_value part.old ++ flatten (contents parts.old)) }
    ensures size { length (arc_value part.new) ≡ length (arc_value part.old) }
    ensures sizes { sizes parts.new ≡ sizes parts.old }
{
    let part = Arc::make_mut(part)?;
    let end = first + part.len;
    write_pages(first, end, part.pages.as_mut_slice(), parts, len, writes)
}

/// Makes these writes in this page, to which the first of them goes, in the pages after it, and in the parts after these.
#[cycle(write)]
fn write_page(
    first: usize,
    end: usize,
    page: &mut Arc<Page>,
    pages: &mut [Arc<Page>],
    parts: &mut [Arc<Part>],
    len: u32,
    writes: &[(u32, Value)],
) -> Result<(), AllocError>
    requires order { first ≤ end }
    requires pages { ArePages page_cells (end - first) (arc_value page.old ∷ contents pages.old) }
    requires parts { ArePages part_cells (length (flatten (contents parts.old)))
        (contents parts.old) }
    requires writes { AreWithin len first (end + length (flatten (contents parts.old))) writes.now }
    requires here { StartsBelow (first + length (arc_value page.old)) writes.now }
    ensures ok { OnOk result (arc_value page.new
        ++ (flatten (contents pages.new) ++ flatten (contents parts.new))
        ≡ with_writes_from len first writes.now
        (arc_value page.old
        ++ (flatten (contents pages.old) ++ flatten (contents parts.old)))) }
    ensures err { OnErr result (arc_value page.new
        ++ (flatten (contents pages.new) ++ flatten (contents parts.new))
        ≡ arc_value page.old ++ (flatten (contents pages.old) ++ flatten (contents parts.old))) }
    ensures size { length (arc_value page.new) ≡ length (arc_value page.old) }
    ensures sizes { sizes pages.new ≡ sizes pages.old }
    ensures part_sizes { sizes parts.new ≡ sizes parts.old }
{
    let page = Arc::make_mut(page)?;
    let behind = first + page.len();
    let (here, others) = writes.split_at(writes_below(behind, writes));
    write_pages(behind, end, pages, parts, len, others)?;
    page.write(first, len, here);
    Ok(())
}

/// How many of the writes, from the first on, are to cells before this one.
fn writes_below(end: usize, writes: &[(u32, Value)]) -> usize
    ensures { result ≡ prefix_len (λ w. nat_lt w.0 end) writes.now }
{
    let mut count = 0;
    for (id, _) in writes {
        if *id as usize >= end {
            return count;
        }
        count += 1;
    }
    count
}
