//! What applying a verdict does to a list of cells: all of it, or after an out-of-memory error nothing.

ghost use Rattle.std.specs.Prelude.{◌≡◌, ◌+◌, ◌≤◌, ◌++◌, length, map, take, IfOk, OnOk, OnErr};
ghost use Rattle.stm_terms.specs.Typing.{Rising};
ghost use Rattle.stm_store.specs.Cells.{most_cells, Fits, plains, new_cell, with_writes, applied, made_by, applied_answer};
ghost use Rattle.stm_store.specs.FreshReferences.{AreWritable, AreAddable};

use crate::cell_list::CellList;
use crate::ready::Applied;
use crate::renumber::{make, renumber};
use stm_terms::NoMemory;
use stm_terms::kinds::Ty;
use stm_terms::values::Value;
use stm_terms::verdicts::Verdict;

/// Makes the writes and the new variables of a verdict that fits.
pub(crate) fn perform(cells: &mut CellList, verdict: &Verdict) -> Result<Applied, NoMemory>
    requires fits { Fits (plains cells.old) verdict.now }
    requires room { length cells.old + length (made_by verdict.now) ≤ most_cells }
    ensures applied { OnOk result (cells.new ≡ applied cells.old verdict.now) }
    ensures applied_answer { IfOk result (λ a. a ≡ applied_answer cells.old verdict.now) }
    ensures err { OnErr result (cells.new ≡ cells.old) }
{
    let first_new = cells.len() as u32;
    match verdict {
        Verdict::Commits {
            writes,
            news,
            result,
        } => {
            change(cells, writes.as_slice(), news.as_slice())?;
            Ok(Applied {
                first_new,
                result: Some(renumber(first_new, *result)),
            })
        }
        _ => Ok(Applied {
            first_new,
            result: None,
        }),
    }
}

/// Adds these new cells and makes these writes.
fn change(
    cells: &mut CellList,
    writes: &[(u32, Value)],
    news: &[(Ty, Value)],
) -> Result<(), NoMemory>
    requires small { length cells.old + length news.now ≤ most_cells }
    requires writable { AreWritable (length cells.old) writes.now }
    requires rising { Rising writes.now }
    requires addable { AreAddable (length cells.old) news.now }
    ensures ok { OnOk result (cells.new
        ≡ with_writes (length cells.old) writes.now cells.old
        ++ map (new_cell (length cells.old)) news.now) }
    ensures err { OnErr result (cells.new ≡ cells.old) }
{
    let len = cells.len();
    match add_and_write(cells, len as u32, writes, news) {
        Ok(()) => Ok(()),
        Err(refusal) => {
            cells.truncate(len);
            Err(refusal)
        }
    }
}

/// Adds these new cells and makes these writes. After an error the list may have some of the new cells.
fn add_and_write(
    cells: &mut CellList,
    len: u32,
    writes: &[(u32, Value)],
    news: &[(Ty, Value)],
) -> Result<(), NoMemory>
    requires len { length cells.old ≡ len }
    requires small { length cells.old + length news.now ≤ most_cells }
    requires writable { AreWritable len writes.now }
    requires rising { Rising writes.now }
    requires addable { AreAddable len news.now }
    ensures ok { OnOk result (cells.new
        ≡ with_writes len writes.now cells.old ++ map (new_cell len) news.now) }
    ensures long { length cells.old ≤ length cells.new }
    ensures err { OnErr result (take (length cells.old) cells.new ≡ cells.old) }
{
    add_all(cells, len, news)?;
    cells.write(len, writes)?;
    Ok(())
}

fn add_all(cells: &mut CellList, len: u32, news: &[(Ty, Value)]) -> Result<(), NoMemory>
    requires small { length cells.old + length news.now ≤ most_cells }
    requires addable { AreAddable len news.now }
    ensures ok { OnOk result (cells.new ≡ cells.old ++ map (new_cell len) news.now) }
    ensures long { length cells.old ≤ length cells.new }
    ensures err { OnErr result (take (length cells.old) cells.new ≡ cells.old) }
{
    for (kind, value) in news {
        cells.push(make(len, *kind, *value))?;
    }
    Ok(())
}
