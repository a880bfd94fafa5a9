//! The store.

ghost use Rattle.std.specs.Prelude.{◌≡◌, ◌+◌, ◌<◌, ◌≤◌, ◌↔◌, Some, length, slice_get, option_map, IsTrue, IfOk, IfErr, OnOk, OnErr};
ghost use Rattle.std.specs.List.Sorted.{IsStrictlyIncreasing};
ghost use Rattle.stm_terms.specs.Changes.{cell_value};
ghost use Rattle.stm_store.specs.Cells.{most_cells, IsStore, MakesStore, Covers, Fits, IsApplied, kinds_of, plains, changed_by, made_by};
ghost use Rattle.stm_store.specs.Applying.{HasRoomFor, AppliesVerdict, PreparesVerdict};
ghost use Rattle.stm_store.specs.Tables.{opened};

use crate::apply::perform;
use crate::cell::Cell;
use crate::cell_list::CellList;
use crate::changed_variables::changed_variables;
use crate::covers::covers;
use crate::fits::fits;
use crate::frozen::Frozen;
use crate::ready::{Applied, ApplyError, Ready};
use crate::table::Table;
use crate::types::are_typed;
use std::alloc::{AllocError, Global};
use std::marker::Model;
use stm_terms::NoMemory;
use stm_terms::kinds::Ty;
use stm_terms::values::Value;
use stm_terms::verdicts::Verdict;
use thiserror::Error;

/// Why cells can't be a store.
#[derive(Clone, Copy, Debug, PartialEq, Eq, Error)]
pub enum StoreError {
    /// A value isn't of its cell's type, a type has too many `TVar`, or there are too many cells.
    #[error("the cells are no store")]
    NotStore,
    #[error("out of memory")]
    NoMemory,
}

impl From<AllocError> for StoreError {
    ghost use Rattle.std.specs.Prelude.{◌≡◌};
    ghost use Rattle.stm_store.specs.declared.store.StoreError.{StoreError};

    ghost from_gives = { λ _ e. e ≡ StoreError.NoMemory };

    fn from(_refusal: AllocError) -> StoreError {
        StoreError::NoMemory
    }
}

/// The variables with their types, their values, and how many finished blocks changed each.
#[derive(Drop)]
pub struct Store {
    cells: CellList,
}

impl Model for Store {
    ghost use Rattle.std.specs.Prelude.{◌≤◌, List, length};
    ghost use Rattle.stm_store.specs.declared.cell.Cell.{Cell as AnyCell};
    ghost use Rattle.stm_store.specs.Cells.{plains, IsStore};

    ghost Value = { List AnyCell };

    ghost view = { λ s. s.cells };

    ghost invariant = { λ s. IsStore (plains s.cells) };
}

impl Store {
    /// How many variables a store may have.
    pub const LIMIT: usize = Table::LIMIT;

    /// A store with the variables of a table, which no block has written.
    pub fn open(alloc: Global, table: &Table) -> Result<Store, NoMemory>
        ensures { IfOk result (λ s. s ≡ opened table.now) }
    {
        let mut cells = CellList::empty(alloc);
        for id in 0..table.len() {
            let cell = Cell {
                kind: table.kind(id as u32),
                value: table.value(id as u32),
                count: 0,
            };
            cells.push(cell)?;
        }
        Ok(Store { cells })
    }

    /// How many variables there are. The other clauses hold of every store.
    pub fn len(&self) -> usize
        ensures len { result ≡ length self.now }
        ensures few { length self.now ≤ most_cells }
        ensures store { IsStore (plains self.now) }
    {
        self.cells.len()
    }

    /// The value of a variable.
    pub fn value(&self, id: u32) -> Value
        requires { id < length self.now }
        ensures { cell_value (plains self.now) id ≡ Some result }
    {
        self.cells.get(id as usize).value
    }

    /// The type of a variable.
    pub fn kind(&self, id: u32) -> Ty
        requires { id < length self.now }
        ensures { kinds_of (plains self.now) id ≡ Some result }
    {
        self.cells.get(id as usize).kind
    }

    /// How many finished blocks changed a variable, up to the greatest `u64`.
    pub fn count(&self, id: u32) -> u64
        requires { id < length self.now }
        ensures { option_map (λ c. c.count) (slice_get self.now id) ≡ Some result }
    {
        self.cells.get(id as usize).count
    }

    /// A store of these cells. Whether they are one is tested before memory is taken.
    pub fn of_cells(alloc: Global, cells: Vec<Cell>) -> Result<Store, StoreError>
        ensures { MakesStore cells.items result }
    {
        if cells.len() > Store::LIMIT || !are_typed(&cells) {
            return Err(StoreError::NotStore);
        }
        let mut list = CellList::empty(alloc);
        for cell in &cells {
            list.push(*cell)?;
        }
        Ok(Store { cells: list })
    }

    /// A store with the same cells. The two share them until one changes.
    pub fn share(&self) -> Result<Store, NoMemory>
        ensures { IfOk result (λ s. s ≡ self.now) }
    {
        Ok(Store {
            cells: self.cells.share()?,
        })
    }

    /// An unchanging copy, which shares its cells with the store until the store changes.
    pub fn freeze(&self) -> Result<Frozen, NoMemory>
        ensures { IfOk result (λ f. f ≡ plains self.now) }
    {
        Ok(Frozen::of(self.cells.share()?))
    }

    /// Whether these variables exist with these types.
    #[tactic(auto, using(crate::proofs::FitsDecided::covers_from, crate::proofs::FitsDecided::covers_to))]
    pub fn covers(&self, uses: &[(u32, Ty)]) -> bool
        ensures { IsTrue result ↔ Covers (plains self.now) uses.now }
    {
        covers(&self.cells, uses)
    }

    /// Whether a verdict can be applied.
    pub fn fits(&self, verdict: &Verdict) -> bool
        ensures { IsTrue result ↔ Fits (plains self.now) verdict.now }
    {
        fits(&self.cells, verdict)
    }

    /// The variables that a verdict changes: it writes them, and their value afterwards is another one. They ascend if the
    /// verdict can be applied.
    pub fn changes(&self, verdict: &Verdict) -> Result<Vec<u32>, NoMemory>
        ensures changed { IfOk result (λ vs. vs.items ≡ changed_by self.now verdict.now) }
        ensures rising { Fits (plains self.now) verdict.now
            → IfOk result (λ vs. IsStrictlyIncreasing vs.items) }
    {
        changed_variables(&self.cells, verdict)
    }

    /// Makes the writes and the new variables of a verdict that fits.
    ///
    /// The k-th new variable gets the number `first_new + k`, wherever the verdict refers to it. What no copy holds is
    /// changed in place.
    #[tactic(auto, using(crate::proofs::Lookups::is_applied))]
    pub fn apply(&mut self, verdict: &Verdict) -> Result<Applied, ApplyError>
        requires { Fits (plains self.old) verdict.now }
        ensures done { AppliesVerdict self.old verdict.now result self.new }
        ensures each { OnOk result (IsApplied self.old verdict.now self.new) }
    {
        self.has_room(verdict)?;
        Ok(perform(&mut self.cells, verdict)?)
    }

    /// What `apply` would leave, beside the store, which stays as it is. `install` puts it in place: for a caller that takes
    /// all its memory before its first change.
    pub fn prepare(&self, verdict: &Verdict) -> Result<Ready, ApplyError>
        requires { Fits (plains self.now) verdict.now }
        ensures { PreparesVerdict self.now verdict.now result }
    {
        self.has_room(verdict)?;
        let mut cells = self.cells.share()?;
        let applied = perform(&mut cells, verdict)?;
        Ok(Ready { cells, applied })
    }

    /// Puts in place what `prepare` made. It takes no memory.
    pub fn install(&mut self, ready: Ready) -> Applied
        ensures cells { self.new ≡ ready.0 }
        ensures applied_answer { result ≡ ready.1 }
    {
        self.cells = ready.cells;
        ready.applied
    }

    /// Whether there is room for the variables that the verdict makes.
    fn has_room(&self, verdict: &Verdict) -> Result<(), ApplyError>
        ensures ok { OnOk result (HasRoomFor self.now verdict.now) }
        ensures err { OnErr result (most_cells < length self.now + length (made_by verdict.now)) }
        ensures full { IfErr result (λ e. e ≡ ApplyError.CellsFull) }
    {
        let more = match verdict {
            Verdict::Commits { news, .. } => news.as_slice().len(),
            _ => 0,
        };
        if more > Store::LIMIT - self.cells.len() {
            return Err(ApplyError::CellsFull);
        }
        Ok(())
    }
}
