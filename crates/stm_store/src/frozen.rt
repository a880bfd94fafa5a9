//! An unchanging copy of a store.

ghost use Rattle.std.specs.Prelude.{◌≡◌, ◌<◌, ◌↔◌, Some, length, IsTrue, IfOk};
ghost use Rattle.stm_terms.specs.Changes.{cell_value};
ghost use Rattle.stm_store.specs.Cells.{IsStore, Covers, kinds_of, plains};

use crate::cell_list::CellList;
use crate::covers::covers;
use std::marker::Model;
use stm_terms::NoMemory;
use stm_terms::kinds::Ty;
use stm_terms::values::Value;

/// The cells of a store as they were: types and values.
#[derive(Drop)]
pub struct Frozen {
    cells: CellList,
}

impl Model for Frozen {
    ghost use Rattle.std.specs.Prelude.{List};
    ghost use Rattle.stm_terms.specs.declared.kinds.Ty.{Ty};
    ghost use Rattle.stm_terms.specs.declared.values.Value.{Value as AnyValue};
    ghost use Rattle.stm_store.specs.Cells.{plains, IsStore};

    ghost Value = { List (Ty × AnyValue) };

    ghost view = { λ f. plains f.cells };

    ghost invariant = { λ f. IsStore (plains f.cells) };
}

impl Frozen {
    pub(crate) fn of(cells: CellList) -> Frozen
        requires { IsStore (plains cells) }
        ensures { result ≡ plains cells }
    {
        Frozen { cells }
    }

    /// How many variables there are. The other clause holds of every copy.
    pub fn len(&self) -> usize
        ensures len { result ≡ length self.now }
        ensures store { IsStore self.now }
    {
        self.cells.len()
    }

    /// The value of a variable.
    pub fn value(&self, id: u32) -> Value
        requires { id < length self.now }
        ensures { cell_value self.now id ≡ Some result }
    {
        self.cells.get(id as usize).value
    }

    /// The type of a variable.
    pub fn kind(&self, id: u32) -> Ty
        requires { id < length self.now }
        ensures { kinds_of self.now id ≡ Some result }
    {
        self.cells.get(id as usize).kind
    }

    /// Whether these variables exist with these types.
    #[tactic(auto, using(crate::proofs::FitsDecided::covers_from, crate::proofs::FitsDecided::covers_to))]
    pub fn covers(&self, uses: &[(u32, Ty)]) -> bool
        ensures { IsTrue result ↔ Covers self.now uses.now }
    {
        covers(&self.cells, uses)
    }

    /// A second copy of the same content.
    pub fn share(&self) -> Result<Frozen, NoMemory>
        ensures { IfOk result (λ f. f ≡ self.now) }
    {
        Ok(Frozen {
            cells: self.cells.share()?,
        })
    }
}
