//! A verdict that is ready to be applied.

use crate::cell_list::CellList;
use std::alloc::AllocError;
use std::marker::Model;
use stm_terms::values::Value;
use thiserror::Error;

/// What a verdict did to a store: how many variables there were before, which is the number of the first new one, and the
/// result, with its reference as a variable of the store. A throw and a retry have none.
#[derive(Clone, Copy, PartialEq, Eq, Debug)]
pub struct Applied {
    pub first_new: u32,
    pub result: Option<Value>,
}

/// Why a verdict wasn't applied. The first that holds is reported.
#[derive(Clone, Copy, Debug, PartialEq, Eq, Error)]
pub enum ApplyError {
    /// There would be more than `Store::LIMIT` variables.
    #[error("the store is full")]
    CellsFull,
    #[error("out of memory")]
    NoMemory,
}

impl From<AllocError> for ApplyError {
    ghost use Rattle.std.specs.Prelude.{◌≡◌};
    ghost use Rattle.stm_store.specs.declared.ready.ApplyError.{ApplyError};

    ghost from_gives = { λ _ e. e ≡ ApplyError.NoMemory };

    fn from(_refusal: AllocError) -> ApplyError {
        ApplyError::NoMemory
    }
}

/// The cells that a store is to have, with what is reported of them.
///
/// All memory is taken before there is one, so that installing it can't fail.
#[derive(Drop)]
pub struct Ready {
    pub(crate) cells: CellList,
    pub(crate) applied: Applied,
}

impl Model for Ready {
    ghost use Rattle.std.specs.Prelude.{List};
    ghost use Rattle.stm_store.specs.declared.cell.Cell.{Cell as AnyCell};
    ghost use Rattle.stm_store.specs.declared.ready.Applied.{Applied as AnyApplied};
    ghost use Rattle.stm_store.specs.Cells.{plains, IsStore};

    ghost Value = { List AnyCell × AnyApplied };

    ghost view = { λ r. (r.cells, r.applied) };

    ghost invariant = { λ r. IsStore (plains r.cells) };
}
