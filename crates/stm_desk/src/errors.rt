//! Why a block isn't run atomically, and why settling stops.

use std::alloc::AllocError;
use thiserror::Error;

/// Why a block isn't run atomically. The first that holds is reported.
#[derive(Clone, Copy, Debug, PartialEq, Eq, Error)]
pub enum AtomicError {
    /// The first variable that the block names which the store lacks or has with another type.
    #[error("the store has no variable {0} of this type")]
    Foreign(u32),
    #[error("too many blocks wait")]
    WaitingFull,
    /// The history has no room for all events: three, or two if the block blocks.
    #[error("the history is full")]
    HistoryFull,
    #[error("the store is full")]
    CellsFull,
    #[error("out of memory")]
    NoMemory,
}

impl From<AllocError> for AtomicError {
    ghost use Rattle.std.specs.Prelude.{◌≡◌};
    ghost use Rattle.stm_desk.specs.declared.errors.AtomicError.{AtomicError};

    ghost from_gives = { λ _ e. e ≡ AtomicError.NoMemory };

    fn from(_refusal: AllocError) -> AtomicError {
        AtomicError::NoMemory
    }
}

/// Why settling stopped before nothing was left to do.
#[derive(Clone, Copy, Debug, PartialEq, Eq, Error)]
pub enum SettleWhy {
    #[error("the history is full")]
    HistoryFull,
    #[error("the store is full")]
    CellsFull,
    #[error("out of memory")]
    NoMemory,
}

/// Why settling, or draining, stopped, and how many finishes and accepted deliveries came before.
#[derive(Clone, Copy, Debug, PartialEq, Eq, Error)]
#[error("settled {finished} after {evaluations} evaluations: {why}")]
pub struct SettleStop {
    pub finished: u32,
    pub evaluations: u32,
    pub why: SettleWhy,
}
