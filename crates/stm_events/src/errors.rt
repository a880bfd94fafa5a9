//! Why a call is refused. The first that holds is reported.

use std::alloc::AllocError;
use thiserror::Error;

/// Why a block isn't submitted.
#[derive(Clone, Copy, Debug, PartialEq, Eq, Error)]
pub enum SubmitError {
    /// The first variable that the block names which the store lacks or has with another type.
    #[error("the store has no variable {0} of this type")]
    Foreign(u32),
    #[error("too many blocks wait")]
    WaitingFull,
    #[error("the history is full")]
    HistoryFull,
    #[error("out of memory")]
    NoMemory,
}

/// Why a message isn't installed.
#[derive(Clone, Copy, Debug, PartialEq, Eq, Error)]
pub enum DeliverError {
    #[error("no block waits under the ticket")]
    Gone,
    #[error("another block waits under the ticket")]
    OtherBlock,
    #[error("the block is current")]
    Already,
    /// The least variable that was read whose value differs now.
    #[error("variable {0} has changed")]
    Overtaken(u32),
    #[error("the history is full")]
    HistoryFull,
    #[error("out of memory")]
    NoMemory,
}

/// Why a block isn't finished.
#[derive(Clone, Copy, Debug, PartialEq, Eq, Error)]
pub enum FinishError {
    #[error("no block waits under the ticket")]
    NoTicket,
    #[error("the block has not been evaluated")]
    NotEvaluated,
    #[error("a variable that the block read was written")]
    Stale,
    #[error("the block blocks")]
    Blocks,
    #[error("the history is full")]
    HistoryFull,
    #[error("the store is full")]
    CellsFull,
    #[error("out of memory")]
    NoMemory,
}

/// Why a block isn't cancelled.
#[derive(Clone, Copy, Debug, PartialEq, Eq, Error)]
pub enum CancelError {
    #[error("no block waits under the ticket")]
    NoTicket,
    #[error("the history is full")]
    HistoryFull,
    #[error("out of memory")]
    NoMemory,
}

/// Why a block isn't labelled.
#[derive(Clone, Copy, Debug, PartialEq, Eq, Error)]
pub enum LabelError {
    #[error("no block waits under the ticket")]
    NoTicket,
    #[error("the history is full")]
    HistoryFull,
    #[error("out of memory")]
    NoMemory,
}

/// Why a variable isn't declared after the first command.
#[derive(Clone, Copy, Debug, PartialEq, Eq, Error)]
pub enum LateDeclareError {
    #[error("the name is declared already")]
    Twice,
    /// The type has more than 8 `TVar`, or the value isn't of it: a reference must be to a variable that has a name.
    #[error("the value is not of the type")]
    TypeOfValue,
    #[error("the history is full")]
    HistoryFull,
    #[error("the store is full")]
    CellsFull,
    #[error("out of memory")]
    NoMemory,
}

impl From<AllocError> for SubmitError {
    ghost use Rattle.std.specs.Prelude.{◌≡◌};
    ghost use Rattle.stm_events.specs.declared.errors.SubmitError.{SubmitError};

    ghost from_gives = { λ _ e. e ≡ SubmitError.NoMemory };

    fn from(_refusal: AllocError) -> SubmitError {
        SubmitError::NoMemory
    }
}

impl From<AllocError> for FinishError {
    ghost use Rattle.std.specs.Prelude.{◌≡◌};
    ghost use Rattle.stm_events.specs.declared.errors.FinishError.{FinishError};

    ghost from_gives = { λ _ e. e ≡ FinishError.NoMemory };

    fn from(_refusal: AllocError) -> FinishError {
        FinishError::NoMemory
    }
}

impl From<AllocError> for CancelError {
    ghost use Rattle.std.specs.Prelude.{◌≡◌};
    ghost use Rattle.stm_events.specs.declared.errors.CancelError.{CancelError};

    ghost from_gives = { λ _ e. e ≡ CancelError.NoMemory };

    fn from(_refusal: AllocError) -> CancelError {
        CancelError::NoMemory
    }
}

impl From<AllocError> for LabelError {
    ghost use Rattle.std.specs.Prelude.{◌≡◌};
    ghost use Rattle.stm_events.specs.declared.errors.LabelError.{LabelError};

    ghost from_gives = { λ _ e. e ≡ LabelError.NoMemory };

    fn from(_refusal: AllocError) -> LabelError {
        LabelError::NoMemory
    }
}

impl From<AllocError> for LateDeclareError {
    ghost use Rattle.std.specs.Prelude.{◌≡◌};
    ghost use Rattle.stm_events.specs.declared.errors.LateDeclareError.{LateDeclareError};

    ghost from_gives = { λ _ e. e ≡ LateDeclareError.NoMemory };

    fn from(_refusal: AllocError) -> LateDeclareError {
        LateDeclareError::NoMemory
    }
}
