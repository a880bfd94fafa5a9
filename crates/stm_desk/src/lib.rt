//! The desk: the store, the blocks that wait under tickets, and the history.
//!
//! A desk is a machine of `stm_machine` with the table that it was opened on, the checkpoint that its history begins from, how many
//! events it takes, and the list of its events. Contracts see these and the tickets that are queued or out (`specs/DeskView`); all else
//! is what the slow desk makes of the history (`stm_events/specs/SlowDesk`). `specs/Refusals` says what each call is refused for,
//! `specs/Evaluating` what evaluating the queued blocks does, `specs/Settling` what settling does and why it stops, `specs/Reasons`
//! what a waiting block waits for, and `specs/Checkpointed` what a checkpoint has. Each accepted call adds exactly its event, and
//! `atomically` all of its events or none. Only `evaluate_queued`, `settle`, `drain` and `atomically` evaluate blocks.
//!
//! `desk` has the desk, which a table or a history (`resume`) opens. `submit`, `take`, `deliver`, `finish` and `cancel` are the life of a
//! block; `declare` and `label` are calls of their own. `evaluate` evaluates what is queued, `atomic` runs a block at once, and `settle`
//! goes on until nothing is left to do. `show` has the questions, `why` what a block waits for (`reason`), and `checkpoint` makes the
//! history begin from the present state, with the `causes` of stale blocks; the `past` events are dropped little by little. `errors`
//! says why a block isn't run atomically, and why settling stops.
#![tactic(auto)]

// The desk and its calls.
pub mod atomic;
pub mod cancel;
mod causes;
pub mod checkpoint;
pub mod declare;
pub mod deliver;
pub mod desk;
pub mod evaluate;
pub mod finish;
pub mod label;
mod past;
pub mod reason;
pub mod resume;
pub mod settle;
pub mod show;
pub mod submit;
pub mod take;
pub mod why;

// Why a block isn't run atomically, and why settling stops.
pub mod errors;

pub use atomic::Ran;
pub use desk::Desk;
pub use errors::{AtomicError, SettleStop, SettleWhy};
pub use evaluate::Evaluation;
pub use finish::Finish;
pub use reason::{Change, Reason};
pub use resume::TooManyEvents;
pub use settle::Settled;
pub use stm_events::{
    CancelError, DeliverError, FinishError, LabelError, LabelTable, LateDeclareError, Status,
    SubmitError,
};
pub use stm_machine::{Checkpoint, CheckpointError};
