//! The file that keeps a desk's history: exactly the text of docs/HISTORY.md, batch after batch.
//!
//! `recording` adds events: when `record` returns `Ok`, they are in the file and, as the `SyncMode` says, on the disk. A crash at any moment
//! leaves a file that stands for the events from before the batch, with some or all of the batch. `resuming` opens such a file, and the
//! desk goes on from there (`open_history`). `beginning` lets a history begin, or begin again from a checkpoint, in a new file;
//! `measured` counts the bytes of its lines. `laws` says that what a crash leaves is loaded again.
//!
//! What a reader has to believe is in `specs/Durable`.
#![tactic(auto)]

mod beginning;
pub mod laws;
mod measured;
mod recording;
mod resuming;

pub use recording::HistoryFile;
pub use resuming::{OpenFault, Opened, open_history};
