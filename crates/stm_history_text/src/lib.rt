//! The text of a history: its head, which is a table or a checkpoint, and its lines of events, written to a writer.
//!
//! What a reader has to believe: `specs/Starts` has where a history begins and the format in which it is written, `specs/HistoryText` the
//! text of a whole history, and what is written of it if the writer fails.
//!
//! The one module is `writing`. The lines are those of `stm_event_lines`, and `stm_history` reads and judges what is written here.
#![tactic(auto)]

pub mod writing;

pub use writing::{WriteFault, format_for, write_events, write_history, write_line, write_start};
