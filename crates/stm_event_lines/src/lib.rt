//! The lines of a history: its header, its declared variables and its events as JSON, written exactly and read back exactly.
//!
//! `formats` says which formats are read and what may be in each. `write` writes the lines of a header, of a `variable` and of an event,
//! and `checkpoint` those of a checkpoint, which it also reads; `build` and `send` write their parts. `read` reads lines back, by the
//! parts of a JSON value (`fields`, `parts`, `verdicts`). A line of an event is first read in one pass as a `draft`, which is then compared
//! with the text that would be written (`drafted`). `loose` reads lines that aren't written as they have to be.
//!
//! What a reader has to believe: `specs/Lines` has the line of each event, `specs/CheckpointLines` those of a checkpoint, `specs/Fits` what
//! can stand in a line, `specs/ReadLines` what reading one returns, and `specs/CheckedBlocks` what holds of the blocks in them. The block of a text is that of `stm_source`, which
//! keeps those whose texts come again.
#![tactic(auto)]

mod build;
pub mod checkpoint;
mod draft;
pub mod drafted;
mod fields;
pub mod formats;
pub mod loose;
mod parts;
pub mod read;
mod send;
pub mod variable;
mod verdicts;
pub mod write;

pub use checkpoint::{CheckpointHeader, NamedCell, WaitingBlock};
pub use read::{Header, LineError, read_event, read_header, read_variable};
pub use variable::Variable;
pub use write::{event_text, header_text, variable_text};
