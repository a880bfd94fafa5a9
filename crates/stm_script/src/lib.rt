//! Scripts of clients: their declarations, sections and tasks, and how they are read.
//!
//! The modules, in the order in which one reads them:
//!
//! - `script_reader` reads a script to the end of the input; `reading_fault` says why it wasn't read, and `script_fault` why a line is
//!   faulty, with the text of that;
//! - `section`: what a client does, task by task;
//! - `script_so_far`: a script that is being read, which takes it line by line; `begun_section` is the section under way, and `variables`
//!   those that are declared;
//! - `storm_word` has the words of the lines, and `script_line` says what the argument of a line is.
//!
//! What a reader has to believe is in these modules of specs/: `StormScript` has what a script says, or its first faulty line
//! and why it is faulty, `ScriptReading` what the calls return by that, `FaultText` what is written of a faulty line, and `Limits` how
//! many sections there may be.
#![tactic(auto)]

mod begun_section;
pub mod reading_fault;
pub mod script_fault;
pub mod script_line;
pub mod script_reader;
pub mod script_so_far;
pub mod section;
pub mod storm_word;
pub mod variables;

pub use reading_fault::ReadingFault;
pub use script_fault::{Reason, ScriptFault, write_script_fault};
pub use section::{MAX_SECTIONS, Section, Task};
