//! Storms: a script of many clients, run by threads.
//!
//! `storm` (`storming`) reads a script whole (`stm_script`), runs it, replays the history that it left (`replaying`), and writes how it
//! ended; `storm_text` has the lines that are written.
//!
//! What a reader has to believe is in these modules of specs/: `StormHistory` has which history a storm leaves, and `StormText` what a
//! storm of a script may write.
#![tactic(auto)]

mod replaying;
mod storm_text;
pub mod storming;

pub use replaying::Replay;
pub use stm_script::{
    Reason, ScriptFault, script_fault, script_line, script_reader, script_so_far, storm_word,
    variables,
};
pub use storming::{StormFault, storm};
