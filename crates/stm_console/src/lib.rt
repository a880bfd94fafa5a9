//! The program over its words and streams.
//!
//! `start` (`program`) reads the words (`stm_command_line`) and does what they ask for: a run (`stm_run`), a run that keeps its history
//! in a file (`journal`, `stm_journaled_run`), a storm (`stm_storm`), an exploration (`stm_explore_script`), or a check of a history
//! (`checking`, and `why` with reasons), and returns the exit status. `files` is how it opens files. The public calls of these
//! crates are named again here.
//!
//! What a reader has to believe is in these modules of specs/: `Program` has what the program does, `Checking` what `check` finds
//! and prints, `Why` what `check --why` prints, `ExitStatus` which status goes with it, and `Journal` when a file has no history
//! to go on from; the words, runs, storms and explorations have their definitions in their crates. The numbers of the statuses
//! are in `status`, and `laws` says what each of them means.
#![tactic(auto)]

mod checking;
mod files;
mod journal;
pub mod laws;
mod program;
pub mod status;
mod why;

pub use checking::{Finding, check, check_with};
pub use files::{JournalFiles, OpenError};
pub use program::start;
pub use stm_command_line::version;
pub use stm_explore_script::{ExploreFault, exploring, write_exploration, write_fault_history};
pub use stm_lines::{RunFault, Steps, steps};
pub use stm_options::{ExploreOptions, Options, explore_options, options};
pub use stm_run::{run, run_counted};
pub use stm_storm::{StormFault, storm, storming};
pub use why::check_why;
