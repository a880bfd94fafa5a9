//! Runs: commands by line from a reader, answers to a writer.
//!
//! `run` (`streams`) writes exactly the text that `specs/Console` gives for what it reads. `session` is a run under way, and
//! `console` what the console knows: the declared variables, or an open desk of `stm_commands`; `command` has the words of the
//! commands, `limit` how many events a desk takes, and `reply` where an answer is. `fitting_laws` says of which texts the events of a desk
//! are, and that their numbers are small; so they can be in lines of a history, which is in `stm_run_laws` with what holds of the text.
//!
//! What a reader has to believe is in these modules of specs/: `Console` has the step of a line and what is written for an
//! input, over `ConsoleState`, what is known between two lines, and `AfterLines`; `WrittenRun` says what a run and a line of it have
//! written, by the result; `Declaring` has the step of `tvar` (those of the other commands are in `stm_commands`).
#![tactic(auto)]

pub mod command;
pub mod console;
pub mod fitting_laws;
pub mod limit;
pub mod reply;
pub mod session;
pub mod streams;

pub use streams::{run, run_counted};
