//! The open desk of a run, and its commands: what each does, and what it prints.
//!
//! `open_desk` has the desk with the jobs that it handed out, `commands` each command in a file of its own. `jobs` has jobs
//! with the stores of their `take`, which `stores` drops; `delivery` delivers what their blocks do, and `evaluation` evaluates
//! all that is queued. `refusals` prints what is refused, and `threading` says how many threads evaluate.
//!
//! What a reader has to believe is in these modules of specs/: `OpenDesk` has the desk with the jobs handed out, and what a
//! step is; `Blocks`, `Declaring`, `Atomically`, `Jobs`, `Evaluation`, `Endings` and `Checkpointing` the steps of the commands, `Contents` and `Questions`
//! the texts of those that change nothing; `Arguments` which arguments are taken, and `Refusals` what is printed of the others;
//! `DueTickets` which tickets are to be evaluated.
#![tactic(auto)]

pub mod commands;
mod delivery;
pub mod evaluation;
pub mod jobs;
pub mod open_desk;
pub mod refusals;
mod stores;
pub mod threading;

pub use open_desk::OpenDesk;
pub use threading::Threading;
