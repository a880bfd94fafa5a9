//! Running threads: a desk that many of them share.
//!
//! The modules, in the order in which one reads them:
//!
//! - `pass`: what a client carries: its number, its own accepted events, and its share of the count of all;
//! - `errors`: why a desk isn't shown or closed;
//! - `guarded`: the desk under its lock. A call is lent the desk and a pass, so its contract says all that it does;
//! - `shared`: the lock, and how a desk opens with a pass for each client;
//! - `calls`: the calls through the lock. Each says what it did to the caller's pass;
//! - `close`: all passes are compared with the history, and the desk is given back;
//! - `worker`: what a worker does: it takes a job, evaluates it without the lock, and delivers;
//! - `storm`: clients and workers in threads of their own over one such desk, which is closed at the end. `client` does the tasks of a
//!   section, `counting` counts what came of them, and `threads` starts the threads and joins them.
//!
//! `stm_jobs` evaluates many jobs by threads, and is named here, too: `evaluate_all`, `all` and `slot`.
//!
//! What a reader has to believe is in these modules of specs/: `Own` (what a pass knows of its client's events, and which of them a
//! history has), `Lent` (what a call does that is lent the desk and a pass), `Shown` (what a view shows a client), `Found` (which store
//! comes with a job that a worker finds), `Closing` (when a desk may be closed, and why it isn't), `Worked` (what a worker adds to its
//! pass), and `Storms` (what a storm's counts say of the history).
#![tactic(auto)]

// The desk under its lock.
pub mod errors;
pub mod guarded;
pub mod pass;

// The lock, and workers.
pub mod calls;
pub mod close;
pub mod shared;
pub mod worker;

// Clients and workers in threads of their own.
mod client;
mod counting;
pub mod storm;
mod threads;

pub use calls::Next;
pub use close::Report;
pub use errors::{CloseError, ViewError};
pub use guarded::{Guarded, View};
pub use pass::Pass;
pub use shared::SharedDesk;
pub use stm_jobs::{Answer, MAX_WORKERS, all, evaluate_all, slot};
pub use stm_script::{Section, Task, section};
pub use storm::{Counts, MAX_SECTIONS, StormEnd, run_storm};
pub use worker::{Gate, WorkEnd, work};
