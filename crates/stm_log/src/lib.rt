//! The nested log of an evaluation: a stack of views over one unchanging content, and one ascending set of reads that
//! no frame owns.
//!
//! A frame is opened for a branch of `orElse` and then kept or discarded. What was read stays in either case, since it
//! decided which branch ran. `specs/LogModel` says what contracts see of a log.
//!
//! `log` has the calls, over the changes that each `frame` sees, and `reads` what is left of the reads in the end. Both keep values
//! by variable in a `value_map`.
#![tactic(auto)]

mod frame;
pub mod log;
pub mod reads;
mod value_map;

pub use log::{Ends, Log};
pub use reads::Reads;
