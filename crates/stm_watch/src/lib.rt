//! Which tickets watch which variables.
//!
//! A block waits under its ticket. When a variable changes that its evaluation read, its verdict is stale: the index finds these
//! tickets from the variables that were written. It keeps one list of tickets a variable, in ascending order, so a ticket above the
//! others is added in constant time. Contracts see a set of pairs of a variable and a ticket (`specs/Pairs`).
//!
//! `watch` has the calls. `pairs` adds, finds and removes pairs in `table`, which has for each variable its tickets (`watchers`).
#![tactic(auto)]

mod pairs;
mod table;
pub mod watch;
mod watchers;

pub use watch::Watch;
