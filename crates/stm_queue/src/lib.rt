//! The tickets whose blocks are to be evaluated.
//!
//! A ticket is queued until someone takes it to evaluate its block; then it is out, until it is handed back or its
//! verdict is delivered. `pending` has the queue, `sorted` what it does on a sorted list of tickets, and `laws` what holds of its calls.
//!
//! What a reader has to believe is in these modules of specs/: `Queue` has what contracts see, which is the ascending list of the
//! tickets, each with whether it is out, and for how many more there is room; `SortedTickets` says when a list ascends, and `Laws`
//! how each call changes the list.
#![tactic(auto)]

pub mod laws;
pub mod pending;
pub mod sorted;

pub use pending::Pending;
