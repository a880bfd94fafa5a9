//! The waiting blocks by their tickets, each with what its last delivery brought.
//!
//! `WaitingBlocks` finds the block of a ticket by a binary search, and mostly at once; it adds and removes one in constant time. Its memory
//! grows with the number of blocks that wait at once, and not with the number of tickets. Contracts see a list of tickets with blocks,
//! ascending. `TicketSet` is a set of tickets that keeps room for more.
//!
//! `waiting` has what is kept of a block, and the blocks by their tickets, over `table`, which finds the place of a ticket, and `places`,
//! where the blocks lie. `ticket_set` has the set.
#![tactic(auto)]

mod places;
mod table;
pub mod ticket_set;
pub mod waiting;

pub use ticket_set::TicketSet;
pub use waiting::{Held, Waiting, WaitingBlocks};
