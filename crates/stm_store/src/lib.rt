//! The declared variables, their names, the store of their values, and unchanging copies of it.
//!
//! `table` has the variables that are declared at the start, and `names` all that blocks may use. `store` has their values in
//! cells (`cell`), and applies verdicts at once or in two steps, by a `ready` one; `frozen` is a copy of it that doesn't change.
//! `laws` states what a verdict does to a store. The other modules keep cells in pages that copies share, and test types.
//!
//! What a reader has to believe is in `specs/`: `Tables` (what holds of every table, and why a variable can't be declared), `Naming`
//! (the names that blocks may use), `Cells` (what holds of every store, which verdicts fit it, and what applying one does),
//! `Applying` (what a call that applies a verdict does, by its result), and `Laws` (what applying a verdict keeps).
#![tactic(auto)]

mod apply;
pub mod cell;
mod cell_list;
mod cell_traits;
mod changed_variables;
mod covers;
mod fits;
pub mod frozen;
mod in_place;
pub mod laws;
pub mod names;
mod page;
mod paged_list;
mod parts;
pub mod ready;
mod renumber;
pub mod seed;
pub mod store;
pub mod table;
mod tree;
mod types;

pub use cell::Cell;
pub use frozen::Frozen;
pub use names::Names;
pub use ready::{Applied, ApplyError, Ready};
pub use seed::Seed;
pub use store::{Store, StoreError};
pub use table::{DeclareError, Table};
