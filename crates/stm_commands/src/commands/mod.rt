//! The commands, each in a file of its own: `OpenDesk::answer_..` prints the answer, and makes the step.

mod atomically;
mod block;
mod board;
mod cancel;
pub mod checkpoint;
mod declare;
mod deliver;
mod drain;
mod eval;
mod events;
mod finish;
mod handback;
mod label;
mod reads;
mod ready;
mod settle;
mod show;
mod store;
mod submit;
mod take;
mod trial;
mod why;
