//! `checkpoint`: the history begins from where the desk is.

ghost use Rattle.std.specs.Prelude.{◌≡◌, length, IfOk};
ghost use Rattle.stm_desk.specs.Checkpointed.{checkpoint_now};
ghost use Rattle.stm_commands.specs.Checkpointing.{MayStartFrom, begun_anew, checkpoint_line, bare_checkpoint_step, next_checkpoint_of};
ghost use Rattle.stm_commands.specs.Printing.{Prints, TakesStep};

use crate::open_desk::OpenDesk;
use crate::refusals::refuse;
use std::alloc::AllocError;
use stm_desk::{Checkpoint, CheckpointError};
use stm_terms::NoMemory;

/// Appends the answer to `checkpoint`: how many events the history had before.
#[tactic(auto, unfolding(crate::specs::Checkpointing::checkpoint_line))]
pub fn write_checkpoint_line(count: u32, out: &mut String) -> Result<(), NoMemory>
    ensures { Prints result out.old out.new (checkpoint_line count) }
{
    write!(out, "checkpoint {count}\n")
}

impl OpenDesk {
    /// The checkpoint of the present state, from which the history can begin (`begin_from`); none if tickets could run out after it.
    pub fn next_checkpoint(&self) -> Result<Option<Checkpoint>, NoMemory>
        ensures made { IfOk result (λ o. o ≡ next_checkpoint_of self.now) }
        ensures start { IfOk result (MayStartFrom self.now.desk.table) }
    {
        match self.desk.next_checkpoint() {
            Ok(checkpoint) => Ok(Some(checkpoint)),
            Err(CheckpointError::TicketsFull) => Ok(None),
            Err(CheckpointError::NoMemory) => Err(AllocError),
        }
    }

    /// Lets the history begin from the checkpoint of the present state, and returns how many events it had.
    pub fn begin_from(&mut self, checkpoint: Checkpoint) -> u32
        requires { checkpoint ≡ checkpoint_now self.old.desk }
        ensures count { result ≡ length self.old.desk.history }
        ensures begun { self.new ≡ begun_anew self.old }
    {
        let count = self.desk.begin_from(checkpoint);
        // The history is known to be legal by this.
        let _events = self.desk.history();
        count
    }

    /// Answers `checkpoint`, without an argument: how many events the history had before.
    pub fn answer_checkpoint(&mut self, out: &mut String) -> Result<(), NoMemory>
        ensures { TakesStep result self.new out.old out.new (bare_checkpoint_step self.old) }
    {
        match self.next_checkpoint()? {
            Some(checkpoint) => {
                let count = self.begin_from(checkpoint);
                write_checkpoint_line(count, out)
            }
            None => refuse("TicketsFull", out),
        }
    }
}
