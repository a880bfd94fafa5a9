//! A history that begins from where the desk is.

ghost use Rattle.std.specs.Prelude.{◌≡◌, Some, option_map, IfOk, OnErr};
ghost use Rattle.stm_terms.specs.UnlessNoMemory.{RefusedAs};
ghost use Rattle.stm_machine.specs.Checkpoints.{MayStart, checkpoint_of, with_labels};
ghost use Rattle.stm_desk.specs.DeskView.{state_of, labels_of};
ghost use Rattle.stm_desk.specs.Checkpointed.{checkpoint_now, checkpoint_refusal, HasBegunFrom};

use crate::desk::Desk;
use std::alloc::Global;
use stm_machine::{Checkpoint, CheckpointError};
use stm_terms::NoMemory;

impl Desk {
    /// The checkpoint of the present state, with the labels of its blocks and with why the stale ones are stale, from which the history
    /// can begin (`begin_from`). Goes through the history from its end, until the causes of all stale blocks are found.
    pub fn next_checkpoint(&self) -> Result<Checkpoint, CheckpointError>
        ensures taken { IfOk result (λ c. c ≡ checkpoint_now self.now) }
        ensures start { IfOk result (λ c. MayStart self.now.table (Some c)) }
        // Refused if tickets could run out in a history from here, or for lack of memory if they couldn't.
        ensures refused { RefusedAs CheckpointError.NoMemory (checkpoint_refusal self.now) result }
    {
        // The variables are known to be well typed by this.
        let _variables = self.table.len();
        let alloc = *self.history.allocator();
        match self.machine.checkpoint(alloc, &self.labels) {
            Ok(checkpoint) => Ok(self.with_causes(alloc, checkpoint)?),
            Err(refusal) => Err(refusal),
        }
    }

    /// A checkpoint of the present state with the causes of its stale blocks.
    fn with_causes(&self, alloc: Global, checkpoint: Checkpoint) -> Result<Checkpoint, NoMemory>
        requires { checkpoint ≡ with_labels (labels_of self.now) (checkpoint_of (state_of self.now)) }
        ensures taken { IfOk result (λ c. c ≡ checkpoint_now self.now) }
        ensures start { IfOk result (λ c. MayStart self.now.table (Some c)) }
    {
        // The variables are known to be well typed by this.
        let _variables = self.table.len();
        // It is known to be a checkpoint by this.
        let _next = checkpoint.next();
        let causes = self.causes(alloc, checkpoint.blocks())?;
        checkpoint.with_causes(alloc, &causes)
    }

    /// Lets the history begin from the checkpoint of the present state, and returns how many events it had. No answer about the present
    /// differs. The history is empty, and has room for as many events as the desk takes. Queued tickets stay queued, and tickets that
    /// are out stay out.
    pub fn begin_from(&mut self, checkpoint: Checkpoint) -> u32
        requires { checkpoint ≡ checkpoint_now self.old }
        ensures { HasBegunFrom self.old self.new result }
    {
        // The variables are known to be well typed by this.
        let _variables = self.table.len();
        // It is known to be a checkpoint by this.
        let _next = checkpoint.next();
        let events = self.history.len() as u32;
        self.past.take_events(&mut self.history);
        self.checkpoint = Some(checkpoint);
        events
    }

    /// Makes a checkpoint: from now on the history is empty, and begins from the present state, as after `begin_from`. Returns how many
    /// events it had.
    pub fn checkpoint(&mut self) -> Result<u32, CheckpointError>
        ensures begun { IfOk result (HasBegunFrom self.old self.new) }
        // Refused if tickets could run out in a history from here, or for lack of memory if they couldn't.
        ensures refused { RefusedAs CheckpointError.NoMemory (checkpoint_refusal self.old) result }
        ensures unchanged { OnErr result (self.new ≡ self.old) }
    {
        match self.next_checkpoint() {
            Ok(checkpoint) => Ok(self.begin_from(checkpoint)),
            Err(refused) => Err(refused),
        }
    }

    /// The checkpoint that the history begins from; none if it begins with the first values of the variables.
    pub fn begins_from(&self) -> Option<&Checkpoint>
        ensures { option_map (λ c. c.now) result ≡ self.now.checkpoint }
    {
        self.checkpoint.as_ref()
    }
}
