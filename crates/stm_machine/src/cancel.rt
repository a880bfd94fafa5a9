//! A block that is cancelled.

ghost use Rattle.std.specs.Prelude.{◌≡◌, false, None, OnOk};
ghost use Rattle.stm_terms.specs.UnlessNoMemory.{RefusedAs};
ghost use Rattle.stm_queue.specs.Queue.{without_ticket};
ghost use Rattle.stm_events.specs.declared.event.What.{What as AnyWhat};
ghost use Rattle.stm_events.specs.SlowDesk.{Slow};
ghost use Rattle.stm_events.specs.Refusals.{cancel_refused};
ghost use Rattle.stm_machine.specs.Machine.{IsAt, MovesBy};

use crate::index::forget;
use crate::machine::Machine;
use stm_events::errors::CancelError;

impl Machine {
    /// Why the block under a ticket can't be cancelled. `full` says whether the history is.
    pub fn may_cancel(&self, full: bool, ticket: u32) -> Result<(), CancelError>
        ensures refused { (s : Slow) → IsAt self.now s
            → RefusedAs CancelError.NoMemory (cancel_refused s full ticket) result }
        ensures room { OnOk result (full ≡ false) }
    {
        match self.waiting.get(ticket) {
            None => Err(CancelError::NoTicket),
            Some(_) => {
                if full {
                    Err(CancelError::HistoryFull)
                } else {
                    Ok(())
                }
            }
        }
    }

    /// The block waits no more. It takes no memory.
    pub fn cancel(&mut self, ticket: u32)
        // At a state that the machine is at, nothing refuses it.
        requires { (s : Slow) × IsAt self.old s × (cancel_refused s false ticket ≡ None) }
        ensures done { MovesBy (AnyWhat.Cancelled ticket) self.old self.new }
        ensures pending { self.new.pending ≡ without_ticket ticket self.old.pending }
    {
        let _ = forget(&mut self.waiting, &mut self.watch, ticket);
        self.ready.remove(ticket);
        let _ = self.pending.remove(ticket);
    }
}
