//! A block that is submitted.

ghost use Rattle.std.specs.Prelude.{◌≡◌, false, None, IfOk, OnOk, OnErr};
ghost use Rattle.stm_terms.specs.UnlessNoMemory.{RefusedAs};
ghost use Rattle.stm_store.specs.Cells.{plains, kinds_of};
ghost use Rattle.stm_store.specs.Tables.{is_type};
ghost use Rattle.stm_queue.specs.Queue.{with_ticket};
ghost use Rattle.stm_events.specs.declared.event.What.{What as AnyWhat};
ghost use Rattle.stm_events.specs.SlowDesk.{Slow};
ghost use Rattle.stm_events.specs.Refusals.{missing, submit_refused};
ghost use Rattle.stm_machine.specs.Machine.{IsAt, HasTicketLeft, MovesBy};

use crate::machine::Machine;
use stm_check::SharedBlock;
use stm_events::errors::SubmitError;
use stm_store::Store;
use stm_terms::NoMemory;
use stm_terms::kinds::Ty;

/// Whether the store has the variable with the type.
fn has_variable(store: &Store, id: u32, kind: Ty) -> bool
    ensures { result ≡ is_type (kinds_of (plains store.now) id) kind }
{
    (id as usize) < store.len() && store.kind(id) == kind
}

/// The first of the variables that a block names which the store lacks or has with another type.
fn first_missing(store: &Store, uses: &[(u32, Ty)]) -> Option<u32>
    ensures { result ≡ missing (plains store.now) uses.now }
{
    for (id, kind) in uses {
        if !has_variable(store, *id, *kind) {
            return Some(*id);
        }
    }
    None
}

impl Machine {
    /// Why the block can't be submitted. `full` says whether the history is, which the machine doesn't have.
    pub fn may_submit(&self, full: bool, block: &SharedBlock) -> Result<(), SubmitError>
        ensures refused { (s : Slow) → IsAt self.now s
            → RefusedAs SubmitError.NoMemory (submit_refused s full block.now) result }
        ensures room { OnOk result (full ≡ false) }
    {
        match first_missing(&self.store, block.block().uses()) {
            Some(id) => return Err(SubmitError::Foreign(id)),
            None => {}
        }
        if self.waiting.len() >= Machine::MAX_WAITING {
            return Err(SubmitError::WaitingFull);
        }
        if full {
            return Err(SubmitError::HistoryFull);
        }
        Ok(())
    }

    /// The block waits from now on, under the ticket that is returned, and is queued.
    pub fn submit(&mut self, block: SharedBlock) -> Result<u32, NoMemory>
        // At a state that the machine is at, a ticket is left, and nothing refuses the block.
        requires { (s : Slow) × IsAt self.old s × HasTicketLeft s
            × (submit_refused s false block ≡ None) }
        ensures done { IfOk result (λ t. MovesBy (AnyWhat.Submitted t block) self.old self.new) }
        ensures ticket { IfOk result (λ t. t ≡ self.old.next) }
        ensures pending { IfOk result (λ t. self.new.pending ≡ with_ticket t self.old.pending) }
        ensures unchanged { OnErr result (self.new ≡ self.old) }
    {
        self.pending.make_room(1)?;
        let ticket = self.next;
        self.waiting.insert(ticket, block)?;
        self.next += 1;
        self.pending.add(ticket);
        Ok(ticket)
    }
}
