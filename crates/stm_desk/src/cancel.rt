//! A block that is to wait no more.

ghost use Rattle.std.specs.Prelude.{◌≡◌, ◌<◌, false, OnOk, OnErr};
ghost use Rattle.stm_terms.specs.UnlessNoMemory.{RefusedAs};
ghost use Rattle.stm_terms.specs.Limits.{max_clients};
ghost use Rattle.stm_events.specs.declared.event.What.TheVariants.{Cancelled};
ghost use Rattle.stm_desk.specs.DeskView.{is_full, with_event};
ghost use Rattle.stm_desk.specs.Refusals.{cancel_refusal};

use crate::desk::Desk;
use stm_events::{CancelError, Event, What};

impl Desk {
    /// Why the block can't be cancelled.
    fn may_cancel(&self, ticket: u32) -> Result<(), CancelError>
        ensures refused { RefusedAs CancelError.NoMemory (cancel_refusal self.now ticket) result }
        ensures room { OnOk result (is_full self.now ≡ false) }
    {
        let full = self.is_full();
        self.machine.may_cancel(full, ticket)
    }

    /// The block waits no more. The caller's number is below 128.
    pub fn cancel(&mut self, client: u32, ticket: u32) -> Result<(), CancelError>
        requires { client < max_clients }
        // Accepted: one more event, the cancellation of this ticket.
        ensures accepted { OnOk result (self.new ≡ with_event self.old client (Cancelled ticket)) }
        // Refused for the first reason that holds, or for lack of memory if none does.
        ensures refused { RefusedAs CancelError.NoMemory (cancel_refusal self.old ticket) result }
        ensures unchanged { OnErr result (self.new ≡ self.old) }
    {
        match self.may_cancel(ticket) {
            Ok(()) => {}
            Err(refusal) => return Err(refusal),
        }
        self.history.reserve(1)?;
        self.machine.cancel(ticket);
        self.labels.remove(ticket);
        self.history.push_reserved(Event {
            client,
            what: What::Cancelled { ticket },
        });
        self.past.let_few_go();
        Ok(())
    }
}
