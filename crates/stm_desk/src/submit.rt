//! A block that is to wait.

ghost use Rattle.std.specs.Prelude.{◌≡◌, ◌<◌, false, IfOk, OnOk, OnErr};
ghost use Rattle.stm_terms.specs.UnlessNoMemory.{RefusedAs};
ghost use Rattle.stm_terms.specs.Limits.{max_clients};
ghost use Rattle.stm_events.specs.declared.event.What.TheVariants.{Submitted};
ghost use Rattle.stm_events.specs.Laws.{IsWellTyped};
ghost use Rattle.stm_desk.specs.DeskView.{state_of, is_full, with_event};
ghost use Rattle.stm_desk.specs.Refusals.{submit_refusal};

use crate::desk::Desk;
use stm_check::SharedBlock;
use stm_events::{Event, SubmitError, What};

/// Every block is well typed. Its type keeps that, and this says it.
pub(crate) fn say_typed(block: &SharedBlock)
    ensures { IsWellTyped block.now }
{
    let _action = block.block().action();
}

impl Desk {
    /// Why the block can't be submitted.
    fn may_submit(&self, block: &SharedBlock) -> Result<(), SubmitError>
        ensures refused { RefusedAs SubmitError.NoMemory (submit_refusal self.now block.now) result }
        ensures room { OnOk result (is_full self.now ≡ false) }
    {
        let full = self.is_full();
        self.machine.may_submit(full, block)
    }

    /// The block waits from now on, under the ticket that is returned, and is queued. The caller's number is below 128.
    pub fn submit(&mut self, client: u32, block: SharedBlock) -> Result<u32, SubmitError>
        requires { client < max_clients }
        // Accepted: one more event, the submission of the block under the ticket that is returned.
        ensures accepted { IfOk result (λ t. self.new ≡ with_event self.old client (Submitted t block)) }
        ensures ticket { IfOk result (λ t. t ≡ (state_of self.old).next) }
        // Refused for the first reason that holds, or for lack of memory if none does.
        ensures refused { RefusedAs SubmitError.NoMemory (submit_refusal self.old block) result }
        ensures unchanged { OnErr result (self.new ≡ self.old) }
    {
        match self.may_submit(&block) {
            Ok(()) => {}
            Err(refusal) => return Err(refusal),
        }
        say_typed(&block);
        let shared = block.share()?;
        self.history.reserve(1)?;
        let ticket = self.machine.submit(block)?;
        self.history.push_reserved(Event {
            client,
            what: What::Submitted {
                ticket,
                block: shared,
            },
        });
        self.past.let_few_go();
        Ok(ticket)
    }
}
