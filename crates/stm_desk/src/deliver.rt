//! A message of an evaluator.

ghost use Rattle.std.specs.Prelude.{◌≡◌, ◌<◌, false, OnOk, IfErr, OnErr};
ghost use Rattle.stm_terms.specs.Limits.{max_clients};
ghost use Rattle.stm_eval.specs.EvaluatedFields.{message_ticket, message_block};
ghost use Rattle.stm_events.specs.Refusals.{without_message};
ghost use Rattle.stm_events.specs.States.{IsTicketOf};
ghost use Rattle.stm_machine.specs.Machine.{MayDeliver, installation_of};
ghost use Rattle.stm_desk.specs.DeskView.{state_of, is_full, with_event};
ghost use Rattle.stm_desk.specs.Refusals.{RefusesDelivery, requeued_if_overtaken};

use crate::desk::Desk;
use stm_eval::Evaluated;
use stm_events::{DeliverError, Event, What};
use stm_terms::NoMemory;

impl Desk {
    /// Why the message can't be delivered.
    fn may_deliver(&self, message: &Evaluated) -> Result<(), DeliverError>
        ensures refused { RefusesDelivery result self.now message.now }
        ensures allowed { OnOk result (MayDeliver (state_of self.now) message.now) }
        ensures room { OnOk result (is_full self.now ≡ false) }
    {
        let full = self.is_full();
        self.machine.may_deliver(full, message)
    }

    /// Why a message of one of the desk's own jobs can't be delivered.
    fn may_deliver_own(&self, message: &Evaluated) -> Result<(), DeliverError>
        requires own { IsTicketOf (message_block message.now) (state_of self.now) (message_ticket message.now) }
        ensures refused { RefusesDelivery result self.now message.now }
        ensures allowed { OnOk result (MayDeliver (state_of self.now) message.now) }
        ensures room { OnOk result (is_full self.now ≡ false) }
    {
        let full = self.is_full();
        self.machine.may_deliver_own(full, message)
    }

    /// Delivers a message that nothing refuses. An out-of-memory error hands the message back.
    // A message is moved by value; a call that isn't inlined copies it.
    #[inline(always)]
    fn deliver_allowed(
        &mut self,
        client: u32,
        message: Evaluated,
    ) -> Result<(), (Evaluated, NoMemory)>
        requires client { client < max_clients }
        requires allowed { MayDeliver (state_of self.old) message }
        requires room { is_full self.old ≡ false }
        ensures accepted { OnOk result
            (self.new ≡ with_event self.old client (installation_of message)) }
        ensures back { IfErr result (λ e. e.0 ≡ message) }
        ensures unchanged { OnErr result (self.new ≡ self.old) }
    {
        match self.history.reserve(1) {
            Ok(()) => {}
            Err(refused) => return Err((message, refused)),
        }
        let ticket = message.ticket();
        match self.machine.deliver(message) {
            Ok(verdict) => {
                self.history.push_reserved(Event {
                    client,
                    what: What::Installed { ticket, verdict },
                });
                self.past.let_few_go();
                Ok(())
            }
            Err(refused) => Err(refused),
        }
    }

    /// Delivers a message if nothing refuses it. After `Overtaken` its ticket is queued.
    #[inline(always)]
    fn deliver_unless(
        &mut self,
        client: u32,
        message: Evaluated,
        answer: Result<(), DeliverError>,
    ) -> Result<(), (Evaluated, DeliverError)>
        requires client { client < max_clients }
        requires answer { RefusesDelivery answer self.old message }
        requires allowed { OnOk answer (MayDeliver (state_of self.old) message) }
        requires room { OnOk answer (is_full self.old ≡ false) }
        ensures accepted { OnOk result
            (self.new ≡ with_event self.old client (installation_of message)) }
        ensures refused { RefusesDelivery (without_message result) self.old message }
        ensures back { IfErr result (λ e. e.0 ≡ message) }
        ensures left { IfErr result (λ e.
            self.new ≡ requeued_if_overtaken e.1 (message_ticket message) self.old) }
    {
        match answer {
            Ok(()) => {}
            Err(refusal) => {
                self.machine.after_refusal(refusal, message.ticket());
                return Err((message, refusal));
            }
        }
        match self.deliver_allowed(client, message) {
            Ok(()) => Ok(()),
            Err((message, _)) => Err((message, DeliverError::NoMemory)),
        }
    }

    /// Installs the verdict of a message, wherever and whenever it was made: its block is current from then on. The caller's
    /// number is below 128. A refusal hands the message back; after `Overtaken` the ticket is queued.
    pub fn deliver(
        &mut self,
        client: u32,
        message: Evaluated,
    ) -> Result<(), (Evaluated, DeliverError)>
        requires { client < max_clients }
        // Accepted: one more event, the installation of the message's verdict.
        ensures accepted { OnOk result
            (self.new ≡ with_event self.old client (installation_of message)) }
        // Refused for the first reason that holds, or for lack of memory if none does; the message comes back.
        ensures refused { RefusesDelivery (without_message result) self.old message }
        ensures back { IfErr result (λ e. e.0 ≡ message) }
        ensures left { IfErr result (λ e.
            self.new ≡ requeued_if_overtaken e.1 (message_ticket message) self.old) }
    {
        let answer = self.may_deliver(&message);
        self.deliver_unless(client, message, answer)
    }

    /// Installs the verdict of a message of one of the desk's own jobs (`take`), as `deliver` does. Its ticket was given to its block, so
    /// no blocks are compared, which takes as long as half of a block's evaluation.
    pub fn deliver_own(
        &mut self,
        client: u32,
        message: Evaluated,
    ) -> Result<(), (Evaluated, DeliverError)>
        requires client { client < max_clients }
        requires own { IsTicketOf (message_block message) (state_of self.old) (message_ticket message) }
        ensures accepted { OnOk result
            (self.new ≡ with_event self.old client (installation_of message)) }
        ensures refused { RefusesDelivery (without_message result) self.old message }
        ensures back { IfErr result (λ e. e.0 ≡ message) }
        ensures left { IfErr result (λ e.
            self.new ≡ requeued_if_overtaken e.1 (message_ticket message) self.old) }
    {
        let answer = self.may_deliver_own(&message);
        self.deliver_unless(client, message, answer)
    }
}
