//! A label of a waiting block.

ghost use Rattle.std.specs.Prelude.{◌≡◌, ◌<◌, true, false, None, OnOk, OnErr};
ghost use Rattle.stm_terms.specs.UnlessNoMemory.{RefusedAs};
ghost use Rattle.stm_events.specs.Labels.{is_label, label_of};
ghost use Rattle.stm_terms.specs.Limits.{max_clients};
ghost use Rattle.stm_events.specs.declared.event.What.TheVariants.{Labelled};
ghost use Rattle.stm_desk.specs.DeskView.{labels_of, is_full, with_event};
ghost use Rattle.stm_desk.specs.Refusals.{label_refusal};

use crate::declare::shared_name;
use crate::desk::Desk;
use stm_events::{Event, LabelError, What};
use stm_terms::NoMemory;

impl Desk {
    /// Why the block can't get a label. The caller knows that the text is one.
    fn may_label(&self, ticket: u32) -> Result<(), LabelError>
        ensures refused { RefusedAs LabelError.NoMemory (label_refusal self.now ticket) result }
        ensures room { OnOk result (is_full self.now ≡ false) }
    {
        let full = self.is_full();
        self.machine.may_label(full, ticket)
    }

    /// The block gets a label, in place of the one that it had; an empty one takes it away. The caller's number is below 128, and it
    /// knows that the text is a label.
    pub fn label(&mut self, client: u32, ticket: u32, label: &str) -> Result<(), LabelError>
        requires client { client < max_clients }
        requires label { is_label label.now ≡ true }
        // Accepted: one more event, which gives this label to the block.
        ensures accepted { OnOk result (self.new ≡ with_event self.old client (Labelled ticket label.now)) }
        // Refused for the first reason that holds, or for lack of memory if none does.
        ensures refused { RefusedAs LabelError.NoMemory (label_refusal self.old ticket) result }
        ensures unchanged { OnErr result (self.new ≡ self.old) }
    {
        match self.may_label(ticket) {
            Ok(()) => Ok(self.label_allowed(client, ticket, label)?),
            Err(refusal) => Err(refusal),
        }
    }

    /// Gives a label that nothing refuses.
    fn label_allowed(&mut self, client: u32, ticket: u32, label: &str) -> Result<(), NoMemory>
        requires client { client < max_clients }
        requires label { is_label label.now ≡ true }
        requires allowed { label_refusal self.old ticket ≡ None }
        requires room { is_full self.old ≡ false }
        ensures accepted { OnOk result (self.new ≡ with_event self.old client (Labelled ticket label.now)) }
        ensures unchanged { OnErr result (self.new ≡ self.old) }
    {
        let shared = shared_name(*self.history.allocator(), label)?;
        let kept = shared.share()?;
        self.history.reserve(1)?;
        self.labels.set(ticket, kept)?;
        self.machine.label(ticket, label);
        self.history.push_reserved(Event {
            client,
            what: What::Labelled {
                ticket,
                label: shared,
            },
        });
        self.past.let_few_go();
        Ok(())
    }

    /// The label of the block under a ticket; the empty text if it has none, or if no block waits there.
    pub fn label_of(&self, ticket: u32) -> &str
        ensures { result.now ≡ label_of ticket (labels_of self.now) }
    {
        self.labels.label_of(ticket)
    }
}
