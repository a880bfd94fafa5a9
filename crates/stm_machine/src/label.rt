//! A block that gets a label, which leaves the machine as it is.

ghost use Rattle.std.specs.Prelude.{◌≡◌, false, true, None, OnOk};
ghost use Rattle.stm_terms.specs.UnlessNoMemory.{RefusedAs};
ghost use Rattle.stm_events.specs.declared.event.What.{What as AnyWhat};
ghost use Rattle.stm_events.specs.Labels.{is_label};
ghost use Rattle.stm_events.specs.SlowDesk.{Slow};
ghost use Rattle.stm_events.specs.Refusals.{label_refused};
ghost use Rattle.stm_machine.specs.Machine.{IsAt, MovesBy};

use crate::machine::Machine;
use stm_events::errors::LabelError;

impl Machine {
    /// Why the block under a ticket can't get a label. The caller knows that the text is one, and says whether the history is full.
    pub fn may_label(&self, full: bool, ticket: u32) -> Result<(), LabelError>
        ensures refused { (s : Slow) → IsAt self.now s
            → RefusedAs LabelError.NoMemory (label_refused s full ticket) result }
        ensures room { OnOk result (full ≡ false) }
    {
        match self.waiting.get(ticket) {
            None => Err(LabelError::NoTicket),
            Some(_) => {
                if full {
                    Err(LabelError::HistoryFull)
                } else {
                    Ok(())
                }
            }
        }
    }

    /// The block gets a label. A state has no labels, so nothing is to be done: the machine is at the state after it already.
    pub fn label(&self, ticket: u32, label: &str)
        requires label { is_label label.now ≡ true }
        requires may { (s : Slow) × IsAt self.now s × (label_refused s false ticket ≡ None) }
        ensures { MovesBy (AnyWhat.Labelled ticket label.now) self.now self.now }
    {}
}
