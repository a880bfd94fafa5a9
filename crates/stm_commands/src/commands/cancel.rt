//! `cancel`: a block waits no more.

ghost use Rattle.stm_desk.specs.Refusals.{cancel_refusal};
ghost use Rattle.stm_commands.specs.Endings.{cancelled_line, cancel_ticket_step, cancel_step};
ghost use Rattle.stm_commands.specs.OpenDesk.{on_desk};
ghost use Rattle.stm_commands.specs.Printing.{Prints, TakesStep};

use crate::open_desk::OpenDesk;
use crate::refusals::{refuse_argument, refuse_cancel};
use stm_lines::arguments::number_of;
use stm_terms::NoMemory;
use stm_terms::text::write_number;

#[tactic(auto, unfolding(crate::specs::Endings::cancelled_line))]
fn write_cancelled(ticket: u32, out: &mut String) -> Result<(), NoMemory>
    ensures { Prints result out.old out.new (cancelled_line ticket) }
{
    out.push_str("cancelled ")?;
    write_number(ticket, out)?;
    out.push_str("\n")
}

impl OpenDesk {
    /// Cancels the block under a ticket.
    fn cancel(&mut self, ticket: u32, out: &mut String) -> Result<(), NoMemory>
        ensures { TakesStep result self.new out.old out.new
            (on_desk self.old (cancel_ticket_step self.old.desk ticket (cancel_refusal self.old.desk ticket))) }
    {
        let answer = self.desk.cancel(0, ticket);
        // The history is known to be legal by this.
        let _events = self.desk.history();
        match answer {
            Ok(()) => write_cancelled(ticket, out),
            Err(refusal) => refuse_cancel(refusal, out),
        }
    }

    /// Answers `cancel`: the block under a ticket waits no more.
    #[tactic(auto, unfolding(crate::specs::Endings::cancel_step))]
    pub fn answer_cancel(&mut self, argument: &str, out: &mut String) -> Result<(), NoMemory>
        ensures { TakesStep result self.new out.old out.new (cancel_step self.old argument.now) }
    {
        match number_of(argument.as_bytes()) {
            Some(ticket) => self.cancel(ticket, out),
            None => refuse_argument(out),
        }
    }
}
