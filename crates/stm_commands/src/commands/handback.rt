//! `handback`: a ticket that is out is queued again.

ghost use Rattle.std.specs.Prelude.{◌+◌};
ghost use Rattle.stm_commands.specs.Jobs.{queued_line, handback_ticket_step, handback_step};
ghost use Rattle.stm_commands.specs.OpenDesk.{on_desk};
ghost use Rattle.stm_commands.specs.Printing.{Prints, TakesStep};

use crate::open_desk::OpenDesk;
use crate::refusals::{refuse, refuse_argument};
use stm_lines::arguments::number_of;
use stm_terms::NoMemory;

#[tactic(auto, unfolding(crate::specs::Jobs::queued_line))]
fn write_queued(ticket: u32, out: &mut String) -> Result<(), NoMemory>
    ensures { Prints result out.old out.new (queued_line ticket) }
{
    write!(out, "queued {ticket}\n")
}

impl OpenDesk {
    /// Hands a ticket back.
    fn hand_back(&mut self, ticket: u32, out: &mut String) -> Result<(), NoMemory>
        ensures { TakesStep result self.new out.old out.new
            (on_desk self.old (handback_ticket_step self.old.desk ticket)) }
    {
        if self.desk.hand_back(ticket) {
            return write_queued(ticket, out);
        }
        refuse("NotOut", out)
    }

    /// Answers `handback`: a ticket that is out is queued again.
    #[tactic(auto, unfolding(crate::specs::Jobs::handback_step))]
    pub fn answer_handback(&mut self, argument: &str, out: &mut String) -> Result<(), NoMemory>
        ensures { TakesStep result self.new out.old out.new (handback_step self.old argument.now) }
    {
        match number_of(argument.as_bytes()) {
            Some(ticket) => self.hand_back(ticket, out),
            None => refuse_argument(out),
        }
    }
}
