//! `submit`: a block waits under a new ticket.

ghost use Rattle.stm_desk.specs.Refusals.{submit_refusal};
ghost use Rattle.stm_commands.specs.Blocks.{ticket_line, submit_block_step, submit_step};
ghost use Rattle.stm_commands.specs.OpenDesk.{on_desk};
ghost use Rattle.stm_commands.specs.Printing.{Prints, TakesStep};

use crate::open_desk::OpenDesk;
use crate::refusals::{refuse_submit, write_refusal};
use std::alloc::Global;
use stm_check::SharedBlock;
use stm_terms::NoMemory;
use stm_terms::text::write_number;

#[tactic(auto, unfolding(crate::specs::Blocks::ticket_line))]
fn write_ticket_line(ticket: u32, out: &mut String) -> Result<(), NoMemory>
    ensures { Prints result out.old out.new (ticket_line ticket) }
{
    out.push_str("ticket ")?;
    write_number(ticket, out)?;
    out.push_str("\n")
}

impl OpenDesk {
    /// Submits a block.
    fn submit(&mut self, block: SharedBlock, out: &mut String) -> Result<(), NoMemory>
        ensures { TakesStep result self.new out.old out.new
            (on_desk self.old (submit_block_step self.old.desk block (submit_refusal self.old.desk block))) }
    {
        let answer = self.desk.submit(0, block);
        // The history is known to be legal by this.
        let _events = self.desk.history();
        match answer {
            Ok(ticket) => write_ticket_line(ticket, out),
            Err(refusal) => refuse_submit(refusal, out),
        }
    }

    /// Answers `submit`: the ticket under which a block waits.
    #[tactic(auto, unfolding(crate::specs::Blocks::submit_step))]
    pub fn answer_submit(
        &mut self,
        alloc: Global,
        text: &str,
        out: &mut String,
    ) -> Result<(), NoMemory>
        ensures { TakesStep result self.new out.old out.new (submit_step self.old text.now) }
    {
        match self.block(alloc, text) {
            Ok(block) => self.submit(block, out),
            Err(refusal) => write_refusal(refusal, out),
        }
    }
}
