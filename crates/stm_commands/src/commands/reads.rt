//! `reads`: what a block read at its last delivery.

ghost use Rattle.stm_events.specs.SlowDesk.{find_waiter};
ghost use Rattle.stm_desk.specs.DeskView.{state_of};
ghost use Rattle.stm_commands.specs.Contents.{waiter_reads_text, reads_answer};
ghost use Rattle.stm_commands.specs.Printing.{Prints};

use crate::commands::trial::write_reads_line;
use crate::open_desk::OpenDesk;
use crate::refusals::{refuse, refuse_argument};
use stm_desk::Desk;
use stm_lines::arguments::number_of;
use stm_terms::NoMemory;

/// Appends what the block under a ticket read at its last delivery.
fn write_reads(desk: &Desk, ticket: u32, out: &mut String) -> Result<(), NoMemory>
    ensures { Prints result out.old out.new
        (waiter_reads_text (find_waiter ticket (state_of desk.now).waiters)) }
{
    if desk.block(ticket).is_none() {
        return refuse("NoTicket", out);
    }
    match desk.reads(ticket) {
        Some(reads) => write_reads_line(reads, out),
        None => refuse("NotEvaluated", out),
    }
}

impl OpenDesk {
    /// Answers `reads`: what a block read at its last delivery.
    #[tactic(auto, unfolding(crate::specs::Contents::reads_answer))]
    pub fn answer_reads(&self, argument: &str, out: &mut String) -> Result<(), NoMemory>
        ensures { Prints result out.old out.new (reads_answer self.now argument.now) }
    {
        match number_of(argument.as_bytes()) {
            Some(ticket) => write_reads(&self.desk, ticket, out),
            None => refuse_argument(out),
        }
    }
}
