//! `atomically`: a transaction in one line.

ghost use Rattle.std.specs.Prelude.{◌≡◌, List, IfSome};
ghost use Rattle.stm_store.specs.declared.cell.Cell.{Cell};
ghost use Rattle.stm_store.specs.Cells.{applied_answer};
ghost use Rattle.stm_desk.specs.Events.{evaluated_and_finished};
ghost use Rattle.stm_desk.specs.Refusals.{atomic_refusal};
ghost use Rattle.stm_commands.specs.Atomically.{waits_line, ran_text, atomically_block_step, atomically_step};
ghost use Rattle.stm_commands.specs.OpenDesk.{on_desk};
ghost use Rattle.stm_commands.specs.Printing.{Prints, TakesStep};

use crate::commands::finish::write_finish;
use crate::open_desk::OpenDesk;
use crate::refusals::{refuse_atomically, write_refusal};
use std::alloc::Global;
use stm_check::SharedBlock;
use stm_desk::Ran;
use stm_terms::NoMemory;
use stm_terms::text::write_number;

#[tactic(auto, unfolding(crate::specs::Atomically::waits_line))]
fn write_waits_line(ticket: u32, out: &mut String) -> Result<(), NoMemory>
    ensures { Prints result out.old out.new (waits_line ticket) }
{
    out.push_str("waits ")?;
    write_number(ticket, out)?;
    out.push_str("\n")
}

/// Appends what running a block came to.
fn write_ran(ran: Ran, out: &mut String) -> Result<(), NoMemory>
    requires { (cells : List Cell) × IfSome ran.finish (λ f. f.applied ≡ applied_answer cells f.verdict) }
    ensures { Prints result out.old out.new
        (ran_text (evaluated_and_finished ran.ticket ran.finish)) }
{
    let Ran { ticket, finish } = ran;
    match finish {
        Some(finish) => write_finish(ticket, finish, out),
        None => write_waits_line(ticket, out),
    }
}

impl OpenDesk {
    /// Runs a block atomically.
    fn atomically(&mut self, block: SharedBlock, out: &mut String) -> Result<(), NoMemory>
        ensures { TakesStep result self.new out.old out.new
            (on_desk self.old (atomically_block_step self.old.desk block (atomic_refusal self.old.desk block))) }
    {
        self.copy = None;
        let answer = self.desk.atomically(0, block);
        // The history is known to be legal by this.
        let _events = self.desk.history();
        match answer {
            Ok(ran) => write_ran(ran, out),
            Err(refusal) => refuse_atomically(refusal, out),
        }
    }

    /// Answers `atomically`: what the finish of a block did, or the ticket under which it waits.
    #[tactic(auto, unfolding(crate::specs::Atomically::atomically_step))]
    pub fn answer_atomically(
        &mut self,
        alloc: Global,
        text: &str,
        out: &mut String,
    ) -> Result<(), NoMemory>
        ensures { TakesStep result self.new out.old out.new (atomically_step self.old text.now) }
    {
        match self.block(alloc, text) {
            Ok(block) => self.atomically(block, out),
            Err(refusal) => write_refusal(refusal, out),
        }
    }
}
