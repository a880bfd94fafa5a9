//! `block`: the text of a waiting block.

ghost use Rattle.std.specs.Prelude.{◌≡◌, ◌||◌, nat_eq, if◌then◌else◌};
ghost use Rattle.std.specs.Option.{option_copied};
ghost use Rattle.stm_commands.specs.Labelling.{on_one_line, block_text_line, block_answer};
ghost use Rattle.stm_commands.specs.Printing.{Prints};

use crate::open_desk::OpenDesk;
use crate::refusals::{refuse, refuse_argument};
use stm_check::SharedBlock;
use stm_lines::arguments::number_of;
use stm_terms::NoMemory;

/// The character, or a space if it ends a line.
fn unbroken(c: char) -> char
    ensures { result ≡ (if nat_eq c 10 || nat_eq c 13 then 32 else c) }
{
    if c == '\n' || c == '\r' { ' ' } else { c }
}

/// Appends a text on one line.
fn write_on_one_line(text: &str, out: &mut String) -> Result<(), NoMemory>
    ensures { Prints result out.old out.new (on_one_line text.now) }
{
    for c in text.chars() {
        out.push(unbroken(c))?;
    }
    Ok(())
}

/// Appends the text of a block, or that no block waits.
#[tactic(auto, unfolding(crate::specs::Labelling::block_text_line))]
fn write_block(ticket: u32, block: Option<&SharedBlock>, out: &mut String) -> Result<(), NoMemory>
    ensures { Prints result out.old out.new (block_text_line ticket (option_copied block.entry)) }
{
    match block {
        None => refuse("NoTicket", out),
        Some(block) => {
            write!(out, "block {ticket} ")?;
            write_on_one_line(block.block().text(), out)?;
            out.push_str("\n")
        }
    }
}

impl OpenDesk {
    /// Answers `block`: the text of the block that waits under a ticket.
    #[tactic(auto, unfolding(crate::specs::Labelling::block_answer))]
    pub fn answer_block(&self, argument: &str, out: &mut String) -> Result<(), NoMemory>
        ensures { Prints result out.old out.new (block_answer self.now argument.now) }
    {
        match number_of(argument.as_bytes()) {
            Some(ticket) => write_block(ticket, self.desk.block(ticket), out),
            None => refuse_argument(out),
        }
    }
}
