//! `ready`: the blocks that could finish now.

ghost use Rattle.std.specs.Prelude.{decimal};
ghost use Rattle.stm_desk.specs.DeskView.{state_of};
ghost use Rattle.stm_terms.specs.Texts.{spaced};
ghost use Rattle.stm_commands.specs.Endings.{tickets_text};
ghost use Rattle.stm_commands.specs.Questions.{ready_above, ready_tickets, ready_text, ready_answer};
ghost use Rattle.stm_commands.specs.Printing.{Prints};

use crate::open_desk::OpenDesk;
use crate::refusals::refuse_argument;
use stm_desk::Desk;
use stm_terms::NoMemory;
use stm_terms::text::write_number;

/// Appends the tickets above this one of the blocks that could finish now, each after a space.
fn write_ready_above(desk: &Desk, ticket: u32, out: &mut String) -> Result<(), NoMemory>
    ensures { Prints result out.old out.new
        (spaced decimal (ready_above ticket (state_of desk.now))) }
{
    // The tickets are known to rise by this.
    let _events = desk.history();
    let mut last = ticket;
    while let Some(next) = desk.next_ready(last) {
        out.push_str(" ")?;
        write_number(next, out)?;
        last = next;
    }
    Ok(())
}

/// Appends the tickets of the blocks that could finish now.
fn write_ready_tickets(desk: &Desk, out: &mut String) -> Result<(), NoMemory>
    ensures { Prints result out.old out.new (tickets_text (ready_tickets (state_of desk.now))) }
{
    // The tickets are known to rise by this.
    let _events = desk.history();
    match desk.next_ready(0) {
        None => {
            out.push_str("none")?;
            Ok(())
        }
        Some(first) => {
            write_number(first, out)?;
            write_ready_above(desk, first, out)
        }
    }
}

/// Appends the answer of `ready`.
#[tactic(auto, unfolding(crate::specs::Questions::ready_text))]
fn write_ready(desk: &Desk, out: &mut String) -> Result<(), NoMemory>
    ensures { Prints result out.old out.new (ready_text (state_of desk.now)) }
{
    out.push_str("ready ")?;
    write_ready_tickets(desk, out)?;
    out.push_str("\n")
}

impl OpenDesk {
    /// Answers `ready`: the tickets of the blocks that could finish now.
    #[tactic(auto, unfolding(crate::specs::Questions::ready_answer))]
    pub fn answer_ready(&self, argument: &str, out: &mut String) -> Result<(), NoMemory>
        ensures { Prints result out.old out.new (ready_answer self.now argument.now) }
    {
        if !argument.is_empty() {
            return refuse_argument(out);
        }
        write_ready(&self.desk, out)
    }
}
