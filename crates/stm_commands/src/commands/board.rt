//! `board`: all waiting blocks, each with its label.

ghost use Rattle.std.specs.Prelude.{◌≡◌, ◌++◌, ◌∷◌, [], Some, decimal, string_bytes, OnOk};
ghost use Rattle.stm_events.specs.BlockStatus.{shown};
ghost use Rattle.stm_events.specs.SlowDesk.{Waiter, find_waiter};
ghost use Rattle.stm_desk.specs.DeskView.{state_of, labels_of};
ghost use Rattle.stm_commands.specs.Contents.{standing_text};
ghost use Rattle.stm_commands.specs.Labelling.{label_text, board_line, board_lines, board_text, board_answer};
ghost use Rattle.stm_commands.specs.Printing.{Prints};

use crate::commands::label::write_label;
use crate::commands::show::write_status;
use crate::open_desk::OpenDesk;
use crate::refusals::refuse_argument;
use stm_desk::{Desk, Status};
use stm_terms::NoMemory;
use stm_terms::text::write_number;

/// Appends the line of a ticket, of its block's status and of its label.
fn write_labelled_status(
    ticket: u32,
    status: Status<'_>,
    label: &str,
    out: &mut String,
) -> Result<(), NoMemory>
    ensures { Prints result out.old out.new
        (decimal ticket ++ standing_text (shown status.entry) ++ 32 ∷ label_text label.now ++ 10 ∷ []) }
{
    write_number(ticket, out)?;
    write_status(status, out)?;
    out.push_str(" ")?;
    write_label(label, out)?;
    out.push_str("\n")
}

/// Appends the line of the block that waits under a ticket.
#[tactic(auto, unfolding(crate::specs::Labelling::board_line))]
fn write_waiter(desk: &Desk, ticket: u32, out: &mut String) -> Result<(), NoMemory>
    ensures { OnOk result ((w : Waiter) → find_waiter ticket (state_of desk.now).waiters ≡ Some w →
        w.ticket ≡ ticket → string_bytes out.new
        ≡ string_bytes out.old ++ board_line (labels_of desk.now) (state_of desk.now).store w) }
{
    match desk.status(ticket) {
        Some(status) => write_labelled_status(ticket, status, desk.label_of(ticket), out),
        None => Ok(()),
    }
}

/// Appends the lines of the waiting blocks.
fn write_waiters(desk: &Desk, out: &mut String) -> Result<(), NoMemory>
    ensures { Prints result out.old out.new
        (board_lines (labels_of desk.now) (state_of desk.now).store (state_of desk.now).waiters) }
{
    // The tickets are known to rise by this.
    let _events = desk.history();
    let mut last = 0;
    while let Some(ticket) = desk.next_waiting(last) {
        write_waiter(desk, ticket, out)?;
        last = ticket;
    }
    Ok(())
}

/// Appends all waiting blocks, and how many there are.
#[tactic(auto, unfolding(crate::specs::Labelling::board_text))]
fn write_board(desk: &Desk, out: &mut String) -> Result<(), NoMemory>
    ensures { Prints result out.old out.new (board_text desk.now) }
{
    write_waiters(desk, out)?;
    let count = desk.waiting();
    write!(out, "waiting {count}\n")
}

impl OpenDesk {
    /// Answers `board`: how each waiting block stands, and its label.
    #[tactic(auto, unfolding(crate::specs::Labelling::board_answer))]
    pub fn answer_board(&self, argument: &str, out: &mut String) -> Result<(), NoMemory>
        ensures { Prints result out.old out.new (board_answer self.now argument.now) }
    {
        if !argument.is_empty() {
            return refuse_argument(out);
        }
        write_board(&self.desk, out)
    }
}
