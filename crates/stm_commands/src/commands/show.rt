//! `show`: how each waiting block stands.

ghost use Rattle.std.specs.Prelude.{◌≡◌, ◌++◌, ◌∷◌, [], Some, decimal, string_bytes, OnOk};
ghost use Rattle.stm_events.specs.BlockStatus.{shown};
ghost use Rattle.stm_events.specs.SlowDesk.{Waiter, find_waiter};
ghost use Rattle.stm_desk.specs.DeskView.{state_of};
ghost use Rattle.stm_commands.specs.Contents.{standing_text, waiter_line, waiter_lines, show_text, show_answer};
ghost use Rattle.stm_commands.specs.Printing.{Prints};

use crate::open_desk::OpenDesk;
use crate::refusals::refuse_argument;
use stm_desk::{Desk, Status};
use stm_terms::NoMemory;
use stm_terms::text::{write_number, write_verdict};

/// Appends how a block waits.
pub(crate) fn write_status(status: Status<'_>, out: &mut String) -> Result<(), NoMemory>
    ensures { Prints result out.old out.new (standing_text (shown status.entry)) }
{
    match status {
        Status::New => out.push_str(" new"),
        Status::Stale(verdict) => {
            out.push_str(" stale ")?;
            write_verdict(verdict, out)
        }
        Status::Current(verdict) => {
            out.push_str(" current ")?;
            write_verdict(verdict, out)
        }
    }
}

/// Appends the line of a ticket and its block's status.
fn write_status_line(ticket: u32, status: Status<'_>, out: &mut String) -> Result<(), NoMemory>
    ensures { Prints result out.old out.new
        (decimal ticket ++ standing_text (shown status.entry) ++ 10 ∷ []) }
{
    write_number(ticket, out)?;
    write_status(status, out)?;
    out.push_str("\n")
}

/// Appends the line of the block that waits under a ticket.
#[tactic(auto, unfolding(crate::specs::Contents::waiter_line))]
fn write_waiter(desk: &Desk, ticket: u32, out: &mut String) -> Result<(), NoMemory>
    ensures { OnOk result ((w : Waiter) → find_waiter ticket (state_of desk.now).waiters ≡ Some w →
        w.ticket ≡ ticket →
        string_bytes out.new ≡ string_bytes out.old ++ waiter_line (state_of desk.now).store w) }
{
    match desk.status(ticket) {
        Some(status) => write_status_line(ticket, status, out),
        None => Ok(()),
    }
}

/// Appends the lines of the waiting blocks.
fn write_waiters(desk: &Desk, out: &mut String) -> Result<(), NoMemory>
    ensures { Prints result out.old out.new
        (waiter_lines (state_of desk.now).store (state_of desk.now).waiters) }
{
    // The tickets are known to rise by this.
    let _events = desk.history();
    let mut last = 0;
    while let Some(ticket) = desk.next_waiting(last) {
        write_waiter(desk, ticket, out)?;
        last = ticket;
    }
    Ok(())
}

/// Appends how each waiting block stands, and how many wait.
#[tactic(auto, unfolding(crate::specs::Contents::show_text))]
fn write_all_waiters(desk: &Desk, out: &mut String) -> Result<(), NoMemory>
    ensures { Prints result out.old out.new (show_text (state_of desk.now)) }
{
    write_waiters(desk, out)?;
    let count = desk.waiting();
    write!(out, "waiting {count}\n")
}

impl OpenDesk {
    /// Answers `show`: how each waiting block stands.
    #[tactic(auto, unfolding(crate::specs::Contents::show_answer))]
    pub fn answer_show(&self, argument: &str, out: &mut String) -> Result<(), NoMemory>
        ensures { Prints result out.old out.new (show_answer self.now argument.now) }
    {
        if !argument.is_empty() {
            return refuse_argument(out);
        }
        write_all_waiters(&self.desk, out)
    }
}
