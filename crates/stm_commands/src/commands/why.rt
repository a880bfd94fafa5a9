//! `why`: what a block waits for.

ghost use Rattle.std.specs.Prelude.{option_map};
ghost use Rattle.stm_desk.specs.ReasonsByEvents.{shown_reason};
ghost use Rattle.stm_terms.specs.Texts.{spaced};
ghost use Rattle.stm_commands.specs.Questions.{change_text, reason_text, why_line, why_answer};
ghost use Rattle.stm_commands.specs.Printing.{Prints};

use crate::open_desk::OpenDesk;
use crate::refusals::{refuse, refuse_argument};
use std::alloc::Global;
use stm_desk::{Change, Reason};
use stm_lines::arguments::number_of;
use stm_terms::NoMemory;
use stm_terms::text::{write_value, write_writes};

/// Appends a variable that was changed.
#[tactic(auto, unfolding(crate::specs::Questions::change_text))]
fn write_change(change: Change, out: &mut String) -> Result<(), NoMemory>
    ensures { Prints result out.old out.new (change_text change) }
{
    let variable = change.variable;
    write!(out, "#{variable}=")?;
    write_value(change.read, out)?;
    out.push_str("->")?;
    write_value(change.left, out)
}

/// Appends variables that were changed, each after a space.
fn write_changes(changes: &[Change], out: &mut String) -> Result<(), NoMemory>
    ensures { Prints result out.old out.new (spaced change_text changes.now) }
{
    for change in changes {
        out.push_str(" ")?;
        write_change(*change, out)?;
    }
    Ok(())
}

/// Appends what a block waits for.
fn write_reason(reason: &Reason<'_>, out: &mut String) -> Result<(), NoMemory>
    ensures { Prints result out.old out.new (reason_text (shown_reason reason.now)) }
{
    match reason {
        Reason::New => out.push_str("new"),
        Reason::Stale { finish, changes } => {
            write!(out, "stale {finish}")?;
            write_changes(changes, out)
        }
        Reason::WasStale => out.push_str("stale checkpoint"),
        Reason::Waits(reads) => {
            out.push_str("waits ")?;
            write_writes(reads, out)
        }
        Reason::Ready => out.push_str("ready"),
    }
}

/// Appends the answer of `why`.
fn write_why(ticket: u32, reason: &Option<Reason<'_>>, out: &mut String) -> Result<(), NoMemory>
    ensures { Prints result out.old out.new (why_line ticket (option_map shown_reason reason.now)) }
{
    match reason {
        None => refuse("NoTicket", out),
        Some(reason) => {
            write!(out, "why {ticket} ")?;
            write_reason(reason, out)?;
            out.push_str("\n")
        }
    }
}

impl OpenDesk {
    /// Answers `why`: what a block waits for.
    #[tactic(auto, unfolding(crate::specs::Questions::why_answer))]
    pub fn answer_why(
        &self,
        alloc: Global,
        argument: &str,
        out: &mut String,
    ) -> Result<(), NoMemory>
        ensures { Prints result out.old out.new (why_answer self.now argument.now) }
    {
        match number_of(argument.as_bytes()) {
            Some(ticket) => {
                let reason = self.desk.why(alloc, ticket)?;
                write_why(ticket, &reason, out)
            }
            None => refuse_argument(out),
        }
    }
}
