//! `finish`: a block takes effect.

ghost use Rattle.std.specs.Prelude.{◌≡◌, List, decimal};
ghost use Rattle.stm_store.specs.declared.cell.Cell.{Cell};
ghost use Rattle.stm_store.specs.Cells.{applied_answer};
ghost use Rattle.stm_terms.specs.Texts.{spaced};
ghost use Rattle.stm_desk.specs.Refusals.{finish_refusal};
ghost use Rattle.stm_commands.specs.Endings.{tickets_text, result_line, finished_line, finish_ticket_step, finish_step};
ghost use Rattle.stm_commands.specs.OpenDesk.{on_desk};
ghost use Rattle.stm_commands.specs.Printing.{Prints, TakesStep};

use crate::open_desk::OpenDesk;
use crate::refusals::{refuse_argument, refuse_finish};
use stm_desk::Finish;
use stm_lines::arguments::number_of;
use stm_store::Applied;
use stm_terms::NoMemory;
use stm_terms::text::{write_number, write_value, write_verdict};
use stm_terms::values::Value;
use stm_terms::verdicts::Verdict;

/// Appends tickets, each after a space.
fn write_spaced_tickets(tickets: &[u32], out: &mut String) -> Result<(), NoMemory>
    ensures { Prints result out.old out.new (spaced decimal tickets.now) }
{
    for ticket in tickets {
        out.push_str(" ")?;
        write_number(*ticket, out)?;
    }
    Ok(())
}

/// Appends tickets.
fn write_tickets(tickets: &[u32], out: &mut String) -> Result<(), NoMemory>
    ensures { Prints result out.old out.new (tickets_text tickets.now) }
{
    match tickets {
        [] => out.push_str("none"),
        [first, rest @ ..] => {
            write_number(*first, out)?;
            write_spaced_tickets(rest, out)
        }
    }
}

/// Appends the answer to the finish of a block that returns.
#[tactic(auto, unfolding(crate::specs::Endings::result_line))]
fn write_result(ticket: u32, value: Value, stale: &[u32], out: &mut String) -> Result<(), NoMemory>
    ensures { Prints result out.old out.new (result_line ticket value stale.now) }
{
    out.push_str("finished ")?;
    write_number(ticket, out)?;
    out.push_str(" result ")?;
    write_value(value, out)?;
    out.push_str(" stale ")?;
    write_tickets(stale, out)?;
    out.push_str("\n")
}

/// Appends the answer to the finish of a block with this verdict.
fn write_finished(
    ticket: u32,
    verdict: &Verdict,
    applied: &Applied,
    stale: &[u32],
    out: &mut String,
) -> Result<(), NoMemory>
    requires { (cells : List Cell) × (applied.now ≡ applied_answer cells verdict.now) }
    ensures { Prints result out.old out.new
        (finished_line ticket applied.now.first_new verdict.now stale.now) }
{
    match (verdict, applied.result) {
        (Verdict::Commits { .. }, Some(value)) => write_result(ticket, value, stale, out),
        (Verdict::Commits { .. }, None) => unreachable!(),
        (Verdict::Throws(_), _) => {
            out.push_str("finished ")?;
            write_number(ticket, out)?;
            out.push_str(" ")?;
            write_verdict(verdict, out)?;
            out.push_str("\n")
        }
        (Verdict::Blocks, _) => Ok(()),
    }
}

/// Appends the answer to a finish.
pub(super) fn write_finish(ticket: u32, finish: Finish, out: &mut String) -> Result<(), NoMemory>
    requires { (cells : List Cell) × (finish.applied ≡ applied_answer cells finish.verdict) }
    ensures { Prints result out.old out.new
        (finished_line ticket finish.applied.first_new finish.verdict finish.stale) }
{
    let blocks = Verdict::Blocks;
    let verdict = finish.verdict.get(&blocks);
    write_finished(
        ticket,
        verdict,
        &finish.applied,
        finish.stale.as_slice(),
        out,
    )
}

impl OpenDesk {
    /// Finishes the block under a ticket.
    fn finish(&mut self, ticket: u32, out: &mut String) -> Result<(), NoMemory>
        ensures { TakesStep result self.new out.old out.new
            (on_desk self.old (finish_ticket_step self.old.desk ticket (finish_refusal self.old.desk ticket))) }
    {
        self.copy = None;
        let answer = self.desk.finish(0, ticket);
        // The history is known to be legal by this.
        let _events = self.desk.history();
        match answer {
            Ok(finish) => write_finish(ticket, finish, out),
            Err(refusal) => refuse_finish(refusal, out),
        }
    }

    /// Answers `finish`: the block under a ticket takes effect. Prints its result, and the tickets that became stale.
    #[tactic(auto, unfolding(crate::specs::Endings::finish_step))]
    pub fn answer_finish(&mut self, argument: &str, out: &mut String) -> Result<(), NoMemory>
        ensures { TakesStep result self.new out.old out.new (finish_step self.old argument.now) }
    {
        match number_of(argument.as_bytes()) {
            Some(ticket) => self.finish(ticket, out),
            None => refuse_argument(out),
        }
    }
}
