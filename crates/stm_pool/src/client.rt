//! A client of a storm: it does the tasks of its section, one after another.

use crate::errors::ViewError;
use crate::pass::Pass;
use crate::shared::SharedDesk;
use std::alloc::Global;
use std::sync::Wait;
use std::sync::ledger::Ledger;
use stm_check::SharedBlock;
use stm_desk::{CancelError, FinishError, SubmitError};
use stm_script::{Section, Task};
use stm_terms::NoMemory;
use stm_terms::values::Value;

/// How many tasks of a client left no event: those refused, and the expected values that weren't
/// there.
#[derive(Clone, Copy)]
pub(crate) struct Extra {
    pub(crate) refused: usize,
    pub(crate) missed: usize,
}

/// What became of a task. `Met`: it left an event, or the expected value was there.
#[derive(Clone, Copy)]
enum Done {
    Met,
    Refused,
    Missed,
}

impl Extra {
    fn count(&mut self, done: Done) {
        match done {
            Done::Met => {}
            Done::Refused => self.refused = self.refused.saturating_add(1),
            Done::Missed => self.missed = self.missed.saturating_add(1),
        }
    }
}

/// Does the tasks of a section in order. If memory runs out, the desk is stopped and nothing is
/// counted.
pub(crate) fn do_section<L: Ledger, R: Wait>(
    rt: &R,
    alloc: Global,
    shared: &SharedDesk<L>,
    pass: Pass<L>,
    section: Section,
) -> (Pass<L>, Option<Extra>) {
    let mut pass = pass;
    let extra = do_tasks(rt, alloc, shared, &mut pass, section);
    if extra.is_err() {
        shared.stop(rt);
    }
    (pass, extra.ok())
}

fn do_tasks<L: Ledger, R: Wait>(
    rt: &R,
    alloc: Global,
    shared: &SharedDesk<L>,
    pass: &mut Pass<L>,
    section: Section,
) -> Result<Extra, NoMemory> {
    let mut extra = Extra {
        refused: 0,
        missed: 0,
    };
    let mut tickets = Vec::new(alloc);
    for task in section.tasks {
        extra.count(do_task(rt, shared, pass, &mut tickets, task)?);
    }
    Ok(extra)
}

fn do_task<L: Ledger, R: Wait>(
    rt: &R,
    shared: &SharedDesk<L>,
    pass: &mut Pass<L>,
    tickets: &mut Vec<Option<u32>>,
    task: Task,
) -> Result<Done, NoMemory> {
    match task {
        Task::Submit(block) => submit_block(rt, shared, pass, tickets, block),
        Task::Finish(number) => match ticket_of(tickets.as_slice(), number) {
            Some(ticket) => finish_in_time(rt, shared, pass, ticket),
            None => Ok(Done::Refused),
        },
        Task::Cancel(number) => match ticket_of(tickets.as_slice(), number) {
            Some(ticket) => cancel_once(rt, shared, pass, ticket),
            None => Ok(Done::Refused),
        },
        Task::Expect(id, value) => expect_value(rt, shared, pass, id, value),
    }
}

/// The ticket of the section's submission of this number; none if it was refused.
fn ticket_of(tickets: &[Option<u32>], number: usize) -> Option<u32> {
    match tickets.get(number) {
        Some(ticket) => *ticket,
        None => None,
    }
}

/// Submits a block. A submission that is refused keeps its place among the tickets.
fn submit_block<L: Ledger, R: Wait>(
    rt: &R,
    shared: &SharedDesk<L>,
    pass: &mut Pass<L>,
    tickets: &mut Vec<Option<u32>>,
    block: SharedBlock,
) -> Result<Done, NoMemory> {
    tickets.reserve(1)?;
    match shared.submit(rt, pass, block) {
        Ok(ticket) => {
            tickets.push_reserved(Some(ticket));
            Ok(Done::Met)
        }
        Err(SubmitError::NoMemory) => Err(NoMemory),
        Err(_) => {
            tickets.push_reserved(None);
            Ok(Done::Refused)
        }
    }
}

/// Finishes a ticket as soon as its evaluation is current: tries it, and again whenever there are
/// more events than there were before the last try. Refused if the desk is stopped before, or
/// refuses for another reason.
fn finish_in_time<L: Ledger, R: Wait>(
    rt: &R,
    shared: &SharedDesk<L>,
    pass: &mut Pass<L>,
    ticket: u32,
) -> Result<Done, NoMemory> {
    // The ticket's own submission is an event, so the first wait ends at once.
    let mut seen = 0;
    for _ in rt.forever() {
        match shared.wait_past(rt, seen) {
            Some(events) => seen = events,
            None => return Ok(Done::Refused),
        }
        if let Some(done) = finish_once(rt, shared, pass, ticket)? {
            return Ok(done);
        }
    }
    unreachable!()
}

/// Tries to finish a ticket; nothing if it isn't evaluated, or its evaluation is stale.
fn finish_once<L: Ledger, R: Wait>(
    rt: &R,
    shared: &SharedDesk<L>,
    pass: &mut Pass<L>,
    ticket: u32,
) -> Result<Option<Done>, NoMemory> {
    match shared.finish(rt, pass, ticket) {
        Ok(_) => Ok(Some(Done::Met)),
        Err(FinishError::NoMemory) => Err(NoMemory),
        Err(FinishError::NotEvaluated | FinishError::Stale) => Ok(None),
        Err(_) => Ok(Some(Done::Refused)),
    }
}

fn cancel_once<L: Ledger, R: Wait>(
    rt: &R,
    shared: &SharedDesk<L>,
    pass: &mut Pass<L>,
    ticket: u32,
) -> Result<Done, NoMemory> {
    match shared.cancel(rt, pass, ticket) {
        Ok(()) => Ok(Done::Met),
        Err(CancelError::NoMemory) => Err(NoMemory),
        Err(_) => Ok(Done::Refused),
    }
}

/// Whether a variable has this value. Missed if there is no such variable, or the client is
/// shown no store.
fn expect_value<L: Ledger, R: Wait>(
    rt: &R,
    shared: &SharedDesk<L>,
    pass: &mut Pass<L>,
    id: u32,
    value: Value,
) -> Result<Done, NoMemory> {
    match shared.present(rt, pass) {
        Ok(view) => {
            if (id as usize) < view.store.len() && view.store.value(id) == value {
                Ok(Done::Met)
            } else {
                Ok(Done::Missed)
            }
        }
        Err(ViewError::NoMemory) => Err(NoMemory),
        Err(ViewError::Lost) => Ok(Done::Missed),
    }
}
