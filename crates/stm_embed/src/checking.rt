//! A history that is judged as a whole, without a desk.

ghost use Rattle.std.specs.Prelude.{◌≡◌, List, ℕ};
ghost use Rattle.stm_history.specs.Explanation.{ReportsWhy};
ghost use Rattle.stm_history.specs.Judgement.{ReportsFault};
ghost use Rattle.stm_embed.specs.Checking.{IsJudgement, found_status, numbers_of};

use crate::status::{BAD_HEADER, BAD_LINE, LEGAL, NO_MEMORY, NOT_LEGAL};
use std::alloc::Global;
use stm_history::{HistoryFault, Legal, Reason, why_history};
use stm_store::Seed;

/// The numbers that C gets of a check.
#[repr(C)]
#[derive(Drop)]
pub struct Checked {
    /// How many events a legal history has.
    pub events: u32,
    /// How many blocks wait after them.
    pub waiting: u32,
    /// How many variables the store has after them.
    pub cells: u32,
    /// The first line that isn't accepted, counted from 1; 0 if the history is legal, or if memory ran out.
    pub line: u32,
}

/// What is found of the bytes of a history: its numbers, or the first line that isn't accepted.
#[derive(Clone, Copy, Drop)]
pub enum Found {
    Legal(Legal),
    BadHeader(u32),
    BadLine(u32),
    NotLegal(u32),
    NoMemory,
}

impl Found {
    /// The status of a check that found this.
    pub(crate) fn status(self) -> u32
        ensures { result ≡ found_status self }
    {
        match self {
            Found::Legal(_) => LEGAL,
            Found::BadHeader(_) => BAD_HEADER,
            Found::BadLine(_) => BAD_LINE,
            Found::NotLegal(_) => NOT_LEGAL,
            Found::NoMemory => NO_MEMORY,
        }
    }

    /// The numbers of a check that found this.
    pub(crate) fn numbers(self) -> Checked
        ensures { result ≡ numbers_of self }
    {
        let mut numbers = Checked {
            events: 0,
            waiting: 0,
            cells: 0,
            line: 0,
        };
        match self {
            Found::Legal(legal) => {
                numbers.events = legal.events;
                numbers.waiting = legal.waiting;
                numbers.cells = legal.cells;
            }
            Found::BadHeader(line) => numbers.line = line,
            Found::BadLine(line) => numbers.line = line,
            Found::NotLegal(line) => numbers.line = line,
            Found::NoMemory => {}
        }
        numbers
    }
}

/// What is found of bytes for which this is the reason.
fn found_of(reason: &Reason) -> Found
    ensures { (bytes : List ℕ) → ReportsFault reason.now.fault bytes
        → ReportsWhy bytes reason.now.fault reason.now.line reason.now.explanation
        → IsJudgement bytes result }
{
    match reason.fault {
        HistoryFault::BadHeader => Found::BadHeader(reason.line),
        HistoryFault::BadLine(line) => Found::BadLine(line),
        HistoryFault::NotLegal(line) => Found::NotLegal(line),
        HistoryFault::ReadFault => Found::NoMemory,
        HistoryFault::NoMemory => Found::NoMemory,
    }
}

/// Judges the bytes of a history.
pub(crate) fn judge(alloc: Global, seed: Seed, history: &[u8]) -> Found
    ensures { IsJudgement history.now result }
{
    match why_history(alloc, seed, history) {
        Ok(Ok(legal)) => Found::Legal(legal),
        Ok(Err(reason)) => found_of(&reason),
        Err(_) => Found::NoMemory,
    }
}
