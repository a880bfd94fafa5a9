//! The console, and the answers that were not fetched.

ghost use Rattle.std.specs.Prelude.{◌≡◌, ◌<◌, ◌≤◌, false, [], ◌++◌, length, take, drop, vec_len, OnOk, OnErr, IfOk};
ghost use Rattle.stm_lines.specs.Lines.{drop_return, whole_lines_of, NoLineFeed};
ghost use Rattle.stm_run.specs.Console.{answer_to, answers_to, initial_console, state_after};
ghost use Rattle.stm_run.specs.AfterLines.{state_after_lines};
ghost use Rattle.stm_embed.specs.Feeding.{AreWholeLines, console_of, unread_answers};
ghost use Rattle.stm_embed.specs.ForC.{KeepsExploration, TakesLines, fed_status};

use crate::exploring::{Ended, explore_script};
use crate::status::{ALL_TAKEN, NO_MEMORY, PART_OF_LINE};
use memchr::memchr;
use std::alloc::{AllocError, Global};
use stm_commands::Threading;
use stm_options::ExploreOptions;
use stm_run::limit::EventLimit;
use stm_run::session::Session;
use stm_store::Seed;
use stm_terms::NoMemory;

/// How many bytes there is room for before a line is answered.
const SHORT_ANSWER: usize = 4_096;

/// The console, its answers, and how many bytes of them were given.
#[derive(Drop)]
pub struct Embedded {
    session: Session,
    answers: Vec<u8>,
    given: usize,
}

/// What a call did.
#[repr(C)]
pub struct Fed {
    /// How many bytes of the lines were taken: whole lines, from the front.
    pub taken: usize,
    /// How many bytes of answers were given.
    pub given: usize,
    /// How many more wait to be fetched.
    pub waiting: usize,
}

/// How far lines were taken: how many bytes, and whether memory ran out at the next line.
#[derive(Clone, Copy, Drop)]
pub struct Taken {
    pub count: usize,
    pub is_out_of_memory: bool,
}

impl Taken {
    /// How a call ended that took this much of these lines.
    pub(crate) fn status(self, lines: &[u8]) -> u32
        requires { self.count ≤ length lines.now }
        ensures { result ≡ fed_status self (length lines.now) }
    {
        if self.is_out_of_memory {
            NO_MEMORY
        } else if self.count < lines.len() {
            PART_OF_LINE
        } else {
            ALL_TAKEN
        }
    }
}

/// A line without one carriage return at its end.
fn without_return(line: &[u8]) -> &[u8]
    ensures { result.now ≡ drop_return line.now }
{
    let len = line.len();
    if len > 0 && line[len - 1] == b'\r' {
        &line[..len - 1]
    } else {
        line
    }
}

/// Answers a line. If memory runs out, no part of its answer is left.
fn answer_line(
    session: &mut Session,
    alloc: Global,
    line: &[u8],
    answers: &mut Vec<u8>,
) -> Result<(), NoMemory>
    ensures done { OnOk result (answers.new.items
        ≡ answers.old.items ++ answer_to session.old.console line.now) }
    ensures state { OnOk result (session.new.console ≡ state_after session.old.console line.now) }
    ensures same { OnErr result (answers.new.items ≡ answers.old.items) }
{
    let before = answers.len();
    // A short answer is then not refused once its line is done.
    answers.reserve(SHORT_ANSWER)?;
    match session.answer_line_here(alloc, line, answers) {
        Ok(()) => Ok(()),
        Err(_) => {
            answers.truncate(before);
            Err(AllocError)
        }
    }
}

/// Answers the whole lines among some bytes, one after another.
fn answer_lines(session: &mut Session, alloc: Global, lines: &[u8], answers: &mut Vec<u8>) -> Taken
    ensures few { result.count ≤ length lines.now }
    ensures whole { AreWholeLines (take result.count lines.now) }
    ensures answers { answers.new.items ≡ answers.old.items
        ++ answers_to session.old.console (whole_lines_of (take result.count lines.now)) }
    ensures console { result.is_out_of_memory ≡ false → session.new.console
        ≡ state_after_lines session.old.console (whole_lines_of (take result.count lines.now)) }
    ensures rest { result.is_out_of_memory ≡ false → NoLineFeed (drop result.count lines.now) }
{
    let mut count: usize = 0;
    while let Some(end) = memchr(b'\n', &lines[count..]) {
        let line = without_return(&lines[count..count + end]);
        match answer_line(session, alloc, line, answers) {
            Ok(()) => count += end + 1,
            Err(_) => {
                return Taken {
                    count,
                    is_out_of_memory: true,
                };
            }
        }
    }
    Taken {
        count,
        is_out_of_memory: false,
    }
}

/// Copies the front of some bytes, as much as there is room for.
pub(crate) fn copy_front(from: &[u8], to: &mut [u8]) -> usize
    ensures few { result ≤ length from.now }
    ensures room { result ≤ length to.old }
    ensures all { result < length to.old → result ≡ length from.now }
    ensures copied { to.new ≡ take result from.now ++ drop result to.old }
{
    let count = from.len().min(to.len());
    to[..count].copy_from_slice(&from[..count]);
    count
}

/// Drops the answers that were given, if they are at least half of all: so it costs a constant for each byte. Returns how many given bytes
/// are left.
fn drop_given(answers: &mut Vec<u8>, given: usize) -> usize
    requires { given ≤ vec_len answers.old }
    ensures same { drop result answers.new.items ≡ drop given answers.old.items }
    ensures within { result ≤ vec_len answers.new }
{
    let left = answers.len() - given;
    if given < left {
        return given;
    }
    answers.rotate_left(given);
    answers.truncate(left);
    0
}

impl Embedded {
    /// A console of no variables, whose names will be looked up under the seed, and whose desk will take `limit` events.
    pub(crate) fn new(alloc: Global, seed: Seed, limit: EventLimit) -> Embedded
        ensures console { console_of result ≡ initial_console limit }
        ensures waiting { unread_answers result ≡ [] }
    {
        Embedded {
            session: Session::new(alloc, seed, limit, Threading::new(1, 0)),
            answers: Vec::new(alloc),
            given: 0,
        }
    }

    /// Keeps a text after the answers that wait to be given.
    fn keep(&mut self, text: &[u8]) -> Result<(), NoMemory>
        ensures done { OnOk result (unread_answers self.new ≡ unread_answers self.old ++ text.now) }
        ensures same { OnErr result (unread_answers self.new ≡ unread_answers self.old) }
        ensures console { console_of self.new ≡ console_of self.old }
    {
        let given = self.given.min(self.answers.len());
        self.given = drop_given(&mut self.answers, given);
        self.answers.extend_from_slice(text)
    }

    /// Explores a script, and keeps what is written of it after the answers that wait to be given, with the diagnostics or without them.
    /// Returns how the exploration ended, and how many bytes come before the diagnostics.
    pub(crate) fn explore(
        &mut self,
        alloc: Global,
        script: &[u8],
        options: ExploreOptions,
        diagnosed: bool,
    ) -> Result<(Ended, usize), NoMemory>
        ensures done { IfOk result (λ r.
            KeepsExploration script.now options diagnosed self.old self.new r.0 r.1) }
        ensures same { OnErr result (unread_answers self.new ≡ unread_answers self.old) }
        ensures console { console_of self.new ≡ console_of self.old }
    {
        let mut text = Vec::new(alloc);
        let (ended, length) = explore_script(alloc, script, options, &mut text)?;
        if !diagnosed {
            text.truncate(length);
        }
        self.keep(&text)?;
        Ok((ended, length))
    }

    /// Answers the whole lines among some bytes, one after another. The answers wait to be given.
    pub(crate) fn take_lines(&mut self, alloc: Global, lines: &[u8]) -> Taken
        ensures taken { TakesLines self.old self.new lines.now result }
        ensures given { self.new.given ≤ vec_len self.new.answers }
    {
        let given = self.given.min(self.answers.len());
        self.given = drop_given(&mut self.answers, given);
        answer_lines(&mut self.session, alloc, lines, &mut self.answers)
    }

    /// How many bytes wait to be given.
    pub(crate) fn waiting(&self) -> usize
        ensures { result ≡ length (unread_answers self.now) }
    {
        self.answers.len().saturating_sub(self.given)
    }

    /// Gives the front of what waits, as much as there is room for.
    pub(crate) fn give(&mut self, out: &mut [u8]) -> usize
        requires { self.old.given ≤ vec_len self.old.answers }
        ensures few { result ≤ length out.old }
        ensures given { unread_answers self.old ≡ take result out.new ++ unread_answers self.new }
        ensures room { result < length out.old → unread_answers self.new ≡ [] }
        ensures console { console_of self.new ≡ console_of self.old }
    {
        let count = copy_front(&self.answers[self.given..], out);
        self.given += count;
        if self.given == self.answers.len() {
            self.answers.clear();
            self.given = 0;
        }
        count
    }
}
