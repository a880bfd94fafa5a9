//! A run under way: lines in, answers out.

ghost use Rattle.std.specs.Prelude.{◌≡◌, ◌≢◌, ℕ, List, [], string_bytes, OnOk, OnErr, IfErr};
ghost use Rattle.std.specs.Io.KnownBytes.{Appends};
ghost use Rattle.stm_lines.specs.WrittenFronts.{WritesFront};
ghost use Rattle.stm_run.specs.declared.console.Console.{Console as AnyConsole};
ghost use Rattle.stm_run.specs.Abstraction.{IsStep, reply_text};
ghost use Rattle.stm_run.specs.Console.{initial_console};
ghost use Rattle.stm_run.specs.WrittenRun.{WritesAnswer, run_fault_of};

use crate::console::Console;
use crate::limit::EventLimit;
use crate::reply::Reply;
use std::alloc::Global;
use std::io::Write;
use std::thread::Threads;
use stm_commands::Threading;
use stm_history_text::WriteFault;
use stm_lines::RunFault;
use stm_lines::output::write_text;
use stm_store::Seed;

/// What the fault of writing a history is to a run.
pub fn fault_of(fault: WriteFault) -> RunFault
    ensures value { result ≡ run_fault_of fault }
    // No reader is called, so none fails.
    ensures unread { result ≢ RunFault.Read }
{
    match fault {
        WriteFault::Write => RunFault::Write,
        WriteFault::NoMemory => RunFault::NoMemory,
    }
}

/// How many bytes there is room for before a line is answered.
const SHORT_ANSWER: usize = 4_096;

/// The console, room for an answer, and how many threads evaluate.
pub struct Session {
    console: Console,
    answer: String,
    threading: Threading,
}

// Written out, and not derived, so that the proof of each owner calls it once.
impl Drop for Session {
    fn drop(self) {
        let Session {
            console: _,
            answer: _,
            threading: _,
        } = self;
    }
}

impl Session {
    /// A run that has read no line, on a desk of no variables.
    pub fn new(alloc: Global, seed: Seed, limit: EventLimit, threading: Threading) -> Session
        ensures { result.console ≡ initial_console limit }
    {
        Session {
            console: Console::new(alloc, seed, limit),
            answer: String::new(alloc),
            threading,
        }
    }

    /// Writes the answer that is held.
    fn write_answer<W: Write>(&self, writer: &mut W) -> Result<(), RunFault>
        ensures done { OnOk result (Appends (W.contents writer.old) (W.contents writer.new)
            (string_bytes self.now.answer)) }
        ensures part { OnErr result (WritesFront (W.contents writer.old) (W.contents writer.new)
            (string_bytes self.now.answer)) }
        ensures fault { IfErr result (λ e. e ≢ RunFault.Read) }
    {
        write_text(writer, self.answer.as_bytes())
    }

    /// Writes the reply to a line.
    fn write_reply<W: Write>(
        &self,
        alloc: Global,
        reply: Reply,
        writer: &mut W,
    ) -> Result<(), RunFault>
        ensures done { OnOk result (Appends (W.contents writer.old) (W.contents writer.new)
            (reply_text reply self.now.console (string_bytes self.now.answer))) }
        ensures part { OnErr result (WritesFront (W.contents writer.old) (W.contents writer.new)
            (reply_text reply self.now.console (string_bytes self.now.answer))) }
        ensures fault { IfErr result (λ e. e ≢ RunFault.Read) }
    {
        match reply {
            Reply::Text | Reply::Checkpoint => self.write_answer(writer),
            Reply::History => match self.console.write_history(alloc, writer) {
                Ok(()) => Ok(()),
                Err(fault) => Err(fault_of(fault)),
            },
            Reply::Events(n) => match self.console.write_later_events(alloc, writer, n) {
                Ok(()) => Ok(()),
                Err(fault) => Err(fault_of(fault)),
            },
        }
    }

    /// Makes the checkpoint that a line asked for, if it did, and writes the reply.
    fn finish_line<W: Write>(
        &mut self,
        alloc: Global,
        reply: Reply,
        writer: &mut W,
    ) -> Result<(), RunFault>
        requires { (s : AnyConsole × List ℕ) × IsStep reply [] (string_bytes self.old.answer) self.old.console s }
        ensures done { OnOk result ((s : AnyConsole × List ℕ) → IsStep reply [] (string_bytes self.old.answer) self.old.console s
            → Appends (W.contents writer.old) (W.contents writer.new) s.1) }
        ensures state { OnOk result ((s : AnyConsole × List ℕ) → IsStep reply [] (string_bytes self.old.answer) self.old.console s
            → self.new.console ≡ s.0) }
        ensures part { OnErr result ((s : AnyConsole × List ℕ) → IsStep reply [] (string_bytes self.old.answer) self.old.console s
            → WritesFront (W.contents writer.old) (W.contents writer.new) s.1) }
        ensures fault { IfErr result (λ e. e ≢ RunFault.Read) }
    {
        if let Reply::Checkpoint = reply {
            if self.console.answer_checkpoint(&mut self.answer).is_err() {
                return Err(RunFault::NoMemory);
            }
        }
        self.write_reply(alloc, reply, writer)
    }

    /// Answers a line. After an error the console may have done a part of the line, and no clause says how far.
    pub fn answer_line<T: Threads + Sync, W: Write>(
        &mut self,
        rt: &T,
        alloc: Global,
        line: &[u8],
        writer: &mut W,
    ) -> Result<(), RunFault>
        // By the result: the answer was written and the console is the one after the line, or a front of the answer was written.
        ensures { WritesAnswer self.old.console line.now self.new.console
            (W.contents writer.old) (W.contents writer.new) result }
    {
        self.answer.clear();
        match self
            .console
            .answer(rt, alloc, self.threading, line, &mut self.answer)
        {
            Ok(reply) => self.finish_line(alloc, reply, writer),
            Err(_) => Err(RunFault::NoMemory),
        }
    }

    /// Answers a line as `answer_line` does, but starts no thread.
    pub fn answer_line_here<W: Write>(
        &mut self,
        alloc: Global,
        line: &[u8],
        writer: &mut W,
    ) -> Result<(), RunFault>
        // By the result: the answer was written and the console is the one after the line, or a front of the answer was written.
        ensures { WritesAnswer self.old.console line.now self.new.console
            (W.contents writer.old) (W.contents writer.new) result }
    {
        self.answer.clear();
        // With this room the answer to a line that changes the desk is not refused once the line is done, unless it is long.
        if self.answer.reserve(SHORT_ANSWER).is_err() {
            return Err(RunFault::NoMemory);
        }
        match self.console.answer_here(alloc, line, &mut self.answer) {
            Ok(reply) => self.finish_line(alloc, reply, writer),
            Err(_) => Err(RunFault::NoMemory),
        }
    }
}
