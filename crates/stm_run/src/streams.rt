//! From the bytes of a reader to the bytes of a writer.

ghost use Rattle.std.specs.Prelude.{◌≡◌, ◌≢◌, ◌+◌, ◌<◌, ◌≤◌, [], true, IfErr, IfOk, Ok, OnOk, OnErr, IsErrOf};
ghost use Rattle.std.specs.Io.KnownBytes.{Keeps};
ghost use Rattle.stm_options.specs.Options.{AreRunOptions};
ghost use Rattle.stm_run.specs.Streaming.{HasAnsweredAll, HasAnsweredNext, HasAnsweredPart, HasAnsweredWhole, run_state};
ghost use Rattle.stm_run.specs.WrittenRun.{WritesRun};
ghost use Rattle.stm_lines.specs.TakenLines.{bytes_to_come};
ghost use Rattle.stm_lines.specs.Unread.{unread};

use crate::limit::EventLimit;
use crate::session::Session;
use std::alloc::Global;
use std::io::{Read, Write};
use std::marker::Brand;
use std::random::RandomSource;
use std::sync::ledger::{Blank, Ledger};
use std::thread::Threads;
use stm_commands::Threading;
use stm_lines::calls::Calls;
use stm_lines::command_lines::{CommandLine, next_command_line};
use stm_lines::output::flush;
use stm_lines::{LineReader, RunFault, Steps};
use stm_options::Options;
use stm_store::Seed;

/// Hands on what the writer holds, unless the next line is whole in the bytes that were read: the reader isn't called before the
/// answers to all lines were handed on.
fn flush_before_read<W: Write>(lines: &LineReader, writer: &mut W) -> Result<(), RunFault>
    ensures same { Keeps (W.contents writer.old) (W.contents writer.new) }
    ensures fault { IfErr result (λ e. e ≢ RunFault.Read) }
{
    if lines.is_buffered() {
        Ok(())
    } else {
        flush(writer)
    }
}

/// Answers the next line, if there is one; returns whether more may follow.
fn answer_next<T: Threads + Sync, R: Read, W: Write, L: Ledger>(
    rt: &T,
    alloc: Global,
    session: &mut Session,
    lines: &mut LineReader,
    calls: &mut Calls<R, L>,
    writer: &mut W,
) -> Result<bool, RunFault>
    ensures same_reader { calls.new.reader.ghost_name ≡ calls.old.reader.ghost_name }
    ensures same_steps { calls.new.steps.ghost_name ≡ calls.old.steps.ghost_name }
    ensures counted { calls.new.steps.now + calls.new.left ≡ calls.old.steps.now + calls.old.left }
    ensures shorter { result ≡ Ok true → bytes_to_come calls.new.left lines.new.chunk < bytes_to_come calls.old.left lines.old.chunk }
    ensures answered { IfOk result (HasAnsweredNext (run_state session.old (unread R.remaining lines.old calls.old) (W.contents writer.old))
        (run_state session.new (unread R.remaining lines.new calls.new) (W.contents writer.new))) }
    // After a read fault all lines that were whole before it have been answered.
    ensures read_fault { IsErrOf result RunFault.Read
        → HasAnsweredWhole (run_state session.old (unread R.remaining lines.old calls.old) (W.contents writer.old))
        (R.remaining calls.new.reader.now) (W.contents writer.new) }
    ensures part { OnErr result
        (HasAnsweredPart (run_state session.old (unread R.remaining lines.old calls.old) (W.contents writer.old)) (W.contents writer.new)) }
{
    match next_command_line(lines, calls) {
        Ok(CommandLine::Whole) => {
            match session.answer_line(rt, alloc, lines.line(), writer) {
                Ok(()) => Ok(true),
                Err(fault) => Err(fault),
            }
        }
        Ok(CommandLine::Last) => {
            match session.answer_line(rt, alloc, lines.line(), writer) {
                Ok(()) => Ok(false),
                Err(fault) => Err(fault),
            }
        }
        Ok(CommandLine::End) => Ok(false),
        Err(fault) => Err(fault),
    }
}

/// A run of which nothing was read. `run_counted` owns the session and the lines, so that this function, with a loop and many
/// ends, owns nothing.
fn run_session<T: Threads + Sync, R: Read, W: Write, L: Ledger>(
    rt: &T,
    alloc: Global,
    session: &mut Session,
    lines: &mut LineReader,
    calls: &mut Calls<R, L>,
    writer: &mut W,
) -> Result<(), RunFault>
    requires { lines.old.chunk ≡ [] }
    ensures same_reader { calls.new.reader.ghost_name ≡ calls.old.reader.ghost_name }
    ensures same_steps { calls.new.steps.ghost_name ≡ calls.old.steps.ghost_name }
    // Each call that is used up was counted.
    ensures counted { calls.new.steps.now + calls.new.left ≡ calls.old.steps.now + calls.old.left }
    // The whole text of the input was written.
    ensures answered { OnOk result
        (HasAnsweredAll (run_state session.old (R.remaining calls.old.reader.now) (W.contents writer.old)) (W.contents writer.new)) }
    // After a read fault it is the text of the lines that were whole before.
    ensures read_fault { IsErrOf result RunFault.Read
        → HasAnsweredWhole (run_state session.old (R.remaining calls.old.reader.now) (W.contents writer.old))
        (R.remaining calls.new.reader.now) (W.contents writer.new) }
    // After any fault it is a prefix of the text.
    ensures part { OnErr result
        (HasAnsweredPart (run_state session.old (R.remaining calls.old.reader.now) (W.contents writer.old)) (W.contents writer.new)) }
{
    'lines: loop {
        flush_before_read(lines, writer)?;
        if !answer_next(rt, alloc, session, lines, calls, writer)? {
            return flush(writer);
        }
    }
}

/// Does what `run` does, and counts the calls of the reader: each call is one step, and the reader is called in no other place.
pub fn run_counted<T: Threads + RandomSource + Sync, R: Read, W: Write, L: Ledger>(
    rt: &T,
    alloc: Global,
    reader: &mut R,
    writer: &mut W,
    options: Options,
    steps: &mut Steps<L>,
) -> Result<(), RunFault>
    requires { AreRunOptions options }
    // The reader was called 4,294,967,295 times at most.
    ensures few { steps.new ≤ steps.old + 4294967295 }
    // By the result: the whole text of the input was written, or a front of it.
    ensures written { WritesRun options.max_events (R.remaining reader.old) (R.remaining reader.new)
        (W.contents writer.old) (W.contents writer.new) result }
{
    let mut session = Session::new(
        alloc,
        Seed::random(rt),
        EventLimit::new(options.max_events),
        Threading::new(options.workers, options.levels),
    );
    let mut lines = LineReader::new(alloc);
    let mut calls = Calls::new(reader, steps);
    run_session(rt, alloc, &mut session, &mut lines, &mut calls, writer)
}

/// A run whose calls of the reader are counted by a new ledger.
fn run_from<T: Threads + RandomSource + Sync, R: Read, W: Write, L: Ledger>(
    rt: &T,
    alloc: Global,
    reader: &mut R,
    writer: &mut W,
    options: Options,
    blank: Blank,
) -> Result<(), RunFault>
    requires options { AreRunOptions options }
    requires name { blank.name ≡ L.name }
    requires parts { blank.parts ≡ L.parts }
    requires some { 0 < blank.parts }
    // By the result: the whole text of the input was written, or a front of it.
    ensures { WritesRun options.max_events (R.remaining reader.old) (R.remaining reader.new)
        (W.contents writer.old) (W.contents writer.new) result }
{
    let mut steps = Steps::<L>::new(blank);
    run_counted(rt, alloc, reader, writer, options, &mut steps)
}

/// Reads commands by line to the end of the input and writes the answer to each before it reads more.
///
/// What each command answers is said in docs/CONSOLE.md. An interrupted read is tried again. After 4,294,967,295 calls of
/// the reader a run ends as it does after a read that fails. The writer is flushed before each read and at the end, so it
/// may keep a buffer. Of a line that is too long no more than its first 65,538 bytes are kept.
///
/// No clause says when the writer is flushed, how much of a line is kept, or that an error has a cause.
pub fn run<T: Threads + RandomSource + Sync, R: Read, W: Write>(
    rt: &T,
    alloc: Global,
    reader: &mut R,
    writer: &mut W,
    options: Options,
) -> Result<(), RunFault>
    requires { AreRunOptions options }
    // By the result: the whole text of the input was written, or a front of it.
    ensures { WritesRun options.max_events (R.remaining reader.old) (R.remaining reader.new)
        (W.contents writer.old) (W.contents writer.new) result }
{
    run_from::<T, R, W, Brand>(rt, alloc, reader, writer, options, Blank::new(1))
}
