//! The program over its words and streams, and its exit status.

ghost use Rattle.std.specs.Prelude.{◌≡◌, ◌⊎◌, IsTrue, OnErr, OnOk, map};
ghost use Rattle.std.specs.Io.KnownBytes.{Appends, Keeps};
ghost use Rattle.clap.specs.Values.{kind_of};
ghost use Rattle.stm_console.specs.ExitStatus.{IsFailure, storm_status};
ghost use Rattle.stm_console.specs.Program.{Do, ProgramDoes, asked_by, program_streams, streams};
ghost use Rattle.stm_console.specs.declared.status.TheConstants.{DONE, FAILED, NO_MEMORY, REFUSED};
ghost use Rattle.stm_explore_script.specs.ExploreStatus.{explore_status};
ghost use Rattle.stm_lines.specs.RunStatus.{status_of};
ghost use Rattle.stm_lines.specs.WrittenFronts.{WritesFront};
ghost use Rattle.stm_options.specs.Options.{AreRunOptions};
ghost use Rattle.stm_command_line.specs.CommandLine.{is_mistake, version_line, HasOptionsInRange};

use crate::checking::check_with;
use crate::files::JournalFiles;
use crate::journal::run_on_file;
use crate::status::{DONE, FAILED, NO_MEMORY, NOT_RIGHT, REFUSED};
use crate::why::check_why;
use clap::Error;
use clap::error::ErrorKind;
use std::alloc::Global;
use std::convert::AsStr;
use std::io::{Read, Write};
use std::random::RandomSource;
use std::sync::Wait;
use std::thread::Threads;
use stm_command_line::version::version_line;
use stm_command_line::{Request, read_words};
use stm_explore_script::diagnostics::{write_fault_diagnostics, write_right_diagnostics};
use stm_explore_script::exploring::explore_with;
use stm_explore_script::{ExploreFault, Warning};
use stm_lines::RunFault;
use stm_lines::output::{flush, write_flushed};
use stm_options::{ExploreOptions, Options};
use stm_run::run;
use stm_script::{ScriptFault, write_script_fault};
use stm_store::Seed;
use stm_storm::{StormFault, storm};

/// Reports a failure on `errors`, and returns its status.
fn report<E: Write>(fault: RunFault, errors: &mut E) -> u8
    ensures { result ≡ status_of fault }
{
    let _ = writeln!(errors, "{fault}");
    fault.status()
}

/// Writes the version's line.
fn write_version<W: Write>(alloc: Global, writer: &mut W) -> Result<(), RunFault>
    ensures done { OnOk result
        (Appends (W.contents writer.old) (W.contents writer.new) version_line) }
    ensures part { OnErr result
        (WritesFront (W.contents writer.old) (W.contents writer.new) version_line) }
{
    let line = version_line(alloc)?;
    write_flushed(writer, line.as_bytes())
}

/// Prints the version, and returns the status.
fn print_version<W: Write, E: Write>(alloc: Global, writer: &mut W, errors: &mut E) -> u8
    ensures { ((result ≡ DONE) × Appends (W.contents writer.old) (W.contents writer.new) version_line)
        ⊎ (IsFailure result
        × WritesFront (W.contents writer.old) (W.contents writer.new) version_line) }
{
    match write_version(alloc, writer) {
        Ok(()) => DONE,
        Err(fault) => report(fault, errors),
    }
}

/// Prints help, and returns the status.
fn print_help<W: Write, E: Write>(error: &Error, writer: &mut W, errors: &mut E) -> u8
    ensures { (result ≡ DONE) ⊎ IsFailure result }
{
    if write!(writer, "{error}").is_err() || flush(writer).is_err() {
        return report(RunFault::Write, errors);
    }
    DONE
}

/// Prints help or the version on the writer, or what is wrong with the words on `errors`, and returns the status.
fn print_words<W: Write, E: Write>(
    alloc: Global,
    error: &Error,
    writer: &mut W,
    errors: &mut E,
) -> u8
    ensures memory { kind_of error.now ≡ ErrorKind.OutOfMemory → (result ≡ NO_MEMORY)
        × Keeps (W.contents writer.old) (W.contents writer.new) }
    ensures version { kind_of error.now ≡ ErrorKind.DisplayVersion →
        ((result ≡ DONE) × Appends (W.contents writer.old) (W.contents writer.new) version_line)
        ⊎ (IsFailure result
        × WritesFront (W.contents writer.old) (W.contents writer.new) version_line) }
    ensures help { kind_of error.now ≡ ErrorKind.DisplayHelp → (result ≡ DONE) ⊎ IsFailure result }
    ensures mistake { IsTrue (is_mistake (kind_of error.now)) → ((result ≡ REFUSED) ⊎ (result ≡ NO_MEMORY))
        × Keeps (W.contents writer.old) (W.contents writer.new) }
    ensures any { ((result ≡ REFUSED) × Keeps (W.contents writer.old) (W.contents writer.new))
        ⊎ ((result ≡ DONE) ⊎ IsFailure result) }
{
    if error.kind() == ErrorKind::OutOfMemory {
        let _ = writeln!(errors, "{}", RunFault::NoMemory);
        return NO_MEMORY;
    }
    if error.kind() == ErrorKind::DisplayVersion {
        return print_version(alloc, writer, errors);
    }
    if error.use_stderr() {
        let _ = write!(errors, "{error}");
        return REFUSED;
    }
    print_help(error, writer, errors)
}

/// Reports the first faulty line of a script: its number, and then why it is faulty.
fn report_script<E: Write>(fault: ScriptFault, errors: &mut E) -> u8
    ensures { result ≡ FAILED }
{
    let _ = write_script_fault(fault, errors);
    FAILED
}

/// Reports why a storm didn't succeed, and returns the status. Of a replay that failed only the storm's text and the status say it.
fn report_storm<E: Write>(fault: StormFault, errors: &mut E) -> u8
    ensures { result ≡ storm_status fault }
{
    match fault {
        StormFault::Run(fault) => report(fault, errors),
        StormFault::Script(fault) => report_script(fault, errors),
        StormFault::Replay => NOT_RIGHT,
    }
}

/// Reports that there is no history of a fault, if one is asked for, and what may be a mistake in the script.
fn report_right<E: Write>(options: ExploreOptions, warnings: &[Warning], errors: &mut E) -> u8
    ensures { result ≡ DONE }
{
    let _ = write_right_diagnostics(options.history, warnings, errors);
    DONE
}

/// Reports why an exploration didn't succeed, and returns the status. What it found is said by its text, or by a history if it is
/// that of a fault.
fn report_exploration<E: Write>(fault: ExploreFault, options: ExploreOptions, errors: &mut E) -> u8
    ensures { result ≡ explore_status fault }
{
    let _ = write_fault_diagnostics(options.history, fault, errors);
    match fault {
        ExploreFault::Run(fault) => report(fault, errors),
        ExploreFault::Script(_) => FAILED,
        ExploreFault::Faulty => NOT_RIGHT,
        ExploreFault::Incomplete => NOT_RIGHT,
        ExploreFault::NoRoom => NOT_RIGHT,
        ExploreFault::Replay => FAILED,
    }
}

/// Does a run.
fn do_run<T: Threads + RandomSource + Sync, R: Read, W: Write, E: Write>(
    rt: &T,
    alloc: Global,
    options: Options,
    reader: &mut R,
    writer: &mut W,
    errors: &mut E,
) -> u8
    requires { AreRunOptions options }
    ensures { ProgramDoes (Do (Request.Run options)) (streams (R.remaining reader.old) (R.remaining reader.new)
        (W.contents writer.old) (W.contents writer.new)) result }
{
    match run(rt, alloc, reader, writer, options) {
        Ok(()) => DONE,
        Err(fault) => report(fault, errors),
    }
}

/// Does a storm.
fn do_storm<T: Threads + Wait + RandomSource + Sync, R: Read, W: Write, E: Write>(
    rt: &T,
    alloc: Global,
    options: Options,
    reader: &mut R,
    writer: &mut W,
    errors: &mut E,
) -> u8
    requires { AreRunOptions options }
    ensures { ProgramDoes (Do (Request.Storm options)) (streams (R.remaining reader.old) (R.remaining reader.new)
        (W.contents writer.old) (W.contents writer.new)) result }
{
    match storm(rt, alloc, reader, writer, options) {
        Ok(()) => DONE,
        Err(fault) => report_storm(fault, errors),
    }
}

/// Does an exploration.
fn do_exploration<R: Read, W: Write, E: Write>(
    alloc: Global,
    seed: Seed,
    options: ExploreOptions,
    reader: &mut R,
    writer: &mut W,
    errors: &mut E,
) -> u8
    ensures { ProgramDoes (Do (Request.Explore options)) (streams (R.remaining reader.old) (R.remaining reader.new)
        (W.contents writer.old) (W.contents writer.new)) result }
{
    match explore_with(alloc, seed, reader, writer, options) {
        Ok(warnings) => report_right(options, &warnings, errors),
        Err(fault) => report_exploration(fault, options, errors),
    }
}

/// Does a check.
fn do_check<R: Read, W: Write, E: Write>(
    alloc: Global,
    seed: Seed,
    reader: &mut R,
    writer: &mut W,
    errors: &mut E,
) -> u8
    ensures { ProgramDoes (Do Request.Check) (streams (R.remaining reader.old) (R.remaining reader.new)
        (W.contents writer.old) (W.contents writer.new)) result }
{
    match check_with(alloc, seed, reader, writer) {
        Ok(finding) => finding.status(),
        Err(fault) => report(fault, errors),
    }
}

/// Does a check that also explains the first line that isn't accepted.
fn do_check_why<R: Read, W: Write, E: Write>(
    alloc: Global,
    seed: Seed,
    reader: &mut R,
    writer: &mut W,
    errors: &mut E,
) -> u8
    ensures { ProgramDoes (Do Request.CheckWhy) (streams (R.remaining reader.old) (R.remaining reader.new)
        (W.contents writer.old) (W.contents writer.new)) result }
{
    match check_why(alloc, seed, reader, writer) {
        Ok(finding) => finding.status(),
        Err(fault) => report(fault, errors),
    }
}

/// Does what is requested.
fn perform<T: Threads + Wait + RandomSource + Sync, F: JournalFiles, R: Read, W: Write, E: Write>(
    rt: &T,
    alloc: Global,
    request: Request,
    files: &F,
    reader: &mut R,
    writer: &mut W,
    errors: &mut E,
) -> u8
    requires { HasOptionsInRange request }
    ensures { ProgramDoes (Do request.entry) (program_streams (F.contents files.now)
        (R.remaining reader.old) (R.remaining reader.new) (W.contents writer.old) (W.contents writer.new)) result }
{
    match request {
        Request::Run(options) => do_run(rt, alloc, options, reader, writer, errors),
        Request::RunOn(options, sync, file) => run_on_file(
            rt,
            alloc,
            files,
            options,
            sync,
            file.as_str(),
            reader,
            writer,
            errors,
        ),
        Request::Storm(options) => do_storm(rt, alloc, options, reader, writer, errors),
        Request::Explore(options) => {
            do_exploration(alloc, Seed::random(rt), options, reader, writer, errors)
        }
        Request::Check => do_check(alloc, Seed::random(rt), reader, writer, errors),
        Request::CheckWhy => do_check_why(alloc, Seed::random(rt), reader, writer, errors),
    }
}

/// The whole program: reads its words, of which the first is the program's name, does what they ask for, from the reader to the
/// writer, perhaps with one of the files, reports errors on `errors`, and returns the exit status:
///
/// - 0: the input was read to its end, and nothing wrong was found; or help or the version was printed.
/// - 1: a read or a write failed, a line of a script is wrong, or the file of a run can't be opened or its history is full.
/// - 2: the words were refused.
/// - 3: a history isn't legal, also that of a storm's clients, or a storm's desk couldn't be closed; the file of a run has no history
///   to go on from; or an exploration found a fault or too many states.
/// - 4: memory ran out, or a thread didn't start.
///
/// If `errors` fails, that changes nothing.
pub fn start<
    'a,
    T: Threads + Wait + RandomSource + Sync,
    S: AsStr,
    F: JournalFiles,
    R: Read,
    W: Write,
    E: Write,
>(
    rt: &T,
    alloc: Global,
    words: &'a [S],
    files: &F,
    reader: &mut R,
    writer: &mut W,
    errors: &mut E,
) -> u8
    // What is read and written, and the status that comes back, by what the words ask for.
    ensures { ProgramDoes (asked_by (map S.text words.now)) (program_streams (F.contents files.now)
        (R.remaining reader.old) (R.remaining reader.new) (W.contents writer.old) (W.contents writer.new)) result }
{
    match read_words(alloc, words) {
        Ok(request) => perform(rt, alloc, request, files, reader, writer, errors),
        Err(error) => print_words(alloc, &error, writer, errors),
    }
}
