//! `check`: whether the bytes of a reader are the text of a legal history.

ghost use Rattle.std.specs.Prelude.{◌≡◌, ◌++◌, OnOk, IfErr, IfOk, IfSome, decimal, string_bytes};
ghost use Rattle.stm_console.specs.Checking.{IsFinding, WritesFinding, finding_text};
ghost use Rattle.stm_console.specs.ExitStatus.{finding_status};

use crate::status::{DONE, NOT_RIGHT};
use std::alloc::Global;
use std::io::{Read, Write};
use stm_history::{HistoryFault, check_history_with};
use stm_lines::RunFault;
use stm_lines::output::write_flushed;
use stm_store::Seed;
use stm_terms::NoMemory;
use stm_terms::text::write_number;

/// What is found of bytes: a legal history of N events, or the first fault. Lines count from 1.
#[derive(Clone, Copy, Debug, PartialEq, Eq)]
pub enum Finding {
    Legal(u32),
    BadHeader,
    BadLine(u32),
    NotLegal(u32),
}

impl Finding {
    /// The exit status of a check that found this.
    pub fn status(self) -> u8
        ensures { result ≡ finding_status self }
    {
        match self {
            Finding::Legal(_) => DONE,
            Finding::BadHeader => NOT_RIGHT,
            Finding::BadLine(_) => NOT_RIGHT,
            Finding::NotLegal(_) => NOT_RIGHT,
        }
    }
}

/// Judges all bytes of a reader.
fn judge<R: Read>(alloc: Global, seed: Seed, reader: &mut R) -> Result<Finding, RunFault>
    ensures { IfOk result (λ f. IfSome (R.remaining reader.old) (λ bytes. IsFinding bytes f)) }
{
    match check_history_with(alloc, seed, reader) {
        Ok(legal) => Ok(Finding::Legal(legal.events)),
        Err(HistoryFault::BadHeader) => Ok(Finding::BadHeader),
        Err(HistoryFault::BadLine(line)) => Ok(Finding::BadLine(line)),
        Err(HistoryFault::NotLegal(line)) => Ok(Finding::NotLegal(line)),
        Err(HistoryFault::ReadFault) => Err(RunFault::Read),
        Err(HistoryFault::NoMemory) => Err(RunFault::NoMemory),
    }
}

/// Appends a word, a number and what follows it.
fn write_counted(before: &str, number: u32, after: &str, out: &mut String) -> Result<(), NoMemory>
    ensures { OnOk result
        (string_bytes out.new ≡ string_bytes out.old ++ before.now ++ decimal number ++ after.now) }
{
    out.push_str(before)?;
    write_number(number, out)?;
    out.push_str(after)
}

/// Appends what is printed of a finding.
pub(crate) fn write_finding(finding: Finding, out: &mut String) -> Result<(), NoMemory>
    ensures { OnOk result (string_bytes out.new ≡ string_bytes out.old ++ finding_text finding) }
{
    match finding {
        Finding::Legal(events) => write_counted("legal ", events, " events\n", out),
        Finding::BadHeader => out.push_str("bad header\n"),
        Finding::BadLine(line) => write_counted("bad line ", line, "\n", out),
        Finding::NotLegal(line) => write_counted("not legal ", line, "\n", out),
    }
}

/// The line that is printed of a finding.
fn finding_line(alloc: Global, finding: Finding) -> Result<String, RunFault>
    ensures text { IfOk result (λ text. string_bytes text ≡ finding_text finding) }
    ensures fault { IfErr result (λ e. e ≡ RunFault.NoMemory) }
{
    let mut text = String::new(alloc);
    match write_finding(finding, &mut text) {
        Ok(()) => Ok(text),
        Err(_) => Err(RunFault::NoMemory),
    }
}

/// Reads a history to its end, writes whether it is legal, and flushes.
///
/// docs/HISTORY.md has the format and says which fault is the first. It is written as `legal N events`, `bad header`,
/// `bad line N` or `not legal N`, with a line feed. The reader is called 4,294,967,295 times at most, which no clause says.
pub fn check<R: Read, W: Write>(
    alloc: Global,
    reader: &mut R,
    writer: &mut W,
) -> Result<Finding, RunFault>
    // By the result: what was found was written, or a part of it.
    ensures { WritesFinding (R.remaining reader.old) (W.contents writer.old) (W.contents writer.new) result }
{
    check_with(alloc, Seed::fixed(), reader, writer)
}

/// Does what `check` does, and looks up the names of variables under the seed.
pub fn check_with<R: Read, W: Write>(
    alloc: Global,
    seed: Seed,
    reader: &mut R,
    writer: &mut W,
) -> Result<Finding, RunFault>
    // By the result: what was found was written, or a part of it.
    ensures { WritesFinding (R.remaining reader.old) (W.contents writer.old) (W.contents writer.new) result }
{
    let finding = judge(alloc, seed, reader)?;
    let line = finding_line(alloc, finding)?;
    write_flushed(writer, line.as_bytes())?;
    Ok(finding)
}
