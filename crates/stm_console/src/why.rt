//! `check --why`: a check that also prints what would be accepted instead, or why nothing would be.

ghost use Rattle.std.specs.Prelude.{◌≡◌, ◌≢◌, ◌++◌, [], ℕ, List, IfErr, IfOk, IfSome, OnErr, OnOk, codes, decimal, string_bytes};
ghost use Rattle.std.specs.Io.KnownBytes.{Keeps};
ghost use Rattle.stm_lines.specs.WrittenFronts.{WritesSome};
ghost use Rattle.stm_console.specs.Checking.{finding_text};
ghost use Rattle.stm_console.specs.Why.{BeginsAnswerWhy, IsAnswerWhy, WritesWhy, call_refusal_text, explanation_text};
ghost use Rattle.stm_history.specs.Explanation.{ReportsWhy};
ghost use Rattle.stm_history.specs.Judgement.{ReportsFault};

use crate::checking::{Finding, write_finding};
use std::alloc::Global;
use std::io::{ErrorKind, Read, Write};
use stm_commands::refusals::{
    refuse_cancel, refuse_delivery, refuse_finish, refuse_label, refuse_late_declaration,
    refuse_submit,
};
use stm_history::{CallRefusal, Explanation, HistoryFault, Reason, why_history};
use stm_lines::RunFault;
use stm_lines::output::write_flushed;
use stm_store::Seed;
use stm_terms::NoMemory;
use stm_terms::text::write_number;

/// Reads all bytes of a reader, which is called 4,294,967,295 times at most.
fn read_all<R: Read>(alloc: Global, reader: &mut R) -> Result<Vec<u8>, RunFault>
    ensures bytes { IfOk result (λ v. IfSome (R.remaining reader.old) (λ bytes. v.items ≡ bytes)) }
    ensures fault { IfErr result (λ e. e ≢ RunFault.Write) }
{
    let mut bytes = Vec::new(alloc);
    let mut buffer = [0u8; 8_192];
    'reads: for _ in 0..u32::MAX {
        match reader.read(&mut buffer) {
            Ok(count) => {
                if count == 0 {
                    return Ok(bytes);
                }
                match bytes.extend_from_slice(&buffer[..count]) {
                    Ok(()) => {}
                    Err(_) => return Err(RunFault::NoMemory),
                }
            }
            Err(fault) if fault.kind() == ErrorKind::Interrupted => {}
            Err(_) => return Err(RunFault::Read),
        }
    }
    Err(RunFault::Read)
}

fn write_refusal(refusal: CallRefusal, out: &mut String) -> Result<(), NoMemory>
    ensures { OnOk result
        (string_bytes out.new ≡ string_bytes out.old ++ call_refusal_text refusal) }
{
    match refusal {
        CallRefusal::Submission(error) => refuse_submit(error, out),
        CallRefusal::Delivery(error) => refuse_delivery(error, out),
        CallRefusal::Finish(error) => refuse_finish(error, out),
        CallRefusal::Cancellation(error) => refuse_cancel(error, out),
        CallRefusal::Declaration(error) => refuse_late_declaration(error, out),
        CallRefusal::Labelling(error) => refuse_label(error, out),
    }
}

fn write_expected(line: &str, out: &mut String) -> Result<(), NoMemory>
    ensures { OnOk result (string_bytes out.new
        ≡ string_bytes out.old ++ (codes "expected " ++ line.now ++ codes "\n")) }
{
    out.push_str("expected ")?;
    out.push_str(line)?;
    out.push_str("\n")
}

/// Appends what is printed of an explanation.
fn write_explanation(explanation: &Explanation, out: &mut String) -> Result<(), NoMemory>
    ensures { OnOk result
        (string_bytes out.new ≡ string_bytes out.old ++ explanation_text explanation.now) }
{
    match explanation {
        Explanation::Expected(line) => write_expected(line, out),
        Explanation::Refused(refusal) => write_refusal(*refusal, out),
        Explanation::Unreadable => out.push_str("unreadable\n"),
    }
}

/// Appends the number of a line, as it comes before an explanation.
fn write_place(line: u32, out: &mut String) -> Result<(), NoMemory>
    ensures { OnOk result (string_bytes out.new
        ≡ string_bytes out.old ++ (codes "line " ++ decimal line ++ codes " ")) }
{
    out.push_str("line ")?;
    write_number(line, out)?;
    out.push_str(" ")
}

/// Appends what is printed of a bad header, and why it is one.
fn write_bad_header(line: u32, explanation: &Explanation, out: &mut String) -> Result<(), NoMemory>
    ensures { OnOk result (string_bytes out.new ≡ string_bytes out.old
        ++ (finding_text Finding.BadHeader
        ++ (codes "line " ++ decimal line ++ codes " " ++ explanation_text explanation.now))) }
{
    write_finding(Finding::BadHeader, out)?;
    write_place(line, out)?;
    write_explanation(explanation, out)
}

/// Appends what is printed of a finding and of an explanation.
fn write_explained(
    finding: Finding,
    explanation: &Explanation,
    out: &mut String,
) -> Result<(), NoMemory>
    ensures { OnOk result (string_bytes out.new ≡ string_bytes out.old
        ++ (finding_text finding ++ explanation_text explanation.now)) }
{
    write_finding(finding, out)?;
    write_explanation(explanation, out)
}

/// Appends what is printed of bytes that are no legal history, and returns what was found.
fn write_reason(reason: &Reason, out: &mut String) -> Result<Finding, NoMemory>
    ensures { IfOk result (λ f. (bytes : List ℕ) → string_bytes out.old ≡ [] → ReportsFault reason.now.fault bytes
        → ReportsWhy bytes reason.now.fault reason.now.line reason.now.explanation
        → IsAnswerWhy bytes f (string_bytes out.new)) }
{
    let explanation = &reason.explanation;
    match reason.fault {
        HistoryFault::BadHeader => {
            write_bad_header(reason.line, explanation, out)?;
            Ok(Finding::BadHeader)
        }
        HistoryFault::BadLine(line) => {
            write_explained(Finding::BadLine(line), explanation, out)?;
            Ok(Finding::BadLine(line))
        }
        HistoryFault::NotLegal(line) => {
            write_explained(Finding::NotLegal(line), explanation, out)?;
            Ok(Finding::NotLegal(line))
        }
        HistoryFault::ReadFault => Err(NoMemory),
        HistoryFault::NoMemory => Err(NoMemory),
    }
}

/// Appends what is printed of the bytes, and returns what was found.
fn write_why(alloc: Global, seed: Seed, bytes: &[u8], out: &mut String) -> Result<Finding, NoMemory>
    requires { string_bytes out.old ≡ [] }
    ensures { IfOk result (λ f. IsAnswerWhy bytes.now f (string_bytes out.new)) }
{
    match why_history(alloc, seed, bytes) {
        Ok(Ok(legal)) => {
            let finding = Finding::Legal(legal.events);
            write_finding(finding, out)?;
            Ok(finding)
        }
        Ok(Err(reason)) => write_reason(&reason, out),
        Err(refused) => Err(refused),
    }
}

/// What is printed of the bytes, and what was found.
fn answer_why(alloc: Global, seed: Seed, bytes: &[u8]) -> Result<(Finding, String), RunFault>
    ensures answer { IfOk result (λ p. IsAnswerWhy bytes.now p.0 (string_bytes p.1)) }
    ensures memory { IfErr result (λ e. e ≡ RunFault.NoMemory) }
{
    let mut text = String::new(alloc);
    match write_why(alloc, seed, bytes, &mut text) {
        Ok(finding) => Ok((finding, text)),
        Err(_) => Err(RunFault::NoMemory),
    }
}

/// Writes what is printed of the bytes, and flushes; returns what was found.
fn answer_bytes<W: Write>(
    alloc: Global,
    seed: Seed,
    bytes: &[u8],
    writer: &mut W,
) -> Result<Finding, RunFault>
    ensures found { IfOk result (λ f. WritesSome (IsAnswerWhy bytes.now f)
        (W.contents writer.old) (W.contents writer.new)) }
    ensures part { OnErr result (WritesSome (BeginsAnswerWhy bytes.now)
        (W.contents writer.old) (W.contents writer.new)) }
    ensures unfound { IfErr result (λ e.
        e ≢ RunFault.Write → Keeps (W.contents writer.old) (W.contents writer.new)) }
{
    let (finding, text) = answer_why(alloc, seed, bytes)?;
    match write_flushed(writer, text.as_bytes()) {
        Ok(()) => Ok(finding),
        Err(fault) => Err(fault),
    }
}

/// Reads a history to its end, writes whether it is legal, and if it isn't what would be accepted in place of the first line
/// that isn't, and flushes. The whole history is read into memory first.
///
/// What is written begins as that of `check`. A line more follows unless the history is legal: `expected LINE`, `refused NAME`
/// or `unreadable`, after `bad header` with `line N ` before it. The reader is called 4,294,967,295 times at most, which no clause
/// says. The names of variables are looked up under the seed.
pub fn check_why<R: Read, W: Write>(
    alloc: Global,
    seed: Seed,
    reader: &mut R,
    writer: &mut W,
) -> Result<Finding, RunFault>
    // By the result: what was found was written, and why, or a part of it.
    ensures { WritesWhy (R.remaining reader.old) (W.contents writer.old) (W.contents writer.new) result }
{
    let bytes = read_all(alloc, reader)?;
    answer_bytes(alloc, seed, &bytes, writer)
}
