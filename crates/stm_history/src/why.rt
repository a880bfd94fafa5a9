//! Bytes that are no legal history: the first fault, and what is reported of its line.

ghost use Rattle.std.specs.Prelude.{◌≡◌, ◌≢◌, ◌++◌, [], ℕ, List, IfOk, IfErr, OnOk};
ghost use Rattle.stm_history.specs.Checking.{StopsAt};
ghost use Rattle.stm_history.specs.Progress.{CheckerState, NoFeed};
ghost use Rattle.stm_history.specs.Explanation.{IsAfterLine, JudgesWithReason, ReportsWhy, line_after};
ghost use Rattle.stm_history.specs.Judgement.{IsHistory, ReportsFault};
ghost use Rattle.stm_history.specs.Stages.{IsStage, CountsWithinLimits, Reached};
ghost use Rattle.stm_history.specs.Stopping.{IsAfter, IsReportedAfter};

use crate::check::{Checker, Stage, line_number, read_all};
use crate::explaining::explain;
use crate::explanation::{Explanation, Reason};
use crate::fault::{HistoryFault, Legal};
use memchr::memchr;
use std::alloc::Global;
use stm_store::Seed;
use stm_terms::NoMemory;

/// Takes all the bytes.
fn take_all(checker: &mut Checker, bytes: &[u8]) -> Result<(), HistoryFault>
    requires { Reached checker.old.stage checker.old.whole checker.old.line.items [] }
    ensures done { OnOk result
        (Reached checker.new.stage checker.new.whole checker.new.line.items bytes.now) }
    ensures fault { IfErr result (λ e. ReportsFault e bytes.now) }
    ensures stops { IfErr result (λ e. (e ≢ HistoryFault.NoMemory) → StopsAt e checker.new.whole bytes.now) }
{
    let mut reader = bytes;
    read_all(checker, &mut reader)
}

/// Judges the bytes. After an error the checker has how many of them are whole lines that were accepted.
fn judge(checker: &mut Checker, bytes: &[u8]) -> Result<Legal, HistoryFault>
    requires { Reached checker.old.stage checker.old.whole checker.old.line.items [] }
    ensures done { IfOk result (λ n. IsHistory bytes.now n) }
    ensures fault { IfErr result (λ e. ReportsFault e bytes.now) }
    ensures stops { IfErr result (λ e. (e ≢ HistoryFault.NoMemory) → StopsAt e checker.new.whole bytes.now) }
{
    match take_all(checker, bytes) {
        Ok(()) => checker.end(),
        Err(fault) => Err(fault),
    }
}

/// The number of the line that comes next.
fn next_number(stage: &Stage) -> u32
    requires { (p : CheckerState) × IsStage stage.now p × CountsWithinLimits p }
    ensures { (p : CheckerState) → IsStage stage.now p → result ≡ line_after p }
{
    match stage {
        Stage::Before { .. } => 1,
        Stage::Declaring { table, .. } => table.len() as u32 + 2,
        Stage::AtCells { cells, .. } => cells.len() as u32 + 2,
        Stage::AtBlocks { checkpoint, .. } => {
            checkpoint.store().len() as u32 + checkpoint.blocks().len() as u32 + 2
        }
        Stage::Running {
            table,
            checkpoint,
            replayer,
            ..
        } => line_number(table, checkpoint, replayer),
    }
}

/// The first line of the bytes, without its line feed.
fn first_line(bytes: &[u8]) -> &[u8]
    ensures one_line { NoFeed result.now }
    ensures cut { (after : List ℕ) × IsAfterLine after × (bytes.now ≡ result.now ++ after) }
{
    match memchr(b'\n', bytes) {
        Some(at) => &bytes[..at],
        None => bytes,
    }
}

/// Takes whole lines, after which no line has begun. They were accepted before, so only out of memory refuses one of them.
fn take_front(checker: &mut Checker, front: &[u8]) -> Result<(), NoMemory>
    requires { Reached checker.old.stage checker.old.whole checker.old.line.items [] }
    ensures { OnOk result (IsAfter front.now checker.new.stage) }
{
    match take_all(checker, front) {
        Ok(()) => {}
        Err(_) => return Err(NoMemory),
    }
    if checker.line.is_empty() {
        Ok(())
    } else {
        Err(NoMemory)
    }
}

/// Takes the front; returns the number of the line after it, and what is reported of that line.
fn explain_next(
    alloc: Global,
    checker: &mut Checker,
    front: &[u8],
    line: &[u8],
) -> Result<(u32, Explanation), NoMemory>
    requires { Reached checker.old.stage checker.old.whole checker.old.line.items [] }
    ensures { IfOk result (λ r. IsReportedAfter front.now line.now r.0 r.1) }
{
    take_front(checker, front)?;
    let number = next_number(&checker.stage);
    let explanation = explain(alloc, &mut checker.stage, line)?;
    Ok((number, explanation))
}

/// The number of the line after the front, and what is reported of it.
fn explain_after(
    alloc: Global,
    seed: Seed,
    front: &[u8],
    line: &[u8],
) -> Result<(u32, Explanation), NoMemory>
    ensures { IfOk result (λ r. IsReportedAfter front.now line.now r.0 r.1) }
{
    let mut checker = Checker::new(alloc, seed, false);
    explain_next(alloc, &mut checker, front, line)
}

/// The reason of a fault after this many bytes of whole lines.
fn reason_of(
    alloc: Global,
    seed: Seed,
    bytes: &[u8],
    fault: HistoryFault,
    whole: usize,
) -> Result<Reason, NoMemory>
    requires stops { StopsAt fault whole bytes.now }
    requires read { fault ≢ HistoryFault.ReadFault }
    requires memory { fault ≢ HistoryFault.NoMemory }
    ensures fault { IfOk result (λ r. r.fault ≡ fault) }
    ensures why { IfOk result (λ r. ReportsWhy bytes.now r.fault r.line r.explanation) }
{
    let line = first_line(&bytes[whole..]);
    let (number, explanation) = explain_after(alloc, seed, &bytes[..whole], line)?;
    Ok(Reason {
        fault,
        line: number,
        explanation,
    })
}

/// The reason of a fault of the bytes. The reader of bytes in memory has none.
fn reason_for(
    alloc: Global,
    seed: Seed,
    bytes: &[u8],
    fault: HistoryFault,
    whole: usize,
) -> Result<Reason, NoMemory>
    requires fault { ReportsFault fault bytes.now }
    requires stops { (fault ≢ HistoryFault.NoMemory) → StopsAt fault whole bytes.now }
    ensures fault { IfOk result (λ r. ReportsFault r.fault bytes.now) }
    ensures why { IfOk result (λ r. ReportsWhy bytes.now r.fault r.line r.explanation) }
{
    match fault {
        HistoryFault::NoMemory => Err(NoMemory),
        HistoryFault::ReadFault => Err(NoMemory),
        HistoryFault::BadHeader => reason_of(alloc, seed, bytes, fault, whole),
        HistoryFault::BadLine(_) => reason_of(alloc, seed, bytes, fault, whole),
        HistoryFault::NotLegal(_) => reason_of(alloc, seed, bytes, fault, whole),
    }
}

/// Judges the bytes from their beginning. With a fault comes how many of them are whole lines that were accepted.
fn judge_all(alloc: Global, seed: Seed, bytes: &[u8]) -> Result<Legal, (HistoryFault, usize)>
    ensures done { IfOk result (λ n. IsHistory bytes.now n) }
    ensures fault { IfErr result (λ e. ReportsFault e.0 bytes.now) }
    ensures stops { IfErr result (λ e. (e.0 ≢ HistoryFault.NoMemory) → StopsAt e.0 e.1 bytes.now) }
{
    let mut checker = Checker::new(alloc, seed, false);
    match judge(&mut checker, bytes) {
        Ok(legal) => Ok(legal),
        Err(fault) => Err((fault, checker.whole)),
    }
}

/// Judges bytes as a history, as `check_history` does, and reports why they are none. The fault of a reason is never `ReadFault` or
/// `NoMemory`. If the bytes have a fault, the lines before it are judged twice, which no clause says.
pub fn why_history(
    alloc: Global,
    seed: Seed,
    bytes: &[u8],
) -> Result<Result<Legal, Reason>, NoMemory>
    ensures { IfOk result (JudgesWithReason bytes.now) }
{
    match judge_all(alloc, seed, bytes) {
        Ok(legal) => Ok(Ok(legal)),
        Err((fault, whole)) => Ok(Err(reason_for(alloc, seed, bytes, fault, whole)?)),
    }
}
