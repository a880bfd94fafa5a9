//! The lines of runs and scripts, which have a carriage return dropped and are read to their ends, however long they are.

ghost use Rattle.std.specs.Prelude.{◌≡◌, ◌≢◌, ◌<◌, ◌≤◌, ℕ, length, List, IfErr, IfOk, Ok, Option};
ghost use Rattle.stm_lines.specs.CountedCalls.{CountsCalls};
ghost use Rattle.stm_lines.specs.LineReading.{IsNextLineIf};
ghost use Rattle.stm_lines.specs.LineResults.{ReadsCommandLine};
ghost use Rattle.stm_lines.specs.TakenLines.{TakesPartOfLine};
ghost use Rattle.stm_lines.specs.Unread.{most_unread, unread};

use crate::calls::Calls;
use crate::line_reader::{Line, LineReader};
use crate::run_fault::RunFault;
use std::io::Read;
use std::sync::ledger::Ledger;

/// The most bytes that are kept of a line that isn't too long: a carriage return may follow 65,536 others.
const MOST_KEPT: usize = 65_537;

/// What was read.
#[derive(Clone, Copy)]
pub enum CommandLine {
    /// A line that a line feed ended.
    Whole,
    /// A line that the end of the input ended.
    Last,
    /// The input has ended, and has no further line.
    End,
}

/// Takes the rest of a line that is too long.
fn skip_rest<R: Read, L: Ledger>(
    lines: &mut LineReader,
    calls: &mut Calls<R, L>,
) -> Result<CommandLine, RunFault>
    requires { 65538 ≤ length lines.old.line.items }
    // If the bytes of the line that are kept are all that was taken of an input.
    ensures read { (all : Option (List ℕ))
        → TakesPartOfLine all (unread R.remaining lines.old calls.old) lines.old.line.items
        → ReadsCommandLine all (unread R.remaining lines.new calls.new) lines.new result }
    ensures fault { IfErr result (λ e. e ≡ RunFault.Read) }
    ensures called { CountsCalls calls.old calls.new }
    ensures shorter { result ≡ Ok CommandLine.Whole
        → most_unread lines.new calls.new < most_unread lines.old calls.old }
{
    match lines.skip_line(calls) {
        Ok(true) => Ok(CommandLine::Whole),
        Ok(false) => Ok(CommandLine::Last),
        Err(fault) => Err(fault),
    }
}

/// Reads the next line. One carriage return before the line feed is dropped. Of a line that is too long the first 65,538 bytes
/// are kept, and the others are taken. The clauses say only that the line is judged as the one without the carriage return, and not
/// which bytes are kept.
pub fn next_command_line<R: Read, L: Ledger>(
    lines: &mut LineReader,
    calls: &mut Calls<R, L>,
) -> Result<CommandLine, RunFault>
    // After a fault only bytes of one line were taken, and no line feed; after that of a read, all that was read.
    ensures read { ReadsCommandLine (unread R.remaining lines.old calls.old)
        (unread R.remaining lines.new calls.new) lines.new result }
    ensures called { CountsCalls calls.old calls.new }
    ensures shorter { result ≡ Ok CommandLine.Whole
        → most_unread lines.new calls.new < most_unread lines.old calls.old }
{
    match lines.next_line(calls, MOST_KEPT) {
        Ok(Line::Whole) => {
            lines.drop_return();
            Ok(CommandLine::Whole)
        }
        Ok(Line::Last) => Ok(CommandLine::Last),
        Ok(Line::TooLong) => skip_rest(lines, calls),
        Ok(Line::End) => Ok(CommandLine::End),
        Err(fault) => Err(fault),
    }
}

/// Reads the next line, and returns whether there is one. No clause says what a fault leaves.
pub fn has_next_line<R: Read, L: Ledger>(
    lines: &mut LineReader,
    calls: &mut Calls<R, L>,
) -> Result<bool, RunFault>
    // What was unread begins with the line, or one that is judged as it is, and goes on with what is unread now.
    ensures line { IfOk result (λ some. IsNextLineIf some
        (unread R.remaining lines.old calls.old) (unread R.remaining lines.new calls.new)
        lines.new.line.items) }
    ensures called { CountsCalls calls.old calls.new }
    ensures fault { IfErr result (λ e. e ≢ RunFault.Write) }
{
    match next_command_line(lines, calls) {
        Ok(CommandLine::Whole) => Ok(true),
        Ok(CommandLine::Last) => Ok(true),
        Ok(CommandLine::End) => Ok(false),
        Err(fault) => Err(fault),
    }
}
