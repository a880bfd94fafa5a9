//! `try` and `looks`: what a block does on the present store, which stays as it is.

ghost use Rattle.std.specs.Prelude.{◌≡◌, Some};
ghost use Rattle.stm_terms.specs.ReadSet.{reads_of};
ghost use Rattle.stm_events.specs.SlowDesk.{under, verdict_on};
ghost use Rattle.stm_store.specs.Cells.{Covers, plains};
ghost use Rattle.stm_commands.specs.Blocks.{try_answer, looks_answer, verdict_line, reads_line};
ghost use Rattle.stm_commands.specs.OpenDesk.{present};
ghost use Rattle.stm_commands.specs.Printing.{Prints};

use crate::open_desk::OpenDesk;
use crate::refusals::write_refusal;
use std::alloc::Global;
use stm_check::Typed;
use stm_eval::try_block_in;
use stm_terms::NoMemory;
use stm_terms::text::{write_verdict, write_writes};
use stm_terms::values::Value;
use stm_terms::verdicts::Verdict;

/// Appends a verdict as a line.
#[tactic(auto, unfolding(crate::specs::Blocks::verdict_line))]
fn write_verdict_line(verdict: &Verdict, out: &mut String) -> Result<(), NoMemory>
    ensures { Prints result out.old out.new (verdict_line (Some verdict.now)) }
{
    write_verdict(verdict, out)?;
    out.push_str("\n")
}

/// Appends reads as a line.
#[tactic(auto, unfolding(crate::specs::Blocks::reads_line))]
pub fn write_reads_line(reads: &[(u32, Value)], out: &mut String) -> Result<(), NoMemory>
    ensures { Prints result out.old out.new (reads_line reads.now) }
{
    out.push_str("reads ")?;
    write_writes(reads, out)?;
    out.push_str("\n")
}

impl OpenDesk {
    /// Appends the verdict of a block on the present store.
    fn write_tried(&mut self, block: &Typed, out: &mut String) -> Result<(), NoMemory>
        requires { Covers (plains (present self.old)) block.now.uses }
        ensures text { Prints result out.old out.new
            (verdict_line (verdict_on (present self.old) block.now)) }
        ensures same { self.new ≡ self.old }
    {
        let copy = self.take_copy()?;
        let verdict = try_block_in(&mut self.scratch, &copy, block)?;
        self.keep_copy(copy);
        write_verdict_line(&verdict, out)
    }

    /// Appends what a block reads on the present store.
    fn write_looked(&mut self, block: &Typed, out: &mut String) -> Result<(), NoMemory>
        requires { Covers (plains (present self.old)) block.now.uses }
        ensures text { Prints result out.old out.new
            (reads_line (reads_of (under (present self.old)) block.now.tree)) }
        ensures same { self.new ≡ self.old }
    {
        let copy = self.take_copy()?;
        let _verdict = try_block_in(&mut self.scratch, &copy, block)?;
        let written = write_reads_line(self.scratch.as_slice(), out);
        self.keep_copy(copy);
        written
    }

    /// Answers `try`: the verdict of a block.
    #[tactic(auto, unfolding(crate::specs::Blocks::try_answer))]
    pub fn answer_try(
        &mut self,
        alloc: Global,
        text: &str,
        out: &mut String,
    ) -> Result<(), NoMemory>
        ensures text { Prints result out.old out.new (try_answer self.old text.now) }
        ensures same { self.new ≡ self.old }
    {
        match self.block(alloc, text) {
            Ok(block) => self.write_tried(block.block(), out),
            Err(refusal) => write_refusal(refusal, out),
        }
    }

    /// Answers `looks`: what a block reads.
    #[tactic(auto, unfolding(crate::specs::Blocks::looks_answer))]
    pub fn answer_looks(
        &mut self,
        alloc: Global,
        text: &str,
        out: &mut String,
    ) -> Result<(), NoMemory>
        ensures text { Prints result out.old out.new (looks_answer self.old text.now) }
        ensures same { self.new ≡ self.old }
    {
        match self.block(alloc, text) {
            Ok(block) => self.write_looked(block.block(), out),
            Err(refusal) => write_refusal(refusal, out),
        }
    }
}
