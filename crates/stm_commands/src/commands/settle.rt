//! `settle`: all that can run does.

ghost use Rattle.std.specs.Prelude.{◌≡◌, ◌≢◌, ◌++◌, ◌∷◌, [], codes, string_bytes, OnOk, decimal};
ghost use Rattle.stm_desk.specs.Settling.{requeued_all};
ghost use Rattle.stm_commands.specs.Endings.{settled_line, why_text, settle_desk_step, settle_step};
ghost use Rattle.stm_commands.specs.OpenDesk.{on_desk};
ghost use Rattle.stm_commands.specs.Printing.{Prints, TakesStep};

use crate::open_desk::OpenDesk;
use crate::refusals::refuse_argument;
use std::alloc::AllocError;
use stm_desk::{SettleStop, SettleWhy};
use stm_terms::NoMemory;
use stm_terms::text::write_number;

/// Appends how many blocks were run.
pub(super) fn write_evaluations(evaluations: u32, out: &mut String) -> Result<(), NoMemory>
    ensures { OnOk result (string_bytes out.new
        ≡ string_bytes out.old ++ codes " evaluations " ++ decimal evaluations ++ 10 ∷ []) }
{
    out.push_str(" evaluations ")?;
    write_number(evaluations, out)?;
    out.push_str("\n")
}

/// Appends how much settling did.
#[tactic(auto, unfolding(crate::specs::Endings::settled_line))]
fn write_settled(finished: u32, evaluations: u32, out: &mut String) -> Result<(), NoMemory>
    ensures { Prints result out.old out.new (settled_line finished evaluations) }
{
    out.push_str("settled ")?;
    write_number(finished, out)?;
    write_evaluations(evaluations, out)
}

/// Appends why settling or draining stopped. An out-of-memory error isn't reported here.
pub(super) fn write_why(why: SettleWhy, out: &mut String) -> Result<(), NoMemory>
    ensures text { Prints result out.old out.new (why_text why) }
    ensures memory { OnOk result (why ≢ SettleWhy.NoMemory) }
{
    match why {
        SettleWhy::HistoryFull => out.push_str("stopped HistoryFull "),
        SettleWhy::CellsFull => out.push_str("stopped CellsFull "),
        SettleWhy::NoMemory => Err(AllocError),
    }
}

/// Appends why settling stopped, and how much it did.
fn write_stop(stop: SettleStop, out: &mut String) -> Result<(), NoMemory>
    ensures text { OnOk result (string_bytes out.new ≡ string_bytes out.old ++ why_text stop.why
        ++ settled_line stop.finished stop.evaluations) }
    ensures memory { OnOk result (stop.why ≢ SettleWhy.NoMemory) }
{
    write_why(stop.why, out)?;
    write_settled(stop.finished, stop.evaluations, out)
}

impl OpenDesk {
    /// Settles the desk.
    fn settle(&mut self, out: &mut String) -> Result<(), NoMemory>
        ensures { TakesStep result self.new out.old out.new
            (on_desk self.old (settle_desk_step (requeued_all self.old.desk))) }
    {
        self.copy = None;
        let answer = self.desk.settle(0);
        // The history is known to be legal by this.
        let _events = self.desk.history();
        match answer {
            Ok(settled) => write_settled(settled.finished, settled.evaluations, out),
            Err(stop) => write_stop(stop, out),
        }
    }

    /// Answers `settle`: all that can run does, in a fixed order.
    /// Prints how many blocks finished, how many were run, and why it stopped, if a limit stopped it.
    #[tactic(auto, unfolding(crate::specs::Endings::settle_step))]
    pub fn answer_settle(&mut self, argument: &str, out: &mut String) -> Result<(), NoMemory>
        ensures { TakesStep result self.new out.old out.new (settle_step self.old argument.now) }
    {
        if !argument.is_empty() {
            return refuse_argument(out);
        }
        self.settle(out)
    }
}
