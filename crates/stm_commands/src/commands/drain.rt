//! `drain`: all that can run does, the lowest block first.

ghost use Rattle.std.specs.Prelude.{◌≡◌, ◌≢◌, ◌++◌, string_bytes, OnOk};
ghost use Rattle.stm_desk.specs.Settling.{requeued_all};
ghost use Rattle.stm_commands.specs.Endings.{drained_line, why_text, drain_desk_step, drain_step};
ghost use Rattle.stm_commands.specs.OpenDesk.{on_desk};
ghost use Rattle.stm_commands.specs.Printing.{Prints, TakesStep};

use crate::commands::settle::{write_evaluations, write_why};
use crate::open_desk::OpenDesk;
use crate::refusals::refuse_argument;
use stm_desk::{SettleStop, SettleWhy};
use stm_terms::NoMemory;
use stm_terms::text::write_number;

/// Appends how much draining did.
#[tactic(auto, unfolding(crate::specs::Endings::drained_line))]
fn write_drained(finished: u32, evaluations: u32, out: &mut String) -> Result<(), NoMemory>
    ensures { Prints result out.old out.new (drained_line finished evaluations) }
{
    out.push_str("drained ")?;
    write_number(finished, out)?;
    write_evaluations(evaluations, out)
}

/// Appends why draining stopped, and how much it did.
fn write_drain_stop(stop: SettleStop, out: &mut String) -> Result<(), NoMemory>
    ensures text { OnOk result (string_bytes out.new ≡ string_bytes out.old ++ why_text stop.why
        ++ drained_line stop.finished stop.evaluations) }
    ensures memory { OnOk result (stop.why ≢ SettleWhy.NoMemory) }
{
    write_why(stop.why, out)?;
    write_drained(stop.finished, stop.evaluations, out)
}

impl OpenDesk {
    /// Drains the desk.
    fn drain(&mut self, out: &mut String) -> Result<(), NoMemory>
        ensures { TakesStep result self.new out.old out.new
            (on_desk self.old (drain_desk_step (requeued_all self.old.desk))) }
    {
        self.copy = None;
        let answer = self.desk.drain(0);
        // The history is known to be legal by this.
        let _events = self.desk.history();
        match answer {
            Ok(drained) => write_drained(drained.finished, drained.evaluations, out),
            Err(stop) => write_drain_stop(stop, out),
        }
    }

    /// Answers `drain`: all that can run does, the lowest block first.
    /// Prints how many blocks finished, how many were run, and why it stopped, if a limit stopped it.
    #[tactic(auto, unfolding(crate::specs::Endings::drain_step))]
    pub fn answer_drain(&mut self, argument: &str, out: &mut String) -> Result<(), NoMemory>
        ensures { TakesStep result self.new out.old out.new (drain_step self.old argument.now) }
    {
        if !argument.is_empty() {
            return refuse_argument(out);
        }
        self.drain(out)
    }
}
