//! `declare`: a variable gets the next number and a name.

ghost use Rattle.std.specs.Prelude.{IsTrue};
ghost use Rattle.stm_terms.specs.Names.{is_name_text};
ghost use Rattle.stm_source.specs.LateVariables.{late_variable as variable_in};
ghost use Rattle.stm_desk.specs.Refusals.{late_declare_refusal};
ghost use Rattle.stm_commands.specs.Declaring.{declared_line, declare_variable_step, declare_step};
ghost use Rattle.stm_commands.specs.OpenDesk.{on_desk};
ghost use Rattle.stm_commands.specs.Printing.{Prints, TakesStep};

use crate::open_desk::OpenDesk;
use crate::refusals::{refuse_late_declaration, write_refusal};
use std::alloc::Global;
use stm_source::declaring::{LateVariable, late_variable};
use stm_terms::NoMemory;

#[tactic(auto, unfolding(crate::specs::Declaring::declared_line))]
fn write_declared_line(number: u32, name: &str, out: &mut String) -> Result<(), NoMemory>
    ensures { Prints result out.old out.new (declared_line number name.now) }
{
    write!(out, "declared #{number} {name}\n")
}

impl OpenDesk {
    /// Declares a variable. The caller knows that its name is one.
    fn declare(&mut self, variable: &LateVariable, out: &mut String) -> Result<(), NoMemory>
        requires { IsTrue (is_name_text (variable_in variable.now).name) }
        ensures { TakesStep result self.new out.old out.new
            (on_desk self.old (declare_variable_step self.old.desk (variable_in variable.now)
            (late_declare_refusal self.old.desk (variable_in variable.now).name variable.now.kind variable.now.value))) }
    {
        self.copy = None;
        let name = variable.name.as_str();
        let answer = self.desk.declare(0, name, variable.kind, variable.value);
        // The history is known to be legal by this.
        let _events = self.desk.history();
        match answer {
            Ok(number) => write_declared_line(number, name, out),
            Err(refusal) => refuse_late_declaration(refusal, out),
        }
    }

    /// Answers `declare`: the number and the name of a new variable.
    #[tactic(auto, unfolding(crate::specs::Declaring::declare_step))]
    pub fn answer_declare(
        &mut self,
        alloc: Global,
        text: &str,
        out: &mut String,
    ) -> Result<(), NoMemory>
        ensures { TakesStep result self.new out.old out.new (declare_step self.old text.now) }
    {
        match late_variable(alloc, self.desk.names(), text) {
            Ok(variable) => self.declare(&variable, out),
            Err(refusal) => write_refusal(refusal, out),
        }
    }
}
