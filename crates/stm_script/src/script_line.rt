//! What a line of a storm's script says.

ghost use Rattle.std.specs.Prelude.{◌≡◌, ◌<◌, length, slice_get};
ghost use Rattle.stm_parse.specs.Declarations.{parsed_initial};
ghost use Rattle.stm_parse.specs.ExpectationFunction.{parsed_expectation};
ghost use Rattle.stm_lines.specs.NumberArgument.{number_argument};
ghost use Rattle.stm_source.specs.CompiledBlock.{compiled_block};
ghost use Rattle.stm_source.specs.DeclaredVariable.{initial as initial_of};
ghost use Rattle.stm_store.specs.Naming.{named_in_table};
ghost use Rattle.stm_script.specs.ScriptReading.{or_refused, IsLineFaultOf, ReadsTo};
ghost use Rattle.stm_script.specs.StormScript.{submission_of, expected_at, expected_task};

use crate::script_fault::Reason;
use crate::section::Task;
use crate::variables::Variables;
use std::alloc::Global;
use stm_check::{SharedBlock, TypeFault};
use stm_lines::arguments::number_of;
use stm_parse::{Init, ParseFault, parse_expectation};
use stm_source::Refusal;
use stm_source::block::compile_block;
use stm_source::declaring::initial;
use stm_store::{DeclareError, Table};

/// Why a line of a script isn't taken.
#[derive(Clone, Copy, Debug, PartialEq, Eq, Drop)]
pub enum LineFault {
    Faulty(Reason),
    NoMemory,
}

/// A line is faulty for this refusal.
fn faulty(refusal: Refusal) -> LineFault
    ensures { result ≡ LineFault.Faulty (Reason.Refused refusal) }
{
    LineFault::Faulty(Reason::Refused(refusal))
}

/// What a refusal is to a script: a line that would be refused is faulty.
pub fn fault_of(refusal: Refusal) -> LineFault
    ensures { IsLineFaultOf refusal result }
{
    match refusal {
        Refusal::Parsing(ParseFault::NoMemory) => LineFault::NoMemory,
        Refusal::Typing(TypeFault::NoMemory) => LineFault::NoMemory,
        Refusal::Declaring(DeclareError::NoMemory) => LineFault::NoMemory,
        _ => LineFault::Faulty(Reason::Refused(refusal)),
    }
}

/// The block of a `submit`.
pub fn submitted_block(
    alloc: Global,
    variables: &Variables,
    text: &str,
) -> Result<SharedBlock, LineFault>
    ensures { ReadsTo result (compiled_block (named_in_table variables.now) text.now) }
{
    match compile_block(alloc, variables.names(), text) {
        Ok(block) => match SharedBlock::new(alloc, block) {
            Ok(block) => Ok(block),
            Err(_) => Err(LineFault::NoMemory),
        },
        Err(refusal) => Err(fault_of(refusal)),
    }
}

/// The submission of a `finish` or a `cancel`, counted from 0. Its number in the text, counted from 1, is one of those before.
pub fn named_submission(submissions: usize, argument: &str) -> Option<usize>
    ensures { result ≡ submission_of submissions (number_argument argument.now) }
{
    match number_of(argument.as_bytes()) {
        Some(number) if number > 0 && number as usize <= submissions => Some(number as usize - 1),
        _ => None,
    }
}

/// What is expected of a declared variable: a value that it may hold.
fn expected_value(table: &Table, number: u32, init: &Init) -> Result<Task, LineFault>
    requires { number < length table.now }
    ensures { result ≡ or_refused
        (expected_at table.now number (slice_get table.now number)
        (initial_of table.now (parsed_initial init.now))) }
{
    match initial(table, init) {
        Ok(value) => {
            if table.is_of(value, table.kind(number)) {
                Ok(Task::Expect(number, value))
            } else {
                Err(faulty(Refusal::Declaring(DeclareError::TypeOfValue)))
            }
        }
        Err(refusal) => Err(faulty(refusal)),
    }
}

/// What an `expect` expects.
pub fn expectation(alloc: Global, table: &Table, text: &str) -> Result<Task, LineFault>
    ensures { ReadsTo result (expected_task table.now (parsed_expectation text.now)) }
{
    match parse_expectation(alloc, text) {
        Ok(expectation) => match table.find(expectation.name.as_str()) {
            Some(number) => expected_value(table, number, &expectation.value),
            None => Err(faulty(Refusal::Unknown(0))),
        },
        Err(ParseFault::NoMemory) => Err(LineFault::NoMemory),
        Err(fault) => Err(faulty(Refusal::Parsing(fault))),
    }
}
