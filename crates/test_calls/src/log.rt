//! Calls of the log of a block over the opening store.

ghost use Rattle.std.specs.Prelude.{◌≡◌, []};

use crate::evaluating::{opening, say_verdict};
use crate::words::{first_word, int, number, say};
use std::alloc::{AllocError, Global};
use stm_log::{Ends, Log};
use stm_store::{Frozen, Table};
use stm_terms::{Base, Ref, Ty, Value, Verdict, write_value};

/// A log, and the store that it reads.
pub struct Logging {
    frozen: Frozen,
    log: Log,
}

// Written out, and not derived, so that the proof of each owner calls it once.
impl Drop for Logging {
    fn drop(self) {
        let Logging { frozen: _, log: _ } = self;
    }
}

fn start(
    logging: &mut Option<Logging>,
    table: &Table,
    alloc: Global,
    out: &mut String,
) -> Result<(), AllocError> {
    let frozen = opening(alloc, table)?;
    let log = Log::start(alloc);
    *logging = Some(Logging { frozen, log });
    say("done", out)
}

/// Prints the value of a variable in the view of the log.
fn read(logging: &mut Logging, variable: u32, out: &mut String) -> Result<(), AllocError> {
    if variable as usize >= logging.frozen.len() {
        return say("refused no variable", out);
    }
    let value = logging.log.read(&logging.frozen, Ref::Old(variable))?;
    write_value(value, out)?;
    say("", out)
}

/// Makes a cell, and prints its reference.
fn make(log: &mut Log, value: Value, out: &mut String) -> Result<(), AllocError> {
    if log.made() >= Table::LIMIT {
        return say("refused too many", out);
    }
    let int = Ty {
        base: Base::Int,
        refs: 0,
    };
    write_value(Value::Var(log.make(int, value)?), out)?;
    say("", out)
}

/// Adds the reads of a copy of the log.
fn join(log: &mut Log) -> Result<(), AllocError> {
    let copy = log.copy()?;
    log.join_reads(&copy)
}

/// Ends a log without open frames, and prints what is left.
fn finish(log: Log, out: &mut String) -> Result<(), AllocError>
    requires { log.below ≡ [] }
{
    let Ends {
        writes,
        news,
        reads,
    } = log.finish()?;
    let result = Value::Unit;
    say_verdict(
        &Verdict::Commits {
            writes,
            news,
            result,
        },
        &reads,
        out,
    )
}

/// Ends a copy of the log.
fn finish_copy(log: &Log, out: &mut String) -> Result<(), AllocError> {
    let copy = log.copy()?;
    if copy.depth() == 0 {
        return finish(copy, out);
    }
    say("refused a frame is open", out)
}

/// Makes a call that prints more than that it was made.
fn answer_shown(
    logging: &mut Logging,
    call: &str,
    word: &str,
    out: &mut String,
) -> Result<(), AllocError> {
    match call {
        "read" => read(logging, number(word), out),
        "make" => make(&mut logging.log, int(word), out),
        "finish" => finish_copy(&logging.log, out),
        _ => say("no such call", out),
    }
}

/// Makes a call on a log that was started.
fn answer_on(
    logging: &mut Logging,
    call: &str,
    rest: &str,
    out: &mut String,
) -> Result<(), AllocError> {
    let (word, written) = first_word(rest);
    let log = &mut logging.log;
    match call {
        "enter" => log.enter()?,
        "write" => log.write(Ref::Old(number(word)), int(written))?,
        "join" => join(log)?,
        "keep" | "discard" if log.depth() == 0 => return say("refused no frame", out),
        "keep" => log.keep()?,
        "discard" => log.discard(),
        _ => return answer_shown(logging, call, word, out),
    }
    say("done", out)
}

/// Makes a call on the log.
pub fn answer(
    logging: &mut Option<Logging>,
    table: &Table,
    alloc: Global,
    text: &str,
    out: &mut String,
) -> Result<(), AllocError> {
    let (call, rest) = first_word(text);
    if call == "start" {
        return start(logging, table, alloc, out);
    }
    match logging {
        Some(logging) => answer_on(logging, call, rest, out),
        None => say("refused no log", out),
    }
}
