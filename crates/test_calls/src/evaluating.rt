//! A block evaluated on the opening store, with both branches of an `orElse` at once.

ghost use Rattle.std.specs.Prelude.{◌≤◌};
ghost use Rattle.stm_terms.specs.Limits.{max_levels};
ghost use Rattle.stm_store.specs.Cells.{Covers};

use crate::blocks::block_of;
use crate::words::{first_word, number, say};
use std::alloc::{AllocError, Global};
use std::fmt::Write;
use std::thread::Threads;
use stm_check::SharedBlock;
use stm_eval::{Evaluated, Job, MAX_LEVELS, Reads, evaluate_forked};
use stm_store::{Frozen, Names, Store, Table};
use stm_terms::text::write_writes;
use stm_terms::{Verdict, write_verdict};

/// Prints a verdict, and what was read for it.
pub fn say_verdict(verdict: &Verdict, reads: &Reads, out: &mut String) -> Result<(), AllocError> {
    write_verdict(verdict, out)?;
    out.push_str(" reads ")?;
    write_writes(reads.as_slice(), out)?;
    say("", out)
}

/// Prints all that a message says.
fn say_message(message: &Evaluated, out: &mut String) -> Result<(), AllocError> {
    write!(
        out,
        "ticket {} {} ",
        message.ticket(),
        message.block().block().text()
    )?;
    say_verdict(message.verdict(), message.reads(), out)
}

/// Takes a message apart, and prints its parts.
fn say_parts(message: Evaluated, out: &mut String) -> Result<(), AllocError> {
    let (reads, verdict) = message.into_parts();
    say_verdict(&verdict, &reads, out)
}

/// Takes the verdict out of a message, and prints it.
fn say_taken(message: Evaluated, out: &mut String) -> Result<(), AllocError> {
    let verdict = message.into_verdict();
    write_verdict(&verdict, out)?;
    say("", out)
}

/// The message of the block under ticket 7.
fn message_of<R: Threads + Sync>(
    rt: &R,
    alloc: Global,
    frozen: &Frozen,
    block: SharedBlock,
    levels: u32,
) -> Result<Evaluated, AllocError>
    requires covers { Covers frozen.now block.uses }
    requires levels { levels ≤ max_levels }
{
    match evaluate_forked(rt, alloc, Job { ticket: 7, block }, frozen, levels) {
        Ok(message) => Ok(message),
        Err((_, refused)) => Err(refused),
    }
}

/// The opening store of the declared variables.
pub fn opening(alloc: Global, table: &Table) -> Result<Frozen, AllocError> {
    let store = Store::open(alloc, table)?;
    Ok(store.freeze()?)
}

fn answer_block<R: Threads + Sync>(
    rt: &R,
    alloc: Global,
    frozen: &Frozen,
    block: SharedBlock,
    call: &str,
    levels: u32,
    out: &mut String,
) -> Result<(), AllocError> {
    if levels > MAX_LEVELS || !frozen.covers(block.block().uses()) {
        return say("refused", out);
    }
    let message = message_of(rt, alloc, frozen, block, levels)?;
    match call {
        "parts" => say_parts(message, out),
        "verdict" => say_taken(message, out),
        _ => say_message(&message, out),
    }
}

/// Evaluates the block of a text on the opening store, and prints its message, its parts, or its verdict alone.
pub fn answer<R: Threads + Sync>(
    rt: &R,
    table: &Table,
    alloc: Global,
    text: &str,
    out: &mut String,
) -> Result<(), AllocError> {
    let (call, rest) = first_word(text);
    let (levels, text) = first_word(rest);
    let frozen = opening(alloc, table)?;
    let names = Names::of_table(alloc, table)?;
    match block_of(alloc, &names, text, out)? {
        Some(block) => answer_block(rt, alloc, &frozen, block, call, number(levels), out),
        None => Ok(()),
    }
}
