//! Checkpoints of the store, and machines from them.

ghost use Rattle.std.specs.Prelude.{◌≡◌, IfOk, IfSome};
ghost use Rattle.stm_events.specs.SlowDesk.{Slow};
ghost use Rattle.stm_events.specs.States.{IsTypedState};
ghost use Rattle.stm_events.specs.declared.staleness.StalenessRule.{StalenessRule};
ghost use Rattle.stm_machine.specs.Machine.{IsAt};
ghost use Rattle.stm_store.specs.Cells.{plains, Covers};
ghost use Rattle.stm_store.specs.Naming.{named_in_table, named_uses};

use crate::blocks::block_of;
use crate::desk_show::say_names;
use crate::store::Held;
use crate::words::{first_word, int, number, say};
use std::alloc::{AllocError, Global};
use std::fmt::Write;
use stm_check::SharedBlock;
use stm_events::status::Status;
use stm_events::{Delivery, LabelTable, SharedName, SharedVerdict};
use stm_machine::{AddError, Checkpoint, CheckpointBlock, CheckpointError, Machine};
use stm_store::{Names, Store, Table};
use stm_terms::text::write_writes;
use stm_terms::{Fault, News, Ty, Value, Verdict, Writes, write_verdict};

/// The reads that a word lists, as `0=5,1=7`; `-` lists none.
fn reads_in(alloc: Global, word: &str) -> Result<Vec<(u32, Value)>, AllocError> {
    let mut reads = Vec::new(alloc);
    for part in word.split(',') {
        match part.split_once('=') {
            Some((variable, value)) => reads.push((number(variable), int(value)))?,
            None => {}
        }
    }
    Ok(reads)
}

/// The verdict of a word: `blocks`, `throws=N`, or `returns=N` for a commit of nothing.
fn verdict_in(alloc: Global, word: &str) -> Verdict {
    match word.split_once('=') {
        Some(("throws", value)) => {
            Verdict::Throws(Fault::Thrown(value.parse::<i64>().unwrap_or(0)))
        }
        Some((_, value)) => Verdict::Commits {
            writes: Writes::from_vec(Vec::new(alloc)),
            news: News::from_vec(Vec::new(alloc)),
            result: int(value),
        },
        None => Verdict::Blocks,
    }
}

/// Adds a block, or prints why it isn't added.
fn add(
    checkpoint: &mut Checkpoint,
    alloc: Global,
    ticket: u32,
    block: SharedBlock,
    delivery: Option<Delivery>,
    out: &mut String,
) -> Result<(), AllocError> {
    match checkpoint.add(alloc, ticket, block, delivery, None, SharedName::none()) {
        Ok(()) => say("done", out),
        Err(AddError::NoMemory) => Err(AllocError),
        Err(refusal) => writeln!(out, "refused {refusal:?}"),
    }
}

/// The last delivery that the words list, and the words that follow: none after `new`; else the reads and the verdict.
fn delivery_in<'a>(
    alloc: Global,
    state: &str,
    words: &'a str,
) -> Result<(Option<Delivery>, &'a str), AllocError> {
    if state == "new" {
        return Ok((None, words));
    }
    let (reads, rest) = first_word(words);
    let (verdict, text) = first_word(rest);
    let reads = reads_in(alloc, reads)?;
    let verdict = SharedVerdict::new(alloc, verdict_in(alloc, verdict))?;
    Ok((Some(Delivery::new(reads, verdict, state == "stale")), text))
}

/// Adds the block of the words `TICKET STATE READS VERDICT TEXT`.
fn answer_add(
    checkpoint: &mut Checkpoint,
    alloc: Global,
    words: &str,
    out: &mut String,
) -> Result<(), AllocError> {
    let (ticket, rest) = first_word(words);
    let (state, rest) = first_word(rest);
    let (delivery, text) = delivery_in(alloc, state, rest)?;
    match block_of(alloc, checkpoint.names(), text, out)? {
        Some(block) => add(checkpoint, alloc, number(ticket), block, delivery, out),
        None => Ok(()),
    }
}

/// Prints a block: its ticket, its state with the last delivery, and its text.
fn say_block(block: &CheckpointBlock, out: &mut String) -> Result<(), AllocError> {
    write!(out, "{}", block.ticket)?;
    match &block.waiting.held {
        None => out.push_str(" new ")?,
        Some(held) => {
            out.push_str(if block.stale { " stale " } else { " current " })?;
            write_writes(held.reads.as_slice(), out)?;
            out.push_str(" ")?;
            write_verdict(held.verdict.get(&Verdict::Blocks), out)?;
            out.push_str(" ")?;
        }
    }
    say(block.waiting.block.block().text(), out)
}

/// Prints the next ticket, and each block.
fn say_checkpoint(checkpoint: &Checkpoint, out: &mut String) -> Result<(), AllocError> {
    writeln!(
        out,
        "next {} variables {}",
        checkpoint.next(),
        checkpoint.store().len()
    )?;
    for block in checkpoint.blocks() {
        say_block(block, out)?;
    }
    Ok(())
}

/// Prints how the block under a ticket stands.
fn say_status(machine: &Machine, ticket: u32, out: &mut String) -> Result<(), AllocError> {
    write!(out, "{ticket} ")?;
    match machine.status(ticket) {
        None => say("none", out),
        Some(Status::New) => say("new", out),
        Some(Status::Stale(_)) => say("stale", out),
        Some(Status::Current(_)) => say("current", out),
    }
}

/// Prints the queued tickets, up to a number of them.
fn say_queued(machine: &Machine, most: usize, out: &mut String) -> Result<(), AllocError> {
    out.push_str("queued")?;
    for i in 0..most {
        match machine.queued_at(i) {
            Some(ticket) => write!(out, " {ticket}")?,
            None => {}
        }
    }
    say("", out)
}

/// Prints the tickets of the blocks that could finish, up to a number of them.
fn say_ready(machine: &Machine, most: usize, out: &mut String) -> Result<(), AllocError> {
    out.push_str("ready")?;
    let mut after = 0;
    for _ in 0..most {
        match machine.next_ready(after) {
            Some(ticket) => {
                write!(out, " {ticket}")?;
                after = ticket;
            }
            None => {}
        }
    }
    say("", out)
}

/// Prints the checkpoint of a machine.
fn say_taken(machine: &Machine, alloc: Global, out: &mut String) -> Result<(), AllocError>
    requires { (s : Slow) × IsAt machine.now s × IsTypedState s
        × (s.rule ≡ StalenessRule.Changed) }
{
    match machine.checkpoint(alloc, &LabelTable::empty(alloc)) {
        Ok(taken) => say_checkpoint(&taken, out),
        Err(CheckpointError::NoMemory) => Err(AllocError),
        Err(refusal) => writeln!(out, "refused {refusal:?}"),
    }
}

/// Prints how the blocks stand on a machine from the checkpoint, and the checkpoint of that machine.
fn answer_machine(
    checkpoint: &Checkpoint,
    alloc: Global,
    out: &mut String,
) -> Result<(), AllocError> {
    // The checkpoint is known to be one by this.
    let _next = checkpoint.next();
    let machine = Machine::from_checkpoint(alloc, checkpoint)?;
    let blocks = checkpoint.blocks();
    for block in blocks {
        say_status(&machine, block.ticket, out)?;
    }
    say_queued(&machine, blocks.len(), out)?;
    say_ready(&machine, blocks.len(), out)?;
    say_taken(&machine, alloc, out)
}

/// The variables of a table, with their types.
fn uses_of(alloc: Global, table: &Table) -> Result<Vec<(u32, Ty)>, AllocError>
    ensures { IfOk result (λ uses. uses.items ≡ named_uses (named_in_table table.now)) }
{
    let mut uses = Vec::new(alloc);
    for id in 0..table.len() {
        uses.push((id as u32, table.kind(id as u32)))?;
    }
    Ok(uses)
}

/// The names of a table, if the store has their variables.
#[tactic(auto, using(crate::proofs::TableUses::covered_names))]
fn names_on(alloc: Global, store: &Store, table: &Table) -> Result<Option<Names>, AllocError>
    ensures { IfOk result (λ o. IfSome o (λ names.
        Covers (plains store.now) (named_uses names))) }
{
    let uses = uses_of(alloc, table)?;
    if !store.covers(uses.as_slice()) {
        return Ok(None);
    }
    let names = Names::of_table(alloc, table)?;
    Ok(Some(names))
}

/// A checkpoint of the store, in which the variables of the table have their names, with a next ticket.
fn open(
    checkpoint: &mut Option<Checkpoint>,
    held: &Held,
    table: &Table,
    alloc: Global,
    next: u32,
    out: &mut String,
) -> Result<(), AllocError> {
    if next == 0 || next > Checkpoint::MAX_NEXT {
        return say("refused no next ticket", out);
    }
    let store = held.store();
    let Some(names) = names_on(alloc, store, table)? else {
        return say("refused no variable of a name", out);
    };
    *checkpoint = Some(Checkpoint::new(alloc, store.share()?, names, next));
    say("done", out)
}

/// Makes a call on a checkpoint.
pub fn answer(
    checkpoint: &mut Option<Checkpoint>,
    held: Option<&Held>,
    table: &Table,
    alloc: Global,
    text: &str,
    out: &mut String,
) -> Result<(), AllocError> {
    let (call, rest) = first_word(text);
    match (call, held, checkpoint.as_mut()) {
        ("open", Some(held), _) => open(checkpoint, held, table, alloc, number(rest), out),
        ("add", _, Some(checkpoint)) => answer_add(checkpoint, alloc, rest, out),
        ("show", _, Some(checkpoint)) => say_checkpoint(checkpoint, out),
        ("names", _, Some(checkpoint)) => say_names(checkpoint.names(), checkpoint.store(), out),
        ("machine", _, Some(checkpoint)) => answer_machine(checkpoint, alloc, out),
        _ => say("refused no store or no checkpoint", out),
    }
}
