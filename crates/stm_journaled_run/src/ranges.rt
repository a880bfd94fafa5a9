//! The numbers and values of verdicts and of checkpoints are in the range of their types, as soon as they are read. No function here does
//! anything.

ghost use Rattle.std.specs.Prelude.{◌<◌, IfSome, length, slice_get};
ghost use Rattle.stm_event_lines.specs.CheckpointLines.{FitsCause};
ghost use Rattle.stm_journaled_run.specs.Ranges.{AreBlocksInRange, AreCellsInRange, AreEventsInRange, AreValuesInRange, IsBlockInRange, IsCellInRange, IsEventInRange, IsHeldInRange, IsInRange};

use stm_event_lines::drafted::{number_in_range, value_in_range, writes_in_range};
use stm_events::kept_cause::KeptCause;
use stm_events::{Event, SharedVerdict, What};
use stm_machine::CheckpointBlock;
use stm_store::Store;
use stm_terms::kinds::Ty;
use stm_terms::values::{Fault, Value};
use stm_terms::verdicts::Verdict;
use stm_waiting::Held;

/// The values of new variables are in range.
fn news_in_range(news: &[(Ty, Value)])
    ensures { AreValuesInRange news.now }
{
    if let Some((first, rest)) = news.split_first() {
        value_in_range(first.1);
        news_in_range(rest);
    }
}

/// What a verdict has is in range.
fn verdict_in_range(verdict: &SharedVerdict)
    ensures { IsInRange verdict.now }
{
    let blocks = Verdict::Blocks;
    match verdict.get(&blocks) {
        Verdict::Commits {
            writes,
            news,
            result,
        } => {
            writes_in_range(writes.as_slice());
            news_in_range(news.as_slice());
            value_in_range(*result);
        }
        Verdict::Throws(Fault::Thrown(number)) => value_in_range(Value::Int(*number)),
        Verdict::Throws(Fault::Overflow) => {}
        Verdict::Blocks => {}
    }
}

/// The verdict of an event is in range, if it has one, and so is the first value of a variable.
fn event_in_range(event: &Event)
    ensures { IsEventInRange event.now.what }
{
    match &event.what {
        What::Submitted { .. } => {}
        What::Installed { verdict, .. } => verdict_in_range(verdict),
        What::Finished { verdict, .. } => verdict_in_range(verdict),
        What::Cancelled { .. } => {}
        What::Declared { value, .. } => value_in_range(*value),
        What::Labelled { .. } => {}
    }
}

/// The verdicts of events are in range.
pub(crate) fn are_in_range(events: &[Event])
    ensures { AreEventsInRange events.now }
{
    for event in events {
        event_in_range(event);
    }
}

/// The value of a variable and its count are in range.
fn cell_in_range(store: &Store, id: u32)
    requires { id < length store.now }
    ensures { IfSome (slice_get store.now id) IsCellInRange }
{
    value_in_range(store.value(id));
    let _count = store.count(id);
}

/// The variables of a store are in range.
pub(crate) fn cells_in_range(store: &Store)
    ensures { AreCellsInRange store.now }
{
    let count = store.len() as u32;
    for id in 0..count {
        cell_in_range(store, id);
    }
}

/// What was delivered to a waiting block is in range, if something was.
fn held_in_range(held: &Option<Held>)
    ensures { IsHeldInRange held.now }
{
    match held {
        None => {}
        Some(held) => {
            writes_in_range(held.reads.as_slice());
            verdict_in_range(&held.verdict);
        }
    }
}

/// Why a block is stale is in range, if that is known.
fn cause_in_range(cause: &Option<KeptCause>)
    ensures { FitsCause cause.now }
{
    match cause {
        None => {}
        Some(cause) => {
            number_in_range(cause.finish);
            writes_in_range(cause.left.as_slice());
        }
    }
}

/// A waiting block of a checkpoint is in range.
fn block_in_range(block: &CheckpointBlock)
    ensures { IsBlockInRange block.now }
{
    number_in_range(block.ticket);
    held_in_range(&block.waiting.held);
    cause_in_range(&block.cause);
}

/// The waiting blocks of a checkpoint are in range.
pub(crate) fn blocks_in_range(blocks: &[CheckpointBlock])
    ensures { AreBlocksInRange blocks.now }
{
    for block in blocks {
        block_in_range(block);
    }
}
