//! Events read by their drafts: an event whose text is the line is the line's.

ghost use Rattle.std.specs.Prelude.{◌≡◌, ◌<◌, List, IfOk, IfSome};
ghost use Rattle.stm_store.specs.Naming.{Named};
ghost use Rattle.stm_event_lines.specs.Fits.{FitsNames, FitsVerdict, FitsValue, FitWrites, FitNumbers, Is32Bit};
ghost use Rattle.stm_event_lines.specs.Lines.{event_line};
ghost use Rattle.stm_terms.specs.Limits.{max_clients};

use crate::draft::{Draft, DraftVerdict, draft_of};
use crate::write::is_line_of;
use std::alloc::Global;
use stm_events::event::{Event, What};
use stm_events::shared_verdict::SharedVerdict;
use stm_events::tickets::Tickets;
use stm_source::BlockCache;
use stm_store::Names;
use stm_terms::NoMemory;
use stm_terms::lists::{News, Writes};
use stm_terms::values::Value;
use stm_terms::verdicts::Verdict;

/// Any value is in range, by its type.
pub fn value_in_range(value: Value)
    ensures { FitsValue value }
{
    match value {
        Value::Int(_) => {}
        Value::Bool(_) => {}
        Value::Unit => {}
        Value::Var(_) => {}
    }
}

/// Any number is in range, by its type.
pub fn number_in_range(number: u32)
    ensures { Is32Bit number }
{}

/// Each variable and each value of a list of writes is in range.
pub fn writes_in_range(writes: &[(u32, Value)])
    ensures { FitWrites writes.now }
{
    if let Some((first, rest)) = writes.split_first() {
        number_in_range(first.0);
        value_in_range(first.1);
        writes_in_range(rest);
    }
}

/// Each number of a list is in range.
pub fn numbers_in_range(numbers: &[u32])
    ensures { FitNumbers numbers.now }
{
    if let Some((first, rest)) = numbers.split_first() {
        number_in_range(*first);
        numbers_in_range(rest);
    }
}

fn verdict_of(alloc: Global, draft: DraftVerdict) -> Result<SharedVerdict, NoMemory>
    ensures { IfOk result (λ v. FitsVerdict v) }
{
    match draft {
        DraftVerdict::Blocks => SharedVerdict::new(alloc, Verdict::Blocks),
        DraftVerdict::Commits { writes, result } => {
            writes_in_range(&writes);
            value_in_range(result);
            let verdict = Verdict::Commits {
                writes: Writes::from_vec(writes),
                news: News::from_vec(Vec::new(alloc)),
                result,
            };
            SharedVerdict::new(alloc, verdict)
        }
    }
}

/// The event of a client, if there may be such a client.
fn event_by(client: u32, what: What) -> Option<Event>
    ensures { IfSome result (λ e. (e.client < max_clients) × (e.what ≡ what)) }
{
    if client < Event::MAX_CLIENTS {
        Some(Event { client, what })
    } else {
        None
    }
}

fn submitted(
    alloc: Global,
    known: &Names,
    client: u32,
    ticket: u32,
    text: &str,
    blocks: &mut BlockCache,
) -> Result<Option<Event>, NoMemory>
    requires { blocks.old ≡ known.now }
    ensures known { blocks.new ≡ known.now }
    ensures fits { IfOk result (λ o. IfSome o (λ e. FitsNames known.now e)) }
{
    match blocks.block_of(alloc, known, text)? {
        Some(block) => Ok(event_by(client, What::Submitted { ticket, block })),
        None => Ok(None),
    }
}

fn installed(
    alloc: Global,
    client: u32,
    ticket: u32,
    draft: DraftVerdict,
) -> Result<Option<Event>, NoMemory>
    ensures { IfOk result (λ o. IfSome o (λ e. (t : List Named) → FitsNames t e)) }
{
    let verdict = verdict_of(alloc, draft)?;
    Ok(event_by(client, What::Installed { ticket, verdict }))
}

fn finished(
    alloc: Global,
    client: u32,
    ticket: u32,
    draft: DraftVerdict,
    first_new: u32,
    stale: Tickets,
) -> Result<Option<Event>, NoMemory>
    requires { FitNumbers stale }
    ensures { IfOk result (λ o. IfSome o (λ e. (t : List Named) → FitsNames t e)) }
{
    let verdict = verdict_of(alloc, draft)?;
    let what = What::Finished {
        ticket,
        verdict,
        first_new,
        stale,
    };
    Ok(event_by(client, what))
}

fn tickets_of(alloc: Global, numbers: Vec<u32>) -> Result<Tickets, NoMemory>
    ensures { IfOk result (λ t. FitNumbers t) }
{
    numbers_in_range(&numbers);
    Tickets::new(alloc, numbers)
}

/// The event that a draft is of, if there may be one.
fn event_of(
    alloc: Global,
    known: &Names,
    draft: Draft<'_>,
    blocks: &mut BlockCache,
) -> Result<Option<Event>, NoMemory>
    requires { blocks.old ≡ known.now }
    ensures known { blocks.new ≡ known.now }
    ensures fits { IfOk result (λ o. IfSome o (λ e. FitsNames known.now e)) }
{
    match draft {
        Draft::Submitted {
            block,
            client,
            ticket,
        } => submitted(alloc, known, client, ticket, block, blocks),
        Draft::Installed {
            client,
            ticket,
            verdict,
        } => installed(alloc, client, ticket, verdict),
        Draft::Finished {
            client,
            first_new,
            stale,
            ticket,
            verdict,
        } => {
            let stale = tickets_of(alloc, stale)?;
            finished(alloc, client, ticket, verdict, first_new, stale)
        }
        Draft::Cancelled { client, ticket } => Ok(event_by(client, What::Cancelled { ticket })),
    }
}

/// The event of which the line is the text, if a draft of it can be read. None says nothing of the line.
pub(crate) fn drafted_event(
    alloc: Global,
    known: &Names,
    line: &[u8],
    blocks: &mut BlockCache,
) -> Result<Option<Event>, NoMemory>
    requires { blocks.old ≡ known.now }
    ensures known { blocks.new ≡ known.now }
    ensures line { IfOk result (λ o. IfSome o (λ e. event_line e ≡ line.now)) }
    ensures fits { IfOk result (λ o. IfSome o (λ e. FitsNames known.now e)) }
{
    let Some(draft) = draft_of(alloc, line) else {
        return Ok(None);
    };
    let Some(event) = event_of(alloc, known, draft, blocks)? else {
        return Ok(None);
    };
    if is_line_of(alloc, &event, line)? {
        Ok(Some(event))
    } else {
        Ok(None)
    }
}
