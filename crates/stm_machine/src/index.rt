//! The index and the queue when a block finishes.

ghost use Rattle.std.specs.Prelude.{◌≡◌, ℕ, ◌≤◌, true, false, not, ◌&&◌, nat_eq, length, IfOk, OnOk, map, ◌++◌};
ghost use Rattle.std.specs.List.{list_any};
ghost use Rattle.stm_watch.specs.Pairs.{has_pair, is_read, watches, WithoutReads};
ghost use Rattle.stm_queue.specs.Queue.{has_ticket};
ghost use Rattle.stm_queue.specs.SortedTickets.{IsRising, delete};
ghost use Rattle.stm_events.specs.SlowDesk.{written_in, waking};
ghost use Rattle.stm_waiting.specs.Entries.{kept_at, lose};
ghost use Rattle.stm_machine.specs.Entries.{kept_reads};
ghost use Rattle.stm_machine.specs.QueueAndIndex.{with_tickets};

use std::alloc::{AllocError as NoMemory, Global};
use stm_events::staleness::StalenessRule;
use stm_queue::Pending;
use stm_store::Store;
use stm_terms::values::Value;
use stm_terms::verdicts::Verdict;
use stm_waiting::{Waiting, WaitingBlocks};
use stm_watch::Watch;

fn push_variables(variables: &mut Vec<u32>, writes: &[(u32, Value)]) -> Result<(), NoMemory>
    ensures { OnOk result (variables.new.items ≡ variables.old.items ++ map (λ w. w.0) writes.now) }
{
    for (variable, _) in writes {
        variables.push(*variable)?;
    }
    Ok(())
}

/// The variables that a verdict writes.
pub(crate) fn written_variables(alloc: Global, verdict: &Verdict) -> Result<Vec<u32>, NoMemory>
    ensures { IfOk result (λ vs. vs.items ≡ written_in verdict.now) }
{
    let mut variables = Vec::new(alloc);
    match verdict {
        Verdict::Commits { writes, .. } => {
            push_variables(&mut variables, writes.as_slice())?;
            Ok(variables)
        }
        _ => Ok(variables),
    }
}

fn drop_ticket(tickets: &mut Vec<u32>, ticket: u32)
    ensures { tickets.new.items ≡ delete ticket tickets.old.items }
{
    tickets.retain(|other| ticket != *other);
}

/// The variables by which a verdict makes their readers stale when it takes effect on the store.
fn waking_variables(
    alloc: Global,
    rule: StalenessRule,
    store: &Store,
    verdict: &Verdict,
) -> Result<Vec<u32>, NoMemory>
    ensures { IfOk result (λ vs. vs.items ≡ waking rule store.now verdict.now) }
{
    match rule {
        StalenessRule::Written => written_variables(alloc, verdict),
        StalenessRule::Changed => store.changes(verdict),
    }
}

/// The tickets, in ascending order, that watch a variable by which the verdict makes its readers stale, without the one that
/// finishes.
pub(crate) fn stale_tickets(
    alloc: Global,
    rule: StalenessRule,
    store: &Store,
    watch: &Watch,
    verdict: &Verdict,
    ticket: u32,
) -> Result<Vec<u32>, NoMemory>
    ensures rising { IfOk result (λ ts. IsRising ts.items) }
    ensures watchers { IfOk result (λ ts. (u : ℕ)
        → list_any (nat_eq u) ts.items
        ≡ (not (nat_eq u ticket) && watches watch.now (waking rule store.now verdict.now) u)) }
{
    let variables = waking_variables(alloc, rule, store, verdict)?;
    let mut tickets = watch.watchers(&variables)?;
    drop_ticket(&mut tickets, ticket);
    Ok(tickets)
}

/// These tickets watch nothing more.
pub(crate) fn unwatch_all(watch: &mut Watch, waiting: &WaitingBlocks, tickets: &[u32])
    ensures { (v u : ℕ) → has_pair watch.new v u
        ≡ (has_pair watch.old v u
        && not (list_any (nat_eq u) tickets.now
        && is_read (kept_reads (kept_at u waiting.now)) v)) }
{
    for ticket in tickets {
        unwatch(watch, waiting, *ticket);
    }
}

/// The ticket watches nothing more.
fn unwatch(watch: &mut Watch, waiting: &WaitingBlocks, ticket: u32)
    ensures of { WithoutReads watch.old ticket (kept_reads (kept_at ticket waiting.now)) watch.new }
    ensures pairs { (v u : ℕ) → has_pair watch.new v u
        ≡ (has_pair watch.old v u
        && not (nat_eq u ticket && is_read (kept_reads (kept_at u waiting.now)) v)) }
{
    match waiting.get(ticket) {
        Some(block) => watch.remove(ticket, block.reads()),
        None => {}
    }
}

/// These tickets are queued; there is room for them.
pub(crate) fn queue_all(pending: &mut Pending, tickets: &[u32])
    requires rising { IsRising tickets.now }
    requires absent { (u : ℕ) → list_any (nat_eq u) tickets.now ≡ true
        → has_ticket u pending.old.entries ≡ false }
    requires room { length tickets.now ≤ pending.old.room }
    ensures { pending.new.entries ≡ with_tickets tickets.now pending.old.entries }
{
    for ticket in tickets {
        pending.add(*ticket);
    }
}

/// The block waits no more, and watches nothing. It is handed out.
pub(crate) fn forget(waiting: &mut WaitingBlocks, watch: &mut Watch, ticket: u32) -> Option<Waiting>
    ensures was { result ≡ kept_at ticket waiting.old }
    ensures gone { waiting.new ≡ lose ticket waiting.old }
    ensures unwatched { WithoutReads watch.old ticket
        (kept_reads (kept_at ticket waiting.old)) watch.new }
{
    unwatch(watch, waiting, ticket);
    waiting.remove(ticket)
}
