//! Why a block waits.

ghost use Rattle.std.specs.Prelude.{◌≡◌, ◌++◌, Some, nat_eq, IfOk, OnOk, if◌then◌else◌, is_some, option_map, option_to_list};
ghost use Rattle.std.specs.List.{list_any};
ghost use Rattle.std.specs.Option.{option_copied};
ghost use Rattle.stm_terms.specs.Changes.{find as value_in};
ghost use Rattle.stm_terms.specs.Typing.{Rising};
ghost use Rattle.stm_terms.specs.Value.{same_value};
ghost use Rattle.stm_store.specs.Cells.{renumbered};
ghost use Rattle.stm_store.specs.FreshReferences.{HasNumber, AreWritable};
ghost use Rattle.stm_events.specs.SlowDesk.{find_waiter, is_blocks};
ghost use Rattle.stm_desk.specs.DeskView.{state_of};
ghost use Rattle.stm_desk.specs.Causes.{has_in_list, last_with};
ghost use Rattle.stm_desk.specs.Reasons.{change_to, changes_from, kept_cause_in, kept_cause_at, ticket_of as ticket_in, IsStale, Waits as WaitsFor, CanFinish, reason_kept, reason_of};
ghost use Rattle.stm_desk.specs.ReasonsByEvents.{left_by_writes, left_by_verdict, HasWritable, IsWritable, EachIsWritable, changes_told as changes_of, reason_listed, shown_reason};

use crate::desk::Desk;
use crate::reason::{Change, Reason};
use std::alloc::Global;
use stm_events::shared_verdict::blocks;
use stm_events::{Event, KeptCause, SharedVerdict, Status, What};
use stm_machine::{Checkpoint, CheckpointBlock};
use stm_terms::NoMemory;
use stm_terms::values::{Ref, Value};
use stm_terms::verdicts::Verdict;

impl Desk {
    /// What the block under a ticket waits for; none if no block waits there, and only then. If the block is stale, it goes through the
    /// events since the block became stale, and through the blocks of the checkpoint if that was before it.
    pub fn why(&self, alloc: Global, ticket: u32) -> Result<Option<Reason<'_>>, NoMemory>
        ensures reason { IfOk result (λ r. option_map shown_reason r ≡ reason_of self.now ticket) }
        // A block that waits has a reason; so a stale one has a cause.
        ensures waits { is_some (reason_of self.now ticket)
            ≡ is_some (find_waiter ticket (state_of self.now).waiters) }
    {
        // The store is known to be well typed by this.
        let _variables = self.table.len();
        let Some(status) = self.machine.status(ticket) else {
            return Ok(None);
        };
        let Some(reads) = self.machine.reads(ticket) else {
            return Ok(Some(Reason::New));
        };
        match status {
            Status::New => Ok(Some(Reason::New)),
            Status::Stale(_) => stale_reason(
                alloc,
                ticket,
                reads,
                self.checkpoint.as_ref(),
                &self.history,
            ),
            Status::Current(verdict) => Ok(Some(current_reason(verdict, reads))),
        }
    }
}

/// What a current block waits for.
fn current_reason<'a>(verdict: &Verdict, reads: &'a [(u32, Value)]) -> Reason<'a>
    ensures { shown_reason result ≡ if is_blocks verdict.now then WaitsFor reads.now else CanFinish }
{
    if blocks(verdict) {
        Reason::Waits(reads)
    } else {
        Reason::Ready
    }
}

/// What a stale block waits for, in a history that begins from the checkpoint if there is one: the last finish whose list has the
/// block's ticket made it stale.
fn stale_reason<'a>(
    alloc: Global,
    ticket: u32,
    reads: &[(u32, Value)],
    checkpoint: Option<&Checkpoint>,
    history: &[Event],
) -> Result<Option<Reason<'a>>, NoMemory>
    requires { EachIsWritable history.now }
    ensures { IfOk result (λ r. option_map shown_reason r
        ≡ Some (reason_listed reads.now (kept_cause_at ticket (option_map (λ c. c.now) checkpoint.entry)) (last_with ticket history.now))) }
{
    match find_cause(history, ticket) {
        Some(what) => stale_by(alloc, reads, what),
        None => stale_before(alloc, reads, cause_kept_at(checkpoint, ticket)),
    }
}

/// A block that was stale at the checkpoint, by the cause that the checkpoint keeps of it.
fn stale_before<'a>(
    alloc: Global,
    reads: &[(u32, Value)],
    kept: Option<&KeptCause>,
) -> Result<Option<Reason<'a>>, NoMemory>
    ensures { IfOk result (λ r. option_map shown_reason r
        ≡ Some (reason_kept reads.now (option_map (λ k. k.now) kept.entry))) }
{
    match kept {
        None => Ok(Some(Reason::WasStale)),
        Some(cause) => Ok(Some(Reason::Stale {
            finish: cause.finish,
            changes: changes_again(alloc, reads, cause.left.as_slice())?,
        })),
    }
}

/// The cause that the checkpoint keeps of the block under a ticket, if there is one.
fn cause_kept_at(checkpoint: Option<&Checkpoint>, ticket: u32) -> Option<&KeptCause>
    ensures { option_copied result ≡ kept_cause_at ticket (option_map (λ c. c.now) checkpoint.entry) }
{
    match checkpoint {
        Some(checkpoint) => cause_kept_in(checkpoint.blocks(), ticket),
        None => None,
    }
}

/// The cause that these blocks of a checkpoint keep of a ticket, if they keep one.
fn cause_kept_in(blocks: &[CheckpointBlock], ticket: u32) -> Option<&KeptCause>
    ensures { option_copied result ≡ kept_cause_in ticket blocks.now }
{
    for block in blocks {
        if ticket == block.ticket {
            return block.cause.as_ref();
        }
    }
    None
}

/// A block that this event made stale.
fn stale_by<'a>(
    alloc: Global,
    reads: &[(u32, Value)],
    what: &What,
) -> Result<Option<Reason<'a>>, NoMemory>
    requires { IsWritable what.now }
    ensures { IfOk result (λ r. option_map shown_reason r
        ≡ Some (IsStale (record { finish = ticket_in what.now; changes = changes_of reads.now what.now }))) }
{
    let changes = changes_told(alloc, reads, what)?;
    Ok(Some(Reason::Stale {
        finish: ticket_of(what),
        changes,
    }))
}

/// The last event whose list has the ticket, found from the end.
fn find_cause(history: &[Event], ticket: u32) -> Option<&What>
    ensures { option_copied result ≡ last_with ticket history.now }
{
    let mut i = history.len();
    while i > 0 {
        let what = &history[i - 1].what;
        if lists(what, ticket) {
            return Some(what);
        }
        i -= 1;
    }
    None
}

/// Whether it is a finish whose list has the ticket.
fn lists(what: &What, ticket: u32) -> bool
    ensures { result ≡ has_in_list ticket what.now }
{
    match what {
        What::Finished { stale, .. } => is_among(stale.as_slice(), ticket),
        _ => false,
    }
}

/// Whether the ticket is one of these.
fn is_among(tickets: &[u32], ticket: u32) -> bool
    ensures { result ≡ list_any (nat_eq ticket) tickets.now }
{
    for one in tickets {
        if ticket == *one {
            return true;
        }
    }
    false
}

/// The ticket of an event.
fn ticket_of(what: &What) -> u32
    ensures { result ≡ ticket_in what.now }
{
    match what {
        What::Submitted { ticket, .. } => *ticket,
        What::Installed { ticket, .. } => *ticket,
        What::Finished { ticket, .. } => *ticket,
        What::Cancelled { ticket } => *ticket,
        What::Declared { .. } => 0,
        What::Labelled { ticket, .. } => *ticket,
    }
}

/// The variables of the reads that an event leaves with another value.
fn changes_told(alloc: Global, reads: &[(u32, Value)], what: &What) -> Result<Vec<Change>, NoMemory>
    requires { IsWritable what.now }
    ensures { IfOk result (λ cs. cs.items ≡ changes_of reads.now what.now) }
{
    match what {
        What::Finished {
            verdict,
            first_new,
            ..
        } => changes_by(alloc, reads, verdict, *first_new),
        _ => Ok(Vec::new(alloc)),
    }
}

/// The variables of the reads that a verdict leaves with another value, in a store that had this many cells.
pub(crate) fn changes_by(
    alloc: Global,
    reads: &[(u32, Value)],
    verdict: &SharedVerdict,
    first_new: u32,
) -> Result<Vec<Change>, NoMemory>
    requires { HasWritable first_new verdict.now }
    ensures { IfOk result (λ cs. cs.items ≡ changes_from reads.now (left_by_verdict first_new verdict.now)) }
{
    let blocks = Verdict::Blocks;
    match verdict.get(&blocks) {
        Verdict::Commits { writes, .. } => changes_in(alloc, reads, writes.as_slice(), first_new),
        _ => Ok(Vec::new(alloc)),
    }
}

/// The changes by the writes of a commit.
fn changes_in(
    alloc: Global,
    reads: &[(u32, Value)],
    writes: &[(u32, Value)],
    first_new: u32,
) -> Result<Vec<Change>, NoMemory>
    requires rising { Rising writes.now }
    requires writable { AreWritable first_new writes.now }
    ensures { IfOk result (λ cs. cs.items
        ≡ changes_from reads.now (left_by_writes first_new writes.now)) }
{
    let mut changes = Vec::new(alloc);
    for (variable, read) in reads {
        push_if_some(&mut changes, change_of(*variable, *read, writes, first_new))?;
    }
    Ok(changes)
}

/// One change more, if there is one.
fn push_if_some(changes: &mut Vec<Change>, change: Option<Change>) -> Result<(), NoMemory>
    ensures { OnOk result (changes.new.items ≡ changes.old.items ++ option_to_list change) }
{
    match change {
        None => Ok(()),
        Some(change) => Ok(changes.push(change)?),
    }
}

/// The change of one variable, if there is one.
fn change_of(variable: u32, read: Value, writes: &[(u32, Value)], first_new: u32) -> Option<Change>
    requires rising { Rising writes.now }
    requires writable { AreWritable first_new writes.now }
    ensures { option_to_list result ≡ change_to variable read (left_by_writes first_new writes.now variable) }
{
    match find(writes, variable) {
        None => None,
        Some(written) => change_to(variable, read, renumber(first_new, written)),
    }
}

/// The change of a variable to this value, unless it is the one that was read.
fn change_to(variable: u32, read: Value, left: Value) -> Option<Change>
    ensures { option_to_list result ≡ change_to variable read (Some left) }
{
    if is_same(read, left) {
        None
    } else {
        Some(Change {
            variable,
            read,
            left,
        })
    }
}

/// The changes of these reads to the values that were left.
fn changes_again(
    alloc: Global,
    reads: &[(u32, Value)],
    left: &[(u32, Value)],
) -> Result<Vec<Change>, NoMemory>
    ensures { IfOk result (λ cs. cs.items ≡ changes_from reads.now (λ i. value_in i left.now)) }
{
    let mut changes = Vec::new(alloc);
    for (variable, read) in reads {
        push_if_some(&mut changes, change_again(*variable, *read, left))?;
    }
    Ok(changes)
}

/// The change of one variable to the value that was left, if there is one.
fn change_again(variable: u32, read: Value, left: &[(u32, Value)]) -> Option<Change>
    ensures { option_to_list result ≡ change_to variable read (value_in variable left.now) }
{
    match value_left(left, variable) {
        None => None,
        Some(left) => change_to(variable, read, left),
    }
}

/// The value that a variable was left with, if it is one of these.
fn value_left(left: &[(u32, Value)], variable: u32) -> Option<Value>
    ensures { result ≡ value_in variable left.now }
{
    for one in left {
        if one.0 == variable {
            return Some(one.1);
        }
    }
    None
}

fn is_same(one: Value, other: Value) -> bool
    ensures { result ≡ same_value one other }
{
    one == other
}

/// A value with its new reference as a variable of a store that had this many cells.
fn renumber(len: u32, value: Value) -> Value
    requires { HasNumber len value }
    ensures { result ≡ renumbered len value }
{
    match value {
        Value::Var(Ref::New(k)) => Value::Var(Ref::Old(len + k)),
        value => value,
    }
}

/// The value that these writes give a variable.
fn find(writes: &[(u32, Value)], variable: u32) -> Option<Value>
    requires { Rising writes.now }
    ensures { result ≡ value_in variable writes.now }
{
    match writes.binary_search_by_key(&variable, |write| write.0) {
        Ok(at) => Some(writes[at].1),
        Err(_) => None,
    }
}
