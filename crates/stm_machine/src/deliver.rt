//! A message of an evaluator.

ghost use Rattle.std.specs.Prelude.{◌≡◌, ◌<◌, false, IfOk, OnOk, IfErr, OnErr, IsTrue, ◌↔◌};
ghost use Rattle.stm_terms.specs.Value.{same_value};
ghost use Rattle.stm_watch.specs.Pairs.{WithReads};
ghost use Rattle.stm_queue.specs.Queue.{without_ticket};
ghost use Rattle.stm_eval.specs.EvaluatedFields.{message_ticket, message_block, message_reads, message_verdict};
ghost use Rattle.stm_events.specs.SlowDesk.{Slow, under};
ghost use Rattle.stm_events.specs.Refusals.{differing, has_value};
ghost use Rattle.stm_machine.specs.Machine.{IsAt, IsOfWaiter, MayDeliver, RefusesMessage, MovesOrStays, installation_of};

use crate::machine::Machine;
use std::alloc::Global;
use stm_eval::Evaluated;
use stm_events::errors::DeliverError;
use stm_events::shared_verdict::SharedVerdict;
use stm_store::Store;
use stm_terms::NoMemory;
use stm_terms::values::Value;
use stm_waiting::{Held, TicketSet, Waiting};
use stm_watch::Watch;

/// Whether the message is of the block that waits.
fn is_of(waiting: &Waiting, message: &Evaluated) -> bool
    ensures { IsTrue result ↔ (waiting.now.block.tree ≡ (message_block message.now).tree) }
{
    waiting.block.block().same_tree(message.block().block())
}

/// The first of the variables read whose value differs now, or that isn't there.
fn first_read_differing(store: &Store, message: &Evaluated) -> Option<u32>
    ensures { result ≡ differing (under store.now) (message_reads message.now) }
{
    first_differing(store, message.reads().as_slice())
}

fn is_same(left: Value, right: Value) -> bool
    ensures { result ≡ same_value left right }
{
    left == right
}

/// Whether the variable is there and has the value.
fn holds_value(store: &Store, id: u32, value: Value) -> bool
    ensures { result ≡ has_value (under store.now id) value }
{
    (id as usize) < store.len() && is_same(store.value(id), value)
}

/// The first of the variables read whose value differs now, or that isn't there.
pub(crate) fn first_differing(store: &Store, reads: &[(u32, Value)]) -> Option<u32>
    ensures { result ≡ differing (under store.now) reads.now }
{
    for (id, value) in reads {
        if !holds_value(store, *id, *value) {
            return Some(*id);
        }
    }
    None
}

/// The ticket of the message watches what its block read.
fn watch_reads(watch: &mut Watch, message: &Evaluated) -> Result<(), NoMemory>
    ensures ok { OnOk result
        (WithReads watch.old (message_ticket message.now) (message_reads message.now) watch.new) }
    ensures err { OnErr result (watch.new ≡ watch.old) }
{
    watch.add(message.ticket(), message.reads().as_slice())
}

/// What a delivery of the message takes: two holds on its verdict, room for its ticket in the set of those that could finish, and
/// that its ticket watches what its block read.
fn take_memory(
    alloc: Global,
    watch: &mut Watch,
    ready: &mut TicketSet,
    message: &Evaluated,
) -> Result<(SharedVerdict, SharedVerdict), NoMemory>
    ensures verdicts { IfOk result (λ p. (p.0 ≡ message_verdict message.now)
        × (p.1 ≡ message_verdict message.now)) }
    ensures watch { OnOk result
        (WithReads watch.old (message_ticket message.now) (message_reads message.now) watch.new) }
    ensures ready { ready.new.tickets ≡ ready.old.tickets }
    ensures room { OnOk result (0 < ready.new.room) }
    ensures err { OnErr result (watch.new ≡ watch.old) }
{
    let verdict = SharedVerdict::of_copy(alloc, message.verdict())?;
    let other = verdict.share()?;
    ready.make_room()?;
    match watch_reads(watch, message) {
        Ok(()) => Ok((verdict, other)),
        Err(refused) => Err(refused),
    }
}

impl Machine {
    /// Why the message can't be delivered. `full` says whether the history is.
    pub fn may_deliver(&self, full: bool, message: &Evaluated) -> Result<(), DeliverError>
        ensures refused { RefusesMessage self.now full message.now result }
        ensures allowed { OnOk result ((s : Slow) → IsAt self.now s → MayDeliver s message.now) }
        ensures room { OnOk result (full ≡ false) }
    {
        let waiting = match self.waiting.get(message.ticket()) {
            Some(waiting) => waiting,
            None => return Err(DeliverError::Gone),
        };
        if !is_of(waiting, message) {
            return Err(DeliverError::OtherBlock);
        }
        self.may_deliver_own(full, message)
    }

    /// Why a message can't be delivered that is of the block that waits under its ticket, if one does: its block is not compared.
    pub fn may_deliver_own(&self, full: bool, message: &Evaluated) -> Result<(), DeliverError>
        requires own { (s : Slow) → IsAt self.now s → IsOfWaiter s message.now }
        ensures refused { RefusesMessage self.now full message.now result }
        ensures allowed { OnOk result ((s : Slow) → IsAt self.now s → MayDeliver s message.now) }
        ensures room { OnOk result (full ≡ false) }
    {
        let ticket = message.ticket();
        let _waiting = match self.waiting.get(ticket) {
            Some(waiting) => waiting,
            None => return Err(DeliverError::Gone),
        };
        if !self.pending.has(ticket) {
            return Err(DeliverError::Already);
        }
        match first_read_differing(&self.store, message) {
            Some(id) => Err(DeliverError::Overtaken(id)),
            None => {
                if full {
                    Err(DeliverError::HistoryFull)
                } else {
                    Ok(())
                }
            }
        }
    }

    /// Installs the verdict of a message: its block is current from then on, neither queued nor out. The result is the verdict,
    /// for the event; a refusal hands the message back.
    // A message is moved by value; a call that isn't inlined copies it.
    #[inline(always)]
    pub fn deliver(&mut self, message: Evaluated) -> Result<SharedVerdict, (Evaluated, NoMemory)>
        // At a state that the machine is at, nothing refuses it.
        requires { (s : Slow) × IsAt self.old s × MayDeliver s message }
        ensures moves { MovesOrStays result
            (installation_of message)
            (without_ticket (message_ticket message) self.old.pending)
            self.old self.new }
        ensures verdict { IfOk result (λ v. v ≡ message_verdict message) }
        ensures back { IfErr result (λ e. e.0 ≡ message) }
    {
        match take_memory(self.alloc, &mut self.watch, &mut self.ready, &message) {
            Ok((verdict, told)) => {
                let ticket = message.ticket();
                let (reads, _) = message.into_parts();
                self.ready.add_if(!verdict.blocks(), ticket);
                self.waiting.hold(ticket, Held { reads, verdict });
                let _ = self.pending.remove(ticket);
                Ok(told)
            }
            Err(refused) => Err((message, refused)),
        }
    }
}
