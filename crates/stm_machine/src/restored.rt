//! The blocks of a checkpoint as a machine keeps them, and those that a machine keeps as a checkpoint has them.

ghost use Rattle.std.specs.Prelude.{◌≡◌, ℕ, false, map, IfOk, OnOk, ◌++◌, ◌∷◌, []};
ghost use Rattle.stm_queue.specs.Queue.{has_ticket};
ghost use Rattle.stm_queue.specs.SortedTickets.{member};
ghost use Rattle.stm_watch.specs.Pairs.{has_pair};
ghost use Rattle.stm_waiting.specs.Entries.{AllBelow};
ghost use Rattle.stm_machine.specs.CheckpointEntries.{EntriesRise, TicketsAscend, KeepsBlocks, block_of, entry_of, has_block, is_due_block, is_ready_block, watches_variable};
ghost use Rattle.stm_machine.specs.ReadySet.{AreReady};
ghost use Rattle.stm_machine.specs.SettleChoices.{some_out};

use crate::checkpoint::CheckpointBlock;
use crate::machine::Machine;
use std::alloc::Global;
use stm_events::SharedName;
use stm_events::staleness::StalenessRule;
use stm_queue::Pending;
use stm_store::{Names, Store};
use stm_terms::NoMemory;
use stm_waiting::{Held, TicketSet, Waiting, WaitingBlocks};
use stm_watch::Watch;

fn copy_of(held: &Held) -> Result<Held, NoMemory>
    ensures { IfOk result (λ h. h ≡ held.now) }
{
    Ok(Held {
        reads: held.reads.copy()?,
        verdict: held.verdict.share()?,
    })
}

/// A second hold on what waits: the text and the verdict are shared, what was read is copied.
fn share_waiting(waiting: &Waiting) -> Result<Waiting, NoMemory>
    ensures { IfOk result (λ w. w ≡ waiting.now) }
{
    let block = waiting.block.share()?;
    match &waiting.held {
        None => Ok(Waiting { block, held: None }),
        Some(held) => {
            let held = copy_of(held)?;
            Ok(Waiting {
                block,
                held: Some(held),
            })
        }
    }
}

// ---- of a machine
/// What waits under a ticket, as a block of a checkpoint.
fn block_under(
    waiting: &Waiting,
    ticket: u32,
    pending: &Pending,
) -> Result<CheckpointBlock, NoMemory>
    ensures { IfOk result (λ b. b ≡ block_of pending.now.entries (ticket, waiting.now)) }
{
    Ok(CheckpointBlock {
        ticket,
        waiting: share_waiting(waiting)?,
        stale: waiting.held.is_some() && pending.has(ticket),
        cause: None,
        label: SharedName::none(),
    })
}

/// All that waits, as blocks of a checkpoint, in ascending order of the tickets.
pub(crate) fn waiting_blocks(
    alloc: Global,
    waiting: &WaitingBlocks,
    pending: &Pending,
) -> Result<Vec<CheckpointBlock>, NoMemory>
    requires { EntriesRise 0 waiting.now }
    ensures { IfOk result (λ bs. bs.items ≡ map (block_of pending.now.entries) waiting.now) }
{
    let mut blocks = Vec::new(alloc);
    let mut after = 0;
    for _ in 0..waiting.len() {
        match waiting.first_above(after) {
            Some(ticket) => {
                match waiting.get(ticket) {
                    Some(one) => blocks.push(block_under(one, ticket, pending)?)?,
                    None => unreachable!(),
                }
                after = ticket;
            }
            None => unreachable!(),
        }
    }
    Ok(blocks)
}

// ---- of a checkpoint
/// Whether the block is new or stale.
fn is_due(block: &CheckpointBlock) -> bool
    ensures { result ≡ is_due_block block.now }
{
    !(block.waiting.held.is_some() && !block.stale)
}

/// Whether the block is current, and its verdict doesn't block.
fn is_ready(block: &CheckpointBlock) -> bool
    ensures { result ≡ is_ready_block block.now }
{
    match &block.waiting.held {
        Some(held) => !block.stale && !held.verdict.blocks(),
        None => false,
    }
}

/// One block more, after the others.
fn add_entry(waiting: &mut WaitingBlocks, block: &CheckpointBlock) -> Result<(), NoMemory>
    requires { AllBelow block.now.ticket waiting.old }
    ensures { OnOk result (waiting.new ≡ waiting.old ++ entry_of block.now ∷ []) }
{
    waiting.insert(block.ticket, block.waiting.block.share()?)?;
    match &block.waiting.held {
        Some(held) => {
            waiting.hold(block.ticket, copy_of(held)?);
            Ok(())
        }
        None => Ok(()),
    }
}

/// The blocks, by their tickets.
fn entries(alloc: Global, blocks: &[CheckpointBlock]) -> Result<WaitingBlocks, NoMemory>
    requires { TicketsAscend 0 blocks.now }
    ensures { IfOk result (λ w. w ≡ map entry_of blocks.now) }
{
    let mut waiting = WaitingBlocks::empty(alloc);
    for block in blocks {
        add_entry(&mut waiting, block)?;
    }
    Ok(waiting)
}

/// The tickets of the new and the stale blocks, all queued.
fn due_tickets(alloc: Global, blocks: &[CheckpointBlock]) -> Result<Pending, NoMemory>
    requires { TicketsAscend 0 blocks.now }
    ensures due { IfOk result (λ p. (t : ℕ) → has_ticket t p.entries ≡ has_block is_due_block t blocks.now) }
    ensures none_out { IfOk result (λ p. some_out p.entries ≡ false) }
{
    let mut pending = Pending::empty(alloc);
    for block in blocks {
        if is_due(block) {
            pending.make_room(1)?;
            pending.add(block.ticket);
        }
    }
    Ok(pending)
}

/// What each current block read.
fn read_variables(alloc: Global, blocks: &[CheckpointBlock]) -> Result<Watch, NoMemory>
    ensures { IfOk result (λ w. (v t : ℕ) → has_pair w v t ≡ has_block (watches_variable v) t blocks.now) }
{
    let mut watch = Watch::empty(alloc);
    for block in blocks {
        if !is_due(block) {
            watch.add(block.ticket, block.waiting.reads())?;
        }
    }
    Ok(watch)
}

/// The tickets of the blocks that could finish.
fn ready_tickets(alloc: Global, blocks: &[CheckpointBlock]) -> Result<TicketSet, NoMemory>
    requires { TicketsAscend 0 blocks.now }
    ensures { IfOk result (λ r. (t : ℕ) → member t r.tickets ≡ has_block is_ready_block t blocks.now) }
{
    let mut ready = TicketSet::empty(alloc);
    for block in blocks {
        if is_ready(block) {
            ready.make_room()?;
            ready.add_if(true, block.ticket);
        }
    }
    Ok(ready)
}

/// What a machine keeps of the blocks of a checkpoint.
pub(crate) struct Restored {
    pub waiting: WaitingBlocks,
    pub pending: Pending,
    pub watch: Watch,
    pub ready: TicketSet,
}

// Written out, and not derived, so that the proof of each owner calls it once.
impl Drop for Restored {
    fn drop(self) {
        let Restored {
            waiting: _,
            pending: _,
            watch: _,
            ready: _,
        } = self;
    }
}

impl Restored {
    /// Keeps these blocks in place of what it kept.
    fn fill(&mut self, alloc: Global, blocks: &[CheckpointBlock]) -> Result<(), NoMemory>
        requires { TicketsAscend 0 blocks.now }
        ensures { OnOk result (KeepsBlocks blocks.now self.new) }
    {
        self.waiting = entries(alloc, blocks)?;
        self.pending = due_tickets(alloc, blocks)?;
        self.watch = read_variables(alloc, blocks)?;
        self.ready = ready_tickets(alloc, blocks)?;
        Ok(())
    }

    /// What a machine keeps of these blocks.
    pub(crate) fn of_blocks(alloc: Global, blocks: &[CheckpointBlock]) -> Result<Restored, NoMemory>
        requires { TicketsAscend 0 blocks.now }
        ensures { IfOk result (λ r. KeepsBlocks blocks.now r) }
    {
        let mut restored = Restored {
            waiting: WaitingBlocks::empty(alloc),
            pending: Pending::empty(alloc),
            watch: Watch::empty(alloc),
            ready: TicketSet::empty(alloc),
        };
        restored.fill(alloc, blocks)?;
        Ok(restored)
    }

    /// A machine with these blocks.
    pub(crate) fn into_machine(
        self,
        alloc: Global,
        rule: StalenessRule,
        store: Store,
        names: Names,
        next: u32,
    ) -> Machine
        requires { AreReady self.ready.tickets self.waiting self.pending.entries }
        ensures { result ≡ record {
          rule = rule;
          store = store;
          names = names;
          next = next;
          entries = self.waiting;
          pending = self.pending.entries;
          watch = self.watch;
        } }
    {
        let Restored {
            waiting,
            pending,
            watch,
            ready,
        } = self;
        Machine {
            alloc,
            rule,
            store,
            names,
            next,
            waiting,
            pending,
            watch,
            ready,
        }
    }
}
