//! Checkpoints: states that a history may begin from.

ghost use Rattle.std.specs.Prelude.{◌≡◌, ◌<◌, ◌≤◌, ◌++◌, ◌∷◌, [], false, true, map, option_map, IfOk, OnOk, OnErr, IsErrOf, IsTrue, ◌↔◌};
ghost use Rattle.stm_terms.specs.Changes.{find};
ghost use Rattle.stm_terms.specs.UnlessNoMemory.{RefusedAs};
ghost use Rattle.stm_store.specs.Cells.{plains, Covers};
ghost use Rattle.stm_store.specs.Naming.{named_uses};
ghost use Rattle.stm_events.specs.KeptCauses.{kept_cause_of};
ghost use Rattle.stm_events.specs.Labels.{AreLabels};
ghost use Rattle.stm_events.specs.SlowDesk.{Slow};
ghost use Rattle.stm_events.specs.States.{IsTypedState};
ghost use Rattle.stm_events.specs.declared.staleness.StalenessRule.{StalenessRule as AnyRule};
ghost use Rattle.stm_machine.specs.Checkpoints.{IsCheckpoint, CheckpointsArePossible, CheckpointsAreUnseen, LabelsLeaveCheckpoints, CausesLeaveCheckpoints, checkpoint_of, labelled_block, with_labels, caused_block, with_causes, differs_from, all_differ, IsKeptCause, MayHaveCause, MayGetCauses, causes_by, MayAdd, AddsBlock, checkpoint_block, held_of, is_stale_delivery, checkpoint_state, max_next, checkpoint_refused};
ghost use Rattle.stm_machine.specs.CheckpointEntries.{EntriesRise, HasPlace, MayWait, block_of, last_ticket};
ghost use Rattle.stm_machine.specs.Machine.{IsAt};
ghost use Rattle.stm_machine.specs.SettleChoices.{some_out};

use crate::machine::Machine;
use crate::restored::{Restored, waiting_blocks};
use crate::right_delivery::{last_delivery, writes_of};
use std::alloc::Global;
use std::marker::Model;
use stm_check::SharedBlock;
use stm_events::delivery::Delivery;
use stm_events::kept_cause::{CauseTable, KeptCause};
use stm_events::label::is_label;
use stm_events::label_table::LabelTable;
use stm_events::shared_name::SharedName;
use stm_events::staleness::StalenessRule;
use stm_queue::Pending;
use stm_store::{Names, Store};
use stm_terms::NoMemory;
use stm_terms::values::Value;
use stm_waiting::{Waiting, WaitingBlocks};
use thiserror::Error;

/// A waiting block of a checkpoint.
#[derive(Drop)]
pub struct CheckpointBlock {
    pub ticket: u32,
    /// The block, with what its last delivery brought.
    pub waiting: Waiting,
    /// Whether the block is stale. A new one isn't.
    pub stale: bool,
    /// Why it is stale, if that is known.
    pub cause: Option<KeptCause>,
    /// Its label; the empty text if it has none.
    pub label: SharedName,
}

/// A state that a history may begin from: the store, the next ticket, and the waiting blocks.
#[derive(Drop)]
pub struct Checkpoint {
    pub(crate) store: Store,
    pub(crate) names: Names,
    pub(crate) next: u32,
    pub(crate) blocks: Vec<CheckpointBlock>,
}

impl Model for Checkpoint {
    ghost use Rattle.std.specs.Coded.{codes};
    ghost use Rattle.stm_terms.specs.TreeEncoding.{act_code};
    ghost use Rattle.stm_machine.specs.Checkpoints.{CheckpointView, IsCheckpoint};

    ghost Value = { CheckpointView };

    ghost coded = { Prim.hlevel (codes, act_code) };

    ghost view = { λ c. record { store = c.store; names = c.names; next = c.next; blocks = c.blocks.items } };

    ghost invariant = { λ c. IsCheckpoint (record { store = c.store; names = c.names; next = c.next; blocks = c.blocks.items }) };
}

/// Why a state can't be a checkpoint, or a block not be one of a checkpoint's.
#[derive(Clone, Copy, Debug, PartialEq, Eq, Error)]
pub enum CheckpointError {
    /// The next ticket is so high that a history after it could run out of tickets.
    #[error("the tickets run out")]
    TicketsFull,
    #[error("out of memory")]
    NoMemory,
}

/// Why a block can't be added to a checkpoint.
#[derive(Clone, Copy, Debug, PartialEq, Eq, Error)]
pub enum AddError {
    /// With the block it would be no checkpoint.
    #[error("the block doesn't belong to the checkpoint")]
    NotPossible,
    #[error("out of memory")]
    NoMemory,
}

impl From<NoMemory> for CheckpointError {
    ghost use Rattle.std.specs.Prelude.{◌≡◌};
    ghost use Rattle.stm_machine.specs.declared.checkpoint.CheckpointError.{CheckpointError};

    ghost from_gives = { λ _ e. e ≡ CheckpointError.NoMemory };

    fn from(_refused: NoMemory) -> CheckpointError {
        CheckpointError::NoMemory
    }
}

impl From<NoMemory> for AddError {
    ghost use Rattle.std.specs.Prelude.{◌≡◌};
    ghost use Rattle.stm_machine.specs.declared.checkpoint.AddError.{AddError};

    ghost from_gives = { λ _ e. e ≡ AddError.NoMemory };

    fn from(_refused: NoMemory) -> AddError {
        AddError::NoMemory
    }
}

/// The last ticket, or 0 if no block waits.
fn last_ticket(blocks: &[CheckpointBlock]) -> u32
    ensures { result ≡ last_ticket 0 blocks.now }
{
    if blocks.len() == 0 {
        0
    } else {
        blocks[blocks.len() - 1].ticket
    }
}

/// The block with the label that it has by a table.
fn labelled(block: CheckpointBlock, labels: &LabelTable) -> Result<CheckpointBlock, NoMemory>
    ensures { IfOk result (λ b. b ≡ labelled_block labels.now block) }
{
    let CheckpointBlock {
        ticket,
        waiting,
        stale,
        cause,
        label: _,
    } = block;
    Ok(CheckpointBlock {
        ticket,
        waiting,
        stale,
        cause,
        label: labels.shared(ticket)?,
    })
}

/// The cause that a ticket has by a table, once more.
fn cause_in(alloc: Global, causes: &CauseTable, ticket: u32) -> Result<Option<KeptCause>, NoMemory>
    ensures { IfOk result (λ c. c ≡ kept_cause_of ticket causes.now) }
{
    match causes.cause_of(ticket) {
        Some(cause) => Ok(Some(cause.copy(alloc)?)),
        None => Ok(None),
    }
}

/// The block with the cause that it has by a table.
fn caused(
    alloc: Global,
    block: CheckpointBlock,
    causes: &CauseTable,
) -> Result<CheckpointBlock, NoMemory>
    ensures { IfOk result (λ b. b ≡ caused_block (causes_by causes.now) block) }
{
    let CheckpointBlock {
        ticket,
        waiting,
        stale,
        cause: _,
        label,
    } = block;
    Ok(CheckpointBlock {
        ticket,
        waiting,
        stale,
        cause: cause_in(alloc, causes, ticket)?,
        label,
    })
}

/// The blocks with the labels that they have by a table.
fn all_labelled(
    alloc: Global,
    blocks: Vec<CheckpointBlock>,
    labels: &LabelTable,
) -> Result<Vec<CheckpointBlock>, NoMemory>
    ensures { IfOk result (λ bs. bs.items ≡ map (labelled_block labels.now) blocks.items) }
{
    let mut all = Vec::new(alloc);
    for block in blocks {
        push_block(&mut all, labelled(block, labels)?)?;
    }
    Ok(all)
}

/// All that waits, as blocks of a checkpoint, with the labels that they have by a table.
fn labelled_blocks(
    alloc: Global,
    waiting: &WaitingBlocks,
    pending: &Pending,
    labels: &LabelTable,
) -> Result<Vec<CheckpointBlock>, NoMemory>
    requires { EntriesRise 0 waiting.now }
    ensures { IfOk result (λ bs. bs.items
        ≡ map (labelled_block labels.now) (map (block_of pending.now.entries) waiting.now)) }
{
    all_labelled(alloc, waiting_blocks(alloc, waiting, pending)?, labels)
}

/// The blocks with the causes that they have by a table.
fn all_caused(
    alloc: Global,
    blocks: Vec<CheckpointBlock>,
    causes: &CauseTable,
) -> Result<Vec<CheckpointBlock>, NoMemory>
    ensures { IfOk result (λ bs. bs.items ≡ map (caused_block (causes_by causes.now)) blocks.items) }
{
    let mut all = Vec::new(alloc);
    for block in blocks {
        push_block(&mut all, caused(alloc, block, causes)?)?;
    }
    Ok(all)
}

/// Whether a variable was read, with another value than this one.
fn differs_from(reads: &[(u32, Value)], variable: u32, value: Value) -> bool
    ensures { result ≡ differs_from (find variable reads.now) value }
{
    for read in reads {
        if read.0 == variable {
            return read.1 != value;
        }
    }
    false
}

/// Whether each of these variables was read, with another value than it has here.
fn all_differ(reads: &[(u32, Value)], left: &[(u32, Value)]) -> bool
    ensures { result ≡ all_differ reads.now left.now }
{
    for one in left {
        if !differs_from(reads, one.0, one.1) {
            return false;
        }
    }
    true
}

/// Whether a block of these reads may have been made stale so, if the next ticket is this one.
fn is_kept_cause(
    alloc: Global,
    store: &Store,
    next: u32,
    reads: &[(u32, Value)],
    cause: &KeptCause,
) -> Result<bool, NoMemory>
    ensures { IfOk result (λ b. IsTrue b ↔ IsKeptCause store.now next reads.now cause.now) }
{
    let left = cause.left.as_slice();
    if cause.finish == 0 || cause.finish >= next || left.is_empty() || !all_differ(reads, left) {
        return Ok(false);
    }
    let writes = writes_of(alloc, left)?;
    Ok(store.fits(&writes))
}

/// Whether a block with this last delivery, if there was one, may have this cause, if it has one.
fn may_have_cause(
    alloc: Global,
    store: &Store,
    next: u32,
    delivery: &Option<Delivery>,
    cause: &Option<KeptCause>,
) -> Result<bool, NoMemory>
    ensures { IfOk result (λ b. IsTrue b
        ↔ MayHaveCause store.now next (is_stale_delivery delivery.now) (option_map held_of delivery.now) cause.now) }
{
    match cause {
        None => Ok(true),
        Some(cause) => match delivery {
            None => Ok(false),
            Some(delivery) => {
                if !delivery.is_stale() {
                    return Ok(false);
                }
                is_kept_cause(alloc, store, next, delivery.reads(), cause)
            }
        },
    }
}

fn push_block(blocks: &mut Vec<CheckpointBlock>, block: CheckpointBlock) -> Result<(), NoMemory>
    ensures ok { OnOk result (blocks.new.items ≡ blocks.old.items ++ block ∷ []) }
    ensures err { OnErr result (blocks.new.items ≡ blocks.old.items) }
{
    match blocks.push(block) {
        Ok(()) => Ok(()),
        Err(_) => Err(NoMemory),
    }
}

impl Checkpoint {
    /// The greatest next ticket of a checkpoint.
    pub const MAX_NEXT: u32 = 4_293_918_719;

    /// A checkpoint with this store, these names of its variables and this next ticket, in which no block waits. The next ticket is 1
    /// to `MAX_NEXT`.
    pub fn new(alloc: Global, store: Store, names: Names, next: u32) -> Checkpoint
        requires tickets { (0 < next) × (next ≤ max_next) }
        // The store has each variable that has a name, with its type.
        requires named { Covers (plains store) (named_uses names) }
        ensures { result ≡ record { store = store; names = names; next = next; blocks = [] } }
    {
        // The cells are known to be well typed by this.
        let _cells = store.len();
        Checkpoint {
            store,
            names,
            next,
            blocks: Vec::new(alloc),
        }
    }

    /// Adds a waiting block after the others, with what its last delivery brought if there was one, why it is stale if that is known,
    /// and its label. Runs the block on what it read to see that the delivery is right.
    pub fn add(
        &mut self,
        alloc: Global,
        ticket: u32,
        block: SharedBlock,
        delivery: Option<Delivery>,
        cause: Option<KeptCause>,
        label: SharedName,
    ) -> Result<(), AddError>
        ensures added { AddsBlock self.old (checkpoint_block ticket block delivery cause label) result self.new }
    {
        let block = self.checked(alloc, ticket, block, delivery, cause, label)?;
        push_block(&mut self.blocks, block)?;
        Ok(())
    }

    /// The block with its last delivery, its cause and its label; `NotPossible` if it can't be added.
    fn checked(
        &self,
        alloc: Global,
        ticket: u32,
        block: SharedBlock,
        delivery: Option<Delivery>,
        cause: Option<KeptCause>,
        label: SharedName,
    ) -> Result<CheckpointBlock, AddError>
        ensures block { IfOk result (λ b. b ≡ checkpoint_block ticket block delivery cause label) }
        ensures may { OnOk result (MayAdd self.now (checkpoint_block ticket block delivery cause label)) }
        ensures refused { IsErrOf result AddError.NotPossible
            → MayAdd self.now (checkpoint_block ticket block delivery cause label) → ⊥ }
    {
        if !self.may_wait(alloc, ticket, &block, &delivery, &cause, &label)? {
            return Err(AddError::NotPossible);
        }
        // The block is known to be well typed by this.
        let _action = block.block().action();
        last_delivery(alloc, &self.store, ticket, block, delivery, cause, label)
    }

    /// Whether the block may be added, if it is well typed and its last delivery is right.
    fn may_wait(
        &self,
        alloc: Global,
        ticket: u32,
        block: &SharedBlock,
        delivery: &Option<Delivery>,
        cause: &Option<KeptCause>,
        label: &SharedName,
    ) -> Result<bool, NoMemory>
        ensures { IfOk result (λ b. IsTrue b
            ↔ MayWait self.now ticket block.now delivery.now cause.now label.now) }
    {
        if !self.has_place(ticket)
            || !is_label(label.as_str())
            || !self.store.covers(block.block().uses())
        {
            return Ok(false);
        }
        may_have_cause(alloc, &self.store, self.next, delivery, cause)
    }

    /// Whether one block more may wait, under this ticket.
    fn has_place(&self, ticket: u32) -> bool
        ensures { IsTrue result ↔ HasPlace self.now ticket }
    {
        self.blocks.len() < Machine::MAX_WAITING
            && last_ticket(&self.blocks) < ticket
            && ticket < self.next
    }

    /// The checkpoint with these causes in place of those that its blocks had.
    pub fn with_causes(self, alloc: Global, causes: &CauseTable) -> Result<Checkpoint, NoMemory>
        requires { MayGetCauses (causes_by causes.now) self }
        ensures { IfOk result (λ c. c ≡ with_causes (causes_by causes.now) self) }
    {
        let Checkpoint {
            store,
            names,
            next,
            blocks,
        } = self;
        Ok(Checkpoint {
            store,
            names,
            next,
            blocks: all_caused(alloc, blocks, causes)?,
        })
    }

    /// The store of the checkpoint.
    pub fn store(&self) -> &Store
        ensures { result.now ≡ self.now.store }
    {
        &self.store
    }

    /// The names of variables.
    pub fn names(&self) -> &Names
        ensures { result.now ≡ self.now.names }
    {
        &self.names
    }

    /// The next ticket. The clause `checkpoint` says what holds of every checkpoint.
    pub fn next(&self) -> u32
        ensures next { result ≡ self.now.next }
        ensures checkpoint { IsCheckpoint self.now }
    {
        self.next
    }

    /// The waiting blocks, in ascending order of their tickets.
    pub fn blocks(&self) -> &[CheckpointBlock]
        ensures { result.now ≡ self.now.blocks }
    {
        self.blocks.as_slice()
    }
}

impl Machine {
    /// A checkpoint of the present state, whose blocks have these labels, and no causes. It goes over all waiting blocks and shares
    /// their texts; the store is shared until it changes.
    pub fn checkpoint(
        &self,
        alloc: Global,
        labels: &LabelTable,
    ) -> Result<Checkpoint, CheckpointError>
        // The machine is at a well typed state, by the present rule.
        requires at { (s : Slow) × IsAt self.now s × IsTypedState s × (s.rule ≡ AnyRule.Changed) }
        requires labels { AreLabels labels.now }
        ensures taken { IfOk result (λ c. (s : Slow) → IsAt self.now s
            → c ≡ with_labels labels.now (checkpoint_of s)) }
        ensures refused { RefusedAs CheckpointError.NoMemory (checkpoint_refused self.now.next) result }
    {
        if self.next > Checkpoint::MAX_NEXT {
            return Err(CheckpointError::TicketsFull);
        }
        // The cells are known to be well typed by this.
        let _cells = self.store.len();
        let blocks = labelled_blocks(alloc, &self.waiting, &self.pending, labels)?;
        Ok(Checkpoint {
            store: self.store.share()?,
            names: self.names.copy(alloc)?,
            next: self.next,
            blocks,
        })
    }

    /// A machine at the state of a checkpoint, on which each new and each stale block is queued. No block is evaluated.
    /// Its memory grows with the number of blocks, and not with their tickets.
    pub fn from_checkpoint(alloc: Global, checkpoint: &Checkpoint) -> Result<Machine, NoMemory>
        ensures at { IfOk result (λ m. IsAt m (checkpoint_state checkpoint.now)) }
        ensures none_out { IfOk result (λ m. some_out m.pending ≡ false) }
    {
        let blocks = Restored::of_blocks(alloc, checkpoint.blocks.as_slice())?;
        Ok(blocks.into_machine(
            alloc,
            StalenessRule::Changed,
            checkpoint.store.share()?,
            checkpoint.names.copy(alloc)?,
            checkpoint.next,
        ))
    }
}

/// Events may go on from the state of a checkpoint.
pub fn checkpoints_are_possible()
    ensures { CheckpointsArePossible }
{}

/// A checkpoint whose blocks get causes that they may have stays one, of the same state.
pub fn causes_leave_checkpoints()
    ensures { CausesLeaveCheckpoints }
{}

/// A checkpoint whose blocks get labels stays one, of the same state.
pub fn labels_leave_checkpoints()
    ensures { LabelsLeaveCheckpoints }
{}

/// What is observed of a state is also observed of its checkpoint's state.
pub fn checkpoints_are_unseen()
    ensures { CheckpointsAreUnseen }
{}
