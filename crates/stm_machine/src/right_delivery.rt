//! Whether the last delivery to a block of a checkpoint is right.

ghost use Rattle.std.specs.Prelude.{◌≡◌, ◌↔◌, [], None, Some, option_map, IsTrue, IfOk, OnOk, IsErrOf};
ghost use Rattle.stm_terms.specs.Changes.{cell_value};
ghost use Rattle.stm_terms.specs.declared.values.Value.TheVariants as value;
ghost use Rattle.stm_terms.specs.declared.verdicts.Verdict.TheVariants.{Commits};
ghost use Rattle.stm_store.specs.Cells.{plains, Covers, Fits, applied};
ghost use Rattle.stm_eval.specs.Messages.{Holds};
ghost use Rattle.stm_machine.specs.Checkpoints.{IsRightDelivery, checkpoint_block, held_of, is_stale_delivery, store_with};

use crate::checkpoint::{AddError, CheckpointBlock};
use crate::deliver::first_differing;
use std::alloc::Global;
use stm_check::{SharedBlock, Typed};
use stm_eval::try_block;
use stm_events::delivery::Delivery;
use stm_events::kept_cause::KeptCause;
use stm_events::shared_name::SharedName;
use stm_log::Reads;
use stm_store::{Frozen, Store};
use stm_terms::NoMemory;
use stm_terms::lists::{News, Writes};
use stm_terms::values::Value;
use stm_terms::verdicts::Verdict;
use stm_waiting::{Held, Waiting};

fn same_read(one: (u32, Value), other: (u32, Value)) -> bool
    ensures { IsTrue result ↔ (one ≡ other) }
{
    one.0 == other.0 && one.1 == other.1
}

fn same_reads(one: &[(u32, Value)], other: &[(u32, Value)]) -> bool
    ensures { IsTrue result ↔ (one.now ≡ other.now) }
{
    if one.len() != other.len() {
        return false;
    }
    for i in 0..one.len() {
        if !same_read(one[i], other[i]) {
            return false;
        }
    }
    true
}

/// The writes of these values, with no result.
pub(crate) fn writes_of(alloc: Global, values: &[(u32, Value)]) -> Result<Verdict, NoMemory>
    ensures { IfOk result (λ v. v ≡ Commits values.now [] value.Unit) }
{
    Ok(Verdict::Commits {
        writes: Writes::from_vec(Vec::from_slice(alloc, values)?),
        news: News::from_vec(Vec::new(alloc)),
        result: Value::Unit,
    })
}

fn apply(store: &mut Store, verdict: &Verdict) -> Result<(), NoMemory>
    requires { Fits (plains store.old) verdict.now }
    ensures { OnOk result (store.new ≡ applied store.old verdict.now) }
{
    match store.apply(verdict) {
        Ok(_) => Ok(()),
        Err(_) => Err(NoMemory),
    }
}

/// A copy of the store after these writes.
fn frozen_after(store: &Store, writes: &Verdict) -> Result<Frozen, NoMemory>
    requires { Fits (plains store.now) writes.now }
    ensures { IfOk result (λ f. f ≡ plains (applied store.now writes.now)) }
{
    let mut changed = store.share()?;
    apply(&mut changed, writes)?;
    changed.freeze()
}

/// A copy of the store with these values in place; `NotPossible` if they don't fit it.
fn store_then(alloc: Global, store: &Store, values: &[(u32, Value)]) -> Result<Frozen, AddError>
    ensures store { IfOk result (λ f. f ≡ plains (store_with values.now store.now)) }
    ensures fits { OnOk result (Fits (plains store.now) (Commits values.now [] value.Unit)) }
    ensures refused { IsErrOf result AddError.NotPossible
        → Fits (plains store.now) (Commits values.now [] value.Unit) → ⊥ }
{
    let writes = writes_of(alloc, values)?;
    if !store.fits(&writes) {
        return Err(AddError::NotPossible);
    }
    Ok(frozen_after(store, &writes)?)
}

/// What the block reads on a store that has what it read; `NotPossible` if it reads something else there or has another verdict.
fn reads_on(
    alloc: Global,
    frozen: &Frozen,
    block: &Typed,
    delivery: &Delivery,
) -> Result<Reads, AddError>
    requires { Covers frozen.now block.now.uses }
    ensures reads { IfOk result (λ r. r ≡ delivery.now.reads) }
    ensures holds { OnOk result
        (Holds block.now.tree (cell_value frozen.now) delivery.now.reads delivery.now.verdict) }
    ensures refused { IsErrOf result AddError.NotPossible
        → Holds block.now.tree (cell_value frozen.now) delivery.now.reads delivery.now.verdict → ⊥ }
{
    let (verdict, reads) = try_block(alloc, frozen, block)?;
    let blocks = Verdict::Blocks;
    let alike = verdict.same(delivery.verdict().get(&blocks));
    if alike && same_reads(reads.as_slice(), delivery.reads()) {
        Ok(reads)
    } else {
        Err(AddError::NotPossible)
    }
}

/// What the block read at a delivery; `NotPossible` if the delivery isn't right. Only what isn't in the store any more takes a copy
/// of the store.
fn right_reads(
    alloc: Global,
    store: &Store,
    block: &Typed,
    delivery: &Delivery,
) -> Result<Reads, AddError>
    requires { Covers (plains store.now) block.now.uses }
    ensures reads { IfOk result (λ r. r ≡ delivery.now.reads) }
    ensures right { OnOk result
        (IsRightDelivery store.now block.now delivery.now.stale (Some (held_of delivery.now))) }
    ensures refused { IsErrOf result AddError.NotPossible
        → IsRightDelivery store.now block.now delivery.now.stale (Some (held_of delivery.now)) → ⊥ }
{
    // The cells are known to be well typed by this.
    let _cells = store.len();
    match first_differing(store, delivery.reads()) {
        None => {
            if delivery.is_stale() && delivery.reads().is_empty() {
                return Err(AddError::NotPossible);
            }
            let frozen = store.freeze()?;
            reads_on(alloc, &frozen, block, delivery)
        }
        Some(_) => {
            if !delivery.is_stale() {
                return Err(AddError::NotPossible);
            }
            let frozen = store_then(alloc, store, delivery.reads())?;
            reads_on(alloc, &frozen, block, delivery)
        }
    }
}

/// What is held of a delivery; `NotPossible` if the delivery isn't right.
fn right_held(
    alloc: Global,
    store: &Store,
    block: &Typed,
    delivery: &Delivery,
) -> Result<Held, AddError>
    requires { Covers (plains store.now) block.now.uses }
    ensures held { IfOk result (λ h. h ≡ held_of delivery.now) }
    ensures right { OnOk result
        (IsRightDelivery store.now block.now delivery.now.stale (Some (held_of delivery.now))) }
    ensures refused { IsErrOf result AddError.NotPossible
        → IsRightDelivery store.now block.now delivery.now.stale (Some (held_of delivery.now)) → ⊥ }
{
    let reads = right_reads(alloc, store, block, delivery)?;
    let verdict = delivery.verdict().share()?;
    Ok(Held { reads, verdict })
}

/// What is held of a block's last delivery, if there was one; `NotPossible` if the delivery isn't right.
fn last_held(
    alloc: Global,
    store: &Store,
    block: &Typed,
    delivery: &Option<Delivery>,
) -> Result<Option<Held>, AddError>
    requires { Covers (plains store.now) block.now.uses }
    ensures held { IfOk result (λ h. h ≡ option_map held_of delivery.now) }
    ensures right { OnOk result
        (IsRightDelivery store.now block.now (is_stale_delivery delivery.now) (option_map held_of delivery.now)) }
    ensures refused { IsErrOf result AddError.NotPossible
        → IsRightDelivery store.now block.now (is_stale_delivery delivery.now) (option_map held_of delivery.now) → ⊥ }
{
    match delivery {
        None => Ok(None),
        Some(delivery) => Ok(Some(right_held(alloc, store, block, delivery)?)),
    }
}

/// Whether the delivery left its block stale, if there was one.
fn is_left_stale(delivery: &Option<Delivery>) -> bool
    ensures { result ≡ is_stale_delivery delivery.now }
{
    match delivery {
        None => false,
        Some(delivery) => delivery.is_stale(),
    }
}

/// A block of a checkpoint with its last delivery, if there was one, its cause and its label; `NotPossible` if the delivery isn't right.
pub(crate) fn last_delivery(
    alloc: Global,
    store: &Store,
    ticket: u32,
    block: SharedBlock,
    delivery: Option<Delivery>,
    cause: Option<KeptCause>,
    label: SharedName,
) -> Result<CheckpointBlock, AddError>
    requires { Covers (plains store.now) block.uses }
    ensures block { IfOk result (λ b. b ≡ checkpoint_block ticket block delivery cause label) }
    ensures right { OnOk result
        (IsRightDelivery store.now block (is_stale_delivery delivery) (option_map held_of delivery)) }
    ensures refused { IsErrOf result AddError.NotPossible
        → IsRightDelivery store.now block (is_stale_delivery delivery) (option_map held_of delivery) → ⊥ }
{
    let held = last_held(alloc, store, block.block(), &delivery)?;
    Ok(CheckpointBlock {
        ticket,
        waiting: Waiting { block, held },
        stale: is_left_stale(&delivery),
        cause,
        label,
    })
}
