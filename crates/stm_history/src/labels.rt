//! The labels of the waiting blocks after a history.

ghost use Rattle.std.specs.Prelude.{ℕ, List, IfOk, OnOk};
ghost use Rattle.std.specs.Option.{option_copied};
ghost use Rattle.stm_store.specs.declared.cell.Cell.{Cell as AnyCell};
ghost use Rattle.stm_events.specs.Labels.{AreSameLabels, labels_after, labels_from};
ghost use Rattle.stm_machine.specs.Checkpoints.{AreCheckpointBlocks, first_labels, labels_in, labels_of_history};

use std::alloc::Global;
use stm_events::event::{Event, What};
use stm_events::label_table::LabelTable;
use stm_machine::checkpoint::{Checkpoint, CheckpointBlock};
use stm_terms::NoMemory;

/// The labels after what happens.
fn label_after(labels: &mut LabelTable, what: &What) -> Result<(), NoMemory>
    ensures { OnOk result (AreSameLabels labels.new (labels_after labels.old what.now)) }
{
    match what {
        What::Submitted { .. } => Ok(()),
        What::Installed { .. } => Ok(()),
        What::Finished { ticket, .. } => {
            labels.remove(*ticket);
            Ok(())
        }
        What::Cancelled { ticket } => {
            labels.remove(*ticket);
            Ok(())
        }
        What::Declared { .. } => Ok(()),
        What::Labelled { ticket, label } => {
            let label = label.share()?;
            labels.set(*ticket, label)
        }
    }
}

/// The labels after the events of a list, one after another.
fn follow_labels(labels: &mut LabelTable, history: &[Event]) -> Result<(), NoMemory>
    ensures { OnOk result (AreSameLabels labels.new (labels_from labels.old history.now)) }
{
    for event in history {
        match label_after(labels, &event.what) {
            Ok(()) => {}
            Err(refused) => return Err(refused),
        }
    }
    Ok(())
}

/// The labels of the blocks of a checkpoint.
fn labels_in(alloc: Global, blocks: &[CheckpointBlock]) -> Result<LabelTable, NoMemory>
    requires { (store : List AnyCell) × (n : ℕ) × AreCheckpointBlocks store n 0 blocks.now }
    ensures { IfOk result (λ labels. AreSameLabels labels (labels_in blocks.now)) }
{
    let mut labels = LabelTable::empty(alloc);
    for block in blocks {
        let label = block.label.share()?;
        match labels.set(block.ticket, label) {
            Ok(()) => {}
            Err(refused) => return Err(refused),
        }
    }
    Ok(labels)
}

/// The labels with which a history begins: those of its checkpoint, if it begins from one.
fn first_labels(alloc: Global, checkpoint: Option<&Checkpoint>) -> Result<LabelTable, NoMemory>
    ensures { IfOk result (λ labels. AreSameLabels labels (first_labels (option_copied checkpoint.entry))) }
{
    match checkpoint {
        None => Ok(LabelTable::empty(alloc)),
        Some(checkpoint) => {
            // The tickets are known to rise by this.
            let _next = checkpoint.next();
            labels_in(alloc, checkpoint.blocks())
        }
    }
}

/// The labels of the waiting blocks after a history, with which a desk goes on from it.
pub fn labels_after_history(
    alloc: Global,
    checkpoint: Option<&Checkpoint>,
    history: &[Event],
) -> Result<LabelTable, NoMemory>
    ensures { IfOk result (λ labels. AreSameLabels labels
        (labels_of_history (option_copied checkpoint.entry) history.now)) }
{
    let mut labels = first_labels(alloc, checkpoint)?;
    match follow_labels(&mut labels, history) {
        Ok(()) => Ok(labels),
        Err(refused) => Err(refused),
    }
}
