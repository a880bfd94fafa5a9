//! The lines of a history that begins from a checkpoint, before its events.

ghost use Rattle.std.specs.Prelude.{◌≡◌, ◌⊎◌, ◌↔◌, ◌≤◌, ◌<◌, ◌++◌, ◌∷◌, [], true, ℕ, IfOk, IfErr, OnOk, IsTrue, Some, length, option_map, string_bytes};
ghost use Rattle.stm_store.specs.Cells.{plains, Covers, IsStore};
ghost use Rattle.stm_store.specs.Naming.{named_uses, NumbersAreBelow};
ghost use Rattle.stm_machine.specs.Checkpoints.{MayAdd, checkpoint_block};
ghost use Rattle.stm_event_lines.specs.CheckpointLines.{FitsCell, FitsWaiting, cell_line, checkpoint_format, waiting_line};
ghost use Rattle.stm_history_text.specs.Starts.{is_plain_block};
ghost use Rattle.stm_history.specs.Checking.{MayRefuse};
ghost use Rattle.stm_history.specs.Progress.{CheckerState, at_header, at_cells, at_blocks, IsCheckpointHead, LeadsToCells, MayBeNamed, with_name_of};
ghost use Rattle.stm_history.specs.Progress.{with_blocks as progress_with_blocks, with_cells as progress_with_cells};
ghost use Rattle.stm_history.specs.Stages.{keeps, IsStage, LeadsToStage};

use crate::check::{MAX_CELLS, Stage};
use crate::fault::HistoryFault;
use crate::replayer::Replayer;
use std::alloc::Global;
use stm_event_lines::checkpoint::{
    CheckpointHeader, NamedCell, WaitingBlock, read_cell, read_checkpoint_header, read_waiting,
};
use stm_event_lines::formats::CHECKPOINT_FORMAT;
use stm_event_lines::read::LineError;
use stm_machine::checkpoint::{AddError, Checkpoint};
use stm_machine::machine::Machine;
use stm_store::{Cell, Names, Seed, Store, StoreError, Table};
use stm_terms::NoMemory;
use stm_terms::kinds::Ty;

/// The most waiting blocks of a checkpoint.
const MAX_WAITING: u32 = Machine::MAX_WAITING as u32;

/// The fault of a line before the events that can't be read.
pub(crate) fn head_refused(error: LineError) -> HistoryFault
    ensures { (error ≡ LineError.NoMemory → result ≡ HistoryFault.NoMemory)
        × (error ≡ LineError.Bad → result ≡ HistoryFault.BadHeader) }
{
    match error {
        LineError::Bad => HistoryFault::BadHeader,
        LineError::NoMemory => HistoryFault::NoMemory,
    }
}

/// The stage in a format if this many waiting blocks were announced and the checkpoint has those that were read.
fn with_blocks(
    alloc: Global,
    seed: Seed,
    keep: bool,
    format: u32,
    waiting: u32,
    checkpoint: Checkpoint,
) -> Result<Stage, HistoryFault>
    ensures stage { IfOk result (λ s. IsStage s (progress_with_blocks format waiting checkpoint)) }
    ensures err { IfErr result (λ e. e ≡ HistoryFault.NoMemory) }
    ensures keeps { IfOk result (λ s. keeps s ≡ keep) }
{
    if checkpoint.blocks().len() < waiting as usize {
        return Ok(Stage::AtBlocks {
            keep,
            format,
            waiting,
            checkpoint,
        });
    }
    match Replayer::open_from(alloc, &checkpoint, keep) {
        Ok(replayer) => Ok(Stage::Running {
            format,
            table: Table::with_seed(alloc, seed),
            checkpoint: Some(checkpoint),
            replayer,
        }),
        Err(_) => Err(HistoryFault::NoMemory),
    }
}

/// The stage if this was announced and these variables were read, of which some have these names. `BadHeader` if they are all that
/// were announced, but no store.
fn with_cells(
    alloc: Global,
    seed: Seed,
    keep: bool,
    header: CheckpointHeader,
    names: Names,
    cells: Vec<Cell>,
) -> Result<Stage, HistoryFault>
    requires head { IsCheckpointHead header.next header.vars header.waiting }
    requires few { length cells.items ≤ header.vars }
    requires named { Covers (plains cells.items) (named_uses names) }
    ensures stage { IfOk result (λ s. IsStage s
        (progress_with_cells header.format header.next header.vars header.waiting names cells.items)) }
    ensures store { OnOk result (length cells.items ≡ header.vars → IsStore (plains cells.items)) }
    ensures err { IfErr result (λ e. (e ≡ HistoryFault.NoMemory) ⊎ ((e ≡ HistoryFault.BadHeader)
        × (length cells.items ≡ header.vars) × (IsStore (plains cells.items) → ⊥))) }
    ensures keeps { IfOk result (λ s. keeps s ≡ keep) }
{
    if cells.len() < header.vars as usize {
        return Ok(Stage::AtCells {
            keep,
            header,
            names,
            cells,
        });
    }
    match Store::of_cells(alloc, cells) {
        Ok(store) => {
            let checkpoint = Checkpoint::new(alloc, store, names, header.next);
            with_blocks(alloc, seed, keep, header.format, header.waiting, checkpoint)
        }
        Err(StoreError::NotStore) => Err(HistoryFault::BadHeader),
        Err(StoreError::NoMemory) => Err(HistoryFault::NoMemory),
    }
}

/// Whether a checkpoint may have what its first line says.
pub(crate) fn is_head(header: &CheckpointHeader) -> bool
    ensures { IsTrue result ↔ IsCheckpointHead header.now.next header.now.vars header.now.waiting }
{
    0 < header.next
        && header.next <= Checkpoint::MAX_NEXT
        && header.vars <= MAX_CELLS
        && header.waiting <= MAX_WAITING
}

/// Takes the first line of a history from a checkpoint.
pub(crate) fn take_checkpoint_header(
    alloc: Global,
    seed: Seed,
    keep: bool,
    line: &[u8],
) -> Result<Stage, HistoryFault>
    ensures leads { IfOk result (λ s. LeadsToStage at_header line.now s) }
    ensures refused { IfErr result (λ e. (e ≡ HistoryFault.NoMemory) ⊎ ((e ≡ HistoryFault.BadHeader)
        × ((q : CheckerState) → LeadsToCells line.now q → ⊥))) }
    ensures keeps { IfOk result (λ s. keeps s ≡ keep) }
{
    match read_checkpoint_header(alloc, line) {
        Ok(header) => {
            if is_head(&header) {
                let names = Names::with_seed(alloc, seed);
                with_cells(alloc, seed, keep, header, names, Vec::new(alloc))
            } else {
                Err(HistoryFault::BadHeader)
            }
        }
        Err(error) => Err(head_refused(error)),
    }
}

/// Whether the variable of this number may have the name.
fn may_have_name(format: u32, names: &Names, number: u32, name: &str, kind: Ty) -> bool
    ensures { IsTrue result ↔ MayBeNamed format names.now number (Some name.now) kind }
{
    (format != CHECKPOINT_FORMAT || names.len() == number as usize)
        && names.find(name).is_none()
        && names.may_have_type(kind)
}

/// Whether the variable of this number may have its name, if it has one.
pub(crate) fn may_be_named(format: u32, names: &Names, number: u32, cell: &NamedCell) -> bool
    ensures { IsTrue result ↔ MayBeNamed format names.now number
        (option_map string_bytes cell.now.name) cell.now.cell.kind }
{
    match &cell.name {
        Some(name) => may_have_name(format, names, number, name.as_str(), cell.cell.kind),
        None => true,
    }
}

/// Adds the name of the variable of this number, if it has one.
fn name_cell(names: &mut Names, number: u32, cell: &NamedCell) -> Result<(), NoMemory>
    requires fits { FitsCell (option_map string_bytes cell.now.name) cell.now.cell }
    requires named { (format : ℕ) × MayBeNamed format names.old number
        (option_map string_bytes cell.now.name) cell.now.cell.kind }
    requires above { NumbersAreBelow number names.old }
    ensures { OnOk result (names.new ≡ with_name_of names.old number
        (option_map string_bytes cell.now.name) cell.now.cell.kind) }
{
    match &cell.name {
        Some(name) => names.add(name.as_str(), number, cell.cell.kind),
        None => Ok(()),
    }
}

/// Takes a variable that was read from its line.
fn take_named(
    alloc: Global,
    seed: Seed,
    keep: bool,
    header: CheckpointHeader,
    mut names: Names,
    mut cells: Vec<Cell>,
    cell: NamedCell,
) -> Result<Stage, HistoryFault>
    requires fits { FitsCell (option_map string_bytes cell.name) cell.cell }
    requires head { IsCheckpointHead header.next header.vars header.waiting }
    requires few { length cells.items < header.vars }
    requires named { Covers (plains cells.items) (named_uses names) }
    ensures leads { IfOk result (λ s. LeadsToStage
        (at_cells header.format header.next header.vars header.waiting names cells.items)
        (cell_line (option_map string_bytes cell.name) cell.cell) s) }
    ensures refused { IfErr result (λ e. MayRefuse
        (at_cells header.format header.next header.vars header.waiting names cells.items)
        (cell_line (option_map string_bytes cell.name) cell.cell) e) }
    ensures keeps { IfOk result (λ s. keeps s ≡ keep) }
{
    let number = cells.len() as u32;
    if !may_be_named(header.format, &names, number, &cell) {
        return Err(HistoryFault::BadHeader);
    }
    match name_cell(&mut names, number, &cell) {
        Ok(()) => {}
        Err(_) => return Err(HistoryFault::NoMemory),
    }
    match cells.push(cell.cell) {
        Ok(()) => with_cells(alloc, seed, keep, header, names, cells),
        Err(_) => Err(HistoryFault::NoMemory),
    }
}

/// Takes the line of a checkpoint's variable.
pub(crate) fn take_cell(
    alloc: Global,
    seed: Seed,
    keep: bool,
    header: CheckpointHeader,
    names: Names,
    cells: Vec<Cell>,
    line: &[u8],
) -> Result<Stage, HistoryFault>
    requires head { IsCheckpointHead header.next header.vars header.waiting }
    requires few { length cells.items < header.vars }
    requires named { Covers (plains cells.items) (named_uses names) }
    ensures leads { IfOk result (λ s. LeadsToStage
        (at_cells header.format header.next header.vars header.waiting names cells.items) line.now s) }
    ensures refused { IfErr result (λ e. MayRefuse
        (at_cells header.format header.next header.vars header.waiting names cells.items) line.now e) }
    ensures keeps { IfOk result (λ s. keeps s ≡ keep) }
{
    match read_cell(alloc, line) {
        Ok(cell) => take_named(alloc, seed, keep, header, names, cells, cell),
        Err(error) => Err(head_refused(error)),
    }
}

/// Whether the waiting block may have its cause and its label, if it has them, in the format.
pub(crate) fn may_have_format(format: u32, block: &WaitingBlock) -> bool
    ensures { IsTrue result ↔ (format ≡ checkpoint_format → is_plain_block block.now.cause block.now.label ≡ true) }
{
    format != CHECKPOINT_FORMAT || (block.cause.is_none() && block.label.as_str().is_empty())
}

/// Adds the waiting block to the checkpoint.
pub(crate) fn add_block(
    alloc: Global,
    checkpoint: &mut Checkpoint,
    block: WaitingBlock,
) -> Result<(), HistoryFault>
    ensures done { OnOk result (MayAdd checkpoint.old (checkpoint_block block.ticket block.block block.delivery block.cause block.label)
        × (checkpoint.new ≡ record checkpoint.old {
          blocks = checkpoint.old.blocks
              ++ checkpoint_block block.ticket block.block block.delivery block.cause block.label ∷ [];
        })) }
    ensures refused { IfErr result (λ e. (e ≡ HistoryFault.NoMemory) ⊎ ((e ≡ HistoryFault.BadHeader)
        × (MayAdd checkpoint.old (checkpoint_block block.ticket block.block block.delivery block.cause block.label) → ⊥))) }
{
    let WaitingBlock {
        ticket,
        block,
        cause,
        label,
        delivery,
    } = block;
    match checkpoint.add(alloc, ticket, block, delivery, cause, label) {
        Ok(()) => Ok(()),
        Err(AddError::NotPossible) => Err(HistoryFault::BadHeader),
        Err(AddError::NoMemory) => Err(HistoryFault::NoMemory),
    }
}

/// Takes a waiting block that was read from its line.
fn take_added(
    alloc: Global,
    seed: Seed,
    keep: bool,
    format: u32,
    waiting: u32,
    mut checkpoint: Checkpoint,
    block: WaitingBlock,
) -> Result<Stage, HistoryFault>
    requires { FitsWaiting checkpoint.names block.ticket block.block block.cause block.label block.delivery }
    ensures leads { IfOk result (λ s. LeadsToStage (at_blocks format waiting checkpoint)
        (waiting_line block.ticket block.block.text block.cause block.label block.delivery) s) }
    ensures refused { IfErr result (λ e. MayRefuse (at_blocks format waiting checkpoint)
        (waiting_line block.ticket block.block.text block.cause block.label block.delivery) e) }
    ensures keeps { IfOk result (λ s. keeps s ≡ keep) }
{
    if !may_have_format(format, &block) {
        return Err(HistoryFault::BadHeader);
    }
    match add_block(alloc, &mut checkpoint, block) {
        Ok(()) => with_blocks(alloc, seed, keep, format, waiting, checkpoint),
        Err(fault) => Err(fault),
    }
}

/// Takes the line of a checkpoint's waiting block.
pub(crate) fn take_block(
    alloc: Global,
    seed: Seed,
    keep: bool,
    format: u32,
    waiting: u32,
    checkpoint: Checkpoint,
    line: &[u8],
) -> Result<Stage, HistoryFault>
    ensures leads { IfOk result (λ s. LeadsToStage (at_blocks format waiting checkpoint) line.now s) }
    ensures refused { IfErr result (λ e. MayRefuse (at_blocks format waiting checkpoint) line.now e) }
    ensures keeps { IfOk result (λ s. keeps s ≡ keep) }
{
    match read_waiting(alloc, checkpoint.names(), line) {
        Ok(block) => take_added(alloc, seed, keep, format, waiting, checkpoint, block),
        Err(error) => Err(head_refused(error)),
    }
}
