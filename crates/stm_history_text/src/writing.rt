//! Histories, written.

ghost use Rattle.std.specs.Prelude.{◌≡◌, ◌<◌, ◌++◌, ◌∷◌, [], IfOk, IfSome, Some, option_map, slice_get, length, string_bytes};
ghost use Rattle.std.specs.Option.{option_copied};
ghost use Rattle.stm_store.specs.Naming.{name_numbered};
ghost use Rattle.stm_event_lines.specs.CheckpointLines.{cell_line, checkpoint_header_line, parts_delivered};
ghost use Rattle.stm_event_lines.specs.Lines.{header_line};
ghost use Rattle.stm_history_text.specs.HistoryText.{block_line, block_lines, cell_lines, checkpoint_text, event_lines, head_text, history_text, start_text, variable_lines};
ghost use Rattle.stm_lines.specs.WrittenFronts.{WritesText};
ghost use Rattle.stm_history_text.specs.Starts.{are_plain_blocks, declares, delivery_of_block, format_for, format_of_start, is_declaration, is_labelling, labels_blocks, lent_start, written_start};

use std::alloc::Global;
use std::io::Write;
use stm_event_lines::checkpoint::{
    DeliveredParts, WaitingLine, cell_text, checkpoint_header_text, waiting_line_text,
};
use stm_event_lines::formats::{CHECKPOINT_FORMAT, DECLARING_FORMAT, TABLE_FORMAT};
use stm_event_lines::write::{event_text, header_text, variable_text};
use stm_events::event::{Event, What};
use stm_lines::output;
use stm_machine::checkpoint::{Checkpoint, CheckpointBlock};
use stm_store::{Cell, Names, Store, Table};
use stm_terms::NoMemory;

/// Why a history wasn't written whole. What was written is a part of it from its front.
#[derive(Clone, Copy, Debug, PartialEq, Eq, Drop)]
pub enum WriteFault {
    /// The writer failed, or took nothing.
    Write,
    /// Memory ran out.
    NoMemory,
}

/// Whether what happens is that a variable is declared.
fn is_declaration(what: &What) -> bool
    ensures { result ≡ is_declaration what.now }
{
    match what {
        What::Submitted { .. } => false,
        What::Installed { .. } => false,
        What::Finished { .. } => false,
        What::Cancelled { .. } => false,
        What::Declared { .. } => true,
        What::Labelled { .. } => false,
    }
}

/// Whether what happens is that a block gets a label.
fn is_labelling(what: &What) -> bool
    ensures { result ≡ is_labelling what.now }
{
    match what {
        What::Submitted { .. } => false,
        What::Installed { .. } => false,
        What::Finished { .. } => false,
        What::Cancelled { .. } => false,
        What::Declared { .. } => false,
        What::Labelled { .. } => true,
    }
}

/// Whether some event declares a variable.
fn declares(history: &[Event]) -> bool
    ensures { result ≡ declares history.now }
{
    history.iter().any(|event| is_declaration(&event.what))
}

/// Whether some event gives a label.
fn labels_blocks(history: &[Event]) -> bool
    ensures { result ≡ labels_blocks history.now }
{
    history.iter().any(|event| is_labelling(&event.what))
}

/// Whether each of the waiting blocks can stand in format 4: it has no label, and it isn't known why it is stale.
fn are_plain_blocks(blocks: &[CheckpointBlock]) -> bool
    ensures { result ≡ are_plain_blocks blocks.now }
{
    blocks.iter().all(|block| block.cause.is_none() && block.label.as_str().is_empty())
}

/// The format of a start whose history declares no variable and labels no block.
fn format_of_start(checkpoint: Option<&Checkpoint>) -> u32
    ensures { result ≡ format_of_start (option_copied checkpoint.entry) }
{
    match checkpoint {
        None => TABLE_FORMAT,
        Some(checkpoint) => {
            if checkpoint.names().is_gapless() && are_plain_blocks(checkpoint.blocks()) {
                CHECKPOINT_FORMAT
            } else {
                DECLARING_FORMAT
            }
        }
    }
}

/// The format in which a history is written: 5 if an event declares a variable or labels a block, or if the checkpoint has a name after
/// a variable without one, a block with a label, or one of which it is known why it is stale; otherwise 4 with a checkpoint and 3 without.
pub fn format_for(checkpoint: Option<&Checkpoint>, history: &[Event]) -> u32
    ensures { result ≡ format_for (option_copied checkpoint.entry) history.now }
{
    if declares(history) || labels_blocks(history) {
        DECLARING_FORMAT
    } else {
        format_of_start(checkpoint)
    }
}

/// Writes all of a text, or a part from its front.
fn write_text<W: Write>(writer: &mut W, text: &[u8]) -> Result<(), WriteFault>
    ensures { WritesText result (W.contents writer.old) (W.contents writer.new) text.now }
{
    match output::write_text(writer, text) {
        Ok(()) => Ok(()),
        Err(_) => Err(WriteFault::Write),
    }
}

/// Writes a line and its line feed.
pub fn write_line<W: Write>(writer: &mut W, mut line: String) -> Result<(), WriteFault>
    ensures { WritesText result (W.contents writer.old) (W.contents writer.new)
        (string_bytes line ++ 10 ∷ []) }
{
    if line.push('\n').is_err() {
        return Err(WriteFault::NoMemory);
    }
    write_text(writer, line.as_bytes())
}

fn write_variable<W: Write>(
    alloc: Global,
    writer: &mut W,
    table: &Table,
    id: u32,
) -> Result<(), WriteFault>
    requires { id < length table.now }
    ensures { IfSome (slice_get table.now id) (λ d.
        WritesText result (W.contents writer.old) (W.contents writer.new)
        (variable_lines (d ∷ []))) }
{
    match variable_text(alloc, table.name(id), table.kind(id), table.value(id)) {
        Ok(line) => write_line(writer, line),
        Err(_) => Err(WriteFault::NoMemory),
    }
}

fn write_event<W: Write>(alloc: Global, writer: &mut W, event: &Event) -> Result<(), WriteFault>
    ensures { WritesText result (W.contents writer.old) (W.contents writer.new)
        (event_lines (event.now ∷ [])) }
{
    match event_text(alloc, event) {
        Ok(line) => write_line(writer, line),
        Err(_) => Err(WriteFault::NoMemory),
    }
}

fn write_header<W: Write>(
    alloc: Global,
    writer: &mut W,
    format: u32,
    vars: u32,
) -> Result<(), WriteFault>
    ensures { WritesText result (W.contents writer.old) (W.contents writer.new)
        (header_line format vars ++ 10 ∷ []) }
{
    match header_text(alloc, format, vars) {
        Ok(line) => write_line(writer, line),
        Err(_) => Err(WriteFault::NoMemory),
    }
}

fn write_variables<W: Write>(alloc: Global, writer: &mut W, table: &Table) -> Result<(), WriteFault>
    ensures { WritesText result (W.contents writer.old) (W.contents writer.new)
        (variable_lines table.now) }
{
    for id in 0..table.len() {
        match write_variable(alloc, writer, table, id as u32) {
            Ok(()) => {}
            Err(fault) => return Err(fault),
        }
    }
    Ok(())
}

/// Writes the lines of events.
pub fn write_events<W: Write>(
    alloc: Global,
    writer: &mut W,
    history: &[Event],
) -> Result<(), WriteFault>
    ensures { WritesText result (W.contents writer.old) (W.contents writer.new)
        (event_lines history.now) }
{
    for event in history {
        match write_event(alloc, writer, event) {
            Ok(()) => {}
            Err(fault) => return Err(fault),
        }
    }
    Ok(())
}

/// Writes the lines of a table, in a format.
fn write_table<W: Write>(
    alloc: Global,
    writer: &mut W,
    format: u32,
    table: &Table,
) -> Result<(), WriteFault>
    ensures { WritesText result (W.contents writer.old) (W.contents writer.new)
        (head_text format (length table.now) table.now) }
{
    match write_header(alloc, writer, format, table.len() as u32) {
        Ok(()) => {}
        Err(fault) => return Err(fault),
    }
    match write_variables(alloc, writer, table) {
        Ok(()) => Ok(()),
        Err(fault) => Err(fault),
    }
}

fn cell_at(store: &Store, id: u32) -> Cell
    requires { id < length store.now }
    ensures { slice_get store.now id ≡ Some result }
{
    Cell {
        kind: store.kind(id),
        value: store.value(id),
        count: store.count(id),
    }
}

fn write_cell<W: Write>(
    alloc: Global,
    writer: &mut W,
    names: &Names,
    store: &Store,
    id: u32,
) -> Result<(), WriteFault>
    requires { id < length store.now }
    ensures { IfSome (slice_get store.now id) (λ c.
        WritesText result (W.contents writer.old) (W.contents writer.new)
        (cell_line (name_numbered id names.now) c ++ 10 ∷ [])) }
{
    match cell_text(alloc, names.name_of(id), cell_at(store, id)) {
        Ok(line) => write_line(writer, line),
        Err(_) => Err(WriteFault::NoMemory),
    }
}

/// Writes the lines of a store's variables, with these names.
fn write_cells<W: Write>(
    alloc: Global,
    writer: &mut W,
    names: &Names,
    store: &Store,
) -> Result<(), WriteFault>
    ensures { WritesText result (W.contents writer.old) (W.contents writer.new)
        (cell_lines names.now store.now) }
{
    for id in 0..store.len() {
        match write_cell(alloc, writer, names, store, id as u32) {
            Ok(()) => {}
            Err(fault) => return Err(fault),
        }
    }
    Ok(())
}

/// What the last delivery to a block brought, if there was one.
fn delivered_to(block: &CheckpointBlock) -> Option<DeliveredParts<'_>>
    ensures { option_map parts_delivered result ≡ delivery_of_block block.now }
{
    match &block.waiting.held {
        None => None,
        Some(held) => Some(DeliveredParts {
            reads: held.reads.as_slice(),
            verdict: &held.verdict,
            stale: block.stale,
        }),
    }
}

fn block_text(alloc: Global, block: &CheckpointBlock) -> Result<String, NoMemory>
    ensures { IfOk result (λ s. string_bytes s ≡ block_line block.now) }
{
    waiting_line_text(&WaitingLine {
        alloc,
        ticket: block.ticket,
        text: block.waiting.block.block().text(),
        cause: block.cause.as_ref(),
        label: block.label.as_str(),
        delivery: delivered_to(block),
    })
}

fn write_block<W: Write>(
    alloc: Global,
    writer: &mut W,
    block: &CheckpointBlock,
) -> Result<(), WriteFault>
    ensures { WritesText result (W.contents writer.old) (W.contents writer.new)
        (block_lines (block.now ∷ [])) }
{
    match block_text(alloc, block) {
        Ok(line) => write_line(writer, line),
        Err(_) => Err(WriteFault::NoMemory),
    }
}

fn write_blocks<W: Write>(
    alloc: Global,
    writer: &mut W,
    blocks: &[CheckpointBlock],
) -> Result<(), WriteFault>
    ensures { WritesText result (W.contents writer.old) (W.contents writer.new)
        (block_lines blocks.now) }
{
    for block in blocks {
        match write_block(alloc, writer, block) {
            Ok(()) => {}
            Err(fault) => return Err(fault),
        }
    }
    Ok(())
}

/// Writes the first line of a checkpoint.
fn write_checkpoint_header<W: Write>(
    alloc: Global,
    writer: &mut W,
    format: u32,
    next: u32,
    vars: u32,
    waiting: u32,
) -> Result<(), WriteFault>
    ensures { WritesText result (W.contents writer.old) (W.contents writer.new)
        (checkpoint_header_line format next vars waiting ++ 10 ∷ []) }
{
    match checkpoint_header_text(alloc, format, next, vars, waiting) {
        Ok(line) => write_line(writer, line),
        Err(_) => Err(WriteFault::NoMemory),
    }
}

/// Writes the lines of a checkpoint, in a format.
fn write_checkpoint<W: Write>(
    alloc: Global,
    writer: &mut W,
    format: u32,
    checkpoint: &Checkpoint,
) -> Result<(), WriteFault>
    ensures { WritesText result (W.contents writer.old) (W.contents writer.new)
        (checkpoint_text format (length checkpoint.now.blocks) checkpoint.now) }
{
    // The waiting blocks are known to be few by this.
    let next = checkpoint.next();
    let names = checkpoint.names();
    let store = checkpoint.store();
    let blocks = checkpoint.blocks();
    let vars = store.len() as u32;
    let waiting = blocks.len() as u32;
    match write_checkpoint_header(alloc, writer, format, next, vars, waiting) {
        Ok(()) => {}
        Err(fault) => return Err(fault),
    }
    match write_cells(alloc, writer, names, store) {
        Ok(()) => {}
        Err(fault) => return Err(fault),
    }
    match write_blocks(alloc, writer, blocks) {
        Ok(()) => Ok(()),
        Err(fault) => Err(fault),
    }
}

/// Writes the lines before the events, in a format: those of a table, or those of a checkpoint. Any format is written; the text is read
/// again only in one of `FormatFits`: 1, 2, 3 or 5 without a checkpoint, and 5 or that of `format_for` with one.
pub fn write_start<W: Write>(
    alloc: Global,
    writer: &mut W,
    format: u32,
    table: &Table,
    checkpoint: Option<&Checkpoint>,
) -> Result<(), WriteFault>
    // The whole text was written, or after a fault a part from its front.
    ensures { WritesText result (W.contents writer.old) (W.contents writer.new)
        (start_text (lent_start format table.now checkpoint.entry)) }
{
    match checkpoint {
        None => write_table(alloc, writer, format, table),
        Some(checkpoint) => write_checkpoint(alloc, writer, format, checkpoint),
    }
}

/// Writes a whole history, in the format of `format_for`: the lines of a table or of a checkpoint, and those of the events.
pub fn write_history<W: Write>(
    alloc: Global,
    writer: &mut W,
    table: &Table,
    checkpoint: Option<&Checkpoint>,
    history: &[Event],
) -> Result<(), WriteFault>
    // The whole text was written, or after a fault a part from its front.
    ensures { WritesText result (W.contents writer.old) (W.contents writer.new)
        (history_text (written_start table.now (option_copied checkpoint.entry) history.now) history.now) }
{
    let format = format_for(checkpoint, history);
    match write_start(alloc, writer, format, table, checkpoint) {
        Ok(()) => {}
        Err(fault) => return Err(fault),
    }
    match write_events(alloc, writer, history) {
        Ok(()) => Ok(()),
        Err(fault) => Err(fault),
    }
}
