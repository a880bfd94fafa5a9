//! A line that is not accepted, explained at the stage before it.

ghost use Rattle.std.specs.Prelude.{◌≡◌, ◌↔◌, ◌+◌, ◌++◌, ◌∷◌, [], ◌<◌, ℕ, List, IfOk, IsTrue, length, option_map, string_bytes};
ghost use Rattle.stm_store.specs.Cells.{plains, IsStore};
ghost use Rattle.stm_store.specs.Naming.{Named};
ghost use Rattle.stm_events.specs.declared.event.Event.{Event as AnyEvent};
ghost use Rattle.stm_terms.specs.Limits.{max_clients};
ghost use Rattle.stm_terms.specs.declared.verdicts.Verdict.TheVariants.{Throws};
ghost use Rattle.stm_machine.specs.Machine.{event};
ghost use Rattle.stm_history.specs.Progress.{CheckerState, at_header, at_variables, at_cells, at_blocks, at_events};
ghost use Rattle.stm_history.specs.Expecting.{HasCheckedBlock, IsLineOf, IsShortOr};
ghost use Rattle.stm_history.specs.Explanation.{Explains, ExplainsEvent, ExplainsHead};
ghost use Rattle.stm_event_lines.specs.CheckpointLines.{FitsCell, FitsWaiting, IsCheckpointFormat, cell_line};
ghost use Rattle.stm_event_lines.specs.Fits.{FitsNames, FitsVerdict, FitNews, FitsVariable, WhatFitsNames};
ghost use Rattle.stm_history.specs.Following.{Follows};
ghost use Rattle.stm_history_text.specs.Starts.{Start, names_after};
ghost use Rattle.stm_event_lines.specs.Lines.{IsFormat, variable_line};
ghost use Rattle.stm_history.specs.Stages.{CountsWithinLimits, IsStage};
ghost use Rattle.stm_event_lines.specs.ReadLines.{declared};

use crate::beginning::{add_block, is_head, may_be_named, may_have_format};
use crate::check::{MAX_CELLS, MAX_LINE, Stage};
use crate::expecting::Expectation;
use crate::explanation::Explanation;
use crate::fault::HistoryFault;
use crate::replayer::Replayer;
use std::alloc::Global;
use std::mem;
use stm_event_lines::checkpoint::{
    CheckpointHeader, NamedCell, WaitingBlock, cell_text, checkpoint_header_text, name_of_cell,
    waiting_text,
};
use stm_event_lines::drafted::{
    number_in_range, numbers_in_range, value_in_range, writes_in_range,
};
use stm_event_lines::formats::fits_format;
use stm_event_lines::loose::{
    loose_cell, loose_checkpoint_header, loose_event, loose_header, loose_variable, loose_waiting,
};
use stm_event_lines::read::Header;
use stm_event_lines::variable::Variable;
use stm_event_lines::write::{event_text, header_text, variable_text};
use stm_events::event::{Event, What};
use stm_events::label::is_label;
use stm_events::shared_verdict::SharedVerdict;
use stm_machine::checkpoint::Checkpoint;
use stm_store::{Cell, DeclareError, Names, Store, StoreError, Table};
use stm_terms::kinds::Ty;
use stm_terms::values::{Fault, Value};
use stm_terms::verdicts::Verdict;
use stm_terms::{NoMemory, is_name};

/// The most `TVar` of a type in a line.
const MOST_REFS: u8 = 8;

/// Whether the types of new variables can be in a line. Their values can.
fn fit_news(news: &[(Ty, Value)]) -> bool
    ensures { IsTrue result ↔ FitNews news.now }
{
    match news.split_first() {
        None => true,
        Some((first, rest)) => {
            value_in_range(first.1);
            first.0.refs <= MOST_REFS && fit_news(rest)
        }
    }
}

// Any number that is thrown is in range, by its type.
fn fault_in_range(fault: Fault)
    ensures { FitsVerdict (Throws fault) }
{
    match fault {
        Fault::Thrown(_) => {}
        Fault::Overflow => {}
    }
}

/// Whether the verdict can be in a line.
fn fits_verdict(verdict: &Verdict) -> bool
    ensures { IsTrue result ↔ FitsVerdict verdict.now }
{
    match verdict {
        Verdict::Commits {
            writes,
            news,
            result,
        } => {
            writes_in_range(writes.as_slice());
            value_in_range(*result);
            fit_news(news.as_slice())
        }
        Verdict::Throws(fault) => {
            fault_in_range(*fault);
            true
        }
        Verdict::Blocks => true,
    }
}

fn fits_shared(verdict: &SharedVerdict) -> bool
    ensures { IsTrue result ↔ FitsVerdict verdict.now }
{
    let blocks = Verdict::Blocks;
    fits_verdict(verdict.get(&blocks))
}

/// Whether what happens can be in a line over names to which its block was checked.
fn fits_line(what: &What) -> bool
    ensures { (names : List Named) → HasCheckedBlock names what.now
        → (IsTrue result ↔ WhatFitsNames names what.now) }
{
    match what {
        What::Submitted { ticket, .. } => {
            number_in_range(*ticket);
            true
        }
        What::Installed { ticket, verdict } => {
            number_in_range(*ticket);
            fits_shared(verdict)
        }
        What::Finished {
            ticket,
            verdict,
            first_new,
            stale,
        } => {
            number_in_range(*ticket);
            number_in_range(*first_new);
            numbers_in_range(stale.as_slice());
            fits_shared(verdict)
        }
        What::Cancelled { ticket } => {
            number_in_range(*ticket);
            true
        }
        What::Labelled { ticket, label } => {
            number_in_range(*ticket);
            is_label(label.as_str())
        }
        What::Declared { name, kind, value } => {
            value_in_range(*value);
            is_name(name.as_str()) && kind.refs <= MOST_REFS
        }
    }
}

/// The line, if it is no longer than one may be.
fn short_line(text: String) -> Explanation
    ensures { IsShortOr (string_bytes text) result }
{
    if text.len() <= MAX_LINE {
        Explanation::Expected(text)
    } else {
        Explanation::Unreadable
    }
}

/// The line of what is due, if it can be in the format.
fn due_line(alloc: Global, format: u32, event: &Event) -> Result<Explanation, NoMemory>
    ensures { IfOk result (λ x. (names : List Named) → event.now.client < max_clients
        → HasCheckedBlock names event.now.what → IsLineOf format names event.now x) }
{
    if !fits_format(format, event) {
        return Ok(Explanation::Unreadable);
    }
    if !fits_line(&event.what) {
        return Ok(Explanation::Unreadable);
    }
    let text = event_text(alloc, event)?;
    Ok(short_line(text))
}

/// The line of what is due from a client, if it can be in the format.
fn line_due(alloc: Global, format: u32, client: u32, what: What) -> Result<Explanation, NoMemory>
    ensures { IfOk result (λ x. (names : List Named) → client < max_clients
        → HasCheckedBlock names what → IsLineOf format names (event client what) x) }
{
    let event = Event { client, what };
    due_line(alloc, format, &event)
}

/// What is reported of a line that was read as the event.
fn explain_event(
    alloc: Global,
    format: u32,
    replayer: &mut Replayer,
    event: &Event,
) -> Result<Explanation, NoMemory>
    requires { (S : Start) × (H : List AnyEvent) × Follows S H replayer.old × FitsNames (names_after S H) event.now }
    ensures { IfOk result (λ x. (S : Start) (H : List AnyEvent) → S.format ≡ format
        → Follows S H replayer.old → FitsNames (names_after S H) event.now
        → ExplainsEvent S H event.now x) }
{
    match replayer.expect(event) {
        Ok(Expectation::Refuses(refusal)) => Ok(Explanation::Refused(refusal)),
        Ok(Expectation::Due(what)) => line_due(alloc, format, event.client, what),
        Err(refused) => Err(refused),
    }
}

/// What is reported of a line among the events.
fn explain_event_line(
    alloc: Global,
    format: u32,
    replayer: &mut Replayer,
    line: &[u8],
) -> Result<Explanation, NoMemory>
    requires { (S : Start) × (H : List AnyEvent) × Follows S H replayer.old }
    ensures { IfOk result (λ x. (S : Start) (H : List AnyEvent) → S.format ≡ format
        → Follows S H replayer.old → Explains (at_events S H) line.now x) }
{
    match loose_event(alloc, replayer.names(), line)? {
        Some(event) => explain_event(alloc, format, replayer, &event),
        None => Ok(Explanation::Unreadable),
    }
}

/// The first line of a table's history, if there may be as many variables.
fn header_due(alloc: Global, header: Header) -> Result<Explanation, NoMemory>
    requires { IsFormat header.format }
    ensures { IfOk result (λ x. ExplainsHead at_header x) }
{
    if header.vars > MAX_CELLS {
        return Ok(Explanation::Unreadable);
    }
    let text = header_text(alloc, header.format, header.vars)?;
    Ok(short_line(text))
}

/// The first line of a checkpoint's history, if it may say so.
fn checkpoint_header_due(alloc: Global, header: CheckpointHeader) -> Result<Explanation, NoMemory>
    requires { IsCheckpointFormat header.format }
    ensures { IfOk result (λ x. ExplainsHead at_header x) }
{
    if !is_head(&header) {
        return Ok(Explanation::Unreadable);
    }
    let text = checkpoint_header_text(
        alloc,
        header.format,
        header.next,
        header.vars,
        header.waiting,
    )?;
    Ok(short_line(text))
}

/// What is reported of a line before the first, if it is no first line of a table's history.
fn explain_checkpoint_header(alloc: Global, line: &[u8]) -> Result<Explanation, NoMemory>
    ensures { IfOk result (λ x. ExplainsHead at_header x) }
{
    match loose_checkpoint_header(alloc, line)? {
        Some(header) => checkpoint_header_due(alloc, header),
        None => Ok(Explanation::Unreadable),
    }
}

/// What is reported of a line before the first.
fn explain_header(alloc: Global, line: &[u8]) -> Result<Explanation, NoMemory>
    ensures { IfOk result (λ x. ExplainsHead at_header x) }
{
    match loose_header(alloc, line)? {
        Some(header) => header_due(alloc, header),
        None => explain_checkpoint_header(alloc, line),
    }
}

/// The line of a variable, if it is no longer than one may be.
fn variable_written(alloc: Global, variable: &Variable) -> Result<Explanation, NoMemory>
    ensures { IfOk result (λ x. IsShortOr (variable_line (declared variable.now)) x) }
{
    let text = variable_text(alloc, &variable.name, variable.kind, variable.value)?;
    Ok(short_line(text))
}

/// The line of a variable that may be declared.
fn variable_due(
    alloc: Global,
    table: &mut Table,
    variable: &Variable,
) -> Result<Explanation, NoMemory>
    requires { FitsVariable (declared variable.now) }
    ensures { IfOk result (λ x. (format n : ℕ)
        → ExplainsHead (at_variables format n table.old) x) }
{
    match table.declare(&variable.name, variable.kind, variable.value) {
        Ok(_) => variable_written(alloc, variable),
        Err(DeclareError::NoMemory) => Err(NoMemory),
        Err(_) => Ok(Explanation::Unreadable),
    }
}

/// What is reported of a line among the variables.
fn explain_variable(alloc: Global, table: &mut Table, line: &[u8]) -> Result<Explanation, NoMemory>
    ensures { IfOk result (λ x. (format n : ℕ)
        → ExplainsHead (at_variables format n table.old) x) }
{
    match loose_variable(alloc, line)? {
        Some(variable) => variable_due(alloc, table, &variable),
        None => Ok(Explanation::Unreadable),
    }
}

/// The line of a checkpoint's variable, if it is no longer than one may be.
fn cell_written(alloc: Global, cell: &NamedCell) -> Result<Explanation, NoMemory>
    ensures { IfOk result (λ x.
        IsShortOr (cell_line (option_map string_bytes cell.now.name) cell.now.cell) x) }
{
    let text = cell_text(alloc, name_of_cell(cell), cell.cell)?;
    Ok(short_line(text))
}

/// Whether the variables are a store.
fn is_store(alloc: Global, cells: Vec<Cell>) -> Result<bool, NoMemory>
    ensures { IfOk result (λ b. IsTrue b → IsStore (plains cells.items)) }
{
    match Store::of_cells(alloc, cells) {
        Ok(store) => {
            // It is known to be one by this.
            let _count = store.len();
            Ok(true)
        }
        Err(StoreError::NotStore) => Ok(false),
        Err(StoreError::NoMemory) => Err(NoMemory),
    }
}

/// Whether the variable may follow these, of as many as were announced: with the last one they have to be a store.
fn may_follow(alloc: Global, vars: u32, cells: &mut Vec<Cell>, cell: Cell) -> Result<bool, NoMemory>
    ensures { IfOk result (λ b. IsTrue b → length cells.old.items + 1 ≡ vars
        → IsStore (plains (cells.old.items ++ cell ∷ []))) }
{
    let mut all = mem::replace(cells, Vec::new(alloc));
    all.push(cell)?;
    if all.len() == vars as usize {
        is_store(alloc, all)
    } else {
        Ok(true)
    }
}

/// The line of a checkpoint's variable that may come next, of as many as were announced.
fn cell_due(
    alloc: Global,
    header: &CheckpointHeader,
    names: &Names,
    cells: &mut Vec<Cell>,
    cell: &NamedCell,
) -> Result<Explanation, NoMemory>
    requires fits { FitsCell (option_map string_bytes cell.now.name) cell.now.cell }
    requires few { length cells.old.items < header.now.vars }
    ensures { IfOk result (λ x. (next waiting : ℕ)
        → ExplainsHead (at_cells header.now.format next header.now.vars waiting names.now cells.old.items) x) }
{
    let vars = header.vars;
    if !may_be_named(header.format, names, cells.len() as u32, cell) {
        return Ok(Explanation::Unreadable);
    }
    let follows = may_follow(alloc, vars, cells, cell.cell)?;
    if follows {
        cell_written(alloc, cell)
    } else {
        Ok(Explanation::Unreadable)
    }
}

/// What is reported of a line among the variables of a checkpoint.
fn explain_cell(
    alloc: Global,
    header: &CheckpointHeader,
    names: &Names,
    cells: &mut Vec<Cell>,
    line: &[u8],
) -> Result<Explanation, NoMemory>
    requires { length cells.old.items < header.now.vars }
    ensures { IfOk result (λ x. (next waiting : ℕ)
        → ExplainsHead (at_cells header.now.format next header.now.vars waiting names.now cells.old.items) x) }
{
    match loose_cell(alloc, line)? {
        Some(cell) => cell_due(alloc, header, names, cells, &cell),
        None => Ok(Explanation::Unreadable),
    }
}

/// The line of a waiting block that may be added to the checkpoint.
fn block_due(
    alloc: Global,
    format: u32,
    checkpoint: &mut Checkpoint,
    block: WaitingBlock,
) -> Result<Explanation, NoMemory>
    requires { FitsWaiting checkpoint.old.names block.ticket block.block block.cause block.label block.delivery }
    ensures { IfOk result (λ x. (waiting : ℕ) → ExplainsHead (at_blocks format waiting checkpoint.old) x) }
{
    if !may_have_format(format, &block) {
        return Ok(Explanation::Unreadable);
    }
    let text = waiting_text(alloc, &block)?;
    match add_block(alloc, checkpoint, block) {
        Ok(()) => Ok(short_line(text)),
        Err(HistoryFault::NoMemory) => Err(NoMemory),
        Err(_) => Ok(Explanation::Unreadable),
    }
}

/// What is reported of a line among the waiting blocks of a checkpoint.
fn explain_block(
    alloc: Global,
    format: u32,
    checkpoint: &mut Checkpoint,
    line: &[u8],
) -> Result<Explanation, NoMemory>
    ensures { IfOk result (λ x. (waiting : ℕ) → ExplainsHead (at_blocks format waiting checkpoint.old) x) }
{
    match loose_waiting(alloc, checkpoint.names(), line)? {
        Some(block) => block_due(alloc, format, checkpoint, block),
        None => Ok(Explanation::Unreadable),
    }
}

/// What is reported of a line that is not accepted at this stage. Nothing is promised of the stage afterwards.
pub(crate) fn explain(
    alloc: Global,
    stage: &mut Stage,
    line: &[u8],
) -> Result<Explanation, NoMemory>
    requires { (p : CheckerState) × IsStage stage.old p × CountsWithinLimits p }
    ensures { IfOk result (λ x. (p : CheckerState) → IsStage stage.old p
        → Explains p line.now x) }
{
    match stage {
        Stage::Before { .. } => explain_header(alloc, line),
        Stage::Declaring { table, .. } => explain_variable(alloc, table, line),
        Stage::AtCells {
            header,
            names,
            cells,
            ..
        } => explain_cell(alloc, header, names, cells, line),
        Stage::AtBlocks {
            format,
            checkpoint,
            ..
        } => explain_block(alloc, *format, checkpoint, line),
        Stage::Running {
            format,
            replayer,
            ..
        } => explain_event_line(alloc, *format, replayer, line),
    }
}
