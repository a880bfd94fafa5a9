//! Lines read whether or not their JSON is written as it has to be: with blanks, and with keys in another order.

ghost use Rattle.std.specs.Prelude.{◌≡◌, ◌≤◌, ◌<◌, ◌^◌, ℕ, ◌&&◌, nat_eq, is_some, false, List, Option, Some, IfOk, IfSome, option_map, string_bytes, codes};
ghost use Rattle.serde_json.specs.Find.{get};
ghost use Rattle.serde_json.specs.View.{view};
ghost use Rattle.stm_store.specs.declared.cell.Cell.{Cell as AnyCell};
ghost use Rattle.stm_store.specs.Tables.{Declared};
ghost use Rattle.stm_terms.specs.Limits.{most_refs};
ghost use Rattle.stm_event_lines.specs.declared.read.Header.{Header as AnyHeader};
ghost use Rattle.stm_event_lines.specs.CheckpointFields.{cell_of as cell_meant, checkpoint_header_in};
ghost use Rattle.stm_event_lines.specs.CheckpointLines.{IsCheckpointFormat, line_of_cell, line_of_checkpoint_header, line_of_waiting, FitsCell, FitsCheckpointHeader, FitsNamedCell, FitsWaitingBlock};
ghost use Rattle.stm_event_lines.specs.Fields.{declared_from_json as variable_meant, event_of as event_meant, header_of as header_meant};
ghost use Rattle.stm_event_lines.specs.Fits.{Is32Bit, FitsHeader, FitsNames, FitsValue, FitsVariable};
ghost use Rattle.stm_event_lines.specs.Lines.{declaring_format, event_line, line_of_header, variable_line};
ghost use Rattle.stm_event_lines.specs.ReadLines.{CanBeReadAs, IsEventOfJson, cell_parts, declared};

use crate::checkpoint::{
    CheckpointHeader, NamedCell, WaitingBlock, cell_of, header_of as checkpoint_header_of,
    is_fit_name, name_of_cell, waiting_of,
};
use crate::formats::{DECLARING_FORMAT, is_checkpoint_format, is_format};
use crate::read::{Header, LineError, event_of, header_of, json_of, variable_of};
use crate::variable::Variable;
use serde_json::Value as Json;
use std::alloc::Global;
use stm_events::event::Event;
use stm_source::BlockCache;
use stm_store::Names;
use stm_terms::{NoMemory, is_name};

/// The event that the value represents, if it does. No block is kept for another.
fn only_event_of(alloc: Global, known: &Names, json: &Json) -> Result<Option<Event>, NoMemory>
    ensures value { IfOk result (λ o. o ≡ event_meant known.now (view json.now)) }
    ensures fits { IfOk result (λ o. IfSome o (λ e. FitsNames known.now e)) }
{
    let mut blocks = BlockCache::new(alloc, known)?;
    event_of(alloc, known, json, &mut blocks)
}

/// The event that a line can be read as.
pub fn loose_event(alloc: Global, known: &Names, line: &[u8]) -> Result<Option<Event>, NoMemory>
    // It can be in a line over the names; and the line of an event is read as that event.
    ensures read { IfOk result (CanBeReadAs (FitsNames known.now) event_line line.now) }
    // It is the event that the line's JSON stands for, however it is written.
    ensures meant { IfOk result (IsEventOfJson known.now line.now) }
{
    match json_of(alloc, line) {
        Ok(json) => only_event_of(alloc, known, &json),
        Err(LineError::Bad) => Ok(None),
        Err(LineError::NoMemory) => Err(NoMemory),
    }
}

/// Whether a first line of the format is a checkpoint's: in format 5 it is if it has a next ticket.
fn is_of_checkpoint(json: &Json, format: u32) -> bool
    ensures { result ≡ (nat_eq format declaring_format && is_some (get (codes "next") (view json.now))) }
{
    format == DECLARING_FORMAT && json.get("next").is_some()
}

/// The first line that a value represents, if it is one of a format that is read.
fn header_read(json: &Json) -> Option<Header>
    ensures fits { IfSome result FitsHeader }
    ensures same { (h : AnyHeader) → FitsHeader h → header_meant (view json.now) ≡ Some h
        → is_some (get (codes "next") (view json.now)) ≡ false → result ≡ Some h }
{
    match header_of(json) {
        Some(header) => {
            if is_format(header.format) && !is_of_checkpoint(json, header.format) {
                Some(header)
            } else {
                None
            }
        }
        None => None,
    }
}

/// The first line that a line can be read as, of a format that is read.
pub fn loose_header(alloc: Global, line: &[u8]) -> Result<Option<Header>, NoMemory>
    ensures { IfOk result (CanBeReadAs FitsHeader line_of_header line.now) }
{
    match json_of(alloc, line) {
        Ok(json) => Ok(header_read(&json)),
        Err(LineError::Bad) => Ok(None),
        Err(LineError::NoMemory) => Err(NoMemory),
    }
}

/// The variable, if its name is one.
fn named(variable: Variable) -> Option<Variable>
    requires { (variable.kind.refs ≤ most_refs) × FitsValue variable.value }
    ensures fits { IfSome result (λ v. FitsVariable (declared v)) }
    ensures same { FitsVariable (declared variable) → result ≡ Some variable }
{
    if is_name(&variable.name) {
        Some(variable)
    } else {
        None
    }
}

/// The variable that a value represents, if it has a name.
fn variable_read(alloc: Global, json: &Json) -> Result<Option<Variable>, NoMemory>
    ensures fits { IfOk result (λ o. IfSome o (λ v. FitsVariable (declared v))) }
    ensures same { IfOk result (λ o. (d : Declared) → FitsVariable d
        → variable_meant (view json.now) ≡ Some d → option_map declared o ≡ Some d) }
{
    match variable_of(alloc, json)? {
        Some(variable) => Ok(named(variable)),
        None => Ok(None),
    }
}

/// The variable that a line can be read as.
pub fn loose_variable(alloc: Global, line: &[u8]) -> Result<Option<Variable>, NoMemory>
    ensures { IfOk result (λ o. CanBeReadAs FitsVariable variable_line line.now (option_map declared o)) }
{
    match json_of(alloc, line) {
        Ok(json) => variable_read(alloc, &json),
        Err(LineError::Bad) => Ok(None),
        Err(LineError::NoMemory) => Err(NoMemory),
    }
}

/// The first line of a checkpoint that a value represents, if its format is one of checkpoints.
fn checkpoint_header_read(json: &Json) -> Option<CheckpointHeader>
    ensures value { result ≡ checkpoint_header_in (view json.now) }
    ensures format { IfSome result (λ h. IsCheckpointFormat h.format) }
    ensures fits { IfSome result (λ h. Is32Bit h.next × Is32Bit h.vars × Is32Bit h.waiting) }
{
    let header = checkpoint_header_of(json)?;
    if is_checkpoint_format(header.format) {
        Some(header)
    } else {
        None
    }
}

/// The first line of a checkpoint that a line can be read as.
pub fn loose_checkpoint_header(
    alloc: Global,
    line: &[u8],
) -> Result<Option<CheckpointHeader>, NoMemory>
    ensures { IfOk result (CanBeReadAs FitsCheckpointHeader line_of_checkpoint_header line.now) }
{
    match json_of(alloc, line) {
        Ok(json) => Ok(checkpoint_header_read(&json)),
        Err(LineError::Bad) => Ok(None),
        Err(LineError::NoMemory) => Err(NoMemory),
    }
}

/// The variable of the store, if it has a name or none.
fn named_cell(cell: NamedCell) -> Option<NamedCell>
    requires { (cell.cell.kind.refs ≤ most_refs) × FitsValue cell.cell.value × (cell.cell.count < 2 ^ 64) }
    ensures fits { IfSome result (λ c. FitsCell (option_map string_bytes c.name) c.cell) }
    ensures same { FitsCell (option_map string_bytes cell.name) cell.cell → result ≡ Some cell }
{
    if is_fit_name(name_of_cell(&cell)) {
        Some(cell)
    } else {
        None
    }
}

/// The variable of the store that a value represents, if its name is one or it has none.
fn cell_read(alloc: Global, json: &Json) -> Result<Option<NamedCell>, NoMemory>
    ensures fits { IfOk result (λ o.
        IfSome o (λ c. FitsCell (option_map string_bytes c.name) c.cell)) }
    ensures same { IfOk result (λ o. (name : Option (List ℕ)) (c : AnyCell) → FitsCell name c
        → cell_meant (view json.now) ≡ Some (name, c) → option_map cell_parts o ≡ Some (name, c)) }
{
    match cell_of(alloc, json)? {
        Some(cell) => Ok(named_cell(cell)),
        None => Ok(None),
    }
}

/// The variable of the store that a line can be read as.
pub fn loose_cell(alloc: Global, line: &[u8]) -> Result<Option<NamedCell>, NoMemory>
    ensures { IfOk result (λ o. CanBeReadAs FitsNamedCell line_of_cell line.now (option_map cell_parts o)) }
{
    match json_of(alloc, line) {
        Ok(json) => cell_read(alloc, &json),
        Err(LineError::Bad) => Ok(None),
        Err(LineError::NoMemory) => Err(NoMemory),
    }
}

/// The waiting block over the names that a line can be read as.
pub fn loose_waiting(
    alloc: Global,
    known: &Names,
    line: &[u8],
) -> Result<Option<WaitingBlock>, NoMemory>
    ensures { IfOk result (CanBeReadAs (FitsWaitingBlock known.now) line_of_waiting line.now) }
{
    match json_of(alloc, line) {
        Ok(json) => waiting_of(alloc, known, &json),
        Err(LineError::Bad) => Ok(None),
        Err(LineError::NoMemory) => Err(NoMemory),
    }
}
