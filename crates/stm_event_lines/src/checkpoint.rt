//! The lines of a history that begins from a checkpoint, before its events.

ghost use Rattle.std.specs.Prelude.{◌≡◌, ◌≢◌, ◌↔◌, ◌≤◌, ◌<◌, ◌^◌, ◌+◌, ℕ, List, Option, None, Some, IfOk, IfSome, IsErrOf, OnOk, IsTrue, map, codes, option_map, option_and_then, string_bytes};
ghost use Rattle.std.specs.Option.{option_copied};
ghost use Rattle.serde_json.specs.Data.{array, boolean, Members};
ghost use Rattle.serde_json.specs.Events.{SendsValue, SendsMembers, members_len};
ghost use Rattle.serde_json.specs.Find.{get};
ghost use Rattle.serde_json.specs.View.{view, items_of};
ghost use Rattle.stm_terms.specs.Limits.{most_refs};
ghost use Rattle.stm_store.specs.declared.cell.Cell.{Cell as AnyCell};
ghost use Rattle.stm_check.specs.TypedBlock.{Block};
ghost use Rattle.stm_events.specs.Delivered.{Delivered};
ghost use Rattle.stm_events.specs.declared.kept_cause.KeptCause.{KeptCause as AnyCause};
ghost use Rattle.stm_events.specs.Labels.{is_label};
ghost use Rattle.stm_event_lines.specs.CheckpointFields.{checkpoint_header_of as header_meant, count_field, name_of, counted_cell_of, cell_of as cell_meant, bool_field, delivery_in, delivery_of as delivery_meant, label_in as label_in_meant, label_field, cause_in, cause_field, waiting_of as waiting_meant};
ghost use Rattle.stm_event_lines.specs.CheckpointLines.{IsCheckpointFormat, checkpoint_header_data, checkpoint_header_line, name_data, cell_data, cell_line, label_before, cause_before, delivery_members, members_after_text, parts_delivered, given_data, given_line, line_of_waiting, waiting_line, FitsName, FitsCell, FitsCause, FitsDelivery, FitsWaitingBlock};
ghost use Rattle.stm_event_lines.specs.Fields.{text_field, verdict_field};
ghost use Rattle.stm_source.specs.CompiledBlock.{block_of_text};
ghost use Rattle.stm_event_lines.specs.Fits.{Is32Bit, FitsValue, FitsVerdict};
ghost use Rattle.stm_event_lines.specs.Lines.{write_data};
ghost use Rattle.stm_event_lines.specs.ReadLines.{ReadsCell, ReadsCheckpointHeader, ReadsWaiting, cell_parts};
ghost use Rattle.stm_event_lines.specs.Sending.{SendsMember};

use crate::build::{type_text, value_json};
use crate::fields::{number_at, text_at, value_at};
use crate::formats::is_checkpoint_format;
use crate::parts::writes_at;
use crate::read::{LineError, json_of, kind_at};
use crate::send::{send_number_at, send_text_at, send_writes};
use crate::verdicts::verdict_at;
use crate::write::send_verdict_at;
use serde::{Described, Serialize, Serializer};
use serde_json::{Value as Json, json, to_string};
use std::alloc::Global;
use stm_check::SharedBlock;
use stm_events::delivery::Delivery;
use stm_events::kept_cause::KeptCause;
use stm_events::label::is_label;
use stm_events::shared_name::SharedName;
use stm_events::shared_verdict::SharedVerdict;
use stm_source::block_of;
use stm_store::{Cell, Names};
use stm_terms::lists::Writes;
use stm_terms::values::Value;
use stm_terms::verdicts::Verdict;
use stm_terms::{NoMemory, is_name};

/// What the first line says: the format, the next ticket, and how many lines of variables and of waiting blocks follow.
#[derive(Clone, Copy)]
pub struct CheckpointHeader {
    pub format: u32,
    pub next: u32,
    pub vars: u32,
    pub waiting: u32,
}

/// A variable of the store, with its name if it was declared.
#[derive(Drop)]
pub struct NamedCell {
    pub name: Option<String>,
    pub cell: Cell,
}

/// A block that waits under a ticket, with why it is stale, if that is known, with its label, which is empty if it has none, and with what
/// its last delivery brought, if there was one.
#[derive(Drop)]
pub struct WaitingBlock {
    pub ticket: u32,
    pub block: SharedBlock,
    pub cause: Option<KeptCause>,
    pub label: SharedName,
    pub delivery: Option<Delivery>,
}

fn header_json(
    alloc: Global,
    format: u32,
    next: u32,
    vars: u32,
    waiting: u32,
) -> Result<Json, NoMemory>
    ensures { IfOk result (λ v. view v ≡ checkpoint_header_data format next vars waiting) }
{
    json!(in alloc; {"format": format, "next": next, "vars": vars, "waiting": waiting})
}

/// The first line of a checkpoint.
#[tactic(auto, unfolding(crate::specs::CheckpointLines::checkpoint_header_line))]
pub fn checkpoint_header_text(
    alloc: Global,
    format: u32,
    next: u32,
    vars: u32,
    waiting: u32,
) -> Result<String, NoMemory>
    ensures { IfOk result (λ s. string_bytes s ≡ checkpoint_header_line format next vars waiting) }
{
    let header = header_json(alloc, format, next, vars, waiting)?;
    header.to_string(alloc)
}

fn name_json(alloc: Global, name: Option<&str>) -> Result<Json, NoMemory>
    ensures { IfOk result (λ v. view v ≡ name_data (option_map (λ n. n.now) name.entry)) }
{
    match name {
        Some(name) => json!(in alloc; name),
        None => Ok(Json::from(())),
    }
}

fn cell_json(alloc: Global, name: Option<&str>, cell: Cell) -> Result<Json, NoMemory>
    ensures { IfOk result (λ v. view v ≡ cell_data (option_map (λ n. n.now) name.entry) cell) }
{
    json!(in alloc; {
        "count": cell.count,
        "init": value_json(alloc, cell.value)?,
        "name": name_json(alloc, name)?,
        "type": type_text(alloc, cell.kind)?
    })
}

/// The line of a variable of a checkpoint; none is the name of one that a block made.
#[tactic(auto, unfolding(crate::specs::CheckpointLines::cell_line))]
pub fn cell_text(alloc: Global, name: Option<&str>, cell: Cell) -> Result<String, NoMemory>
    ensures { IfOk result (λ s. string_bytes s ≡ cell_line (option_map (λ n. n.now) name.entry) cell) }
{
    let variable = cell_json(alloc, name, cell)?;
    variable.to_string(alloc)
}

/// What the last delivery to a block brought.
#[derive(Clone, Copy)]
pub struct DeliveredParts<'a> {
    pub reads: &'a [(u32, Value)],
    pub verdict: &'a SharedVerdict,
    pub stale: bool,
}

/// A waiting block, as a writer of JSON is given it: its text, why it is stale if that is known, its label, which is empty if it has
/// none, and what its last delivery brought, if there was one.
#[derive(Drop)]
pub struct WaitingLine<'a> {
    pub alloc: Global,
    pub ticket: u32,
    pub text: &'a str,
    pub cause: Option<&'a KeptCause>,
    pub label: &'a str,
    pub delivery: Option<DeliveredParts<'a>>,
}

/// Sends a member whose value is a list of pairs of a variable's number and a value.
fn send_pairs_at<S: Serializer>(
    key: &str,
    pairs: &[(u32, Value)],
    out: &mut S,
) -> Result<(), S::Error>
    ensures { OnOk result (SendsMember key.now (array (items_of (map write_data pairs.now)))
        (S.written out.old) (S.written out.new)) }
{
    out.key(key)?;
    send_writes(pairs, out)
}

fn send_stale_at<S: Serializer>(stale: bool, out: &mut S) -> Result<(), S::Error>
    ensures { OnOk result (SendsMember (codes "stale") (boolean stale)
        (S.written out.old) (S.written out.new)) }
{
    out.key("stale")?;
    out.bool(stale)
}

/// Sends the ticket of a new block, and the end of its object.
fn send_new_block<S: Serializer>(ticket: u32, out: &mut S) -> Result<(), S::Error>
    ensures { OnOk result (SendsMembers (delivery_members ticket None)
        (S.written out.old) (S.written out.new)) }
{
    send_number_at("ticket", ticket, out)?;
    out.end_map()
}

/// Sends what a delivery brought, with the block's ticket among it, and the end of its object.
fn send_parts<S: Serializer>(
    alloc: Global,
    ticket: u32,
    parts: DeliveredParts<'_>,
    out: &mut S,
) -> Result<(), S::Error>
    ensures { OnOk result (SendsMembers (delivery_members ticket (Some (parts_delivered parts.entry)))
        (S.written out.old) (S.written out.new)) }
{
    send_pairs_at("reads", parts.reads, out)?;
    send_stale_at(parts.stale, out)?;
    send_number_at("ticket", ticket, out)?;
    send_verdict_at(alloc, parts.verdict, out)?;
    out.end_map()
}

/// Sends what the last delivery brought if there was one, the ticket, and the end of the object.
fn send_delivery<S: Serializer>(line: &WaitingLine<'_>, out: &mut S) -> Result<(), S::Error>
    ensures { OnOk result (SendsMembers (delivery_members line.now.ticket (option_map parts_delivered line.now.delivery))
        (S.written out.old) (S.written out.new)) }
{
    match line.delivery {
        None => send_new_block(line.ticket, out),
        Some(parts) => send_parts(line.alloc, line.ticket, parts, out),
    }
}

/// Sends the label if there is one, and what follows it.
fn send_from_label<S: Serializer>(line: &WaitingLine<'_>, out: &mut S) -> Result<(), S::Error>
    ensures { OnOk result (SendsMembers (label_before line.now.label.now
        (delivery_members line.now.ticket (option_map parts_delivered line.now.delivery)))
        (S.written out.old) (S.written out.new)) }
{
    if line.label.is_empty() {
        return send_delivery(line, out);
    }
    send_text_at("label", line.label, out)?;
    send_delivery(line, out)
}

/// Sends why the block is stale, and what follows it.
fn send_cause<S: Serializer>(
    cause: &KeptCause,
    line: &WaitingLine<'_>,
    out: &mut S,
) -> Result<(), S::Error>
    ensures { OnOk result (SendsMembers (members_after_text line.now.ticket (Some cause.now) line.now.label.now
        (option_map parts_delivered line.now.delivery))
        (S.written out.old) (S.written out.new)) }
{
    send_number_at("cause", cause.finish, out)?;
    send_pairs_at("changed", cause.left.as_slice(), out)?;
    send_from_label(line, out)
}

/// Sends why the block is stale if that is known, and what follows it.
fn send_from_cause<S: Serializer>(line: &WaitingLine<'_>, out: &mut S) -> Result<(), S::Error>
    ensures { OnOk result (SendsMembers (members_after_text line.now.ticket (option_copied line.now.cause) line.now.label.now
        (option_map parts_delivered line.now.delivery))
        (S.written out.old) (S.written out.new)) }
{
    match line.cause {
        None => send_from_label(line, out),
        Some(cause) => send_cause(cause, line, out),
    }
}

/// How many members are sent of a cause, if there is one.
fn cause_count(cause: Option<&KeptCause>) -> usize
    ensures count { (more : Members) → members_len (cause_before (option_copied cause.entry) more) ≡ result + members_len more }
    ensures few { result ≤ 2 }
{
    match cause {
        None => 0,
        Some(_) => 2,
    }
}

/// How many members are sent of a label.
fn label_count(label: &str) -> usize
    ensures count { (more : Members) → members_len (label_before label.now more) ≡ result + members_len more }
    ensures few { result ≤ 1 }
{
    if label.is_empty() { 0 } else { 1 }
}

/// How many members are sent of the ticket and of what the last delivery brought.
fn delivery_count(delivery: Option<DeliveredParts<'_>>) -> usize
    ensures count { (ticket : ℕ) → members_len (delivery_members ticket (option_map parts_delivered delivery.entry)) ≡ result }
    ensures few { result ≤ 4 }
{
    match delivery {
        None => 1,
        Some(_) => 4,
    }
}

fn send_line<S: Serializer>(line: &WaitingLine<'_>, out: &mut S) -> Result<(), S::Error>
    ensures { OnOk result (SendsValue (given_data line.now) (S.written out.old) (S.written out.new)) }
{
    let cause = cause_count(line.cause);
    let label = label_count(line.label);
    let delivery = delivery_count(line.delivery);
    out.begin_map(Some(1 + (cause + (label + delivery))))?;
    send_text_at("block", line.text, out)?;
    send_from_cause(line, out)
}

impl Described for WaitingLine<'_> {
    ghost use Rattle.serde_json.specs.Events.{SendsValue};
    ghost use Rattle.stm_event_lines.specs.CheckpointLines.{given_data};

    ghost writes = { λ line. SendsValue (given_data line) };
}

impl Serialize for WaitingLine<'_> {
    fn serialize<S: Serializer>(&self, out: &mut S) -> Result<(), S::Error> {
        send_line(self, out)
    }
}

/// The line of a waiting block of a checkpoint.
pub fn waiting_line_text(line: &WaitingLine<'_>) -> Result<String, NoMemory>
    ensures { IfOk result (λ s. string_bytes s ≡ given_line line.now) }
{
    match to_string(line.alloc, line) {
        Ok(text) => Ok(text),
        Err(_) => Err(NoMemory),
    }
}

/// What the value says as a first line, whatever its format.
pub(crate) fn header_of(json: &Json) -> Option<CheckpointHeader>
    ensures value { result ≡ header_meant (view json.now) }
    ensures fits { IfSome result (λ h. Is32Bit h.next × Is32Bit h.vars × Is32Bit h.waiting) }
{
    let format = number_at(json, "format")?;
    let next = number_at(json, "next")?;
    let vars = number_at(json, "vars")?;
    let waiting = number_at(json, "waiting")?;
    Some(CheckpointHeader {
        format,
        next,
        vars,
        waiting,
    })
}

/// What the value says as a first line, if its format is one of checkpoints and the line is that first line.
fn header_in(alloc: Global, json: &Json, line: &[u8]) -> Result<CheckpointHeader, LineError>
    ensures ok { IfOk result (λ h. checkpoint_header_line h.format h.next h.vars h.waiting ≡ line.now) }
    ensures format { IfOk result (λ h. IsCheckpointFormat h.format) }
    ensures small { IfOk result (λ h. Is32Bit h.next × Is32Bit h.vars × Is32Bit h.waiting) }
    ensures bad { IsErrOf result LineError.Bad → (format next vars waiting : ℕ) → IsCheckpointFormat format
        → header_meant (view json.now) ≡ Some (record { format = format; next = next; vars = vars; waiting = waiting })
        → checkpoint_header_line format next vars waiting ≢ line.now }
{
    let Some(header) = header_of(json) else {
        return Err(LineError::Bad);
    };
    if !is_checkpoint_format(header.format) {
        return Err(LineError::Bad);
    }
    let again = checkpoint_header_text(
        alloc,
        header.format,
        header.next,
        header.vars,
        header.waiting,
    )?;
    if again.as_bytes() == line {
        Ok(header)
    } else {
        Err(LineError::Bad)
    }
}

/// Reads the first line of a checkpoint, exactly if it is one of a format of checkpoints.
pub fn read_checkpoint_header(alloc: Global, line: &[u8]) -> Result<CheckpointHeader, LineError>
    ensures { ReadsCheckpointHeader line.now result }
{
    match json_of(alloc, line) {
        Ok(json) => header_in(alloc, &json, line),
        Err(e) => Err(e),
    }
}

fn count_at(json: &Json, key: &str) -> Option<u64>
    ensures value { result ≡ count_field key.now (view json.now) }
    ensures fits { IfSome result (λ n. n < 2 ^ 64) }
{
    json.get(key)?.as_u64()
}

/// The text, or none of null.
fn name(json: &Json) -> Option<Option<&str>>
    ensures { option_map (option_map (λ n. n.now)) result ≡ name_of (view json.now) }
{
    if json.is_null() {
        return Some(None);
    }
    let text = json.as_str()?;
    Some(Some(text))
}

fn name_at<'a>(json: &'a Json, key: &str) -> Option<Option<&'a str>>
    ensures { option_map (option_map (λ n. n.now)) result
        ≡ option_and_then name_of (get key.now (view json.now)) }
{
    name(json.get(key)?)
}

fn owned_name(alloc: Global, name: Option<&str>) -> Result<Option<String>, NoMemory>
    ensures { IfOk result (λ o. option_map string_bytes o ≡ option_map (λ n. n.now) name.entry) }
{
    match name {
        Some(name) => Ok(Some(String::from_str(alloc, name)?)),
        None => Ok(None),
    }
}

fn counted_cell(
    alloc: Global,
    json: &Json,
    count: u64,
    value: Value,
) -> Result<Option<NamedCell>, NoMemory>
    ensures value { IfOk result (λ o. option_map cell_parts o
        ≡ counted_cell_of (view json.now) count value) }
    ensures fits { IfOk result (λ o. IfSome o (λ c. c.cell.kind.refs ≤ most_refs)) }
    ensures same { IfOk result (λ o. IfSome o (λ c. (c.cell.count ≡ count) × (c.cell.value ≡ value))) }
{
    let Some(name) = name_at(json, "name") else {
        return Ok(None);
    };
    let Some(kind) = kind_at(alloc, json)? else {
        return Ok(None);
    };
    Ok(Some(NamedCell {
        name: owned_name(alloc, name)?,
        cell: Cell { kind, value, count },
    }))
}

/// The variable that the value represents, if it does.
pub(crate) fn cell_of(alloc: Global, json: &Json) -> Result<Option<NamedCell>, NoMemory>
    ensures value { IfOk result (λ o. option_map cell_parts o ≡ cell_meant (view json.now)) }
    ensures fits { IfOk result (λ o. IfSome o (λ c. (c.cell.kind.refs ≤ most_refs)
        × FitsValue c.cell.value × (c.cell.count < 2 ^ 64))) }
{
    let Some(count) = count_at(json, "count") else {
        return Ok(None);
    };
    let Some(value) = value_at(json, "init") else {
        return Ok(None);
    };
    counted_cell(alloc, json, count, value)
}

/// The name of a variable of a checkpoint, if it has one.
pub fn name_of_cell(cell: &NamedCell) -> Option<&str>
    ensures { option_map (λ n. n.now) result ≡ option_map string_bytes cell.now.name }
{
    match &cell.name {
        Some(name) => Some(name.as_str()),
        None => None,
    }
}

/// Whether the name is one, if there is one.
pub(crate) fn is_fit_name(name: Option<&str>) -> bool
    ensures { IsTrue result ↔ FitsName (option_map (λ n. n.now) name.entry) }
{
    match name {
        Some(name) => is_name(name),
        None => true,
    }
}

/// The variable that the value represents, if it has a name or none and the line is that variable's.
fn cell_in(alloc: Global, json: &Json, line: &[u8]) -> Result<NamedCell, LineError>
    ensures ok { IfOk result (λ c. cell_line (option_map string_bytes c.name) c.cell ≡ line.now) }
    ensures fits { IfOk result (λ c. FitsCell (option_map string_bytes c.name) c.cell) }
    ensures bad { IsErrOf result LineError.Bad → (name : Option (List ℕ)) (c : AnyCell) → FitsCell name c
        → cell_meant (view json.now) ≡ Some (name, c) → cell_line name c ≢ line.now }
{
    let Some(cell) = cell_of(alloc, json)? else {
        return Err(LineError::Bad);
    };
    let name = name_of_cell(&cell);
    if !is_fit_name(name) {
        return Err(LineError::Bad);
    }
    let again = cell_text(alloc, name, cell.cell)?;
    if again.as_bytes() == line {
        Ok(cell)
    } else {
        Err(LineError::Bad)
    }
}

/// Reads the line of a variable of a checkpoint, exactly if it is one.
pub fn read_cell(alloc: Global, line: &[u8]) -> Result<NamedCell, LineError>
    ensures { ReadsCell line.now result }
{
    match json_of(alloc, line) {
        Ok(json) => cell_in(alloc, &json, line),
        Err(e) => Err(e),
    }
}

fn bool_at(json: &Json, key: &str) -> Option<bool>
    ensures { result ≡ bool_field key.now (view json.now) }
{
    json.get(key)?.as_bool()
}

/// What a delivery brought, with this verdict.
fn delivered(alloc: Global, json: &Json, verdict: Verdict) -> Result<Option<Delivery>, NoMemory>
    requires { FitsVerdict verdict }
    ensures value { IfOk result (λ o. o ≡ delivery_in (view json.now) verdict) }
    ensures fits { IfOk result (λ o. FitsDelivery o) }
{
    let Some(reads) = writes_at(alloc, json, "reads")? else {
        return Ok(None);
    };
    let Some(stale) = bool_at(json, "stale") else {
        return Ok(None);
    };
    let verdict = SharedVerdict::new(alloc, verdict)?;
    Ok(Some(Delivery::new(reads, verdict, stale)))
}

/// What the delivery that the value has brought.
fn delivery_in(alloc: Global, json: &Json) -> Result<Option<Delivery>, NoMemory>
    ensures value { IfOk result (λ o. o
        ≡ option_and_then (delivery_in (view json.now)) (verdict_field (view json.now))) }
    ensures fits { IfOk result (λ o. FitsDelivery o) }
{
    match verdict_at(alloc, json, "verdict")? {
        Some(verdict) => delivered(alloc, json, verdict),
        None => Ok(None),
    }
}

/// What the last delivery brought, or that there was none.
fn delivery_of(alloc: Global, json: &Json) -> Result<Option<Option<Delivery>>, NoMemory>
    ensures value { IfOk result (λ o. o ≡ delivery_meant (view json.now)) }
    ensures fits { IfOk result (λ o. IfSome o (λ d. FitsDelivery d)) }
{
    if json.get("verdict").is_none() {
        return Ok(Some(None));
    }
    match delivery_in(alloc, json)? {
        Some(delivery) => Ok(Some(Some(delivery))),
        None => Ok(None),
    }
}

fn block_at(alloc: Global, known: &Names, json: &Json) -> Result<Option<SharedBlock>, NoMemory>
    ensures { IfOk result (λ o. o ≡ option_and_then (block_of_text known.now)
        (text_field (codes "block") (view json.now))) }
{
    match text_at(json, "block") {
        Some(text) => block_of(alloc, known, text),
        None => Ok(None),
    }
}

/// The text, if it is a label.
fn label_in(alloc: Global, text: &str) -> Result<Option<SharedName>, NoMemory>
    ensures value { IfOk result (λ o. o ≡ label_in_meant text.now) }
    ensures fits { IfOk result (λ o. IfSome o (λ l. IsTrue (is_label l))) }
{
    if is_label(text) {
        Ok(Some(SharedName::new(alloc, String::from_str(alloc, text)?)?))
    } else {
        Ok(None)
    }
}

/// The label; the empty one if there is none.
fn label_at(alloc: Global, json: &Json) -> Result<Option<SharedName>, NoMemory>
    ensures value { IfOk result (λ o. o ≡ label_field (view json.now)) }
    ensures fits { IfOk result (λ o. IfSome o (λ l. IsTrue (is_label l))) }
{
    if json.get("label").is_none() {
        return Ok(Some(SharedName::none()));
    }
    match text_at(json, "label") {
        Some(text) => label_in(alloc, text),
        None => Ok(None),
    }
}

/// Why the block is stale: the finish, and what it left.
fn cause_in(alloc: Global, json: &Json) -> Result<Option<KeptCause>, NoMemory>
    ensures value { IfOk result (λ o. o ≡ cause_in (view json.now)) }
    ensures fits { IfOk result (λ o. FitsCause o) }
{
    let Some(finish) = number_at(json, "cause") else {
        return Ok(None);
    };
    match writes_at(alloc, json, "changed")? {
        Some(left) => Ok(Some(KeptCause {
            finish,
            left: Writes::from_vec(left),
        })),
        None => Ok(None),
    }
}

/// Why the block is stale, or that this isn't known.
fn cause_at(alloc: Global, json: &Json) -> Result<Option<Option<KeptCause>>, NoMemory>
    ensures value { IfOk result (λ o. o ≡ cause_field (view json.now)) }
    ensures fits { IfOk result (λ o. IfSome o (λ c. FitsCause c)) }
{
    if json.get("cause").is_none() {
        return Ok(Some(None));
    }
    match cause_in(alloc, json)? {
        Some(cause) => Ok(Some(Some(cause))),
        None => Ok(None),
    }
}

/// Why the block is stale, its label, and what its last delivery brought, if the value has all three.
fn state_of(
    alloc: Global,
    json: &Json,
) -> Result<Option<(Option<KeptCause>, SharedName, Option<Delivery>)>, NoMemory>
    ensures value { IfOk result (λ o. o ≡ option_and_then (λ cause. option_and_then (λ label.
        option_map (λ delivery. (cause, label, delivery)) (delivery_meant (view json.now)))
        (label_field (view json.now)))
        (cause_field (view json.now))) }
    ensures fits { IfOk result (λ o. IfSome o (λ s. FitsCause s.0 × IsTrue (is_label s.1) × FitsDelivery s.2)) }
{
    let Some(cause) = cause_at(alloc, json)? else {
        return Ok(None);
    };
    let Some(label) = label_at(alloc, json)? else {
        return Ok(None);
    };
    match delivery_of(alloc, json)? {
        Some(delivery) => Ok(Some((cause, label, delivery))),
        None => Ok(None),
    }
}

/// The waiting block that the value represents, if it does.
pub(crate) fn waiting_of(
    alloc: Global,
    known: &Names,
    json: &Json,
) -> Result<Option<WaitingBlock>, NoMemory>
    ensures value { IfOk result (λ o. o ≡ waiting_meant known.now (view json.now)) }
    ensures fits { IfOk result (λ o. IfSome o (FitsWaitingBlock known.now)) }
{
    let Some(ticket) = number_at(json, "ticket") else {
        return Ok(None);
    };
    let Some(block) = block_at(alloc, known, json)? else {
        return Ok(None);
    };
    match state_of(alloc, json)? {
        Some((cause, label, delivery)) => Ok(Some(WaitingBlock {
            ticket,
            block,
            cause,
            label,
            delivery,
        })),
        None => Ok(None),
    }
}

/// What a delivery brought, if there was one.
fn parts_of(delivery: Option<&Delivery>) -> Option<DeliveredParts<'_>>
    ensures { option_map parts_delivered result ≡ option_copied delivery.entry }
{
    match delivery {
        None => None,
        Some(delivery) => Some(DeliveredParts {
            reads: delivery.reads(),
            verdict: delivery.verdict(),
            stale: delivery.is_stale(),
        }),
    }
}

/// The line of a waiting block of a checkpoint that was read.
pub fn waiting_text(alloc: Global, waiting: &WaitingBlock) -> Result<String, NoMemory>
    ensures { IfOk result (λ s. string_bytes s ≡ line_of_waiting waiting.now) }
{
    waiting_line_text(&WaitingLine {
        alloc,
        ticket: waiting.ticket,
        text: waiting.block.block().text(),
        cause: waiting.cause.as_ref(),
        label: waiting.label.as_str(),
        delivery: parts_of(waiting.delivery.as_ref()),
    })
}

/// Whether the line is the waiting block's.
fn is_line_of(alloc: Global, waiting: &WaitingBlock, line: &[u8]) -> Result<bool, NoMemory>
    ensures { IfOk result (λ r. IsTrue r ↔ (line_of_waiting waiting.now ≡ line.now)) }
{
    let text = waiting_text(alloc, waiting)?;
    Ok(text.as_bytes() == line)
}

/// The waiting block, if the line is its.
fn if_line(alloc: Global, waiting: WaitingBlock, line: &[u8]) -> Result<WaitingBlock, LineError>
    ensures ok { IfOk result (λ w. (w ≡ waiting) × (line_of_waiting w ≡ line.now)) }
    ensures bad { IsErrOf result LineError.Bad → line_of_waiting waiting ≢ line.now }
{
    if is_line_of(alloc, &waiting, line)? {
        Ok(waiting)
    } else {
        Err(LineError::Bad)
    }
}

/// The waiting block that the value represents, if the line is that block's.
fn waiting_in(
    alloc: Global,
    known: &Names,
    json: &Json,
    line: &[u8],
) -> Result<WaitingBlock, LineError>
    ensures ok { IfOk result (λ w. line_of_waiting w ≡ line.now) }
    ensures fits { IfOk result (FitsWaitingBlock known.now) }
    ensures bad { IsErrOf result LineError.Bad → (ticket : ℕ) (block : Block) (cause : Option AnyCause) (label : List ℕ) (d : Option Delivered)
        → waiting_meant known.now (view json.now)
        ≡ Some (record { ticket = ticket; block = block; cause = cause; label = label; delivery = d })
        → waiting_line ticket block.text cause label d ≢ line.now }
{
    let Some(waiting) = waiting_of(alloc, known, json)? else {
        return Err(LineError::Bad);
    };
    if_line(alloc, waiting, line)
}

/// Reads the line of a waiting block of a checkpoint, exactly if it is one whose text is a block over the names.
pub fn read_waiting(alloc: Global, known: &Names, line: &[u8]) -> Result<WaitingBlock, LineError>
    ensures { ReadsWaiting known.now line.now result }
{
    match json_of(alloc, line) {
        Ok(json) => waiting_in(alloc, known, &json, line),
        Err(e) => Err(e),
    }
}
