//! Lines read back.

ghost use Rattle.std.specs.Prelude.{◌≡◌, ◌≢◌, ◌<◌, ◌≤◌, List, IfOk, IfSome, IsErrOf, IsUtf8, Some, None, codes, option_map, option_and_then};
ghost use Rattle.serde_json.specs.Read.{read as read_text};
ghost use Rattle.serde_json.specs.View.{view};
ghost use Rattle.stm_events.specs.declared.event.Event.{Event as AnyEvent};
ghost use Rattle.stm_store.specs.Tables.{Declared};
ghost use Rattle.stm_store.specs.Naming.{Named};
ghost use Rattle.stm_source.specs.LaterNames.{NamesFollow};
ghost use Rattle.stm_event_lines.specs.Fields.{event_of as event_meant, header_of as header_meant, what_of as what_meant, if_label as if_label_meant, labelled_of, what_in as what_in_meant, if_named as if_named_meant, declared_event_of, client_field, submitted_of, installed_of, finished_of, declared_from_json as variable_meant, type_in as type_meant, text_field, verdict_field, list_field, u32_of};
ghost use Rattle.stm_terms.specs.Limits.{most_refs, max_clients};
ghost use Rattle.stm_event_lines.specs.Fits.{Is32Bit, FitsNames, WhatFitsNames, FitsValue, FitsVariable, FitsVerdict, FitNumbers};
ghost use Rattle.stm_event_lines.specs.Lines.{event_line, variable_line};
ghost use Rattle.stm_event_lines.specs.ReadLines.{ReadsEvent, ReadsHeader, ReadsVariable, declared};

use crate::drafted::drafted_event;
use crate::fields::{number_at, text_at, type_of, value_at};
use crate::formats::is_format;
use crate::parts::numbers_at;
use crate::variable::Variable;
use crate::verdicts::verdict_at;
use crate::write::{header_text, is_line_of, variable_text};
use serde_json::Value as Json;
use std::alloc::Global;
use stm_events::event::{Event, What};
use stm_events::label::is_label;
use stm_events::shared_name::SharedName;
use stm_events::shared_verdict::SharedVerdict;
use stm_events::tickets::Tickets;
use stm_source::BlockCache;
use stm_store::Names;
use stm_terms::kinds::Ty;
use stm_terms::{NoMemory, is_name};

/// Why a line is refused.
#[derive(Clone, Copy, Debug, PartialEq, Eq, Drop)]
pub enum LineError {
    Bad,
    NoMemory,
}

impl From<NoMemory> for LineError {
    ghost use Rattle.std.specs.Prelude.{◌≡◌};
    ghost use Rattle.stm_event_lines.specs.declared.read.LineError.TheVariants.{NoMemory};

    ghost from_gives = { λ _ e. e ≡ NoMemory };

    fn from(_refused: NoMemory) -> LineError {
        LineError::NoMemory
    }
}

/// The JSON value that the line is the text of.
pub(crate) fn json_of(alloc: Global, line: &[u8]) -> Result<Json, LineError>
    ensures ok { IfOk result (λ v. read_text line.now ≡ Some (view v)) }
    ensures bad { IsErrOf result LineError.Bad → IsUtf8 line.now → read_text line.now ≡ None }
{
    match Json::from_slice(alloc, line) {
        Ok(json) => Ok(json),
        Err(e) if e.is_memory() => Err(LineError::NoMemory),
        Err(_) => Err(LineError::Bad),
    }
}

fn client_at(json: &Json) -> Option<u32>
    ensures value { result ≡ client_field (view json.now) }
    ensures fits { IfSome result (λ n. n < max_clients) }
{
    let client = number_at(json, "client")?;
    if client < Event::MAX_CLIENTS {
        Some(client)
    } else {
        None
    }
}

fn submitted(
    alloc: Global,
    known: &Names,
    json: &Json,
    ticket: u32,
    blocks: &mut BlockCache,
) -> Result<Option<What>, NoMemory>
    requires { blocks.old ≡ known.now }
    ensures known { blocks.new ≡ known.now }
    ensures value { IfOk result (λ o. o ≡ submitted_of known.now (view json.now) ticket) }
    ensures fits { IfOk result (λ o. IfSome o (λ w. WhatFitsNames known.now w)) }
{
    let Some(text) = text_at(json, "block") else {
        return Ok(None);
    };
    match blocks.block_of(alloc, known, text)? {
        Some(block) => Ok(Some(What::Submitted { ticket, block })),
        None => Ok(None),
    }
}

/// The verdict of an event, where many may hold it.
fn shared_verdict(alloc: Global, json: &Json) -> Result<Option<SharedVerdict>, NoMemory>
    ensures value { IfOk result (λ o. o ≡ verdict_field (view json.now)) }
    ensures fits { IfOk result (λ o. IfSome o (λ v. FitsVerdict v)) }
{
    match verdict_at(alloc, json, "verdict")? {
        Some(verdict) => Ok(Some(SharedVerdict::new(alloc, verdict)?)),
        None => Ok(None),
    }
}

fn installed(alloc: Global, json: &Json, ticket: u32) -> Result<Option<What>, NoMemory>
    ensures value { IfOk result (λ o. o ≡ installed_of (view json.now) ticket) }
    ensures fits { IfOk result (λ o. IfSome o (λ w. (t : List Named) → WhatFitsNames t w)) }
{
    match shared_verdict(alloc, json)? {
        Some(verdict) => Ok(Some(What::Installed { ticket, verdict })),
        None => Ok(None),
    }
}

/// The tickets that a finish makes stale.
fn stale_tickets(alloc: Global, json: &Json) -> Result<Option<Tickets>, NoMemory>
    ensures value { IfOk result (λ o. o ≡ list_field u32_of (codes "stale") (view json.now)) }
    ensures fits { IfOk result (λ o. IfSome o (λ t. FitNumbers t)) }
{
    match numbers_at(alloc, json, "stale")? {
        Some(stale) => Ok(Some(Tickets::new(alloc, stale)?)),
        None => Ok(None),
    }
}

fn finished(alloc: Global, json: &Json, ticket: u32) -> Result<Option<What>, NoMemory>
    ensures value { IfOk result (λ o. o ≡ finished_of (view json.now) ticket) }
    ensures fits { IfOk result (λ o. IfSome o (λ w. (t : List Named) → WhatFitsNames t w)) }
{
    let Some(first_new) = number_at(json, "first_new") else {
        return Ok(None);
    };
    let Some(verdict) = shared_verdict(alloc, json)? else {
        return Ok(None);
    };
    match stale_tickets(alloc, json)? {
        Some(stale) => Ok(Some(What::Finished {
            ticket,
            verdict,
            first_new,
            stale,
        })),
        None => Ok(None),
    }
}

/// The label of a ticket, if the text is one.
fn if_label(alloc: Global, ticket: u32, label: &str) -> Result<Option<What>, NoMemory>
    ensures value { IfOk result (λ o. o ≡ if_label_meant ticket label.now) }
    ensures fits { IfOk result (λ o. IfSome o (λ w. (t : List Named) → WhatFitsNames t w)) }
{
    if is_label(label) {
        Ok(Some(What::Labelled {
            ticket,
            label: SharedName::new(alloc, String::from_str(alloc, label)?)?,
        }))
    } else {
        Ok(None)
    }
}

fn labelled(alloc: Global, json: &Json, ticket: u32) -> Result<Option<What>, NoMemory>
    ensures value { IfOk result (λ o. o ≡ labelled_of (view json.now) ticket) }
    ensures fits { IfOk result (λ o. IfSome o (λ w. (t : List Named) → WhatFitsNames t w)) }
{
    match text_at(json, "label") {
        Some(label) => if_label(alloc, ticket, label),
        None => Ok(None),
    }
}

fn what_of(
    alloc: Global,
    known: &Names,
    json: &Json,
    kind: &str,
    ticket: u32,
    blocks: &mut BlockCache,
) -> Result<Option<What>, NoMemory>
    requires { blocks.old ≡ known.now }
    ensures known { blocks.new ≡ known.now }
    ensures value { IfOk result (λ o. o ≡ what_meant known.now (view json.now) kind.now ticket) }
    ensures fits { IfOk result (λ o. IfSome o (λ w. WhatFitsNames known.now w)) }
{
    if kind == "submitted" {
        submitted(alloc, known, json, ticket, blocks)
    } else if kind == "installed" {
        installed(alloc, json, ticket)
    } else if kind == "finished" {
        finished(alloc, json, ticket)
    } else if kind == "cancelled" {
        Ok(Some(What::Cancelled { ticket }))
    } else if kind == "labelled" {
        labelled(alloc, json, ticket)
    } else {
        Ok(None)
    }
}

/// The late declaration of a variable, if its name is one.
fn if_named(alloc: Global, variable: Variable) -> Result<Option<What>, NoMemory>
    requires { (variable.kind.refs ≤ most_refs) × FitsValue variable.value }
    ensures value { IfOk result (λ o. o ≡ if_named_meant (declared variable)) }
    ensures fits { IfOk result (λ o. IfSome o (λ w. (t : List Named) → WhatFitsNames t w)) }
{
    if is_name(&variable.name) {
        Ok(Some(What::Declared {
            name: SharedName::new(alloc, variable.name)?,
            kind: variable.kind,
            value: variable.value,
        }))
    } else {
        Ok(None)
    }
}

fn declaration(alloc: Global, json: &Json) -> Result<Option<What>, NoMemory>
    ensures value { IfOk result (λ o. o ≡ declared_event_of (view json.now)) }
    ensures fits { IfOk result (λ o. IfSome o (λ w. (t : List Named) → WhatFitsNames t w)) }
{
    match variable_of(alloc, json)? {
        Some(variable) => if_named(alloc, variable),
        None => Ok(None),
    }
}

/// What happened: a declaration has no ticket.
fn what_in(
    alloc: Global,
    known: &Names,
    json: &Json,
    kind: &str,
    blocks: &mut BlockCache,
) -> Result<Option<What>, NoMemory>
    requires { blocks.old ≡ known.now }
    ensures known { blocks.new ≡ known.now }
    ensures value { IfOk result (λ o. o ≡ what_in_meant known.now (view json.now) kind.now) }
    ensures fits { IfOk result (λ o. IfSome o (λ w. WhatFitsNames known.now w)) }
{
    if kind == "declared" {
        return declaration(alloc, json);
    }
    let Some(ticket) = number_at(json, "ticket") else {
        return Ok(None);
    };
    what_of(alloc, known, json, kind, ticket, blocks)
}

/// The event that the value represents, if it does.
pub(crate) fn event_of(
    alloc: Global,
    known: &Names,
    json: &Json,
    blocks: &mut BlockCache,
) -> Result<Option<Event>, NoMemory>
    requires { blocks.old ≡ known.now }
    ensures known { blocks.new ≡ known.now }
    ensures value { IfOk result (λ o. o ≡ event_meant known.now (view json.now)) }
    ensures fits { IfOk result (λ o. IfSome o (λ e. FitsNames known.now e)) }
{
    let Some(kind) = text_at(json, "event") else {
        return Ok(None);
    };
    let Some(client) = client_at(json) else {
        return Ok(None);
    };
    match what_in(alloc, known, json, kind, blocks)? {
        Some(what) => Ok(Some(Event { client, what })),
        None => Ok(None),
    }
}

/// The event, if the line is its.
fn if_line(alloc: Global, event: Event, line: &[u8]) -> Result<Event, LineError>
    ensures ok { IfOk result (λ e. (e ≡ event) × (event_line e ≡ line.now)) }
    ensures bad { IsErrOf result LineError.Bad → event_line event ≢ line.now }
{
    if is_line_of(alloc, &event, line)? {
        Ok(event)
    } else {
        Err(LineError::Bad)
    }
}

/// The event that the value represents, if the line is that event's.
fn event_in(
    alloc: Global,
    known: &Names,
    json: &Json,
    line: &[u8],
    blocks: &mut BlockCache,
) -> Result<Event, LineError>
    requires { blocks.old ≡ known.now }
    ensures known { blocks.new ≡ known.now }
    ensures ok { IfOk result (λ e. event_line e ≡ line.now) }
    ensures fits { IfOk result (λ e. FitsNames known.now e) }
    ensures bad { IsErrOf result LineError.Bad → (e : AnyEvent)
        → event_meant known.now (view json.now) ≡ Some e → event_line e ≢ line.now }
{
    let Some(event) = event_of(alloc, known, json, blocks)? else {
        return Err(LineError::Bad);
    };
    if_line(alloc, event, line)
}

/// Reads a line as `read_event` does, by its JSON value.
fn read_by_value(
    alloc: Global,
    known: &Names,
    line: &[u8],
    blocks: &mut BlockCache,
) -> Result<Event, LineError>
    requires { blocks.old ≡ known.now }
    ensures known { blocks.new ≡ known.now }
    ensures read { ReadsEvent known.now line.now result }
{
    match json_of(alloc, line) {
        Ok(json) => event_in(alloc, known, &json, line, blocks),
        Err(e) => Err(e),
    }
}

/// Reads a line, exactly if it is the text of an event that fits the names. The names come after those that were known before. A block
/// whose text comes again is shared, which no clause says.
pub fn read_event(
    alloc: Global,
    known: &Names,
    line: &[u8],
    blocks: &mut BlockCache,
) -> Result<Event, LineError>
    requires { NamesFollow blocks.old known.now }
    ensures known { blocks.new ≡ known.now }
    ensures read { ReadsEvent known.now line.now result }
{
    blocks.follow(known);
    match drafted_event(alloc, known, line, blocks)? {
        Some(event) => Ok(event),
        None => read_by_value(alloc, known, line, blocks),
    }
}

/// What the first line says: the format, and how many variables' lines follow.
#[derive(Clone, Copy)]
pub struct Header {
    pub format: u32,
    pub vars: u32,
}

/// What the value says as a first line, whether or not the format is read.
pub(crate) fn header_of(json: &Json) -> Option<Header>
    ensures value { result ≡ header_meant (view json.now) }
    ensures fits { IfSome result (λ h. Is32Bit h.vars) }
{
    let format = number_at(json, "format")?;
    let vars = number_at(json, "vars")?;
    Some(Header { format, vars })
}

/// Reads the first line, exactly if it is one of a format that is read.
pub fn read_header(alloc: Global, line: &[u8]) -> Result<Header, LineError>
    ensures { ReadsHeader line.now result }
{
    let json = match json_of(alloc, line) {
        Ok(json) => json,
        Err(e) => return Err(e),
    };
    let Some(header) = header_of(&json) else {
        return Err(LineError::Bad);
    };
    let again = header_text(alloc, header.format, header.vars)?;
    if is_format(header.format) && again.as_bytes() == line {
        Ok(header)
    } else {
        Err(LineError::Bad)
    }
}

/// The declared variable that the value represents, if it does.
pub(crate) fn variable_of(alloc: Global, json: &Json) -> Result<Option<Variable>, NoMemory>
    ensures value { IfOk result (λ o. option_map declared o ≡ variable_meant (view json.now)) }
    ensures fits { IfOk result (λ o.
        IfSome o (λ v. (v.kind.refs ≤ most_refs) × FitsValue v.value)) }
{
    let Some(name) = text_at(json, "name") else {
        return Ok(None);
    };
    let Some(kind) = kind_at(alloc, json)? else {
        return Ok(None);
    };
    let Some(value) = value_at(json, "init") else {
        return Ok(None);
    };
    Ok(Some(Variable {
        name: String::from_str(alloc, name)?,
        kind,
        value,
    }))
}

/// The type under the key `type`.
pub(crate) fn kind_at(alloc: Global, json: &Json) -> Result<Option<Ty>, NoMemory>
    ensures value { IfOk result (λ o. o ≡ option_and_then type_meant
        (text_field (codes "type") (view json.now))) }
    ensures fits { IfOk result (λ o. IfSome o (λ t. t.refs ≤ most_refs)) }
{
    match text_at(json, "type") {
        Some(text) => type_of(alloc, text),
        None => Ok(None),
    }
}

/// The variable that the value represents, if it has a name and the line is that variable's.
fn variable_in(alloc: Global, json: &Json, line: &[u8]) -> Result<Variable, LineError>
    ensures ok { IfOk result (λ v. variable_line (declared v) ≡ line.now) }
    ensures fits { IfOk result (λ v. FitsVariable (declared v)) }
    ensures bad { IsErrOf result LineError.Bad → (d : Declared) → FitsVariable d
        → variable_meant (view json.now) ≡ Some d → variable_line d ≢ line.now }
{
    let Some(variable) = variable_of(alloc, json)? else {
        return Err(LineError::Bad);
    };
    if !is_name(&variable.name) {
        return Err(LineError::Bad);
    }
    let again = variable_text(alloc, &variable.name, variable.kind, variable.value)?;
    if again.as_bytes() == line {
        Ok(variable)
    } else {
        Err(LineError::Bad)
    }
}

/// Reads a variable's line, exactly if it is one.
pub fn read_variable(alloc: Global, line: &[u8]) -> Result<Variable, LineError>
    ensures { ReadsVariable line.now result }
{
    match json_of(alloc, line) {
        Ok(json) => variable_in(alloc, &json, line),
        Err(e) => Err(e),
    }
}
