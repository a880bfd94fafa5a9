//! The text of a line.

ghost use Rattle.std.specs.Prelude.{◌≡◌, ◌↔◌, IsTrue, string_bytes, IfOk, OnOk, map, codes};
ghost use Rattle.serde_json.specs.Data.{array, string};
ghost use Rattle.serde_json.specs.Events.{SendsValue};
ghost use Rattle.serde_json.specs.View.{view, items_of};
ghost use Rattle.stm_events.specs.declared.event.What.TheVariants.{Submitted, Installed, Finished, Cancelled, Declared as DeclaredLate, Labelled};
ghost use Rattle.stm_event_lines.specs.Lines.{what_data, event_data, event_line, header_data, header_line, variable_data, variable_line, verdict_data, value_data, number_data};
ghost use Rattle.stm_terms.specs.Texts.{type_text as text_of_type};
ghost use Rattle.stm_event_lines.specs.Sending.{SendsMember};

use crate::build::{type_text, value_json};
use crate::send::{
    send_number_at, send_numbers, send_text_at, send_type, send_value, send_verdict,
};
use serde::{Described, Serialize, Serializer};
use serde_json::{Value as Json, json, to_string};
use std::alloc::Global;
use stm_check::SharedBlock;
use stm_events::event::{Event, What};
use stm_events::shared_verdict::SharedVerdict;
use stm_terms::NoMemory;
use stm_terms::kinds::Ty;
use stm_terms::values::Value;
use stm_terms::verdicts::Verdict;

/// Sends a member whose value is a verdict, under the key `verdict`.
pub(crate) fn send_verdict_at<S: Serializer>(
    alloc: Global,
    verdict: &SharedVerdict,
    out: &mut S,
) -> Result<(), S::Error>
    ensures { OnOk result (SendsMember (codes "verdict") (verdict_data verdict.now)
        (S.written out.old) (S.written out.new)) }
{
    out.key("verdict")?;
    let blocks = Verdict::Blocks;
    send_verdict(alloc, verdict.get(&blocks), out)
}

fn send_stale_at<S: Serializer>(stale: &[u32], out: &mut S) -> Result<(), S::Error>
    ensures { OnOk result (SendsMember (codes "stale")
        (array (items_of (map number_data stale.now))) (S.written out.old) (S.written out.new)) }
{
    out.key("stale")?;
    send_numbers(stale, out)
}

fn send_submitted<S: Serializer>(
    client: u32,
    ticket: u32,
    block: &SharedBlock,
    out: &mut S,
) -> Result<(), S::Error>
    ensures { OnOk result (SendsValue (what_data client (Submitted ticket block.now))
        (S.written out.old) (S.written out.new)) }
{
    out.begin_map(Some(4))?;
    send_text_at("block", block.block().text(), out)?;
    send_number_at("client", client, out)?;
    send_text_at("event", "submitted", out)?;
    send_number_at("ticket", ticket, out)?;
    out.end_map()
}

fn send_installed<S: Serializer>(
    alloc: Global,
    client: u32,
    ticket: u32,
    verdict: &SharedVerdict,
    out: &mut S,
) -> Result<(), S::Error>
    ensures { OnOk result (SendsValue (what_data client (Installed ticket verdict.now))
        (S.written out.old) (S.written out.new)) }
{
    out.begin_map(Some(4))?;
    send_number_at("client", client, out)?;
    send_text_at("event", "installed", out)?;
    send_number_at("ticket", ticket, out)?;
    send_verdict_at(alloc, verdict, out)?;
    out.end_map()
}

fn send_finished<S: Serializer>(
    alloc: Global,
    client: u32,
    ticket: u32,
    verdict: &SharedVerdict,
    first_new: u32,
    stale: &[u32],
    out: &mut S,
) -> Result<(), S::Error>
    ensures { OnOk result
        (SendsValue (what_data client (Finished ticket verdict.now first_new stale.now))
        (S.written out.old) (S.written out.new)) }
{
    out.begin_map(Some(6))?;
    send_number_at("client", client, out)?;
    send_text_at("event", "finished", out)?;
    send_number_at("first_new", first_new, out)?;
    send_stale_at(stale, out)?;
    send_number_at("ticket", ticket, out)?;
    send_verdict_at(alloc, verdict, out)?;
    out.end_map()
}

fn send_cancelled<S: Serializer>(client: u32, ticket: u32, out: &mut S) -> Result<(), S::Error>
    ensures { OnOk result (SendsValue (what_data client (Cancelled ticket))
        (S.written out.old) (S.written out.new)) }
{
    out.begin_map(Some(3))?;
    send_number_at("client", client, out)?;
    send_text_at("event", "cancelled", out)?;
    send_number_at("ticket", ticket, out)?;
    out.end_map()
}

fn send_init_at<S: Serializer>(value: Value, out: &mut S) -> Result<(), S::Error>
    ensures { OnOk result (SendsMember (codes "init") (value_data value)
        (S.written out.old) (S.written out.new)) }
{
    out.key("init")?;
    send_value(value, out)
}

fn send_type_at<S: Serializer>(alloc: Global, kind: Ty, out: &mut S) -> Result<(), S::Error>
    ensures { OnOk result (SendsMember (codes "type") (string (text_of_type kind))
        (S.written out.old) (S.written out.new)) }
{
    out.key("type")?;
    send_type(alloc, kind, out)
}

fn send_declared<S: Serializer>(
    alloc: Global,
    client: u32,
    name: &str,
    kind: Ty,
    value: Value,
    out: &mut S,
) -> Result<(), S::Error>
    ensures { OnOk result (SendsValue (what_data client (DeclaredLate name.now kind value))
        (S.written out.old) (S.written out.new)) }
{
    out.begin_map(Some(5))?;
    send_number_at("client", client, out)?;
    send_text_at("event", "declared", out)?;
    send_init_at(value, out)?;
    send_text_at("name", name, out)?;
    send_type_at(alloc, kind, out)?;
    out.end_map()
}

fn send_labelled<S: Serializer>(
    client: u32,
    ticket: u32,
    label: &str,
    out: &mut S,
) -> Result<(), S::Error>
    ensures { OnOk result (SendsValue (what_data client (Labelled ticket label.now))
        (S.written out.old) (S.written out.new)) }
{
    out.begin_map(Some(4))?;
    send_number_at("client", client, out)?;
    send_text_at("event", "labelled", out)?;
    send_text_at("label", label, out)?;
    send_number_at("ticket", ticket, out)?;
    out.end_map()
}

fn send_event<S: Serializer>(alloc: Global, event: &Event, out: &mut S) -> Result<(), S::Error>
    ensures { OnOk result (SendsValue (event_data event.now)
        (S.written out.old) (S.written out.new)) }
{
    match &event.what {
        What::Submitted { ticket, block } => send_submitted(event.client, *ticket, block, out),
        What::Installed { ticket, verdict } => {
            send_installed(alloc, event.client, *ticket, verdict, out)
        }
        What::Finished {
            ticket,
            verdict,
            first_new,
            stale,
        } => send_finished(
            alloc,
            event.client,
            *ticket,
            verdict,
            *first_new,
            stale.as_slice(),
            out,
        ),
        What::Cancelled { ticket } => send_cancelled(event.client, *ticket, out),
        What::Declared { name, kind, value } => {
            send_declared(alloc, event.client, name.as_str(), *kind, *value, out)
        }
        What::Labelled { ticket, label } => {
            send_labelled(event.client, *ticket, label.as_str(), out)
        }
    }
}

/// An event, as a writer of JSON takes it.
#[derive(Drop)]
struct EventLine<'a> {
    alloc: Global,
    event: &'a Event,
}

impl Described for EventLine<'_> {
    ghost use Rattle.serde_json.specs.Events.{SendsValue};
    ghost use Rattle.stm_event_lines.specs.Lines.{event_data};

    ghost writes = { λ line. SendsValue (event_data line.event.now) };
}

impl Serialize for EventLine<'_> {
    fn serialize<S: Serializer>(&self, out: &mut S) -> Result<(), S::Error> {
        send_event(self.alloc, self.event, out)
    }
}

/// The text of an event's line, without the line feed.
pub fn event_text(alloc: Global, event: &Event) -> Result<String, NoMemory>
    ensures { IfOk result (λ s. string_bytes s ≡ event_line event.now) }
{
    match to_string(alloc, &EventLine { alloc, event }) {
        Ok(text) => Ok(text),
        Err(_) => Err(NoMemory),
    }
}

/// Whether the line is the event's.
pub(crate) fn is_line_of(alloc: Global, event: &Event, line: &[u8]) -> Result<bool, NoMemory>
    ensures { IfOk result (λ r. IsTrue r ↔ (event_line event.now ≡ line.now)) }
{
    let text = event_text(alloc, event)?;
    Ok(text.as_bytes() == line)
}

fn header_json(alloc: Global, format: u32, vars: u32) -> Result<Json, NoMemory>
    ensures { IfOk result (λ v. view v ≡ header_data format vars) }
{
    json!(in alloc; {"format": format, "vars": vars})
}

/// The first line, of this format and for this many variables.
#[tactic(auto, unfolding(crate::specs::Lines::header_line))]
pub fn header_text(alloc: Global, format: u32, vars: u32) -> Result<String, NoMemory>
    ensures { IfOk result (λ s. string_bytes s ≡ header_line format vars) }
{
    let header = header_json(alloc, format, vars)?;
    header.to_string(alloc)
}

fn variable_json(alloc: Global, name: &str, kind: Ty, value: Value) -> Result<Json, NoMemory>
    ensures { IfOk result (λ v. view v
        ≡ variable_data (record { name = name.now; kind = kind; value = value })) }
{
    json!(in alloc; {"init": value_json(alloc, value)?, "name": name, "type": type_text(alloc, kind)?})
}

/// The line of a declared variable.
#[tactic(auto, unfolding(crate::specs::Lines::variable_line))]
pub fn variable_text(alloc: Global, name: &str, kind: Ty, value: Value) -> Result<String, NoMemory>
    ensures { IfOk result (λ s. string_bytes s
        ≡ variable_line (record { name = name.now; kind = kind; value = value })) }
{
    let variable = variable_json(alloc, name, kind, value)?;
    variable.to_string(alloc)
}
