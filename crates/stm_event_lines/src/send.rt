//! Verdicts and their parts, sent to a writer of JSON.

ghost use Rattle.std.specs.Prelude.{OnOk, map, codes};
ghost use Rattle.serde_json.specs.Data.{array, object, string, member, no_members};
ghost use Rattle.serde_json.specs.Events.{SendsValue};
ghost use Rattle.serde_json.specs.View.{items_of};
ghost use Rattle.stm_event_lines.specs.Lines.{value_data, write_data, new_data, verdict_data, number_data};
ghost use Rattle.stm_event_lines.specs.Sending.{SendsMember, changes_data};
ghost use Rattle.stm_terms.specs.Texts.{type_text as text_of_type};
ghost use Rattle.stm_terms.specs.declared.values.Fault.TheVariants.{Thrown, Overflow};
ghost use Rattle.stm_terms.specs.declared.verdicts.Verdict.TheVariants.{Commits, Throws};

use crate::build::type_text;
use serde::Serializer;
use std::alloc::Global;
use stm_terms::kinds::Ty;
use stm_terms::values::{Fault, Ref, Value};
use stm_terms::verdicts::Verdict;

/// Sends a member whose value is a number.
pub(crate) fn send_number_at<S: Serializer>(
    key: &str,
    number: u32,
    out: &mut S,
) -> Result<(), S::Error>
    ensures { OnOk result (SendsMember key.now (number_data number)
        (S.written out.old) (S.written out.new)) }
{
    out.key(key)?;
    out.u64(number as u64)
}

/// Sends a member whose value is a text.
pub(crate) fn send_text_at<S: Serializer>(
    key: &str,
    text: &str,
    out: &mut S,
) -> Result<(), S::Error>
    ensures { OnOk result (SendsMember key.now (string text.now)
        (S.written out.old) (S.written out.new)) }
{
    out.key(key)?;
    out.str(text)
}

fn send_int<S: Serializer>(number: i64, out: &mut S) -> Result<(), S::Error>
    ensures { OnOk result (SendsValue (value_data (Value.Int number))
        (S.written out.old) (S.written out.new)) }
{
    if number < 0 {
        out.i64(number)
    } else {
        out.u64(number as u64)
    }
}

fn send_reference<S: Serializer>(key: &str, number: u32, out: &mut S) -> Result<(), S::Error>
    ensures { OnOk result (SendsValue (object (member key.now (number_data number) no_members))
        (S.written out.old) (S.written out.new)) }
{
    out.begin_map(Some(1))?;
    send_number_at(key, number, out)?;
    out.end_map()
}

/// Writes a value as JSON.
pub(crate) fn send_value<S: Serializer>(value: Value, out: &mut S) -> Result<(), S::Error>
    ensures { OnOk result (SendsValue (value_data value) (S.written out.old) (S.written out.new)) }
{
    match value {
        Value::Int(number) => send_int(number, out),
        Value::Bool(b) => out.bool(b),
        Value::Unit => out.unit(),
        Value::Var(Ref::Old(number)) => send_reference("old", number, out),
        Value::Var(Ref::New(number)) => send_reference("new", number, out),
    }
}

fn send_write<S: Serializer>(write: (u32, Value), out: &mut S) -> Result<(), S::Error>
    ensures { OnOk result (SendsValue (write_data write) (S.written out.old) (S.written out.new)) }
{
    out.begin_seq(Some(2))?;
    out.u64(write.0 as u64)?;
    send_value(write.1, out)?;
    out.end_seq()
}

/// Writes a type as JSON: its text.
pub(crate) fn send_type<S: Serializer>(alloc: Global, kind: Ty, out: &mut S) -> Result<(), S::Error>
    ensures { OnOk result (SendsValue (string (text_of_type kind))
        (S.written out.old) (S.written out.new)) }
{
    match type_text(alloc, kind) {
        Ok(text) => out.str(text.as_str()),
        Err(_) => Err(out.custom("out of memory")),
    }
}

fn send_new<S: Serializer>(alloc: Global, new: (Ty, Value), out: &mut S) -> Result<(), S::Error>
    ensures { OnOk result (SendsValue (new_data new) (S.written out.old) (S.written out.new)) }
{
    out.begin_seq(Some(2))?;
    send_type(alloc, new.0, out)?;
    send_value(new.1, out)?;
    out.end_seq()
}

/// Sends a list of pairs of a variable's number and a value.
pub(crate) fn send_writes<S: Serializer>(
    writes: &[(u32, Value)],
    out: &mut S,
) -> Result<(), S::Error>
    ensures { OnOk result (SendsValue (array (items_of (map write_data writes.now)))
        (S.written out.old) (S.written out.new)) }
{
    out.begin_seq(Some(writes.len()))?;
    for write in writes {
        send_write(*write, out)?;
    }
    out.end_seq()
}

fn send_news<S: Serializer>(
    alloc: Global,
    news: &[(Ty, Value)],
    out: &mut S,
) -> Result<(), S::Error>
    ensures { OnOk result (SendsValue (array (items_of (map new_data news.now)))
        (S.written out.old) (S.written out.new)) }
{
    out.begin_seq(Some(news.len()))?;
    for new in news {
        send_new(alloc, *new, out)?;
    }
    out.end_seq()
}

/// Sends a list of numbers.
pub(crate) fn send_numbers<S: Serializer>(numbers: &[u32], out: &mut S) -> Result<(), S::Error>
    ensures { OnOk result (SendsValue (array (items_of (map number_data numbers.now)))
        (S.written out.old) (S.written out.new)) }
{
    out.begin_seq(Some(numbers.len()))?;
    for number in numbers {
        out.u64(*number as u64)?;
    }
    out.end_seq()
}

fn send_news_at<S: Serializer>(
    alloc: Global,
    news: &[(Ty, Value)],
    out: &mut S,
) -> Result<(), S::Error>
    ensures { OnOk result (SendsMember (codes "news") (array (items_of (map new_data news.now)))
        (S.written out.old) (S.written out.new)) }
{
    out.key("news")?;
    send_news(alloc, news, out)
}

fn send_result_at<S: Serializer>(given: Value, out: &mut S) -> Result<(), S::Error>
    ensures { OnOk result (SendsMember (codes "result") (value_data given)
        (S.written out.old) (S.written out.new)) }
{
    out.key("result")?;
    send_value(given, out)
}

fn send_writes_at<S: Serializer>(writes: &[(u32, Value)], out: &mut S) -> Result<(), S::Error>
    ensures { OnOk result (SendsMember (codes "writes")
        (array (items_of (map write_data writes.now)))
        (S.written out.old) (S.written out.new)) }
{
    out.key("writes")?;
    send_writes(writes, out)
}

fn send_changes<S: Serializer>(
    alloc: Global,
    writes: &[(u32, Value)],
    news: &[(Ty, Value)],
    given: Value,
    out: &mut S,
) -> Result<(), S::Error>
    ensures { OnOk result (SendsValue (changes_data writes.now news.now given)
        (S.written out.old) (S.written out.new)) }
{
    out.begin_map(Some(3))?;
    send_news_at(alloc, news, out)?;
    send_result_at(given, out)?;
    send_writes_at(writes, out)?;
    out.end_map()
}

fn send_commits<S: Serializer>(
    alloc: Global,
    writes: &[(u32, Value)],
    news: &[(Ty, Value)],
    given: Value,
    out: &mut S,
) -> Result<(), S::Error>
    ensures { OnOk result (SendsValue (verdict_data (Commits writes.now news.now given))
        (S.written out.old) (S.written out.new)) }
{
    out.begin_map(Some(1))?;
    out.key("commits")?;
    send_changes(alloc, writes, news, given, out)?;
    out.end_map()
}

fn send_thrown<S: Serializer>(number: i64, out: &mut S) -> Result<(), S::Error>
    ensures { OnOk result (SendsValue (verdict_data (Throws (Thrown number)))
        (S.written out.old) (S.written out.new)) }
{
    out.begin_map(Some(1))?;
    out.key("throws")?;
    send_int(number, out)?;
    out.end_map()
}

fn send_overflow<S: Serializer>(out: &mut S) -> Result<(), S::Error>
    ensures { OnOk result (SendsValue (verdict_data (Throws Overflow))
        (S.written out.old) (S.written out.new)) }
{
    out.begin_map(Some(1))?;
    send_text_at("throws", "overflow", out)?;
    out.end_map()
}

/// Sends a verdict.
pub(crate) fn send_verdict<S: Serializer>(
    alloc: Global,
    verdict: &Verdict,
    out: &mut S,
) -> Result<(), S::Error>
    ensures { OnOk result (SendsValue (verdict_data verdict.now)
        (S.written out.old) (S.written out.new)) }
{
    match verdict {
        Verdict::Commits {
            writes,
            news,
            result,
        } => send_commits(alloc, writes.as_slice(), news.as_slice(), *result, out),
        Verdict::Throws(Fault::Thrown(number)) => send_thrown(*number, out),
        Verdict::Throws(Fault::Overflow) => send_overflow(out),
        Verdict::Blocks => out.str("blocks"),
    }
}
