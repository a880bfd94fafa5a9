//! The fields of a JSON value: numbers, texts, types and values.

ghost use Rattle.std.specs.Prelude.{◌≡◌, ◌<◌, ◌≤◌, Some, None, IfOk, IfSome, option_map, option_and_then};
ghost use Rattle.serde_json.specs.View.{view, items_view};
ghost use Rattle.serde_json.specs.Find.{get, as_array};
ghost use Rattle.stm_event_lines.specs.Fields.{u32_of, text_field, number_field, type_in as type_meant, reference_of, value_of};
ghost use Rattle.stm_terms.specs.Limits.{most_refs};
ghost use Rattle.stm_event_lines.specs.Fits.{Is32Bit, FitsValue};

use serde_json::Value as Json;
use std::alloc::Global;
use stm_parse::{ParseFault, parse_type};
use stm_terms::NoMemory;
use stm_terms::kinds::Ty;
use stm_terms::values::{Ref, Value};

/// The number of 32 bits that a JSON value is, if it is one.
pub(crate) fn number(json: &Json) -> Option<u32>
    ensures value { result ≡ u32_of (view json.now) }
    ensures fits { IfSome result (λ n. Is32Bit n) }
{
    let n = json.as_u64()?;
    if n <= u32::MAX as u64 {
        Some(n as u32)
    } else {
        None
    }
}

/// The text in a field of an object, if one is there.
pub(crate) fn text_at<'a>(json: &'a Json, key: &str) -> Option<&'a str>
    ensures { option_map (λ s. s.now) result ≡ text_field key.now (view json.now) }
{
    json.get(key)?.as_str()
}

/// The number of 32 bits in a field of an object, if one is there.
pub(crate) fn number_at(json: &Json, key: &str) -> Option<u32>
    ensures value { result ≡ number_field key.now (view json.now) }
    ensures fits { IfSome result (λ n. Is32Bit n) }
{
    number(json.get(key)?)
}

/// The type that a text writes as histories write it, if it writes one.
pub(crate) fn type_of(alloc: Global, text: &str) -> Result<Option<Ty>, NoMemory>
    ensures value { IfOk result (λ o. o ≡ type_meant text.now) }
    ensures fits { IfOk result (λ o. IfSome o (λ t. t.refs ≤ most_refs)) }
{
    match parse_type(alloc, text) {
        Ok(ty) => Ok(Some(ty)),
        Err(ParseFault::NoMemory) => Err(NoMemory),
        Err(_) => Ok(None),
    }
}

fn reference(json: &Json) -> Option<Value>
    ensures value { result ≡ reference_of (view json.now) }
    ensures fits { IfSome result (λ v. FitsValue v) }
{
    match number_at(json, "old") {
        Some(i) => Some(Value::Var(Ref::Old(i))),
        None => match number_at(json, "new") {
            Some(k) => Some(Value::Var(Ref::New(k))),
            None => None,
        },
    }
}

/// The value that a JSON value stands for, if it stands for one.
pub(crate) fn value(json: &Json) -> Option<Value>
    ensures value { result ≡ value_of (view json.now) }
    ensures fits { IfSome result (λ v. FitsValue v) }
{
    if json.is_null() {
        return Some(Value::Unit);
    }
    match json.as_bool() {
        Some(b) => Some(Value::Bool(b)),
        None => match json.as_i64() {
            Some(n) => Some(Value::Int(n)),
            None => reference(json),
        },
    }
}

/// The value in a field of an object, if one is there.
pub(crate) fn value_at(json: &Json, key: &str) -> Option<Value>
    ensures value { result ≡ option_and_then value_of (get key.now (view json.now)) }
    ensures fits { IfSome result (λ v. FitsValue v) }
{
    value(json.get(key)?)
}

/// The items of the array in a field of an object, if one is there.
pub(crate) fn array_at<'a>(json: &'a Json, key: &str) -> Option<&'a [Json]>
    ensures { option_map (λ v. items_view v.now) result
        ≡ option_and_then as_array (get key.now (view json.now)) }
{
    match json.get(key)?.as_array() {
        Some(list) => Some(list.as_slice()),
        None => None,
    }
}
