//! The lists of a JSON value: writes, new variables, numbers.

ghost use Rattle.std.specs.Prelude.{◌≡◌, ◌≤◌, Some, None, IfOk, IfSome, option_map, option_and_then};
ghost use Rattle.serde_json.specs.View.{view, items_view};
ghost use Rattle.serde_json.specs.Find.{at, as_str};
ghost use Rattle.stm_event_lines.specs.Fields.{u32_of, value_of, type_in, write_of, new_of, all_of, list_field};
ghost use Rattle.stm_terms.specs.Limits.{most_refs};
ghost use Rattle.stm_event_lines.specs.Fits.{Is32Bit, FitsValue, FitWrites, FitNews, FitNumbers};

use crate::fields::{array_at, number, type_of, value};
use serde_json::Value as Json;
use std::alloc::Global;
use stm_terms::NoMemory;
use stm_terms::kinds::Ty;
use stm_terms::values::Value;

fn write(json: &Json) -> Option<(u32, Value)>
    ensures value { result ≡ write_of (view json.now) }
    ensures fits { IfSome result (λ w. Is32Bit w.0 × FitsValue w.1) }
{
    let id = number(json.get(0usize)?)?;
    let value = value(json.get(1usize)?)?;
    Some((id, value))
}

fn first_text(json: &Json) -> Option<&str>
    ensures { option_map (λ s. s.now) result ≡ option_and_then as_str (at 0 (view json.now)) }
{
    json.get(0usize)?.as_str()
}

fn second_value(json: &Json) -> Option<Value>
    ensures value { result ≡ option_and_then value_of (at 1 (view json.now)) }
    ensures fits { IfSome result (λ v. FitsValue v) }
{
    value(json.get(1usize)?)
}

fn first_type(alloc: Global, json: &Json) -> Result<Option<Ty>, NoMemory>
    ensures value { IfOk result (λ o. o
        ≡ option_and_then type_in (option_and_then as_str (at 0 (view json.now)))) }
    ensures fits { IfOk result (λ o. IfSome o (λ t. t.refs ≤ most_refs)) }
{
    match first_text(json) {
        Some(text) => type_of(alloc, text),
        None => Ok(None),
    }
}

fn new(alloc: Global, json: &Json) -> Result<Option<(Ty, Value)>, NoMemory>
    ensures value { IfOk result (λ o. o ≡ new_of (view json.now)) }
    ensures fits { IfOk result (λ o.
        IfSome o (λ n. (n.0.refs ≤ most_refs) × FitsValue n.1)) }
{
    let Some(ty) = first_type(alloc, json)? else {
        return Ok(None);
    };
    match second_value(json) {
        Some(value) => Ok(Some((ty, value))),
        None => Ok(None),
    }
}

fn writes(alloc: Global, list: &[Json]) -> Result<Option<Vec<(u32, Value)>>, NoMemory>
    ensures value { IfOk result (λ o. option_map (λ v. v.items) o
        ≡ all_of write_of (items_view list.now)) }
    ensures fits { IfOk result (λ o. IfSome o (λ v. FitWrites v.items)) }
{
    let mut found = Vec::new(alloc);
    for json in list {
        match write(json) {
            Some(w) => found.push(w)?,
            None => return Ok(None),
        }
    }
    Ok(Some(found))
}

fn news(alloc: Global, list: &[Json]) -> Result<Option<Vec<(Ty, Value)>>, NoMemory>
    ensures value { IfOk result (λ o. option_map (λ v. v.items) o
        ≡ all_of new_of (items_view list.now)) }
    ensures fits { IfOk result (λ o. IfSome o (λ v. FitNews v.items)) }
{
    let mut found = Vec::new(alloc);
    for json in list {
        match new(alloc, json)? {
            Some(n) => found.push(n)?,
            None => return Ok(None),
        }
    }
    Ok(Some(found))
}

fn numbers(alloc: Global, list: &[Json]) -> Result<Option<Vec<u32>>, NoMemory>
    ensures value { IfOk result (λ o. option_map (λ v. v.items) o
        ≡ all_of u32_of (items_view list.now)) }
    ensures fits { IfOk result (λ o. IfSome o (λ v. FitNumbers v.items)) }
{
    let mut found = Vec::new(alloc);
    for json in list {
        match number(json) {
            Some(n) => found.push(n)?,
            None => return Ok(None),
        }
    }
    Ok(Some(found))
}

/// The writes in a field of an object, each a pair of a variable and its value, if all are right.
pub(crate) fn writes_at(
    alloc: Global,
    json: &Json,
    key: &str,
) -> Result<Option<Vec<(u32, Value)>>, NoMemory>
    ensures value { IfOk result (λ o. option_map (λ v. v.items) o
        ≡ list_field write_of key.now (view json.now)) }
    ensures fits { IfOk result (λ o. IfSome o (λ v. FitWrites v.items)) }
{
    match array_at(json, key) {
        Some(list) => writes(alloc, list),
        None => Ok(None),
    }
}

/// The new variables in a field of an object, each a pair of its type and its value, if all are right.
pub(crate) fn news_at(
    alloc: Global,
    json: &Json,
    key: &str,
) -> Result<Option<Vec<(Ty, Value)>>, NoMemory>
    ensures value { IfOk result (λ o. option_map (λ v. v.items) o
        ≡ list_field new_of key.now (view json.now)) }
    ensures fits { IfOk result (λ o. IfSome o (λ v. FitNews v.items)) }
{
    match array_at(json, key) {
        Some(list) => news(alloc, list),
        None => Ok(None),
    }
}

/// The numbers of 32 bits in a field of an object, if all are right.
pub(crate) fn numbers_at(
    alloc: Global,
    json: &Json,
    key: &str,
) -> Result<Option<Vec<u32>>, NoMemory>
    ensures value { IfOk result (λ o. option_map (λ v. v.items) o
        ≡ list_field u32_of key.now (view json.now)) }
    ensures fits { IfOk result (λ o. IfSome o (λ v. FitNumbers v.items)) }
{
    match array_at(json, key) {
        Some(list) => numbers(alloc, list),
        None => Ok(None),
    }
}
