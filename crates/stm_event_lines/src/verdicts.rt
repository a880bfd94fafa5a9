//! The verdict that a JSON value represents.

ghost use Rattle.std.specs.Prelude.{◌≡◌, Some, None, IfOk, IfSome, option_and_then};
ghost use Rattle.serde_json.specs.View.{view};
ghost use Rattle.serde_json.specs.Find.{get};
ghost use Rattle.stm_event_lines.specs.Fields.{commits_of, fault_of, verdict_of};
ghost use Rattle.stm_event_lines.specs.Fits.{FitsVerdict};
ghost use Rattle.stm_terms.specs.declared.verdicts.Verdict.TheVariants.{Throws};

use crate::fields::value_at;
use crate::parts::{news_at, writes_at};
use serde_json::Value as Json;
use std::alloc::Global;
use stm_terms::NoMemory;
use stm_terms::lists::{News, Writes};
use stm_terms::values::Fault;
use stm_terms::verdicts::Verdict;

fn fault(json: &Json) -> Option<Fault>
    ensures value { result ≡ fault_of (view json.now) }
    ensures fits { IfSome result (λ f. FitsVerdict (Throws f)) }
{
    match json.as_i64() {
        Some(n) => Some(Fault::Thrown(n)),
        None => {
            if json.is_string() {
                Some(Fault::Overflow)
            } else {
                None
            }
        }
    }
}

fn fault_at(json: &Json, key: &str) -> Option<Fault>
    ensures value { result ≡ option_and_then fault_of (get key.now (view json.now)) }
    ensures fits { IfSome result (λ f. FitsVerdict (Throws f)) }
{
    fault(json.get(key)?)
}

fn commits(alloc: Global, json: &Json) -> Result<Option<Verdict>, NoMemory>
    ensures value { IfOk result (λ o. o ≡ commits_of (view json.now)) }
    ensures fits { IfOk result (λ o. IfSome o (λ v. FitsVerdict v)) }
{
    let Some(writes) = writes_at(alloc, json, "writes")? else {
        return Ok(None);
    };
    let Some(news) = news_at(alloc, json, "news")? else {
        return Ok(None);
    };
    let Some(result) = value_at(json, "result") else {
        return Ok(None);
    };
    Ok(Some(Verdict::Commits {
        writes: Writes::from_vec(writes),
        news: News::from_vec(news),
        result,
    }))
}

fn commits_at(alloc: Global, json: &Json, key: &str) -> Result<Option<Verdict>, NoMemory>
    ensures value { IfOk result (λ o. o
        ≡ option_and_then commits_of (get key.now (view json.now))) }
    ensures fits { IfOk result (λ o. IfSome o (λ v. FitsVerdict v)) }
{
    match json.get(key) {
        Some(inner) => commits(alloc, inner),
        None => Ok(None),
    }
}

fn verdict(alloc: Global, json: &Json) -> Result<Option<Verdict>, NoMemory>
    ensures value { IfOk result (λ o. o ≡ verdict_of (view json.now)) }
    ensures fits { IfOk result (λ o. IfSome o (λ v. FitsVerdict v)) }
{
    if json.is_string() {
        return Ok(Some(Verdict::Blocks));
    }
    match fault_at(json, "throws") {
        Some(fault) => Ok(Some(Verdict::Throws(fault))),
        None => commits_at(alloc, json, "commits"),
    }
}

/// The verdict in a field of an object, if one is there and all its parts are right.
pub(crate) fn verdict_at(alloc: Global, json: &Json, key: &str) -> Result<Option<Verdict>, NoMemory>
    ensures value { IfOk result (λ o. o
        ≡ option_and_then verdict_of (get key.now (view json.now))) }
    ensures fits { IfOk result (λ o. IfSome o (λ v. FitsVerdict v)) }
{
    match json.get(key) {
        Some(inner) => verdict(alloc, inner),
        None => Ok(None),
    }
}
