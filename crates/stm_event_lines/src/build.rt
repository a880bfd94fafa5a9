//! The texts of types, and the JSON values of values.

ghost use Rattle.std.specs.Prelude.{◌≡◌, IfOk, string_bytes};
ghost use Rattle.serde_json.specs.View.{view};
ghost use Rattle.stm_event_lines.specs.Lines.{value_data};
ghost use Rattle.stm_terms.specs.Texts.{type_text as text_of_type};

use serde_json::{Value as Json, json};
use std::alloc::Global;
use stm_terms::NoMemory;
use stm_terms::kinds::Ty;
use stm_terms::text::write_type;
use stm_terms::values::{Ref, Value};

/// A type, as histories write it: `TVar Int`.
pub(crate) fn type_text(alloc: Global, ty: Ty) -> Result<String, NoMemory>
    ensures { IfOk result (λ s. string_bytes s ≡ text_of_type ty) }
{
    let mut text = String::new(alloc);
    write_type(ty, &mut text)?;
    Ok(text)
}

/// A value as JSON: a number, a truth value, `null` for the unit, or the reference to a variable as an object.
pub(crate) fn value_json(alloc: Global, value: Value) -> Result<Json, NoMemory>
    ensures { IfOk result (λ v. view v ≡ value_data value) }
{
    match value {
        Value::Int(n) => Ok(Json::from(n)),
        Value::Bool(b) => Ok(Json::from(b)),
        Value::Unit => Ok(Json::from(())),
        Value::Var(Ref::Old(i)) => json!(in alloc; {"old": i}),
        Value::Var(Ref::New(k)) => json!(in alloc; {"new": k}),
    }
}
