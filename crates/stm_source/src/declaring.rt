//! Variables from their texts.

ghost use Rattle.std.specs.Prelude.{◌≡◌, IfOk, IsTrue};
ghost use Rattle.stm_parse.specs.Declarations.{parsed_initial};
ghost use Rattle.stm_source.specs.DeclaredVariable.{initial as initial_of, late_initial as late_initial_of, variable_of, late_variable_of};
ghost use Rattle.stm_source.specs.LateVariables.{late_variable as variable_in};
ghost use Rattle.stm_source.specs.OutOfMemory.{IsOutOfMemory};
ghost use Rattle.stm_terms.specs.Names.{is_name_text};
ghost use Rattle.stm_terms.specs.UnlessNoMemory.{AnswersExcept};
ghost use Rattle.stm_source.specs.Declares.{Declares};

use crate::refusal::Refusal;
use std::alloc::Global;
use stm_parse::{Init, parse_declare};
use stm_store::{Names, Table};
use stm_terms::kinds::Ty;
use stm_terms::values::{Ref, Value};

/// The first value of a declared variable: a literal, or a reference to the variable of a name. `Unknown`, with the place of the name, if it
/// isn't declared.
pub fn initial(table: &Table, init: &Init) -> Result<Value, Refusal>
    ensures { result ≡ initial_of table.now (parsed_initial init.now) }
{
    match init {
        Init::Literal(value) => Ok(*value),
        Init::Name(name, place) => match table.find(name.as_str()) {
            Some(number) => Ok(Value::Var(Ref::Old(number))),
            None => Err(Refusal::Unknown(*place)),
        },
    }
}

/// A variable that is declared late.
#[derive(Drop)]
pub struct LateVariable {
    pub name: String,
    pub kind: Ty,
    pub value: Value,
}

/// The first value of a variable that is declared late.
fn late_initial(known: &Names, init: &Init) -> Result<Value, Refusal>
    ensures { result ≡ late_initial_of known.now (parsed_initial init.now) }
{
    match init {
        Init::Literal(value) => Ok(*value),
        Init::Name(name, place) => match known.find(name.as_str()) {
            Some((number, _kind)) => Ok(Value::Var(Ref::Old(number))),
            None => Err(Refusal::Unknown(*place)),
        },
    }
}

/// The variable that a text declares late, over the names that are known then.
#[tactic(auto, unfolding(crate::specs::DeclaredVariable::late_variable_of))]
pub fn late_variable(alloc: Global, known: &Names, text: &str) -> Result<LateVariable, Refusal>
    ensures answer { AnswersExcept IsOutOfMemory variable_in result (late_variable_of known.now text.now) }
    ensures name { IfOk result (λ v. IsTrue (is_name_text (variable_in v).name)) }
{
    let declaration = parse_declare(alloc, text)?;
    let value = late_initial(known, &declaration.init)?;
    Ok(LateVariable {
        name: declaration.name,
        kind: declaration.ty,
        value,
    })
}

/// Declares the variable of a text after the others, and returns its number.
#[tactic(auto, unfolding(crate::specs::DeclaredVariable::variable_of))]
pub fn declare(alloc: Global, table: &mut Table, text: &str) -> Result<u32, Refusal>
    ensures { Declares table.old result table.new (variable_of table.old text.now) }
{
    let declaration = parse_declare(alloc, text)?;
    let value = initial(table, &declaration.init)?;
    let number = table.declare(declaration.name.as_str(), declaration.ty, value)?;
    Ok(number)
}
