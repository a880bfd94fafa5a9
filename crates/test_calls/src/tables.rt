//! Declares variables.

ghost use Rattle.std.specs.Prelude.{IsTrue};
ghost use Rattle.stm_terms.specs.Names.{is_name_text};

use crate::words::{first_word, number, say};
use std::alloc::{AllocError, Global};
use std::fmt::Write;
use stm_parse::{Declaration, Init, ParseFault, parse_declare};
use stm_store::{DeclareError, Table};
use stm_terms::{Base, Ref, Ty, Value, is_name};

const INT: Ty = Ty {
    base: Base::Int,
    refs: 0,
};

/// Declares a variable; the second level of the result is the refusal.
fn declare(
    table: &mut Table,
    name: &str,
    kind: Ty,
    value: Value,
) -> Result<Result<u32, DeclareError>, AllocError>
    requires { IsTrue (is_name_text name.now) }
{
    match table.declare(name, kind, value) {
        Err(DeclareError::NoMemory) => Err(AllocError),
        answer => Ok(answer),
    }
}

/// The first value that is written; a name that isn't declared is variable 4,294,967,295.
fn initial(table: &Table, init: &Init) -> Value {
    match init {
        Init::Literal(value) => *value,
        Init::Name(name, _) => {
            Value::Var(Ref::Old(table.find(name.as_str()).unwrap_or(u32::MAX)))
        }
    }
}

fn declare_read(
    table: &mut Table,
    declaration: &Declaration,
    out: &mut String,
) -> Result<(), AllocError> {
    let name = declaration.name.as_str();
    if !is_name(name) {
        return say("refused no name", out);
    }
    let value = initial(table, &declaration.init);
    match declare(table, name, declaration.ty, value)? {
        Ok(number) => writeln!(out, "{number}"),
        Err(refusal) => writeln!(out, "refused {refusal:?}"),
    }
}

/// Declares the variable of a text.
pub fn answer_declare(
    table: &mut Table,
    alloc: Global,
    text: &str,
    out: &mut String,
) -> Result<(), AllocError> {
    match parse_declare(alloc, text) {
        Ok(declaration) => declare_read(table, &declaration, out),
        Err(ParseFault::NoMemory) => Err(AllocError),
        Err(fault) => writeln!(out, "refused {fault:?}"),
    }
}

/// Declares a variable that is named by its number, as `v17`.
fn declare_numbered(table: &mut Table, alloc: Global, number: u32) -> Result<(), AllocError> {
    let text = format!(in alloc; "v{number}")?;
    let name = text.as_str();
    if is_name(name) {
        let _ = declare(table, name, INT, Value::Int(0))?;
    }
    Ok(())
}

/// Declares `Int` variables of value 0, each named by its number, until there are N.
fn declare_numbers(table: &mut Table, alloc: Global, count: u32) -> Result<(), AllocError> {
    let first = table.len() as u32;
    for number in first..count {
        declare_numbered(table, alloc, number)?;
    }
    Ok(())
}

/// The same on a copy, so that all of them are declared or none.
fn declare_many(table: &mut Table, alloc: Global, count: u32) -> Result<(), AllocError> {
    let mut declared = table.copy(alloc)?;
    declare_numbers(&mut declared, alloc, count)?;
    *table = declared;
    Ok(())
}

/// Makes a call on the declared variables.
pub fn answer(
    table: &mut Table,
    alloc: Global,
    text: &str,
    out: &mut String,
) -> Result<(), AllocError> {
    let (call, rest) = first_word(text);
    match call {
        "declare" => answer_declare(table, alloc, rest, out),
        "new" => {
            *table = Table::empty(alloc);
            say("done", out)
        }
        "many" => {
            declare_many(table, alloc, number(rest))?;
            say("done", out)
        }
        _ => say("no such call", out),
    }
}
