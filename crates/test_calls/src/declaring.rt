//! Variables that are declared late, on a desk or by a client of a shared one.

ghost use Rattle.std.specs.Prelude.{◌<◌};
ghost use Rattle.stm_terms.specs.Limits.{max_clients};

use crate::blocks::say_parse_fault;
use crate::words::say;
use std::alloc::{AllocError, Global};
use std::fmt::Write;
use std::sync::Wait;
use std::sync::ledger::Ledger;
use stm_desk::{Desk, LateDeclareError};
use stm_parse::{Declaration, Init, parse_declare};
use stm_pool::{Pass, SharedDesk};
use stm_store::{Names, Table};
use stm_terms::{Ref, Value, is_name};

/// The first value that is written; a name that isn't declared is variable 4,294,967,295.
fn initial(names: &Names, init: &Init) -> Value {
    match init {
        Init::Literal(value) => *value,
        Init::Name(name, _) => Value::Var(Ref::Old(match names.find(name.as_str()) {
            Some((number, _)) => number,
            None => u32::MAX,
        })),
    }
}

/// Prints the number of the variable, or why it isn't declared.
fn say_declared(answer: Result<u32, LateDeclareError>, out: &mut String) -> Result<(), AllocError> {
    match answer {
        Ok(number) => writeln!(out, "{number}"),
        Err(LateDeclareError::NoMemory) => Err(AllocError),
        Err(refusal) => writeln!(out, "refused {refusal:?}"),
    }
}

fn declare_on(
    desk: &mut Desk,
    client: u32,
    declaration: &Declaration,
    out: &mut String,
) -> Result<(), AllocError>
    requires { client < max_clients }
{
    let name = declaration.name.as_str();
    if !is_name(name) {
        return say("refused no name", out);
    }
    let value = initial(desk.names(), &declaration.init);
    say_declared(desk.declare(client, name, declaration.ty, value), out)
}

/// Declares the variable of a text on a desk.
pub fn answer_desk(
    desk: &mut Desk,
    client: u32,
    alloc: Global,
    text: &str,
    out: &mut String,
) -> Result<(), AllocError>
    requires { client < max_clients }
{
    match parse_declare(alloc, text) {
        Ok(declaration) => declare_on(desk, client, &declaration, out),
        Err(fault) => say_parse_fault(fault, out),
    }
}

fn declare_shared<L: Ledger, R: Wait>(
    shared: &SharedDesk<L>,
    pass: &mut Pass<L>,
    names: &Names,
    rt: &R,
    declaration: &Declaration,
    out: &mut String,
) -> Result<(), AllocError> {
    let name = declaration.name.as_str();
    if !is_name(name) {
        return say("refused no name", out);
    }
    let value = initial(names, &declaration.init);
    say_declared(shared.declare(rt, pass, name, declaration.ty, value), out)
}

/// Declares the variable of a text on a shared desk. A first value may name a variable of the table.
pub fn answer_shared<L: Ledger, R: Wait>(
    shared: &SharedDesk<L>,
    pass: &mut Pass<L>,
    table: &Table,
    rt: &R,
    alloc: Global,
    text: &str,
    out: &mut String,
) -> Result<(), AllocError> {
    let names = Names::of_table(alloc, table)?;
    match parse_declare(alloc, text) {
        Ok(declaration) => declare_shared(shared, pass, &names, rt, &declaration, out),
        Err(fault) => say_parse_fault(fault, out),
    }
}
