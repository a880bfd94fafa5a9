//! A store on the declared variables, with a copy that is held, so that a change copies the pages that it writes.

ghost use Rattle.std.specs.Prelude.{◌<◌};
ghost use Rattle.stm_store.specs.Cells.{Fits, plains};

use crate::words::{first_word, int, number, say};
use std::alloc::{AllocError, Global};
use std::fmt::Write;
use stm_store::{Applied, ApplyError, Frozen, Store, Table};
use stm_terms::{Base, News, Ty, Value, Verdict, Writes, write_type, write_value};

/// A store, and a copy of what it held when it was opened.
pub struct Held {
    store: Store,
    copy: Frozen,
}

// Written out, and not derived, so that the proof of each owner calls it once.
impl Drop for Held {
    fn drop(self) {
        let Held { store: _, copy: _ } = self;
    }
}

impl Held {
    /// The store.
    pub fn store(&self) -> &Store {
        &self.store
    }
}

/// Opens a store on the declared variables.
pub fn open(
    held: &mut Option<Held>,
    alloc: Global,
    table: &Table,
    out: &mut String,
) -> Result<(), AllocError> {
    let store = Store::open(alloc, table)?;
    let copy = store.freeze()?;
    *held = Some(Held { store, copy });
    say("done", out)
}

/// Variables with values, as `64=8`; without a value it is 7.
pub fn pairs(alloc: Global, words: &str) -> Result<Vec<(u32, Value)>, AllocError> {
    let mut found = Vec::new(alloc);
    for word in words.split_whitespace() {
        let (variable, value) = word.split_once('=').unwrap_or((word, "7"));
        found.push((number(variable), int(value)))?;
    }
    Ok(found)
}

/// A new variable that holds 5.
fn news(alloc: Global) -> Result<Vec<(Ty, Value)>, AllocError> {
    let mut made = Vec::new(alloc);
    let int = Ty {
        base: Base::Int,
        refs: 0,
    };
    made.push((int, Value::Int(5)))?;
    Ok(made)
}

/// A verdict that writes values to variables, and makes one that holds 5.
fn verdict(alloc: Global, words: &str) -> Result<Verdict, AllocError> {
    let writes = Writes::from_vec(pairs(alloc, words)?);
    Ok(Verdict::Commits {
        writes,
        news: News::from_vec(news(alloc)?),
        result: Value::Unit,
    })
}

/// Prints what a verdict did: the number of the first new variable.
fn say_applied(applied: Applied, out: &mut String) -> Result<(), AllocError> {
    writeln!(out, "first {}", applied.first_new)
}

/// Applies a verdict, or prepares and installs it.
fn change(
    store: &mut Store,
    verdict: &Verdict,
    in_place: bool,
    out: &mut String,
) -> Result<(), AllocError>
    requires { Fits (plains store.old) verdict.now }
{
    let applied = if in_place {
        store.apply(verdict)
    } else {
        match store.prepare(verdict) {
            Ok(ready) => Ok(store.install(ready)),
            Err(refusal) => Err(refusal),
        }
    };
    match applied {
        Ok(applied) => say_applied(applied, out),
        Err(ApplyError::CellsFull) => say("refused CellsFull", out),
        Err(ApplyError::NoMemory) => Err(AllocError),
    }
}

/// Prints the variables that a verdict changes.
fn say_changes(store: &Store, verdict: &Verdict, out: &mut String) -> Result<(), AllocError>
    requires { Fits (plains store.now) verdict.now }
{
    out.push_str("changes")?;
    for variable in store.changes(verdict)?.as_slice() {
        write!(out, " {variable}")?;
    }
    say("", out)
}

/// Makes a call with the verdict of its words.
fn answer_verdict(
    store: &mut Store,
    alloc: Global,
    call: &str,
    words: &str,
    out: &mut String,
) -> Result<(), AllocError> {
    let verdict = verdict(alloc, words)?;
    if !store.fits(&verdict) {
        return say("refused misfit", out);
    }
    match call {
        "changes" => say_changes(store, &verdict, out),
        _ => change(store, &verdict, call == "apply", out),
    }
}

/// Prints a variable of the store, and what the copy holds of it.
fn say_cell(held: &Held, id: u32, out: &mut String) -> Result<(), AllocError> {
    if id as usize >= held.store.len() {
        return say("refused no variable", out);
    }
    write_type(held.store.kind(id), out)?;
    out.push_str(" = ")?;
    write_value(held.store.value(id), out)?;
    write!(out, " count {}", held.store.count(id))?;
    if (id as usize) < held.copy.len() {
        out.push_str(" copy ")?;
        write_value(held.copy.value(id), out)?;
    }
    say("", out)
}

/// Makes a call on a store that is open.
fn answer_on(
    held: &mut Held,
    alloc: Global,
    call: &str,
    words: &str,
    out: &mut String,
) -> Result<(), AllocError> {
    if call == "show" {
        say_cell(held, number(words), out)
    } else {
        answer_verdict(&mut held.store, alloc, call, words, out)
    }
}

/// Makes a call on the store.
pub fn answer(
    held: &mut Option<Held>,
    table: &Table,
    alloc: Global,
    text: &str,
    out: &mut String,
) -> Result<(), AllocError> {
    let (call, rest) = first_word(text);
    if call == "open" {
        return open(held, alloc, table, out);
    }
    match held {
        Some(held) => answer_on(held, alloc, call, rest, out),
        None => say("refused no store", out),
    }
}
