//! The history of the desk as text: written, checked and replayed, and a desk that goes on from it.

use crate::desks::Desks;
use crate::words::{first_word, number, say};
use std::alloc::{AllocError, Global};
use std::fmt::Write as Formatted;
use std::io;
use std::io::{ErrorKind, Write};
use stm_desk::Desk;
use stm_history::{
    HistoryFault, Legal, LoadFault, check_history, labels_after_history, load_history, replay,
};
use stm_history_text::{WriteFault, write_history};
use stm_store::Seed;

/// Bytes that were written.
#[derive(Drop)]
pub struct Gathered {
    bytes: Vec<u8>,
}

impl Gathered {
    /// None.
    pub fn new(alloc: Global) -> Gathered {
        Gathered {
            bytes: Vec::new(alloc),
        }
    }
}

impl Write for Gathered {
    fn write(&mut self, buf: &[u8]) -> io::Result<usize> {
        match self.bytes.extend_from_slice(buf) {
            Ok(()) => Ok(buf.len()),
            Err(_) => Err(ErrorKind::OutOfMemory.into()),
        }
    }

    fn flush(&mut self) -> io::Result<()> {
        Ok(())
    }
}

/// Prints what a judgement says.
fn say_judgement(
    judgement: Result<Legal, HistoryFault>,
    out: &mut String,
) -> Result<(), AllocError> {
    match judgement {
        Ok(legal) => writeln!(
            out,
            "legal {} events waiting {} cells {}",
            legal.events, legal.waiting, legal.cells
        ),
        Err(HistoryFault::NoMemory) => Err(AllocError),
        Err(fault) => writeln!(out, "refused {fault:?}"),
    }
}

/// Judges the events of a desk.
pub fn say_replay(desk: &Desk, alloc: Global, out: &mut String) -> Result<(), AllocError> {
    say_judgement(replay(alloc, desk.table(), desk.history()), out)
}

/// Judges what was written.
fn judge(gathered: &Gathered, alloc: Global, out: &mut String) -> Result<(), AllocError> {
    let mut reader = gathered.bytes.as_slice();
    say_judgement(check_history(alloc, &mut reader), out)
}

fn show(gathered: &Gathered, out: &mut String) -> Result<(), AllocError> {
    match str::from_utf8(&gathered.bytes) {
        Ok(text) => out.push_str(text),
        Err(_) => say("no text", out),
    }
}

/// Writes the history of the desk, in place of what was written before.
fn write(
    gathered: &mut Gathered,
    desk: &Desk,
    alloc: Global,
    out: &mut String,
) -> Result<(), AllocError> {
    let mut written = Gathered::new(alloc);
    match write_history(
        alloc,
        &mut written,
        desk.table(),
        desk.begins_from(),
        desk.history(),
    ) {
        Ok(()) => {}
        Err(WriteFault::Write) | Err(WriteFault::NoMemory) => return Err(AllocError),
    }
    *gathered = written;
    say("done", out)
}

/// Judges the events of a desk, if they begin with the first values of the variables.
fn say_replay_of(desk: &Desk, alloc: Global, out: &mut String) -> Result<(), AllocError> {
    match desk.begins_from() {
        None => say_replay(desk, alloc, out),
        Some(_) => say("refused a checkpoint", out),
    }
}

/// The desk that goes on from what was written, in place of the one that was there.
fn resume(
    gathered: &Gathered,
    desks: &mut Desks,
    alloc: Global,
    limit: u32,
    out: &mut String,
) -> Result<(), AllocError> {
    if limit > Desk::MAX_EVENTS {
        return say("refused too many events", out);
    }
    let mut reader = gathered.bytes.as_slice();
    match load_history(alloc, Seed::fixed(), &mut reader) {
        Ok(loaded) => {
            let (table, checkpoint, events, machine) = loaded.into_parts();
            let labels = labels_after_history(alloc, checkpoint.as_ref(), events.as_slice())?;
            match Desk::resume(table, checkpoint, events, machine, labels, limit) {
                Ok(desk) => {
                    desks.replace(desk);
                    say("done", out)
                }
                Err(refusal) => writeln!(out, "refused {refusal:?}"),
            }
        }
        Err(LoadFault::Fault(HistoryFault::NoMemory)) => Err(AllocError),
        Err(fault) => writeln!(out, "refused {fault:?}"),
    }
}

/// Makes a call on histories.
pub fn answer(
    gathered: &mut Gathered,
    desks: &mut Desks,
    alloc: Global,
    text: &str,
    out: &mut String,
) -> Result<(), AllocError> {
    let (call, rest) = first_word(text);
    if call == "resume" {
        return resume(gathered, desks, alloc, number(rest), out);
    }
    match (call, desks.desk()) {
        ("show", _) => show(gathered, out),
        ("check", _) => judge(gathered, alloc, out),
        ("write", Some(desk)) => write(gathered, desk, alloc, out),
        ("replay", Some(desk)) => say_replay_of(desk, alloc, out),
        (_, None) => say("refused no desk", out),
        _ => say("no such call", out),
    }
}
