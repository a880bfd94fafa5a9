//! `history` and `events`: what happened, and what happened since an event.

ghost use Rattle.std.specs.Prelude.{◌≡◌, ◌++◌, ◌∷◌, [], ◌-◌, drop, codes, decimal};
ghost use Rattle.stm_history_text.specs.HistoryText.{event_lines};
ghost use Rattle.stm_lines.specs.WrittenFronts.{WritesText};
ghost use Rattle.stm_commands.specs.Contents.{events_text};
ghost use Rattle.stm_commands.specs.Questions.{later_lines, later_events_text};

use crate::open_desk::OpenDesk;
use std::alloc::Global;
use std::io::Write;
use stm_events::Event;
use stm_history_text::{WriteFault, write_events, write_history, write_line};
use stm_terms::NoMemory;

/// How many events come before the n-th, counted from 1; none before the first, and for 0.
fn events_before(n: u32) -> usize
    ensures { result ≡ n - 1 }
{
    if n == 0 {
        return 0;
    }
    n as usize - 1
}

/// Writes the lines of the events after the first n.
fn write_events_after<W: Write>(
    alloc: Global,
    writer: &mut W,
    history: &[Event],
    n: usize,
) -> Result<(), WriteFault>
    ensures { WritesText result (W.contents writer.old) (W.contents writer.new)
        (event_lines (drop n history.now)) }
{
    if n < history.len() {
        return write_events(alloc, writer, &history[n..]);
    }
    write_events(alloc, writer, &[])
}

/// Writes how many events there are.
fn write_count<W: Write>(alloc: Global, writer: &mut W, count: usize) -> Result<(), WriteFault>
    ensures { WritesText result (W.contents writer.old) (W.contents writer.new)
        (codes "events " ++ decimal count ++ 10 ∷ []) }
{
    let mut line = String::new(alloc);
    match write!(line, "events {count}") {
        Ok(()) => write_line(writer, line),
        Err(_) => Err(WriteFault::NoMemory),
    }
}

/// Writes the lines of the events from the n-th on, counted from 1, and how many events there are.
fn write_events_from<W: Write>(
    alloc: Global,
    writer: &mut W,
    history: &[Event],
    n: u32,
) -> Result<(), WriteFault>
    ensures { WritesText result (W.contents writer.old) (W.contents writer.new)
        (later_lines history.now n) }
{
    match write_events_after(alloc, writer, history, events_before(n)) {
        Ok(()) => write_count(alloc, writer, history.len()),
        Err(fault) => Err(fault),
    }
}

impl OpenDesk {
    /// Writes the history: where it begins, and the events.
    pub fn write_history<W: Write>(&self, alloc: Global, writer: &mut W) -> Result<(), WriteFault>
        ensures { WritesText result (W.contents writer.old) (W.contents writer.new)
            (events_text self.now) }
    {
        let start = self.desk.begins_from();
        write_history(alloc, writer, self.desk.table(), start, self.desk.history())
    }

    /// Writes the lines of the events from the n-th on, counted from 1, and how many events there are.
    pub fn write_later_events<W: Write>(
        &self,
        alloc: Global,
        writer: &mut W,
        n: u32,
    ) -> Result<(), WriteFault>
        ensures { WritesText result (W.contents writer.old) (W.contents writer.new)
            (later_events_text self.now n) }
    {
        write_events_from(alloc, writer, self.desk.history(), n)
    }
}
