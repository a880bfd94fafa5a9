//! Calls of the crates by a script: each line of standard input is a call, and its answer goes on standard output.
//!
//! The first word of a line names a module, the second a call of it (tests/README.md lists them). A premise of a call is tested
//! first, and if it doesn't hold the answer is `refused` with the reason. A call that runs out of memory is made again, or is
//! answered by `no memory` with the number of its line and not made again, as `memory again` and `memory once` say.
#![tactic(auto)]

mod blocks;
mod checkpoints;
mod declaring;
mod desk_calls;
mod desk_show;
mod desk_work;
mod desks;
mod evaluating;
mod histories;
mod input;
mod log;
mod pool_calls;
mod pool_gate;
mod pools;
mod queue;
mod store;
mod tables;
mod watch;
mod words;

use crate::desks::Desks;
use crate::histories::Gathered;
use crate::input::Lines;
use crate::log::Logging;
use crate::store::Held;
use crate::words::{first_word, number, say};
use std::alloc::{AllocError, Global};
use std::io::{Read, Write};
use std::process::ExitCode;
use std::sync::Wait;
use std::thread::Threads;
use std::time::Clock;
use stm_machine::Checkpoint;
use stm_queue::Pending;
use stm_store::Table;
use stm_watch::Watch;

/// The exit status if the input or the output failed.
const BROKEN: u8 = 1;

/// The exit status if memory ran out twice in one line, or before the first.
const NO_MEMORY: u8 = 4;

/// Room for the longest line and the longest answer, so that neither asks for memory later.
const ROOM: usize = 1 << 18;

/// What the calls are made on.
struct Objects {
    table: Table,
    store: Option<Held>,
    log: Option<Logging>,
    queue: Pending,
    watch: Watch,
    desks: Desks,
    gathered: Gathered,
    checkpoint: Option<Checkpoint>,
    calls_once: bool,
}

// Written out, and not derived, so that the proof of each owner calls it once.
impl Drop for Objects {
    fn drop(self) {
        let Objects {
            table: _,
            store: _,
            log: _,
            queue: _,
            watch: _,
            desks: _,
            gathered: _,
            checkpoint: _,
            calls_once: _,
        } = self;
    }
}

fn new_objects(alloc: Global) -> Objects {
    Objects {
        table: Table::empty(alloc),
        store: None,
        log: None,
        queue: Pending::empty(alloc),
        watch: Watch::empty(alloc),
        desks: Desks::new(alloc),
        gathered: Gathered::new(alloc),
        checkpoint: None,
        calls_once: false,
    }
}

/// Makes a call by many threads, or of a shared desk.
fn answer_pool<T: Threads + Wait + Clock + Sync>(
    objects: &mut Objects,
    rt: &T,
    alloc: Global,
    text: &str,
    out: &mut String,
) -> Result<(), AllocError> {
    let (call, rest) = first_word(text);
    match call {
        "evaluate" => {
            let workers = number(rest) as usize;
            desk_work::evaluate_by_threads(objects.desks.work_mut(), rt, alloc, workers, out)
        }
        "open" => pools::answer(rt, &objects.table, alloc, objects.calls_once, rest, out),
        "gate" => pool_gate::answer(rt, &objects.table, alloc, rest, out),
        _ => say("no such call", out),
    }
}

/// Makes a call of one thread.
fn answer_part(
    objects: &mut Objects,
    alloc: Global,
    module: &str,
    call: &str,
    out: &mut String,
) -> Result<(), AllocError> {
    match module {
        "tokens" => blocks::answer_tokens(alloc, call, out),
        "table" => tables::answer(&mut objects.table, alloc, call, out),
        "store" => store::answer(&mut objects.store, &objects.table, alloc, call, out),
        "log" => log::answer(&mut objects.log, &objects.table, alloc, call, out),
        "desk" => desks::answer(&mut objects.desks, &objects.table, alloc, call, out),
        "history" => {
            histories::answer(&mut objects.gathered, &mut objects.desks, alloc, call, out)
        }
        "checkpoint" => {
            let store = objects.store.as_ref();
            checkpoints::answer(
                &mut objects.checkpoint,
                store,
                &objects.table,
                alloc,
                call,
                out,
            )
        }
        _ => say("no such call", out),
    }
}

/// Makes the call of a line, and writes its answer.
fn answer<T: Threads + Wait + Clock + Sync>(
    objects: &mut Objects,
    rt: &T,
    alloc: Global,
    line: &str,
    out: &mut String,
) -> Result<(), AllocError> {
    let (module, call) = first_word(line);
    match module {
        "" | "--" => Ok(()),
        "memory" => {
            objects.calls_once = call == "once";
            Ok(())
        }
        "pool" => answer_pool(objects, rt, alloc, call, out),
        "eval" => evaluating::answer(rt, &objects.table, alloc, call, out),
        "queue" => queue::answer(&mut objects.queue, call, out),
        "watch" => watch::answer(&mut objects.watch, alloc, call, out),
        _ => answer_part(objects, alloc, module, call, out),
    }
}

/// Answers a line. A call that runs out of memory is made again, or answered by the number of its line.
fn answer_line<T: Threads + Wait + Clock + Sync>(
    objects: &mut Objects,
    rt: &T,
    alloc: Global,
    lines: &Lines,
    out: &mut String,
) -> Result<(), AllocError> {
    if answer(objects, rt, alloc, lines.line(), out).is_ok() {
        return Ok(());
    }
    out.clear();
    if objects.calls_once {
        return writeln!(out, "no memory {}", lines.number());
    }
    answer(objects, rt, alloc, lines.line(), out)
}

/// Answers each line of the reader on the writer, and returns the exit status.
fn run<T: Threads + Wait + Clock + Sync, R: Read, W: Write>(
    objects: &mut Objects,
    rt: &T,
    alloc: Global,
    lines: &mut Lines,
    out: &mut String,
    reader: &mut R,
    writer: &mut W,
) -> u8 {
    for _ in 0..u64::MAX {
        match lines.next(reader) {
            Ok(true) => {}
            Ok(false) => return 0,
            Err(_) => return BROKEN,
        }
        out.clear();
        if answer_line(objects, rt, alloc, lines, out).is_err() {
            return NO_MEMORY;
        }
        if writer.write_all(out.as_bytes()).is_err() {
            return BROKEN;
        }
    }
    0
}

/// Lines with room for the longest, asked for twice.
fn new_lines(alloc: Global) -> Result<Lines, AllocError> {
    match Lines::with_room(alloc, ROOM) {
        Ok(lines) => Ok(lines),
        Err(_) => Lines::with_room(alloc, ROOM),
    }
}

/// A text with room for the longest answer, asked for twice.
fn new_answer(alloc: Global) -> Result<String, AllocError> {
    match String::with_capacity(alloc, ROOM) {
        Ok(out) => Ok(out),
        Err(_) => String::with_capacity(alloc, ROOM),
    }
}

/// Answers each line of the reader, with room for lines and answers.
fn run_with_room<T: Threads + Wait + Clock + Sync, R: Read, W: Write>(
    rt: &T,
    alloc: Global,
    lines: &mut Lines,
    out: &mut String,
    reader: &mut R,
    writer: &mut W,
) -> u8 {
    let mut objects = new_objects(alloc);
    run(&mut objects, rt, alloc, lines, out, reader, writer)
}

/// The same with room for answers yet to be had.
fn run_with_lines<T: Threads + Wait + Clock + Sync, R: Read, W: Write>(
    rt: &T,
    alloc: Global,
    lines: &mut Lines,
    reader: &mut R,
    writer: &mut W,
) -> u8 {
    match new_answer(alloc) {
        Ok(mut out) => run_with_room(rt, alloc, lines, &mut out, reader, writer),
        Err(_) => NO_MEMORY,
    }
}

fn main(rt: HostRuntime) -> ExitCode {
    let alloc = rt.alloc();
    ExitCode::from(match new_lines(alloc) {
        Ok(mut lines) => run_with_lines(&rt, alloc, &mut lines, &mut rt.stdin(), &mut rt.stdout()),
        Err(_) => NO_MEMORY,
    })
}
