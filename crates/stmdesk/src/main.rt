//! The program `stmdesk`: commands from standard input, answers to standard output, and with `--journal` a history in a file.
#![tactic(auto)]

mod files;
mod limits;
mod standard;

use files::SystemFiles;
use limits::{NEEDED, low_stack_limit};
use standard::occupy;
use std::alloc::Global;
use std::env;
use std::io::{BufWriter, ErrorKind, Write};
use std::process::ExitCode;
use std::random::RandomSource;
use std::sync::Wait;
use std::thread::Threads;
use stm_console::status::{NO_MEMORY, REFUSED};
use stm_console::{RunFault, start};

fn no_memory<E: Write>(errors: &mut E) -> ExitCode {
    let _ = writeln!(errors, "{}", RunFault::NoMemory);
    ExitCode::from(NO_MEMORY)
}

/// The words of the command line. If they can't be had, the reason goes to standard error, and the exit status comes back.
fn words_of(rt: &HostRuntime, alloc: Global) -> Result<Vec<String>, ExitCode> {
    let mut errors = rt.stderr();
    let arguments = match env::args(rt) {
        Ok(arguments) => arguments,
        Err(fault) if fault.kind() == ErrorKind::OutOfMemory => return Err(no_memory(&mut errors)),
        Err(_) => {
            let _ = writeln!(
                errors,
                "error: a word isn't UTF-8\n\nFor more information, try '--help'."
            );
            return Err(ExitCode::from(REFUSED));
        }
    };
    match arguments.collect::<Vec<String>>(alloc) {
        Ok(words) => Ok(words),
        Err(_) => Err(no_memory(&mut errors)),
    }
}

/// Does what the words say, with these threads, over the standard streams and the system's files.
fn run<T: Threads + Wait + RandomSource + Sync>(
    rt: &HostRuntime,
    threads: &T,
    alloc: Global,
    words: &[String],
) -> ExitCode {
    let mut errors = rt.stderr();
    let Ok(mut writer) = BufWriter::new(alloc, rt.stdout()) else {
        return no_memory(&mut errors);
    };
    let mut reader = rt.stdin();
    let files = SystemFiles { rt };
    ExitCode::from(start(
        threads,
        alloc,
        words,
        &files,
        &mut reader,
        &mut writer,
        &mut errors,
    ))
}

/// Whether the stack may grow as far as the program needs; if not, the reason goes to standard error.
fn has_stack(rt: &HostRuntime) -> bool {
    match low_stack_limit(rt) {
        Some(limit) => {
            let mut errors = rt.stderr();
            let _ = writeln!(
                errors,
                "stmdesk: the stack limit is {limit} KiB, and {NEEDED} KiB are needed (ulimit -s {NEEDED})"
            );
            false
        }
        None => true,
    }
}

fn main(rt: HostRuntime) -> ExitCode {
    let alloc = rt.alloc();
    // If a closed stream can't be occupied, no journal is opened in its place.
    let _occupied = occupy(&rt);
    if !has_stack(&rt) {
        return ExitCode::from(NO_MEMORY);
    }
    match words_of(&rt, alloc) {
        Ok(words) => run(&rt, &rt, alloc, &words),
        Err(status) => status,
    }
}
