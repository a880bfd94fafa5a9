//! The threads of a storm.

ghost use Rattle.std.specs.Prelude.{◌<◌, ◌≤◌, IsTrue, vec_len, vec_capacity};
ghost use Rattle.std.specs.Thread.{IsSync};
ghost use Rattle.stm_terms.specs.Limits.{max_levels};

use crate::client::{Extra, do_section};
use crate::pass::Pass;
use crate::shared::SharedDesk;
use crate::worker::{Gate, WorkEnd, work};
use std::alloc::Global;
use std::sync::Wait;
use std::sync::ledger::Ledger;
use std::thread;
use std::thread::{JoinHandle, Threads};
use stm_script::Section;

/// A gate that is always open.
#[derive(Clone, Copy)]
pub struct Open;

impl<R> Gate<R> for Open {
    fn before(&self, _rt: &R, _ticket: u32) -> bool {
        true
    }

    fn after(&self, _rt: &R, _ticket: u32) {}
}

/// What each thread is given, as one value: what a closure may hold that goes to another thread is
/// found by a search, which ends before it has gone through five values.
#[derive(Drop)]
pub(crate) struct Errand<'a, 'b, L: Ledger, R> {
    rt: &'a R,
    alloc: Global,
    shared: &'b SharedDesk<L>,
    pass: Pass<L>,
}

/// A pass, and what its client's tasks left no event of; nothing if memory ran out.
type ClientEnd<L> = (Pass<L>, Option<Extra>);

/// A pass, and how its worker ended.
type WorkerEnd<L> = (Pass<L>, WorkEnd);

/// What the threads gave back: the passes of the clients and then those of the workers, and what
/// was counted of each client. A thread that couldn't be started, or for which memory ran out, has
/// no pass here.
#[derive(Drop)]
pub(crate) struct Returned<L: Ledger> {
    pub(crate) passes: Vec<Pass<L>>,
    pub(crate) extras: Vec<Extra>,
}

fn run_client<'a, 'b, L: Ledger, R: Wait>(
    errand: Errand<'a, 'b, L, R>,
    section: Section,
) -> ClientEnd<L> {
    let Errand {
        rt,
        alloc,
        shared,
        pass,
    } = errand;
    do_section(rt, alloc, shared, pass, section)
}

fn run_worker<'a, 'b, L: Ledger, R: Threads + Wait + Sync>(
    errand: Errand<'a, 'b, L, R>,
    levels: u32,
) -> WorkerEnd<L>
    requires { levels ≤ max_levels }
{
    let Errand {
        rt,
        alloc,
        shared,
        pass,
    } = errand;
    work(rt, alloc, shared, &Open, pass, levels)
}

/// Reserves room for a handle before its thread is started: a handle that can't be kept would take
/// with it what the thread gives back. If memory runs out, the desk is stopped.
fn make_room<L: Ledger, R: Wait, T: Drop>(
    rt: &R,
    shared: &SharedDesk<L>,
    handles: &mut Vec<JoinHandle<T>>,
) -> bool
    ensures { IsTrue result → vec_len handles.new < vec_capacity handles.new }
{
    match handles.reserve(1) {
        Ok(()) => true,
        Err(_) => {
            shared.stop(rt);
            false
        }
    }
}

/// Keeps the handle of a thread. If the thread couldn't be started, the desk is stopped, so that
/// nobody waits for the thread.
fn keep<L: Ledger, R: Wait, T: Drop>(
    rt: &R,
    shared: &SharedDesk<L>,
    handles: &mut Vec<JoinHandle<T>>,
    started: Option<JoinHandle<T>>,
)
    requires { vec_len handles.old < vec_capacity handles.old }
{
    match started {
        Some(handle) => handles.push_reserved(handle),
        None => shared.stop(rt),
    }
}

fn join_clients<L: Ledger, R: Threads>(
    rt: &R,
    handles: Vec<JoinHandle<ClientEnd<L>>>,
    returned: &mut Returned<L>,
) {
    for handle in handles {
        let (pass, extra) = handle.join(rt);
        if let Some(extra) = extra {
            if returned.passes.push(pass).is_ok() {
                let _ = returned.extras.push(extra);
            }
        }
    }
}

fn join_workers<L: Ledger, R: Threads>(
    rt: &R,
    handles: Vec<JoinHandle<WorkerEnd<L>>>,
    returned: &mut Returned<L>,
) {
    for handle in handles {
        let (pass, end) = handle.join(rt);
        if end != WorkEnd::NoMemory {
            let _ = returned.passes.push(pass);
        }
    }
}

/// Does each section in a thread of its own with one of the first passes, and has a worker in a
/// thread of its own with each of the others, which are stopped when all sections are done. All
/// threads are joined.
pub(crate) fn run_all<L: Ledger + Send + Sync, R: Threads + Wait + Sync>(
    rt: &R,
    alloc: Global,
    shared: &SharedDesk<L>,
    passes: Vec<Pass<L>>,
    sections: Vec<Section>,
    levels: u32,
) -> Returned<L>
    requires { levels ≤ max_levels }
{
    thread::scope(
        thread::scope_env(),
        rt,
        |scope| -> Returned<L>
            requires sync { IsSync R.row }
            requires levels { levels ≤ max_levels }
        {
            let mut clients = Vec::new(alloc);
            let mut workers = Vec::new(alloc);
            let mut sections = sections.into_iter();
            for pass in passes {
                let errand = Errand {
                    rt,
                    alloc,
                    shared,
                    pass,
                };
                match sections.next() {
                    Some(section) => {
                        if make_room(rt, shared, &mut clients) {
                            let spawned = scope.spawn(move || run_client(errand, section));
                            keep(rt, shared, &mut clients, spawned.ok());
                        }
                    }
                    None => {
                        if make_room(rt, shared, &mut workers) {
                            let spawned = scope.spawn(
                                move || -> WorkerEnd<L>
                                    requires { levels ≤ max_levels }
                                { run_worker(errand, levels) },
                            );
                            keep(rt, shared, &mut workers, spawned.ok());
                        }
                    }
                }
            }
            let mut returned = Returned {
                passes: Vec::new(alloc),
                extras: Vec::new(alloc),
            };
            join_clients(rt, clients, &mut returned);
            shared.stop(rt);
            join_workers(rt, workers, &mut returned);
            returned
        },
    )
}
