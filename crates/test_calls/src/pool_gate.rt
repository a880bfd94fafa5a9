//! Two workers on a shared desk, of which one is held at its gate until the other has delivered.

ghost use Rattle.std.specs.Prelude.{◌≡◌};
ghost use Rattle.std.specs.Thread.{IsSync};

use crate::blocks::block_of;
use crate::words::say;
use std::alloc::{AllocError, Global};
use std::fmt::Write;
use std::marker::Brand;
use std::sync::Wait;
use std::sync::atomic::{AtomicBool, Ordering};
use std::sync::ledger::{Blank, Ledger};
use std::thread;
use std::thread::Threads;
use std::time::{Clock, Duration};
use stm_check::SharedBlock;
use stm_desk::SubmitError;
use stm_events::{Event, What};
use stm_pool::{CloseError, Gate, Pass, Report, SharedDesk, WorkEnd, work};
use stm_store::{Names, Table};

/// Holds ticket 1 until ticket 2 was delivered, for ten seconds at most.
#[derive(Drop)]
struct Held {
    second_done: AtomicBool,
    first_waited: AtomicBool,
    given_up: AtomicBool,
}

impl<R: Wait + Clock> Gate<R> for Held {
    fn before(&self, rt: &R, ticket: u32) -> bool {
        if ticket != 1 || self.given_up.load(Ordering::SeqCst) {
            return true;
        }
        for _ in 0..10_000 {
            if self.second_done.load(Ordering::SeqCst) {
                self.first_waited.store(true, Ordering::SeqCst);
                return true;
            }
            if self.given_up.load(Ordering::SeqCst) {
                return false;
            }
            thread::sleep(rt, Duration::from_millis(1));
        }
        self.given_up.store(true, Ordering::SeqCst);
        false
    }

    fn after(&self, _rt: &R, ticket: u32) {
        if ticket == 2 {
            self.second_done.store(true, Ordering::SeqCst);
        }
    }
}

/// What the thread of a worker is given. It is one value, since what a closure may hold that goes
/// to another thread is found by a search, which ends before it has gone through five values.
#[derive(Drop)]
struct Errand<'a, L: Ledger, R> {
    rt: &'a R,
    alloc: Global,
    shared: &'a SharedDesk<L>,
    gate: &'a Held,
    pass: Pass<L>,
}

/// A pass, and how its worker ended.
type Ended<L> = (Pass<L>, WorkEnd);

/// A worker, which stops the desk when it ends, so that nobody waits for it in vain. Where memory
/// ran out for it, the other one is held no longer.
fn run_worker<'a, L: Ledger, R: Threads + Wait + Clock + Sync>(
    errand: Errand<'a, L, R>,
) -> Ended<L> {
    let Errand {
        rt,
        alloc,
        shared,
        gate,
        pass,
    } = errand;
    let (pass, end) = work(rt, alloc, shared, gate, pass, 0);
    if end != WorkEnd::Stopped {
        gate.given_up.store(true, Ordering::SeqCst);
    }
    shared.stop(rt);
    (pass, end)
}

/// Two workers in threads of their own, until there are four events; nothing if a thread can't
/// be started.
fn two_workers<L: Ledger + Send + Sync, R: Threads + Wait + Clock + Sync>(
    rt: &R,
    alloc: Global,
    shared: &SharedDesk<L>,
    gate: &Held,
    second: Pass<L>,
    third: Pass<L>,
) -> Option<(Ended<L>, Ended<L>)> {
    thread::scope(
        thread::scope_env(),
        rt,
        |scope| -> Option<(Ended<L>, Ended<L>)>
            requires { IsSync R.row }
        {
            let first = Errand {
                rt,
                alloc,
                shared,
                gate,
                pass: second,
            };
            let other = Errand {
                rt,
                alloc,
                shared,
                gate,
                pass: third,
            };
            let one = scope.spawn(move || run_worker(first));
            let two = scope.spawn(move || run_worker(other));
            if one.is_ok() && two.is_ok() {
                let _ = shared.wait_past(rt, 3);
            } else {
                gate.given_up.store(true, Ordering::SeqCst);
            }
            shared.stop(rt);
            Some((one.ok()?.join(rt), two.ok()?.join(rt)))
        },
    )
}

/// The tickets that were installed, in their order.
fn say_installed(history: &[Event], out: &mut String) -> Result<(), AllocError> {
    out.push_str(" installed")?;
    for event in history {
        match &event.what {
            What::Installed { ticket, .. } => write!(out, " {ticket}")?,
            _ => {}
        }
    }
    out.push_str("\n")
}

fn say_report(report: &Report, gate: &Held, out: &mut String) -> Result<(), AllocError> {
    let waited = gate.first_waited.load(Ordering::SeqCst);
    let given_up = gate.given_up.load(Ordering::SeqCst);
    out.push_str(if waited && !given_up {
        "waited"
    } else {
        "given up"
    })?;
    write!(out, " events {}", report.events)?;
    say_installed(report.desk.history(), out)
}

/// Prints what closing the desk gave, if the workers had what they needed.
fn say_closed<L: Ledger>(
    closed: &Result<Report, (SharedDesk<L>, Vec<Pass<L>>, CloseError)>,
    worked: Result<(), AllocError>,
    gate: &Held,
    out: &mut String,
) -> Result<(), AllocError> {
    worked?;
    match closed {
        Ok(report) => say_report(report, gate, out),
        Err(refused) => writeln!(out, "refused {:?}", refused.2),
    }
}

/// Submits the block twice.
fn submit_both<L: Ledger, R: Wait>(
    shared: &SharedDesk<L>,
    rt: &R,
    pass: &mut Pass<L>,
    block: &SharedBlock,
) -> Result<(), AllocError> {
    for _ in 0..2 {
        match shared.submit(rt, pass, block.share()?) {
            Err(SubmitError::NoMemory) => return Err(AllocError),
            _ => {}
        }
    }
    Ok(())
}

/// The passes of two workers that were stopped are with the others again.
fn put_back<L: Ledger>(
    passes: &mut Vec<Pass<L>>,
    ended: (Ended<L>, Ended<L>),
) -> Result<(), AllocError> {
    match ended {
        ((second, WorkEnd::Stopped), (third, WorkEnd::Stopped)) => {
            passes.push(second)?;
            passes.push(third)?;
            Ok(())
        }
        _ => Err(AllocError),
    }
}

/// Two workers evaluate and deliver, and their passes are with the others again, unless a thread
/// couldn't be started or memory ran out.
fn with_both<L: Ledger + Send + Sync, R: Threads + Wait + Clock + Sync>(
    shared: &SharedDesk<L>,
    rt: &R,
    alloc: Global,
    gate: &Held,
    passes: &mut Vec<Pass<L>>,
    second: Pass<L>,
    third: Pass<L>,
) -> Result<(), AllocError> {
    match two_workers(rt, alloc, shared, gate, second, third) {
        Some(ended) => put_back(passes, ended),
        None => Err(AllocError),
    }
}

/// The first pass submits the block twice, and workers with the two others evaluate and deliver.
fn with_workers<L: Ledger + Send + Sync, R: Threads + Wait + Clock + Sync>(
    shared: &SharedDesk<L>,
    rt: &R,
    alloc: Global,
    gate: &Held,
    block: &SharedBlock,
    passes: &mut Vec<Pass<L>>,
) -> Result<(), AllocError> {
    match passes.as_mut_slice().get_mut(0) {
        Some(first) => submit_both(shared, rt, first, block)?,
        None => {}
    }
    match (passes.pop(), passes.pop()) {
        (Some(third), Some(second)) => { with_both(shared, rt, alloc, gate, passes, second, third) }
        _ => Err(AllocError),
    }
}

fn answer_with<L: Ledger + Send + Sync, R: Threads + Wait + Clock + Sync>(
    rt: &R,
    alloc: Global,
    blank: Blank,
    table: &Table,
    block: &SharedBlock,
    out: &mut String,
) -> Result<(), AllocError>
    requires name { blank.name ≡ L.name }
    requires parts { (blank.parts ≡ L.parts) × (blank.parts ≡ 3) }
{
    let (shared, mut passes) = SharedDesk::<L>::open(alloc, blank, table, 3, 100)?;
    let gate = Held {
        second_done: AtomicBool::new(false),
        first_waited: AtomicBool::new(false),
        given_up: AtomicBool::new(false),
    };
    let worked = with_workers(&shared, rt, alloc, &gate, block, &mut passes);
    say_closed(&shared.close(passes), worked, &gate, out)
}

/// Submits the block of a text twice, and has two workers evaluate both at once.
pub fn answer<R: Threads + Wait + Clock + Sync>(
    rt: &R,
    table: &Table,
    alloc: Global,
    text: &str,
    out: &mut String,
) -> Result<(), AllocError> {
    let names = Names::of_table(alloc, table)?;
    match block_of(alloc, &names, text, out)? {
        Some(block) => answer_with::<Brand, R>(rt, alloc, Blank::new(3), table, &block, out),
        None => Ok(()),
    }
}
