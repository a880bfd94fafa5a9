//! A storm: clients and workers in threads of their own, over one desk, and the desk that they leave.

ghost use Rattle.std.specs.Prelude.{◌≡◌, ◌+◌, ◌<◌, ◌≤◌, length, vec_len, IfOk, IfSome};
ghost use Rattle.stm_terms.specs.Limits.{max_levels, max_events as most_events, max_workers};
ghost use Rattle.stm_pool.specs.Counted.{CountsPasses};
ghost use Rattle.stm_script.specs.Limits.{max_sections};
ghost use Rattle.stm_pool.specs.Storms.{CountsDesk, IsCountedStorm};

use crate::close::Report;
use crate::counting::counts_of;
use crate::pass::Pass;
use crate::shared::SharedDesk;
use crate::threads::{Returned, run_all};
use std::alloc::Global;
use std::marker::Brand;
use std::sync::Wait;
use std::sync::ledger::{Blank, Ledger};
use std::thread::Threads;
pub use stm_script::MAX_SECTIONS;
use stm_script::Section;
use stm_store::Table;
use stm_terms::NoMemory;

/// What the tasks of a client came to. A task counts under one of them, or, if an expected value
/// was there, under none.
#[derive(Clone, Copy, PartialEq, Eq, Debug)]
pub struct Counts {
    pub submitted: usize,
    pub finished: usize,
    pub cancelled: usize,
    pub refused: usize,
    pub missed: usize,
}

/// What a storm ended with: the counts of each client, in order, and the closed desk. There is no desk if it couldn't be closed, since it
/// lacked a pass, or a client's events were not those of its pass.
#[derive(Drop)]
pub struct StormEnd {
    pub counts: Vec<Counts>,
    pub report: Option<Report>,
}

/// Closes a desk with its passes, by which the first clients are counted.
fn closed<L: Ledger>(
    shared: SharedDesk<L>,
    passes: Vec<Pass<L>>,
    counts: &[Counts],
) -> Option<Report>
    requires few { length counts.now ≤ shared }
    requires each { CountsPasses passes.items counts.now }
    ensures { IfSome result (λ r. CountsDesk counts.now r) }
{
    match shared.close(passes) {
        Ok(report) => Some(report),
        Err(_) => None,
    }
}

/// The end of a storm of `clients` clients, when its threads are joined. If a thread gave nothing
/// back, memory ran out.
fn end_of<L: Ledger>(
    alloc: Global,
    shared: SharedDesk<L>,
    returned: Returned<L>,
    clients: usize,
) -> Result<StormEnd, NoMemory>
    requires { clients ≤ shared }
    ensures len { IfOk result (λ e. vec_len e.counts ≡ clients) }
    ensures end { IfOk result IsCountedStorm }
{
    let Returned { passes, extras } = returned;
    if extras.len() != clients || passes.len() != shared.passes as usize {
        return Err(NoMemory);
    }
    let counts = counts_of(alloc, passes.as_slice(), extras.as_slice())?;
    let report = closed(shared, passes, counts.as_slice());
    Ok(StormEnd { counts, report })
}

/// `run_storm`, with the blank of a ledger that has a part for each thread.
fn storm_with<L: Ledger + Send + Sync, R: Threads + Wait + Sync>(
    rt: &R,
    alloc: Global,
    blank: Blank,
    table: &Table,
    sections: Vec<Section>,
    workers: u32,
    levels: u32,
    max_events: u32,
) -> Result<StormEnd, NoMemory>
    requires name { blank.name ≡ L.name }
    requires parts { (blank.parts ≡ L.parts) × (blank.parts ≡ vec_len sections + workers) }
    requires few { (vec_len sections ≤ max_sections) × (workers ≤ max_workers) }
    requires levels { levels ≤ max_levels }
    requires events { max_events ≤ most_events }
    ensures len { IfOk result (λ e. vec_len e.counts ≡ vec_len sections) }
    ensures end { IfOk result IsCountedStorm }
{
    let clients = sections.len();
    let threads = clients as u32 + workers;
    let (shared, passes) = SharedDesk::<L>::open(alloc, blank, table, threads, max_events)?;
    let returned = run_all(rt, alloc, &shared, passes, sections, levels);
    end_of(alloc, shared, returned, clients)
}

/// Opens a desk with the variables of a table and room for `max_events` events; does what each section
/// says, in a thread of its own, while the workers, each in a thread of its own, evaluate what is
/// queued; then closes the desk. `levels` is how deep the workers evaluate both branches of an
/// `orElse` at once.
///
/// A client finishes a ticket as soon as it is evaluated, and waits for that if it must. Section
/// k is client k; the workers are the clients after them. If memory runs out, or a thread can't
/// be started, the desk is stopped, all threads are joined, and the result is `NoMemory`.
///
/// No clause says that a client does the tasks of its section, what was refused or missed, over which variables the desk was opened, or
/// when it couldn't be closed.
pub fn run_storm<R: Threads + Wait + Sync>(
    rt: &R,
    alloc: Global,
    table: &Table,
    sections: Vec<Section>,
    workers: u32,
    levels: u32,
    max_events: u32,
) -> Result<StormEnd, NoMemory>
    requires few { vec_len sections ≤ max_sections }
    requires workers { (0 < workers) × (workers ≤ max_workers) }
    requires levels { levels ≤ max_levels }
    requires events { max_events ≤ most_events }
    ensures len { IfOk result (λ e. vec_len e.counts ≡ vec_len sections) }
    // What each client is counted to have submitted, finished and cancelled is what the closed desk's history has of it.
    ensures end { IfOk result IsCountedStorm }
{
    let parts = sections.len() as u64 + u64::from(workers);
    storm_with::<Brand, R>(
        rt,
        alloc,
        Blank::new(parts),
        table,
        sections,
        workers,
        levels,
        max_events,
    )
}
