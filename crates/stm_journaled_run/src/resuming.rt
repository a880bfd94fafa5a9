//! The console that a file gives.

ghost use Rattle.std.specs.Prelude.{◌≡◌, ◌≤◌, length, IfOk, IfSome};
ghost use Rattle.stm_terms.specs.Limits.{max_events};
ghost use Rattle.stm_history.specs.Loading.{IsResumable};
ghost use Rattle.stm_journaled_run.specs.DurableRun.{LoadsAtMost, resumed_console};

use std::alloc::Global;
use stm_desk::Desk;
use stm_history::{Loaded, labels_after_history};
use stm_run::console::Console;
use stm_run::limit::EventLimit;
use stm_store::Seed;
use stm_terms::NoMemory;

/// A console that is open on a history.
fn resumed(alloc: Global, loaded: Loaded, limit: u32) -> Result<Console, NoMemory>
    requires resumable { IsResumable loaded }
    requires fits { length loaded.events.items ≤ limit }
    requires few { limit ≤ max_events }
    ensures { IfOk result (λ c. c ≡ resumed_console limit (Some loaded)) }
{
    let (table, checkpoint, events, machine) = loaded.into_parts();
    let labels = labels_after_history(alloc, checkpoint.as_ref(), events.as_slice())?;
    match Desk::resume(table, checkpoint, events, machine, labels, limit) {
        Ok(desk) => {
            // The queue is known to rise by this.
            let _history = desk.history();
            Console::resume(alloc, desk)
        }
        Err(_) => unreachable!(),
    }
}

/// The console that goes on from what was loaded; without a history, one that declares. New names of variables are looked up
/// under the seed.
pub(crate) fn resumed_console(
    alloc: Global,
    seed: Seed,
    loaded: Option<Loaded>,
    limit: u32,
) -> Result<Console, NoMemory>
    requires resumable { IfSome loaded IsResumable }
    requires fits { LoadsAtMost limit loaded }
    requires few { limit ≤ max_events }
    ensures { IfOk result (λ c. c ≡ resumed_console limit loaded) }
{
    match loaded {
        None => Ok(Console::new(alloc, seed, EventLimit::new(limit))),
        Some(loaded) => resumed(alloc, loaded, limit),
    }
}
