//! What the clients of a storm are counted to have done.

ghost use Rattle.std.specs.Prelude.{◌≡◌, ◌<◌, ◌^◌, length, vec_len, IfOk, IfSome};
ghost use Rattle.stm_pool.specs.Closing.{pass_of};
ghost use Rattle.stm_pool.specs.Counted.{CountsPasses};
ghost use Rattle.stm_pool.specs.Storms.{CountsEvents};

use crate::client::Extra;
use crate::pass::{Pass, find_pass};
use crate::storm::Counts;
use std::alloc::Global;
use std::sync::ledger::Ledger;
use stm_events::{Event, What};
use stm_terms::NoMemory;

/// The counts of a client: of its own events, and of what left none.
fn counts_from(own: &[Event], extra: Extra) -> Counts
    ensures { CountsEvents own.now result }
{
    let mut counts = Counts {
        submitted: 0,
        finished: 0,
        cancelled: 0,
        refused: extra.refused,
        missed: extra.missed,
    };
    for event in own {
        match &event.what {
            What::Submitted { .. } => counts.submitted += 1,
            What::Installed { .. } => {}
            What::Finished { .. } => counts.finished += 1,
            What::Cancelled { .. } => counts.cancelled += 1,
            What::Declared { .. } => {}
            What::Labelled { .. } => {}
        }
    }
    counts
}

/// The counts of a client by its pass; of what left no event alone, if it has no pass.
fn counts_in<L: Ledger>(passes: &[Pass<L>], client: u32, extra: Extra) -> Counts
    ensures { IfSome (pass_of client passes.now) (λ p. CountsEvents p.own result) }
{
    match find_pass(passes, client) {
        Some(pass) => counts_from(pass.own.as_slice(), extra),
        None => Counts {
            submitted: 0,
            finished: 0,
            cancelled: 0,
            refused: extra.refused,
            missed: extra.missed,
        },
    }
}

/// The counts of the first clients. Each client here has the counts of what left no event.
pub(crate) fn counts_of<L: Ledger>(
    alloc: Global,
    passes: &[Pass<L>],
    extras: &[Extra],
) -> Result<Vec<Counts>, NoMemory>
    requires { length extras.now < 2 ^ 32 }
    ensures len { IfOk result (λ v. vec_len v ≡ length extras.now) }
    ensures each { IfOk result (λ v. CountsPasses passes.now v.items) }
{
    let mut all = Vec::with_capacity(alloc, extras.len())?;
    for k in 0..extras.len() {
        all.push(counts_in(passes, k as u32, extras[k]))?;
    }
    Ok(all)
}
