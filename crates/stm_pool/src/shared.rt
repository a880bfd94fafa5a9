//! A desk that threads share, and how it opens.

ghost use Rattle.std.specs.Prelude.{◌≡◌, ◌<◌, ◌≤◌, IfOk};
ghost use Rattle.stm_terms.specs.Limits.{max_events as most_events, max_clients};
ghost use Rattle.stm_pool.specs.Own.{newcomer, newcomers};

use crate::guarded::Guarded;
use crate::pass::Pass;
use std::alloc::Global;
use std::marker::Model;
use std::sync::ledger::{Blank, Ledger, Share};
use std::sync::{Condvar, Mutex};
use stm_desk::Desk;
use stm_store::Table;
use stm_terms::NoMemory;

/// A desk for many threads: one lock, under which each call is one call of `Guarded`. Contracts see
/// how many passes it has.
///
/// Nothing is known of the desk between two calls but what its type keeps. So a call says what it
/// did to the caller's pass, and `close` compares all passes with the history.
#[derive(Drop)]
pub struct SharedDesk<L: Ledger> {
    pub(crate) lock: Mutex<Guarded<L>>,
    // Notified when there are more events.
    pub(crate) grown: Condvar,
    // Notified when a ticket was queued.
    pub(crate) queued: Condvar,
    pub(crate) passes: u32,
}

impl<L: Ledger> Model for SharedDesk<L> {
    ghost use Rattle.std.specs.Prelude.{◌≡◌, ℕ};

    ghost Value = { ℕ };

    ghost view = { λ s. s.passes };

    ghost invariant = { λ s. s.passes ≡ L.parts };
}

fn new_pass<L: Ledger>(alloc: Global, client: u32, share: Share<L>) -> Pass<L>
    requires share { (share.parts ≡ 1) × (share.amount ≡ 0) }
    requires client { client < max_clients }
    ensures { result ≡ newcomer client }
{
    Pass {
        client,
        share,
        own: Vec::new(alloc),
        seen: 0,
    }
}

impl<L: Ledger> SharedDesk<L> {
    /// A desk with the variables of a table, on which no block waits, and a pass for each client,
    /// from client 0 on. It takes this many events.
    pub fn open(
        alloc: Global,
        blank: Blank,
        table: &Table,
        passes: u32,
        max_events: u32,
    ) -> Result<(SharedDesk<L>, Vec<Pass<L>>), NoMemory>
        // The blank is of this ledger: it has its name, and as many parts as there are passes.
        requires name { blank.name ≡ L.name }
        requires parts { (blank.parts ≡ L.parts) × (blank.parts ≡ passes) }
        requires passes { passes ≤ max_clients }
        requires events { max_events ≤ most_events }
        // Contracts see a desk as the number of its passes.
        ensures desk { IfOk result (λ r. r.0 ≡ passes) }
        ensures passes { IfOk result (λ r. r.1.items ≡ newcomers 0 passes) }
    {
        let (book, mut rest) = blank.open::<L>();
        let mut all = Vec::with_capacity(alloc, passes as usize)?;
        for client in 0..passes {
            let share = rest.split_off(1, 0);
            all.push(new_pass(alloc, client, share))?;
        }
        let desk = Desk::open(alloc, table, max_events)?;
        let lock = Mutex::new(Guarded {
            desk,
            stopped: false,
            book,
            rest,
        });
        let shared = SharedDesk {
            lock,
            grown: Condvar::new(),
            queued: Condvar::new(),
            passes,
        };
        Ok((shared, all))
    }
}
