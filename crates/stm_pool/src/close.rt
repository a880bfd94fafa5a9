//! The end of a shared desk.

ghost use Rattle.std.specs.Prelude.{◌≡◌, IfOk, IfErr};
ghost use Rattle.stm_pool.specs.Closing.{HasClosed, IsCloseError};

use crate::errors::CloseError;
use crate::guarded::Guarded;
use crate::pass::Pass;
use crate::shared::SharedDesk;
use std::sync::Mutex;
use std::sync::ledger::Ledger;
use stm_desk::Desk;

/// What a desk was when it was closed, and how many events it had.
#[derive(Drop)]
pub struct Report {
    pub events: u32,
    pub desk: Desk,
}

impl<L: Ledger> SharedDesk<L> {
    /// The desk, if all its passes are there, in any order, and have their clients' events.
    /// Otherwise the desk and the passes are handed back.
    pub fn close(
        self,
        passes: Vec<Pass<L>>,
    ) -> Result<Report, (SharedDesk<L>, Vec<Pass<L>>, CloseError)>
        ensures closed { IfOk result (λ r. HasClosed self passes.items r) }
        ensures refused { IfErr result (λ e. IsCloseError e.2 self passes.items) }
        ensures back { IfErr result (λ e. (e.0 ≡ self) × (e.1 ≡ passes)) }
    {
        let SharedDesk {
            lock,
            grown,
            queued,
            passes: count,
        } = self;
        let mut guarded = lock.into_inner();
        let mut passes = passes;
        if let Err(e) = guarded.compare(passes.as_mut_slice(), count) {
            let shared = SharedDesk {
                lock: Mutex::new(guarded),
                grown,
                queued,
                passes: count,
            };
            return Err((shared, passes, e));
        }
        let events = guarded.events();
        let Guarded {
            desk,
            stopped: _,
            book: _,
            rest: _,
        } = guarded;
        Ok(Report { events, desk })
    }
}
