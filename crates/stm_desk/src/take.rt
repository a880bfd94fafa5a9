//! Work that is handed out, and comes back.

ghost use Rattle.std.specs.Prelude.{◌≡◌, ◌≤◌, vec_len, IfOk, OnErr, is_some};
ghost use Rattle.stm_queue.specs.Queue.{is_out, queued_again, first_queued};
ghost use Rattle.stm_desk.specs.HandedOut.{HasHandedOut};

use crate::desk::Desk;
use stm_eval::Job;
use stm_store::Frozen;
use stm_terms::NoMemory;

impl Desk {
    /// The jobs of the n lowest queued tickets, or of all of them, which are out from then on, and an unchanging copy of the
    /// present store, which has their variables.
    pub fn take(&mut self, n: usize) -> Result<(Frozen, Vec<Job>), NoMemory>
        ensures taken { IfOk result (λ r. HasHandedOut n self.old self.new r.0 r.1.items) }
        ensures few { IfOk result (λ r. vec_len r.1 ≤ n) }
        ensures unchanged { OnErr result (self.new ≡ self.old) }
    {
        self.machine.take(n)
    }

    /// A ticket that is out is queued again, and the answer is whether it was out.
    pub fn hand_back(&mut self, ticket: u32) -> bool
        ensures was { result ≡ is_out ticket self.old.pending }
        ensures queued { self.new
            ≡ record self.old { pending = queued_again ticket self.old.pending } }
    {
        self.machine.hand_back(ticket)
    }

    /// Whether some ticket is queued.
    pub fn has_queued(&self) -> bool
        ensures { result ≡ is_some (first_queued self.now.pending) }
    {
        self.machine.has_queued()
    }
}
