//! The stores of jobs that were handed out: one whose ticket waits no more needs none.

ghost use Rattle.std.specs.Prelude.{◌≡◌, ◌≤◌, ◌++◌, map, length, is_some, OnOk, OnErr};
ghost use Rattle.stm_events.specs.SlowDesk.{find_waiter};
ghost use Rattle.stm_desk.specs.DeskView.{state_of};
ghost use Rattle.stm_commands.specs.OpenInvariant.{job_kept, AreStored, HaveStores};

use crate::jobs::KeptJob;
use std::alloc::Global;
use stm_desk::Desk;
use stm_terms::NoMemory;

/// Whether a block waits under a ticket.
#[tactic(auto, using(crate::proofs::KeptStores::is_some_of_waiter))]
fn waits(desk: &Desk, ticket: u32) -> bool
    ensures { result ≡ is_some (find_waiter ticket (state_of desk.now).waiters) }
{
    desk.block(ticket).is_some()
}

/// Drops the store of the job at a place if its ticket waits no more. Returns whether the ticket waits.
fn keeps_store(desk: &Desk, jobs: &mut [KeptJob], at: usize) -> bool
    requires { HaveStores (state_of desk.now).waiters jobs.old }
    ensures same { map job_kept jobs.new ≡ map job_kept jobs.old }
    ensures stored { HaveStores (state_of desk.now).waiters jobs.new }
{
    if at >= jobs.len() {
        return false;
    }
    if waits(desk, jobs[at].ticket) {
        return true;
    }
    jobs[at].store = None;
    false
}

/// Drops the stores of the jobs at these places whose tickets wait no more. The places of the others come first; returns how many
/// they are.
fn drop_stores(desk: &Desk, jobs: &mut [KeptJob], places: &mut [usize]) -> usize
    requires { HaveStores (state_of desk.now).waiters jobs.old }
    ensures same { map job_kept jobs.new ≡ map job_kept jobs.old }
    ensures stored { HaveStores (state_of desk.now).waiters jobs.new }
    ensures few { result ≤ length places.old }
{
    let mut left: usize = 0;
    for i in 0..places.len() {
        let at = places[i];
        if keeps_store(desk, jobs, at) {
            places[left] = at;
            left += 1;
        }
    }
    left
}

/// The places of the jobs that may have their stores, and how many events and jobs there are when it is next worth a look which
/// of their tickets still wait: as many more as stores were left at the last look. So looking costs a constant for each event
/// and job, and at most twice as many stores are kept as were left, besides those of one `take`.
#[derive(Drop)]
pub struct Stores {
    places: Vec<usize>,
    due: usize,
}

impl Stores {
    /// No places, and a look at the next event or job.
    pub(crate) fn new(alloc: Global) -> Stores {
        Stores {
            places: Vec::new(alloc),
            due: 0,
        }
    }

    /// Drops the stores of the jobs whose tickets wait no more, if it is due.
    fn look(&mut self, desk: &Desk, jobs: &mut [KeptJob])
        requires { HaveStores (state_of desk.now).waiters jobs.old }
        ensures same { map job_kept jobs.new ≡ map job_kept jobs.old }
        ensures stored { HaveStores (state_of desk.now).waiters jobs.new }
    {
        let clock = desk.history().len().saturating_add(jobs.len());
        if clock >= self.due {
            let left = drop_stores(desk, jobs, &mut self.places);
            self.places.truncate(left);
            self.due = clock.saturating_add(left);
        }
    }

    /// Notes that the jobs from one place to another have their stores.
    fn note(&mut self, first: usize, end: usize) -> Result<(), NoMemory> {
        for at in first..end {
            self.places.push(at)?;
        }
        Ok(())
    }

    /// Appends jobs that have their stores, after stores were dropped of jobs whose tickets wait no more.
    pub(crate) fn append(
        &mut self,
        desk: &Desk,
        jobs: &mut Vec<KeptJob>,
        made: Vec<KeptJob>,
    ) -> Result<(), NoMemory>
        requires kept { HaveStores (state_of desk.now).waiters jobs.old.items }
        requires made { AreStored made.items }
        ensures ok { OnOk result (map job_kept jobs.new.items
            ≡ map job_kept jobs.old.items ++ map job_kept made.items) }
        ensures err { OnErr result (map job_kept jobs.new.items ≡ map job_kept jobs.old.items) }
        ensures stored { HaveStores (state_of desk.now).waiters jobs.new.items }
    {
        let mut made = made;
        self.look(desk, jobs);
        let first = jobs.len();
        self.note(first, first.saturating_add(made.len()))?;
        jobs.append(&mut made)?;
        Ok(())
    }
}
