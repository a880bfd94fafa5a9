//! Deliveries of what the blocks of jobs do.

ghost use Rattle.std.specs.Prelude.{◌≡◌, ◌≢◌, Some, IfOk, OnOk};
ghost use Rattle.stm_events.specs.SlowDesk.{find_waiter};
ghost use Rattle.stm_events.specs.States.{IsLegalFrom};
ghost use Rattle.stm_machine.specs.Checkpoints.{MayStart};
ghost use Rattle.stm_desk.specs.DeskView.{start_state, state_of};
ghost use Rattle.stm_commands.specs.Jobs.{delivery_refusal};
ghost use Rattle.stm_commands.specs.OpenInvariant.{refusal_unevaluated, handed_out, JobStands, HasGrown, OwnsTicket, after_job, after_message, IsRefusedFor};

use std::alloc::{AllocError, Global};
use stm_desk::{DeliverError, Desk, Status};
use stm_eval::{Evaluated, Job, evaluate};
use stm_store::Frozen;
use stm_terms::NoMemory;

/// Why a delivery to a ticket is refused whatever is delivered: no block waits under it, or the block is current.
pub(crate) fn refused_unevaluated(desk: &Desk, ticket: u32) -> Option<DeliverError>
    ensures { result ≡ refusal_unevaluated (find_waiter ticket (state_of desk.now).waiters) }
{
    match desk.status(ticket) {
        None => Some(DeliverError::Gone),
        Some(Status::Current(_)) => Some(DeliverError::Already),
        Some(Status::New | Status::Stale(_)) => None,
    }
}

/// A refusal, unless memory ran out.
fn reported(refusal: DeliverError) -> Result<Option<DeliverError>, NoMemory>
    ensures { IfOk result (λ r. (r ≡ Some refusal) × (refusal ≢ DeliverError.NoMemory)) }
{
    match refusal {
        DeliverError::Gone => Ok(Some(DeliverError::Gone)),
        DeliverError::OtherBlock => Ok(Some(DeliverError::OtherBlock)),
        DeliverError::Already => Ok(Some(DeliverError::Already)),
        DeliverError::Overtaken(number) => Ok(Some(DeliverError::Overtaken(number))),
        DeliverError::HistoryFull => Ok(Some(DeliverError::HistoryFull)),
        DeliverError::NoMemory => Err(AllocError),
    }
}

/// Delivers a message of a job. Returns why it is refused, if it is.
pub(crate) fn deliver_message(
    desk: &mut Desk,
    message: Evaluated,
) -> Result<Option<DeliverError>, NoMemory>
    requires own { OwnsTicket (state_of desk.old) message }
    ensures refused { IfOk result (λ r. IsRefusedFor desk.old message r) }
    ensures done { IfOk result (λ r. desk.new ≡ after_message desk.old message r) }
    ensures grown { HasGrown desk.old desk.new }
    ensures store { (state_of desk.new).store ≡ (state_of desk.old).store }
{
    let answer = desk.deliver_own(0, message);
    // The history is known to be legal by this.
    let _events = desk.history();
    match answer {
        Ok(()) => Ok(None),
        Err((_, refusal)) => reported(refusal),
    }
}

/// Delivers what a job's block does on a store. Returns why it is refused, if it is.
pub(crate) fn deliver_job(
    desk: &mut Desk,
    alloc: Global,
    store: &Frozen,
    job: Job,
) -> Result<Option<DeliverError>, NoMemory>
    requires start { MayStart desk.old.table desk.old.checkpoint }
    requires legal { IsLegalFrom (start_state desk.old) desk.old.history }
    requires stands { JobStands desk.old (handed_out store.now job) }
    ensures refused { IfOk result (λ r. r ≡ delivery_refusal desk.old (handed_out store.now job)) }
    ensures done { OnOk result (desk.new ≡ after_job desk.old (handed_out store.now job)) }
    ensures grown { HasGrown desk.old desk.new }
    ensures store { (state_of desk.new).store ≡ (state_of desk.old).store }
{
    match evaluate(alloc, job, store) {
        Ok(message) => deliver_message(desk, message),
        Err((_, refused)) => Err(refused),
    }
}
