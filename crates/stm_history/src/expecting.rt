//! What is due in place of an event: the machine is asked whether it refuses the call, and then for the fields that the call has
//! to have.

ghost use Rattle.std.specs.Prelude.{◌≡◌, ◌≢◌, ◌<◌, false, ℕ, List, IfOk, IsTrue, None};
ghost use Rattle.stm_eval.specs.EvaluatedFields.{message_ticket};
ghost use Rattle.stm_events.specs.declared.event.Event.{Event as AnyEvent};
ghost use Rattle.stm_events.specs.declared.event.What.TheVariants.{Submitted, Installed, Finished, Cancelled, Declared as DeclaredLate, Labelled};
ghost use Rattle.stm_events.specs.Refusals.{submit_refused};
ghost use Rattle.stm_events.specs.Labels.{is_label};
ghost use Rattle.stm_events.specs.SlowDesk.{Slow};
ghost use Rattle.stm_terms.specs.Limits.{max_clients};
ghost use Rattle.stm_terms.specs.Names.{is_name_text};
ghost use Rattle.stm_terms.specs.declared.verdicts.Verdict.{Verdict};
ghost use Rattle.stm_machine.specs.JobsHandedOut.{IsPresent};
ghost use Rattle.stm_machine.specs.Machine.{IsAt, HasTicketLeft, MayDeliver};
ghost use Rattle.stm_history.specs.declared.explanation.CallRefusal.TheVariants.{Submission, Delivery, Finish, Cancellation, Declaration, Labelling};
ghost use Rattle.stm_history.specs.declared.expecting.Expectation.TheVariants.{Refuses};
ghost use Rattle.stm_history.specs.Expecting.{HasName, IsDueOn, IsDueAfter};
ghost use Rattle.stm_history.specs.Following.{Follows};
ghost use Rattle.stm_history_text.specs.Starts.{Start};

use crate::explanation::CallRefusal;
use crate::replayer::Replayer;
use stm_check::SharedBlock;
use stm_eval::Evaluated;
use stm_events::errors::{
    CancelError, DeliverError, FinishError, LabelError, LateDeclareError, SubmitError,
};
use stm_events::event::{Event, What};
use stm_events::shared_name::SharedName;
use stm_machine::finish::Plan;
use stm_machine::machine::Machine;
use stm_terms::NoMemory;
use stm_terms::kinds::Ty;
use stm_terms::limits::MAX_EVENTS;
use stm_terms::values::Value;

/// What is due in place of an event.
#[derive(Drop)]
pub(crate) enum Expectation {
    /// The call of the event, as it has to be.
    Due(What),
    /// None: a desk refuses the call.
    Refuses(CallRefusal),
}

/// What is due in place of a submission that is refused, unless it was for lack of memory.
fn refused_submission(error: SubmitError) -> Result<Expectation, NoMemory>
    ensures { IfOk result (λ x. (error ≢ SubmitError.NoMemory) × (x ≡ Refuses (Submission error))) }
{
    match error {
        SubmitError::NoMemory => Err(NoMemory),
        SubmitError::Foreign(_) => Ok(Expectation::Refuses(CallRefusal::Submission(error))),
        SubmitError::WaitingFull => Ok(Expectation::Refuses(CallRefusal::Submission(error))),
        SubmitError::HistoryFull => Ok(Expectation::Refuses(CallRefusal::Submission(error))),
    }
}

fn refused_cancellation(error: CancelError) -> Result<Expectation, NoMemory>
    ensures { IfOk result (λ x. (error ≢ CancelError.NoMemory) × (x ≡ Refuses (Cancellation error))) }
{
    match error {
        CancelError::NoMemory => Err(NoMemory),
        CancelError::NoTicket => Ok(Expectation::Refuses(CallRefusal::Cancellation(error))),
        CancelError::HistoryFull => Ok(Expectation::Refuses(CallRefusal::Cancellation(error))),
    }
}

fn refused_finish(error: FinishError) -> Result<Expectation, NoMemory>
    ensures { IfOk result (λ x. (error ≢ FinishError.NoMemory) × (x ≡ Refuses (Finish error))) }
{
    match error {
        FinishError::NoMemory => Err(NoMemory),
        FinishError::NoTicket => Ok(Expectation::Refuses(CallRefusal::Finish(error))),
        FinishError::NotEvaluated => Ok(Expectation::Refuses(CallRefusal::Finish(error))),
        FinishError::Stale => Ok(Expectation::Refuses(CallRefusal::Finish(error))),
        FinishError::Blocks => Ok(Expectation::Refuses(CallRefusal::Finish(error))),
        FinishError::HistoryFull => Ok(Expectation::Refuses(CallRefusal::Finish(error))),
        FinishError::CellsFull => Ok(Expectation::Refuses(CallRefusal::Finish(error))),
    }
}

fn refused_declaration(error: LateDeclareError) -> Result<Expectation, NoMemory>
    ensures { IfOk result (λ x. (error ≢ LateDeclareError.NoMemory) × (x ≡ Refuses (Declaration error))) }
{
    match error {
        LateDeclareError::NoMemory => Err(NoMemory),
        LateDeclareError::Twice => Ok(Expectation::Refuses(CallRefusal::Declaration(error))),
        LateDeclareError::TypeOfValue => Ok(Expectation::Refuses(CallRefusal::Declaration(error))),
        LateDeclareError::HistoryFull => Ok(Expectation::Refuses(CallRefusal::Declaration(error))),
        LateDeclareError::CellsFull => Ok(Expectation::Refuses(CallRefusal::Declaration(error))),
    }
}

fn refused_labelling(error: LabelError) -> Result<Expectation, NoMemory>
    ensures { IfOk result (λ x. (error ≢ LabelError.NoMemory) × (x ≡ Refuses (Labelling error))) }
{
    match error {
        LabelError::NoMemory => Err(NoMemory),
        LabelError::NoTicket => Ok(Expectation::Refuses(CallRefusal::Labelling(error))),
        LabelError::HistoryFull => Ok(Expectation::Refuses(CallRefusal::Labelling(error))),
    }
}

fn refused_delivery(error: DeliverError) -> Result<Expectation, NoMemory>
    ensures { IfOk result (λ x. (error ≢ DeliverError.NoMemory) × (x ≡ Refuses (Delivery error))) }
{
    match error {
        DeliverError::NoMemory => Err(NoMemory),
        DeliverError::Gone => Ok(Expectation::Refuses(CallRefusal::Delivery(error))),
        DeliverError::OtherBlock => Ok(Expectation::Refuses(CallRefusal::Delivery(error))),
        DeliverError::Already => Ok(Expectation::Refuses(CallRefusal::Delivery(error))),
        DeliverError::Overtaken(_) => Ok(Expectation::Refuses(CallRefusal::Delivery(error))),
        DeliverError::HistoryFull => Ok(Expectation::Refuses(CallRefusal::Delivery(error))),
    }
}

/// The block is submitted, under the next ticket.
fn submit_next(machine: &mut Machine, block: &SharedBlock) -> Result<Expectation, NoMemory>
    requires { (s : Slow) × IsAt machine.old s × HasTicketLeft s
        × (submit_refused s false block.now ≡ None) }
    ensures { IfOk result (λ x. (s : Slow) (t : ℕ) → IsAt machine.old s
        → IsDueOn s false (Submitted t block.now) x) }
{
    let waiting = block.share()?;
    let block = block.share()?;
    let ticket = machine.submit(waiting)?;
    Ok(Expectation::Due(What::Submitted { ticket, block }))
}

/// What is due in place of a submission of the block.
fn submission(
    machine: &mut Machine,
    full: bool,
    block: &SharedBlock,
) -> Result<Expectation, NoMemory>
    requires { (s : Slow) × IsAt machine.old s × (full ≡ false → HasTicketLeft s) }
    ensures { IfOk result (λ x. (s : Slow) (t : ℕ) → IsAt machine.old s
        → IsDueOn s full (Submitted t block.now) x) }
{
    match machine.may_submit(full, block) {
        Ok(()) => submit_next(machine, block),
        Err(error) => refused_submission(error),
    }
}

/// What is due in place of a cancellation of the ticket.
fn cancellation(machine: &Machine, full: bool, ticket: u32) -> Result<Expectation, NoMemory>
    ensures { IfOk result (λ x. (s : Slow) → IsAt machine.now s
        → IsDueOn s full (Cancelled ticket) x) }
{
    match machine.may_cancel(full, ticket) {
        Ok(()) => Ok(Expectation::Due(What::Cancelled { ticket })),
        Err(error) => refused_cancellation(error),
    }
}

/// The finish of a ticket by its plan.
fn finish_of(ticket: u32, plan: Plan) -> What
    ensures { result ≡ Finished ticket plan.verdict plan.first_new plan.stale }
{
    let Plan {
        verdict,
        first_new,
        stale,
    } = plan;
    What::Finished {
        ticket,
        verdict,
        first_new,
        stale,
    }
}

/// What is due in place of a finish of the ticket.
fn finish(machine: &Machine, full: bool, ticket: u32) -> Result<Expectation, NoMemory>
    ensures { IfOk result (λ x. (s : Slow) (v : Verdict) (n : ℕ) (stale : List ℕ)
        → IsAt machine.now s → IsDueOn s full (Finished ticket v n stale) x) }
{
    match machine.plan(full, ticket) {
        Ok(plan) => Ok(Expectation::Due(finish_of(ticket, plan))),
        Err(error) => refused_finish(error),
    }
}

/// What is due in place of a declaration of the variable.
fn declaration(
    machine: &Machine,
    full: bool,
    name: &SharedName,
    kind: Ty,
    value: Value,
) -> Result<Expectation, NoMemory>
    requires { IsTrue (is_name_text name.now) }
    ensures { IfOk result (λ x. (s : Slow) → IsAt machine.now s
        → IsDueOn s full (DeclaredLate name.now kind value) x) }
{
    match machine.may_declare(full, name.as_str(), kind, value) {
        Ok(()) => {
            let name = name.share()?;
            Ok(Expectation::Due(What::Declared { name, kind, value }))
        }
        Err(error) => refused_declaration(error),
    }
}

/// What is due in place of a label of the ticket.
fn labelling(
    machine: &Machine,
    full: bool,
    ticket: u32,
    label: &SharedName,
) -> Result<Expectation, NoMemory>
    requires { IsTrue (is_label label.now) }
    ensures { IfOk result (λ x. (s : Slow) → IsAt machine.now s
        → IsDueOn s full (Labelled ticket label.now) x) }
{
    match machine.may_label(full, ticket) {
        Ok(()) => {
            let label = label.share()?;
            Ok(Expectation::Due(What::Labelled { ticket, label }))
        }
        Err(error) => refused_labelling(error),
    }
}

/// The message is delivered, which is of the present store.
fn deliver(machine: &mut Machine, message: Evaluated) -> Result<Expectation, NoMemory>
    requires { (s : Slow) × IsAt machine.old s × MayDeliver s message }
    ensures { IfOk result (λ x. (s : Slow) (v : Verdict) → IsAt machine.old s
        → IsDueOn s false (Installed (message_ticket message) v) x) }
{
    let ticket = message.ticket();
    match machine.deliver(message) {
        Ok(verdict) => Ok(Expectation::Due(What::Installed { ticket, verdict })),
        Err((_, refused)) => Err(refused),
    }
}

/// What is due in place of a delivery of another verdict than the message's, which is of the present store.
fn message_due(
    machine: &mut Machine,
    full: bool,
    message: Evaluated,
) -> Result<Expectation, NoMemory>
    requires at { (s : Slow) × IsAt machine.old s }
    requires present { (s : Slow) → IsAt machine.old s
        → IsPresent s (message_ticket message) message }
    ensures { IfOk result (λ x. (s : Slow) (v : Verdict) → IsAt machine.old s
        → IsDueOn s full (Installed (message_ticket message) v) x) }
{
    match machine.may_deliver(full, &message) {
        Ok(()) => deliver(machine, message),
        Err(error) => refused_delivery(error),
    }
}

/// What is due in place of a delivery to the ticket.
fn delivery(machine: &mut Machine, full: bool, ticket: u32) -> Result<Expectation, NoMemory>
    requires { (s : Slow) × IsAt machine.old s }
    ensures { IfOk result (λ x. (s : Slow) (v : Verdict) → IsAt machine.old s
        → IsDueOn s full (Installed ticket v) x) }
{
    if machine.block(ticket).is_none() {
        return refused_delivery(DeliverError::Gone);
    }
    let copy = machine.store().freeze()?;
    match machine.evaluated(&copy, ticket) {
        Ok(message) => message_due(machine, full, message),
        Err(refused) => Err(refused),
    }
}

/// What is due in place of what happens.
fn due(machine: &mut Machine, full: bool, what: &What) -> Result<Expectation, NoMemory>
    requires at { (s : Slow) × IsAt machine.old s × (full ≡ false → HasTicketLeft s) }
    requires name { HasName what.now }
    ensures { IfOk result (λ x. (s : Slow) → IsAt machine.old s → IsDueOn s full what.now x) }
{
    match what {
        What::Submitted { block, .. } => submission(machine, full, block),
        What::Installed { ticket, .. } => delivery(machine, full, *ticket),
        What::Finished { ticket, .. } => finish(machine, full, *ticket),
        What::Cancelled { ticket } => cancellation(machine, full, *ticket),
        What::Declared { name, kind, value } => declaration(machine, full, name, *kind, *value),
        What::Labelled { ticket, label } => labelling(machine, full, *ticket, label),
    }
}

impl Replayer {
    /// What is due in place of the event. Nothing is promised of what goes through the history afterwards.
    pub(crate) fn expect(&mut self, event: &Event) -> Result<Expectation, NoMemory>
        requires follows { (S : Start) × (H : List AnyEvent) × Follows S H self.old }
        requires client { event.now.client < max_clients }
        requires name { HasName event.now.what }
        ensures { IfOk result (λ x. (S : Start) (H : List AnyEvent)
            → Follows S H self.old → IsDueAfter S H event.now x) }
    {
        let full = self.events >= MAX_EVENTS;
        due(&mut self.machine, full, &event.what)
    }
}
