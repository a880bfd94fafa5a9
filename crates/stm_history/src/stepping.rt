//! One event more: the machine is asked whether it may follow, its fields are compared, and then the machine is moved.

ghost use Rattle.std.specs.Prelude.{◌≡◌, ◌↔◌, ◌++◌, ◌∷◌, [], List, OnOk, IfSome, IsErrOf, IsTrue, is_some, Some};
ghost use Rattle.stm_store.specs.Cells.{plains};
ghost use Rattle.stm_eval.specs.EvaluatedFields.{message_ticket, message_verdict};
ghost use Rattle.stm_events.specs.declared.event.Event.{Event as AnyEvent};
ghost use Rattle.stm_events.specs.declared.event.What.TheVariants.{Submitted, Installed, Finished, Cancelled, Declared as DeclaredLate, Labelled};
ghost use Rattle.stm_events.specs.SlowDesk.{Slow};
ghost use Rattle.stm_machine.specs.JobsHandedOut.{IsPresent};
ghost use Rattle.stm_machine.specs.Machine.{IsAt, HasTicketLeft, MayDeliver, MovesBy};
ghost use Rattle.stm_machine.specs.Plans.{IsPlan};
ghost use Rattle.stm_history.specs.Following.{IsForbidden, Follows};
ghost use Rattle.stm_history.specs.Judgement.{IsIllegalFrom};
ghost use Rattle.stm_history_text.specs.Starts.{Start};

use crate::replayer::Replayer;
use stm_check::SharedBlock;
use stm_eval::Evaluated;
use stm_events::errors::{
    CancelError, DeliverError, FinishError, LabelError, LateDeclareError, SubmitError,
};
use stm_events::event::{Event, What};
use stm_events::label::is_label;
use stm_events::same::same_numbers;
use stm_events::shared_verdict::SharedVerdict;
use stm_machine::finish::Plan;
use stm_machine::machine::Machine;
use stm_store::Frozen;
use stm_terms::kinds::Ty;
use stm_terms::limits::MAX_EVENTS;
use stm_terms::values::Value;
use stm_terms::verdicts::Verdict;
use stm_terms::{NoMemory, is_name};

/// Why an event doesn't follow.
#[derive(Clone, Copy, Debug, PartialEq, Eq, Drop)]
pub(crate) enum StepError {
    NotAllowed,
    NoMemory,
}

impl From<NoMemory> for StepError {
    ghost use Rattle.std.specs.Prelude.{◌≡◌};
    ghost use Rattle.stm_history.specs.declared.stepping.StepError.TheVariants.{NoMemory};

    ghost from_gives = { λ _ e. e ≡ NoMemory };

    fn from(_refused: NoMemory) -> StepError {
        StepError::NoMemory
    }
}

fn submit_refused(error: SubmitError) -> StepError
    ensures { error ≡ SubmitError.NoMemory → result ≡ StepError.NoMemory }
{
    match error {
        SubmitError::NoMemory => StepError::NoMemory,
        SubmitError::Foreign(_) => StepError::NotAllowed,
        SubmitError::WaitingFull => StepError::NotAllowed,
        SubmitError::HistoryFull => StepError::NotAllowed,
    }
}

fn cancel_refused(error: CancelError) -> StepError
    ensures { error ≡ CancelError.NoMemory → result ≡ StepError.NoMemory }
{
    match error {
        CancelError::NoMemory => StepError::NoMemory,
        CancelError::NoTicket => StepError::NotAllowed,
        CancelError::HistoryFull => StepError::NotAllowed,
    }
}

fn finish_refused(error: FinishError) -> StepError
    ensures { error ≡ FinishError.NoMemory → result ≡ StepError.NoMemory }
{
    match error {
        FinishError::NoMemory => StepError::NoMemory,
        FinishError::NoTicket => StepError::NotAllowed,
        FinishError::NotEvaluated => StepError::NotAllowed,
        FinishError::Stale => StepError::NotAllowed,
        FinishError::Blocks => StepError::NotAllowed,
        FinishError::HistoryFull => StepError::NotAllowed,
        FinishError::CellsFull => StepError::NotAllowed,
    }
}

fn deliver_refused(error: DeliverError) -> StepError
    ensures { error ≡ DeliverError.NoMemory → result ≡ StepError.NoMemory }
{
    match error {
        DeliverError::NoMemory => StepError::NoMemory,
        DeliverError::Gone => StepError::NotAllowed,
        DeliverError::OtherBlock => StepError::NotAllowed,
        DeliverError::Already => StepError::NotAllowed,
        DeliverError::Overtaken(_) => StepError::NotAllowed,
        DeliverError::HistoryFull => StepError::NotAllowed,
    }
}

fn declare_refused(error: LateDeclareError) -> StepError
    ensures { error ≡ LateDeclareError.NoMemory → result ≡ StepError.NoMemory }
{
    match error {
        LateDeclareError::NoMemory => StepError::NoMemory,
        LateDeclareError::Twice => StepError::NotAllowed,
        LateDeclareError::TypeOfValue => StepError::NotAllowed,
        LateDeclareError::HistoryFull => StepError::NotAllowed,
        LateDeclareError::CellsFull => StepError::NotAllowed,
    }
}

fn label_refused(error: LabelError) -> StepError
    ensures { error ≡ LabelError.NoMemory → result ≡ StepError.NoMemory }
{
    match error {
        LabelError::NoMemory => StepError::NoMemory,
        LabelError::NoTicket => StepError::NotAllowed,
        LabelError::HistoryFull => StepError::NotAllowed,
    }
}

/// The block is submitted, under the next ticket.
fn submitted(machine: &mut Machine, ticket: u32, block: &SharedBlock) -> Result<(), StepError>
    requires { (s : Slow) × IsAt machine.old s × HasTicketLeft s }
    ensures done { OnOk result (MovesBy (Submitted ticket block.now) machine.old machine.new) }
    ensures not_allowed { IsErrOf result StepError.NotAllowed
        → IsForbidden (Submitted ticket block.now) machine.old }
{
    match machine.may_submit(false, block) {
        Ok(()) => {}
        Err(error) => return Err(submit_refused(error)),
    }
    let block = block.share()?;
    let given = machine.submit(block)?;
    if given == ticket {
        Ok(())
    } else {
        Err(StepError::NotAllowed)
    }
}

/// The block is cancelled.
fn cancelled(machine: &mut Machine, ticket: u32) -> Result<(), StepError>
    requires { (s : Slow) × IsAt machine.old s }
    ensures done { OnOk result (MovesBy (Cancelled ticket) machine.old machine.new) }
    ensures not_allowed { IsErrOf result StepError.NotAllowed
        → IsForbidden (Cancelled ticket) machine.old }
{
    match machine.may_cancel(false, ticket) {
        Ok(()) => {
            machine.cancel(ticket);
            Ok(())
        }
        Err(error) => Err(cancel_refused(error)),
    }
}

/// The variable is declared.
fn declared(machine: &mut Machine, name: &str, kind: Ty, value: Value) -> Result<(), StepError>
    requires { (s : Slow) × IsAt machine.old s }
    ensures done { OnOk result (MovesBy (DeclaredLate name.now kind value) machine.old machine.new) }
    ensures not_allowed { IsErrOf result StepError.NotAllowed
        → IsForbidden (DeclaredLate name.now kind value) machine.old }
{
    if !is_name(name) {
        return Err(StepError::NotAllowed);
    }
    match machine.may_declare(false, name, kind, value) {
        Ok(()) => {}
        Err(error) => return Err(declare_refused(error)),
    }
    machine.declare(name, kind, value)?;
    Ok(())
}

/// The block gets a label.
fn labelled(machine: &mut Machine, ticket: u32, label: &str) -> Result<(), StepError>
    requires { (s : Slow) × IsAt machine.old s }
    ensures done { OnOk result (MovesBy (Labelled ticket label.now) machine.old machine.new) }
    ensures not_allowed { IsErrOf result StepError.NotAllowed
        → IsForbidden (Labelled ticket label.now) machine.old }
{
    if !is_label(label) {
        return Err(StepError::NotAllowed);
    }
    match machine.may_label(false, ticket) {
        Ok(()) => {
            machine.label(ticket, label);
            Ok(())
        }
        Err(error) => Err(label_refused(error)),
    }
}

/// Whether the fields of a finish are those of the plan.
fn is_plan(plan: &Plan, verdict: &SharedVerdict, first_new: u32, stale: &[u32]) -> bool
    ensures same { IsTrue result
        → (plan.now.verdict ≡ verdict.now) × (plan.now.first_new ≡ first_new)
        × (plan.now.stale ≡ stale.now) }
    ensures found { (plan.now.verdict ≡ verdict.now) × (plan.now.first_new ≡ first_new)
        × (plan.now.stale ≡ stale.now) → IsTrue result }
{
    let verdicts = plan.verdict.same(verdict);
    let tickets = same_numbers(plan.stale.as_slice(), stale);
    verdicts && plan.first_new == first_new && tickets
}

/// The block finishes, where the plan is the event's.
fn finish_by(
    machine: &mut Machine,
    ticket: u32,
    plan: &Plan,
    verdict: &SharedVerdict,
    first_new: u32,
    stale: &[u32],
) -> Result<(), StepError>
    requires at { (s : Slow) × IsAt machine.old s }
    requires plan { (s : Slow) → IsAt machine.old s
        → IsPlan s ticket plan.now.verdict plan.now.first_new plan.now.stale }
    ensures done { OnOk result
        (MovesBy (Finished ticket verdict.now first_new stale.now) machine.old machine.new) }
    ensures not_allowed { IsErrOf result StepError.NotAllowed
        → IsForbidden (Finished ticket verdict.now first_new stale.now) machine.old }
{
    if !is_plan(plan, verdict, first_new, stale) {
        return Err(StepError::NotAllowed);
    }
    match machine.finish(ticket, plan) {
        Ok(_) => Ok(()),
        Err(_) => Err(StepError::NoMemory),
    }
}

/// The block finishes, with these fields.
fn finished(
    machine: &mut Machine,
    ticket: u32,
    verdict: &SharedVerdict,
    first_new: u32,
    stale: &[u32],
) -> Result<(), StepError>
    requires { (s : Slow) × IsAt machine.old s }
    ensures done { OnOk result
        (MovesBy (Finished ticket verdict.now first_new stale.now) machine.old machine.new) }
    ensures not_allowed { IsErrOf result StepError.NotAllowed
        → IsForbidden (Finished ticket verdict.now first_new stale.now) machine.old }
{
    match machine.plan(false, ticket) {
        Ok(plan) => finish_by(machine, ticket, &plan, verdict, first_new, stale),
        Err(error) => Err(finish_refused(error)),
    }
}

/// Whether the message brings this verdict.
fn brings(message: &Evaluated, verdict: &SharedVerdict) -> bool
    ensures { IsTrue result ↔ (message_verdict message.now ≡ verdict.now) }
{
    let blocks = Verdict::Blocks;
    message.verdict().same(verdict.get(&blocks))
}

/// Whether the message may be delivered, and brings this verdict.
fn may_bring(
    machine: &Machine,
    message: &Evaluated,
    verdict: &SharedVerdict,
) -> Result<(), StepError>
    requires { (s : Slow) → IsAt machine.now s
        → IsPresent s (message_ticket message.now) message.now }
    ensures may { OnOk result ((s : Slow) → IsAt machine.now s → MayDeliver s message.now) }
    ensures verdict { OnOk result (message_verdict message.now ≡ verdict.now) }
    ensures not_allowed { IsErrOf result StepError.NotAllowed
        → IsForbidden (Installed (message_ticket message.now) verdict.now) machine.now }
{
    if !brings(message, verdict) {
        return Err(StepError::NotAllowed);
    }
    match machine.may_deliver(false, message) {
        Ok(()) => Ok(()),
        Err(error) => Err(deliver_refused(error)),
    }
}

/// The message is delivered, if it brings this verdict.
fn deliver_message(
    machine: &mut Machine,
    message: Evaluated,
    verdict: &SharedVerdict,
) -> Result<(), StepError>
    requires at { (s : Slow) × IsAt machine.old s }
    requires present { (s : Slow) → IsAt machine.old s
        → IsPresent s (message_ticket message) message }
    ensures done { OnOk result (MovesBy (Installed (message_ticket message) verdict.now)
        machine.old machine.new) }
    ensures not_allowed { IsErrOf result StepError.NotAllowed
        → IsForbidden (Installed (message_ticket message) verdict.now) machine.old }
{
    match may_bring(machine, &message, verdict) {
        Ok(()) => match machine.deliver(message) {
            Ok(_) => Ok(()),
            Err(_) => Err(StepError::NoMemory),
        },
        Err(error) => Err(error),
    }
}

/// A verdict is installed: that of the block on the present store, of which a copy is given.
fn installed(
    machine: &mut Machine,
    copy: &Frozen,
    ticket: u32,
    verdict: &SharedVerdict,
) -> Result<(), StepError>
    requires at { (s : Slow) × IsAt machine.old s }
    requires copied { copy.now ≡ plains machine.old.store }
    ensures done { OnOk result (MovesBy (Installed ticket verdict.now) machine.old machine.new) }
    ensures not_allowed { IsErrOf result StepError.NotAllowed
        → IsForbidden (Installed ticket verdict.now) machine.old }
{
    if machine.block(ticket).is_none() {
        return Err(StepError::NotAllowed);
    }
    match machine.evaluated(copy, ticket) {
        Ok(message) => deliver_message(machine, message, verdict),
        Err(_) => Err(StepError::NoMemory),
    }
}

/// Makes sure that `copy` is a copy of the present store.
fn keep_copy(machine: &Machine, copy: &mut Option<Frozen>) -> Result<(), NoMemory>
    requires { IfSome copy.old (λ cells. cells ≡ plains machine.now.store) }
    ensures { OnOk result (copy.new ≡ Some (plains machine.now.store)) }
{
    if copy.is_none() {
        *copy = Some(machine.store().freeze()?);
    }
    Ok(())
}

/// Adds a copy of an event to those that are kept, if they are.
fn keep_event(kept: &mut Option<Vec<Event>>, event: &Event) -> Result<(), NoMemory>
    ensures keeps { is_some kept.new ≡ is_some kept.old }
    ensures kept { OnOk result ((H : List AnyEvent) → IfSome kept.old (λ events. events.items ≡ H)
        → IfSome kept.new (λ events. events.items ≡ H ++ event.now ∷ [])) }
{
    match kept {
        Some(events) => {
            events.push(event.copy()?)?;
            Ok(())
        }
        None => Ok(()),
    }
}

impl Replayer {
    /// A verdict is installed.
    fn install(&mut self, ticket: u32, verdict: &SharedVerdict) -> Result<(), StepError>
        requires at { (s : Slow) × IsAt self.old.machine s }
        requires copied { IfSome self.old.copy (λ cells. cells ≡ plains self.old.machine.store) }
        ensures done { OnOk result
            (MovesBy (Installed ticket verdict.now) self.old.machine self.new.machine) }
        ensures not_allowed { IsErrOf result StepError.NotAllowed
            → IsForbidden (Installed ticket verdict.now) self.old.machine }
        ensures copied { OnOk result (self.new.copy ≡ Some (plains self.old.machine.store)) }
        ensures events { self.new.events ≡ self.old.events }
        ensures kept { self.new.kept ≡ self.old.kept }
        ensures blocks { self.new.blocks ≡ self.old.blocks }
    {
        keep_copy(&self.machine, &mut self.copy)?;
        match &self.copy {
            Some(copy) => installed(&mut self.machine, copy, ticket, verdict),
            None => unreachable!(),
        }
    }

    /// What happens next. A finish and a declaration let go of the copy first, so that the store changes in place.
    fn act(&mut self, what: &What) -> Result<(), StepError>
        requires at { (s : Slow) × IsAt self.old.machine s × HasTicketLeft s }
        requires copied { IfSome self.old.copy (λ cells. cells ≡ plains self.old.machine.store) }
        ensures done { OnOk result (MovesBy what.now self.old.machine self.new.machine) }
        ensures not_allowed { IsErrOf result StepError.NotAllowed
            → IsForbidden what.now self.old.machine }
        ensures copied { OnOk result
            (IfSome self.new.copy (λ cells. cells ≡ plains self.new.machine.store)) }
        ensures events { self.new.events ≡ self.old.events }
        ensures kept { self.new.kept ≡ self.old.kept }
        ensures blocks { self.new.blocks ≡ self.old.blocks }
    {
        match what {
            What::Submitted { ticket, block } => submitted(&mut self.machine, *ticket, block),
            What::Installed { ticket, verdict } => self.install(*ticket, verdict),
            What::Finished {
                ticket,
                verdict,
                first_new,
                stale,
            } => {
                self.copy = None;
                finished(
                    &mut self.machine,
                    *ticket,
                    verdict,
                    *first_new,
                    stale.as_slice(),
                )
            }
            What::Cancelled { ticket } => cancelled(&mut self.machine, *ticket),
            What::Declared { name, kind, value } => {
                self.copy = None;
                declared(&mut self.machine, name.as_str(), *kind, *value)
            }
            What::Labelled { ticket, label } => {
                labelled(&mut self.machine, *ticket, label.as_str())
            }
        }
    }

    /// Takes one event more, exactly if it may follow. After an error nothing is promised.
    pub(crate) fn step(&mut self, event: &Event) -> Result<(), StepError>
        requires { (S : Start) × (H : List AnyEvent) × Follows S H self.old }
        ensures done { OnOk result ((S : Start) (H : List AnyEvent)
            → Follows S H self.old → Follows S (H ++ event.now ∷ []) self.new) }
        ensures not_allowed { IsErrOf result StepError.NotAllowed
            → (S : Start) (H : List AnyEvent) → Follows S H self.old → IsIllegalFrom S H event.now }
        ensures keeps { OnOk result (is_some self.new.kept ≡ is_some self.old.kept) }
    {
        if event.client >= Event::MAX_CLIENTS || self.events >= MAX_EVENTS {
            return Err(StepError::NotAllowed);
        }
        match self.act(&event.what) {
            Ok(()) => {
                self.events += 1;
                keep_event(&mut self.kept, event)?;
                Ok(())
            }
            Err(error) => Err(error),
        }
    }
}
