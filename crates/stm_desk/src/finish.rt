//! A block that is to take effect.

ghost use Rattle.std.specs.Prelude.{◌≡◌, ◌++◌, ◌∷◌, [], ◌<◌, false, IfOk, OnOk, OnErr, vec_len, vec_capacity};
ghost use Rattle.stm_terms.specs.UnlessNoMemory.{RefusedAs};
ghost use Rattle.stm_store.specs.Cells.{applied_answer};
ghost use Rattle.stm_terms.specs.Limits.{max_clients};
ghost use Rattle.stm_events.specs.declared.event.What.TheVariants.{Finished};
ghost use Rattle.stm_events.specs.Labels.{AreSameLabels, without_label};
ghost use Rattle.stm_events.specs.SlowDesk.{Slow};
ghost use Rattle.stm_machine.specs.Machine.{event, IsAt, MovesBy};
ghost use Rattle.stm_machine.specs.Plans.{IsPlan};
ghost use Rattle.stm_machine.specs.QueueAndIndex.{with_tickets};
ghost use Rattle.stm_desk.specs.DeskView.{state_of, is_full, with_event};
ghost use Rattle.stm_desk.specs.Events.{finish_of, HasFinishedBlock};
ghost use Rattle.stm_desk.specs.Refusals.{finish_refusal};

use crate::desk::Desk;
use stm_events::{Event, FinishError, LabelTable, SharedVerdict, Tickets, What};
use stm_machine::{Machine, Plan};
use stm_store::Applied;
use stm_terms::NoMemory;

/// What a finish did: the verdict, with the new variables before they were numbered; what applying it did; and the tickets
/// that became stale, ascending.
#[derive(Drop)]
pub struct Finish {
    pub verdict: SharedVerdict,
    pub applied: Applied,
    pub stale: Tickets,
}

/// The event of a finish by its plan, and room for it in a list of events.
fn finished_event(
    events: &mut Vec<Event>,
    client: u32,
    ticket: u32,
    plan: &Plan,
) -> Result<Event, NoMemory>
    ensures event { IfOk result (λ e. e ≡ event client
        (Finished ticket plan.now.verdict plan.now.first_new plan.now.stale)) }
    ensures items { events.new.items ≡ events.old.items }
    ensures room { OnOk result (vec_len events.new < vec_capacity events.new) }
{
    events.reserve(1)?;
    Ok(Event {
        client,
        what: What::Finished {
            ticket,
            verdict: plan.verdict.share()?,
            first_new: plan.first_new,
            stale: plan.stale.share()?,
        },
    })
}

/// A finish by its plan, on the parts of a desk: its event, for which there is room, joins the history.
fn finish_parts(
    machine: &mut Machine,
    labels: &mut LabelTable,
    history: &mut Vec<Event>,
    ticket: u32,
    plan: &Plan,
    event: Event,
) -> Result<Applied, NoMemory>
    requires plan { (s : Slow) × IsAt machine.old s
        × IsPlan s ticket plan.now.verdict plan.now.first_new plan.now.stale }
    requires room { vec_len history.old < vec_capacity history.old }
    ensures moved { OnOk result (MovesBy
        (Finished ticket plan.now.verdict plan.now.first_new plan.now.stale)
        machine.old machine.new) }
    ensures applied { IfOk result (λ a. a ≡ applied_answer machine.old.store plan.now.verdict) }
    ensures pending { OnOk result (machine.new.pending
        ≡ with_tickets plan.now.stale machine.old.pending) }
    ensures labels { OnOk result (AreSameLabels labels.new (without_label ticket labels.old)) }
    ensures history { OnOk result (history.new.items ≡ history.old.items ++ event ∷ []) }
    ensures unchanged { OnErr result ((machine.new ≡ machine.old) × (labels.new ≡ labels.old)
        × (history.new.items ≡ history.old.items)) }
{
    let applied = machine.finish(ticket, plan)?;
    labels.remove(ticket);
    history.push_reserved(event);
    Ok(applied)
}

/// What a finish did by its plan.
pub(crate) fn finish_by(plan: Plan, applied: Applied) -> Finish
    ensures verdict { result.verdict ≡ plan.verdict }
    ensures applied { result.applied ≡ applied }
    ensures stale { result.stale ≡ plan.stale }
{
    let Plan {
        verdict,
        first_new: _,
        stale,
    } = plan;
    Finish {
        verdict,
        applied,
        stale,
    }
}

impl Desk {
    /// Why the block can't be finished, or what its finish is to do.
    fn plan(&self, ticket: u32) -> Result<Plan, FinishError>
        ensures refused { RefusedAs FinishError.NoMemory (finish_refusal self.now ticket) result }
        ensures plan { IfOk result (λ p.
            IsPlan (state_of self.now) ticket p.verdict p.first_new p.stale) }
        ensures room { OnOk result (is_full self.now ≡ false) }
    {
        let full = self.is_full();
        self.machine.plan(full, ticket)
    }

    /// The finish by its plan: its event joins the history. The result is what applying the verdict did. All memory is taken
    /// before the first change.
    fn apply_plan(&mut self, client: u32, ticket: u32, plan: &Plan) -> Result<Applied, NoMemory>
        requires client { client < max_clients }
        requires room { is_full self.old ≡ false }
        requires plan { IsPlan (state_of self.old) ticket
            plan.now.verdict plan.now.first_new plan.now.stale }
        ensures accepted { OnOk result (self.new ≡ with_event self.old client
            (Finished ticket plan.now.verdict plan.now.first_new plan.now.stale)) }
        ensures applied { IfOk result (λ a. a ≡ applied_answer (state_of self.old).store plan.now.verdict) }
        ensures unchanged { OnErr result (self.new ≡ self.old) }
    {
        let event = finished_event(&mut self.history, client, ticket, plan)?;
        let applied = finish_parts(
            &mut self.machine,
            &mut self.labels,
            &mut self.history,
            ticket,
            plan,
            event,
        )?;
        self.past.let_few_go();
        Ok(applied)
    }

    /// The finish by its plan, whose event joins the list that is lent, too.
    fn apply_noted(
        &mut self,
        client: u32,
        ticket: u32,
        plan: &Plan,
        own: &mut Vec<Event>,
    ) -> Result<Applied, NoMemory>
        requires client { client < max_clients }
        requires room { is_full self.old ≡ false }
        requires plan { IsPlan (state_of self.old) ticket
            plan.now.verdict plan.now.first_new plan.now.stale }
        ensures accepted { OnOk result (self.new ≡ with_event self.old client
            (Finished ticket plan.now.verdict plan.now.first_new plan.now.stale)) }
        ensures noted { OnOk result (own.new.items
            ≡ own.old.items ++ event client
            (Finished ticket plan.now.verdict plan.now.first_new plan.now.stale) ∷ []) }
        ensures applied { IfOk result (λ a. a ≡ applied_answer (state_of self.old).store plan.now.verdict) }
        ensures unchanged { OnErr result ((self.new ≡ self.old) × (own.new.items ≡ own.old.items)) }
    {
        let noted = finished_event(own, client, ticket, plan)?;
        let applied = self.apply_plan(client, ticket, plan)?;
        own.push_reserved(noted);
        Ok(applied)
    }

    /// The block takes effect and waits no more, and the event is at the end of the client's own list too, if it is accepted. The
    /// tickets that become stale are queued. The caller's number is below 128.
    pub fn finish_noted(
        &mut self,
        client: u32,
        ticket: u32,
        own: &mut Vec<Event>,
    ) -> Result<Finish, FinishError>
        requires { client < max_clients }
        // Accepted: one more event, the finish of this ticket, here and in the client's list.
        ensures accepted { IfOk result (HasFinishedBlock client ticket self.old self.new) }
        ensures noted { IfOk result (λ f. own.new.items
            ≡ own.old.items ++ event client (finish_of ticket f) ∷ []) }
        // Refused for the first reason that holds, or for lack of memory if none does.
        ensures refused { RefusedAs FinishError.NoMemory (finish_refusal self.old ticket) result }
        ensures unchanged { OnErr result ((self.new ≡ self.old) × (own.new.items ≡ own.old.items)) }
    {
        let plan = match self.plan(ticket) {
            Ok(plan) => plan,
            Err(refusal) => return Err(refusal),
        };
        match self.apply_noted(client, ticket, &plan, own) {
            Ok(applied) => Ok(finish_by(plan, applied)),
            Err(_) => Err(FinishError::NoMemory),
        }
    }

    /// The block takes effect and waits no more; the tickets that become stale are queued. The caller's number is below 128.
    pub fn finish(&mut self, client: u32, ticket: u32) -> Result<Finish, FinishError>
        requires { client < max_clients }
        // Accepted: one more event, the finish of this ticket.
        ensures accepted { IfOk result (HasFinishedBlock client ticket self.old self.new) }
        // Refused for the first reason that holds, or for lack of memory if none does.
        ensures refused { RefusedAs FinishError.NoMemory (finish_refusal self.old ticket) result }
        ensures unchanged { OnErr result (self.new ≡ self.old) }
    {
        let plan = match self.plan(ticket) {
            Ok(plan) => plan,
            Err(refusal) => return Err(refusal),
        };
        match self.apply_plan(client, ticket, &plan) {
            Ok(applied) => Ok(finish_by(plan, applied)),
            Err(_) => Err(FinishError::NoMemory),
        }
    }
}
