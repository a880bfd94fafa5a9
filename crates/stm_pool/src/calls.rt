//! The calls of a shared desk. Each takes the lock, makes one call of `Guarded`, and once the lock
//! is given back wakes the threads that may go on: those that wait for events after an accepted
//! call, and those that wait for a queued ticket when there may be one more.
//!
//! Other threads change the desk between two calls, so a clause says what a call did to the caller's pass. When a call is refused, and what it
//! returns beside its event, is only tested.

ghost use Rattle.std.specs.Prelude.{◌≡◌, ◌<◌, IsTrue, IfOk, OnOk, IfErr, OnErr, IfSome};
ghost use Rattle.stm_terms.specs.Names.{is_name_text};
ghost use Rattle.stm_machine.specs.Machine.{installation_of};
ghost use Rattle.stm_events.specs.declared.event.What.TheVariants.{Submitted, Cancelled, Declared as DeclaredLate};
ghost use Rattle.stm_desk.specs.Events.{finish_of};
ghost use Rattle.stm_pool.specs.Own.{having_done};
ghost use Rattle.stm_pool.specs.Found.{CanBeEvaluated};
ghost use Rattle.stm_pool.specs.Shown.{IsShownSome, IsPresentSome};

use crate::errors::ViewError;
use crate::guarded::View;
use crate::pass::Pass;
use crate::shared::SharedDesk;
use std::sync::Wait;
use std::sync::ledger::Ledger;
use stm_check::SharedBlock;
use stm_desk::{CancelError, DeliverError, Finish, FinishError, SubmitError};
use stm_eval::{Evaluated, Job};
use stm_events::LateDeclareError;
use stm_store::Frozen;
use stm_terms::NoMemory;
use stm_terms::kinds::Ty;
use stm_terms::values::Value;

/// What a worker finds to do.
#[derive(Drop)]
pub enum Next {
    Stopped,
    Idle,
    Job(Frozen, Job),
}

impl<L: Ledger> SharedDesk<L> {
    /// `Guarded::submit`, under the lock. The clauses speak only of the pass.
    pub fn submit<R: Wait>(
        &self,
        rt: &R,
        pass: &mut Pass<L>,
        block: SharedBlock,
    ) -> Result<u32, SubmitError>
        ensures accepted { IfOk result (λ t. pass.new ≡ having_done pass.old (Submitted t block)) }
        ensures unchanged { OnErr result (pass.new ≡ pass.old) }
    {
        let answer = self.lock.lock(rt).submit(pass, block);
        if answer.is_ok() {
            self.grown.notify_all();
            self.queued.notify_all();
        }
        answer
    }

    /// `Guarded::declare`, under the lock. The clauses speak only of the pass, and not of the number that is returned.
    pub fn declare<R: Wait>(
        &self,
        rt: &R,
        pass: &mut Pass<L>,
        name: &str,
        kind: Ty,
        value: Value,
    ) -> Result<u32, LateDeclareError>
        requires name { IsTrue (is_name_text name.now) }
        ensures accepted { OnOk result (pass.new
            ≡ having_done pass.old (DeclaredLate name.now kind value)) }
        ensures unchanged { OnErr result (pass.new ≡ pass.old) }
    {
        let answer = self.lock.lock(rt).declare(pass, name, kind, value);
        if answer.is_ok() {
            self.grown.notify_all();
        }
        answer
    }

    /// `Guarded::finish`, under the lock. The clauses speak only of the pass, and not of the value that the block returned.
    pub fn finish<R: Wait>(
        &self,
        rt: &R,
        pass: &mut Pass<L>,
        ticket: u32,
    ) -> Result<Finish, FinishError>
        ensures accepted { IfOk result (λ f. pass.new ≡ having_done pass.old (finish_of ticket f)) }
        ensures unchanged { OnErr result (pass.new ≡ pass.old) }
    {
        let answer = self.lock.lock(rt).finish(pass, ticket);
        if answer.is_ok() {
            self.grown.notify_all();
            self.queued.notify_all();
        }
        answer
    }

    /// `Guarded::cancel`, under the lock. The clauses speak only of the pass.
    pub fn cancel<R: Wait>(
        &self,
        rt: &R,
        pass: &mut Pass<L>,
        ticket: u32,
    ) -> Result<(), CancelError>
        ensures accepted { OnOk result (pass.new ≡ having_done pass.old (Cancelled ticket)) }
        ensures unchanged { OnErr result (pass.new ≡ pass.old) }
    {
        let answer = self.lock.lock(rt).cancel(pass, ticket);
        if answer.is_ok() {
            self.grown.notify_all();
        }
        answer
    }

    /// `Guarded::deliver`, under the lock. The clauses speak only of the pass and the message.
    pub fn deliver<R: Wait>(
        &self,
        rt: &R,
        pass: &mut Pass<L>,
        message: Evaluated,
    ) -> Result<(), (Evaluated, DeliverError)>
        ensures accepted { OnOk result (pass.new ≡ having_done pass.old (installation_of message)) }
        ensures unchanged { OnErr result (pass.new ≡ pass.old) }
        ensures back { IfErr result (λ e. e.0 ≡ message) }
    {
        let answer = self.lock.lock(rt).deliver(pass, message);
        // After a refusal the ticket may be queued again.
        if answer.is_ok() {
            self.grown.notify_all();
        } else {
            self.queued.notify_all();
        }
        answer
    }

    /// What is there now: the store and the length of a legal history, which has this client's
    /// events and is no shorter than what it has seen. The client has seen it from then on.
    ///
    /// No clause says over which variables the history is, nor when the error is `Lost`.
    pub fn view<R: Wait>(&self, rt: &R, pass: &mut Pass<L>) -> Result<View, ViewError>
        ensures shown { IfOk result (IsShownSome pass.old pass.new) }
        ensures unchanged { OnErr result (pass.new ≡ pass.old) }
    {
        self.lock.lock(rt).view(pass)
    }

    /// The store and the length of a legal history, which is no shorter than what the client has
    /// seen. The client has seen it from then on. It costs a copy of the store, however long the
    /// history is.
    ///
    /// No clause says over which variables the history is, nor when the error is `Lost`.
    pub fn present<R: Wait>(&self, rt: &R, pass: &mut Pass<L>) -> Result<View, ViewError>
        ensures shown { IfOk result (IsPresentSome pass.old pass.new) }
        ensures unchanged { OnErr result (pass.new ≡ pass.old) }
    {
        self.lock.lock(rt).present(pass)
    }

    /// Waits until a ticket is queued or the desk is stopped, and takes the ticket. `Idle` if
    /// there is none after all.
    ///
    /// The clause says that the store has the variables of the job's block; which job it is, and when there is none, is only tested.
    pub fn next_job<R: Wait>(&self, rt: &R) -> Result<Next, NoMemory>
        ensures { IfOk result (λ n. CanBeEvaluated n) }
    {
        let mut guard = self
            .queued
            .wait_while(rt, self.lock.lock(rt), |g| !g.stopped && !g.has_queued());
        if guard.stopped {
            return Ok(Next::Stopped);
        }
        match guard.take()? {
            Some((store, job)) => Ok(Next::Job(store, job)),
            None => Ok(Next::Idle),
        }
    }

    /// `Guarded::hand_back`, under the lock. No clause speaks of the result: it is only tested.
    pub fn hand_back<R: Wait>(&self, rt: &R, ticket: u32) -> bool {
        let was = self.lock.lock(rt).hand_back(ticket);
        if was {
            self.queued.notify_all();
        }
        was
    }

    /// Waits until there are more than `seen` events, and returns their number; `None` if the desk
    /// was stopped before. No clause says when that is.
    pub fn wait_past<R: Wait>(&self, rt: &R, seen: u32) -> Option<u32>
        ensures { IfSome result (λ n. seen < n) }
    {
        let guard = self.grown.wait_while(
            rt,
            self.lock.lock(rt),
            |g| g.events() <= seen && !g.stopped,
        );
        let events = guard.events();
        if events > seen { Some(events) } else { None }
    }

    /// Ends all waiting. No later call is refused for it. No clause says either: it is only tested.
    pub fn stop<R: Wait>(&self, rt: &R) {
        self.lock.lock(rt).stopped = true;
        self.grown.notify_all();
        self.queued.notify_all();
    }
}
