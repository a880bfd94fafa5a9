//! The desk under its lock: what each call does that is lent the desk and a pass.

ghost use Rattle.std.specs.Prelude.{◌≡◌, ◌<◌, false, length, is_some, IsTrue, IfOk, OnOk, IfErr, OnErr, IfSome};
ghost use Rattle.stm_terms.specs.Names.{is_name_text};
ghost use Rattle.stm_terms.specs.UnlessNoMemory.{RefusedAs};
ghost use Rattle.stm_store.specs.Cells.{Covers};
ghost use Rattle.stm_events.specs.declared.event.What.TheVariants.{Submitted, Cancelled, Declared as DeclaredLate};
ghost use Rattle.stm_events.specs.Refusals.{without_message};
ghost use Rattle.stm_queue.specs.Queue.{is_out, queued_again, first_queued};
ghost use Rattle.stm_desk.specs.DeskView.{state_of};
ghost use Rattle.stm_desk.specs.Events.{finish_of, HasFinishedBlock};
ghost use Rattle.stm_desk.specs.Refusals.{submit_refusal, late_declare_refusal, cancel_refusal, finish_refusal};
ghost use Rattle.stm_pool.specs.Own.{events_in_passes, having_done};
ghost use Rattle.stm_pool.specs.Lent.{JoinsBoth, DeliversAs, TakesJob};
ghost use Rattle.stm_pool.specs.Refused.{RefusedUnless, RefusesDeliveryUnless};
ghost use Rattle.stm_pool.specs.Shown.{IsShown, IsPresentView, LacksKnown};
ghost use Rattle.stm_pool.specs.Closing.{Compares, MayClose, IsCloseError};

use crate::errors::{CloseError, ViewError};
use crate::pass::{Pass, audit_passes, find_pass, is_own, lacks_one};
use std::sync::ledger::{Book, Ledger, Share};
use stm_check::SharedBlock;
use stm_desk::{CancelError, DeliverError, Desk, Finish, FinishError, SubmitError};
use stm_eval::{Evaluated, Job};
use stm_events::{Event, LateDeclareError, SharedName, SharedVerdict, What};
use stm_store::Frozen;
use stm_terms::NoMemory;
use stm_terms::kinds::Ty;
use stm_terms::values::Value;

/// The desk, whether it was stopped, and the book of all passes' shares.
///
/// Its type keeps that the history begins with the first values of the variables, and from no
/// checkpoint, and that the book counts as many events as the history has. `rest` is the share that
/// is left when each pass has its part; it counts none.
#[derive(Drop)]
pub struct Guarded<L: Ledger> {
    pub desk: Desk,
    pub stopped: bool,
    pub(crate) book: Book<L>,
    pub(crate) rest: Share<L>,
    pub ghost from_variables: { is_some desk.checkpoint ≡ false },
    pub ghost counted: { book.total ≡ length desk.history },
    pub ghost no_part: { rest.parts ≡ 0 },
    pub ghost no_amount: { rest.amount ≡ 0 },
}

/// The store, and the number of events so far.
#[derive(Drop)]
pub struct View {
    pub events: u32,
    pub store: Frozen,
}

impl<L: Ledger> Guarded<L> {
    /// `Desk::submit`; the event joins the pass's list too. Memory for the list is taken first, so
    /// `NoMemory` can come before the desk's own refusals.
    pub fn submit(&mut self, pass: &mut Pass<L>, block: SharedBlock) -> Result<u32, SubmitError>
        ensures accepted { IfOk result (λ t.
            JoinsBoth self.old.desk self.new.desk pass.old pass.new (Submitted t block)) }
        ensures ticket { IfOk result (λ t. t ≡ (state_of self.old.desk).next) }
        // Unless memory runs out first, it is refused as the desk's own call is.
        ensures refused { RefusedUnless SubmitError.NoMemory (submit_refusal self.old.desk block) result }
        ensures unchanged { OnErr result ((self.new.desk ≡ self.old.desk) × (pass.new ≡ pass.old)) }
        ensures same { self.new.stopped ≡ self.old.stopped }
    {
        let Guarded { desk, book, .. } = self;
        pass.own.reserve(1)?;
        let told = block.share()?;
        let client = pass.client;
        let ticket = desk.submit(client, block)?;
        book.add(&mut pass.share, 1);
        pass.own.push_reserved(Event {
            client,
            what: What::Submitted {
                ticket,
                block: told,
            },
        });
        Ok(ticket)
    }

    /// `Desk::declare`; the event joins the pass's list too, and `NoMemory` can come before the
    /// desk's own refusals.
    pub fn declare(
        &mut self,
        pass: &mut Pass<L>,
        name: &str,
        kind: Ty,
        value: Value,
    ) -> Result<u32, LateDeclareError>
        requires name { IsTrue (is_name_text name.now) }
        ensures accepted { OnOk result (JoinsBoth self.old.desk self.new.desk pass.old pass.new
            (DeclaredLate name.now kind value)) }
        ensures number { IfOk result (λ i. i ≡ length (state_of self.old.desk).store) }
        // Unless memory runs out first, it is refused as the desk's own call is.
        ensures refused { RefusedUnless LateDeclareError.NoMemory
            (late_declare_refusal self.old.desk name.now kind value) result }
        ensures unchanged { OnErr result ((self.new.desk ≡ self.old.desk) × (pass.new ≡ pass.old)) }
        ensures same { self.new.stopped ≡ self.old.stopped }
    {
        let Guarded { desk, book, .. } = self;
        let alloc = *pass.own.allocator();
        pass.own.reserve(1)?;
        let told = SharedName::new(alloc, String::from_str(alloc, name)?)?;
        let client = pass.client;
        let number = desk.declare(client, name, kind, value)?;
        book.add(&mut pass.share, 1);
        pass.own.push_reserved(Event {
            client,
            what: What::Declared {
                name: told,
                kind,
                value,
            },
        });
        Ok(number)
    }

    /// `Desk::cancel`; the event joins the pass's list too, and `NoMemory` can come before the
    /// desk's own refusals.
    pub fn cancel(&mut self, pass: &mut Pass<L>, ticket: u32) -> Result<(), CancelError>
        ensures accepted { OnOk result
            (JoinsBoth self.old.desk self.new.desk pass.old pass.new (Cancelled ticket)) }
        // Unless memory runs out first, it is refused as the desk's own call is.
        ensures refused { RefusedUnless CancelError.NoMemory (cancel_refusal self.old.desk ticket) result }
        ensures unchanged { OnErr result ((self.new.desk ≡ self.old.desk) × (pass.new ≡ pass.old)) }
        ensures same { self.new.stopped ≡ self.old.stopped }
    {
        let Guarded { desk, book, .. } = self;
        pass.own.reserve(1)?;
        let client = pass.client;
        desk.cancel(client, ticket)?;
        book.add(&mut pass.share, 1);
        pass.own.push_reserved(Event {
            client,
            what: What::Cancelled { ticket },
        });
        Ok(())
    }

    /// `Desk::finish`; the event joins the pass's list too.
    pub fn finish(&mut self, pass: &mut Pass<L>, ticket: u32) -> Result<Finish, FinishError>
        ensures accepted { IfOk result
            (HasFinishedBlock pass.old.client ticket self.old.desk self.new.desk) }
        ensures own { IfOk result (λ f. pass.new ≡ having_done pass.old (finish_of ticket f)) }
        ensures refused { RefusedAs FinishError.NoMemory (finish_refusal self.old.desk ticket) result }
        ensures unchanged { OnErr result ((self.new.desk ≡ self.old.desk) × (pass.new ≡ pass.old)) }
        ensures same { self.new.stopped ≡ self.old.stopped }
    {
        let Guarded { desk, book, .. } = self;
        let client = pass.client;
        let finish = desk.finish_noted(client, ticket, &mut pass.own)?;
        book.add(&mut pass.share, 1);
        Ok(finish)
    }

    /// `Desk::deliver`; the event joins the pass's list too, and `NoMemory` can come before the
    /// desk's own refusals.
    pub fn deliver(
        &mut self,
        pass: &mut Pass<L>,
        message: Evaluated,
    ) -> Result<(), (Evaluated, DeliverError)>
        ensures delivered { DeliversAs self.old.desk self.new.desk pass.old pass.new message result }
        // Unless memory runs out first, it is refused as the desk's own call is.
        ensures refused { RefusesDeliveryUnless (without_message result) self.old.desk message }
        ensures same { self.new.stopped ≡ self.old.stopped }
    {
        let Guarded { desk, book, .. } = self;
        let alloc = *pass.own.allocator();
        if pass.own.reserve(1).is_err() {
            return Err((message, DeliverError::NoMemory));
        }
        let Ok(verdict) = SharedVerdict::of_copy(alloc, message.verdict()) else {
            return Err((message, DeliverError::NoMemory));
        };
        let client = pass.client;
        let ticket = message.ticket();
        desk.deliver(client, message)?;
        book.add(&mut pass.share, 1);
        pass.own.push_reserved(Event {
            client,
            what: What::Installed { ticket, verdict },
        });
        Ok(())
    }

    /// The job of the lowest queued ticket, which is out from then on, and an unchanging copy of
    /// the present store, which has the variables of its block; `None` if no ticket is queued.
    pub fn take(&mut self) -> Result<Option<(Frozen, Job)>, NoMemory>
        ensures taken { IfOk result (λ r. TakesJob self.old.desk self.new.desk r) }
        ensures covered { IfOk result (λ r. IfSome r (λ j. Covers j.0 j.1.block.uses)) }
        ensures unchanged { OnErr result (self.new.desk ≡ self.old.desk) }
        ensures same { self.new.stopped ≡ self.old.stopped }
    {
        let (store, mut jobs) = self.desk.take(1)?;
        match jobs.pop() {
            Some(job) => Ok(Some((store, job))),
            None => Ok(None),
        }
    }

    /// Queues a ticket again that is out, and returns whether it was out.
    pub fn hand_back(&mut self, ticket: u32) -> bool
        ensures was { result ≡ is_out ticket self.old.desk.pending }
        ensures desk { self.new.desk
            ≡ record self.old.desk { pending = queued_again ticket self.old.desk.pending } }
        ensures same { self.new.stopped ≡ self.old.stopped }
    {
        self.desk.hand_back(ticket)
    }

    /// Whether some ticket is queued.
    pub fn has_queued(&self) -> bool
        ensures { result ≡ is_some (first_queued self.now.desk.pending) }
    {
        self.desk.has_queued()
    }

    /// How many events there are.
    pub fn events(&self) -> u32
        ensures { result ≡ length self.now.desk.history }
    {
        self.desk.history().len() as u32
    }

    /// The store and the number of events, which the client has seen from then on, if the history
    /// has the client's events: all of them are compared.
    pub fn view(&self, pass: &mut Pass<L>) -> Result<View, ViewError>
        ensures shown { IfOk result (λ v.
            IsShown self.now.desk.table self.now.desk.history pass.old pass.new v) }
        ensures unchanged { OnErr result (pass.new ≡ pass.old) }
        ensures lost { result ≡ Err ViewError.Lost → LacksKnown self.now.desk.history pass.old }
    {
        if !is_own(pass.client, self.desk.history(), pass.own.as_slice()) {
            return Err(ViewError::Lost);
        }
        self.present(pass)
    }

    /// The store and the number of events, which the client has seen from then on. The client's
    /// events aren't compared with the history, so it costs the same however long that is.
    pub fn present(&self, pass: &mut Pass<L>) -> Result<View, ViewError>
        ensures shown { IfOk result (λ v.
            IsPresentView self.now.desk.table self.now.desk.history pass.old pass.new v) }
        ensures unchanged { OnErr result (pass.new ≡ pass.old) }
        ensures lost { result ≡ Err ViewError.Lost → length self.now.desk.history < pass.old.seen }
    {
        // The history is known to be legal by this.
        let _events = self.desk.history();
        let events = self.events();
        if events < pass.seen {
            return Err(ViewError::Lost);
        }
        let Ok(store) = self.desk.store().freeze() else {
            return Err(ViewError::NoMemory);
        };
        pass.seen = events;
        Ok(View { events, store })
    }

    /// Whether these are the passes of `count` clients, in any order, and each has its client's
    /// events.
    pub fn agrees(&self, passes: &[Pass<L>], count: u32) -> Result<(), CloseError>
        ensures { Compares result self.now.desk.history count passes.now }
    {
        if lacks_one(passes, count) {
            return Err(CloseError::PassMissing);
        }
        for client in 0..count {
            match find_pass(passes, client) {
                Some(pass) => {
                    if !is_own(client, self.desk.history(), pass.own.as_slice()) {
                        return Err(CloseError::Differs(client));
                    }
                }
                None => unreachable!(),
            }
        }
        Ok(())
    }

    /// Compares the passes of `count` clients with the history, as `agrees` does. A pass that differs does so from a legal
    /// history with as many events as all passes have. Nothing changes.
    pub(crate) fn compare(&mut self, passes: &mut [Pass<L>], count: u32) -> Result<(), CloseError>
        requires { count ≡ L.parts }
        ensures done { OnOk result (MayClose self.old.desk.history count passes.old) }
        ensures refused { IfErr result (λ e. IsCloseError e count passes.old) }
        ensures counted { length passes.old ≡ count
            → length self.old.desk.history ≡ events_in_passes passes.old }
        ensures desk { self.new.desk ≡ self.old.desk }
        ensures stopped { self.new.stopped ≡ self.old.stopped }
        ensures passes { passes.new ≡ passes.old }
    {
        // The history is known to be legal by this.
        let _events = self.desk.history();
        let answer = self.agrees(passes, count);
        let Guarded { book, rest, .. } = self;
        audit_passes(book, rest, passes);
        answer
    }
}
