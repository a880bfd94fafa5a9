//! A variable that is declared after the first command.

ghost use Rattle.std.specs.Prelude.{◌≡◌, ◌<◌, false, None, length, IsTrue, IfOk, OnOk, OnErr};
ghost use Rattle.stm_terms.specs.Names.{is_name_text};
ghost use Rattle.stm_terms.specs.UnlessNoMemory.{RefusedAs};
ghost use Rattle.stm_terms.specs.Limits.{max_clients};
ghost use Rattle.stm_events.specs.declared.event.What.TheVariants.{Declared as DeclaredLate};
ghost use Rattle.stm_desk.specs.DeskView.{state_of, is_full, with_event};
ghost use Rattle.stm_desk.specs.Refusals.{late_declare_refusal};

use crate::desk::Desk;
use std::alloc::Global;
use stm_events::{Event, LateDeclareError, SharedName, What};
use stm_terms::NoMemory;
use stm_terms::kinds::Ty;
use stm_terms::values::Value;

/// A name that many may hold, of this text.
pub(crate) fn shared_name(alloc: Global, name: &str) -> Result<SharedName, NoMemory>
    ensures { IfOk result (λ n. n ≡ name.now) }
{
    SharedName::new(alloc, String::from_str(alloc, name)?)
}

impl Desk {
    /// Why a variable can't be declared. The caller knows that the name is one.
    fn may_declare(&self, name: &str, kind: Ty, value: Value) -> Result<(), LateDeclareError>
        ensures refused { RefusedAs LateDeclareError.NoMemory (late_declare_refusal self.now name.now kind value) result }
        ensures room { OnOk result (is_full self.now ≡ false) }
    {
        let full = self.is_full();
        self.machine.may_declare(full, name, kind, value)
    }

    /// The variable is declared: it is the next one of the store, and has the number that is returned. The caller's number is below 128,
    /// and it knows that the name is one.
    pub fn declare(
        &mut self,
        client: u32,
        name: &str,
        kind: Ty,
        value: Value,
    ) -> Result<u32, LateDeclareError>
        requires client { client < max_clients }
        requires name { IsTrue (is_name_text name.now) }
        // Accepted: one more event, the declaration.
        ensures accepted { OnOk result (self.new ≡ with_event self.old client (DeclaredLate name.now kind value)) }
        ensures number { IfOk result (λ i. i ≡ length (state_of self.old).store) }
        // Refused for the first reason that holds, or for lack of memory if none does.
        ensures refused { RefusedAs LateDeclareError.NoMemory (late_declare_refusal self.old name.now kind value) result }
        ensures unchanged { OnErr result (self.new ≡ self.old) }
    {
        match self.may_declare(name, kind, value) {
            Ok(()) => Ok(self.declare_allowed(client, name, kind, value)?),
            Err(refusal) => Err(refusal),
        }
    }

    /// Declares a variable that nothing refuses.
    fn declare_allowed(
        &mut self,
        client: u32,
        name: &str,
        kind: Ty,
        value: Value,
    ) -> Result<u32, NoMemory>
        requires client { client < max_clients }
        requires name { IsTrue (is_name_text name.now) }
        requires allowed { late_declare_refusal self.old name.now kind value ≡ None }
        requires room { is_full self.old ≡ false }
        ensures accepted { OnOk result (self.new ≡ with_event self.old client (DeclaredLate name.now kind value)) }
        ensures number { IfOk result (λ i. i ≡ length (state_of self.old).store) }
        ensures unchanged { OnErr result (self.new ≡ self.old) }
    {
        let alloc = *self.history.allocator();
        let shared = shared_name(alloc, name)?;
        self.history.reserve(1)?;
        let number = self.machine.declare(name, kind, value)?;
        self.history.push_reserved(Event {
            client,
            what: What::Declared {
                name: shared,
                kind,
                value,
            },
        });
        self.past.let_few_go();
        Ok(number)
    }
}
