//! A variable that is declared after the first command.

ghost use Rattle.std.specs.Prelude.{◌≡◌, false, None, length, IsTrue, IfOk, OnOk, OnErr};
ghost use Rattle.stm_terms.specs.Names.{is_name_text};
ghost use Rattle.stm_terms.specs.UnlessNoMemory.{RefusedAs};
ghost use Rattle.stm_store.specs.Cells.{plains, Fits, applied};
ghost use Rattle.stm_events.specs.declared.event.What.{What as AnyWhat};
ghost use Rattle.stm_events.specs.SlowDesk.{Slow, declaration};
ghost use Rattle.stm_events.specs.Refusals.{late_declare_refused};
ghost use Rattle.stm_machine.specs.Machine.{IsAt, MovesBy};

use crate::machine::Machine;
use std::alloc::Global;
use stm_events::errors::LateDeclareError;
use stm_store::{Ready, Store};
use stm_terms::NoMemory;
use stm_terms::kinds::Ty;
use stm_terms::lists::{News, Writes};
use stm_terms::values::{Ref, Value};
use stm_terms::verdicts::Verdict;

/// The commit that makes one variable and does nothing else.
fn declaration(alloc: Global, kind: Ty, value: Value) -> Result<Verdict, NoMemory>
    ensures { IfOk result (λ v. v ≡ declaration kind value) }
{
    let mut news = Vec::new(alloc);
    news.push((kind, value))?;
    Ok(Verdict::Commits {
        writes: Writes::from_vec(Vec::new(alloc)),
        news: News::from_vec(news),
        result: Value::Var(Ref::New(0)),
    })
}

/// The store with one variable more, beside the store, which stays as it is.
fn with_variable(alloc: Global, store: &Store, kind: Ty, value: Value) -> Result<Ready, NoMemory>
    requires { Fits (plains store.now) (declaration kind value) }
    ensures { IfOk result (λ r. r.0 ≡ applied store.now (declaration kind value)) }
{
    let verdict = declaration(alloc, kind, value)?;
    match store.prepare(&verdict) {
        Ok(ready) => Ok(ready),
        Err(_) => Err(NoMemory),
    }
}

impl Machine {
    /// Why a variable can't be declared. The caller knows that the name is one, and says whether the history is full.
    pub fn may_declare(
        &self,
        full: bool,
        name: &str,
        kind: Ty,
        value: Value,
    ) -> Result<(), LateDeclareError>
        ensures refused { (s : Slow) → IsAt self.now s
            → RefusedAs LateDeclareError.NoMemory (late_declare_refused s full name.now kind value) result }
        ensures room { OnOk result (full ≡ false) }
    {
        if self.names.find(name).is_some() {
            return Err(LateDeclareError::Twice);
        }
        if !self.names.may_hold(kind, value) {
            return Err(LateDeclareError::TypeOfValue);
        }
        if full {
            return Err(LateDeclareError::HistoryFull);
        }
        if self.store.len() >= Store::LIMIT {
            return Err(LateDeclareError::CellsFull);
        }
        Ok(())
    }

    /// The variable is declared: it is the next one of the store, and has the number that is returned. No block becomes stale.
    pub fn declare(&mut self, name: &str, kind: Ty, value: Value) -> Result<u32, NoMemory>
        requires name { IsTrue (is_name_text name.now) }
        // At a state that the machine is at, nothing refuses it.
        requires may { (s : Slow) × IsAt self.old s
            × (late_declare_refused s false name.now kind value ≡ None) }
        ensures done { OnOk result (MovesBy (AnyWhat.Declared name.now kind value) self.old self.new) }
        ensures number { IfOk result (λ i. i ≡ length self.old.store) }
        ensures pending { self.new.pending ≡ self.old.pending }
        ensures unchanged { OnErr result (self.new ≡ self.old) }
    {
        let number = self.store.len() as u32;
        let ready = with_variable(self.alloc, &self.store, kind, value)?;
        self.names.add(name, number, kind)?;
        let _applied = self.store.install(ready);
        Ok(number)
    }
}
