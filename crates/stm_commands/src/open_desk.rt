//! The desk of a console that has opened.

ghost use Rattle.std.specs.Prelude.{◌≡◌, ◌≤◌, IfOk};
ghost use Rattle.std.specs.Option.{option_copied};
ghost use Rattle.stm_store.specs.Cells.{Covers, plains};
ghost use Rattle.stm_terms.specs.Limits.{max_events};
ghost use Rattle.stm_events.specs.States.{IsLegalFrom};
ghost use Rattle.stm_machine.specs.Checkpoints.{MayStart};
ghost use Rattle.stm_desk.specs.DeskView.{start_state};
ghost use Rattle.stm_source.specs.CompiledBlock.{compiled_block, CompilesTo};
ghost use Rattle.stm_commands.specs.OpenDesk.{opened_desk, known, present, without_jobs};

use crate::jobs::KeptJob;
use crate::stores::Stores;
use std::alloc::Global;
use std::marker::Model;
use stm_check::SharedBlock;
use stm_desk::{Checkpoint, Desk};
use stm_eval::Scratch;
use stm_events::Event;
use stm_source::{BlockCache, Refusal};
use stm_store::{Frozen, Table};
use stm_terms::NoMemory;

/// The desk, the jobs that were handed out, and a copy of the present store on which `try` and `looks` run blocks: it is
/// made when it is asked for, and kept until the store may change; the lists of those runs; and blocks that were asked for, by their
/// texts. Contracts see the desk and the jobs, each with the store at its `take`, whether or not that store is still kept.
pub struct OpenDesk {
    pub(crate) desk: Desk,
    pub(crate) copy: Option<Frozen>,
    pub(crate) jobs: Vec<KeptJob>,
    pub(crate) stores: Stores,
    pub(crate) scratch: Scratch,
    pub(crate) cache: BlockCache,
}

// Written out, and not derived, so that the proof of each owner calls it once.
impl Drop for OpenDesk {
    fn drop(self) {
        let OpenDesk {
            desk: _,
            copy: _,
            jobs: _,
            stores: _,
            scratch: _,
            cache: _,
        } = self;
    }
}

impl Model for OpenDesk {
    ghost use Rattle.std.specs.Coded.{codes};
    ghost use Rattle.stm_terms.specs.TreeEncoding.{act_code};
    ghost use Rattle.std.specs.Prelude.{map};
    ghost use Rattle.stm_commands.specs.OpenDesk.{OpenDesk as State};
    ghost use Rattle.stm_commands.specs.OpenInvariant.{job_kept, OpenInvariant};

    ghost Value = { State };

    ghost coded = { Prim.hlevel (codes, act_code) };

    ghost view = { λ d. record { desk = d.desk; jobs = map job_kept d.jobs.items } };

    ghost invariant = { λ d. OpenInvariant d.desk d.copy d.jobs.items d.cache };
}

impl OpenDesk {
    /// Opens a desk on the declared variables, whose history holds `limit` events at most.
    pub fn open(alloc: Global, table: &Table, limit: u32) -> Result<OpenDesk, NoMemory>
        requires { limit ≤ max_events }
        ensures { IfOk result (λ d. d ≡ opened_desk table.now limit) }
    {
        OpenDesk::resume(alloc, Desk::open(alloc, table, limit)?)
    }

    /// An open desk that goes on from a history, and that keeps no job. Which tickets are out stays as it is.
    pub fn resume(alloc: Global, desk: Desk) -> Result<OpenDesk, NoMemory>
        ensures { IfOk result (λ d. d ≡ without_jobs desk) }
    {
        // The history is known to be legal by this.
        let _history = desk.history();
        let cache = BlockCache::new(alloc, desk.names())?;
        Ok(OpenDesk {
            desk,
            copy: None,
            jobs: Vec::new(alloc),
            stores: Stores::new(alloc),
            scratch: Scratch::new(alloc),
            cache,
        })
    }

    /// The variables that the desk was opened on.
    pub fn table(&self) -> &Table
        ensures { result.now ≡ self.now.desk.table }
    {
        self.desk.table()
    }

    /// The events so far.
    pub fn history(&self) -> &[Event]
        ensures history { result.now ≡ self.now.desk.history }
        ensures start { MayStart self.now.desk.table self.now.desk.checkpoint }
        ensures legal { IsLegalFrom (start_state self.now.desk) self.now.desk.history }
    {
        self.desk.history()
    }

    /// The checkpoint that the history begins from; none if it begins with the first values of the variables.
    pub fn begins_from(&self) -> Option<&Checkpoint>
        ensures { option_copied result ≡ self.now.desk.checkpoint }
    {
        self.desk.begins_from()
    }

    /// The copy of the present store, as blocks are run on it: the one that is kept, or a new one.
    pub fn take_copy(&mut self) -> Result<Frozen, NoMemory>
        ensures same { self.new ≡ self.old }
        ensures store { IfOk result (λ f. f ≡ plains (present self.old)) }
    {
        match self.copy.take() {
            Some(copy) => Ok(copy),
            None => self.desk.store().freeze(),
        }
    }

    /// Keeps the copy of the present store.
    pub fn keep_copy(&mut self, copy: Frozen)
        requires { copy ≡ plains (present self.old) }
        ensures { self.new ≡ self.old }
    {
        self.copy = Some(copy);
    }

    /// The block of a text over the present names. The present store has the variables that it names.
    pub fn block(&mut self, alloc: Global, text: &str) -> Result<SharedBlock, Refusal>
        ensures same { self.new ≡ self.old }
        ensures block { CompilesTo result (compiled_block (known self.old) text.now) }
        ensures covered { IfOk result (λ b. Covers (plains (present self.old)) b.uses) }
    {
        self.cache.block(alloc, self.desk.names(), text)
    }
}
