//! Why blocks are stale, as a checkpoint keeps it.

ghost use Rattle.std.specs.Prelude.{◌≡◌, [], IfOk, OnOk, OnErr};
ghost use Rattle.std.specs.Option.{option_copied};
ghost use Rattle.stm_events.specs.KeptCauses.{kept_cause_of, with_cause, AreSameCauses};

use std::alloc::Global;
use std::collections::HashMap;
use std::marker::Model;
use stm_terms::NoMemory;
use stm_terms::lists::Writes;

/// Why a block is stale: the ticket of the first block that finished since its last delivery and changed variables that it had read,
/// and these variables, ascending, each with the value that this finish left.
#[derive(Drop)]
pub struct KeptCause {
    pub finish: u32,
    pub left: Writes,
}

impl KeptCause {
    /// A copy of the cause.
    pub fn copy(&self, alloc: Global) -> Result<KeptCause, NoMemory>
        ensures { IfOk result (λ c. c ≡ self.now) }
    {
        Ok(KeptCause {
            finish: self.finish,
            left: self.left.copy(alloc)?,
        })
    }
}

/// Of some stale blocks the cause, by their tickets. Contracts see a list, whose order says nothing. Each call takes constant time.
#[derive(Drop)]
pub struct CauseTable {
    causes: HashMap<u32, KeptCause>,
}

impl Model for CauseTable {
    ghost use Rattle.std.specs.Coded.{codes};
    ghost use Rattle.stm_events.specs.KeptCauses.{KeptCauses};

    ghost Value = { KeptCauses };

    ghost coded = { Prim.hlevel (codes) };

    ghost view = { λ t. t.causes.entries };
}

impl CauseTable {
    /// No cause.
    pub fn empty(alloc: Global) -> CauseTable
        ensures { result ≡ [] }
    {
        CauseTable {
            causes: HashMap::new(alloc),
        }
    }

    /// The cause of a ticket's block, if it has one.
    pub fn cause_of(&self, ticket: u32) -> Option<&KeptCause>
        ensures { option_copied result ≡ kept_cause_of ticket self.now }
    {
        self.causes.get(&ticket)
    }

    /// The block of a ticket gets a cause, in place of the one that it had.
    pub fn set(&mut self, ticket: u32, cause: KeptCause) -> Result<(), NoMemory>
        ensures done { OnOk result (AreSameCauses self.new (with_cause ticket cause self.old)) }
        ensures unchanged { OnErr result (self.new ≡ self.old) }
    {
        let Ok(_before) = self.causes.insert(ticket, cause) else {
            return Err(NoMemory);
        };
        Ok(())
    }
}
