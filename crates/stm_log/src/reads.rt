//! What a block read.

ghost use Rattle.std.specs.Prelude.{◌≡◌, length, IfOk};
ghost use Rattle.stm_terms.specs.Typing.{Rising};
ghost use Rattle.stm_terms.specs.Changes.{find};

use crate::value_map::ValueMap;
use std::marker::Model;
use stm_terms::NoMemory;
use stm_terms::values::Value;

/// The variables of the store that a block read, each once and ascending, with the values that it found.
#[derive(Drop)]
pub struct Reads {
    pairs: ValueMap,
}

impl Model for Reads {
    ghost use Rattle.std.specs.Prelude.{List, ℕ};
    ghost use Rattle.stm_terms.specs.declared.values.Value.{Value as Held};

    ghost Value = { List (ℕ × Held) };

    ghost view = { λ r. r.pairs };
}

impl Reads {
    /// The reads of a log.
    pub(crate) fn of(pairs: ValueMap) -> Reads
        ensures { result ≡ pairs }
    {
        Reads { pairs }
    }

    /// The pairs, in their order.
    pub fn as_slice(&self) -> &[(u32, Value)]
        ensures value { result.now ≡ self.now }
        ensures rising { Rising self.now }
    {
        self.pairs.as_slice()
    }

    /// The value that was read of a variable, none if it wasn't read. Found by binary search.
    pub fn find(&self, variable: u32) -> Option<Value>
        ensures { result ≡ find variable self.now }
    {
        self.pairs.find(variable)
    }

    /// The pairs of another list of as many, in the same memory.
    pub(crate) fn overwrite(&mut self, pairs: &ValueMap)
        requires { length self.old ≡ length pairs.now }
        ensures { self.new ≡ pairs.now }
    {
        self.pairs.overwrite(pairs);
    }

    /// How many variables were read.
    pub fn len(&self) -> usize
        ensures { result ≡ length self.now }
    {
        self.pairs.len()
    }

    /// A second list of the same reads.
    pub fn copy(&self) -> Result<Reads, NoMemory>
        ensures { IfOk result (λ r. r ≡ self.now) }
    {
        Ok(Reads {
            pairs: self.pairs.copy()?,
        })
    }
}
