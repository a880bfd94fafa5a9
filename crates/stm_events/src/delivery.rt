//! What a delivery brought, as it is written and read.

ghost use Rattle.std.specs.Prelude.{◌≡◌};

use crate::shared_verdict::SharedVerdict;
use std::marker::Model;
use stm_terms::values::Value;

/// What the last delivery to a waiting block brought: the variables that it read, with their values, and its verdict; and whether
/// the block is stale since.
#[derive(Drop)]
pub struct Delivery {
    reads: Vec<(u32, Value)>,
    verdict: SharedVerdict,
    stale: bool,
}

impl Model for Delivery {
    ghost use Rattle.std.specs.Coded.{codes};
    ghost use Rattle.stm_events.specs.Delivered.{Delivered};

    ghost Value = { Delivered };

    ghost coded = { Prim.hlevel (codes) };

    ghost view = { λ d. record { reads = d.reads.items; verdict = d.verdict; stale = d.stale } };
}

impl Delivery {
    /// A delivery that brought these reads and this verdict.
    pub fn new(reads: Vec<(u32, Value)>, verdict: SharedVerdict, stale: bool) -> Delivery
        ensures { result ≡ record { reads = reads.items; verdict = verdict; stale = stale } }
    {
        Delivery {
            reads,
            verdict,
            stale,
        }
    }

    /// The variables that the block read, with their values.
    pub fn reads(&self) -> &[(u32, Value)]
        ensures { result.now ≡ self.now.reads }
    {
        self.reads.as_slice()
    }

    /// The verdict that it brought.
    pub fn verdict(&self) -> &SharedVerdict
        ensures { result.now ≡ self.now.verdict }
    {
        &self.verdict
    }

    /// Whether the block is stale since.
    pub fn is_stale(&self) -> bool
        ensures { result ≡ self.now.stale }
    {
        self.stale
    }
}
