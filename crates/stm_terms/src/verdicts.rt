//! What a block does on a store.

ghost use Rattle.std.specs.Prelude.{◌≡◌, IfOk};

use crate::NoMemory;
use crate::lists::{News, Writes};
use crate::values::{Fault, Value};
use std::alloc::Global;

/// A block commits its writes and new variables with a result, throws, or blocks until something that it read changes.
#[derive(Drop)]
pub enum Verdict {
    Commits {
        writes: Writes,
        news: News,
        result: Value,
    },
    Throws(Fault),
    Blocks,
}

impl Verdict {
    /// A second verdict, equal to this one. `NoMemory` if its lists can't be copied.
    pub fn copy(&self, alloc: Global) -> Result<Verdict, NoMemory>
        ensures { IfOk result (λ v. v ≡ self.now) }
    {
        match self {
            Verdict::Commits {
                writes,
                news,
                result,
            } => Ok(Verdict::Commits {
                writes: writes.copy(alloc)?,
                news: news.copy(alloc)?,
                result: *result,
            }),
            Verdict::Throws(fault) => Ok(Verdict::Throws(*fault)),
            Verdict::Blocks => Ok(Verdict::Blocks),
        }
    }
}
