//! Verdicts that many may hold.

ghost use Rattle.std.specs.Prelude.{◌≡◌, ◌↔◌, IfOk, IsTrue};
ghost use Rattle.stm_terms.specs.declared.verdicts.Verdict.TheVariants.{Blocks};
ghost use Rattle.stm_events.specs.SlowDesk.{is_blocks};

use std::alloc::Global;
use std::marker::Model;
use std::sync::Arc;
use stm_terms::NoMemory;
use stm_terms::verdicts::Verdict;

/// Whether the verdict is that the block blocks.
pub fn blocks(verdict: &Verdict) -> bool
    ensures { result ≡ is_blocks verdict.now }
{
    match verdict {
        Verdict::Blocks => true,
        _ => false,
    }
}

/// A verdict that many may hold: it is in memory once, and `Blocks`, which most waiting blocks have, takes none.
/// Contracts see the verdict.
#[derive(Drop)]
pub struct SharedVerdict {
    // None is `Blocks`.
    other: Option<Arc<Verdict, Global>>,
}

impl Model for SharedVerdict {
    ghost use Rattle.stm_terms.specs.declared.verdicts.Verdict.{Verdict as AnyVerdict};
    ghost use Rattle.stm_events.specs.Sharing.{verdict_in};

    ghost Value = { AnyVerdict };

    ghost view = { λ s. verdict_in s.other };
}

impl SharedVerdict {
    /// Puts a verdict where many may hold it.
    pub fn new(alloc: Global, verdict: Verdict) -> Result<SharedVerdict, NoMemory>
        ensures { IfOk result (λ s. s ≡ verdict) }
    {
        match verdict {
            Verdict::Blocks => Ok(SharedVerdict { other: None }),
            other => Ok(SharedVerdict {
                other: Some(Arc::new(alloc, other)?),
            }),
        }
    }

    /// Puts a copy of a verdict where many may hold it.
    pub fn of_copy(alloc: Global, verdict: &Verdict) -> Result<SharedVerdict, NoMemory>
        ensures { IfOk result (λ s. s ≡ verdict.now) }
    {
        match verdict {
            Verdict::Blocks => Ok(SharedVerdict { other: None }),
            _ => Ok(SharedVerdict {
                other: Some(Arc::new(alloc, verdict.copy(alloc)?)?),
            }),
        }
    }

    /// One more hold on the same verdict.
    pub fn share(&self) -> Result<SharedVerdict, NoMemory>
        ensures { IfOk result (λ s. s ≡ self.now) }
    {
        match &self.other {
            None => Ok(SharedVerdict { other: None }),
            Some(verdict) => Ok(SharedVerdict {
                other: Some(Arc::try_clone(verdict)?),
            }),
        }
    }

    /// Whether it is `Blocks`.
    pub fn blocks(&self) -> bool
        ensures { result ≡ is_blocks self.now }
    {
        match &self.other {
            None => true,
            Some(verdict) => blocks(&**verdict),
        }
    }

    /// The verdict. If it is `Blocks`, which takes no memory, it is the one that is lent.
    pub fn get<'a>(&'a self, blocks: &'a Verdict) -> &'a Verdict
        requires { blocks.now ≡ Blocks }
        ensures { result.now ≡ self.now }
    {
        match &self.other {
            None => blocks,
            Some(verdict) => &**verdict,
        }
    }

    /// Whether two verdicts are one.
    pub fn same(&self, other: &SharedVerdict) -> bool
        ensures { IsTrue result ↔ (self.now ≡ other.now) }
    {
        let blocks = Verdict::Blocks;
        self.get(&blocks).same(other.get(&blocks))
    }
}
