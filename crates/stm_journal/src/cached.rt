//! A device in memory with a cache, whose syncs may fail, for tests.
//!
//! It shows that what `Device` says of a sync that fails can be met, and is what systems do: the cache keeps what didn't come to the
//! disk, reads go on returning it, and no later sync writes it.

ghost use Rattle.std.specs.Prelude.{◌≡◌, ◌∷◌, ◌++◌, [], IfOk, OnOk, OnErr};

use crate::device::Device;
use crate::error::JournalError;
use crate::memory::rewritten;
use std::alloc::{AllocError, Global};

/// What a disk has of a file, and what a cache has.
#[derive(Drop)]
pub struct Content {
    pub disk: Vec<u8>,
    pub cache: Vec<u8>,
}

/// A file on a disk with a cache. A crash leaves what the one has or what the other has.
#[derive(Drop)]
pub struct Cached {
    alloc: Global,
    content: Content,
    is_settled: bool,
    // How many syncs succeed before one fails, and how many have failed.
    syncs: usize,
    failed: usize,
    past: Vec<Content>,
}

impl Cached {
    ghost use Rattle.stm_journal.specs.Cached.{bytes_on_disk, IsNewCached};

    /// A file with these bytes, all of them on the disk, of which one sync fails after this many.
    pub fn new(alloc: Global, bytes: &[u8], syncs: usize) -> Result<Self, AllocError>
        ensures done { IfOk result (IsNewCached bytes.now syncs) }
    {
        Ok(Cached {
            alloc,
            content: Content {
                disk: bytes.to_vec(alloc)?,
                cache: bytes.to_vec(alloc)?,
            },
            is_settled: true,
            syncs,
            failed: 0,
            past: Vec::new(alloc),
        })
    }

    /// What is on the disk.
    pub fn disk(&self) -> &[u8]
        ensures { result.now ≡ bytes_on_disk self.now }
    {
        &self.content.disk
    }
}

/// Replaces a content by another, and keeps it.
fn replace(
    alloc: Global,
    content: &mut Content,
    past: &mut Vec<Content>,
    next: Content,
) -> Result<(), AllocError>
    ensures ok { OnOk result (content.new ≡ next) }
    ensures err { OnErr result (content.new ≡ content.old) }
    ensures past { OnOk result ((v : Content) × (v.disk.items ≡ content.old.disk.items) × (v.cache.items ≡ content.old.cache.items)
        × (past.new.items ≡ past.old.items ++ v ∷ [])) }
    ensures past_err { OnErr result (past.new.items ≡ past.old.items) }
{
    let old = Content {
        disk: content.disk.to_vec(alloc)?,
        cache: content.cache.to_vec(alloc)?,
    };
    past.push(old)?;
    *content = next;
    Ok(())
}

impl Device for Cached {
    ghost use Rattle.stm_journal.specs.Cached.{cached_disk, cached_lawful};

    ghost disk = { cached_disk };

    ghost lawful = { cached_lawful };

    fn len(&self) -> Result<usize, JournalError> {
        Ok(self.content.cache.len())
    }

    fn read_at(&self, at: usize, buffer: &mut [u8]) -> Result<usize, JournalError> {
        let rest = &self.content.cache[at..];
        let count = rest.len().min(buffer.len());
        buffer[..count].copy_from_slice(&rest[..count]);
        Ok(count)
    }

    fn settle(&mut self) -> Result<(), JournalError> {
        let kept = if self.is_settled {
            &self.content.cache
        } else {
            &self.content.disk
        };
        let next = Content {
            disk: kept.to_vec(self.alloc)?,
            cache: kept.to_vec(self.alloc)?,
        };
        replace(self.alloc, &mut self.content, &mut self.past, next)?;
        self.is_settled = true;
        Ok(())
    }

    fn write_at(&mut self, at: usize, bytes: &[u8]) -> Result<(), JournalError> {
        let next = Content {
            disk: self.content.disk.to_vec(self.alloc)?,
            cache: rewritten(self.alloc, &self.content.cache, at, bytes)?,
        };
        Ok(replace(self.alloc, &mut self.content, &mut self.past, next)?)
    }

    fn cut(&mut self, len: usize) -> Result<(), JournalError> {
        let next = Content {
            disk: self.content.disk.to_vec(self.alloc)?,
            cache: self.content.cache[..len].to_vec(self.alloc)?,
        };
        Ok(replace(self.alloc, &mut self.content, &mut self.past, next)?)
    }

    fn sync(&mut self) -> Result<(), JournalError> {
        if self.syncs == 0 && self.failed == 0 {
            self.failed = 1;
            self.is_settled = false;
            return Err(JournalError::Failed);
        }
        self.syncs = self.syncs.saturating_sub(1);
        if !self.is_settled {
            // What the cache has counts as written.
            return Ok(());
        }
        let next = Content {
            disk: self.content.cache.to_vec(self.alloc)?,
            cache: self.content.cache.to_vec(self.alloc)?,
        };
        Ok(replace(self.alloc, &mut self.content, &mut self.past, next)?)
    }
}
