//! Bytes of the input that are read and not yet taken.

ghost use Rattle.std.specs.Prelude.{◌≡◌, ◌<◌, ◌≤◌, [], drop, length, IfSome};
ghost use Rattle.memchr.specs.Find.{IsFirstByte, is_byte};
ghost use Rattle.stm_lines.specs.CountedCalls.{CountsOneCall};
ghost use Rattle.stm_lines.specs.ReadChunks.{ReadsChunk};

use crate::calls::Calls;
use memchr::memchr;
use std::io;
use std::io::Read;
use std::marker::Model;
use std::sync::ledger::Ledger;

/// The most bytes that one call of a reader gives.
pub const CHUNK: usize = 65_536;

/// Bytes that one call of a reader gave, as far as they are not yet taken. Contracts see these. The place of the first line feed
/// among them is kept, so that it is searched for once.
#[derive(Drop)]
pub struct Chunk {
    buffer: [u8; CHUNK],
    at: usize,
    end: usize,
    feed: Option<usize>,
}

impl Model for Chunk {
    ghost use Rattle.std.specs.Prelude.{ℕ, ◌≤◌, List, slice_range};
    ghost use Rattle.memchr.specs.Find.{IsFirstByte, is_byte};
    ghost use Rattle.stm_lines.specs.declared.chunk.TheConstants.{CHUNK};

    ghost Value = { List ℕ };

    ghost view = { λ c. slice_range c.buffer c.at c.end };

    ghost invariant = { λ c. (c.at ≤ c.end) × (c.end ≤ CHUNK)
        × IsFirstByte (is_byte 10) (slice_range c.buffer c.at c.end) c.feed };
}

impl Chunk {
    /// No bytes.
    pub(crate) fn new() -> Chunk
        ensures { result ≡ [] }
    {
        Chunk {
            buffer: [0; CHUNK],
            at: 0,
            end: 0,
            feed: None,
        }
    }

    /// The bytes that are not yet taken.
    pub(crate) fn bytes(&self) -> &[u8]
        ensures { result.now ≡ self.now }
    {
        &self.buffer[self.at..self.end]
    }

    /// The place of the first line feed.
    pub(crate) fn feed(&self) -> Option<usize>
        ensures place { IsFirstByte (is_byte 10) self.now result }
        ensures low { IfSome result (λ at. at < CHUNK) }
    {
        self.feed
    }

    /// Takes bytes from the front, and searches for the next line feed.
    pub(crate) fn advance(&mut self, count: usize)
        requires { count ≤ length self.old }
        ensures { self.new ≡ drop count self.old }
    {
        self.at += count;
        self.feed = memchr(b'\n', &self.buffer[self.at..self.end]);
    }

    /// Reads the next bytes in place of those that were there, and returns how many they are: none only at the end.
    pub(crate) fn read<R: Read, L: Ledger>(&mut self, calls: &mut Calls<R, L>) -> io::Result<usize>
        requires { 0 < calls.old.left }
        ensures called { CountsOneCall calls.old calls.new }
        ensures few { length self.new ≤ CHUNK }
        ensures read { ReadsChunk result (R.remaining calls.old.reader.now)
            (R.remaining calls.new.reader.now) self.new }
    {
        self.at = 0;
        self.end = 0;
        self.feed = None;
        let count = calls.read(&mut self.buffer)?;
        self.end = count;
        self.feed = memchr(b'\n', &self.buffer[..count]);
        Ok(count)
    }
}
