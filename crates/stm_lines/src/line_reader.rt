//! Lines pulled from a reader, as they are.

ghost use Rattle.std.specs.Prelude.{◌≡◌, ◌++◌, ◌+◌, ◌↔◌, [], ◌<◌, ◌≤◌, drop, false, true, length, take, IfErr, IfOk, IsTrue, Ok, OnErr, OnOk, Some};
ghost use Rattle.std.specs.Io.KnownBytes.{Consumes, IsAtEnd, Keeps};
ghost use Rattle.memchr.specs.Find.{IsFirstByte, is_byte};
ghost use Rattle.stm_lines.specs.CountedCalls.{CountsCalls};
ghost use Rattle.stm_lines.specs.LineResults.{LeavesLess, ReadsLine, SkipsRest};
ghost use Rattle.stm_lines.specs.Lines.{drop_return, NoLineFeed};
ghost use Rattle.stm_lines.specs.TakenLines.{HasLineFeed, IsPart, IsSkippedPart};
ghost use Rattle.stm_lines.specs.Unread.{most_unread, unread};

use crate::calls::Calls;
use crate::chunk::Chunk;
use crate::run_fault::RunFault;
use std::alloc::Global;
use std::io::{ErrorKind, Read};
use std::sync::ledger::Ledger;

/// What was read.
#[derive(Clone, Copy)]
pub enum Line {
    /// A line that a line feed ended.
    Whole,
    /// A line that the end of the input ended.
    Last,
    /// The first bytes of a line that has more of them than it may have: one more.
    TooLong,
    /// The input has ended, and has no further line.
    End,
}

/// What a part of the chunk brings: the line feed; more bytes than a line may have; or neither, so that more is to be read.
enum Part {
    Whole,
    TooLong,
    More,
}

/// Takes bytes from the front of the chunk, the first of which join the line.
fn take_front(
    line: &mut Vec<u8>,
    chunk: &mut Chunk,
    joined: usize,
    taken: usize,
) -> Result<(), RunFault>
    requires joined { joined ≤ taken }
    requires taken { taken ≤ length chunk.old }
    ensures line { OnOk result (line.new.items ≡ line.old.items ++ take joined chunk.old) }
    ensures chunk { OnOk result (chunk.new ≡ drop taken chunk.old) }
    ensures same_line { OnErr result (line.new.items ≡ line.old.items) }
    ensures same_chunk { OnErr result (chunk.new ≡ chunk.old) }
    ensures fault { IfErr result (λ e. e ≡ RunFault.NoMemory) }
{
    match line.extend_from_slice(&chunk.bytes()[..joined]) {
        Ok(()) => {
            chunk.advance(taken);
            Ok(())
        }
        Err(_) => Err(RunFault::NoMemory),
    }
}

/// Takes the bytes before the line feed at this place, and the line feed, or as many bytes as make the line too long.
fn take_to_feed(
    line: &mut Vec<u8>,
    chunk: &mut Chunk,
    at: usize,
    limit: usize,
) -> Result<Part, RunFault>
    requires begun { length line.old.items ≤ limit }
    requires feed { IsFirstByte (is_byte 10) chunk.old (Some at) }
    requires low { at < 65536 }
    ensures part { IfOk result (λ part.
        IsPart part limit line.old.items line.new.items chunk.old chunk.new) }
    ensures same_line { OnErr result (line.new.items ≡ line.old.items) }
    ensures same_chunk { OnErr result (chunk.new ≡ chunk.old) }
    ensures fault { IfErr result (λ e. e ≡ RunFault.NoMemory) }
{
    let room = limit - line.len();
    if at <= room {
        match take_front(line, chunk, at, at + 1) {
            Ok(()) => Ok(Part::Whole),
            Err(fault) => Err(fault),
        }
    } else {
        match take_front(line, chunk, room + 1, room + 1) {
            Ok(()) => Ok(Part::TooLong),
            Err(fault) => Err(fault),
        }
    }
}

/// Takes all bytes, none of which is a line feed, or as many as make the line too long.
fn take_all(line: &mut Vec<u8>, chunk: &mut Chunk, limit: usize) -> Result<Part, RunFault>
    requires begun { length line.old.items ≤ limit }
    requires none { NoLineFeed chunk.old }
    ensures part { IfOk result (λ part.
        IsPart part limit line.old.items line.new.items chunk.old chunk.new) }
    ensures same_line { OnErr result (line.new.items ≡ line.old.items) }
    ensures same_chunk { OnErr result (chunk.new ≡ chunk.old) }
    ensures fault { IfErr result (λ e. e ≡ RunFault.NoMemory) }
{
    let room = limit - line.len();
    let all = chunk.bytes().len();
    if all <= room {
        match take_front(line, chunk, all, all) {
            Ok(()) => Ok(Part::More),
            Err(fault) => Err(fault),
        }
    } else {
        match take_front(line, chunk, room + 1, room + 1) {
            Ok(()) => Ok(Part::TooLong),
            Err(fault) => Err(fault),
        }
    }
}

/// Takes what the chunk has of the line that has begun.
fn take_part(line: &mut Vec<u8>, chunk: &mut Chunk, limit: usize) -> Result<Part, RunFault>
    requires { length line.old.items ≤ limit }
    ensures part { IfOk result (λ part.
        IsPart part limit line.old.items line.new.items chunk.old chunk.new) }
    ensures same_line { OnErr result (line.new.items ≡ line.old.items) }
    ensures same_chunk { OnErr result (chunk.new ≡ chunk.old) }
    ensures fault { IfErr result (λ e. e ≡ RunFault.NoMemory) }
{
    match chunk.feed() {
        Some(at) => take_to_feed(line, chunk, at, limit),
        None => take_all(line, chunk, limit),
    }
}

/// Takes the bytes up to the first line feed, and the line feed, or all; returns whether there is one.
fn skip_part(chunk: &mut Chunk) -> bool
    ensures { IsSkippedPart result chunk.old chunk.new }
{
    match chunk.feed() {
        Some(at) => {
            chunk.advance(at + 1);
            true
        }
        None => {
            let all = chunk.bytes().len();
            chunk.advance(all);
            false
        }
    }
}

/// Reads the next bytes; returns whether there are any. An interrupted read is tried again.
fn fill<R: Read, L: Ledger>(chunk: &mut Chunk, calls: &mut Calls<R, L>) -> Result<bool, RunFault>
    requires { chunk.old ≡ [] }
    ensures called { CountsCalls calls.old calls.new }
    ensures fewer { OnOk result (calls.new.left < calls.old.left) }
    ensures few { OnOk result (length chunk.new ≤ 65536) }
    ensures bytes { OnOk result (Consumes (R.remaining calls.old.reader.now)
        (R.remaining calls.new.reader.now) chunk.new) }
    ensures end { IfOk result (λ some. some ≡ false →
        (chunk.new ≡ []) × IsAtEnd (R.remaining calls.new.reader.now)) }
    ensures kept { OnErr result (Keeps (R.remaining calls.old.reader.now)
        (R.remaining calls.new.reader.now)) }
    ensures none { OnErr result (chunk.new ≡ []) }
    ensures fault { IfErr result (λ e. e ≡ RunFault.Read) }
{
    'reads: while calls.may_read() {
        match chunk.read(calls) {
            Ok(count) => return Ok(count > 0),
            Err(fault) if fault.kind() == ErrorKind::Interrupted => {}
            Err(_) => return Err(RunFault::Read),
        }
    }
    Err(RunFault::Read)
}

/// Bytes that were read and not yet taken, and the line that was read last.
#[derive(Drop)]
pub struct LineReader {
    chunk: Chunk,
    line: Vec<u8>,
}

impl LineReader {
    /// A reader of lines that has read no byte.
    pub fn new(alloc: Global) -> LineReader
        ensures chunk { result.chunk ≡ [] }
        ensures line { result.line.items ≡ [] }
    {
        LineReader {
            chunk: Chunk::new(),
            line: Vec::new(alloc),
        }
    }

    /// The line that was read last, without its line feed.
    pub fn line(&self) -> &[u8]
        ensures { result.now ≡ self.now.line.items }
    {
        self.line.as_slice()
    }

    /// Whether the next line is whole in the bytes that were read, so that to read it doesn't call the reader.
    pub fn is_buffered(&self) -> bool
        ensures { IsTrue result ↔ HasLineFeed self.now.chunk }
    {
        self.chunk.feed().is_some()
    }

    /// Reads the next line, of at most `limit` bytes. If it has more, one more is taken, as soon as that many were read;
    /// `skip_line` takes the rest.
    pub fn next_line<R: Read, L: Ledger>(
        &mut self,
        calls: &mut Calls<R, L>,
        limit: usize,
    ) -> Result<Line, RunFault>
        ensures read { ReadsLine limit (unread R.remaining self.old calls.old)
            (unread R.remaining self.new calls.new) self.new result }
        ensures called { CountsCalls calls.old calls.new }
        // No call is made if the line is whole in the bytes that were read.
        ensures buffered { HasLineFeed self.old.chunk → calls.new.left ≡ calls.old.left }
        // No more is still to come than before; after a line that a line feed ended less, by more than its bytes.
        ensures shorter { LeavesLess result (length self.new.line.items) (most_unread self.new calls.new)
            (most_unread self.old calls.old) }
    {
        self.line.clear();
        'parts: loop {
            match take_part(&mut self.line, &mut self.chunk, limit)? {
                Part::Whole => return Ok(Line::Whole),
                Part::TooLong => return Ok(Line::TooLong),
                Part::More => {}
            }
            if !fill(&mut self.chunk, calls)? {
                return Ok(if self.line.is_empty() {
                    Line::End
                } else {
                    Line::Last
                });
            }
        }
    }

    /// Takes the rest of a line with its line feed, or to the end of the input; returns whether there is a line feed. `line`
    /// stays as it is.
    pub(crate) fn skip_line<R: Read, L: Ledger>(
        &mut self,
        calls: &mut Calls<R, L>,
    ) -> Result<bool, RunFault>
        ensures same_line { self.new.line.items ≡ self.old.line.items }
        ensures read { SkipsRest (unread R.remaining self.old calls.old)
            (unread R.remaining self.new calls.new) self.new result }
        ensures called { CountsCalls calls.old calls.new }
        ensures fewer { OnOk result (most_unread self.new calls.new ≤ most_unread self.old calls.old) }
        ensures shorter { result ≡ Ok true
            → most_unread self.new calls.new < most_unread self.old calls.old }
    {
        'parts: loop {
            if skip_part(&mut self.chunk) {
                return Ok(true);
            }
            if !fill(&mut self.chunk, calls)? {
                return Ok(false);
            }
        }
    }

    /// Drops one carriage return at the end of the line.
    pub(crate) fn drop_return(&mut self)
        ensures chunk { self.new.chunk ≡ self.old.chunk }
        ensures line { self.new.line.items ≡ drop_return self.old.line.items }
    {
        let len = self.line.len();
        if len > 0 && self.line[len - 1] == b'\r' {
            self.line.truncate(len - 1);
        }
    }
}
