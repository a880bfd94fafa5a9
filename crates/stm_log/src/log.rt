//! The log.

ghost use Rattle.std.specs.Prelude.{◌≡◌, ◌≢◌, ◌∷◌, [], length, drop, ◌<◌, ◌^◌, OnOk, OnErr, IfOk, Ok, Some, None};
ghost use Rattle.stm_terms.specs.Changes.{no_changes, cell_value, view_at, written, made};
ghost use Rattle.stm_terms.specs.Typing.{Rising};
ghost use Rattle.stm_log.specs.LogModel.{joined_reads, with_read, IsWritten};

use crate::frame::{Frame, copy_frames};
use crate::reads::Reads;
use crate::value_map::ValueMap;
use std::alloc::Global;
use std::marker::Model;
use std::mem;
use stm_store::Frozen;
use stm_terms::NoMemory;
use stm_terms::kinds::Ty;
use stm_terms::lists::{News, Writes};
use stm_terms::values::{Ref, Value};

/// The log of one evaluation.
///
/// Each frame sees all changes of its branch, so that a frame is kept or discarded without a growth.
#[derive(Drop)]
pub struct Log {
    top: Frame,
    below: Vec<Frame>,
    reads: ValueMap,
}

impl Model for Log {
    ghost use Rattle.std.specs.Prelude.{reverse};
    ghost use Rattle.stm_log.specs.LogModel.{Logged};

    ghost Value = { Logged };

    ghost view = { λ l. record { top = l.top; below = reverse l.below.items; reads = l.reads } };
}

/// What is left of a log: what the block wrote, the cells that it made, and what it read.
#[derive(Drop)]
pub struct Ends {
    pub writes: Writes,
    pub news: News,
    pub reads: Reads,
}

impl Log {
    /// A log with one frame and nothing in it.
    pub fn start(alloc: Global) -> Log
        ensures { result ≡ record { top = no_changes; below = []; reads = [] } }
    {
        Log {
            top: Frame::empty(alloc),
            below: Vec::new(alloc),
            reads: ValueMap::empty(alloc),
        }
    }

    /// How many frames are open below the top one.
    pub fn depth(&self) -> usize
        ensures { result ≡ length self.now.below }
    {
        self.below.len()
    }

    /// How many cells the top view has made.
    pub fn made(&self) -> usize
        ensures { result ≡ length self.now.top.news }
    {
        self.top.news.len()
    }

    /// The value of a reference in the top view. A variable of the store that the view has not written is read from the
    /// store, and is in the set of reads from then on. An evaluation reads all from one store: nothing here requires that.
    pub fn read(&mut self, frozen: &Frozen, at: Ref) -> Result<Value, NoMemory>
        requires { view_at (cell_value frozen.now) self.old.top at ≢ None }
        ensures value { IfOk result (λ v.
            view_at (cell_value frozen.now) self.old.top at ≡ Some v) }
        ensures done { OnOk result (self.new ≡ with_read (cell_value frozen.now) at self.old) }
        ensures unchanged { OnErr result (self.new ≡ self.old) }
    {
        match at {
            Ref::Old(id) => match self.top.own(id) {
                Some(value) => Ok(value),
                None => {
                    let value = frozen.value(id);
                    self.reads.put(id, value)?;
                    Ok(value)
                }
            },
            Ref::New(k) => Ok(self.top.cell(k)),
        }
    }

    /// Writes a reference in the top view.
    pub fn write(&mut self, at: Ref, value: Value) -> Result<(), NoMemory>
        requires { written self.old.top at value ≢ None }
        ensures done { OnOk result (IsWritten at value self.old self.new) }
        // No cell is made or lost.
        ensures same { length self.new.top.news ≡ length self.old.top.news }
        ensures unchanged { OnErr result (self.new ≡ self.old) }
    {
        self.top.write(at, value)
    }

    /// Makes a cell in the top view, and gives the reference to it.
    pub fn make(&mut self, kind: Ty, value: Value) -> Result<Ref, NoMemory>
        requires { length self.old.top.news < 2 ^ 32 }
        ensures made { IfOk result (λ r. r ≡ Ref.New (length self.old.top.news)) }
        ensures done { OnOk result (self.new
            ≡ record self.old { top = made self.old.top kind value }) }
        ensures unchanged { OnErr result (self.new ≡ self.old) }
    {
        self.top.make(kind, value)
    }

    /// Opens a frame, which sees what the one below it sees.
    pub fn enter(&mut self) -> Result<(), NoMemory>
        ensures done { OnOk result (self.new
            ≡ record self.old { below = self.old.top ∷ self.old.below }) }
        ensures unchanged { OnErr result (self.new ≡ self.old) }
    {
        let frame = self.top.copy()?;
        self.below.push(frame)?;
        Ok(())
    }

    /// Puts the top frame in place of the one below it. It needs no memory, and is never refused.
    pub fn keep(&mut self) -> Result<(), NoMemory>
        requires { self.old.below ≢ [] }
        ensures frames { self.new ≡ record self.old { below = drop 1 self.old.below } }
        ensures kept { result ≡ Ok tt }
    {
        let _ = self.below.pop();
        Ok(())
    }

    /// Drops the top frame with its writes and its cells. The reads stay.
    pub fn discard(&mut self)
        requires { self.old.below ≢ [] }
        ensures frames { self.old.below ≡ self.new.top ∷ self.new.below }
        ensures reads { self.new.reads ≡ self.old.reads }
    {
        if let Some(frame) = self.below.pop() {
            self.top = frame;
        }
    }

    /// What the log has in the end. It needs no memory, and is never refused.
    pub fn finish(self) -> Result<Ends, NoMemory>
        requires { self.below ≡ [] }
        ensures { result
            ≡ Ok (record { writes = self.top.writes; news = self.top.news; reads = self.reads }) }
    {
        let Log {
            top,
            below: _,
            reads,
        } = self;
        let Frame { writes, news } = top;
        Ok(Ends {
            writes: Writes::from_vec(writes.into_vec()),
            news: News::from_vec(news),
            reads: Reads::of(reads),
        })
    }

    /// The log has one frame and nothing in it from now on, in the same memory.
    pub fn restart(&mut self)
        ensures { self.new ≡ record { top = no_changes; below = []; reads = [] } }
    {
        self.top.clear();
        self.below.clear();
        self.reads.clear();
    }

    /// Moves out what the top frame has. Nothing is left in it.
    pub fn take_changes(&mut self) -> (Writes, News)
        ensures writes { result.0 ≡ self.old.top.writes }
        ensures news { result.1 ≡ self.old.top.news }
        ensures emptied { self.new ≡ record self.old { top = no_changes } }
    {
        let alloc = *self.below.allocator();
        let Frame { writes, news } = mem::replace(&mut self.top, Frame::empty(alloc));
        (Writes::from_vec(writes.into_vec()), News::from_vec(news))
    }

    /// What was read so far.
    pub fn reads(&self) -> &[(u32, Value)]
        ensures value { result.now ≡ self.now.reads }
        ensures rising { Rising self.now.reads }
    {
        self.reads.as_slice()
    }

    /// A second log, equal to this one.
    pub fn copy(&self) -> Result<Log, NoMemory>
        ensures { IfOk result (λ l. l ≡ self.now) }
    {
        Ok(Log {
            top: self.top.copy()?,
            below: copy_frames(&self.below)?,
            reads: self.reads.copy()?,
        })
    }

    /// A list of what was read so far.
    pub fn copy_reads(&self) -> Result<Reads, NoMemory>
        ensures { IfOk result (λ r. r ≡ self.now.reads) }
    {
        Ok(Reads::of(self.reads.copy()?))
    }

    /// Puts what was read so far in place of a list of as many reads. It takes no memory.
    pub fn overwrite_reads(&self, reads: &mut Reads)
        requires { length reads.old ≡ length self.now.reads }
        ensures { reads.new ≡ self.now.reads }
    {
        reads.overwrite(&self.reads);
    }

    /// Adds the reads of another log. If both read one variable, the value that the other log read stays.
    pub fn join_reads(&mut self, other: &Log) -> Result<(), NoMemory>
        ensures done { OnOk result (self.new
            ≡ record self.old { reads = joined_reads other.now.reads self.old.reads }) }
        ensures unchanged { OnErr result (self.new ≡ self.old) }
    {
        let mut reads = self.reads.copy()?;
        reads.put_each(other.reads.as_slice())?;
        self.reads = reads;
        Ok(())
    }
}
