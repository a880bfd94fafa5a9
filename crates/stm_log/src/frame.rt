//! One frame of a log: what a branch sees as written and made.

ghost use Rattle.std.specs.Prelude.{◌≡◌, ◌≢◌, ◌<◌, ◌^◌, length, IfOk, OnOk, OnErr, None, Some};
ghost use Rattle.stm_terms.specs.Changes.{no_changes, cell_value, find as value_at, written, made};

use crate::value_map::ValueMap;
use std::alloc::Global;
use std::marker::Model;
use stm_terms::NoMemory;
use stm_terms::kinds::Ty;
use stm_terms::values::{Ref, Value};

/// All that the block has changed, as its branch sees it: the variables written, ascending, and the cells made, in order.
#[derive(Drop)]
pub(crate) struct Frame {
    pub(crate) writes: ValueMap,
    pub(crate) news: Vec<(Ty, Value)>,
}

impl Model for Frame {
    ghost use Rattle.stm_terms.specs.Changes.{Changes};

    ghost Value = { Changes };

    ghost view = { λ f. record { writes = f.writes; news = f.news.items } };
}

impl Frame {
    /// A frame that has changed nothing.
    pub(crate) fn empty(alloc: Global) -> Frame
        ensures { result ≡ no_changes }
    {
        Frame {
            writes: ValueMap::empty(alloc),
            news: Vec::new(alloc),
        }
    }

    /// The value that was written to a variable of the store.
    pub(crate) fn own(&self, id: u32) -> Option<Value>
        ensures { result ≡ value_at id self.now.writes }
    {
        self.writes.find(id)
    }

    /// The value of a cell that the block has made.
    pub(crate) fn cell(&self, k: u32) -> Value
        requires { cell_value self.now.news k ≢ None }
        ensures { cell_value self.now.news k ≡ Some result }
    {
        self.news[k as usize].1
    }

    /// Writes a reference.
    pub(crate) fn write(&mut self, at: Ref, value: Value) -> Result<(), NoMemory>
        requires { written self.old at value ≢ None }
        ensures done { OnOk result (written self.old at value ≡ Some self.new) }
        // No cell is made or lost.
        ensures same { length self.new.news ≡ length self.old.news }
        ensures unchanged { OnErr result (self.new ≡ self.old) }
    {
        match at {
            Ref::Old(id) => self.writes.put(id, value),
            Ref::New(k) => {
                let kind = self.news[k as usize].0;
                self.news[k as usize] = (kind, value);
                Ok(())
            }
        }
    }

    /// Makes a cell, and gives the reference to it.
    pub(crate) fn make(&mut self, kind: Ty, value: Value) -> Result<Ref, NoMemory>
        requires { length self.old.news < 2 ^ 32 }
        ensures made { IfOk result (λ r. r ≡ Ref.New (length self.old.news)) }
        ensures done { OnOk result (self.new ≡ made self.old kind value) }
        ensures unchanged { OnErr result (self.new ≡ self.old) }
    {
        let number = self.news.len() as u32;
        self.news.push((kind, value))?;
        Ok(Ref::New(number))
    }

    /// Nothing is changed from now on, in the same memory.
    pub(crate) fn clear(&mut self)
        ensures { self.new ≡ no_changes }
    {
        self.writes.clear();
        self.news.clear();
    }

    /// A second frame with the same changes.
    pub(crate) fn copy(&self) -> Result<Frame, NoMemory>
        ensures { IfOk result (λ f. f ≡ self.now) }
    {
        let alloc = *self.news.allocator();
        let writes = self.writes.copy()?;
        let news = Vec::from_slice(alloc, &self.news)?;
        Ok(Frame { writes, news })
    }
}

/// A second list of the same frames.
pub(crate) fn copy_frames(frames: &Vec<Frame>) -> Result<Vec<Frame>, NoMemory>
    ensures { IfOk result (λ fs. fs.items ≡ frames.now.items) }
{
    let mut copied = Vec::new(*frames.allocator());
    for frame in frames {
        copied.push(frame.copy()?)?;
    }
    Ok(copied)
}
