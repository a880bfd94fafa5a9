//! The reader of a run, and how often it may still be called.

ghost use Rattle.std.specs.Prelude.{◌≡◌, ◌↔◌, ◌<◌, IsTrue};
ghost use Rattle.std.specs.Io.{ReadsAtMost};
ghost use Rattle.std.specs.Io.KnownBytes.{ReadConsumes};
ghost use Rattle.stm_lines.specs.CountedCalls.{AreAllCalls, CountsOneCall};

use crate::steps::Steps;
use std::io;
use std::io::Read;
use std::sync::ledger::Ledger;

/// A reader that may be called 4,294,967,295 times. It is reached by `read` alone, and each call is one less that is left and
/// one step more.
#[derive(Drop)]
pub struct Calls<'a, R, L: Ledger> {
    reader: &'a mut R,
    steps: &'a mut Steps<L>,
    left: u32,
}

impl<'a, R: Read, L: Ledger> Calls<'a, R, L> {
    /// All calls of a reader, each counted among the steps. Both references stay those of the caller.
    pub fn new(reader: &'a mut R, steps: &'a mut Steps<L>) -> Calls<'a, R, L>
        ensures same_reader { result.reader.ghost_name ≡ reader.entry.ghost_name }
        ensures same_steps { result.steps.ghost_name ≡ steps.entry.ghost_name }
        ensures all { AreAllCalls reader.old steps.old result }
    {
        Calls {
            reader,
            steps,
            left: u32::MAX,
        }
    }

    /// Whether a call is left.
    pub(crate) fn may_read(&self) -> bool
        ensures { IsTrue result ↔ (0 < self.now.left) }
    {
        self.left > 0
    }

    /// Calls the reader.
    pub(crate) fn read(&mut self, buffer: &mut [u8]) -> io::Result<usize>
        requires { 0 < self.old.left }
        ensures called { CountsOneCall self.old self.new }
        ensures bound { ReadsAtMost result buffer.new }
        ensures bytes { ReadConsumes (R.remaining self.old.reader.now)
            (R.remaining self.new.reader.now) result buffer.new }
    {
        self.left -= 1;
        self.steps.tick();
        self.reader.read(buffer)
    }
}
