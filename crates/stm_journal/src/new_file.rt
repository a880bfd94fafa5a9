//! A new file, written from the front on.

ghost use Rattle.std.specs.Prelude.{◌≡◌, ◌≢◌, ◌≤◌, ◌<◌, ◌+◌, [], IsTrue, length, Option, Some, None, IfOk, IfErr, IfSome, OnOk, OnErr, IsErrOf};
ghost use Rattle.std.specs.Io.{WritesAtMost};
ghost use Rattle.std.specs.Io.KnownBytes.{Keeps, WriteAppends};
ghost use Rattle.stm_journal.specs.Device.{most_file, only_full};
ghost use Rattle.stm_journal.specs.Disk.{Shows, Reaches, IsSettled, MayFail, FailsOnlyIfAny};
ghost use Rattle.stm_journal.specs.declared.error.JournalError.TheVariants.{Failed, NoSpace, Full, TooLong, TornTooLong};

use crate::device::Device;
use crate::error::JournalError;
use crate::recovery::MAX_LEN;
use std::alloc::{AllocError, Global};
use std::io;
use std::io::{ErrorKind, Write};

/// How many bytes are written to the device at a time.
const PIECE: usize = 65_536;

/// Writes to an empty device from the front on, 64 KiB at a time. After an error it takes no more bytes, and `finish` returns
/// that error.
#[derive(Drop)]
pub struct NewFile<D: Device> {
    device: D,
    len: usize,
    pending: Vec<u8>,
    fault: Option<JournalError>,
    ghost settled: { IsSettled D.disk device },
    ghost within: { Reaches D.disk device len },
    ghost counts: { IsTrue D.disk.is_honest → fault ≡ None → len ≡ length (D.disk.seen device) },
    ghost small: { len ≤ most_file },
    ghost piece: { length pending.items ≤ 65536 },
    ghost failed: { IsTrue D.disk.is_honest → fault ≡ Some Failed → MayFail D.disk },
    ghost no_space: { IsTrue D.disk.is_honest → fault ≡ Some NoSpace → MayFail D.disk },
    ghost full: { IsTrue D.disk.is_honest → fault ≡ Some Full → most_file < len + length pending.items },
    ghost not_long: { IsTrue D.disk.is_honest → fault ≢ Some TooLong },
    ghost not_torn: { IsTrue D.disk.is_honest → fault ≢ Some TornTooLong },
}

impl<D: Device> NewFile<D> {
    ghost use Rattle.stm_journal.specs.NewFile.{written_to, length_so_far, IsFinished};

    /// A file with no bytes yet.
    pub(crate) fn new(alloc: Global, device: D) -> Result<Self, AllocError>
    where
        D: Drop,
        requires empty { Shows D.disk device [] }
        requires settled { IsSettled D.disk device }
        ensures empty { IfOk result (λ file. IsTrue D.disk.is_honest → written_to file ≡ Some []) }
        ensures fault { IfOk result (λ file. file.fault ≡ None) }
    {
        Ok(NewFile {
            device,
            len: 0,
            pending: Vec::with_capacity(alloc, PIECE)?,
            fault: None,
        })
    }

    /// The first error, if there was one.
    pub fn fault(&self) -> Option<JournalError>
        ensures { result ≡ self.now.fault }
    {
        self.fault
    }

    /// Writes what is pending to the device.
    #[tactic(auto, using(crate::proofs::Faults::may_fail))]
    fn write_out(&mut self) -> Result<(), JournalError>
        ensures kept { Keeps (written_to self.old) (written_to self.new) }
        ensures none_left { OnOk result (self.new.pending.items ≡ []) }
        ensures fine { OnOk result (self.new.fault ≡ None) }
        ensures unchanged { OnErr result ((self.new.len ≡ self.old.len) × (self.new.pending.items ≡ self.old.pending.items)) }
        ensures first { IfSome self.old.fault (λ e. IsErrOf result e) }
        ensures fault { IfErr result (λ e. self.new.fault ≡ Some e) }
    {
        if let Some(fault) = self.fault {
            return Err(fault);
        }
        if self.len > MAX_LEN - self.pending.len() {
            self.fault = Some(JournalError::Full);
            return Err(JournalError::Full);
        }
        match self.device.write_at(self.len, &self.pending) {
            Ok(()) => {
                self.len += self.pending.len();
                self.pending.clear();
                Ok(())
            }
            Err(fault) => {
                self.fault = Some(fault);
                Err(fault)
            }
        }
    }

    /// Takes some of these bytes, at least one if there are any, and returns how many.
    fn add(&mut self, bytes: &[u8]) -> Result<usize, JournalError>
        ensures bound { WritesAtMost result bytes.now }
        ensures bytes { WriteAppends (written_to self.old) (written_to self.new) result bytes.now }
        ensures fault { IfErr result (λ e. self.new.fault ≡ Some e) }
    {
        if let Some(fault) = self.fault {
            return Err(fault);
        }
        if self.pending.len() == PIECE {
            self.write_out()?;
        }
        let count = bytes.len().min(PIECE - self.pending.len());
        match self.pending.extend_from_slice(&bytes[..count]) {
            Ok(()) => Ok(count),
            Err(_) => {
                self.fault = Some(JournalError::NoMemory);
                Err(JournalError::NoMemory)
            }
        }
    }

    /// Writes what is left, and syncs. Returned are the device and the length of its file.
    #[tactic(auto, using(crate::proofs::Faults::may_fail))]
    pub fn finish(mut self) -> Result<(D, usize), JournalError>
    where
        D: Drop,
        ensures done { IfOk result (λ r. IsFinished D.disk (written_to self) r.0 r.1) }
        // The first error of a write is kept for this call.
        ensures first { IfSome self.fault (λ e. IsErrOf result e) }
        ensures fault { FailsOnlyIfAny D.disk (only_full (most_file < length_so_far self)) result }
    {
        self.write_out()?;
        self.device.sync()?;
        Ok((self.device, self.len))
    }
}

impl<D: Device> Write for NewFile<D> {
    ghost use Rattle.stm_journal.specs.NewFile.{written_to};

    ghost contents = { λ f. written_to f };

    fn write(&mut self, buf: &[u8]) -> io::Result<usize> {
        match self.add(buf) {
            Ok(count) => Ok(count),
            Err(_) => Err(io::Error::from(ErrorKind::Other)),
        }
    }

    fn flush(&mut self) -> io::Result<()> {
        match self.write_out() {
            Ok(()) => Ok(()),
            Err(_) => Err(io::Error::from(ErrorKind::Other)),
        }
    }
}
