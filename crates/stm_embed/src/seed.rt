//! The seed of names that the caller chooses.

use crate::feeding::copy_front;
use std::io;
use std::random::RandomSource;

/// Sixteen bytes in the place of random ones of the system, which the library doesn't ask for.
#[repr(C)]
pub struct CallersSeed {
    pub first: u64,
    pub second: u64,
}

impl RandomSource for CallersSeed {
    fn fill_bytes(&self, buf: &mut [u8]) -> io::Result<()> {
        let first = copy_front(&self.first.to_le_bytes(), buf);
        let _ = copy_front(&self.second.to_le_bytes(), &mut buf[first..]);
        Ok(())
    }
}
