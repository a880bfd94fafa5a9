//! The standard streams that the program is started with.

use std::fs::{File, OpenOptions};
use std::io;
use std::os::fd::AsRawFd;
use stm_journal::has_standard_descriptor;

/// A device that has no bytes and keeps none.
const NULL: &str = "/dev/null";

/// Gives each standard stream that is closed a file that can't do what the stream is for. So no other file of the program gets its
/// descriptor, and a read or a write of the stream fails, as on a stream that is closed. The files are returned; the caller keeps them
/// open for as long as this has to hold.
pub fn occupy(rt: &HostRuntime) -> io::Result<Vec<File>> {
    let mut files = Vec::new(rt.alloc());
    for _ in 0..3 {
        // The system gives the lowest free descriptor.
        let readable = File::open(rt, NULL)?;
        if !has_standard_descriptor(&readable) {
            return Ok(files);
        }
        if readable.as_raw_fd() > 0 {
            files.push(readable)?;
        } else {
            drop(readable);
            files.push(OpenOptions::new().write(true).open(rt, NULL)?)?;
        }
    }
    Ok(files)
}
