//! Calls of the system that std doesn't make again if a signal interrupts them.

use std::fs::{File, Metadata};
use std::io::ErrorKind;
use std::os::unix::fs::fchown;
use std::path::PathBuf;
use std::{fs, io};

/// Makes a call until no signal interrupts it, 4,294,967,295 times at most.
fn again<T: Drop, F: Fn() -> io::Result<T>>(call: F) -> io::Result<T>
    requires { F.IsAlwaysCallable call }
{
    for _ in 0..u32::MAX {
        match call() {
            Err(error) if error.kind() == ErrorKind::Interrupted => {}
            done => return done,
        }
    }
    Err(io::Error::from(ErrorKind::Interrupted))
}

/// What the system says of the file that a path leads to.
pub fn metadata_at(rt: &HostRuntime, path: &str) -> io::Result<Metadata> {
    again(|| fs::metadata(rt, path))
}

/// What the system says of the file of a path, or of the link that is there.
pub fn link_metadata_at(rt: &HostRuntime, path: &str) -> io::Result<Metadata> {
    again(|| fs::symlink_metadata(rt, path))
}

/// What the system says of a file that is open.
pub fn metadata_of(file: &File) -> io::Result<Metadata> {
    again(|| file.metadata())
}

/// The absolute path of the file that a path leads to.
pub(crate) fn canonical(rt: &HostRuntime, path: &str) -> io::Result<PathBuf> {
    again(|| fs::canonicalize(rt, path))
}

/// Gives a file another path.
pub(crate) fn rename(rt: &HostRuntime, from: &str, to: &str) -> io::Result<()> {
    again(|| fs::rename(rt, from, to))
}

/// Gives a file that is open an owner and a group.
pub(crate) fn set_owner(file: &File, user: u32, group: u32) -> io::Result<()> {
    again(|| fchown(file, Some(user), Some(group)))
}

/// Removes the file of a path.
pub(crate) fn remove(rt: &HostRuntime, path: &str) -> io::Result<()> {
    again(|| fs::remove_file(rt, path))
}
