//! Files that are begun to take the place of others, and folders.

ghost use Rattle.std.specs.Prelude.{◌≤◌, length, IfOk};

use crate::obstacle::Obstacle;
use crate::system::{canonical, link_metadata_at, metadata_at, metadata_of, remove, set_owner};
use std::fs::{File, OpenOptions, TryLockError};
use std::io;
use std::io::ErrorKind;
use std::os::fd::AsRawFd;
use std::os::unix::fs::{FileExt, MetadataExt, OpenOptionsExt};
use std::path::Path;

/// What the name of a file that was begun to take the place of another ends with.
const BEGUN: &str = ".stmdesk-new";

/// How many bytes of a file are compared with the front of one that was begun.
const MOST_FRONT: usize = 64;

/// Whether a name is kept for files that are begun to take the place of others: `.NAME.stmdesk-new`.
pub fn is_kept_name(path: &str) -> bool {
    match Path::new(path).file_name() {
        Some(name) => {
            name.as_bytes().starts_with(b".") && name.as_bytes().ends_with(BEGUN.as_bytes())
        }
        None => false,
    }
}

/// The folder of a path.
fn folder_of(path: &str) -> &str {
    match Path::new(path).parent() {
        Some(folder) if !folder.as_str().is_empty() => folder.as_str(),
        _ => ".",
    }
}

/// The path of the file that is begun to take the place of the one of this path.
pub(crate) fn begun_path(rt: &HostRuntime, path: &str) -> Result<String, Obstacle> {
    match Path::new(path).file_name() {
        Some(name) => {
            let folder = folder_of(path);
            Ok(format!(in rt.alloc(); "{folder}/.{name}{BEGUN}")?)
        }
        None => Err(Obstacle::NoPath),
    }
}

/// Syncs the folder of a file, so that its name is on the disk.
pub(crate) fn sync_folder(rt: &HostRuntime, path: &str) -> io::Result<()> {
    File::open(rt, folder_of(path))?.sync_all()
}

/// The path of a file that is open under this one, with links followed. None if that can't be known and the path is a link.
pub(crate) fn real_path(rt: &HostRuntime, path: &str) -> Result<Option<String>, Obstacle> {
    match canonical(rt, path) {
        Ok(path) => Ok(Some(path.into_string())),
        Err(error) if error.kind() == ErrorKind::OutOfMemory => Err(Obstacle::NoMemory),
        Err(_) => {
            if link_metadata_at(rt, path)?.is_symlink() {
                return Ok(None);
            }
            let mut given = String::new(rt.alloc());
            given.push_str(path)?;
            Ok(Some(given))
        }
    }
}

/// Whether a path leads to the file of a descriptor of this process, as far as the system says.
pub fn is_file_of(rt: &HostRuntime, path: &str, descriptor: u8) -> bool {
    let open = match descriptor {
        0 => "/proc/self/fd/0",
        1 => "/proc/self/fd/1",
        _ => "/proc/self/fd/2",
    };
    match (metadata_at(rt, open), metadata_at(rt, path)) {
        (Ok(open), Ok(found)) => open.dev() == found.dev() && open.ino() == found.ino(),
        _ => false,
    }
}

/// Whether a path leads to a file that is open, and not to another one or to none.
pub fn leads_to(rt: &HostRuntime, path: &str, file: &File) -> io::Result<bool> {
    match metadata_at(rt, path) {
        Ok(found) => {
            let open = metadata_of(file)?;
            Ok(found.dev() == open.dev() && found.ino() == open.ino())
        }
        Err(error) if error.kind() == ErrorKind::NotFound => Ok(false),
        Err(error) => Err(error),
    }
}

/// Whether a file has one of the standard descriptors, which a stream that was closed leaves to it.
pub fn has_standard_descriptor(file: &File) -> bool {
    file.as_raw_fd() <= 2
}

/// Takes the lock of a file, which goes with it.
fn lock(file: &File) -> Result<(), Obstacle> {
    match file.try_lock() {
        Ok(()) => Ok(()),
        Err(TryLockError::WouldBlock) => Err(Obstacle::InUse),
        Err(TryLockError::Error(error)) => Err(Obstacle::from(error)),
    }
}

/// Reads the first bytes of a file into a buffer, and returns how many.
fn read_front(file: &File, buffer: &mut [u8]) -> io::Result<usize>
    ensures { IfOk result (λ n. n ≤ length buffer.new) }
{
    for _ in 0..u32::MAX {
        match file.read_at(buffer, 0) {
            Ok(count) => return Ok(count),
            Err(error) if error.kind() == ErrorKind::Interrupted => {}
            Err(error) => return Err(error),
        }
    }
    Err(io::Error::from(ErrorKind::Interrupted))
}

/// Whether a file begins as this text does, as far as it goes. A crash may have left zeros in place of some bytes.
pub(crate) fn has_front(file: &File, front: &[u8]) -> io::Result<bool> {
    let mut buffer = [0u8; MOST_FRONT];
    let count = read_front(file, &mut buffer)?;
    Ok(
        buffer[..count]
            .iter()
            .zip(front)
            .all(|(byte, wanted)| *byte == 0 || byte == wanted),
    )
}

/// Removes the file of a path if it is this one.
pub(crate) fn remove_if(rt: &HostRuntime, path: &str, file: &File) -> io::Result<()> {
    if leads_to(rt, path, file)? {
        remove(rt, path)?;
    }
    Ok(())
}

/// Removes a file that an earlier process began to put in the place of another, if there is one. Any other file of its path stays.
pub(crate) fn remove_begun(rt: &HostRuntime, path: &str, front: &[u8]) -> Result<(), Obstacle> {
    match link_metadata_at(rt, path) {
        Ok(found) => {
            // To open anything else might wait.
            if !found.is_file() {
                return Err(Obstacle::Foreign);
            }
        }
        Err(error) if error.kind() == ErrorKind::NotFound => return Ok(()),
        Err(error) => return Err(Obstacle::from(error)),
    }
    let file = File::open(rt, path)?;
    lock(&file)?;
    if !has_front(&file, front)? {
        return Err(Obstacle::Foreign);
    }
    Ok(remove_if(rt, path, &file)?)
}

/// Makes a file that isn't there yet, and that nobody else may read.
fn created(rt: &HostRuntime, path: &str) -> io::Result<File> {
    OpenOptions::new()
        .read(true)
        .write(true)
        .create_new(true)
        .mode(0o600)
        .open(rt, path)
}

/// Takes the lock of a new file, and gives it the owner, the group and the mode of another.
fn prepare(file: &File, like: &File) -> Result<(), Obstacle> {
    if has_standard_descriptor(file) {
        return Err(Obstacle::System(io::Error::from(ErrorKind::Other)));
    }
    lock(file)?;
    let (wanted, made) = (metadata_of(like)?, metadata_of(file)?);
    if wanted.uid() != made.uid() || wanted.gid() != made.gid() {
        match set_owner(file, wanted.uid(), wanted.gid()) {
            Ok(()) => {}
            Err(error) => return Err(Obstacle::Owner(error)),
        }
    }
    Ok(file.set_permissions(wanted.permissions())?)
}

/// Makes an empty file at a path, with the owner, the group and the mode of another file, and takes its lock. After an error
/// nothing is left of it.
pub(crate) fn begin(
    rt: &HostRuntime,
    path: &str,
    front: &[u8],
    like: &File,
) -> Result<File, Obstacle> {
    remove_begun(rt, path, front)?;
    let file = created(rt, path)?;
    match prepare(&file, like) {
        Ok(()) => Ok(file),
        Err(obstacle) => {
            let _ = remove_if(rt, path, &file);
            Err(obstacle)
        }
    }
}
