//! The files of the system.

ghost use Rattle.std.specs.Prelude.{None};

use std::fs::{File, OpenOptions, TryLockError};
use std::io;
use std::io::ErrorKind;
use stm_console::{JournalFiles, OpenError};
use stm_journal::{
    Device, JournalError, NamedFile, has_standard_descriptor, is_file_of, is_kept_name, leads_to,
    link_metadata_at, metadata_at, metadata_of,
};

/// How each history begins.
const FRONT: &[u8] = b"{\"format\":";

/// The files of the system, by their paths. No contract says what they have.
#[derive(Drop)]
pub struct SystemFiles<'a> {
    pub rt: &'a HostRuntime,
}

/// Refuses what isn't a regular file, before it is opened: to open a pipe might wait.
fn check_kind(rt: &HostRuntime, path: &str) -> Result<(), OpenError> {
    match metadata_at(rt, path) {
        Ok(metadata) => {
            if metadata.is_file() {
                Ok(())
            } else if metadata.is_dir() {
                Err(OpenError::Directory)
            } else {
                Err(OpenError::NotRegular)
            }
        }
        Err(error) if error.kind() == ErrorKind::NotFound => {
            match link_metadata_at(rt, path) {
                // A link that leads nowhere.
                Ok(found) if found.is_symlink() => Err(OpenError::NotRegular),
                _ => Ok(()),
            }
        }
        Err(error) => Err(OpenError::from(error)),
    }
}

/// Takes the lock of a file, which goes with the process.
fn lock(file: &File) -> Result<(), OpenError> {
    match file.try_lock() {
        Ok(()) => Ok(()),
        Err(TryLockError::WouldBlock) => Err(OpenError::InUse),
        Err(TryLockError::Error(error)) => Err(OpenError::NoLock(error)),
    }
}

/// How often a file is opened at most if another one takes its place each time.
const ATTEMPTS: usize = 100;

/// Opens a file for reading and writing, and says whether it was made now.
fn open_or_make(rt: &HostRuntime, name: &str) -> io::Result<(File, bool)> {
    for _ in 0..ATTEMPTS {
        match OpenOptions::new().read(true).write(true).open(rt, name) {
            Ok(file) => return Ok((file, false)),
            Err(error) if error.kind() == ErrorKind::NotFound => {}
            Err(error) => return Err(error),
        }
        match OpenOptions::new()
            .read(true)
            .write(true)
            .create_new(true)
            .open(rt, name)
        {
            Ok(file) => return Ok((file, true)),
            // Another process has made it meanwhile.
            Err(error) if error.kind() == ErrorKind::AlreadyExists => {}
            Err(error) => return Err(error),
        }
    }
    Err(io::Error::from(ErrorKind::AlreadyExists))
}

/// Opens a file and takes its lock, and says whether it was made now; none if another file has taken its place meanwhile, as at a
/// checkpoint of another run that then ended.
fn open_locked(rt: &HostRuntime, name: &str) -> Result<Option<(File, bool)>, OpenError> {
    check_kind(rt, name)?;
    let (file, is_made) = open_or_make(rt, name)?;
    if has_standard_descriptor(&file) {
        return Err(OpenError::NoStreams);
    }
    // Something else may have taken its place.
    if !metadata_of(&file)?.is_file() {
        return Err(OpenError::NotRegular);
    }
    lock(&file)?;
    if leads_to(rt, name, &file)? {
        Ok(Some((file, is_made)))
    } else {
        Ok(None)
    }
}

/// Refuses the file of a standard stream, which something else reads or writes.
fn check_streams(rt: &HostRuntime, name: &str) -> Result<(), OpenError> {
    if is_file_of(rt, name, 2) {
        Err(OpenError::IsErrors)
    } else if is_file_of(rt, name, 1) {
        Err(OpenError::IsOutput)
    } else if is_file_of(rt, name, 0) {
        Err(OpenError::IsInput)
    } else {
        Ok(())
    }
}

/// What the error of a journal means for opening it.
fn open_error(error: JournalError) -> OpenError {
    match error {
        JournalError::NoMemory => OpenError::NoMemory,
        JournalError::NoSpace => OpenError::System(io::Error::from(ErrorKind::StorageFull)),
        _ => OpenError::System(io::Error::from(ErrorKind::Other)),
    }
}

/// Why a file can't be settled: the error of the system if it is known.
fn settle_error(file: &NamedFile, error: JournalError) -> OpenError {
    match file.unsettled() {
        Some(cause) => OpenError::from(cause),
        None => open_error(error),
    }
}

/// Refuses a file whose name is kept, and prepares any other for its first read. One that was made now is removed if that fails.
fn prepared(mut file: NamedFile<'_>, is_made: bool) -> Result<NamedFile<'_>, OpenError> {
    if file.has_kept_name() {
        return Err(OpenError::KeptName);
    }
    match file.settle() {
        Ok(()) => Ok(file),
        Err(error) => {
            let why = settle_error(&file, error);
            if is_made {
                let _ = file.remove();
            }
            Err(why)
        }
    }
}

impl<'a> JournalFiles for SystemFiles<'a> {
    type File = NamedFile<'a>;

    ghost contents = { λ files name. None };

    fn open(&self, name: &str) -> Result<NamedFile<'a>, OpenError> {
        if is_kept_name(name) {
            return Err(OpenError::KeptName);
        }
        check_streams(self.rt, name)?;
        for _ in 0..ATTEMPTS {
            if let Some((file, is_made)) = open_locked(self.rt, name)? {
                return match NamedFile::new(self.rt, name, file, FRONT, FRONT) {
                    Ok(file) => prepared(file, is_made),
                    Err(error) => Err(open_error(error)),
                };
            }
        }
        Err(OpenError::InUse)
    }
}
