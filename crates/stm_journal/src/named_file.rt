//! A file of the system with its path, so that another file can take its place.
//!
//! The file that is to take the place of `FOLDER/NAME` is `FOLDER/.NAME.stmdesk-new` until then. No journal is opened by such a
//! name (`is_kept_name`). What is there already goes only if nobody has locked it and it has the front of such a file.

ghost use Rattle.stm_journal.specs.Disk.{claims_nothing, lawful_nothing};

use crate::begun::{
    begin, begun_path, has_front, is_kept_name, leads_to, real_path, remove_begun, remove_if,
    sync_folder,
};
use crate::device::Device;
use crate::error::JournalError;
use crate::file::{FileDevice, copy, is_clean};
use crate::obstacle::{Obstacle, Refusal};
use crate::replace::{Replace, ReplaceError};
use crate::system::{self, metadata_of};
use std::fs::File;
use std::io::Write;
use std::{io, mem};

/// A file of the system with its path. As of `FileDevice`, nothing is claimed of it.
pub struct NamedFile<'a> {
    rt: &'a HostRuntime,
    // None if it was opened by a link, and where the link leads isn't known.
    path: Option<String>,
    device: FileDevice,
    // How each file begins that is opened so.
    start: &'static [u8],
    // How each file begins that was begun to take the place of this one.
    front: &'static [u8],
    // Whether it has yet to take the place of another. Until then it is removed with this value.
    is_begun: bool,
    refusal: Option<Refusal>,
    // Whether it was reported why no file took the place of this one, since one did.
    is_reported: bool,
    // Why it couldn't be settled.
    unsettled: Option<io::Error>,
}

impl<'a> NamedFile<'a> {
    /// The device over a file that is open for reading and writing, under its path. Links in the path are followed, so that a
    /// new file takes the place of the file, and not of a link to it. If the real path can't be known, for example since it
    /// isn't UTF-8, it is the given one, unless that is a link. A file that doesn't begin with `start` is left as it is when it is
    /// settled, and a file that is begun to take its place begins with `front`.
    pub fn new(
        rt: &'a HostRuntime,
        path: &str,
        file: File,
        start: &'static [u8],
        front: &'static [u8],
    ) -> Result<Self, JournalError> {
        match real_path(rt, path) {
            Ok(path) => Ok(NamedFile {
                rt,
                path,
                device: FileDevice::new(file),
                start,
                front,
                is_begun: false,
                refusal: None,
                is_reported: false,
                unsettled: None,
            }),
            Err(obstacle) => Err(obstacle.error()),
        }
    }

    /// The error of the system for which it couldn't be settled.
    pub fn unsettled(&self) -> Option<io::Error> {
        self.unsettled
    }

    /// Removes it, under its name, if the name still leads to it.
    pub fn remove(self) -> io::Result<()> {
        match &self.path {
            Some(path) => remove_if(self.rt, path, &self.device.file),
            None => Ok(()),
        }
    }

    /// Settles the file and its folder, and removes a file that an earlier process began to put in its place.
    fn settle_all(&mut self) -> io::Result<()> {
        self.device.file.sync_all()?;
        if let Some(path) = &self.path {
            sync_folder(self.rt, path)?;
            if let Ok(begun) = begun_path(self.rt, path) {
                let _ = remove_begun(self.rt, &begun, self.front);
            }
        }
        if !self.is_in_doubt()? {
            return Ok(());
        }
        match self.copied() {
            Ok(other) => self.take(other),
            // No other file can take its place.
            Err(_) => copy(&self.device.file, &self.device.file),
        }
    }

    /// Whether reads may return bytes of a journal that aren't on the disk, since an earlier process didn't leave the file clean.
    fn is_in_doubt(&self) -> io::Result<bool> {
        let file = &self.device.file;
        let metadata = metadata_of(file)?;
        Ok(metadata.len() > 0 && !is_clean(&metadata) && has_front(file, self.start)?)
    }

    /// A copy that has taken the place of this file under its name.
    fn copied(&self) -> Result<Self, Obstacle> {
        let other = self.begun()?;
        copy(&self.device.file, &other.device.file)?;
        rename(&other, self)?;
        Ok(other)
    }

    /// Goes on with another file, which has taken the place of this one, and syncs the folder.
    fn take(&mut self, mut other: Self) -> io::Result<()> {
        other.is_begun = false;
        mem::swap(&mut self.device, &mut other.device);
        match &self.path {
            Some(path) => sync_folder(self.rt, path),
            None => Ok(()),
        }
    }

    /// Whether its real name is kept for files that are begun to take the place of others.
    pub fn has_kept_name(&self) -> bool {
        match &self.path {
            Some(path) => is_kept_name(path),
            None => false,
        }
    }

    /// Why the last file could not be made beside this one, or could not take its place.
    pub fn refusal(&self) -> Option<&Refusal> {
        self.refusal.as_ref()
    }

    /// Notes what is in the way of a file that is to take the place of this one.
    fn refuse(&mut self, obstacle: Obstacle) -> JournalError {
        let path = match &self.path {
            Some(path) => begun_path(self.rt, path),
            None => Err(Obstacle::NoPath),
        };
        if let Ok(path) = path {
            self.refusal = Some(Refusal { path, obstacle });
        }
        obstacle.error()
    }

    /// Writes to standard error why no file has taken the place of this one: what was in its way, or the error of its own file.
    fn write_report(&self, error: JournalError) -> io::Result<()> {
        let mut errors = self.rt.stderr();
        if let Some(refusal) = &self.refusal {
            return writeln!(errors, "stmdesk: no checkpoint: {refusal}");
        }
        let path = match &self.path {
            Some(path) => begun_path(self.rt, path),
            None => Err(Obstacle::NoPath),
        };
        match path {
            Ok(path) => writeln!(errors, "stmdesk: no checkpoint: {path}: {error}"),
            Err(obstacle) => writeln!(errors, "stmdesk: no checkpoint: {obstacle}"),
        }
    }

    /// Makes the file that is to take the place of this one.
    fn begun(&self) -> Result<Self, Obstacle> {
        let Some(path) = &self.path else {
            return Err(Obstacle::NoPath);
        };
        let path = begun_path(self.rt, path)?;
        let file = begin(self.rt, &path, self.front, &self.device.file)?;
        Ok(NamedFile {
            rt: self.rt,
            path: Some(path),
            device: FileDevice::new(file),
            start: self.start,
            front: self.front,
            is_begun: true,
            refusal: None,
            is_reported: false,
            unsettled: None,
        })
    }
}

impl Drop for NamedFile<'_> {
    fn drop(self) {
        if self.is_begun {
            if let Some(path) = &self.path {
                let _ = remove_if(self.rt, path, &self.device.file);
            }
        } else {
            self.device.leave();
        }
        let NamedFile {
            rt: _,
            path: _,
            device: _,
            start: _,
            front: _,
            is_begun: _,
            refusal: _,
            is_reported: _,
            unsettled: _,
        } = self;
    }
}

/// Whether a file that was begun still has its name, so that it hasn't taken the place of another.
fn is_begun(file: &NamedFile) -> bool {
    match &file.path {
        Some(path) => matches!(leads_to(file.rt, path, &file.device.file), Ok(true)),
        None => true,
    }
}

/// The paths of one file and of another that it is to take the place of, both open. It fails if a path leads to another file
/// meanwhile, which then isn't lost.
fn paths_of<'a>(from: &'a NamedFile, to: &'a NamedFile) -> Result<(&'a str, &'a str), Obstacle> {
    let (Some(from_path), Some(to_path)) = (&from.path, &to.path) else {
        return Err(Obstacle::NoPath);
    };
    if leads_to(to.rt, from_path, &from.device.file)?
        && leads_to(to.rt, to_path, &to.device.file)?
    {
        Ok((from_path, to_path))
    } else {
        Err(Obstacle::Moved)
    }
}

/// Puts one file in the place of another, both open. It fails, and changes nothing, if a path leads to another file meanwhile.
fn rename(from: &NamedFile, to: &NamedFile) -> Result<(), Obstacle> {
    let (from_path, to_path) = paths_of(from, to)?;
    Ok(system::rename(to.rt, from_path, to_path)?)
}

/// Puts one file in the place of another, both open; an error says as well whether nothing has changed.
fn try_rename(from: &NamedFile, to: &NamedFile) -> Result<(), (Obstacle, bool)> {
    let (from_path, to_path) = match paths_of(from, to) {
        Ok(paths) => paths,
        Err(obstacle) => return Err((obstacle, true)),
    };
    match system::rename(to.rt, from_path, to_path) {
        Ok(()) => Ok(()),
        Err(error) => Err((Obstacle::from(error), is_begun(from))),
    }
}

impl Device for NamedFile<'_> {
    ghost disk = { claims_nothing };

    ghost lawful = { lawful_nothing };

    fn len(&self) -> Result<usize, JournalError> {
        self.device.len()
    }

    fn read_at(&self, at: usize, buffer: &mut [u8]) -> Result<usize, JournalError> {
        self.device.read_at(at, buffer)
    }

    fn settle(&mut self) -> Result<(), JournalError> {
        let done = self.settle_all();
        if let Err(error) = done {
            self.unsettled = Some(error);
        }
        self.device.note_synced(done)
    }

    fn write_at(&mut self, at: usize, bytes: &[u8]) -> Result<(), JournalError> {
        self.device.write_at(at, bytes)
    }

    fn cut(&mut self, len: usize) -> Result<(), JournalError> {
        self.device.cut(len)
    }

    fn sync(&mut self) -> Result<(), JournalError> {
        self.device.sync()
    }
}

impl Replace for NamedFile<'_> {
    fn beside(&mut self) -> Result<Self, JournalError> {
        self.refusal = None;
        match self.begun() {
            Ok(file) => Ok(file),
            Err(obstacle) => Err(self.refuse(obstacle)),
        }
    }

    fn put(&mut self, other: Self) -> Result<(), ReplaceError> {
        if let Err((obstacle, is_as_it_was)) = try_rename(&other, self) {
            let error = self.refuse(obstacle);
            return Err(if is_as_it_was {
                ReplaceError::Refused(error)
            } else {
                ReplaceError::Unfinished(error)
            });
        }
        match self.take(other) {
            Ok(()) => {
                self.is_reported = false;
                Ok(())
            }
            Err(error) => {
                let _ = self.device.note_synced(Err(error));
                Err(ReplaceError::Unfinished(self.refuse(Obstacle::from(error))))
            }
        }
    }

    fn report(&mut self, error: JournalError) {
        if !self.is_reported {
            self.is_reported = true;
            let _ = self.write_report(error);
        }
    }
}
