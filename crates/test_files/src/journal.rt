//! Journals over devices in memory, and over files of the system.

use crate::disk::Disk;
use std::fs::{File, OpenOptions};
use std::io::{Read, Write};
use std::test::Fail;
use std::{env, fs};
use stm_journal::{
    Device, FileDevice, FileReader, Journal, JournalError, MAX_BATCH, Memory, NamedFile, Obstacle,
    ReplaceError, SyncMode, inspect, is_kept_name, leads_to,
};

const ONE: &[u8] = b"{\"a\":1}\n";

const THREE: &[u8] = b"{\"a\":1}\n{\"b\":2}\n{\"c\":3}\n";

/// The same three lines, before they are opened.
const GATED: &[u8] = b"\0\"a\":1}\n{\"b\":2}\n{\"c\":3}\n";

/// How each file begins.
const START: &[u8] = b"{\"";

/// How files begin that are to take the place of others.
const FRONT: &[u8] = b"{\"c\":";

const CHANGED: &[u8] = b"{\"c\":3}\n{\"a\":1}\n";

/// What a file has after it was opened, and how many bytes were dropped.
fn opened(rt: &HostRuntime, bytes: &[u8]) -> Result<(Journal<Memory>, usize), Fail> {
    let alloc = rt.alloc();
    let device = Memory::new(alloc, bytes.to_vec(alloc)?);
    let (journal, found) = Journal::open(device, SyncMode::Full).map_err(|e| e.1)?;
    Ok((journal, found.dropped))
}

#[test]
fn a_torn_end_is_dropped(rt: HostRuntime) -> Result<(), Fail> {
    let (whole, none) = opened(&rt, b"{\"a\":1}\n")?;
    assert_eq!(rt; whole.device.bytes(), ONE);
    assert_eq!(rt; none, 0usize);
    let (closed, dropped) = opened(&rt, b"{\"a\":1}\n\0\"b\":2}\n{\"c\":3}\n")?;
    assert_eq!(rt; closed.device.bytes(), ONE);
    assert_eq!(rt; dropped, 16usize);
    let (begun, dropped) = opened(&rt, b"{\"a\":1}\n{\"b\":2}")?;
    assert_eq!(rt; begun.device.bytes(), ONE);
    assert_eq!(rt; dropped, 7usize);
    Ok(())
}

#[test]
fn too_long_an_end_is_refused(rt: HostRuntime) -> Result<(), Fail> {
    let alloc = rt.alloc();
    let mut bytes = Vec::new(alloc);
    bytes.extend_from_slice(ONE)?;
    bytes.resize(ONE.len() + MAX_BATCH, 0u8)?;
    let most = bytes.to_vec(alloc)?;
    bytes.push(0u8)?;
    let long = Journal::open(Memory::new(alloc, bytes), SyncMode::Full);
    assert!(rt; long.map_err(|e| e.1).err() == Some(JournalError::TornTooLong));
    let (kept, dropped) = opened(&rt, &most)?;
    assert_eq!(rt; kept.device.bytes(), ONE);
    assert_eq!(rt; dropped, MAX_BATCH);
    Ok(())
}

/// A file that two batches and an empty one were added to.
fn added(rt: &HostRuntime, sync: SyncMode) -> Result<Journal<Memory>, Fail> {
    let alloc = rt.alloc();
    let device = Memory::new(alloc, Vec::new(alloc));
    let (mut journal, _) = Journal::open(device, sync).map_err(|e| e.1)?;
    journal.append(ONE)?;
    journal.append(b"")?;
    journal.append(&THREE[ONE.len()..])?;
    Ok(journal)
}

#[test]
fn batches_are_added(rt: HostRuntime) -> Result<(), Fail> {
    let synced = added(&rt, SyncMode::Append)?;
    assert_eq!(rt; synced.device.bytes(), THREE);
    let left = added(&rt, SyncMode::Never)?;
    assert_eq!(rt; left.device.bytes(), THREE);
    let sector = added(&rt, SyncMode::Sector)?;
    assert_eq!(rt; sector.device.bytes(), THREE);
    let gated = added(&rt, SyncMode::Full)?;
    assert_eq!(rt; gated.device.bytes(), THREE);
    assert_eq!(rt; gated.device.past().len(), 6usize);
    for past in gated.device.past() {
        let (again, _) = opened(&rt, past)?;
        let text = again.device.bytes();
        assert!(rt; text.is_empty() || text == ONE || text == THREE);
    }
    Ok(())
}

#[test]
fn a_first_batch_is_begun_by_its_front(rt: HostRuntime) -> Result<(), Fail> {
    let alloc = rt.alloc();
    let device = Memory::new(alloc, Vec::new(alloc));
    let (mut journal, _) = Journal::open(device, SyncMode::Append).map_err(|e| e.1)?;
    journal.append_first(THREE, 5)?;
    assert_eq!(rt; journal.device.bytes(), THREE);
    let past = journal.device.past();
    assert_eq!(rt; past.len(), 5usize);
    assert_eq!(rt; past[0].len(), 0usize);
    assert_eq!(rt; past[1].as_slice(), &GATED[..1]);
    assert_eq!(rt; past[2].as_slice(), &GATED[..2]);
    assert_eq!(rt; past[3].as_slice(), &GATED[..5]);
    assert_eq!(rt; past[4].as_slice(), GATED);
    Ok(())
}

#[test]
fn a_file_is_read_in_parts(rt: HostRuntime) -> Result<(), Fail> {
    let alloc = rt.alloc();
    let device = Memory::new(alloc, b"{\"a\":1}\n\0".to_vec(alloc)?);
    let found = inspect(&device)?;
    let mut text = Vec::new(alloc);
    FileReader::new(&device, found.kept).read_to_end(&mut text)?;
    assert_eq!(rt; text.as_slice(), ONE);
    Ok(())
}

#[test]
fn a_file_of_the_system_is_a_device(rt: HostRuntime) -> Result<(), Fail> {
    let alloc = rt.alloc();
    let mut path = env::temp_dir(&rt)?;
    path.push("stm_journal_test")?;
    fs::write(&rt, &path, b"{\"a\":1}\n\0{\"b\":2}\n")?;
    let file = OpenOptions::new().read(true).write(true).open(&rt, &path)?;
    let opening = Journal::open(FileDevice::new(file), SyncMode::Full);
    let (mut journal, found) = opening.map_err(|e| e.1)?;
    journal.append(b"{\"b\":2}\n")?;
    journal.sync = SyncMode::Append;
    journal.append(b"{\"c\":3}\n")?;
    let bytes = fs::read(&rt, &path)?;
    fs::remove_file(&rt, &path)?;
    assert_eq!(rt; found.dropped, 9usize);
    assert_eq!(rt; bytes.as_slice(), THREE);
    Ok(())
}

/// A journal with two lines, on a disk of this size.
fn journal_of(rt: &HostRuntime, room: usize) -> Result<Journal<Disk>, Fail> {
    let alloc = rt.alloc();
    let file = Memory::new(alloc, Vec::new(alloc));
    let (mut journal, _) = Journal::open(Disk { file, room }, SyncMode::Append).map_err(|e| e.1)?;
    journal.append(ONE)?;
    journal.append(b"{\"b\":2}\n")?;
    Ok(journal)
}

#[test]
fn a_new_file_takes_the_place(rt: HostRuntime) -> Result<(), Fail> {
    let mut journal = journal_of(&rt, 1_000)?;
    let mut new = journal.new_file(rt.alloc())?;
    new.write_all(b"{\"c\":3}")?;
    new.write_all(b"\n")?;
    let (device, len) = new.finish()?;
    assert_eq!(rt; len, 8usize);
    assert_eq!(rt; journal.device.file.past().len(), 2usize);
    journal.replace(device, len)?;
    journal.append(ONE)?;
    assert_eq!(rt; journal.device.file.bytes(), CHANGED);
    // What a crash might have left, before the replacement and after it.
    let past = journal.device.file.past();
    assert_eq!(rt; past.len(), 4usize);
    assert_eq!(rt; past[2].as_slice(), &THREE[..16]);
    assert_eq!(rt; past[3].as_slice(), &THREE[16..]);
    Ok(())
}

#[test]
fn a_new_file_that_fails_leaves_the_old_one(rt: HostRuntime) -> Result<(), Fail> {
    let alloc = rt.alloc();
    let mut journal = journal_of(&rt, 70_000)?;
    let mut new = journal.new_file(alloc)?;
    let mut line = Vec::new(alloc);
    line.resize(40_000, b'x')?;
    new.write_all(&line)?;
    new.write_all(&line)?;
    assert!(rt; new.fault().is_none());
    assert!(rt; new.flush().is_err());
    assert!(rt; new.write(b"\n").is_err());
    assert!(rt; new.fault() == Some(JournalError::NoSpace));
    assert!(rt; new.finish().err() == Some(JournalError::NoSpace));
    journal.append(b"{\"c\":3}\n")?;
    assert_eq!(rt; journal.device.file.bytes(), THREE);
    Ok(())
}

#[test]
fn a_long_file_is_written_in_pieces(rt: HostRuntime) -> Result<(), Fail> {
    let alloc = rt.alloc();
    let mut journal = journal_of(&rt, 300_000)?;
    let mut new = journal.new_file(alloc)?;
    let mut line = Vec::new(alloc);
    line.resize(50_000, b'x')?;
    for _ in 0..4 {
        new.write_all(&line)?;
    }
    let (device, len) = new.finish()?;
    assert_eq!(rt; len, 200_000usize);
    assert_eq!(rt; device.file.bytes().len(), 200_000usize);
    let past = device.file.past();
    assert_eq!(rt; past.len(), 4usize);
    assert_eq!(rt; past[3].len(), 196_608usize);
    Ok(())
}

/// The journal of a file.
fn begun<'a>(
    device: NamedFile<'a>,
    sync: SyncMode,
) -> Result<Journal<NamedFile<'a>>, JournalError> {
    match Journal::open(device, sync) {
        Ok((journal, _)) => Ok(journal),
        Err((_, error)) => Err(error),
    }
}

#[test]
fn a_file_of_the_system_is_replaced(rt: HostRuntime) -> Result<(), Fail> {
    let alloc = rt.alloc();
    let mut path = env::temp_dir(&rt)?;
    path.push("stm_journal_replaced")?;
    let mut beside = env::temp_dir(&rt)?;
    beside.push(".stm_journal_replaced.stmdesk-new")?;
    fs::write(&rt, &path, THREE)?;
    // An earlier run left this, of which a crash made a byte zero.
    fs::write(&rt, &beside, b"{\0c\":3}\n{")?;
    let file = OpenOptions::new().read(true).write(true).open(&rt, &path)?;
    let mut device = NamedFile::new(&rt, path.as_str(), file, START, FRONT)?;
    device.settle()?;
    assert!(rt; !fs::exists(&rt, &beside)?);
    let mut journal = begun(device, SyncMode::Append)?;
    let mut new = journal.new_file(alloc)?;
    new.write_all(&THREE[16..])?;
    let (device, len) = new.finish()?;
    assert!(rt;
        leads_to(
            &rt,
            beside.as_str(),
            &OpenOptions::new().read(true).open(&rt, &beside)?
        )?
    );
    assert!(rt;
        !leads_to(
            &rt,
            path.as_str(),
            &OpenOptions::new().read(true).open(&rt, &beside)?
        )?
    );
    let old = fs::read(&rt, &path)?;
    assert_eq!(rt; old.as_slice(), THREE);
    let made = fs::read(&rt, &beside)?;
    assert_eq!(rt; made.as_slice(), &THREE[16..]);
    journal.replace(device, len)?;
    assert!(rt; !fs::exists(&rt, &beside)?);
    journal.append(ONE)?;
    let bytes = fs::read(&rt, &path)?;
    fs::remove_file(&rt, &path)?;
    assert_eq!(rt; bytes.as_slice(), CHANGED);
    Ok(())
}

/// What was in the way of the last file that was to take the place of a journal's.
fn refused(journal: &Journal<NamedFile>) -> Option<Obstacle> {
    match journal.device.refusal() {
        Some(refusal) => Some(refusal.obstacle),
        None => None,
    }
}

#[test]
fn a_file_of_another_kind_is_kept(rt: HostRuntime) -> Result<(), Fail> {
    let mut path = env::temp_dir(&rt)?;
    path.push("stm_journal_beside")?;
    let mut beside = env::temp_dir(&rt)?;
    beside.push(".stm_journal_beside.stmdesk-new")?;
    fs::write(&rt, &path, ONE)?;
    fs::write(&rt, &beside, ONE)?;
    let file = OpenOptions::new().read(true).write(true).open(&rt, &path)?;
    let mut device = NamedFile::new(&rt, path.as_str(), file, START, FRONT)?;
    device.settle()?;
    let mut journal = begun(device, SyncMode::Full)?;
    let made = journal.new_file(rt.alloc());
    let foreign = fs::read(&rt, &beside)?;
    // A file of the right kind that another run has locked stays, too.
    fs::write(&rt, &beside, CHANGED)?;
    let locked = OpenOptions::new().read(true).open(&rt, &beside)?;
    locked.lock()?;
    let again = journal.new_file(rt.alloc());
    let held = fs::read(&rt, &beside)?;
    fs::remove_file(&rt, &beside)?;
    fs::remove_file(&rt, &path)?;
    assert!(rt; made.err() == Some(JournalError::Failed));
    assert!(rt; again.err() == Some(JournalError::Failed));
    assert!(rt; matches!(refused(&journal), Some(Obstacle::InUse)));
    assert_eq!(rt; foreign.as_slice(), ONE);
    assert_eq!(rt; held.as_slice(), CHANGED);
    Ok(())
}

#[test]
fn names_are_kept_for_begun_files(rt: HostRuntime) {
    assert!(rt; is_kept_name("/a/.b.stmdesk-new"));
    assert!(rt; !is_kept_name("/a/b.stmdesk-new"));
    assert!(rt; !is_kept_name(".b.new"));
}

#[test]
fn a_file_that_is_another_one_is_kept(rt: HostRuntime) -> Result<(), Fail> {
    let alloc = rt.alloc();
    let mut path = env::temp_dir(&rt)?;
    path.push("stm_journal_moved")?;
    let mut moved = env::temp_dir(&rt)?;
    moved.push("stm_journal_moved_away")?;
    fs::write(&rt, &path, ONE)?;
    let file = OpenOptions::new().read(true).write(true).open(&rt, &path)?;
    let device = NamedFile::new(&rt, path.as_str(), file, START, FRONT)?;
    let mut journal = begun(device, SyncMode::Append)?;
    let mut new = journal.new_file(alloc)?;
    new.write_all(&THREE[16..])?;
    let (device, len) = new.finish()?;
    fs::rename(&rt, &path, &moved)?;
    fs::write(&rt, &path, THREE)?;
    let replaced = journal.replace(device, len);
    let bytes = fs::read(&rt, &path)?;
    let old = fs::read(&rt, &moved)?;
    let mut beside = env::temp_dir(&rt)?;
    beside.push(".stm_journal_moved.stmdesk-new")?;
    let is_left = fs::exists(&rt, &beside)?;
    fs::remove_file(&rt, &path)?;
    fs::remove_file(&rt, &moved)?;
    assert!(rt; replaced.err() == Some(ReplaceError::Refused(JournalError::Failed)));
    assert!(rt; matches!(refused(&journal), Some(Obstacle::Moved)));
    assert!(rt; !is_left);
    assert_eq!(rt; bytes.as_slice(), THREE);
    assert_eq!(rt; old.as_slice(), ONE);
    Ok(())
}

/// A file of the system under its path, settled as at a start.
fn settled<'a>(rt: &'a HostRuntime, path: &str) -> Result<NamedFile<'a>, Fail> {
    let file = OpenOptions::new().read(true).write(true).open(rt, path)?;
    let mut device = NamedFile::new(rt, path, file, START, FRONT)?;
    device.settle()?;
    Ok(device)
}

/// Whether a path still leads to a file; none if other bytes are there.
fn found(rt: &HostRuntime, path: &str, file: &File, bytes: &[u8]) -> Result<Option<bool>, Fail> {
    if fs::read(rt, path)?.as_slice() == bytes {
        Ok(Some(leads_to(rt, path, file)?))
    } else {
        Ok(None)
    }
}

#[test]
fn a_file_that_was_not_left_clean_is_copied(rt: HostRuntime) -> Result<(), Fail> {
    let mut path = env::temp_dir(&rt)?;
    path.push("stm_journal_clean")?;
    let path = path.as_str();
    fs::write(&rt, path, ONE)?;
    let first = File::open(&rt, path)?;
    let mut device = settled(&rt, path)?;
    assert!(rt; found(&rt, path, &first, ONE)? == Some(false));
    // What was synced is left clean.
    device.write_at(ONE.len(), &THREE[8..16])?;
    device.sync()?;
    drop(device);
    let second = File::open(&rt, path)?;
    drop(settled(&rt, path)?);
    assert!(rt; found(&rt, path, &second, &THREE[..16])? == Some(true));
    // What was written and not synced isn't.
    let mut device = settled(&rt, path)?;
    device.write_at(16, &THREE[16..])?;
    drop(device);
    drop(settled(&rt, path)?);
    assert!(rt; found(&rt, path, &second, THREE)? == Some(false));
    // Nor is what somebody else wrote. It is none of ours.
    fs::write(&rt, path, b"[1]")?;
    let other = File::open(&rt, path)?;
    drop(settled(&rt, path)?);
    assert!(rt; found(&rt, path, &other, b"[1]")? == Some(true));
    fs::remove_file(&rt, path)?;
    Ok(())
}

#[test]
fn a_file_that_can_not_be_copied_is_written_over_itself(rt: HostRuntime) -> Result<(), Fail> {
    let mut path = env::temp_dir(&rt)?;
    path.push("stm_journal_over_itself")?;
    let mut beside = env::temp_dir(&rt)?;
    beside.push(".stm_journal_over_itself.stmdesk-new")?;
    let path = path.as_str();
    // More than is copied at a time.
    let mut long = Vec::new(rt.alloc());
    for _ in 0..2_000 {
        long.extend_from_slice(THREE)?;
    }
    fs::write(&rt, path, &long)?;
    fs::write(&rt, &beside, b"[1]")?;
    let file = File::open(&rt, path)?;
    drop(settled(&rt, path)?);
    assert!(rt; found(&rt, path, &file, &long)? == Some(true));
    fs::remove_file(&rt, &beside)?;
    drop(settled(&rt, path)?);
    assert!(rt; found(&rt, path, &file, &long)? == Some(true));
    fs::write(&rt, path, &long)?;
    drop(settled(&rt, path)?);
    assert!(rt; found(&rt, path, &file, &long)? == Some(false));
    fs::remove_file(&rt, path)?;
    Ok(())
}
