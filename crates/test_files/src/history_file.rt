//! Files of histories over devices in memory.

ghost use Rattle.std.specs.Prelude.{IfOk, IfSome};
ghost use Rattle.stm_history.specs.Loading.{HasText, loaded_start};

use std::alloc::Global;
use std::test::Fail;
use stm_history::{HistoryFault, LoadFault};
use stm_history_file::{OpenFault, Opened, open_history};
use stm_journal::{Memory, SyncMode};
use stm_store::Seed;

/// A history of four lines.
const WHOLE: &[u8] = b"{\"format\":3,\"vars\":1}
{\"init\":1,\"name\":\"x\",\"type\":\"Int\"}
{\"block\":\"readTVar x\",\"client\":0,\"event\":\"submitted\",\"ticket\":1}
{\"client\":0,\"event\":\"cancelled\",\"ticket\":1}
";

/// The same, and the torn end of a batch that was not opened.
const TORN: &[u8] = b"{\"format\":3,\"vars\":1}
{\"init\":1,\"name\":\"x\",\"type\":\"Int\"}
{\"block\":\"readTVar x\",\"client\":0,\"event\":\"submitted\",\"ticket\":1}
{\"client\":0,\"event\":\"cancelled\",\"ticket\":1}
\0\"client\":0,\"event\":\"cancelled\",\"ticket\":1}
";

/// A history from a checkpoint in which a block waits, with no events.
const FROM: &[u8] = b"{\"format\":4,\"next\":2,\"vars\":1,\"waiting\":1}
{\"count\":0,\"init\":1,\"name\":\"x\",\"type\":\"Int\"}
{\"block\":\"readTVar x\",\"ticket\":1}
";

/// The same, and an event.
const ONWARD: &[u8] = b"{\"format\":4,\"next\":2,\"vars\":1,\"waiting\":1}
{\"count\":0,\"init\":1,\"name\":\"x\",\"type\":\"Int\"}
{\"block\":\"readTVar x\",\"ticket\":1}
{\"client\":0,\"event\":\"cancelled\",\"ticket\":1}
";

const OLD: &[u8] = b"{\"format\":2,\"vars\":0}\n";

const ILLEGAL: &[u8] =
    b"{\"format\":3,\"vars\":0}\n{\"client\":0,\"event\":\"cancelled\",\"ticket\":1}\n\0";

const OTHER: &[u8] = b"Dear diary\n";

/// What a crash may leave of a first batch, from its front on.
const BEGUN: &[u8] = b"\0\"format\":3,\"va\0\0\xffs\n{}\n\0";

/// Files that only begin as a first batch may.
const NUMBERS: &[u8] = b"\0\0\0\x01";

const IMAGE: &[u8] = b"\0\0\0\0\0\0\0\0\0\0\0\0\0\0\0\0";

const FISH: &[u8] = b"\0\"fish\":\"shark\"}\n";

fn opened(alloc: Global, bytes: &[u8]) -> Result<Opened<Memory>, Fail>
    ensures { IfOk result (λ r. IfSome r.loaded (λ h. HasText (loaded_start h) h.events.items)) }
{
    let device = Memory::new(alloc, bytes.to_vec(alloc)?);
    Ok(open_history(alloc, Seed::fixed(), device, SyncMode::Full).map_err(|e| e.1)?)
}

#[test]
fn a_torn_history_is_opened(rt: HostRuntime) -> Result<(), Fail> {
    let opened = opened(rt.alloc(), TORN)?;
    assert_eq!(rt; opened.file.journal.device.bytes(), WHOLE);
    assert_eq!(rt; opened.found.dropped, 44usize);
    match &opened.loaded {
        Some(loaded) => {
            assert_eq!(rt; loaded.events.len(), 2usize);
        }
        None => panic!(rt; "nothing was loaded"),
    }
    Ok(())
}

/// Why a file isn't opened, if it is left as it was.
fn fault_of(alloc: Global, bytes: &[u8]) -> Result<Option<OpenFault>, Fail> {
    let device = Memory::new(alloc, bytes.to_vec(alloc)?);
    match open_history(alloc, Seed::fixed(), device, SyncMode::Append) {
        Err((device, fault)) => {
            let same = device.bytes() == bytes;
            Ok(if same { Some(fault) } else { None })
        }
        Ok(_opened) => Ok(None),
    }
}

#[test]
fn other_files_are_left_alone(rt: HostRuntime) -> Result<(), Fail> {
    assert_eq!(rt;
        fault_of(rt.alloc(), OLD)?,
        Some(OpenFault::History(LoadFault::OldFormat(2)))
    );
    assert_eq!(rt;
        fault_of(rt.alloc(), ILLEGAL)?,
        Some(OpenFault::History(LoadFault::Fault(HistoryFault::NotLegal(2))))
    );
    assert_eq!(rt; fault_of(rt.alloc(), OTHER)?, Some(OpenFault::Foreign));
    Ok(())
}

#[test]
fn what_only_begins_with_a_zero_is_left_alone(rt: HostRuntime) -> Result<(), Fail> {
    assert_eq!(rt; fault_of(rt.alloc(), NUMBERS)?, Some(OpenFault::Foreign));
    assert_eq!(rt; fault_of(rt.alloc(), IMAGE)?, Some(OpenFault::Foreign));
    assert_eq!(rt; fault_of(rt.alloc(), FISH)?, Some(OpenFault::Foreign));
    assert_eq!(rt;
        fault_of(rt.alloc(), &WHOLE[..20])?,
        Some(OpenFault::Foreign)
    );
    assert_eq!(rt;
        fault_of(rt.alloc(), &WHOLE[1..])?,
        Some(OpenFault::Foreign)
    );
    Ok(())
}

/// Whether a file is opened with no history, and is empty then.
fn is_begun(alloc: Global, bytes: &[u8]) -> Result<bool, Fail> {
    let opened = opened(alloc, bytes)?;
    Ok(opened.loaded.is_none() && opened.file.journal.device.bytes().is_empty())
}

#[test]
fn what_a_crash_leaves_of_a_first_batch_is_opened(rt: HostRuntime) -> Result<(), Fail> {
    for len in 0..BEGUN.len() {
        assert!(rt; is_begun(rt.alloc(), &BEGUN[..len])?);
    }
    // Any byte may be in place of one that is being written.
    assert!(rt; is_begun(rt.alloc(), b"x")?);
    assert!(rt; is_begun(rt.alloc(), b"\0x")?);
    assert!(rt; is_begun(rt.alloc(), b"\0\"fish")?);
    Ok(())
}

/// A new file after the events of a history were recorded in it.
fn recorded(alloc: Global, sync: SyncMode) -> Result<Memory, Fail> {
    let whole = opened(alloc, WHOLE)?;
    let device = Memory::new(alloc, Vec::new(alloc));
    let mut new = match open_history(alloc, Seed::fixed(), device, sync) {
        Ok(new) => new,
        Err((device, _)) => return Ok(device),
    };
    if let (Some(loaded), None) = (&whole.loaded, &new.loaded) {
        if new.file.format == loaded.format {
            new.file.record(
                alloc,
                &loaded.table,
                loaded.checkpoint.as_ref(),
                &loaded.events,
            )?;
        }
    }
    Ok(new.file.journal.device)
}

#[test]
fn events_are_recorded(rt: HostRuntime) -> Result<(), Fail> {
    let full = recorded(rt.alloc(), SyncMode::Full)?;
    assert_eq!(rt; full.bytes(), WHOLE);
    // What a crash might have left of the first batch.
    assert_eq!(rt; full.past().len(), 5usize);
    for past in full.past() {
        assert!(rt; is_begun(rt.alloc(), past)?);
    }
    let append = recorded(rt.alloc(), SyncMode::Append)?;
    assert_eq!(rt; append.bytes(), WHOLE);
    assert_eq!(rt; append.past().len(), 5usize);
    let never = recorded(rt.alloc(), SyncMode::Never)?;
    assert_eq!(rt; never.bytes(), WHOLE);
    assert_eq!(rt; never.past().len(), 1usize);
    Ok(())
}

/// Lets a history begin again from a checkpoint, and records events after it. Returned are the bytes in between, and the file.
fn begun_again(alloc: Global, sync: SyncMode) -> Result<(Vec<u8>, Memory), Fail> {
    let onward = opened(alloc, ONWARD)?;
    let device = Memory::new(alloc, WHOLE.to_vec(alloc)?);
    let mut old = match open_history(alloc, Seed::fixed(), device, sync) {
        Ok(old) => old,
        Err((device, _)) => return Ok((Vec::new(alloc), device)),
    };
    let Some(loaded) = &onward.loaded else {
        return Ok((Vec::new(alloc), old.file.journal.device));
    };
    let Some(checkpoint) = &loaded.checkpoint else {
        return Ok((Vec::new(alloc), old.file.journal.device));
    };
    old.file
        .begin_anew(alloc, loaded.format, &loaded.table, Some(checkpoint), &[])?;
    let bytes = old.file.journal.device.bytes().to_vec(alloc)?;
    old.file
        .record(alloc, &loaded.table, Some(checkpoint), &loaded.events)?;
    Ok((bytes, old.file.journal.device))
}

#[test]
fn a_history_begins_again(rt: HostRuntime) -> Result<(), Fail> {
    let (bytes, file) = begun_again(rt.alloc(), SyncMode::Full)?;
    assert_eq!(rt; bytes.as_slice(), FROM);
    assert_eq!(rt; file.bytes(), ONWARD);
    // What a crash might have left before and after the new file took the place of the old one.
    match (file.past().get(0), file.past().get(1)) {
        (Some(before), Some(after)) => {
            assert_eq!(rt; before.as_slice(), WHOLE);
            assert_eq!(rt; after.as_slice(), FROM);
        }
        _ => panic!(rt; "the file had no other bytes"),
    }
    Ok(())
}

#[test]
fn a_history_begins_again_in_each_mode(rt: HostRuntime) -> Result<(), Fail> {
    let (bytes, file) = begun_again(rt.alloc(), SyncMode::Append)?;
    assert_eq!(rt; bytes.as_slice(), FROM);
    assert_eq!(rt; file.bytes(), ONWARD);
    let (bytes, file) = begun_again(rt.alloc(), SyncMode::Never)?;
    assert_eq!(rt; bytes.as_slice(), FROM);
    assert_eq!(rt; file.bytes(), ONWARD);
    Ok(())
}

#[test]
fn what_began_again_is_opened(rt: HostRuntime) -> Result<(), Fail> {
    let opened = opened(rt.alloc(), FROM)?;
    assert_eq!(rt; opened.file.journal.device.bytes(), FROM);
    match &opened.loaded {
        Some(loaded) => {
            assert!(rt; loaded.checkpoint.is_some());
            assert_eq!(rt; loaded.events.len(), 0usize);
            assert_eq!(rt; loaded.table.len(), 0usize);
        }
        None => panic!(rt; "nothing was loaded"),
    }
    Ok(())
}
