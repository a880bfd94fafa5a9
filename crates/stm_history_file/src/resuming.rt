//! A file of a history, opened again.

ghost use Rattle.std.specs.Prelude.{◌≡◌, ◌<◌, ◌+◌, ◌^◌, None, Some, IsTrue, IfOk, IfErr, IfSome, length, take, drop};
ghost use Rattle.stm_event_lines.specs.Lines.{table_format};
ghost use Rattle.stm_history.specs.Loading.{ReportsLoadFault, IsResumable};
ghost use Rattle.stm_history_text.specs.Starts.{BlocksAreOfText};
ghost use Rattle.stm_history.specs.declared.loading.Loaded.{Loaded as AnyLoaded};
ghost use Rattle.stm_journal.specs.Disk.{Reaches, FailsOnlyByReads};
ghost use Rattle.stm_journal.specs.Journal.{HasFound};
ghost use Rattle.stm_journal.specs.Text.{recovered};
ghost use Rattle.stm_history_file.specs.Durable.{OpensAs, FailsToOpen, LoadsFront, IsFormatFor, ReportsOpenFault, IsForeign, JudgesUnless};

use crate::recording::{HISTORY_FRONT, HistoryFile};
use std::alloc::Global;
use stm_event_lines::formats::TABLE_FORMAT;
use stm_history::{LoadFault, Loaded, load_history};
use stm_journal::{Device, FileReader, Found, Journal, JournalError, SyncMode, inspect, repair};
use stm_store::Seed;

/// Why a file isn't opened.
#[derive(Clone, Copy, Debug, PartialEq, Eq, Drop)]
pub enum OpenFault {
    /// The disk failed, memory ran out, or more than a batch follows the whole lines.
    Journal(JournalError),
    /// Its whole lines are no legal history of format 3, 4 or 5.
    History(LoadFault),
    /// It has no line of a history, and doesn't begin as a first batch does: it is some other file.
    Foreign,
}

/// A file that was opened: the file, the history that it has, if it has one, and what was found in it.
#[derive(Drop)]
pub struct Opened<D: Device> {
    pub file: HistoryFile<D>,
    pub loaded: Option<Loaded>,
    pub found: Found,
}

/// Loads the first `len` bytes of a file.
fn load_front<D: Device>(
    alloc: Global,
    seed: Seed,
    device: &D,
    len: usize,
) -> Result<Option<Loaded>, LoadFault>
    requires { Reaches D.disk device.now len }
    ensures resumable { IfOk result (λ o. IfSome o IsResumable) }
    ensures blocks { IfOk result (λ o. IfSome o (λ h. IfSome h.checkpoint BlocksAreOfText)) }
    ensures format { IfOk result (λ o. IfSome o (λ h. IsFormatFor h.format h.checkpoint h.events.items)) }
    ensures text { IsTrue D.disk.is_honest → IfOk result (LoadsFront (take len (D.disk.seen device.now))) }
    ensures fault { IsTrue D.disk.is_honest → IfErr result (λ e. ReportsLoadFault e (take len (D.disk.seen device.now))) }
{
    if len == 0 {
        return Ok(None);
    }
    let mut reader = FileReader::new(device, len);
    match load_history(alloc, seed, &mut reader) {
        Ok(loaded) => Ok(Some(loaded)),
        Err(fault) => Err(fault),
    }
}

/// Whether a file has these bytes at a place.
fn has_at<D: Device>(device: &D, at: usize, bytes: &[u8]) -> Result<bool, JournalError>
    requires within { Reaches D.disk device.now at }
    requires small { at + length bytes.now < 2 ^ 63 }
    ensures yes { IsTrue D.disk.is_honest → IfOk result (λ b. IsTrue b → take (length bytes.now) (drop at (D.disk.seen device.now)) ≡ bytes.now) }
    ensures no { IsTrue D.disk.is_honest → IfOk result (λ b. take (length bytes.now) (drop at (D.disk.seen device.now)) ≡ bytes.now → IsTrue b) }
    ensures fault { FailsOnlyByReads D.disk device.now result }
{
    let mut found = [0u8; 1];
    for (index, byte) in bytes.iter().enumerate() {
        let count = device.read_at(at + index, &mut found)?;
        if count == 0 || found[0] != *byte {
            return Ok(false);
        }
    }
    Ok(true)
}

/// Whether the file is some other one.
fn is_foreign<D: Device>(device: &D, found: Found) -> Result<bool, JournalError>
    requires { HasFound D.disk device.now found }
    ensures yes { IsTrue D.disk.is_honest → IfOk result (λ b. IsTrue b → IsForeign (D.disk.seen device.now)) }
    ensures no { IsTrue D.disk.is_honest → IfOk result (λ b. IsForeign (D.disk.seen device.now) → IsTrue b) }
    ensures fault { FailsOnlyByReads D.disk device.now result }
{
    if found.kept > 0 || found.dropped < 2 {
        return Ok(false);
    }
    if !has_at(device, 0, b"\0")? {
        return Ok(true);
    }
    if found.dropped < 3 {
        return Ok(false);
    }
    if !has_at(device, 1, &HISTORY_FRONT[1..2])? {
        return Ok(true);
    }
    if found.dropped <= HISTORY_FRONT.len() {
        return Ok(false);
    }
    Ok(!has_at(device, 2, &HISTORY_FRONT[2..])?)
}

/// Judges a file, which it leaves as it is: what is found in it, and the history whose text its whole lines are.
fn judge<D: Device>(
    alloc: Global,
    seed: Seed,
    device: &D,
) -> Result<(Found, Option<Loaded>), OpenFault>
    ensures found { IfOk result (λ r. HasFound D.disk device.now r.0) }
    ensures resumable { IfOk result (λ r. IfSome r.1 IsResumable) }
    ensures blocks { IfOk result (λ r. IfSome r.1 (λ h. IfSome h.checkpoint BlocksAreOfText)) }
    ensures format { IfOk result (λ r. IfSome r.1 (λ h. IsFormatFor h.format h.checkpoint h.events.items)) }
    ensures text { IsTrue D.disk.is_honest → IfOk result (λ r. LoadsFront (recovered (D.disk.seen device.now)) r.1) }
    ensures own { IsTrue D.disk.is_honest → IfOk result (λ _. IsForeign (D.disk.seen device.now) → ⊥) }
    ensures reported { IsTrue D.disk.is_honest → IfErr result (λ e. ReportsOpenFault e (D.disk.seen device.now)) }
    ensures fault { IfErr result (JudgesUnless D.disk device.now) }
{
    let found = match inspect(device) {
        Ok(found) => found,
        Err(error) => return Err(OpenFault::Journal(error)),
    };
    match is_foreign(device, found) {
        Ok(false) => {}
        Ok(true) => return Err(OpenFault::Foreign),
        Err(error) => return Err(OpenFault::Journal(error)),
    }
    match load_front(alloc, seed, device, found.kept) {
        Ok(loaded) => Ok((found, loaded)),
        Err(fault) => Err(OpenFault::History(fault)),
    }
}

/// The format of a file of which this was loaded: of one without a history, the format of tables.
fn format_of(loaded: &Option<Loaded>) -> u32
    ensures none { loaded.now ≡ None → result ≡ table_format }
    ensures some { (h : AnyLoaded) → loaded.now ≡ Some h → result ≡ h.format }
{
    match loaded {
        Some(loaded) => loaded.format,
        None => TABLE_FORMAT,
    }
}

/// Repairs a file, of whose whole lines this was loaded.
fn repaired<D: Device>(
    mut device: D,
    sync: SyncMode,
    found: Found,
    loaded: Option<Loaded>,
) -> Result<Opened<D>, (D, OpenFault)>
    requires found { HasFound D.disk device found }
    requires resumable { IfSome loaded IsResumable }
    requires blocks { IfSome loaded (λ h. IfSome h.checkpoint BlocksAreOfText) }
    requires text { IsTrue D.disk.is_honest → LoadsFront (recovered (D.disk.seen device)) loaded }
    requires format { IfSome loaded (λ h. IsFormatFor h.format h.checkpoint h.events.items) }
    requires own { IsTrue D.disk.is_honest → IsForeign (D.disk.seen device) → ⊥ }
    ensures opened { IfOk result (OpensAs D.disk device sync) }
    ensures failed { IfErr result (λ e. FailsToOpen D.disk device e.0 e.1) }
{
    match repair(&mut device, found) {
        Ok(()) => {
            let begun = loaded.is_some();
            let journal = Journal {
                device,
                len: found.kept,
                sync,
            };
            let format = format_of(&loaded);
            let file = HistoryFile {
                journal,
                begun,
                format,
            };
            Ok(Opened {
                file,
                loaded,
                found,
            })
        }
        Err(error) => Err((device, OpenFault::Journal(error))),
    }
}

/// Opens a file that a crash may have left: loads the history whose text its whole lines are, and cuts what comes after them.
/// A crash may come at any moment of it. After a sync that failed, settle the device first. The names of variables are looked up
/// under the seed.
///
/// It judges before it cuts: the file's length, whether it is another file, its lines and their format, and whether its torn end is
/// longer than 1 MiB. An error returns the device; the file then has the same lines, and is as it was if it was judged.
pub fn open_history<D: Device>(
    alloc: Global,
    seed: Seed,
    device: D,
    sync: SyncMode,
) -> Result<Opened<D>, (D, OpenFault)>
    // What was loaded, and what the file has then.
    ensures opened { IfOk result (OpensAs D.disk device sync) }
    // Why the file isn't opened, and that it has the same lines.
    ensures failed { IfErr result (λ e. FailsToOpen D.disk device e.0 e.1) }
{
    match judge(alloc, seed, &device) {
        Ok((found, loaded)) => repaired(device, sync, found, loaded),
        Err(fault) => Err((device, fault)),
    }
}
