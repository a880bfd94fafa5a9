//! Runs that keep their history, over devices in memory.

ghost use Rattle.std.specs.Prelude.{◌≤◌};
ghost use Rattle.stm_terms.specs.Limits.{max_events};

use std::alloc::Global;
use std::random::RandomSource;
use std::test::Fail;
use std::thread::Threads;
use stm_history_file::{Opened, open_history};
use stm_journal::{Device, JournalError, Memory, Replace, ReplaceError, SyncMode};
use stm_journaled_run::{DurableFault, run_durable};
use stm_options::Options;
use stm_store::Seed;

/// More events than any of these runs adds.
const MANY: u32 = 1_000;

const FIRST: &[u8] = b"tvar x : Int = 1\nsubmit readTVar x\neval\nhistory\n";

const FIRST_OUT: &[u8] = b"tvar #0 x
ticket 1
evaluated 1
{\"format\":3,\"vars\":1}
{\"init\":1,\"name\":\"x\",\"type\":\"Int\"}
{\"block\":\"readTVar x\",\"client\":0,\"event\":\"submitted\",\"ticket\":1}
{\"client\":0,\"event\":\"installed\",\"ticket\":1,\"verdict\":{\"commits\":{\"news\":[],\"result\":1,\"writes\":[]}}}
";

const FIRST_FILE: &[u8] = b"{\"format\":3,\"vars\":1}
{\"init\":1,\"name\":\"x\",\"type\":\"Int\"}
{\"block\":\"readTVar x\",\"client\":0,\"event\":\"submitted\",\"ticket\":1}
{\"client\":0,\"event\":\"installed\",\"ticket\":1,\"verdict\":{\"commits\":{\"news\":[],\"result\":1,\"writes\":[]}}}
";

/// The same, and the torn end of a batch that was not opened.
const TORN_FILE: &[u8] = b"{\"format\":3,\"vars\":1}
{\"init\":1,\"name\":\"x\",\"type\":\"Int\"}
{\"block\":\"readTVar x\",\"client\":0,\"event\":\"submitted\",\"ticket\":1}
\0\"client\":0,\"event\":\"cancelled\",\"ticket\":1}
";

/// The same without `history`, but with a checkpoint.
const CHECKPOINT: &[u8] = b"tvar x : Int = 1\nsubmit readTVar x\neval\ncheckpoint\n";

/// The lines of that checkpoint.
const FROM: &[u8] = b"{\"format\":4,\"next\":2,\"vars\":1,\"waiting\":1}
{\"count\":0,\"init\":1,\"name\":\"x\",\"type\":\"Int\"}
{\"block\":\"readTVar x\",\"reads\":[[0,1]],\"stale\":false,\"ticket\":1,\"verdict\":{\"commits\":{\"news\":[],\"result\":1,\"writes\":[]}}}
";

/// The same, and an event.
const ONWARD: &[u8] = b"{\"format\":4,\"next\":2,\"vars\":1,\"waiting\":1}
{\"count\":0,\"init\":1,\"name\":\"x\",\"type\":\"Int\"}
{\"block\":\"readTVar x\",\"reads\":[[0,1]],\"stale\":false,\"ticket\":1,\"verdict\":{\"commits\":{\"news\":[],\"result\":1,\"writes\":[]}}}
{\"client\":0,\"event\":\"finished\",\"first_new\":1,\"stale\":[],\"ticket\":1,\"verdict\":{\"commits\":{\"news\":[],\"result\":1,\"writes\":[]}}}
";

/// What a run over a file with these bytes writes, and what the file then has. There is a checkpoint from this many events on.
fn run_over<T: Threads + RandomSource + Sync>(
    rt: &T,
    alloc: Global,
    bytes: &[u8],
    input: &[u8],
    every: u32,
) -> Result<(Vec<u8>, Vec<u8>), Fail>
    requires { (1 ≤ every) × (every ≤ max_events) }
{
    let device = Memory::new(alloc, bytes.to_vec(alloc)?);
    let Opened {
        mut file,
        loaded,
        ..
    } = open_history(alloc, Seed::fixed(), device, SyncMode::Full).map_err(|e| e.1)?;
    let mut reader = input;
    let mut out = Vec::new(alloc);
    let mut options = Options::standard();
    options.checkpoint_every = every;
    run_durable(rt, alloc, &mut reader, &mut out, &mut file, loaded, options)?;
    let left = file.journal.device.bytes().to_vec(alloc)?;
    Ok((out, left))
}

#[test]
fn a_run_keeps_its_history(rt: HostRuntime) -> Result<(), Fail> {
    let (out, left) = run_over(&rt, rt.alloc(), b"", FIRST, MANY)?;
    assert_eq!(rt; out.as_slice(), FIRST_OUT);
    assert_eq!(rt; left.as_slice(), FIRST_FILE);
    Ok(())
}

#[test]
fn a_run_goes_on(rt: HostRuntime) -> Result<(), Fail> {
    let (out, left) = run_over(
        &rt,
        rt.alloc(),
        TORN_FILE,
        b"tvar y : Int = 1\nshow\neval\n",
        MANY,
    )?;
    assert_eq!(rt;
        out.as_slice(),
        b"refused Late\n1 new\nwaiting 1\nevaluated 1\n".as_slice()
    );
    assert_eq!(rt; left.as_slice(), FIRST_FILE);
    Ok(())
}

#[test]
fn a_checkpoint_starts_the_file_again(rt: HostRuntime) -> Result<(), Fail> {
    let (out, left) = run_over(&rt, rt.alloc(), b"", CHECKPOINT, MANY)?;
    assert_eq!(rt;
        out.as_slice(),
        b"tvar #0 x\nticket 1\nevaluated 1\ncheckpoint 2\n".as_slice()
    );
    assert_eq!(rt; left.as_slice(), FROM);
    Ok(())
}

#[test]
fn a_run_goes_on_from_a_checkpoint(rt: HostRuntime) -> Result<(), Fail> {
    let (out, left) = run_over(&rt, rt.alloc(), FROM, b"show\nfinish 1\nhistory\n", MANY)?;
    assert!(rt;
        out.as_slice().starts_with(
            b"1 current commits writes none news none result 1\nwaiting 1\nfinished 1 result 1 stale none\n".as_slice()
        )
    );
    assert!(rt; out.as_slice().ends_with(ONWARD));
    assert_eq!(rt; left.as_slice(), ONWARD);
    Ok(())
}

#[test]
fn a_checkpoint_comes_by_itself(rt: HostRuntime) -> Result<(), Fail> {
    let (out, left) = run_over(
        &rt,
        rt.alloc(),
        b"",
        b"tvar x : Int = 1\nsubmit readTVar x\neval\n",
        2,
    )?;
    assert_eq!(rt;
        out.as_slice(),
        b"tvar #0 x\nticket 1\nevaluated 1\n".as_slice()
    );
    assert_eq!(rt; left.as_slice(), FROM);
    Ok(())
}

/// A device on which nothing can be written.
#[derive(Drop)]
struct ReadOnly;

impl Device for ReadOnly {
    ghost use Rattle.stm_journal.specs.Disk.{claims_nothing, lawful_nothing};

    ghost disk = { claims_nothing };

    ghost lawful = { lawful_nothing };

    fn len(&self) -> Result<usize, JournalError> {
        Ok(0)
    }

    fn read_at(&self, _at: usize, _buffer: &mut [u8]) -> Result<usize, JournalError> {
        Ok(0)
    }

    fn settle(&mut self) -> Result<(), JournalError> {
        Ok(())
    }

    fn write_at(&mut self, _at: usize, _bytes: &[u8]) -> Result<(), JournalError> {
        Err(JournalError::NoSpace)
    }

    fn cut(&mut self, _len: usize) -> Result<(), JournalError> {
        Err(JournalError::Failed)
    }

    fn sync(&mut self) -> Result<(), JournalError> {
        Ok(())
    }
}

impl Replace for ReadOnly {
    fn beside(&mut self) -> Result<ReadOnly, JournalError> {
        Err(JournalError::NoSpace)
    }

    fn put(&mut self, _other: ReadOnly) -> Result<(), ReplaceError> {
        Err(ReplaceError::Unfinished(JournalError::Failed))
    }

    fn report(&mut self, _error: JournalError) {}
}

/// A device in memory whose place no other file can take.
#[derive(Drop)]
struct Alone(Memory);

impl Device for Alone {
    ghost use Rattle.stm_journal.specs.Disk.{claims_nothing, lawful_nothing};

    ghost disk = { claims_nothing };

    ghost lawful = { lawful_nothing };

    fn len(&self) -> Result<usize, JournalError> {
        self.0.len()
    }

    fn read_at(&self, at: usize, buffer: &mut [u8]) -> Result<usize, JournalError> {
        if at > self.0.bytes().len() {
            return Err(JournalError::Failed);
        }
        self.0.read_at(at, buffer)
    }

    fn settle(&mut self) -> Result<(), JournalError> {
        self.0.settle()
    }

    fn write_at(&mut self, at: usize, bytes: &[u8]) -> Result<(), JournalError> {
        if at > self.0.bytes().len() {
            return Err(JournalError::Failed);
        }
        self.0.write_at(at, bytes)
    }

    fn cut(&mut self, len: usize) -> Result<(), JournalError> {
        if len > self.0.bytes().len() {
            return Err(JournalError::Failed);
        }
        self.0.cut(len)
    }

    fn sync(&mut self) -> Result<(), JournalError> {
        self.0.sync()
    }
}

impl Replace for Alone {
    fn beside(&mut self) -> Result<Alone, JournalError> {
        let file = self.0.beside()?;
        Ok(Alone(file))
    }

    fn put(&mut self, _other: Alone) -> Result<(), ReplaceError> {
        Err(ReplaceError::Refused(JournalError::Failed))
    }

    fn report(&mut self, _error: JournalError) {}
}

/// What a run over an empty file writes whose place no other file can take, and what the file then has.
fn run_alone<T: Threads + RandomSource + Sync>(
    rt: &T,
    alloc: Global,
    input: &[u8],
    every: u32,
) -> Result<(Vec<u8>, Vec<u8>), Fail>
    requires { (1 ≤ every) × (every ≤ max_events) }
{
    let device = Alone(Memory::new(alloc, Vec::new(alloc)));
    let Opened {
        mut file,
        loaded,
        ..
    } = open_history(alloc, Seed::fixed(), device, SyncMode::Full).map_err(|e| e.1)?;
    let mut reader = input;
    let mut out = Vec::new(alloc);
    let mut options = Options::standard();
    options.checkpoint_every = every;
    run_durable(rt, alloc, &mut reader, &mut out, &mut file, loaded, options)?;
    let left = file.journal.device.0.bytes().to_vec(alloc)?;
    Ok((out, left))
}

#[test]
fn a_checkpoint_that_can_not_be_made_is_refused(rt: HostRuntime) -> Result<(), Fail> {
    let (out, left) = run_alone(
        &rt,
        rt.alloc(),
        b"checkpoint\ntvar x : Int = 1\ncheckpoint 1\nhistory\n",
        MANY,
    )?;
    assert_eq!(rt;
        out.as_slice(),
        b"refused NoCheckpoint\nrefused Late\nrefused Argument\n{\"format\":3,\"vars\":0}\n".as_slice()
    );
    assert_eq!(rt; left.as_slice(), b"{\"format\":3,\"vars\":0}\n".as_slice());
    Ok(())
}

#[test]
fn a_run_goes_on_without_its_checkpoints(rt: HostRuntime) -> Result<(), Fail> {
    let (out, left) = run_alone(&rt, rt.alloc(), FIRST, 1)?;
    assert_eq!(rt; out.as_slice(), FIRST_OUT);
    assert_eq!(rt; left.as_slice(), FIRST_FILE);
    Ok(())
}

#[test]
fn no_answer_comes_before_its_events(rt: HostRuntime) -> Result<(), Fail> {
    let alloc = rt.alloc();
    let Opened {
        mut file,
        loaded,
        ..
    } = open_history(alloc, Seed::fixed(), ReadOnly, SyncMode::Full).map_err(|e| e.1)?;
    let mut reader = FIRST;
    let mut out = Vec::new(alloc);
    let ended = run_durable(
        &rt,
        alloc,
        &mut reader,
        &mut out,
        &mut file,
        loaded,
        Options::standard(),
    );
    assert_eq!(rt; ended, Err(DurableFault::Journal(JournalError::NoSpace)));
    assert!(rt; out.is_empty());
    Ok(())
}
