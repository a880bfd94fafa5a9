//! The program over a file in memory, whose bytes are known: what its theorem says of a run on a file isn't said of nothing.

use std::alloc::Global;
use std::test::Fail;
use stm_console::{JournalFiles, OpenError, start};
use stm_journal::Memory;

/// A file with these bytes, whatever the name.
#[derive(Drop)]
struct OneFile<'a> {
    alloc: Global,
    bytes: &'a [u8],
}

impl<'a> JournalFiles for OneFile<'a> {
    ghost use Rattle.std.specs.Prelude.{Some};

    type File = Memory;

    ghost contents = { λ files _. Some files.bytes.now };

    fn open(&self, _name: &str) -> Result<Memory, OpenError> {
        match self.bytes.to_vec(self.alloc) {
            Ok(bytes) => Ok(Memory::new(self.alloc, bytes)),
            Err(_) => Err(OpenError::NoMemory),
        }
    }
}

/// A history of one block, which waits; its verdict is current.
const WAITING: &[u8] = b"{\"format\":3,\"vars\":1}
{\"init\":1,\"name\":\"x\",\"type\":\"Int\"}
{\"block\":\"writeTVar x 2\",\"client\":0,\"event\":\"submitted\",\"ticket\":1}
{\"client\":0,\"event\":\"installed\",\"ticket\":1,\"verdict\":{\"commits\":{\"news\":[],\"result\":null,\"writes\":[[0,2]]}}}
";

#[test]
fn the_program_goes_on_from_a_file(rt: HostRuntime) -> Result<(), Fail> {
    let alloc = rt.alloc();
    let files = OneFile {
        alloc,
        bytes: WAITING,
    };
    let mut reader: &[u8] = b"finish 1\nstore\nsubmit readTVar x\n";
    let mut out = Vec::new(alloc);
    let mut errors = Vec::new(alloc);
    let status = start(
        &rt,
        alloc,
        &["stmdesk", "run", "--journal", "file"],
        &files,
        &mut reader,
        &mut out,
        &mut errors,
    );
    assert_eq!(rt; status, 0);
    assert_eq!(rt;
        out.as_slice(),
        b"finished 1 result () stale none\n#0 x : Int = 2 count 1\ncells 1\nticket 2\n".as_slice()
    );
    assert_eq!(rt; errors.as_slice(), b"".as_slice());
    Ok(())
}

#[test]
fn the_program_refuses_a_file_that_is_no_history(rt: HostRuntime) -> Result<(), Fail> {
    let alloc = rt.alloc();
    let files = OneFile {
        alloc,
        bytes: b"no history\n",
    };
    let mut reader: &[u8] = b"store\n";
    let mut out = Vec::new(alloc);
    let mut errors = Vec::new(alloc);
    let status = start(
        &rt,
        alloc,
        &["stmdesk", "run", "--journal", "file"],
        &files,
        &mut reader,
        &mut out,
        &mut errors,
    );
    assert_eq!(rt; status, 3);
    assert_eq!(rt; out.as_slice(), b"".as_slice());
    assert_eq!(rt;
        errors.as_slice(),
        b"stmdesk: file: bad header\n".as_slice()
    );
    Ok(())
}
