//! A new file whose lines are measured as they are written.

ghost use Rattle.std.specs.Prelude.{◌≡◌, ℕ, List, Some};
ghost use Rattle.stm_journal.specs.NewFile.{written_to};
ghost use Rattle.stm_history_file.specs.LineLengths.{last_line_after};

use std::io;
use std::io::Write;
use stm_journal::{Device, NewFile};

/// The most bytes of a line, its line feed not counted.
const MAX_LINE: usize = 1_048_576;

/// How many bytes the last line has after these, from what it had before; none once a line is too long.
fn last_line_after(mut line: usize, bytes: &[u8]) -> Option<usize>
    ensures { result ≡ last_line_after (Some line) bytes.now }
{
    for byte in bytes {
        if *byte == b'\n' {
            line = 0;
        } else if line < MAX_LINE {
            line += 1;
        } else {
            return None;
        }
    }
    Some(line)
}

/// A new file, and how many bytes its last line has so far: none once a line is too long.
#[derive(Drop)]
pub(crate) struct MeasuredFile<D: Device> {
    pub file: NewFile<D>,
    pub line: Option<usize>,
    ghost measured: { (text : List ℕ)
        → written_to file ≡ Some text
        → line ≡ last_line_after (Some 0) text },
}

impl<D: Device> Write for MeasuredFile<D> {
    ghost contents = { λ f. written_to f.file };

    fn write(&mut self, buf: &[u8]) -> io::Result<usize> {
        let count = self.file.write(buf)?;
        if let Some(line) = self.line {
            self.line = last_line_after(line, &buf[..count]);
        }
        Ok(count)
    }

    fn flush(&mut self) -> io::Result<()> {
        self.file.flush()
    }
}
