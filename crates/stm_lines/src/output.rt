//! Bytes for a writer.

ghost use Rattle.std.specs.Prelude.{◌≡◌, IfErr};
ghost use Rattle.std.specs.Io.{WritesAtMost};
ghost use Rattle.std.specs.Io.KnownBytes.{Keeps, WriteAppends};
ghost use Rattle.stm_lines.specs.WrittenFronts.{WritesText};

use crate::run_fault::RunFault;
use std::io::{ErrorKind, Write};

/// Writes some of a text, and returns how many bytes the writer took. A write that is interrupted is tried again, 4,294,967,295
/// times at most, so that a writer that is always interrupted is a fault.
fn write_some<W: Write>(writer: &mut W, text: &[u8]) -> Result<usize, RunFault>
    ensures bound { WritesAtMost result text.now }
    ensures bytes { WriteAppends (W.contents writer.old) (W.contents writer.new) result text.now }
    ensures fault { IfErr result (λ e. e ≡ RunFault.Write) }
{
    'tries: for _ in 0..u32::MAX {
        match writer.write(text) {
            Ok(count) => return Ok(count),
            Err(fault) if fault.kind() == ErrorKind::Interrupted => {}
            Err(_) => return Err(RunFault::Write),
        }
    }
    Err(RunFault::Write)
}

/// Writes all of a text, or a part from its front.
pub fn write_text<W: Write>(writer: &mut W, text: &[u8]) -> Result<(), RunFault>
    ensures written { WritesText result (W.contents writer.old) (W.contents writer.new) text.now }
    ensures fault { IfErr result (λ e. e ≡ RunFault.Write) }
{
    let mut at = 0;
    while at < text.len() {
        match write_some(writer, &text[at..]) {
            Ok(0) => return Err(RunFault::Write),
            Ok(n) => at += n,
            Err(fault) => return Err(fault),
        }
    }
    Ok(())
}

/// Hands on what a buffered writer holds, which no clause says. A flush that is interrupted is tried again, as a write is.
pub fn flush<W: Write>(writer: &mut W) -> Result<(), RunFault>
    ensures same { Keeps (W.contents writer.old) (W.contents writer.new) }
    ensures fault { IfErr result (λ e. e ≡ RunFault.Write) }
{
    'tries: for _ in 0..u32::MAX {
        match writer.flush() {
            Ok(()) => return Ok(()),
            Err(fault) if fault.kind() == ErrorKind::Interrupted => {}
            Err(_) => return Err(RunFault::Write),
        }
    }
    Err(RunFault::Write)
}

/// Writes a text and flushes. No clause says that it flushes.
pub fn write_flushed<W: Write>(writer: &mut W, text: &[u8]) -> Result<(), RunFault>
    ensures written { WritesText result (W.contents writer.old) (W.contents writer.new) text.now }
    ensures fault { IfErr result (λ e. e ≡ RunFault.Write) }
{
    match write_text(writer, text) {
        Ok(()) => flush(writer),
        Err(fault) => Err(fault),
    }
}
