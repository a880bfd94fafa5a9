//! The lines of standard input, in buffers that take no memory once they are there.

use std::alloc::{AllocError, Global};
use std::io;
use std::io::Read;

/// The line read last, and bytes that were read after it.
#[derive(Drop)]
pub struct Lines {
    line: Vec<u8>,
    ahead: [u8; 4_096],
    from: usize,
    to: usize,
    number: u64,
}

impl Lines {
    /// No line yet, and room for lines of N bytes.
    pub fn with_room(alloc: Global, bytes: usize) -> Result<Lines, AllocError> {
        Ok(Lines {
            line: Vec::with_capacity(alloc, bytes)?,
            ahead: [0; 4_096],
            from: 0,
            to: 0,
            number: 0,
        })
    }

    /// The line; an empty one if it isn't text.
    pub fn line(&self) -> &str {
        match str::from_utf8(&self.line) {
            Ok(line) => line,
            Err(_) => "",
        }
    }

    /// Its number, from 1.
    pub fn number(&self) -> u64 {
        self.number
    }

    /// The next byte; none at the end of the input.
    fn next_byte<R: Read>(&mut self, reader: &mut R) -> io::Result<Option<u8>> {
        if self.from >= self.to {
            self.to = reader.read(&mut self.ahead)?;
            self.from = 0;
        }
        match self.ahead.get(self.from) {
            Some(byte) if self.from < self.to => {
                self.from += 1;
                Ok(Some(*byte))
            }
            _ => Ok(None),
        }
    }

    /// Reads the next line, without its line feed, and returns whether there was one.
    pub fn next<R: Read>(&mut self, reader: &mut R) -> io::Result<bool> {
        self.line.clear();
        self.number = self.number.saturating_add(1);
        for _ in 0..u64::MAX {
            match self.next_byte(reader)? {
                None => return Ok(!self.line.is_empty()),
                Some(b'\n') => return Ok(true),
                Some(byte) => self.line.push(byte)?,
            }
        }
        Ok(false)
    }
}
