//! Readers and writers that fail part way.

use std::io;
use std::io::{Read, Write};

/// A reader that gives its bytes, and then fails.
#[derive(Drop)]
pub struct BrokenReader<'a> {
    pub bytes: &'a [u8],
}

impl Read for BrokenReader<'_> {
    fn read(&mut self, to: &mut [u8]) -> io::Result<usize> {
        if self.bytes.is_empty() {
            return Err(io::Error::from(io::ErrorKind::TimedOut));
        }
        self.bytes.read(to)
    }
}

/// A writer that takes `room` bytes, and then fails.
#[derive(Drop)]
pub struct ShortWriter {
    pub room: usize,
    pub taken: Vec<u8>,
}

impl Write for ShortWriter {
    fn write(&mut self, bytes: &[u8]) -> io::Result<usize> {
        let count = bytes.len().min(self.room);
        if count == 0 {
            return Err(io::Error::from(io::ErrorKind::BrokenPipe));
        }
        if self.taken.extend_from_slice(&bytes[..count]).is_err() {
            return Err(io::Error::from(io::ErrorKind::OutOfMemory));
        }
        self.room -= count;
        Ok(count)
    }

    fn flush(&mut self) -> io::Result<()> {
        Ok(())
    }
}
