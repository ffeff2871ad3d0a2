// Readers and writers that give and take few bytes, fail, or count each other's bytes.

use std::io::{self, ErrorKind, Read, Write};
use std::sync::atomic::{AtomicU64, Ordering};

/// Gives a byte a call. At the first byte of each line it notes the number of bytes printed by then.
#[derive(Drop)]
pub(crate) struct Typist<'a> {
    pub(crate) left: &'a [u8],
    pub(crate) printed: &'a AtomicU64,
    pub(crate) begins: bool,
    pub(crate) noted: Vec<u64>,
}

impl Read for Typist<'_> {
    fn read(&mut self, buf: &mut [u8]) -> io::Result<usize> {
        if self.begins {
            let printed = self.printed.load(Ordering::SeqCst);
            if self.noted.push(printed).is_err() {
                return Err(io::Error::from(ErrorKind::OutOfMemory));
            }
        }
        match (self.left, buf) {
            ([first, rest @ ..], [place, ..]) => {
                *place = *first;
                self.begins = *first == b'\n';
                self.left = rest;
                Ok(1)
            }
            _ => Ok(0),
        }
    }
}

/// Counts the bytes that it takes, when they are flushed, and the writes.
#[derive(Drop)]
pub(crate) struct Screen<'a> {
    pub(crate) printed: &'a AtomicU64,
    pub(crate) taken: u64,
    pub(crate) writes: u64,
}

impl Write for Screen<'_> {
    fn write(&mut self, buf: &[u8]) -> io::Result<usize> {
        self.taken = self.taken.saturating_add(buf.len() as u64);
        self.writes = self.writes.saturating_add(1);
        Ok(buf.len())
    }

    fn flush(&mut self) -> io::Result<()> {
        self.printed.store(self.taken, Ordering::SeqCst);
        Ok(())
    }
}

/// Takes `room` bytes, and then fails.
#[derive(Drop)]
pub(crate) struct ShortWriter {
    pub(crate) taken: Vec<u8>,
    pub(crate) room: usize,
}

impl Write for ShortWriter {
    fn write(&mut self, buf: &[u8]) -> io::Result<usize> {
        let taken = buf.len().min(self.room.saturating_sub(self.taken.len()));
        if taken == 0 || self.taken.extend_from_slice(&buf[..taken]).is_err() {
            return Err(io::Error::from(ErrorKind::WriteZero));
        }
        Ok(taken)
    }

    fn flush(&mut self) -> io::Result<()> {
        Ok(())
    }
}
