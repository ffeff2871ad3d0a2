//! A reader that gives a byte a call, and fails at one of them.

use std::io::{self, ErrorKind, Read};

/// Gives a byte for each of its good calls, and fails at each later one. It counts its calls.
#[derive(Drop)]
pub struct SlowReader<'a> {
    left: &'a [u8],
    good_calls: u32,
    calls: u32,
}

impl<'a> SlowReader<'a> {
    /// A reader of these bytes.
    pub fn new(bytes: &'a [u8], good_calls: u32) -> SlowReader<'a> {
        SlowReader {
            left: bytes,
            good_calls,
            calls: 0,
        }
    }

    /// The number of calls.
    pub fn calls(&self) -> u32 {
        self.calls
    }
}

impl Read for SlowReader<'_> {
    fn read(&mut self, buf: &mut [u8]) -> io::Result<usize> {
        self.calls = self.calls.saturating_add(1);
        if self.calls > self.good_calls {
            return Err(io::Error::from(ErrorKind::Interrupted));
        }
        match (self.left, buf) {
            ([first, rest @ ..], [place, ..]) => {
                *place = *first;
                self.left = rest;
                Ok(1)
            }
            _ => Ok(0),
        }
    }
}
