// The lines on which records begin. The `csv` reader counts line feeds up to the end of a record. The line feeds in the
// record and the one after it are subtracted.

ghost use Rattle.std.specs.Prelude.{◌≡◌};

use csv::{ByteRecord, Reader};
use std::io::{self, Read};

// The bytes of a read that are kept: as many as the `csv` reader takes at a time.
const KEPT: usize = 8192;

/// A reader that knows whether a line feed ended what was taken from it.
pub(crate) trait LineEnds {
    /// Whether the byte before this offset is a line feed. False if the last read was at the end of the file.
    fn is_line_feed_before(&self, offset: u64) -> bool;
}

/// A reader that keeps the bytes of its last read: none, if that was at the end of the file.
#[derive(Drop)]
pub(crate) struct Recorder<R> {
    reader: R,
    kept: [u8; KEPT],
    len: usize,
    end: u64,
}

impl<R> Recorder<R> {
    /// A recorder that has read nothing.
    pub(crate) fn over(reader: R) -> Recorder<R>
        ensures { result.reader ≡ reader }
    {
        Recorder {
            reader,
            kept: [0; KEPT],
            len: 0,
            end: 0,
        }
    }

    // Keeps the bytes of a read, or the last `KEPT` of them.
    fn retain(&mut self, bytes: &[u8])
        ensures { self.new.reader ≡ self.old.reader }
    {
        let len = bytes.len().min(KEPT);
        let skipped = bytes.len() - len;
        self.kept[..len].copy_from_slice(&bytes[skipped..]);
        self.len = len;
        self.end = self.end.saturating_add(bytes.len() as u64);
    }
}

impl<R: Read> Read for Recorder<R> {
    ghost remaining = { λ r. R.remaining r.reader };

    fn read(&mut self, buf: &mut [u8]) -> io::Result<usize> {
        match self.reader.read(buf) {
            Ok(taken) => {
                if let Some(bytes) = buf.get(..taken) {
                    self.retain(bytes);
                }
                Ok(taken)
            }
            Err(error) => Err(error),
        }
    }
}

impl<R> LineEnds for Recorder<R> {
    fn is_line_feed_before(&self, offset: u64) -> bool {
        let Some(behind) = self.end.checked_sub(offset) else {
            return false;
        };
        if behind >= self.len as u64 {
            return false;
        }
        matches!(self.kept.get(self.len - 1 - behind as usize), Some(b'\n'))
    }
}

// The number of line feeds.
fn line_feeds(bytes: &[u8]) -> u64 {
    bytes.iter().filter(|byte| **byte == b'\n').count() as u64
}

/// The line on which the record begins that was read last. Lines end with line feeds, and the first is 1.
pub(crate) fn first_line<R: Read + LineEnds>(reader: &Reader<R>, record: &ByteRecord) -> u64 {
    let position = reader.position();
    let end = if reader.get_ref().is_line_feed_before(position.byte) {
        1
    } else {
        0
    };
    position
        .line
        .saturating_sub(end)
        .saturating_sub(line_feeds(record.as_slice()))
}
