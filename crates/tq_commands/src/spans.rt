// Sources that several threads can read at any place, and spans of them.

ghost use Rattle.std.specs.Prelude.{ℕ, List, Option, IfOk, None, option_map};
ghost use Rattle.std.specs.Io.{ReadsAtMost};
ghost use Rattle.tq_commands.specs.Spans.{IsSpan, ReadsFrom, bytes_of};

use crate::progress::{Counted, Progress};
use std::alloc::Global;
use std::io;
use std::io::Read;
use std::os::unix::fs::FileExt;
use tq_engine::{FileFault, Source, read_file};

/// A source that can be read at any place. Its bytes do not change meanwhile.
pub trait ReadAt {
    // The bytes, if they are known.
    ghost bytes: { Self → Option (List ℕ) } = { λ _. None };

    /// Reads bytes from the offset on into the buffer. 0 only at the end of the source or if the buffer is empty.
    fn read_at(&self, buffer: &mut [u8], offset: u64) -> io::Result<usize>
        ensures bound { ReadsAtMost result buffer.new }
        ensures bytes { ReadsFrom (bytes self.now) offset result buffer.new };
}

/// An open file. No contract of the standard library says which bytes a file has, so none are known here.
#[derive(Clone, Copy)]
pub struct Opened<'f, F> {
    pub file: &'f F,
}

impl<F: FileExt> ReadAt for Opened<'_, F> {
    fn read_at(&self, buffer: &mut [u8], offset: u64) -> io::Result<usize> {
        self.file.read_at(buffer, offset)
    }
}

/// The places of a source from `start` up to `end`.
#[derive(Clone, Copy, Debug)]
pub struct Span {
    pub start: u64,
    pub end: u64,
}

/// A reader of a span of a source that other threads also read.
#[derive(Drop)]
pub struct SpanReader<'f, F> {
    pub file: &'f F,
    pub left: Span,
}

impl<F: ReadAt> Read for SpanReader<'_, F> {
    ghost remaining = { λ r. option_map (λ all. bytes_of all r.left) (F.bytes r.file.now) };

    fn read(&mut self, buf: &mut [u8]) -> io::Result<usize> {
        let left = self.left.end.saturating_sub(self.left.start);
        let most = left.min(buf.len() as u64) as usize;
        let taken = self.file.read_at(&mut buf[..most], self.left.start)?;
        self.left.start = self.left.end - (left - taken as u64);
        Ok(taken)
    }
}

/// The bytes of a span of the source. `Read` if a read failed or the source ends before the span does; `OutOfMemory` if
/// an allocation failed.
pub fn read_span<F: ReadAt>(
    alloc: Global,
    file: &F,
    span: Span,
    progress: &Progress,
) -> Result<Vec<u8>, FileFault>
    ensures { IfOk result (λ piece. IsSpan (F.bytes file.now) span piece.items) }
{
    let reader = SpanReader { file, left: span };
    let bytes = read_file(alloc, &mut Source::over(Counted { reader, progress }))?;
    if bytes.len() as u64 == span.end.saturating_sub(span.start) {
        Ok(bytes)
    } else {
        Err(FileFault::Read)
    }
}
