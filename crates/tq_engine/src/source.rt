// A reader, with the number of its reads and of its failed reads. No other code reaches the reader or the counts. A
// failure is counted exactly when a read failed, and no read is repeated.

ghost use Rattle.std.specs.Prelude.{◌≡◌, ◌<◌, length, take, OnErr, IfOk, IfErr, if◌then◌else◌};
ghost use Rattle.std.specs.Result.{is_err};
ghost use Rattle.std.specs.Io.{ReadsAtMost};
ghost use Rattle.std.specs.Io.KnownBytes.{Consumes, IsAtEnd, Keeps};
ghost use Rattle.tq_table.specs.Sink.{one_more};

use std::alloc::AllocError;
use std::io::Read;
use std::marker::Model;
use thiserror::Error;

/// Why a file was not read: a read failed (1), it has more than 1,073,741,824 bytes (2), or an allocation failed (3).
#[derive(Clone, Copy, Debug, PartialEq, Eq, Error)]
pub enum FileFault {
    #[error("the file cannot be read")]
    Read = 1,
    #[error("the file is too large")]
    TooLarge = 2,
    #[error("out of memory")]
    OutOfMemory = 3,
}

impl From<AllocError> for FileFault {
    ghost use Rattle.tq_engine.specs.declared.source.FileFault.TheVariants.{OutOfMemory};

    ghost from_gives = { λ _ fault. fault ≡ OutOfMemory };

    fn from(_error: AllocError) -> FileFault {
        FileFault::OutOfMemory
    }
}

/// A reader with counts of its reads and of its failed reads.
#[derive(Drop)]
pub struct Source<R> {
    reader: R,
    reads: u64,
    failed: u64,
}

impl<R> Model for Source<R> {
    ghost use Rattle.tq_engine.specs.Source.{SourceState, source_code};

    ghost Value = { SourceState R };

    ghost coded = { source_code R.code };

    ghost view = { λ s. record { reader = s.reader; reads = s.reads; failed = s.failed } };
}

impl<R> Source<R> {
    /// A source over the reader, with no reads yet.
    pub fn over(reader: R) -> Source<R>
        ensures reader { result.reader ≡ reader }
        ensures reads { result.reads ≡ 0 }
        ensures failed { result.failed ≡ 0 }
    {
        Source {
            reader,
            reads: 0,
            failed: 0,
        }
    }

    /// The number of failed reads; it stays at `u64::MAX` once it is there.
    pub fn failed(&self) -> u64
        ensures { result ≡ self.now.failed }
    {
        self.failed
    }
}

impl<R: Read> Source<R> {
    /// Reads once into the buffer and counts the read, and its failure. `Read` if the read failed.
    pub fn read_some(&mut self, buffer: &mut [u8]) -> Result<usize, FileFault>
        ensures bound { ReadsAtMost result buffer.new }
        ensures taken { IfOk result (λ n. Consumes (R.remaining self.old.reader) (R.remaining self.new.reader)
            (take n buffer.new)) }
        ensures end { IfOk result (λ n. n ≡ 0 → 0 < length buffer.old → IsAtEnd (R.remaining self.new.reader)) }
        ensures kept { OnErr result (Keeps (R.remaining self.old.reader) (R.remaining self.new.reader)) }
        ensures fault { IfErr result (λ e. e ≡ FileFault.Read) }
        ensures reads { self.new.reads ≡ one_more self.old.reads }
        ensures failed { self.new.failed ≡ (if is_err result then one_more self.old.failed else self.old.failed) }
    {
        self.reads = self.reads.saturating_add(1);
        match self.reader.read(buffer) {
            Ok(taken) => Ok(taken),
            Err(_) => {
                self.failed = self.failed.saturating_add(1);
                Err(FileFault::Read)
            }
        }
    }
}
