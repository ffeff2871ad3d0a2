// A writer with a count of its failed calls. Nothing else has access to either. A failure is counted exactly if a write
// or flush of the writer failed, and no call is repeated.

ghost use Rattle.std.specs.Prelude.{◌≡◌, ◌≤◌, ◌<◌, length, take, OnErr, IfOk, IfErr, if◌then◌else◌};
ghost use Rattle.std.specs.Result.{is_err};
ghost use Rattle.std.specs.Io.KnownBytes.{Appends, Keeps};
ghost use Rattle.tq_table.specs.Sink.{one_more};

use std::io::Write;
use std::marker::Model;
use thiserror::Error;

/// Why a table was not written: the writer failed (1), or an allocation for the table's text failed (2).
#[derive(Clone, Copy, Debug, PartialEq, Eq, Error)]
pub enum WriteFault {
    #[error("write failed")]
    Write = 1,
    #[error("out of memory")]
    OutOfMemory = 2,
}

/// A writer, with a count of its failed calls.
#[derive(Drop)]
pub struct Sink<W> {
    writer: W,
    failed: u64,
}

impl<W> Model for Sink<W> {
    ghost use Rattle.tq_table.specs.Sink.{SinkState, sink_code};

    ghost Value = { SinkState W };

    ghost coded = { sink_code W.code };

    ghost view = { λ s. record { writer = s.writer; failed = s.failed } };
}

impl<W> Sink<W> {
    /// A sink over a writer, without a failed call.
    pub fn over(writer: W) -> Sink<W>
        ensures writer { result.writer ≡ writer }
        ensures failed { result.failed ≡ 0 }
    {
        Sink { writer, failed: 0 }
    }

    /// The number of failed calls of the writer; it stops at `u64::MAX`.
    pub fn failed(&self) -> u64
        ensures { result ≡ self.now.failed }
    {
        self.failed
    }
}

impl<W> Sink<W> {
    fn count_failure(&mut self) -> WriteFault
        ensures fault { result ≡ WriteFault.Write }
        ensures writer { self.new.writer ≡ self.old.writer }
        ensures failed { self.new.failed ≡ one_more self.old.failed }
    {
        self.failed = self.failed.saturating_add(1);
        WriteFault::Write
    }
}

impl<W: Write> Sink<W> {
    /// Writes some of the bytes, from the front, by one call. A call that fails or accepts nothing is counted.
    pub(crate) fn write_some(&mut self, bytes: &[u8]) -> Result<usize, WriteFault>
        requires { 0 < length bytes.now }
        ensures some { IfOk result (λ n. 0 < n) }
        ensures bound { IfOk result (λ n. n ≤ length bytes.now) }
        ensures taken { IfOk result (λ n. Appends (W.contents self.old.writer) (W.contents self.new.writer)
            (take n bytes.now)) }
        ensures kept { OnErr result (Keeps (W.contents self.old.writer) (W.contents self.new.writer)) }
        ensures fault { IfErr result (λ e. e ≡ WriteFault.Write) }
        ensures failed { self.new.failed ≡ (if is_err result then one_more self.old.failed else self.old.failed) }
    {
        match self.writer.write(bytes) {
            Ok(0) | Err(_) => Err(self.count_failure()),
            Ok(taken) => Ok(taken),
        }
    }

    /// Flushes the writer. `Write` if that failed, which is counted.
    pub fn flush(&mut self) -> Result<(), WriteFault>
        ensures kept { Keeps (W.contents self.old.writer) (W.contents self.new.writer) }
        ensures fault { IfErr result (λ e. e ≡ WriteFault.Write) }
        ensures failed { self.new.failed ≡ (if is_err result then one_more self.old.failed else self.old.failed) }
    {
        match self.writer.flush() {
            Ok(()) => Ok(()),
            Err(_) => Err(self.count_failure()),
        }
    }
}
