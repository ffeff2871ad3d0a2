// Writing of whole byte strings through a sink.

ghost use Rattle.std.specs.Prelude.{◌≡◌, OnOk, OnErr, IfErr, if◌then◌else◌};
ghost use Rattle.std.specs.Result.{is_err};
ghost use Rattle.std.specs.Io.KnownBytes.{Appends};
ghost use Rattle.tq_table.specs.Sink.{bytes_of, AppendsPrefix, one_more};

use crate::sink::{Sink, WriteFault};
use std::io::Write;

impl<W: Write> Sink<W> {
    /// Writes the bytes without a flush. `Write` if a write failed, or accepted none of the remaining bytes. That call
    /// is counted as a failure, no further one follows, and a prefix was written.
    pub fn put(&mut self, bytes: &[u8]) -> Result<(), WriteFault>
        ensures whole { OnOk result (Appends (W.contents self.old.writer) (W.contents self.new.writer) bytes.now) }
        ensures prefix { OnErr result (AppendsPrefix (W.contents self.old.writer) (W.contents self.new.writer)
            bytes.now) }
        ensures fault { IfErr result (λ e. e ≡ WriteFault.Write) }
        ensures failed { self.new.failed ≡ (if is_err result then one_more self.old.failed else self.old.failed) }
    {
        let mut rest = bytes;
        'rest: while !rest.is_empty() {
            let taken = self.write_some(rest)?;
            rest = &rest[taken..];
        }
        Ok(())
    }

    /// Writes the bytes and flushes the writer. `Write` if a write or the flush failed, or a write accepted none of the
    /// remaining bytes. That call is counted as a failure, no further one follows, and a prefix was written.
    pub fn send(&mut self, bytes: &[u8]) -> Result<(), WriteFault>
        ensures whole { OnOk result (Appends (W.contents self.old.writer) (W.contents self.new.writer) bytes.now) }
        ensures prefix { OnErr result (AppendsPrefix (W.contents self.old.writer) (W.contents self.new.writer)
            bytes.now) }
        ensures fault { IfErr result (λ e. e ≡ WriteFault.Write) }
        ensures failed { self.new.failed ≡ (if is_err result then one_more self.old.failed else self.old.failed) }
    {
        self.put(bytes)?;
        self.flush()
    }

    /// Sends the parts one after the other, as `send` does, and stops after one that failed.
    pub fn send_all(&mut self, parts: &[Vec<u8>]) -> Result<(), WriteFault>
        ensures whole { OnOk result (Appends (W.contents self.old.writer) (W.contents self.new.writer) (bytes_of parts.now)) }
        ensures prefix { OnErr result (AppendsPrefix (W.contents self.old.writer) (W.contents self.new.writer)
            (bytes_of parts.now)) }
        ensures fault { IfErr result (λ e. e ≡ WriteFault.Write) }
        ensures failed { self.new.failed ≡ (if is_err result then one_more self.old.failed else self.old.failed) }
    {
        'parts: for part in parts {
            self.send(part)?;
        }
        Ok(())
    }
}
