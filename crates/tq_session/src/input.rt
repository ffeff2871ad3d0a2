// The input of a session, line by line.

ghost use Rattle.std.specs.Prelude.{◌≡◌, ◌*◌, ◌-◌, ◌<◌, ◌≤◌, ◌⊎◌, [], List, ℕ, drop, length, IfOk, IfErr, OnOk, OnErr, MatchBool, if◌then◌else◌};
ghost use Rattle.std.specs.Result.{is_err};
ghost use Rattle.std.specs.Io.KnownBytes.{Consumes, IsAtEnd, Keeps};
ghost use Rattle.tq_table.specs.Sink.{one_more};
ghost use Rattle.tq_session.specs.LineBuffers.{Collects, IsEnded, HasCollected, IsLast, TakesAll, TakesLine};
ghost use Rattle.tq_session.specs.Input.{IsCutOff, IsFound, max_read, reads_after};
ghost use Rattle.tq_session.specs.Lines.{HasNoFeed};

use memchr::memchr;
use std::alloc::{AllocError, Global};
use std::io::Read;
use std::marker::Model;
use tq_engine::{FileFault, Source};

// The maximal number of reads in one session.
const READ_LIMIT: u32 = 1_073_741_824;

// The maximal length of a line, without its line feed, but with a carriage return before it.
const LINE_LIMIT: usize = 70_000;

// The size of the buffer of one read, in bytes.
const CHUNK: usize = 65_536;

/// What is next in the input. The `bool` is true for the last line, which has no line feed.
#[derive(Clone, Copy, Debug, PartialEq, Eq)]
pub enum Found {
    /// A line, which `Input::line` returns.
    Line(bool),
    /// A line of more than 70,000 bytes, which was skipped.
    TooLong(bool),
    /// The end of the input.
    End,
}

// The bytes of one read; the first of them are consumed.
#[derive(Drop)]
struct Chunk {
    bytes: Vec<u8>,
    from: usize,
    to: usize,
}

impl Model for Chunk {
    ghost use Rattle.std.specs.Prelude.{◌≡◌, ◌≤◌, List, ℕ, drop, take, vec_len};

    ghost Value = { List ℕ };

    ghost view = { λ c. drop c.from (take c.to c.bytes.items) };

    ghost invariant = { λ c. (c.from ≤ c.to) × (c.to ≤ 65536) × (vec_len c.bytes ≡ 65536) };
}

impl Chunk {
    // An empty buffer for one read.
    fn with_room(alloc: Global) -> Result<Chunk, AllocError>
        ensures { IfOk result (λ chunk. chunk ≡ []) }
    {
        Ok(Chunk {
            bytes: vec![in alloc; 0u8; CHUNK]?,
            from: 0,
            to: 0,
        })
    }

    // The bytes that are not consumed yet.
    fn unconsumed(&self) -> &[u8]
        ensures { result.now ≡ self.now }
    {
        &self.bytes[self.from..self.to]
    }

    // Consumes the first `count` bytes.
    fn consume(&mut self, count: usize)
        requires { count ≤ length self.old }
        ensures { self.new ≡ drop count self.old }
    {
        self.from += count;
    }

    // Reads once, replaces the bytes by those read, and returns their number.
    fn fill<R: Read>(&mut self, source: &mut Source<R>) -> Result<usize, FileFault>
        ensures taken { OnOk result (Consumes (R.remaining source.old.reader) (R.remaining source.new.reader)
            self.new) }
        ensures count { IfOk result (λ count. count ≡ length self.new) }
        ensures most { OnOk result (length self.new ≤ max_read) }
        ensures end { OnOk result (self.new ≡ [] → IsAtEnd (R.remaining source.new.reader)) }
        ensures kept { OnErr result (Keeps (R.remaining source.old.reader) (R.remaining source.new.reader)) }
        ensures fault { IfErr result (λ fault. fault ≡ FileFault.Read) }
        ensures reads { source.new.reads ≡ one_more source.old.reads }
        ensures failed { source.new.failed
            ≡ (if is_err result then one_more source.old.failed else source.old.failed) }
    {
        self.from = 0;
        self.to = 0;
        let count = source.read_some(self.bytes.as_mut_slice())?;
        self.to = count;
        Ok(count)
    }
}

// The line that is being read: its bytes, while they are at most 70,000.
#[derive(Drop)]
struct LineBuffer {
    bytes: Vec<u8>,
    too_long: bool,
}

impl Model for LineBuffer {
    ghost use Rattle.std.specs.Prelude.{◌≤◌, vec_len, vec_capacity};
    ghost use Rattle.tq_session.specs.LineBuffers.{LineBufferState};

    ghost Value = { LineBufferState };

    ghost view = { λ g. record { bytes = g.bytes.items; too_long = g.too_long } };

    ghost invariant = { λ g. (vec_len g.bytes ≤ 70000) × (70000 ≤ vec_capacity g.bytes) };
}

impl LineBuffer {
    // An empty buffer for 70,000 bytes.
    fn with_room(alloc: Global) -> Result<LineBuffer, AllocError> {
        Ok(LineBuffer {
            bytes: Vec::with_capacity(alloc, LINE_LIMIT)?,
            too_long: false,
        })
    }

    // Begins another line.
    fn clear(&mut self)
        ensures { HasCollected self.new [] }
    {
        self.bytes.clear();
        self.too_long = false;
    }

    // Adds bytes to the line.
    fn add(&mut self, more: &[u8])
        ensures { Collects self.old self.new more.now }
    {
        if self.too_long || more.len() > LINE_LIMIT - self.bytes.len() {
            self.too_long = true;
            return;
        }
        let Ok(()) = self.bytes.extend_from_slice(more) else {
            // The buffer has capacity for them.
            unreachable!()
        };
    }

    // The line if a line feed ends it; a carriage return before that is removed.
    fn at_feed(&mut self) -> Found
        ensures { (bytes : List ℕ) → HasCollected self.old bytes → IsEnded bytes self.new result }
    {
        if self.too_long {
            return Found::TooLong(false);
        }
        let len = self.bytes.len();
        if len > 0 && self.bytes[len - 1] == b'\r' {
            self.bytes.truncate(len - 1);
        }
        Found::Line(false)
    }

    // The line if the input ends.
    fn at_end(&self) -> Found
        ensures { (bytes : List ℕ) → HasCollected self.now bytes → IsLast bytes self.now result }
    {
        if self.too_long {
            return Found::TooLong(true);
        }
        if self.bytes.is_empty() {
            return Found::End;
        }
        Found::Line(true)
    }

    // The bytes of the line so far.
    fn bytes(&self) -> &[u8]
        ensures { result.now ≡ self.now.bytes }
    {
        &self.bytes
    }
}

// Moves bytes into the line up to the first line feed, which is consumed too. Returns whether there is one; if not, all
// bytes are moved.
fn collect_line(chunk: &mut Chunk, line: &mut LineBuffer) -> bool
    ensures { MatchBool result (TakesLine chunk.old chunk.new line.old line.new)
        (TakesAll chunk.old chunk.new line.old line.new) }
{
    let unconsumed = chunk.unconsumed();
    let Some(feed) = memchr(b'\n', unconsumed) else {
        line.add(unconsumed);
        let count = unconsumed.len();
        chunk.consume(count);
        return false;
    };
    line.add(&unconsumed[..feed]);
    chunk.consume(feed + 1);
    true
}

/// The input of a session: the bytes read but not consumed, and the current line. All memory is allocated by `new`:
/// 65,536 bytes for a read and 70,000 for a line.
#[derive(Drop)]
pub struct Input {
    chunk: Chunk,
    line: LineBuffer,
    left: u32,
}

impl Model for Input {
    ghost use Rattle.tq_session.specs.Input.{InputState};

    ghost Value = { InputState };

    ghost view = { λ i. record { unconsumed = i.chunk; line = i.line.bytes; left = i.left } };
}

impl Input {
    /// An input without any bytes read, which makes at most 1,073,741,824 reads. `AllocError` if an allocation failed.
    pub fn new(alloc: Global) -> Result<Input, AllocError>
        ensures { IfOk result (λ input. (input.unconsumed ≡ []) × (input.left ≡ 1073741824)) }
    {
        let chunk = Chunk::with_room(alloc)?;
        let line = LineBuffer::with_room(alloc)?;
        Ok(Input {
            chunk,
            line,
            left: READ_LIMIT,
        })
    }

    /// The line that `next` found, without its line feed and one carriage return before it. A last line without a line
    /// feed is complete.
    pub fn line(&self) -> &[u8]
        ensures { result.now ≡ self.now.line }
    {
        self.line.bytes()
    }

    /// Finds the next line, as soon as its line feed is read, or the end. `Read` if a read failed, or one more read is
    /// needed after 1,073,741,824.
    pub fn next<R: Read>(&mut self, source: &mut Source<R>) -> Result<Found, FileFault>
        ensures found { IfOk result (λ found. (taken : List ℕ)
            × Consumes (R.remaining source.old.reader) (R.remaining source.new.reader) taken
            × (length taken ≤ max_read * (self.old.left - self.new.left))
            × IsFound self.old self.new taken (R.remaining source.new.reader) found) }
        ensures cut_off { OnErr result ((taken : List ℕ)
            × Consumes (R.remaining source.old.reader) (R.remaining source.new.reader) taken
            × IsCutOff self.old taken) }
        ensures fault { IfErr result (λ fault. fault ≡ FileFault.Read) }
        ensures unfailed { OnOk result (source.new.failed ≡ source.old.failed) }
        ensures failed { OnErr result ((source.new.failed ≡ one_more source.old.failed)
            ⊎ ((source.new.failed ≡ source.old.failed) × (self.new.left ≡ 0))) }
        ensures reads { source.new.reads ≡ reads_after source.old.reads (self.old.left - self.new.left) }
        ensures left { self.new.left ≤ self.old.left }
        ensures ready { (HasNoFeed self.old.unconsumed → ⊥) → self.new.left ≡ self.old.left }
    {
        self.line.clear();
        'reads: while !collect_line(&mut self.chunk, &mut self.line) {
            if self.left == 0 {
                return Err(FileFault::Read);
            }
            self.left -= 1;
            if self.chunk.fill(source)? == 0 {
                return Ok(self.line.at_end());
            }
        }
        Ok(self.line.at_feed())
    }
}
