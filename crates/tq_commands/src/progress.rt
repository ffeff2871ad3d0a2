// The progress of a query: one line on standard error, which is overwritten.

use std::alloc::{AllocError, Global};
use std::io::{self, Read, Stderr, Write};
use std::sync::atomic::{AtomicU64, Ordering};
use std::sync::{Condvar, Mutex, Wait};
use std::time::{Clock, Duration};

// The delay before the line is first shown, and the time between two updates, both in milliseconds.
const FIRST_DELAY: u64 = 1_000;

const REFRESH_INTERVAL: u64 = 200;

// The stages of a query.
const READING: u64 = 0;

const LOADING: u64 = 1;

const EXECUTING: u64 = 2;

// The line at the terminal.
#[derive(Drop)]
struct Line {
    errors: Stderr,
    is_shown: bool,
    is_ended: bool,
}

impl Line {
    // Replaces what is shown by the text.
    fn rewrite(&mut self, text: &[u8]) {
        // A failure to show progress is ignored.
        let _ = self.errors.write_all(text);
        self.is_shown = true;
    }

    // Erases the line and shows nothing after that.
    fn end(&mut self) {
        if self.is_shown {
            let _ = self.errors.write_all(b"\r\x1b[K");
        }
        self.is_shown = false;
        self.is_ended = true;
    }
}

/// The progress of a query. Several threads update it.
#[derive(Drop)]
pub struct Progress {
    stage: AtomicU64,
    bytes: AtomicU64,
    bytes_read: AtomicU64,
    pieces: AtomicU64,
    pieces_begun: AtomicU64,
    line: Mutex<Line>,
    ended: Condvar,
}

fn push_number(text: &mut String, number: u64) -> Result<(), AllocError> {
    text.push_str(itoa::Buffer::new().format(number))
}

// Appends the number of megabytes.
fn push_megabytes(text: &mut String, bytes: u64) -> Result<(), AllocError> {
    push_number(text, bytes / 1_000_000)
}

impl Progress {
    /// Progress with nothing done yet, shown on `errors`.
    pub fn over(errors: Stderr) -> Progress {
        Progress {
            stage: AtomicU64::new(READING),
            bytes: AtomicU64::new(0),
            bytes_read: AtomicU64::new(0),
            pieces: AtomicU64::new(0),
            pieces_begun: AtomicU64::new(0),
            line: Mutex::new(Line {
                errors,
                is_shown: false,
                is_ended: false,
            }),
            ended: Condvar::new(),
        }
    }

    /// Adds to the bytes that are to be read.
    pub fn expect(&self, bytes: u64) {
        self.bytes.fetch_add(bytes, Ordering::SeqCst);
    }

    /// Adds to the bytes that were read.
    pub fn add_read(&self, bytes: u64) {
        self.bytes_read.fetch_add(bytes, Ordering::SeqCst);
    }

    /// Adds to the pieces of work that are to be done.
    pub fn expect_pieces(&self, pieces: u32) {
        self.pieces.fetch_add(u64::from(pieces), Ordering::SeqCst);
    }

    /// Counts a piece of work that begins.
    pub fn add_piece(&self) {
        self.pieces_begun.fetch_add(1, Ordering::SeqCst);
    }

    /// Begins the loading stage: all files are read.
    pub fn load(&self) {
        self.stage.store(LOADING, Ordering::SeqCst);
    }

    /// Begins the execution stage: all files are loaded.
    pub fn begin_execution(&self) {
        self.pieces.store(0, Ordering::SeqCst);
        self.pieces_begun.store(0, Ordering::SeqCst);
        self.stage.store(EXECUTING, Ordering::SeqCst);
    }

    // Appends the megabytes read so far and the total.
    fn push_reading(&self, text: &mut String) -> Result<(), AllocError> {
        let bytes = self.bytes.load(Ordering::SeqCst);
        let bytes_read = self.bytes_read.load(Ordering::SeqCst);
        text.push_str("reading, ")?;
        push_megabytes(text, bytes_read)?;
        if bytes >= bytes_read {
            text.push_str(" of ")?;
            push_megabytes(text, bytes)?;
        }
        text.push_str(" MB")
    }

    // Appends the pieces begun so far and the total.
    fn push_pieces(&self, text: &mut String) -> Result<(), AllocError> {
        let begun = self.pieces_begun.load(Ordering::SeqCst);
        if begun == 0 {
            return Ok(());
        }
        text.push_str(", piece ")?;
        push_number(text, begun)?;
        text.push_str(" of ")?;
        push_number(text, self.pieces.load(Ordering::SeqCst))
    }

    // The line for the current state.
    fn text(&self, alloc: Global) -> Result<String, AllocError> {
        let mut text = String::from_str(alloc, "\r\x1b[Ktq: ")?;
        match self.stage.load(Ordering::SeqCst) {
            READING => self.push_reading(&mut text)?,
            LOADING => {
                text.push_str("loading")?;
                self.push_pieces(&mut text)?;
            }
            _ => {
                text.push_str("answering")?;
                self.push_pieces(&mut text)?;
            }
        }
        Ok(text)
    }

    /// Shows the line from the first second on, until `end` is called.
    pub fn show<R: Wait + Clock>(&self, rt: &R, alloc: Global) {
        let mut delay = Duration::from_millis(FIRST_DELAY);
        for _ in rt.forever() {
            let (mut line, waited) = self
                .ended
                .wait_timeout_while(rt, self.line.lock(rt), delay, |line| !line.is_ended);
            if !waited.timed_out() {
                return;
            }
            if let Ok(text) = self.text(alloc) {
                line.rewrite(text.as_bytes());
            }
            delay = Duration::from_millis(REFRESH_INTERVAL);
        }
    }

    /// Writes the text on standard error. A failed write is ignored.
    pub fn print<R: Wait>(&self, rt: &R, text: &[u8]) {
        let _ = self.line.lock(rt).errors.write_all(text);
    }

    /// Erases the line and shows nothing after that.
    pub fn end<R: Wait>(&self, rt: &R) {
        self.line.lock(rt).end();
        self.ended.notify_all();
    }
}

/// A reader that adds its bytes to the progress.
#[derive(Drop)]
pub struct Counted<'p, R> {
    pub reader: R,
    pub progress: &'p Progress,
}

impl<R: Read> Read for Counted<'_, R> {
    ghost remaining = { λ c. R.remaining c.reader };

    fn read(&mut self, buf: &mut [u8]) -> io::Result<usize> {
        match self.reader.read(buf) {
            Ok(taken) => {
                self.progress.add_read(taken as u64);
                Ok(taken)
            }
            Err(error) => Err(error),
        }
    }
}

/// A writer to standard error that erases the line of progress first.
#[derive(Drop)]
pub struct ErrorLines<'p, R> {
    pub rt: &'p R,
    pub progress: &'p Progress,
}

impl<R: Wait> Write for ErrorLines<'_, R> {
    fn write(&mut self, buf: &[u8]) -> io::Result<usize> {
        self.progress.end(self.rt);
        self.progress.print(self.rt, buf);
        Ok(buf.len())
    }

    fn flush(&mut self) -> io::Result<()> {
        Ok(())
    }
}
