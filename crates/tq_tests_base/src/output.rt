//! The text of tables, and writers that take all of it or a part.

use crate::operators::copy_of;
use crate::words::{push_text, text_of};
use std::alloc::{AllocError, Global};
use std::fmt::Write as Format;
use std::io::{self, ErrorKind, Write};
use std::str;
use tq_base::{Form, List, Relation, Rows, fold_name};
use tq_table::{ResultRows, Sink, Table, WriteFault, coalesce, table_text, write_table};

// The result of the writer's calls after its room is used up.
#[derive(Clone, Copy)]
enum AtEnd {
    Fails,
    TakesNothing,
}

// Takes at most `most` bytes a call until its room is used up. It counts its calls.
#[derive(Drop)]
struct ShortWriter {
    taken: Vec<u8>,
    most: usize,
    room: usize,
    at_end: AtEnd,
    flushes: bool,
    calls: u32,
}

impl Write for ShortWriter {
    fn write(&mut self, buf: &[u8]) -> io::Result<usize> {
        self.calls = self.calls.saturating_add(1);
        if self.room == 0 {
            return match self.at_end {
                AtEnd::Fails => Err(io::Error::from(ErrorKind::Other)),
                AtEnd::TakesNothing => Ok(0),
            };
        }
        let taken = buf.len().min(self.room).min(self.most);
        self.taken.extend_from_slice(&buf[..taken])?;
        self.room -= taken;
        Ok(taken)
    }

    fn flush(&mut self) -> io::Result<()> {
        self.calls = self.calls.saturating_add(1);
        if self.flushes {
            Ok(())
        } else {
            Err(io::Error::from(ErrorKind::Other))
        }
    }
}

// A table of these rows, with columns of these names.
pub(crate) fn table_of<'a>(
    alloc: Global,
    rows: ResultRows<'a>,
    names: &[&str],
) -> Result<Table<'a>, AllocError> {
    let mut columns = Vec::new(alloc);
    for name in names {
        if let Some(name) = fold_name(alloc, name.as_bytes())? {
            columns.push(name)?;
        }
    }
    Ok(Table {
        columns: List::of(columns),
        rows,
    })
}

// The rows in their order, each as one row of a result.
pub(crate) fn lines<'a>(alloc: Global, rows: &Rows) -> Result<ResultRows<'a>, AllocError> {
    Ok(ResultRows::of(Relation::owned(alloc, copy_of(alloc, rows)?)?))
}

// The layers of the rows.
fn layers<'a>(alloc: Global, rows: &Rows) -> Result<ResultRows<'a>, AllocError> {
    coalesce(alloc, Relation::owned(alloc, copy_of(alloc, rows)?)?)
}

fn print_bytes(bytes: &[u8], out: &mut String) -> Result<(), AllocError> {
    push_text(str::from_utf8(bytes).unwrap_or("no text"), out)?;
    out.push('\n')
}

/// Prints the text of a table of the rows, or of their layers.
pub(crate) fn print_text(
    alloc: Global,
    rows: &Rows,
    names: &[&str],
    coalesced: bool,
    out: &mut String,
) -> Result<(), AllocError> {
    let lines = if coalesced {
        layers(alloc, rows)?
    } else {
        lines(alloc, rows)?
    };
    let table = table_of(alloc, lines, names)?;
    print_bytes(&table_text(alloc, &table, Form::Numbers)?, out)
}

// Prints the result of a send: outcome, write failures so far, bytes accepted.
fn print_sent(
    sent: Result<(), WriteFault>,
    failed: u64,
    taken: &[u8],
    out: &mut String,
) -> Result<(), AllocError> {
    let said = match sent {
        Ok(()) => "Ok",
        Err(WriteFault::Write) => "Write",
        Err(WriteFault::OutOfMemory) => "OutOfMemory",
    };
    writeln!(out, "{said}, failed {failed}")?;
    print_bytes(taken, out)
}

/// Sends a table of the rows into memory.
pub(crate) fn send(
    alloc: Global,
    rows: &Rows,
    names: &[&str],
    out: &mut String,
) -> Result<(), AllocError> {
    let table = table_of(alloc, lines(alloc, rows)?, names)?;
    let mut taken = Vec::new(alloc);
    let mut sink = Sink::over(&mut taken);
    let sent = write_table(alloc, &table, &mut sink, Form::Numbers);
    let failed = sink.failed();
    print_sent(sent, failed, &taken, out)
}

/// Sends a table of the rows to a writer that takes five bytes and then fails.
pub(crate) fn send_short(
    alloc: Global,
    rows: &Rows,
    names: &[&str],
    out: &mut String,
) -> Result<(), AllocError> {
    let table = table_of(alloc, lines(alloc, rows)?, names)?;
    let mut writer = ShortWriter {
        taken: Vec::new(alloc),
        most: 5,
        room: 5,
        at_end: AtEnd::Fails,
        flushes: true,
        calls: 0,
    };
    let mut sink = Sink::over(&mut writer);
    let sent = write_table(alloc, &table, &mut sink, Form::Numbers);
    let failed = sink.failed();
    print_sent(sent, failed, &writer.taken, out)
}

/// Sends bytes to a writer with this room, three bytes a call. Prints also how often it was called.
pub(crate) fn send_bytes(
    alloc: Global,
    [room, at_end, flushes, text]: [&str; 4],
    out: &mut String,
) -> Result<(), AllocError> {
    let text = text_of(alloc, text)?;
    let mut writer = ShortWriter {
        taken: Vec::new(alloc),
        most: 3,
        room: room.parse().unwrap_or(0),
        at_end: if at_end == "fails" {
            AtEnd::Fails
        } else {
            AtEnd::TakesNothing
        },
        flushes: flushes == "flushes",
        calls: 0,
    };
    let mut sink = Sink::over(&mut writer);
    let sent = sink.send(text.as_bytes());
    let failed = sink.failed();
    print_sent(sent, failed, &writer.taken, out)?;
    writeln!(out, "{} calls", writer.calls)
}

// The bytes in memory after the bytes were sent there.
fn sent(alloc: Global, bytes: &[u8]) -> Result<Vec<u8>, WriteFault> {
    let mut taken = Vec::new(alloc);
    Sink::over(&mut taken).send(bytes)?;
    Ok(taken)
}

/// Prints the bytes in memory after the text was sent there.
pub(crate) fn print_memory(alloc: Global, text: &str, out: &mut String) -> Result<(), AllocError> {
    let text = text_of(alloc, text)?;
    match sent(alloc, text.as_bytes()) {
        Ok(bytes) => print_bytes(&bytes, out),
        Err(fault) => print_sent(Err(fault), 0, &[], out),
    }
}

/// Prints the numbers of the faults.
pub(crate) fn print_faults(out: &mut String) -> Result<(), AllocError> {
    let write = WriteFault::Write as u32;
    let memory = WriteFault::OutOfMemory as u32;
    writeln!(out, "Write {write}, OutOfMemory {memory}")
}
