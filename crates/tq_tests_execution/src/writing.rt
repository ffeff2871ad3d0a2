//! Answers to writers that take a part of the bytes, or fail.

ghost use Rattle.std.specs.Prelude.{◌≤◌};

use crate::making::sums_of;
use std::alloc::{AllocError, Global};
use std::fmt::Write as Format;
use std::io::{self, ErrorKind, Write};
use std::thread::Threads;
use tq_base::Form;
use tq_engine::{AnswerFault, answer_bytes, query_files};
use tq_event::TableFile;
use tq_table::Sink;
use tq_tests_script::push_lines;

// Takes at most `most` bytes a call, and fails at one of its calls. It counts its calls.
#[derive(Drop)]
struct PartWriter {
    taken: Vec<u8>,
    most: usize,
    fails_at: u32,
    calls: u32,
}

impl Write for PartWriter {
    fn write(&mut self, buf: &[u8]) -> io::Result<usize> {
        self.calls = self.calls.saturating_add(1);
        if self.calls == self.fails_at {
            return Err(io::Error::from(ErrorKind::Other));
        }
        let taken = buf.len().min(self.most);
        self.taken.extend_from_slice(&buf[..taken])?;
        Ok(taken)
    }

    fn flush(&mut self) -> io::Result<()> {
        Ok(())
    }
}

// The calls: two for a small answer, one that fails, and those for the header and the 64 ranges of rows of a large
// answer.
const CALLS: usize = 68;

/// Prints the fault, if there is one, and the number of failed writes.
pub(crate) fn print_fault(
    written: Result<(), AnswerFault>,
    failed: u64,
    out: &mut String,
) -> Result<(), AllocError> {
    match written {
        Ok(()) => Ok(()),
        Err(fault) => writeln!(out, "{fault:?}"),
    }?;
    if failed > 0 {
        writeln!(out, "{failed} failed")?;
    }
    Ok(())
}

/// Writes an answer into memory and returns the bytes. Prints the fault and the number of failed writes.
pub(crate) fn answer_in_memory<R: Threads + Sync>(
    rt: &R,
    alloc: Global,
    files: Vec<TableFile>,
    statement: &str,
    workers: u32,
    form: Form,
    out: &mut String,
) -> Result<Vec<u8>, AllocError>
    requires some { 1 ≤ workers }
    requires few { workers ≤ 16 }
{
    let mut taken = Vec::new(alloc);
    let mut sink = Sink::over(&mut taken);
    let written = answer_bytes(
        rt,
        alloc,
        files,
        statement.as_bytes(),
        workers,
        &mut sink,
        form,
    );
    print_fault(written, sink.failed(), out)?;
    Ok(taken)
}

/// Writes an answer to a writer that takes `most` bytes a call and fails at call `fails_at`.
pub(crate) fn print_broken<R: Threads + Sync>(
    rt: &R,
    alloc: Global,
    files: Vec<TableFile>,
    [most, fails_at]: [u32; 2],
    statement: &str,
    out: &mut String,
) -> Result<(), AllocError> {
    let mut writer = PartWriter {
        taken: Vec::new(alloc),
        most: most as usize,
        fails_at,
        calls: 0,
    };
    let mut sink = Sink::over(&mut writer);
    let written = answer_bytes(
        rt,
        alloc,
        files,
        statement.as_bytes(),
        1,
        &mut sink,
        Form::Numbers,
    );
    print_fault(written, sink.failed(), out)?;
    push_lines(&writer.taken, out)?;
    writeln!(out, "{} calls", writer.calls)
}

// Whether the writer took the text of a small answer and the sums of `count` big lines, more than a megabyte. It may
// have `CALLS` calls, and one for each 65,536 bytes of the sums.
fn is_whole(alloc: Global, writer: &PartWriter, count: u32) -> Result<bool, AllocError> {
    let small = b"k,from,to\n7,7,17\n";
    let (first, rest) = writer.taken.split_at(small.len().min(writer.taken.len()));
    let most = rest.len().div_ceil(65_536).saturating_add(CALLS);
    let wanted = sums_of(alloc, count)?;
    let is_right = first == small.as_slice() && rest == wanted.as_bytes();
    Ok(is_right && rest.len() > 1_000_000 && writer.calls as usize <= most)
}

/// Writes a small answer, then a large one, and the large one again, to a writer that takes 65,536 bytes a call. The
/// first call for the first large answer fails. Prints each result, and whether all bytes were taken.
pub(crate) fn print_after_failure<R: Threads + Sync>(
    rt: &R,
    alloc: Global,
    copies: Vec<Vec<TableFile>>,
    count: u32,
    out: &mut String,
) -> Result<(), AllocError> {
    let mut writer = PartWriter {
        taken: Vec::new(alloc),
        most: 65_536,
        fails_at: 3,
        calls: 0,
    };
    let mut sink = Sink::over(&mut writer);
    let small = "VALIDTIME SELECT k FROM big WHERE k = 7";
    let large = format!(in alloc;
        "VALIDTIME SELECT g, SUM(k) FROM big WHERE k < {count} GROUP BY g"
    )?;
    for (place, files) in copies.into_iter().enumerate() {
        let statement = if place == 0 { small } else { large.as_str() };
        let written = answer_bytes(
            rt,
            alloc,
            files,
            statement.as_bytes(),
            16,
            &mut sink,
            Form::Numbers,
        );
        writeln!(out, "{written:?}, {} failed", sink.failed())?;
    }
    let whole = is_whole(alloc, &writer, count)?;
    writeln!(out, "all was taken: {whole}")
}

/// Prints the numbers of columns and rows of an answer, and the columns' names.
pub(crate) fn print_shape<R: Threads + Sync>(
    rt: &R,
    alloc: Global,
    files: Vec<TableFile>,
    statement: &str,
    out: &mut String,
) -> Result<(), AllocError> {
    match query_files(rt, alloc, files, statement.as_bytes(), 3, Form::Numbers) {
        Ok(table) => {
            let columns = table.columns.get();
            writeln!(out, "{} columns, {} rows", columns.len(), table.rows.len())?;
            for column in columns {
                push_lines(column.bytes(), out)?;
            }
            Ok(())
        }
        Err(fault) => writeln!(out, "{fault:?}"),
    }
}
