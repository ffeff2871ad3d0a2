//! Sessions over a table, and their output.

use crate::streams::{Screen, ShortWriter, Typist};
use std::alloc::{AllocError, Global};
use std::fmt::Write;
use std::io::Read;
use std::sync::Wait;
use std::sync::atomic::AtomicU64;
use std::thread::Threads;
use tq_base::Form;
use tq_engine::Source;
use tq_event::TableFile;
use tq_session::{SessionFault, Unobserved, session};
use tq_table::Sink;
use tq_tests_script::{SlowReader, push_lines};

// Prints the output line by line, and how the session ended.
fn print_printed(
    bytes: &[u8],
    ended: &Result<(), SessionFault>,
    out: &mut String,
) -> Result<(), AllocError> {
    push_lines(bytes, out)?;
    print_end(bytes, ended, out)
}

// Prints how a session ended, unless with the end of its input and a complete line.
fn print_end(
    bytes: &[u8],
    ended: &Result<(), SessionFault>,
    out: &mut String,
) -> Result<(), AllocError> {
    if !bytes.is_empty() && !bytes.ends_with(b"\n") {
        out.push_str("(no line end)\n")?;
    }
    match ended {
        Ok(()) => Ok(()),
        Err(SessionFault::Load(fault)) => writeln!(out, "(files are refused: {fault})"),
        Err(SessionFault::NoPlace) => out.push_str("(no place)\n"),
        Err(SessionFault::Read) => out.push_str("(a read failed)\n"),
        Err(SessionFault::Write) => out.push_str("(a write failed)\n"),
        Err(SessionFault::OutOfMemory) => out.push_str("(out of memory)\n"),
    }
}

// The output for the input, and how the session ended.
fn printed<R: Threads + Wait + Sync, I: Read + Drop>(
    rt: &R,
    alloc: Global,
    files: Vec<TableFile>,
    form: Form,
    input: I,
) -> (Vec<u8>, Result<(), SessionFault>) {
    let mut source = Source::over(input);
    let mut taken = Vec::new(alloc);
    let mut sink = Sink::over(&mut taken);
    let ended = session(
        rt,
        alloc,
        files,
        &mut source,
        &mut sink,
        &mut Unobserved,
        form,
    );
    (taken, ended)
}

/// Prints the output for the input by a reader that gives a byte a call, and fails after `good_calls` calls.
pub(crate) fn print_slow<R: Threads + Wait + Sync>(
    rt: &R,
    alloc: Global,
    files: Vec<TableFile>,
    form: Form,
    input: &[u8],
    good_calls: u32,
    out: &mut String,
) -> Result<(), AllocError> {
    let slow = SlowReader::new(input, good_calls);
    let (bytes, ended) = printed(rt, alloc, files, form, slow);
    print_printed(&bytes, &ended, out)
}

/// Prints the output for the input by a reader that gives all of it.
pub(crate) fn print_session<R: Threads + Wait + Sync>(
    rt: &R,
    alloc: Global,
    files: Vec<TableFile>,
    form: Form,
    input: &[u8],
    out: &mut String,
) -> Result<(), AllocError> {
    let (bytes, ended) = printed(rt, alloc, files, form, input);
    print_printed(&bytes, &ended, out)
}

/// Prints the bytes that a writer got which takes `room` bytes and then fails.
pub(crate) fn print_short<R: Threads + Wait + Sync>(
    rt: &R,
    alloc: Global,
    files: Vec<TableFile>,
    form: Form,
    input: &[u8],
    room: u32,
    out: &mut String,
) -> Result<(), AllocError> {
    let mut source = Source::over(input);
    let mut writer = ShortWriter {
        taken: Vec::new(alloc),
        room: room as usize,
    };
    let mut sink = Sink::over(&mut writer);
    let ended = session(
        rt,
        alloc,
        files,
        &mut source,
        &mut sink,
        &mut Unobserved,
        form,
    );
    let failed = sink.failed();
    print_printed(&writer.taken, &ended, out)?;
    writeln!(out, "({failed} failed)")
}

/// Prints the number of bytes printed when each line of the input began to be read, and the number of writes.
pub(crate) fn print_noted<R: Threads + Wait + Sync>(
    rt: &R,
    alloc: Global,
    files: Vec<TableFile>,
    form: Form,
    input: &[u8],
    out: &mut String,
) -> Result<(), AllocError> {
    let printed = AtomicU64::new(0);
    let mut typist = Typist {
        left: input,
        printed: &printed,
        begins: true,
        noted: Vec::new(alloc),
    };
    let mut source = Source::over(&mut typist);
    let mut screen = Screen {
        printed: &printed,
        taken: 0,
        writes: 0,
    };
    let mut sink = Sink::over(&mut screen);
    let ended = session(
        rt,
        alloc,
        files,
        &mut source,
        &mut sink,
        &mut Unobserved,
        form,
    );
    print_end(b"", &ended, out)?;
    writeln!(out, "{:?}, {} writes", typist.noted, screen.writes)
}
