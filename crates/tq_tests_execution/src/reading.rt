//! Files that are read a byte a call, by a reader that fails at one of the calls, and from memory.

ghost use Rattle.std.specs.Prelude.{◌≡◌, IfOk};

use std::alloc::{AllocError, Global};
use std::fmt::Write;
use tq_engine::{FileFault, Source, read_file};
use tq_tests_script::SlowReader;

// Prints the number of bytes if they are complete, or the fault.
fn print_read(
    read: Result<Vec<u8>, FileFault>,
    bytes: &[u8],
    out: &mut String,
) -> Result<(), AllocError> {
    match read {
        Ok(again) if again.as_slice() == bytes => writeln!(out, "{} bytes", bytes.len()),
        Ok(_) => writeln!(out, "other bytes"),
        Err(fault) => writeln!(out, "{fault:?}"),
    }
}

/// Reads the bytes with a reader that fails after `good_calls` calls.
pub(crate) fn print_slow(
    alloc: Global,
    bytes: &[u8],
    good_calls: u32,
    out: &mut String,
) -> Result<(), AllocError> {
    let mut reader = SlowReader::new(bytes, good_calls);
    let mut source = Source::over(&mut reader);
    print_read(read_file(alloc, &mut source), bytes, out)?;
    let failed = source.failed();
    writeln!(out, "{failed} failed, {} calls", reader.calls())
}

/// Reads `count` bytes, a byte a call.
pub(crate) fn print_many(alloc: Global, count: u32, out: &mut String) -> Result<(), AllocError> {
    let mut bytes = Vec::new(alloc);
    for number in 0..count {
        bytes.push((number % 251) as u8)?;
    }
    print_slow(alloc, &bytes, 100_000, out)
}

// A caller by contract: from a slice, all of its bytes are read.
fn reread(alloc: Global, bytes: &[u8]) -> Result<Vec<u8>, FileFault>
    ensures { IfOk result (λ v. v.items ≡ bytes.now) }
{
    let mut source = Source::over(bytes);
    read_file(alloc, &mut source)
}

/// Reads the bytes from memory.
pub(crate) fn print_again(alloc: Global, bytes: &[u8], out: &mut String) -> Result<(), AllocError> {
    print_read(reread(alloc, bytes), bytes, out)
}
