// What is printed: to standard output, or to a file that is written as a whole.

use crate::part_file::PartFile;
use crate::report::Refusal;
use std::io::{self, Write};
use std::rt::Files;
use tq_table::Sink;

fn write_bytes<W: Write>(sink: &mut Sink<W>, bytes: &[u8]) -> Result<(), Refusal> {
    match sink.send(bytes) {
        Ok(()) => Ok(()),
        Err(_) => Err(Refusal::WriteFailed),
    }
}

/// Prints the bytes to standard output.
pub fn print_bytes<R: Print>(rt: &R, bytes: &[u8]) -> Result<(), Refusal> {
    write_bytes(&mut Sink::over(io::writer(rt)), bytes)
}

/// Writes the bytes to a new file at the path, or to standard output if it is empty.
pub fn print_to<R: Files + AllocGlobal + Print>(
    rt: &R,
    path: &[u8],
    bytes: &[u8],
) -> Result<(), Refusal> {
    if path.is_empty() {
        return print_bytes(rt, bytes);
    }
    let (part, file) = PartFile::create(rt, path)?;
    let done = write_bytes(&mut Sink::over(file), bytes);
    part.finish(rt, done.is_ok())?;
    done
}
