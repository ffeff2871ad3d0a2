//! Output of blocks.

use std::alloc::AllocError;
use std::fmt::Write;
use std::str;

/// Prints that a block is not understood: its call is unknown, or has other arguments.
pub fn print_nothing(out: &mut String) -> Result<(), AllocError> {
    out.push_str("not understood\n")
}

/// Prints the lines of the bytes.
pub fn push_lines(bytes: &[u8], out: &mut String) -> Result<(), AllocError> {
    for line in str::from_utf8(bytes).unwrap_or("no text").lines() {
        writeln!(out, "{line}")?;
    }
    Ok(())
}

/// Prints the first `most` lines of the bytes, and the number of the others.
pub fn push_first_lines(bytes: &[u8], most: usize, out: &mut String) -> Result<(), AllocError> {
    let mut more: u32 = 0;
    for (place, line) in str::from_utf8(bytes)
        .unwrap_or("no text")
        .lines()
        .enumerate()
    {
        if place < most {
            writeln!(out, "{line}")?;
        } else {
            more = more.saturating_add(1);
        }
    }
    if more > 0 {
        writeln!(out, "and {more} lines more")?;
    }
    Ok(())
}
