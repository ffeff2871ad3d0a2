//! Names and numbers in text.

use std::alloc::{AllocError, Global};
use std::fmt::Write;
use std::str;
use tq_base::{
    Bound, Form, Instant, Name, fold_name, is_name, is_reserved, is_same_word, read_bound,
    read_instant, read_int, read_natural,
};

/// Prints the number, or `none`.
pub(crate) fn print_number(number: Option<u64>, out: &mut String) -> Result<(), AllocError> {
    match number {
        Some(number) => writeln!(out, "{number}"),
        None => out.push_str("none\n"),
    }
}

/// Prints the number of 64 signed bits of the bytes.
pub(crate) fn print_int(bytes: &[u8], out: &mut String) -> Result<(), AllocError> {
    match read_int(bytes) {
        Some(number) => writeln!(out, "{number}"),
        None => out.push_str("none\n"),
    }
}

/// Prints the number of the bytes, up to `most`.
pub(crate) fn print_natural(most: u64, bytes: &[u8], out: &mut String) -> Result<(), AllocError> {
    print_number(read_natural(bytes, most), out)
}

/// Prints the instant and the bound of the bytes.
pub(crate) fn print_instant(bytes: &[u8], out: &mut String) -> Result<(), AllocError> {
    print_number(
        read_instant(bytes, Form::Numbers).map(|instant| instant.number()),
        out,
    )?;
    print_number(
        read_bound(bytes, Form::Numbers).map(|bound| bound.number()),
        out,
    )
}

/// Prints whether the number is an instant, and whether it is a bound.
pub(crate) fn print_instants(number: u64, out: &mut String) -> Result<(), AllocError> {
    let instant = Instant::new(number).is_some();
    let bound = Bound::new(number).is_some();
    writeln!(out, "an instant: {instant}, a bound: {bound}")
}

// A copy of the name that the bytes fold to.
fn folded(alloc: Global, bytes: &[u8]) -> Result<Option<Name>, AllocError> {
    match fold_name(alloc, bytes)? {
        Some(name) => Ok(Some(name.try_copy()?)),
        None => Ok(None),
    }
}

fn print_made(name: &Name, out: &mut String) -> Result<(), AllocError> {
    let text = str::from_utf8(name.bytes()).unwrap_or("no text");
    writeln!(out, "{text}")
}

/// Prints whether the bytes are a name, and the name.
pub(crate) fn print_name(alloc: Global, bytes: &[u8], out: &mut String) -> Result<(), AllocError> {
    writeln!(out, "{}", is_name(bytes))?;
    match folded(alloc, bytes)? {
        Some(name) => print_made(&name, out),
        None => out.push_str("none\n"),
    }
}

/// Prints whether the bytes are a word of the language, and whether they are not a name.
pub(crate) fn print_word(alloc: Global, bytes: &[u8], out: &mut String) -> Result<(), AllocError> {
    let reserved = is_reserved(bytes);
    let no_name = fold_name(alloc, bytes)?.is_none();
    writeln!(out, "a word: {reserved}, no name: {no_name}")
}

/// Prints whether two words are the same.
pub(crate) fn print_same(left: &str, right: &str, out: &mut String) -> Result<(), AllocError> {
    let same = is_same_word(left.as_bytes(), right.as_bytes());
    writeln!(out, "{same}")
}

/// Prints the name of an answer's counts, made from its bytes.
pub(crate) fn print_count_name(alloc: Global, out: &mut String) -> Result<(), AllocError> {
    let bytes = Vec::from_slice(alloc, b"count")?;
    print_made(&Name::of(bytes), out)
}
