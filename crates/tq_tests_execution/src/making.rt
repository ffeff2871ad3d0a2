//! Table files with many rows, and a large answer that follows from them.

use std::alloc::{AllocError, Global};
use std::fmt::Write;
use tq_tests_script::{Block, Draws, TableFiles, number_and};

// `count` rows. Row i has the key i and the group i modulo 10, from i to i + 10.
fn big_rows(alloc: Global, count: u32) -> Result<Vec<u8>, AllocError> {
    let mut bytes = Vec::new(alloc);
    let mut text = String::new(alloc);
    for number in 0..count {
        let end = number.saturating_add(10);
        text.clear();
        writeln!(text, "{number},{},{number},{end}", number % 10)?;
        bytes.extend_from_slice(text.as_bytes())?;
    }
    Ok(bytes)
}

// Sixteen numbers, and the period between the first and the one after the last.
fn push_sixteen(first: u32, text: &mut String) -> Result<(), AllocError> {
    for more in 0..16 {
        write!(text, "{},", first.saturating_add(more))?;
    }
    writeln!(text, "{first},{}", first.saturating_add(16))
}

// `count` rows. Row j has the numbers from 16 j to 16 j + 15, from 16 j to 16 j + 16.
fn wide_rows(alloc: Global, count: u32) -> Result<Vec<u8>, AllocError> {
    let mut bytes = Vec::new(alloc);
    let mut text = String::new(alloc);
    for row in 0..count {
        text.clear();
        push_sixteen(row.saturating_mul(16), &mut text)?;
        bytes.extend_from_slice(text.as_bytes())?;
    }
    Ok(bytes)
}

// For each tenth of `count` big rows from this one on: the group, the key as the only sum, and the period.
fn push_sums(group: u32, count: u32, text: &mut String) -> Result<(), AllocError> {
    for tenth in 0..count / 10 {
        let key = tenth.saturating_mul(10).saturating_add(group);
        writeln!(text, "{group},{key},{key},{}", key.saturating_add(10))?;
    }
    Ok(())
}

/// The sums of the keys of each group of `count` big rows.
pub(crate) fn sums_of(alloc: Global, count: u32) -> Result<String, AllocError> {
    let mut text = String::from_str(alloc, "g,sum,from,to\n")?;
    for group in 0..10 {
        push_sums(group, count, &mut text)?;
    }
    Ok(text)
}

// Rows with only a key: number i, from i on.
fn open_rows(alloc: Global, count: u32) -> Result<String, AllocError> {
    let mut text = String::new(alloc);
    for number in 0..count {
        writeln!(text, "{number},{number},forever")?;
    }
    Ok(text)
}

// A row with a key from 0 to 96, in no order.
fn push_keyed(first: u32, row: u32, text: &mut String) -> Result<(), AllocError> {
    let key = row.wrapping_add(first).wrapping_mul(31) % 97;
    let other = row.wrapping_mul(13) % 97;
    let from = row % 41;
    let to = from + 1 + row % 13;
    writeln!(text, "{key},v{from},{other},{from},{to}")
}

fn keyed_rows(alloc: Global, first: u32) -> Result<String, AllocError> {
    let mut text = String::new(alloc);
    for row in 0..300 {
        push_keyed(first, row, &mut text)?;
    }
    Ok(text)
}

/// Runs the block if it makes tables; whether it does.
pub(crate) fn make(
    alloc: Global,
    block: &Block,
    files: &mut TableFiles,
) -> Result<bool, AllocError> {
    let count = number_and(block.arguments()).0;
    match block.word() {
        "big" => files.add(&big_rows(alloc, count)?)?,
        "wide" => files.add(&wide_rows(alloc, count)?)?,
        "open" => files.add(open_rows(alloc, count)?.as_bytes())?,
        "keyed" => files.add(keyed_rows(alloc, count)?.as_bytes())?,
        _ => return files.run(alloc, block),
    }
    Ok(true)
}

// The number of rows of a random table.
const ROWS: u32 = 60;

// A random row with one of a few keys.
fn random_row(alloc: Global, draws: &mut Draws) -> Result<String, AllocError> {
    let key = draws.below(7);
    let dept = draws.below(3);
    let from = draws.below(50);
    let to = from.saturating_add(1).saturating_add(draws.below(20));
    format!(in alloc; "{key},n{key},d{dept},{from},{to}\n")
}

/// The file of a random table of staff.
pub(crate) fn random_files(alloc: Global, draws: &mut Draws) -> Result<TableFiles, AllocError> {
    let mut files = TableFiles::new(alloc);
    files.begin(alloc, "emp", &[])?;
    files.add(b"emp:int,name:text,dept:text,from,to\n")?;
    for _ in 0..ROWS {
        let row = random_row(alloc, draws)?;
        files.add(row.as_str().as_bytes())?;
    }
    Ok(files)
}
