//! The meaning of words.

use std::alloc::{AllocError, Global};

/// One above the greatest key.
pub(crate) const TOP: u128 = 79228162514264337593543950336;

/// The last version that a tree can have.
pub(crate) const LAST: u32 = 16777216;

/// The key of a row.
pub(crate) fn key_of(front: u64, row: u32) -> u128 {
    front as u128 * 4294967296 + row as u128
}

// The key of a front and a row, with a colon between them.
fn row_key(word: &str) -> Option<u128> {
    let (front, row) = word.split_once(':')?;
    Some(key_of(front.parse().ok()?, row.parse().ok()?))
}

// The number of a word.
fn number_of(word: &str) -> Option<u128> {
    match word {
        "least" => Some(0),
        "top" => Some(TOP),
        _ => word.parse().ok().or(row_key(word)),
    }
}

/// The numbers of the words, up to the first that is not a number.
pub(crate) fn numbers_of(alloc: Global, words: &str) -> Result<Vec<u128>, AllocError> {
    let mut numbers = Vec::new(alloc);
    for word in words.split_whitespace() {
        match number_of(word) {
            Some(number) => numbers.push(number)?,
            None => return Ok(numbers),
        }
    }
    Ok(numbers)
}

/// The number in 32 bits, or the greatest of these.
pub(crate) fn small(number: u128) -> u32 {
    u32::try_from(number).unwrap_or(u32::MAX)
}

/// The number in 64 bits, or the greatest of these.
pub(crate) fn long(number: u128) -> u64 {
    u64::try_from(number).unwrap_or(u64::MAX)
}

/// The numbers in 32 bits.
pub(crate) fn small_of(alloc: Global, numbers: &[u128]) -> Result<Vec<u32>, AllocError> {
    let mut all = Vec::new(alloc);
    for number in numbers {
        all.push(small(*number))?;
    }
    Ok(all)
}

/// The numbers of the words, in 32 bits.
pub(crate) fn small_numbers_of(alloc: Global, words: &str) -> Result<Vec<u32>, AllocError> {
    small_of(alloc, &numbers_of(alloc, words)?)
}
