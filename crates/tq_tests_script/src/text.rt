//! Texts of a script, with a backslash before a byte that cannot be written in a line.

use std::alloc::{AllocError, Global};
use std::str;

// The number of a hexadecimal digit; 0 for another byte.
fn digit_of(byte: u8) -> u8 {
    match byte {
        b'0'..=b'9' => byte - b'0',
        b'A'..=b'F' => byte - b'A' + 10,
        _ => 0,
    }
}

// The byte of a letter after a backslash; the letter itself if it has no other meaning.
fn escaped(letter: u8) -> u8 {
    match letter {
        b'n' => b'\n',
        b'r' => b'\r',
        b't' => b'\t',
        b's' => b' ',
        b'c' => b',',
        b'0' => b'\0',
        _ => letter,
    }
}

// The meaning of the next byte of a text.
#[derive(Clone, Copy)]
enum Place {
    Text,
    AfterBackslash,
    FirstDigit,
    SecondDigit { first: u8 },
}

// Adds the byte, or the byte whose escape ends with it. Returns the meaning of the next byte.
fn add(bytes: &mut Vec<u8>, place: Place, byte: u8) -> Result<Place, AllocError> {
    match place {
        Place::Text if byte == b'\\' => return Ok(Place::AfterBackslash),
        Place::Text => bytes.push(byte)?,
        Place::AfterBackslash if byte == b'x' => return Ok(Place::FirstDigit),
        Place::AfterBackslash => bytes.push(escaped(byte))?,
        Place::FirstDigit => {
            return Ok(Place::SecondDigit {
                first: digit_of(byte),
            });
        }
        Place::SecondDigit { first } => {
            bytes.push(first.wrapping_mul(16).wrapping_add(digit_of(byte)))?;
        }
    }
    Ok(Place::Text)
}

/// The bytes of a text. `\n`, `\r`, `\t`, `\s` and `\c` are line feed, carriage return, tab, space and comma, `\0` is
/// the byte 0, `\xHH` a byte, and a backslash before another character is that character.
pub fn unescape(alloc: Global, text: &str) -> Result<Vec<u8>, AllocError> {
    let mut bytes = Vec::new(alloc);
    let mut place = Place::Text;
    for byte in text.as_bytes() {
        place = add(&mut bytes, place, *byte)?;
    }
    Ok(bytes)
}

/// The text that `unescape` gives; empty if its bytes are not UTF-8.
pub fn unescape_text(alloc: Global, text: &str) -> Result<String, AllocError> {
    let bytes = unescape(alloc, text)?;
    match str::from_utf8(&bytes) {
        Ok(text) => String::from_str(alloc, text),
        Err(_) => Ok(String::new(alloc)),
    }
}

/// The number before the first space, 0 if there is none, and the text after the space.
pub fn number_and(text: &str) -> (u32, &str) {
    let (number, rest) = text.split_once(' ').unwrap_or((text, ""));
    (number.parse().unwrap_or(0), rest)
}
