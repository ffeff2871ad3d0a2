// The words of the command line. They may not be valid UTF-8, but the parser of the command line takes text. So each
// byte becomes the character with its number, and is converted back later.

ghost use Rattle.std.specs.Prelude.{◌≡◌, IfOk, map};
ghost use Rattle.std.specs.Str.{chars};
ghost use Rattle.std.specs.String.{string_bytes};
ghost use Rattle.tq_cli.specs.ByteText.{byte_of};
ghost use Rattle.tq_cli.specs.CommandLine.{asks_details};

use std::alloc::{AllocError, Global};
use std::env::{Env, FillError};

// The longest word that Linux passes has 128 KiB. The buffer for a word is on the stack and is as large as the stack
// that a query needs. So the stack is allocated while there is memory. A failed allocation of stack later would end the
// program with a signal.
const ROOM: usize = 176 * 1024;

/// The text whose characters have these bytes as their numbers. `AllocError` if an allocation failed.
pub fn char_text(alloc: Global, bytes: &[u8]) -> Result<String, AllocError>
    ensures { IfOk result (λ text. chars (string_bytes text) ≡ bytes.now) }
{
    let mut text = String::new(alloc);
    for byte in bytes {
        text.push(char::from(*byte))?;
    }
    Ok(text)
}

/// The inverse of `char_text`; a character after 255 becomes a question mark. `AllocError` if an allocation failed.
pub fn bytes_of(alloc: Global, text: &str) -> Result<Vec<u8>, AllocError>
    ensures { IfOk result (λ bytes. bytes.items ≡ map byte_of (chars text.now)) }
{
    text.chars()
        .map(|c| u8::try_from(c).unwrap_or(b'?'))
        .collect(alloc)
}

// The word at a place, if there is one. A word that is longer than the buffer is read again into a larger one.
fn read_word<R: Env + AllocGlobal>(
    rt: &R,
    place: usize,
    room: &mut [u8],
) -> Result<Option<String>, AllocError> {
    match rt.arg(place, room) {
        Ok(size) => return Ok(Some(char_text(rt.alloc(), &room[..size])?)),
        Err(FillError::NotPresent) => return Ok(None),
        Err(FillError::TooLong) => {}
    }
    let mut more = ROOM;
    for _ in 0..u64::MAX {
        more = more.saturating_mul(2);
        let mut bytes = vec![in rt.alloc(); 0u8; more]?;
        match rt.arg(place, bytes.as_mut_slice()) {
            Ok(size) => return Ok(Some(char_text(rt.alloc(), &bytes[..size])?)),
            Err(FillError::NotPresent) => return Ok(None),
            Err(FillError::TooLong) => {}
        }
    }
    Err(AllocError)
}

/// The words after the program's name, each converted by `char_text`. Not inlined, so that the buffer leaves the stack
/// with this call. `AllocError` if an allocation failed.
#[inline(never)]
pub fn read_words<R: Env + AllocGlobal>(rt: &R) -> Result<Vec<String>, AllocError> {
    let mut room = [0u8; ROOM];
    let mut words = Vec::new(rt.alloc());
    for place in 1..usize::MAX {
        match read_word(rt, place, &mut room)? {
            Some(word) => words.push(word)?,
            None => break,
        }
    }
    Ok(words)
}

/// Whether the words have `--explain` before any `--`.
pub fn asks_details(mut words: &[String]) -> bool
    ensures { result ≡ asks_details (map (λ w. string_bytes w) words.entry.now) }
{
    'words: while let [word, rest @ ..] = words {
        if word.as_str() == "--" {
            return false;
        }
        if word.as_str() == "--explain" {
            return true;
        }
        words = rest;
    }
    false
}
