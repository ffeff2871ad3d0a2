//! Text from outside, made safe to print.
//!
//! A terminal obeys some characters and does not show them. Control characters move the cursor or end a line, and
//! bidirectional controls change the order of the text around them. `hidden_len` finds such a character in UTF-8, and
//! also the characters that XML does not allow. `push_printable` writes a question mark for each of them, and
//! `write_printable` does the same to a writer, without an allocation. The contracts cite `printable_text` in
//! `specs/Printable.antt`.
#![tactic(auto)]

ghost use Rattle.std.specs.Prelude.{◌≡◌, ◌≤◌, ◌++◌, OnOk, length};
ghost use Rattle.std.specs.Io.KnownBytes.{Appends};
ghost use Rattle.tq_shown.specs.Printable.{is_hidden_pair, is_hidden_triple, hidden_len, mark_of, printable_text};

use std::alloc::AllocError;
use std::io::{self, Write};

// Whether the two bytes are a control character from U+0080 to U+009F, or U+061C.
fn is_hidden_pair(one: u8, two: u8) -> bool
    ensures { result ≡ is_hidden_pair one two }
{
    (one == 0xC2 && two >= 0x80 && two <= 0x9F) || (one == 0xD8 && two == 0x9C)
}

// Whether the three bytes are U+200E, U+200F, U+202A to U+202E, U+2066 to U+2069, U+FFFE or U+FFFF.
fn is_hidden_triple(one: u8, two: u8, three: u8) -> bool
    ensures { result ≡ is_hidden_triple one two three }
{
    (one == 0xE2 && two == 0x80 && (three == 0x8E || three == 0x8F))
        || (one == 0xE2 && two == 0x80 && three >= 0xAA && three <= 0xAE)
        || (one == 0xE2 && two == 0x81 && three >= 0xA6 && three <= 0xA9)
        || (one == 0xEF && two == 0xBF && (three == 0xBE || three == 0xBF))
}

/// The length in bytes of the hidden character at the front: a control character (U+0000 to U+001F, U+007F to U+009F),
/// a bidirectional control (U+061C, U+200E, U+200F, U+202A to U+202E, U+2066 to U+2069), U+FFFE or U+FFFF. 0 if the
/// bytes do not begin with one.
pub fn hidden_len(bytes: &[u8]) -> usize
    ensures value { result ≡ hidden_len bytes.now }
    ensures within { result ≤ length bytes.now }
{
    match bytes {
        [one, ..] if one.is_ascii_control() => 1,
        [one, two, ..] if is_hidden_pair(*one, *two) => 2,
        [one, two, three, ..] if is_hidden_triple(*one, *two, *three) => 3,
        _ => 0,
    }
}

// How the character that begins with the byte is shown. `hidden` is its length in bytes if it is hidden, else 0.
fn mark_of(hidden: usize, byte: u8) -> u8
    ensures { result ≡ mark_of hidden byte }
{
    if hidden > 0 && byte != b'\t' {
        b'?'
    } else {
        byte
    }
}

/// Appends the bytes, with a question mark for each hidden character except the tab. `AllocError` if an allocation
/// failed.
pub fn push_printable(text: &mut Vec<u8>, bytes: &[u8]) -> Result<(), AllocError>
    ensures { OnOk result (text.new.items ≡ text.old.items ++ printable_text bytes.now) }
{
    let mut hidden = 0;
    'bytes: for (place, byte) in bytes.iter().enumerate() {
        if hidden == 0 {
            hidden = hidden_len(&bytes[place..]);
            text.push(mark_of(hidden, *byte))?;
        }
        hidden = hidden.saturating_sub(1);
    }
    Ok(())
}

/// Writes what `push_printable` appends to a writer, character by character, without an allocation. Returns the error
/// of the first write that failed; a part of the text has been written then.
pub fn write_printable<W: Write>(writer: &mut W, bytes: &[u8]) -> io::Result<()>
    ensures { OnOk result (Appends (W.contents writer.old) (W.contents writer.new) (printable_text bytes.now)) }
{
    let mut hidden = 0;
    'bytes: for (place, byte) in bytes.iter().enumerate() {
        if hidden == 0 {
            hidden = hidden_len(&bytes[place..]);
            writer.write_all(&[mark_of(hidden, *byte)])?;
        }
        hidden = hidden.saturating_sub(1);
    }
    Ok(())
}
