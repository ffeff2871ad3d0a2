// The places of the names in a statement's text.

ghost use Rattle.std.specs.Prelude.{◌≡◌, ◌<◌, ◌++◌, IfSome, OnOk, length};
ghost use Rattle.tq_diagnostics.specs.NamePlaces.{begins_name, left_after, name_place, pointed_name, quoted_after, within_after};

use crate::pointing::push_pointed;
use std::alloc::{AllocError, Global};
use tq_base::{is_name_byte, is_name_start, is_reserved, is_same_word, word_length};

/// Whether a quote is open after the byte.
pub(crate) fn quoted_after(quoted: bool, byte: u8) -> bool
    ensures { result ≡ quoted_after quoted byte }
{
    if byte == b'\'' { !quoted } else { quoted }
}

// Whether the byte belongs to a word.
fn within_after(quoted: bool, within: bool, byte: u8) -> bool
    ensures { result ≡ within_after quoted within byte }
{
    if quoted {
        return false;
    }
    if within {
        is_name_byte(byte)
    } else {
        is_name_start(byte)
    }
}

// Whether a name begins with the first byte.
fn begins_name(quoted: bool, within: bool, bytes: &[u8]) -> bool
    ensures { result ≡ begins_name quoted within bytes.now }
{
    match bytes {
        [] => false,
        [byte, ..] => {
            !quoted && !within && is_name_start(*byte) && !is_reserved(&bytes[..word_length(bytes)])
        }
    }
}

// The number of names that remain to be skipped.
fn left_after(begins: bool, left: usize) -> usize
    ensures { result ≡ left_after begins left }
{
    if begins { left.saturating_sub(1) } else { left }
}

// The byte at which the name with this number begins; the first one has number 0.
fn name_place(bytes: &[u8], number: usize) -> Option<usize>
    ensures value { result ≡ name_place bytes.now number }
    ensures within { IfSome result (λ place. place < length bytes.now) }
{
    let mut quoted = false;
    let mut within = false;
    let mut left = number;
    'bytes: for (place, byte) in bytes.iter().enumerate() {
        let begins = begins_name(quoted, within, &bytes[place..]);
        if begins && left == 0 {
            return Some(place);
        }
        left = left_after(begins, left);
        within = within_after(quoted, within, *byte);
        quoted = quoted_after(quoted, *byte);
    }
    None
}

/// Appends the line of the name with this number, and a caret below it; nothing if another word is there.
pub(crate) fn push_pointed_name(
    alloc: Global,
    text: &mut Vec<u8>,
    bytes: &[u8],
    number: usize,
    name: &[u8],
) -> Result<(), AllocError>
    ensures { OnOk result (text.new.items ≡ text.old.items ++ pointed_name bytes.now number name.now) }
{
    let Some(place) = name_place(bytes, number) else {
        return Ok(());
    };
    let rest = &bytes[place..];
    if !is_same_word(&rest[..word_length(rest)], name) {
        return Ok(());
    }
    push_pointed(alloc, text, bytes, place)
}
