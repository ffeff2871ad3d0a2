// The line of a byte, with a caret below it.

ghost use Rattle.std.specs.Prelude.{◌≡◌, ◌≤◌, ◌++◌, IfOk, OnOk, length};
ghost use Rattle.std.specs.Fmt.{is_char_start};
ghost use Rattle.std.specs.List.{flat_map, prefix_len};
ghost use Rattle.tq_diagnostics.specs.Pointing.{blank_byte, caret, char_count, chars_len, first_chars, is_in_line, last_chars, last_line, pointed, pointed_between, shown_count, ellipsis_if, window};

use std::alloc::{AllocError, Global};
use tq_shown::push_printable;

// The most characters of a line that are shown.
const MAX_SHOWN: usize = 72;

// The number of bytes before the first line feed.
fn line_length(bytes: &[u8]) -> usize
    ensures value { result ≡ prefix_len is_in_line bytes.now }
    ensures within { result ≤ length bytes.now }
{
    for (place, byte) in bytes.iter().enumerate() {
        if *byte == b'\n' {
            return place;
        }
    }
    bytes.len()
}

// The bytes after the last line feed.
fn last_line(alloc: Global, bytes: &[u8]) -> Result<Vec<u8>, AllocError>
    ensures { IfOk result (λ line. line.items ≡ last_line bytes.now) }
{
    let mut line = Vec::new(alloc);
    'bytes: for byte in bytes {
        if *byte == b'\n' {
            line.clear();
        } else {
            line.push(*byte)?;
        }
    }
    Ok(line)
}

// Whether a character begins with the byte.
fn is_char_start(byte: u8) -> bool
    ensures { result ≡ is_char_start byte }
{
    byte < 0x80 || byte >= 0xC0
}

// Appends what is below a byte before the caret: a tab, a space, or nothing.
fn push_blank(text: &mut Vec<u8>, byte: u8) -> Result<(), AllocError>
    ensures { OnOk result (text.new.items ≡ text.old.items ++ blank_byte byte) }
{
    if byte == b'\t' {
        text.push(b'\t')?;
    } else if is_char_start(byte) {
        text.push(b' ')?;
    }
    Ok(())
}

// Appends a blank for each character of the line, and a tab for each tab.
fn push_blanks(text: &mut Vec<u8>, line: &[u8]) -> Result<(), AllocError>
    ensures { OnOk result (text.new.items ≡ text.old.items ++ flat_map blank_byte line.now) }
{
    'bytes: for byte in line {
        push_blank(text, *byte)?;
    }
    Ok(())
}

// The number of characters.
fn char_count(bytes: &[u8]) -> usize
    ensures value { result ≡ char_count bytes.now }
    ensures within { result ≤ length bytes.now }
{
    bytes.iter().filter(|byte| is_char_start(**byte)).count()
}

// The length in bytes of the first `count` characters.
fn chars_len(bytes: &[u8], count: usize) -> usize
    ensures value { result ≡ chars_len count bytes.now }
    ensures within { result ≤ length bytes.now }
{
    let mut left = count;
    'bytes: for (place, byte) in bytes.iter().enumerate() {
        if is_char_start(*byte) {
            if left == 0 {
                return place;
            }
            left -= 1;
        }
    }
    bytes.len()
}

// The first `count` characters, or all if there are fewer.
fn first_chars(bytes: &[u8], count: usize) -> &[u8]
    ensures { result.now ≡ first_chars count bytes.entry.now }
{
    &bytes[..chars_len(bytes, count)]
}

// The last `count` characters, or all if there are fewer.
fn last_chars(bytes: &[u8], count: usize) -> &[u8]
    ensures { result.now ≡ last_chars count bytes.entry.now }
{
    let all = char_count(bytes);
    if count < all {
        return &bytes[chars_len(bytes, all - count)..];
    }
    bytes
}

// The number of characters that are shown on one side of the place, given those on each side.
fn shown_count(here: usize, there: usize) -> usize
    ensures { result ≡ shown_count here there }
{
    here.min(MAX_SHOWN - there.min(MAX_SHOWN / 2))
}

// Appends the mark if some characters are not shown.
fn push_ellipsis(
    text: &mut Vec<u8>,
    count: usize,
    bytes: &[u8],
    mark: &[u8],
) -> Result<(), AllocError>
    ensures { OnOk result (text.new.items ≡ text.old.items ++ ellipsis_if count bytes.now mark.now) }
{
    if count < char_count(bytes) {
        return text.extend_from_slice(mark);
    }
    Ok(())
}

// Appends `before` characters before a place, and `after` characters from it on.
fn push_window(
    text: &mut Vec<u8>,
    before: usize,
    after: usize,
    front: &[u8],
    rest: &[u8],
) -> Result<(), AllocError>
    ensures { OnOk result (text.new.items ≡ text.old.items ++ window before after front.now rest.now) }
{
    text.extend_from_slice(b"  ")?;
    push_ellipsis(text, before, front, b"..")?;
    push_printable(text, last_chars(front, before))?;
    push_printable(text, first_chars(rest, after))?;
    push_ellipsis(text, after, rest, b"..")?;
    text.extend_from_slice(b"\n")
}

// Appends a caret after the `before` characters that are shown before it.
fn push_caret(text: &mut Vec<u8>, before: usize, front: &[u8]) -> Result<(), AllocError>
    ensures { OnOk result (text.new.items ≡ text.old.items ++ caret before front.now) }
{
    text.extend_from_slice(b"  ")?;
    push_ellipsis(text, before, front, b"  ")?;
    push_blanks(text, last_chars(front, before))?;
    text.extend_from_slice(b"^\n")
}

// Appends a line that is split at a place, and a caret below the place.
fn push_between(text: &mut Vec<u8>, front: &[u8], rest: &[u8]) -> Result<(), AllocError>
    ensures { OnOk result (text.new.items ≡ text.old.items ++ pointed_between front.now rest.now) }
{
    let before = char_count(front);
    let after = char_count(rest);
    let shown_value = shown_count(before, after);
    push_window(text, shown_value, shown_count(after, before), front, rest)?;
    push_caret(text, shown_value, front)
}

/// Appends the line of the byte at the place, or of the end, and a caret below that byte. Of a long line the characters
/// around the place are shown.
#[tactic(auto, unfolding(crate::specs::Pointing::pointed))]
pub(crate) fn push_pointed(
    alloc: Global,
    text: &mut Vec<u8>,
    bytes: &[u8],
    at: usize,
) -> Result<(), AllocError>
    requires { at ≤ length bytes.now }
    ensures { OnOk result (text.new.items ≡ text.old.items ++ pointed bytes.now at) }
{
    let front = last_line(alloc, &bytes[..at])?;
    let rest = &bytes[at..];
    push_between(text, &front, &rest[..line_length(rest)])
}
