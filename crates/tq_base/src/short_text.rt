//! Texts of at most 14 bytes, which a value stores without a box.

ghost use Rattle.std.specs.Prelude.{◌≡◌, ◌+◌, ◌*◌, ◌^◌, ◌<◌, ◌≤◌, length, true, All};
ghost use Rattle.std.specs.Ordering.{nat_cmp};
ghost use Rattle.std.specs.Cmp.Lexicographic.{slice_cmp};
ghost use Rattle.tq_base.specs.Contents.{padded, Text};
ghost use Rattle.tq_base.specs.NormalizedKeys.{has_exact_prefix, prefix_number, normalized_key, HasBytes};

use std::cmp::Ordering;
use std::marker::Model;
use std::str;

/// The most bytes of a text that a value stores without a box, and that its prefix begins with.
pub const SHORT: usize = 14;

/// The least prefix of a text: 2^120.
pub(crate) const TEXT_PREFIX: u128 = 1 << 120;

// The factor of the first eight bytes in a prefix: 2^56.
const FIRST_STEP: u128 = 0x100_0000_0000_0000;

// The last six bytes are a number below this: 2^48.
const LAST_SPAN: u64 = 0x1_0000_0000_0000;

/// The first 14 bytes, padded with zeros.
pub fn head_of(text: &[u8]) -> [u8; SHORT]
    ensures { result ≡ padded 14 text.now }
{
    let mut head = [0; SHORT];
    if text.len() >= SHORT {
        head.copy_from_slice(&text[..SHORT]);
    } else {
        head[..text.len()].copy_from_slice(text);
    }
    head
}

/// The prefix of a text with these first 14 bytes; `len` is its length, or 15 if it is longer than 14.
pub fn text_prefix(head: &[u8; SHORT], len: u8) -> u128
    ensures prefix { result ≡ 2 ^ 120 + prefix_number 14 0 head.now * 256 + len }
    ensures bytes { All (λ byte. byte < 256) head.now }
{
    let [a, b, c, d, e, f, g, h, i, j, k, l, m, n] = *head;
    let first = u64::from_be_bytes([a, b, c, d, e, f, g, h]);
    let last = u64::from_be_bytes([g, h, i, j, k, l, m, n]) % LAST_SPAN;
    TEXT_PREFIX + u128::from(first) * FIRST_STEP + u128::from(last) * 256 + u128::from(len)
}

/// A text of at most 14 bytes, padded with zeros. Contracts see its bytes.
#[derive(Drop, Debug)]
pub struct ShortText {
    len: u8,
    bytes: [u8; SHORT],
}

impl Model for ShortText {
    ghost use Rattle.std.specs.Prelude.{◌≡◌, ◌≤◌, List, ℕ, take};
    ghost use Rattle.std.specs.Str.{IsUtf8};
    ghost use Rattle.tq_base.specs.Contents.{padded};

    ghost Value = { List ℕ };

    ghost view = { λ a. take a.len a.bytes };

    ghost invariant = { λ a. (a.len ≤ 14) × IsUtf8 (take a.len a.bytes) × (a.bytes ≡ padded 14 (take a.len a.bytes)) };
}

impl ShortText {
    /// The text, copied.
    pub fn of(text: &str) -> ShortText
        requires { length text.now ≤ 14 }
        ensures { result ≡ text.now }
    {
        ShortText {
            len: text.len() as u8,
            bytes: head_of(text.as_bytes()),
        }
    }

    /// The text, borrowed.
    pub fn get(&self) -> &str
        ensures { result.now ≡ self.now }
    {
        // The bytes come from a `str` only.
        unsafe { str::from_utf8_unchecked(&self.bytes[..self.len as usize]) }
    }

    /// An equal text.
    pub fn copy(&self) -> ShortText
        ensures { result ≡ self.now }
    {
        ShortText {
            len: self.len,
            bytes: self.bytes,
        }
    }

    /// The normalized key prefix of the text: no other text of at most 14 bytes has the same.
    pub fn prefix(&self) -> u128
        ensures prefix { result ≡ normalized_key (Text self.now) }
        ensures bytes { HasBytes (Text self.now) }
        ensures exact { has_exact_prefix (Text self.now) ≡ true }
    {
        text_prefix(&self.bytes, self.len)
    }

    /// Compares the bytes.
    pub fn compare(&self, other: &ShortText) -> Ordering
        ensures { result ≡ slice_cmp nat_cmp self.now other.now }
    {
        self.prefix().cmp(&other.prefix())
    }
}
