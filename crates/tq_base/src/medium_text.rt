//! Texts of 15 to 20 bytes: a value stores them in a small box, and their last bytes next to the pointer to it.

ghost use Rattle.std.specs.Prelude.{◌≡◌, ◌≤◌, length};

use crate::short_text::SHORT;
use std::marker::Model;
use std::str;

/// The most bytes of such a text that its prefix does not determine. The value itself stores them.
const TAIL: usize = 6;

/// The most bytes of a text in such a box. With the length at both ends the box takes 22 bytes, for which the C
/// library's allocator uses 32.
pub(crate) const MEDIUM: usize = SHORT + TAIL;

/// A text of at most 20 bytes. Contracts see its bytes. The length is stored at both ends, because a box often crosses
/// a cache line: reading both lengths loads both lines at the same time.
#[derive(Drop, Debug)]
pub(crate) struct MediumText {
    len: u8,
    bytes: [u8; MEDIUM],
    len_behind: u8,
}

impl Model for MediumText {
    ghost use Rattle.std.specs.Prelude.{◌≡◌, ◌≤◌, List, ℕ, take};
    ghost use Rattle.std.specs.Str.{IsUtf8};

    ghost Value = { List ℕ };

    ghost view = { λ a. take a.len a.bytes };

    ghost invariant = { λ a. (a.len ≤ 20) × (a.len_behind ≡ a.len) × IsUtf8 (take a.len a.bytes) };
}

impl MediumText {
    /// The text, copied.
    pub(crate) fn of(text: &str) -> MediumText
        requires { length text.now ≤ 20 }
        ensures { result ≡ text.now }
    {
        let mut bytes = [0; MEDIUM];
        bytes[..text.len()].copy_from_slice(text.as_bytes());
        let len = text.len() as u8;
        MediumText {
            len,
            bytes,
            len_behind: len,
        }
    }

    pub(crate) fn get(&self) -> &str
        ensures { result.now ≡ self.now }
    {
        let len = self.len.min(self.len_behind);
        // The bytes come from a `str` only.
        unsafe { str::from_utf8_unchecked(&self.bytes[..len as usize]) }
    }

    pub(crate) fn copy(&self) -> MediumText
        ensures { result ≡ self.now }
    {
        MediumText {
            len: self.len,
            bytes: self.bytes,
            len_behind: self.len_behind,
        }
    }
}

/// The bytes of a medium text after its first 14. Contracts see their list.
#[derive(Drop, Debug)]
pub(crate) struct Tail {
    len: u8,
    bytes: [u8; TAIL],
}

impl Model for Tail {
    ghost use Rattle.std.specs.Prelude.{◌≤◌, List, ℕ, take};

    ghost Value = { List ℕ };

    ghost view = { λ a. take a.len a.bytes };

    ghost invariant = { λ a. a.len ≤ 6 };
}

impl Tail {
    /// The bytes, copied.
    pub(crate) fn of(bytes: &[u8]) -> Tail
        requires { length bytes.now ≤ 6 }
        ensures { result ≡ bytes.now }
    {
        let mut own = [0; TAIL];
        own[..bytes.len()].copy_from_slice(bytes);
        Tail {
            len: bytes.len() as u8,
            bytes: own,
        }
    }

    pub(crate) fn get(&self) -> &[u8]
        ensures { result.now ≡ self.now }
    {
        &self.bytes[..self.len as usize]
    }

    pub(crate) fn copy(&self) -> Tail
        ensures { result ≡ self.now }
    {
        Tail {
            len: self.len,
            bytes: self.bytes,
        }
    }
}
