//! The bytes of a file, in one list or in several.

ghost use Rattle.std.specs.Prelude.{◌≡◌, ◌++◌, ◌+◌, ℕ, List, IfOk, IfSome, OnOk, drop, length};
ghost use Rattle.tq_event.specs.FileBytes.{bytes_in};

use std::alloc::{AllocError, Global};
use std::marker::Model;

/// The bytes of a file, in one list or in several lists that several threads have read. Contracts see all bytes in
/// order.
#[derive(Drop, Debug)]
pub struct FileBytes {
    front: Vec<u8>,
    more: Option<Vec<Vec<u8>>>,
    len: usize,
}

impl Model for FileBytes {
    ghost use Rattle.std.specs.Prelude.{◌≡◌, ◌++◌, ℕ, List, length};
    ghost use Rattle.tq_event.specs.FileBytes.{optional_bytes_in};

    ghost Value = { List ℕ };

    ghost view = { λ b. b.front.items ++ optional_bytes_in b.more };

    ghost invariant = { λ b. b.len ≡ length (b.front.items ++ optional_bytes_in b.more) };
}

// The number of bytes in all; `None` if it does not fit into a `usize`.
fn total(front: usize, pieces: &[Vec<u8>]) -> Option<usize>
    ensures { IfSome result (λ len. len ≡ front + length (bytes_in pieces.now)) }
{
    let mut len = front;
    'pieces: for piece in pieces {
        len = len.checked_add(piece.len())?;
    }
    Some(len)
}

// The bytes from the place on, up to the end of the list that has the place.
fn piece_in(pieces: &[Vec<u8>], start: usize) -> &[u8]
    ensures { (more : List ℕ) × (drop start (bytes_in pieces.entry.now) ≡ result.now ++ more) }
{
    let mut rest = start;
    'pieces: for piece in pieces {
        if rest < piece.len() {
            return &piece[rest..];
        }
        rest -= piece.len();
    }
    &[]
}

// Appends copies of the bytes of the lists.
fn add_pieces(pieces: &[Vec<u8>], bytes: &mut Vec<u8>) -> Result<(), AllocError>
    ensures { OnOk result (bytes.new.items ≡ bytes.old.items ++ bytes_in pieces.now) }
{
    'pieces: for piece in pieces {
        bytes.extend_from_slice(piece)?;
    }
    Ok(())
}

impl FileBytes {
    /// The bytes of one list.
    pub fn of(bytes: Vec<u8>) -> FileBytes
        ensures { result ≡ bytes.items }
    {
        let len = bytes.len();
        FileBytes {
            front: bytes,
            more: None,
            len,
        }
    }

    /// The bytes of `front`, then those of `pieces`; `None` if their number does not fit into a `usize`.
    pub fn of_pieces(front: Vec<u8>, pieces: Vec<Vec<u8>>) -> Option<FileBytes>
        ensures { IfSome result (λ bytes. bytes ≡ front.items ++ bytes_in pieces.items) }
    {
        let len = total(front.len(), &pieces)?;
        Some(FileBytes {
            front,
            more: Some(pieces),
            len,
        })
    }

    /// The number of bytes.
    pub fn len(&self) -> usize
        ensures { result ≡ length self.now }
    {
        self.len
    }

    /// All bytes, borrowed, if they are in one list.
    pub fn whole(&self) -> Option<&[u8]>
        ensures { IfSome result (λ bytes. bytes.now ≡ self.entry.now) }
    {
        match &self.more {
            None => Some(self.front.as_slice()),
            Some(_) => None,
        }
    }

    /// The bytes from the place on, up to the end of the list that has the place.
    pub fn piece_from(&self, start: usize) -> &[u8]
        ensures { (more : List ℕ) × (drop start self.entry.now ≡ result.now ++ more) }
    {
        let len = self.front.len();
        if start < len {
            return &self.front[start..];
        }
        match &self.more {
            Some(pieces) => piece_in(pieces, start - len),
            None => &[],
        }
    }

    /// A copy of all bytes in one list. `AllocError` if an allocation failed.
    pub fn to_vec(&self, alloc: Global) -> Result<Vec<u8>, AllocError>
        ensures { IfOk result (λ bytes. bytes.items ≡ self.now) }
    {
        let mut bytes = self.front.to_vec(alloc)?;
        if let Some(pieces) = &self.more {
            add_pieces(pieces, &mut bytes)?;
        }
        Ok(bytes)
    }
}
