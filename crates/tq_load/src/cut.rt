// Cutting files into parts.

ghost use Rattle.std.specs.Prelude.{◌≡◌, ◌≤◌, ◌<◌, ◌+◌, ◌++◌, ℕ, List, All, IfOk, IfSome, IsTrue, OnOk, drop, false, length, slice_index, take, true};
ghost use Rattle.tq_event.specs.Loading.{begins_with_bom};
ghost use Rattle.tq_load.specs.Feeds.{ends_in_feed};
ghost use Rattle.tq_load.specs.Parts.{IsCut, IsPartOf};

use crate::part::Part;
use crate::reading::ends_in_feed;
use memchr::memchr;
use std::alloc::{AllocError, Global};
use tq_event::steps::begins_with_bom;
use tq_event::{FileBytes, TableFile};

// There are about this many parts for each worker.
const PARTS_PER_WORKER: usize = 16;

// If a worker's share of a file has at least this many bytes, the first part is that long.
const LONG: usize = 65_536;

// The most cuts of one file.
const MAX_CUTS: usize = 4_096;

const MARK_LEN: usize = 3;

// The most lines that are searched for a place to cut.
const MAX_LINES: usize = 64;

/// The approximate length of a part for these workers, at least `least`.
pub fn part_len(files: &[TableFile], workers: u32, least: usize) -> usize
    requires { 1 ≤ workers }
{
    let mut all: usize = 0;
    'files: for file in files {
        all = all.saturating_add(file.bytes.len());
    }
    (all / PARTS_PER_WORKER / workers as usize)
        .max(least)
        .max(1)
}

// The length of the first part of a file, if the others have length `len`. It is a worker's share of the file, because
// its rows stay where they are and those of the other parts are moved after them.
fn first_len(file: usize, workers: u32, len: usize) -> usize
    requires { 1 ≤ workers }
{
    let share = file / workers as usize;
    if share < LONG { len } else { share.max(len) }
}

fn target_len(start: usize, first: usize, len: usize) -> usize {
    if start == 0 { first } else { len }
}

fn first_feed(bytes: &[u8]) -> Option<usize>
    ensures within { IfSome result (λ place. place < length bytes.now) }
    ensures feed { IfSome result (λ place. slice_index bytes.now place ≡ 10) }
{
    memchr(b'\n', bytes)
}

/// The place after the next line feed from `from` on.
pub fn line_end(bytes: &[u8], from: usize) -> Option<usize>
    requires { from ≤ length bytes.now }
    ensures after { IfSome result (λ place. from < place) }
    ensures within { IfSome result (λ place. place ≤ length bytes.now) }
    ensures feed { IfSome result (λ place. ends_in_feed (take place bytes.now) ≡ true) }
{
    let feed = first_feed(&bytes[from..])?;
    Some(from + feed + 1)
}

// Whether the bytes begin like a record whose first field is an integer: with digits, possibly after `-`, and a comma,
// or with the same in quotes.
fn looks_like_record(bytes: &[u8]) -> bool {
    let field = match bytes {
        [b'"', rest @ ..] => rest,
        _ => bytes,
    };
    let number = match field {
        [b'-', rest @ ..] => rest,
        _ => field,
    };
    'digits: for (place, byte) in number.iter().enumerate() {
        match *byte {
            b'0'..=b'9' => {}
            b',' | b'"' => return place > 0,
            _ => return false,
        }
    }
    false
}

/// Whether a part may begin with the bytes, whatever follows them: whether they begin like a record. Whether a record
/// begins there is known only after the part before was read.
pub fn may_begin(bytes: &[u8]) -> bool
    ensures { IsTrue result → (more : List ℕ) → begins_with_bom (bytes.now ++ more) ≡ false }
{
    bytes.len() >= MARK_LEN && !begins_with_bom(bytes) && looks_like_record(bytes)
}

// A place after at least `len` of the bytes at which a part can end.
fn cut_within(bytes: &[u8], len: usize) -> Option<usize>
    ensures within { IfSome result (λ place. place ≤ length bytes.now) }
    ensures feed { IfSome result (λ place. ends_in_feed (take place bytes.now) ≡ true) }
    ensures no_bom { (more : List ℕ) → IfSome result (λ place. begins_with_bom (drop place bytes.now ++ more) ≡ false) }
{
    if bytes.len() <= len {
        return None;
    }
    let mut place = len;
    'lines: for _ in 0..MAX_LINES {
        place = line_end(bytes, place)?;
        if may_begin(&bytes[place..]) {
            return Some(place);
        }
    }
    None
}

/// A place in the bytes of a file at which a record seems to begin: after a line feed, if the line after it looks like
/// a record. `None` if there is none near the start.
pub fn first_cut(bytes: &[u8]) -> Option<usize>
    ensures within { IfSome result (λ place. place ≤ length bytes.now) }
    ensures feed { IfSome result (λ place. ends_in_feed (take place bytes.now) ≡ true) }
{
    cut_within(bytes, 0)
}

// The end of a part that begins at `start` and has at least `len` bytes, or ends with the list in which it begins.
// `None` if the part goes on to the end of all bytes.
fn next_cut(bytes: &FileBytes, start: usize, len: usize) -> Option<usize>
    requires { start ≤ length bytes.now }
    ensures after { IfSome result (λ place. start < place) }
    ensures within { IfSome result (λ place. place ≤ length bytes.now) }
    ensures cut { IfSome result (IsCut bytes.now) }
{
    let all = bytes.len();
    let here = bytes.piece_from(start);
    if let Some(place) = cut_within(here, len) {
        return Some(start + place);
    }
    let end = start + here.len();
    if end < all && ends_in_feed(here) && may_begin(bytes.piece_from(end)) {
        Some(end)
    } else {
        None
    }
}

// Appends the parts of a file, each of about length `len`; the first one is longer if that helps the workers.
fn add_parts(
    files: &[TableFile],
    table: u32,
    len: usize,
    workers: u32,
    parts: &mut Vec<Part>,
) -> Result<(), AllocError>
    requires here { table < length files.now }
    requires some { 1 ≤ workers }
    requires parts { All (IsPartOf files.now) parts.old.items }
    ensures parts { OnOk result (All (IsPartOf files.now) parts.new.items) }
    ensures few { OnOk result (length parts.new.items ≤ length parts.old.items + 4097) }
{
    let bytes = &files[table as usize].bytes;
    let first = first_len(bytes.len(), workers, len);
    let mut start = 0;
    'cuts: for _ in 0..MAX_CUTS {
        let Some(end) = next_cut(bytes, start, target_len(start, first, len)) else {
            break;
        };
        parts.push(Part { table, start, end })?;
        start = end;
    }
    let end = bytes.len();
    parts.push(Part { table, start, end })?;
    Ok(())
}

/// The parts of the files, file by file, each of about length `len`; the first part of a long file is longer. A file is
/// cut after line feeds at which a record seems to begin, and at the ends of the lists that have its bytes.
pub fn cut(
    alloc: Global,
    files: &[TableFile],
    len: usize,
    workers: u32,
) -> Result<Vec<Part>, AllocError>
    requires tables { length files.now ≤ 16 }
    requires some { 1 ≤ workers }
    ensures parts { IfOk result (λ parts. All (IsPartOf files.now) parts.items) }
    ensures few { IfOk result (λ parts. length parts.items ≤ 65552) }
{
    let mut parts = Vec::new(alloc);
    'tables: for table in 0..files.len() as u32 {
        add_parts(files, table, len, workers, &mut parts)?;
    }
    Ok(parts)
}
