// Reads a large file with up to four threads, each of which has pieces of its own. All of them read the same open file,
// so the bytes never come from two files of one name.

ghost use Rattle.std.specs.Prelude.{◌≡◌, ◌++◌, ℕ, IfErr, IfOk, IfSome, length};
ghost use Rattle.std.specs.Global.{Vec};
ghost use Rattle.tq_event.specs.FileBytes.{bytes_in};
ghost use Rattle.tq_commands.specs.Spans.{AreFirst, AreSpans, Tile};

use crate::progress::Progress;
use crate::spans::{ReadAt, Span, SpanReader, read_span};
use std::alloc::{AllocError, Global};
use std::fs::OpenFile;
use std::thread;
use std::thread::Threads;
use tq_engine::{FILE_LIMIT, FileFault, Source, read_file};
use tq_event::FileBytes;
use tq_load::first_cut;

// A piece has at least about this many bytes.
const MIN_PIECE_LENGTH: u64 = 1_048_576;

// The maximal number of pieces of one file.
const MAX_PIECES: u64 = 4;

// The number of bytes in which a start of a piece is searched.
const ROOM: u64 = 65_536;

// The first place after this one at which a piece can begin; `None` if there is none within `ROOM` bytes.
fn cut_near<F: ReadAt>(alloc: Global, file: &F, place: u64) -> Option<u64> {
    let left = Span {
        start: place,
        end: place.saturating_add(ROOM),
    };
    let bytes = read_file(alloc, &mut Source::over(SpanReader { file, left })).ok()?;
    let cut = first_cut(&bytes)?;
    Some(place.saturating_add(cut as u64))
}

// The spans of a source of `len` bytes that are read as pieces by `workers` threads. There is one if the source is
// small or no other piece can begin.
fn spans_of<F: ReadAt>(
    alloc: Global,
    file: &F,
    len: u64,
    workers: u32,
) -> Result<Vec<Span>, AllocError>
    ensures { IfOk result (λ spans. Tile spans.items 0 len) }
{
    let mut spans = Vec::new(alloc);
    let pieces = (len / MIN_PIECE_LENGTH)
        .min(u64::from(workers))
        .min(MAX_PIECES);
    let mut start = 0;
    'pieces: for number in 1..pieces {
        let place = (len / pieces).saturating_mul(number);
        if place < start {
            continue;
        }
        if let Some(end) = cut_near(alloc, file, place)
            && start < end
            && end < len
        {
            spans.push(Span { start, end })?;
            start = end;
        }
    }
    if start < len {
        spans.push(Span { start, end: len })?;
    }
    Ok(spans)
}

// Reads the spans one after the other.
fn read_sequentially<F: ReadAt>(
    alloc: Global,
    file: &F,
    spans: &[Span],
    progress: &Progress,
) -> Result<Vec<Vec<u8>>, FileFault>
    ensures { IfOk result (λ pieces. AreSpans (F.bytes file.now) spans.now pieces.items) }
{
    let mut pieces = Vec::new(alloc);
    'spans: for span in spans {
        let bytes = read_span(alloc, file, *span, progress)?;
        pieces.push(bytes).map_err(AllocError::from)?;
    }
    Ok(pieces)
}

// The pieces of both halves, or the first fault.
fn both(
    front: Result<Vec<Vec<u8>>, FileFault>,
    back: Result<Vec<Vec<u8>>, FileFault>,
) -> Result<Vec<Vec<u8>>, FileFault>
    ensures { IfOk result (λ pieces. (f : Vec (Vec ℕ)) × (b : Vec (Vec ℕ)) × (front ≡ Ok f) × (back ≡ Ok b) × (pieces.items ≡ f.items ++ b.items)) }
{
    let mut pieces = front?;
    let mut more = back?;
    pieces.append(&mut more)?;
    Ok(pieces)
}

// Reads the spans with two threads.
fn read_with_two_threads<R: Threads, F: ReadAt + Sync>(
    rt: &R,
    alloc: Global,
    file: &F,
    spans: &[Span],
    progress: &Progress,
) -> Result<Vec<Vec<u8>>, FileFault>
    ensures { IfOk result (λ pieces. AreSpans (F.bytes file.now) spans.now pieces.items) }
{
    let (front, back) = spans.split_at(spans.len() / 2);
    let read_front = || -> Result<Vec<Vec<u8>>, FileFault>
        ensures { IfOk result (λ pieces. AreSpans (F.bytes file.entry.now) front.entry.now pieces.items) }
    { read_sequentially(alloc, file, front, progress) };
    let read_back = || -> Result<Vec<Vec<u8>>, FileFault>
        ensures { IfOk result (λ pieces. AreSpans (F.bytes file.entry.now) back.entry.now pieces.items) }
    { read_sequentially(alloc, file, back, progress) };
    let (more, pieces) = thread::join(rt, read_back, read_front);
    both(pieces, more)
}

// Reads the spans with four threads, or with two if there are fewer than three spans.
fn read_with_four_threads<R: Threads + Sync, F: ReadAt + Sync>(
    rt: &R,
    alloc: Global,
    file: &F,
    spans: &[Span],
    progress: &Progress,
) -> Result<Vec<Vec<u8>>, FileFault>
    ensures { IfOk result (λ pieces. AreSpans (F.bytes file.now) spans.now pieces.items) }
{
    if spans.len() < 3 {
        return read_with_two_threads(rt, alloc, file, spans, progress);
    }
    let (front, back) = spans.split_at(spans.len() / 2);
    let read_front = || -> Result<Vec<Vec<u8>>, FileFault>
        ensures { IfOk result (λ pieces. AreSpans (F.bytes file.entry.now) front.entry.now pieces.items) }
    { read_with_two_threads(rt, alloc, file, front, progress) };
    let read_back = || -> Result<Vec<Vec<u8>>, FileFault>
        ensures { IfOk result (λ pieces. AreSpans (F.bytes file.entry.now) back.entry.now pieces.items) }
    { read_with_two_threads(rt, alloc, file, back, progress) };
    let (more, pieces) = thread::join(rt, read_back, read_front);
    both(pieces, more)
}

// The bytes of all pieces, in order; `None` if there are no pieces.
fn joined(mut pieces: Vec<Vec<u8>>) -> Result<Option<FileBytes>, AllocError>
    ensures { IfOk result (λ found. IfSome found (λ read. read ≡ bytes_in pieces.items)) }
{
    let more = pieces.split_off(1.min(pieces.len()))?;
    let Some(front) = pieces.pop() else {
        return Ok(None);
    };
    Ok(FileBytes::of_pieces(front, more))
}

/// The length of a file that can be read at any place. 0 if it cannot (a pipe), if the length is unknown, or if the
/// file is too large; reading it as a whole reports that.
pub fn len_of<F: OpenFile>(file: &F) -> u64 {
    match file.metadata() {
        Ok(metadata) if metadata.is_file() && metadata.len() <= FILE_LIMIT as u64 => metadata.len(),
        _ => 0,
    }
}

/// Reads a large source with at most `workers` threads and at most four. `len` is its expected length. `None` if it is
/// small, cannot be read, or has fewer bytes; `OutOfMemory` if an allocation failed.
pub fn read_pieces<R: Threads + Sync, F: ReadAt + Sync>(
    rt: &R,
    alloc: Global,
    file: &F,
    len: u64,
    workers: u32,
    progress: &Progress,
) -> Result<Option<FileBytes>, FileFault>
    ensures first { IfOk result (λ found. IfSome found (AreFirst (F.bytes file.now) len)) }
    ensures whole { IfOk result (λ found. IfSome found (λ read. IfSome (F.bytes file.now) (λ all. length all ≡ len → read ≡ all))) }
    ensures refused { IfErr result (λ fault. fault ≡ FileFault.OutOfMemory) }
{
    let spans = spans_of(alloc, file, len, workers)?;
    if spans.len() < 2 {
        return Ok(None);
    }
    match read_with_four_threads(rt, alloc, file, &spans, progress) {
        Ok(pieces) => Ok(joined(pieces)?),
        Err(FileFault::OutOfMemory) => Err(FileFault::OutOfMemory),
        Err(_) => Ok(None),
    }
}
