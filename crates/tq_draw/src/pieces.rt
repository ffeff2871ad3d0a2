// Work on the rows of a picture in pieces, by several threads.

ghost use Rattle.std.specs.Prelude.{◌≡◌, ℕ, List, ◌++◌, ◌<◌, ◌≤◌, IfOk, OnOk};
ghost use Rattle.std.specs.Global.{Vec};
ghost use Rattle.std.specs.List.{flat_map};
ghost use Rattle.tq_draw.specs.Pieces.{IsPiece, piece_start, pieces_of, texts_of};

use std::alloc::{AllocError, Global};
use std::thread::Threads;
use tq_run::{Open, Work, run_with};

/// At most this many rows are one piece.
pub(crate) const FEW_ROWS: usize = 8_192;

/// The number of pieces of more rows.
pub(crate) const MOST_PIECES: u32 = 64;

/// The threads that draw a picture: 1 to 16, one of which is the calling one.
#[derive(Drop)]
pub struct Workers<'w, R> {
    pub rt: &'w R,
    pub alloc: Global,
    pub count: u32,
    ghost some: { 1 ≤ count },
    ghost at_most: { count ≤ 16 },
}

/// A text for each row.
pub(crate) trait Lines {
    // The number of rows.
    ghost rows: { Self → ℕ };

    // The text of the row with this number.
    ghost line: { Self → ℕ → List ℕ };

    fn len(&self) -> usize
        ensures { result ≡ rows self.now };

    /// Appends the text of a row.
    fn push(&self, alloc: Global, text: &mut Vec<u8>, row: usize) -> Result<(), AllocError>
        requires { row < rows self.now }
        ensures { OnOk result (text.new.items ≡ text.old.items ++ line self.now row) };
}

/// How many pieces that many rows are.
pub(crate) fn pieces_of(len: usize) -> u32
    ensures { result ≡ pieces_of len }
{
    if len <= FEW_ROWS { 1 } else { MOST_PIECES }
}

/// The first row of a piece, which is the end of the piece before it.
pub(crate) fn piece_start(len: usize, piece: u32) -> usize
    requires { piece ≤ pieces_of len }
    ensures value { result ≡ piece_start len piece }
    ensures within { result ≤ len }
{
    (piece as u128 * len as u128 / pieces_of(len) as u128) as usize
}

// The texts of the rows from `first` up to `end`.
fn text_between<L: Lines>(
    alloc: Global,
    lines: &L,
    first: usize,
    end: usize,
) -> Result<Vec<u8>, AllocError>
    requires order { first ≤ end }
    requires within { end ≤ L.rows lines.now }
    ensures { IfOk result (λ text. texts_of (L.line lines.now) first ++ text.items ≡ texts_of (L.line lines.now) end) }
{
    let mut text = Vec::new(alloc);
    'rows: for row in first..end {
        lines.push(alloc, &mut text, row)?;
    }
    Ok(text)
}

// The texts of the rows as work in pieces.
#[derive(Drop)]
struct Texts<'p, L> {
    alloc: Global,
    lines: &'p L,
}

impl<L: Lines> Work for Texts<'_, L> {
    type Out = Vec<u8>;

    ghost count = { λ w. pieces_of (L.rows w.lines.now) };

    ghost relates = { λ w i text. IsPiece (L.line w.lines.now) (L.rows w.lines.now) i text.items };

    fn pieces(&self) -> u32 {
        pieces_of(self.lines.len())
    }

    fn run(&self, i: u32) -> Result<Vec<u8>, AllocError> {
        let len = self.lines.len();
        let (first, end) = (piece_start(len, i), piece_start(len, i + 1));
        text_between(self.alloc, self.lines, first, end)
    }
}

// Appends the texts, one after the other.
fn push_texts(text: &mut Vec<u8>, texts: Vec<Vec<u8>>) -> Result<(), AllocError>
    ensures { OnOk result (text.new.items ≡ text.old.items ++ flat_map (λ (one : Vec ℕ). one.items) texts.items) }
{
    'texts: for one in texts {
        text.extend_from_slice(&one)?;
    }
    Ok(())
}

/// Appends the texts of all rows.
pub(crate) fn push_lines<R: Threads + Sync, L: Lines + Sync>(
    workers: &Workers<'_, R>,
    text: &mut Vec<u8>,
    lines: &L,
) -> Result<(), AllocError>
    ensures { OnOk result (text.new.items ≡ text.old.items ++ texts_of (L.line lines.now) (L.rows lines.now)) }
{
    let work = Texts {
        alloc: workers.alloc,
        lines,
    };
    let texts = run_with(workers.rt, workers.alloc, workers.count, &work, &Open)?;
    push_texts(text, texts)?;
    Ok(())
}
