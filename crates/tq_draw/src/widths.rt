// The widths of the columns.

ghost use Rattle.std.specs.Prelude.{◌≡◌, ℕ, ◌<◌, ◌≤◌, IfOk, length, slice_index_or};
ghost use Rattle.tq_draw.specs.Labels.{columns_in, label_of};
ghost use Rattle.tq_draw.specs.Pictures.{widths_of};
ghost use Rattle.tq_draw.specs.Pieces.{AreWidest, IsWidest, pieces_of, widest_of};
ghost use Rattle.std.specs.Global.{Vec};
ghost use Rattle.tq_run.specs.Results.{IsResultList};

use crate::labels::{columns_in_bytes, label, value_label};
use crate::pieces::{Workers, piece_start, pieces_of};
use crate::shown_rows::ShownRows;
use std::alloc::{AllocError, Global};
use std::thread::Threads;
use tq_base::Name;
use tq_run::{Open, Work, run_with};

fn name_width(alloc: Global, name: &Name) -> Result<usize, AllocError>
    ensures { IfOk result (λ width. width ≡ columns_in (label_of name.now)) }
{
    Ok(columns_in_bytes(&label(alloc, name.bytes())?))
}

// The width of the widest value of the column in the rows from `first` up to `end`.
fn widest(
    alloc: Global,
    rows: &ShownRows<'_, '_>,
    column: usize,
    first: usize,
    end: usize,
) -> Result<usize, AllocError>
    requires order { first ≤ end }
    requires within { end ≤ length rows.now }
    ensures { IfOk result (IsWidest column rows.now first end) }
{
    let mut widest = 0;
    'rows: for row in first..end {
        let label = value_label(alloc, rows.row(row).value(column))?;
        widest = widest.max(columns_in_bytes(&label));
    }
    Ok(widest)
}

// The width of the widest value of each column in the rows from `first` up to `end`.
fn all_widest(
    alloc: Global,
    rows: &ShownRows<'_, '_>,
    columns: usize,
    first: usize,
    end: usize,
) -> Result<Vec<usize>, AllocError>
    requires order { first ≤ end }
    requires within { end ≤ length rows.now }
    ensures many { IfOk result (λ widths. length widths.items ≡ columns) }
    ensures each { IfOk result (λ widths. (column d : ℕ) → column < columns → IsWidest column rows.now first end (slice_index_or widths.items column d)) }
{
    let mut widths = Vec::new(alloc);
    'columns: for column in 0..columns {
        widths.push(widest(alloc, rows, column, first, end)?)?;
    }
    Ok(widths)
}

// The widest values of each column as work in pieces.
#[derive(Drop)]
struct WidestPieces<'p, 'r, 'a> {
    alloc: Global,
    rows: &'p ShownRows<'r, 'a>,
    columns: usize,
}

impl Work for WidestPieces<'_, '_, '_> {
    type Out = Vec<usize>;

    ghost count = { λ w. pieces_of (length w.rows.now) };

    ghost relates = { λ w i widths. AreWidest w.columns w.rows.now i widths.items };

    fn pieces(&self) -> u32 {
        pieces_of(self.rows.len())
    }

    fn run(&self, i: u32) -> Result<Vec<usize>, AllocError> {
        let len = self.rows.len();
        let (first, end) = (piece_start(len, i), piece_start(len, i + 1));
        all_widest(self.alloc, self.rows, self.columns, first, end)
    }
}

// The width of a column, from the width of its name and the widest values of each piece.
fn width_of(
    name_width: usize,
    rows: &ShownRows<'_, '_>,
    columns: usize,
    pieces: &[Vec<usize>],
    column: usize,
) -> usize
    requires column { column < columns }
    requires pieces { IsResultList (λ i (widths : Vec ℕ). AreWidest columns rows.now i widths.items) (pieces_of (length rows.now)) pieces.now }
    ensures { result ≡ widest_of column rows.now name_width }
{
    let mut width = name_width;
    'pieces: for piece in 0..pieces_of(rows.len()) {
        width = width.max(pieces[piece as usize][column]);
    }
    width
}

/// The width of each column, in columns of a terminal.
pub(crate) fn widths_of<R: Threads + Sync>(
    workers: &Workers<'_, R>,
    columns: &[Name],
    rows: &ShownRows<'_, '_>,
) -> Result<Vec<usize>, AllocError>
    ensures { IfOk result (λ widths. widths.items ≡ widths_of columns.now rows.now) }
{
    let alloc = workers.alloc;
    let work = WidestPieces {
        alloc,
        rows,
        columns: columns.len(),
    };
    let pieces = run_with(workers.rt, alloc, workers.count, &work, &Open)?;
    let mut widths = Vec::new(alloc);
    'columns: for column in 0..columns.len() {
        let name_width = name_width(alloc, &columns[column])?;
        widths.push(width_of(name_width, rows, columns.len(), &pieces, column))?;
    }
    Ok(widths)
}
