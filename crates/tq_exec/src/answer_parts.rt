//! Parts of an answer: the ordered rows of each, and what is made of them.

ghost use Rattle.std.specs.Prelude.{◌≡◌, All, IfOk, IsSorted, IsTrue, length, map, sum_by, ℕ};
ghost use Rattle.tq_agg.specs.Grouping.{Row};
ghost use Rattle.tq_base.specs.Layers.{IsLayers};
ghost use Rattle.tq_base.specs.declared.fragment.Fragment.{Fragment};
ghost use Rattle.tq_base.specs.Fragments.{fragment_cmp};
ghost use Rattle.tq_base.specs.Ranges.{AreAscending};
ghost use Rattle.tq_exec.specs.AnswerParts.{IsAnswerPart, IsMade};
ghost use Rattle.tq_exec.specs.declared.answer_parts.AnswerPart.{AnswerPart as AnyPart};
ghost use Rattle.tq_exec.specs.declared.answer_parts.Made.{Made as AnyMade};

use std::alloc::{AllocError, Global};
use tq_base::{Form, Rows};
use tq_table::{ResultRows, rows_text};

/// What is made of the rows of each part: copies, or their text in the form.
#[derive(Clone, Copy, Debug)]
pub enum Wanted {
    Rows,
    Text(Form),
}

/// Copies of the rows of a part, or their text; the other field is empty.
#[derive(Drop, Debug)]
pub struct Made {
    pub rows: Rows,
    pub text: Vec<u8>,
    /// The number of the rows.
    pub len: usize,
}

/// A part of an answer: its rows in order, and what was made of them.
#[derive(Drop, Debug)]
pub struct AnswerPart<'a> {
    pub rows: ResultRows<'a>,
    pub made: Made,
}

// Copies of the rows, or their text, as `wanted` says.
fn make(alloc: Global, rows: &ResultRows<'_>, wanted: Wanted) -> Result<Made, AllocError>
    ensures { (width : ℕ) → All (λ (row : Fragment). length row.values ≡ width) rows.now → IfOk result (IsMade wanted width rows.now) }
{
    match wanted {
        Wanted::Rows => {
            let copies = rows.copied(alloc)?;
            Ok(Made {
                rows: copies,
                text: Vec::new(alloc),
                len: rows.len(),
            })
        }
        Wanted::Text(form) => {
            let text = rows_text(alloc, rows, form)?;
            Ok(Made {
                rows: Rows::new(alloc, 0),
                text,
                len: rows.len(),
            })
        }
    }
}

/// The part with these rows. `AllocError` if an allocation failed.
pub(crate) fn make_part<'a>(
    alloc: Global,
    rows: ResultRows<'a>,
    wanted: Wanted,
) -> Result<AnswerPart<'a>, AllocError>
    ensures { (width : ℕ) (times : Row → ℕ → ℕ) → IsLayers times rows.entry → All (λ (row : Fragment). length row.values ≡ width) rows.entry → IfOk result (IsAnswerPart wanted width times) }
{
    let made = make(alloc, &rows, wanted)?;
    Ok(AnswerPart { rows, made })
}

/// Whether the rows of each part are below those of every later one.
pub(crate) fn are_ascending(parts: &[AnswerPart<'_>]) -> bool
    requires { All (λ (part : AnyPart). IsSorted fragment_cmp part.rows) parts.now }
    ensures { IsTrue result → AreAscending (map (λ (part : AnyPart). part.rows) parts.now) }
{
    'first: for first in 0..parts.len() {
        'second: for second in first + 1..parts.len() {
            if !parts[first].rows.are_below(&parts[second].rows) {
                return false;
            }
        }
    }
    true
}

// The copies or the text of the part.
fn made_of_part(part: AnswerPart<'_>) -> Made
    ensures { result ≡ part.entry.made }
{
    let AnswerPart { made, .. } = part;
    made
}

/// The copies or the text of each part. `AllocError` if an allocation failed.
pub(crate) fn made_of(alloc: Global, parts: Vec<AnswerPart<'_>>) -> Result<Vec<Made>, AllocError>
    ensures { IfOk result (λ made. made.items ≡ map (λ (part : AnyPart). part.made) parts.entry.items) }
{
    let mut made = Vec::with_capacity(alloc, parts.len())?;
    'each: for part in parts {
        made.push(made_of_part(part))?;
    }
    Ok(made)
}

// The copies of the rows.
fn rows_of_made(made: Made) -> Rows
    ensures { result ≡ made.rows }
{
    let Made { rows, .. } = made;
    rows
}

/// The copies of the rows of each part. `AllocError` if an allocation failed.
pub(crate) fn rows_of(alloc: Global, made: Vec<Made>) -> Result<Vec<Rows>, AllocError>
    ensures { IfOk result (λ rows. rows.items ≡ map (λ (one : AnyMade). one.rows) made.items) }
{
    let mut rows = Vec::with_capacity(alloc, made.len())?;
    'each: for one in made {
        rows.push(rows_of_made(one))?;
    }
    Ok(rows)
}

/// The number of rows of all parts.
pub(crate) fn row_count(made: &[Made]) -> u128
    ensures { result ≡ sum_by (λ (one : AnyMade). one.len) made.now }
{
    let mut count: u128 = 0;
    'each: for one in made {
        count += one.len as u128;
    }
    count
}

// The text.
fn text_of_made(made: Made) -> Vec<u8>
    ensures { result ≡ made.text }
{
    let Made { text, .. } = made;
    text
}

/// The text of each part. `AllocError` if an allocation failed.
pub(crate) fn texts_of(alloc: Global, made: Vec<Made>) -> Result<Vec<Vec<u8>>, AllocError>
    ensures { IfOk result (λ texts. texts.items ≡ map (λ (one : AnyMade). one.text) made.items) }
{
    let mut texts = Vec::with_capacity(alloc, made.len())?;
    'each: for one in made {
        texts.push(text_of_made(one))?;
    }
    Ok(texts)
}
