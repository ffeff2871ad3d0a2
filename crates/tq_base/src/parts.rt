// The parts of a relation: sources of rows, and the place of each column's values.

ghost use Rattle.std.specs.Prelude.{◌≡◌, ◌<◌, ℕ, IfOk, OnOk, length, map, pos, slice_index_or};
ghost use Rattle.std.specs.Option.{option_copied};
ghost use Rattle.tq_base.specs.Contents.{Int};
ghost use Rattle.tq_base.specs.RowValues.{value_at};
ghost use Rattle.tq_base.specs.Parts.{cell, number_at, number_in, part_values, rows_at, source_list};
ghost use Rattle.tq_base.specs.Relations.{values_at_number};

use crate::rows::Rows;
use crate::value::Value;
use std::alloc::{AllocError, Global};

// Rows, borrowed or owned.
#[derive(Drop, Debug)]
pub(crate) enum Source<'a> {
    Lent(&'a Rows),
    Made(Rows),
}

// Rows of a source: all of them, or those with these numbers.
#[derive(Drop, Debug)]
pub(crate) struct Part<'a> {
    pub(crate) source: Source<'a>,
    pub(crate) numbers: Option<Vec<u32>>,
}

// The place of a column: the part, and the column in its source.
#[derive(Clone, Copy, Debug)]
pub(crate) struct Place {
    pub(crate) part: u32,
    pub(crate) column: u32,
}

// The value of the column in the row with this number; the number 0 if there is no such row or no such column.
fn value_of<'a>(rows: &'a Rows, number: usize, column: u32, zero: &'a Value) -> &'a Value
    requires { zero.now ≡ Int (pos 0) }
    ensures { result.now ≡ value_at (values_at_number rows.now.items number) column }
{
    if number >= rows.len() {
        return zero;
    }
    rows.value(number, column).unwrap_or(zero)
}

// The number at the place; the place itself if there is no list of numbers.
#[inline]
pub(crate) fn number_in(numbers: Option<&[u32]>, place: usize) -> usize
    ensures { result ≡ number_in (option_copied numbers.entry) place }
{
    match numbers {
        None => place,
        Some(numbers) => numbers.get(place).copied().unwrap_or(0) as usize,
    }
}

// The numbers at these places, 0 for a place that does not exist.
fn numbers_at(alloc: Global, numbers: &[u32], places: &[u32]) -> Result<Vec<u32>, AllocError>
    ensures { IfOk result (λ chosen. chosen.items ≡ map (λ place. slice_index_or numbers.now place 0) places.now) }
{
    let mut chosen = Vec::with_capacity(alloc, places.len())?;
    'places: for place in places {
        chosen.push(numbers.get(*place as usize).copied().unwrap_or(0))?;
    }
    Ok(chosen)
}

// The numbers in its source of the part's rows at these places.
fn numbers_of(
    alloc: Global,
    numbers: &Option<Vec<u32>>,
    places: &[u32],
) -> Result<Vec<u32>, AllocError>
    ensures { IfOk result (λ chosen. chosen.items ≡ map (number_at numbers.now) places.now) }
{
    match numbers {
        None => places.to_vec(alloc),
        Some(numbers) => numbers_at(alloc, numbers, places),
    }
}

impl Source<'_> {
    pub(crate) fn rows(&self) -> &Rows
        ensures { result.now ≡ source_list self.now }
    {
        match self {
            Source::Lent(rows) => rows,
            Source::Made(rows) => rows,
        }
    }
}

impl Part<'_> {
    // The numbers of the rows in their source; `None` if the part has all rows of the source.
    pub(crate) fn numbers(&self) -> Option<&[u32]>
        ensures { (place : ℕ) → number_in (option_copied result) place ≡ number_at self.now.numbers place }
    {
        match &self.numbers {
            None => None,
            Some(numbers) => Some(numbers.as_slice()),
        }
    }

    fn value<'a>(&'a self, place: u32, column: u32, zero: &'a Value) -> &'a Value
        requires { zero.now ≡ Int (pos 0) }
        ensures { result.now ≡ value_at (part_values self.now place) column }
    {
        let number = number_in(self.numbers(), place as usize);
        value_of(self.source.rows(), number, column, zero)
    }

    // Replaces the rows by those at these places. If an allocation failed, they have not changed.
    pub(crate) fn renumber(&mut self, alloc: Global, places: &[u32]) -> Result<(), AllocError>
        ensures { OnOk result ((k : ℕ) → k < length places.now → part_values self.new k ≡ part_values self.old (slice_index_or places.now k 0)) }
    {
        self.numbers = Some(numbers_of(alloc, &self.numbers, places)?);
        Ok(())
    }

    // A part with the rows at these places that borrows the source.
    pub(crate) fn take_rows_ref(
        &self,
        alloc: Global,
        places: &[u32],
    ) -> Result<Part<'_>, AllocError>
        ensures { (k : ℕ) → k < length places.now → IfOk result (λ part. part_values part k ≡ part_values self.now (slice_index_or places.now k 0)) }
    {
        Ok(Part {
            source: Source::Lent(self.source.rows()),
            numbers: Some(numbers_of(alloc, &self.numbers, places)?),
        })
    }
}

// The value of the column in the row at the place; a column without a place has the number 0.
pub(crate) fn value_in<'a>(
    parts: &'a [Part<'a>],
    column: &Option<Place>,
    place: u32,
    zero: &'a Value,
) -> &'a Value
    requires { zero.now ≡ Int (pos 0) }
    ensures { result.now ≡ cell (rows_at parts.now place) column.now }
{
    let Some(at) = column else {
        return zero;
    };
    let Some(part) = parts.get(at.part as usize) else {
        return zero;
    };
    part.value(place, at.column, zero)
}
