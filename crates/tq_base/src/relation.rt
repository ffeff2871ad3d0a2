//! Relations: rows of other lists, chosen by number, so that operators move no values.

ghost use Rattle.std.specs.Prelude.{◌≡◌, ◌<◌, ◌≤◌, ◌+◌, ◌++◌, ℕ, All, IfOk, List, OnOk, length, map, slice_index_or};
ghost use Rattle.std.specs.List.{flat_map, range_with_len};
ghost use Rattle.tq_base.specs.declared.fragment.Fragment.{Fragment};
ghost use Rattle.tq_base.specs.Keys.{no_row};
ghost use Rattle.tq_base.specs.Parts.{chosen_column, first_column, first_periods, moved_column, periods_of, rows_at, source_list};
ghost use Rattle.tq_base.specs.Relations.{column_of, row_period_of, pair_of, projected, row_at, values_at_number, AreRowPeriods};

use crate::column_view::{ColumnView, push_values};
use crate::dense::MAX_ROWS;
use crate::parts::{Part, Place, Source};
use crate::period::Period;
use crate::row::Row;
use crate::rows::Rows;
use crate::sort_input::all_columns;
use crate::value::Value;
use std::alloc::{AllocError, Global};
use std::marker::Model;

/// The number of a row, and the period in which it is valid.
#[derive(Clone, Copy, Debug)]
pub struct RowPeriod {
    pub row: u32,
    pub period: Period,
}

/// The numbers of a left and a right row, and the period in which both are valid.
#[derive(Clone, Copy, Debug)]
pub struct Pair {
    pub left: u32,
    pub right: u32,
    pub period: Period,
}

// The periods of rows: those of the first part's source, or a list of their own.
#[derive(Drop, Debug)]
enum Periods {
    First,
    Own(Vec<Period>),
}

/// Rows of one width, each with its period. The values stay in the lists of rows that the relation borrows or owns; it
/// refers to them by number. Contracts see the width and the list of rows.
#[derive(Drop, Debug)]
pub struct Relation<'a> {
    parts: Vec<Part<'a>>,
    columns: Vec<Option<Place>>,
    periods: Periods,
    zero: Value,
}

impl<'a> Model for Relation<'a> {
    ghost use Rattle.std.specs.Prelude.{◌≡◌, ◌≤◌, All, length, pos};
    ghost use Rattle.tq_base.specs.Contents.{Int};
    ghost use Rattle.tq_base.specs.Parts.{periods_of, rows_by_number, IsIn};
    ghost use Rattle.tq_base.specs.RowLists.{RowList};

    ghost Value = { RowList };

    ghost view = { λ r. record { width = length r.columns.items; items = rows_by_number r.parts.items r.columns.items 0 (periods_of r.parts.items r.periods) } };

    ghost invariant = { λ r. (r.zero ≡ Int (pos 0)) × (length (periods_of r.parts.items r.periods) ≤ 4294967295) × (All (IsIn (length r.parts.items)) r.columns.items) };
}

// The places of the first `width` columns of the first part.
fn first_columns(alloc: Global, width: usize) -> Result<Vec<Option<Place>>, AllocError>
    ensures { IfOk result (λ columns. columns.items ≡ map first_column (range_with_len 0 width)) }
{
    let columns = all_columns(alloc, width)?;
    columns
        .iter()
        .map(|column| {
            Some(Place {
                part: 0,
                column: *column,
            })
        })
        .collect(alloc)
}

// The places of the columns with these numbers; none for a column that does not exist.
fn chosen_columns(
    alloc: Global,
    columns: &[Option<Place>],
    numbers: &[u32],
) -> Result<Vec<Option<Place>>, AllocError>
    ensures { IfOk result (λ chosen. chosen.items ≡ map (chosen_column columns.now) numbers.now) }
{
    let mut chosen = Vec::with_capacity(alloc, numbers.len())?;
    'numbers: for number in numbers {
        chosen.push(columns.get(*number as usize).copied().unwrap_or(None))?;
    }
    Ok(chosen)
}

// The place of the column, after `parts` other parts were put in front of its own.
fn moved_column(column: Option<Place>, parts: usize) -> Result<Option<Place>, AllocError>
    ensures { IfOk result (λ moved. moved ≡ moved_column parts column) }
{
    let Some(Place { part, column }) = column else {
        return Ok(None);
    };
    let Some(part) = parts.checked_add(part as usize) else {
        return Err(AllocError);
    };
    match u32::try_from(part) {
        Ok(part) => Ok(Some(Place { part, column })),
        Err(_) => Err(AllocError),
    }
}

// The columns, then the others, whose parts come after the `parts` parts of the first.
fn both_columns(
    alloc: Global,
    columns: &[Option<Place>],
    others: &[Option<Place>],
    parts: usize,
) -> Result<Vec<Option<Place>>, AllocError>
    ensures { IfOk result (λ both. both.items ≡ columns.now ++ map (moved_column parts) others.now) }
{
    let mut both = columns.to_vec(alloc)?;
    'others: for column in others {
        both.push(moved_column(*column, parts)?)?;
    }
    Ok(both)
}

// Replaces the rows of each part by those at these places. If an allocation failed, some parts may have changed.
fn renumber(alloc: Global, parts: &mut Vec<Part<'_>>, places: &[u32]) -> Result<(), AllocError>
    ensures len { length parts.new.items ≡ length parts.old.items }
    ensures rows { OnOk result ((k : ℕ) → k < length places.now → rows_at parts.new.items k ≡ rows_at parts.old.items (slice_index_or places.now k 0)) }
{
    'parts: for part in parts.iter_mut() {
        part.renumber(alloc, places)?;
    }
    Ok(())
}

// For each part, the rows at these places, borrowed.
fn take_parts<'a>(
    alloc: Global,
    parts: &'a [Part<'_>],
    places: &[u32],
) -> Result<Vec<Part<'a>>, AllocError>
    ensures len { IfOk result (λ taken. length taken.items ≡ length parts.now) }
    ensures rows { (k : ℕ) → k < length places.now → IfOk result (λ taken. rows_at taken.items k ≡ rows_at parts.now (slice_index_or places.now k 0)) }
{
    let mut taken = Vec::with_capacity(alloc, parts.len())?;
    'parts: for part in parts {
        taken.push(part.take_rows_ref(alloc, places)?)?;
    }
    Ok(taken)
}

fn first_periods<'a>(parts: &'a [Part<'_>]) -> &'a [Period]
    ensures { result.now ≡ first_periods parts.now }
{
    match parts.first() {
        Some(part) => part.source.rows().periods(),
        None => &[],
    }
}

fn periods_of<'a>(parts: &'a [Part<'_>], periods: &'a Periods) -> &'a [Period]
    ensures { result.now ≡ periods_of parts.now periods.now }
{
    match periods {
        Periods::First => first_periods(parts),
        Periods::Own(periods) => periods.as_slice(),
    }
}

// The periods with these numbers. They may lie anywhere in memory; in a short loop of their own the processor overlaps
// many cache misses.
fn periods_at(alloc: Global, periods: &[Period], numbers: &[u32]) -> Result<Vec<Period>, AllocError>
    requires { All (λ number. number < length periods.now) numbers.now }
    ensures { IfOk result (λ chosen. chosen.items ≡ map (λ number. slice_index_or periods.now number no_row.period) numbers.now) }
{
    let mut chosen = Vec::with_capacity(alloc, numbers.len())?;
    'numbers: for number in numbers {
        chosen.push_reserved(periods[*number as usize]);
    }
    Ok(chosen)
}

fn rows_of(alloc: Global, row_periods: &[RowPeriod]) -> Result<Vec<u32>, AllocError>
    ensures { IfOk result (λ rows. rows.items ≡ map (λ (row_period : RowPeriod). row_period.row) row_periods.now) }
{
    row_periods
        .iter()
        .map(|row_period| row_period.row)
        .collect(alloc)
}

fn periods_of_row_periods(
    alloc: Global,
    row_periods: &[RowPeriod],
) -> Result<Vec<Period>, AllocError>
    ensures { IfOk result (λ periods. periods.items ≡ map (λ (row_period : RowPeriod). row_period.period) row_periods.now) }
{
    row_periods
        .iter()
        .map(|row_period| row_period.period)
        .collect(alloc)
}

fn left_rows(alloc: Global, pairs: &[Pair]) -> Result<Vec<u32>, AllocError>
    ensures { IfOk result (λ rows. rows.items ≡ map (λ (pair : Pair). pair.left) pairs.now) }
{
    pairs.iter().map(|pair| pair.left).collect(alloc)
}

fn right_rows(alloc: Global, pairs: &[Pair]) -> Result<Vec<u32>, AllocError>
    ensures { IfOk result (λ rows. rows.items ≡ map (λ (pair : Pair). pair.right) pairs.now) }
{
    pairs.iter().map(|pair| pair.right).collect(alloc)
}

fn pair_periods(alloc: Global, pairs: &[Pair]) -> Result<Vec<Period>, AllocError>
    ensures { IfOk result (λ periods. periods.items ≡ map (λ (pair : Pair). pair.period) pairs.now) }
{
    pairs.iter().map(|pair| pair.period).collect(alloc)
}

// The relation with all rows of one source.
fn whole<'a>(alloc: Global, source: Source<'a>) -> Result<Relation<'a>, AllocError>
    ensures { IfOk result (λ relation. relation ≡ source_list source.entry) }
{
    let rows = source.rows();
    let are_few = rows.len() <= MAX_ROWS;
    prove!(are_few);
    let columns = first_columns(alloc, rows.width())?;
    let mut parts = Vec::with_capacity(alloc, 1)?;
    parts.push(Part {
        source,
        numbers: None,
    })?;
    Ok(Relation {
        parts,
        columns,
        periods: Periods::First,
        zero: Value::int(0),
    })
}

impl<'a> Relation<'a> {
    /// All rows, borrowed. `AllocError` if an allocation failed.
    pub fn of(alloc: Global, rows: &'a Rows) -> Result<Relation<'a>, AllocError>
        ensures { IfOk result (λ relation. relation ≡ rows.now) }
    {
        whole(alloc, Source::Lent(rows))
    }

    /// All rows, moved in. `AllocError` if an allocation failed.
    pub fn owned(alloc: Global, rows: Rows) -> Result<Relation<'a>, AllocError>
        ensures { IfOk result (λ relation. relation ≡ rows) }
    {
        whole(alloc, Source::Made(rows))
    }

    /// The number of values in each row.
    pub fn width(&self) -> usize
        ensures width { result ≡ self.now.width }
        ensures rows { All (λ (row : Fragment). length row.values ≡ self.now.width) self.now.items }
    {
        self.columns.len()
    }

    /// The number of rows.
    pub fn len(&self) -> usize
        ensures len { result ≡ length self.now.items }
        ensures few { result ≤ 4294967295 }
    {
        periods_of(&self.parts, &self.periods).len()
    }

    /// The periods of the rows, in their order.
    pub fn periods(&self) -> &[Period]
        ensures { result.now ≡ map (λ (row : Fragment). row.period) self.now.items }
    {
        periods_of(&self.parts, &self.periods)
    }

    /// The period of the row.
    pub fn period(&self, row: usize) -> Period
        requires { row < length self.now.items }
        ensures { (d : Fragment) → result ≡ (slice_index_or self.now.items row d).period }
    {
        self.periods()[row]
    }

    /// The values of the row; none if there is no such row.
    pub fn row(&self, row: usize) -> Row<'_>
        ensures { result ≡ values_at_number self.now.items row }
    {
        if row < self.len() {
            Row::of(
                self.parts.as_slice(),
                self.columns.as_slice(),
                row as u32,
                &self.zero,
            )
        } else {
            Row::of(self.parts.as_slice(), &[], 0, &self.zero)
        }
    }

    /// The values of the column, numbered from 0, for loops over rows. A column that the rows do not have counts as the
    /// number 0.
    pub fn column(&self, column: usize) -> ColumnView<'_>
        ensures { result ≡ column_of self.now.items column }
    {
        let place = self.columns.get(column).copied().unwrap_or(None);
        ColumnView::of(self.parts.as_slice(), place, self.len(), &self.zero)
    }

    // Replaces the rows by those with these numbers, each valid in the period at its place. If an allocation failed,
    // the relation must not be used further.
    fn set_rows_and_periods(
        &mut self,
        alloc: Global,
        numbers: &[u32],
        periods: Vec<Period>,
    ) -> Result<(), AllocError>
        requires few { length periods.items ≤ 4294967295 }
        ensures width { self.new.width ≡ self.old.width }
        ensures rows { (row_periods : List RowPeriod) → AreRowPeriods row_periods numbers.now periods.items → All (λ (row_period : RowPeriod). row_period.row < length self.old.items) row_periods
            → OnOk result (self.new.items ≡ map (row_period_of self.old.items) row_periods) }
    {
        self.periods = Periods::Own(periods);
        renumber(alloc, &mut self.parts, numbers)
    }

    /// The rows with these numbers, each valid in the period at its place. `AllocError` if an allocation failed or
    /// there are 2^32 periods or more.
    pub fn take_with_periods(
        self,
        alloc: Global,
        numbers: &[u32],
        periods: Vec<Period>,
    ) -> Result<Relation<'a>, AllocError>
        ensures width { IfOk result (λ out. out.width ≡ self.entry.width) }
        ensures rows { (row_periods : List RowPeriod) → AreRowPeriods row_periods numbers.now periods.items → All (λ (row_period : RowPeriod). row_period.row < length self.entry.items) row_periods
            → IfOk result (λ out. out.items ≡ map (row_period_of self.entry.items) row_periods) }
    {
        if periods.len() > MAX_ROWS {
            return Err(AllocError);
        }
        let mut out = self;
        out.set_rows_and_periods(alloc, numbers, periods)?;
        Ok(out)
    }

    /// The rows with these numbers, each valid in the period given with it. `AllocError` if an allocation failed or
    /// there are 2^32 entries or more.
    pub fn take_row_periods(
        self,
        alloc: Global,
        row_periods: &[RowPeriod],
    ) -> Result<Relation<'a>, AllocError>
        requires { All (λ (row_period : RowPeriod). row_period.row < length self.items) row_periods.now }
        ensures width { IfOk result (λ out. out.width ≡ self.entry.width) }
        ensures rows { IfOk result (λ out. out.items ≡ map (row_period_of self.entry.items) row_periods.now) }
    {
        let rows = rows_of(alloc, row_periods)?;
        let periods = periods_of_row_periods(alloc, row_periods)?;
        self.take_with_periods(alloc, &rows, periods)
    }

    // Replaces the rows by those with these numbers, with their periods. If an allocation failed, the relation must not
    // be used further.
    fn set_numbers(&mut self, alloc: Global, numbers: &[u32]) -> Result<(), AllocError>
        requires few { length numbers.now ≤ 4294967295 }
        requires within { All (λ number. number < length self.old.items) numbers.now }
        ensures width { self.new.width ≡ self.old.width }
        ensures rows { OnOk result (self.new.items ≡ map (row_at self.old.items) numbers.now) }
    {
        self.periods = Periods::Own(periods_at(alloc, self.periods(), numbers)?);
        renumber(alloc, &mut self.parts, numbers)
    }

    /// The rows with these numbers, in this order, with their periods. `AllocError` if an allocation failed or there
    /// are 2^32 numbers or more.
    pub fn take_rows(self, alloc: Global, numbers: &[u32]) -> Result<Relation<'a>, AllocError>
        requires { All (λ number. number < length self.items) numbers.now }
        ensures width { IfOk result (λ out. out.width ≡ self.entry.width) }
        ensures rows { IfOk result (λ out. out.items ≡ map (row_at self.entry.items) numbers.now) }
    {
        if numbers.len() > MAX_ROWS {
            return Err(AllocError);
        }
        let mut out = self;
        out.set_numbers(alloc, numbers)?;
        Ok(out)
    }

    /// The rows with these numbers, in their order, as a relation that borrows them. `AllocError` if an allocation failed
    /// or there are 2^32 numbers or more.
    pub fn take_rows_ref(&self, alloc: Global, numbers: &[u32]) -> Result<Relation<'_>, AllocError>
        requires { All (λ number. number < length self.now.items) numbers.now }
        ensures width { IfOk result (λ out. out.width ≡ self.now.width) }
        ensures rows { IfOk result (λ out. out.items ≡ map (row_at self.now.items) numbers.now) }
    {
        if numbers.len() > MAX_ROWS {
            return Err(AllocError);
        }
        let periods = periods_at(alloc, self.periods(), numbers)?;
        Ok(Relation {
            parts: take_parts(alloc, &self.parts, numbers)?,
            columns: self.columns.to_vec(alloc)?,
            periods: Periods::Own(periods),
            zero: Value::int(0),
        })
    }

    // Replaces the rows by one row for each pair: the left row's values, then the right row's, valid in the pair's
    // period. If an allocation failed, the relation must not be used further.
    fn set_pairs(
        &mut self,
        alloc: Global,
        right: Relation<'a>,
        pairs: &[Pair],
    ) -> Result<(), AllocError>
        requires few { length pairs.now ≤ 4294967295 }
        requires left { All (λ (pair : Pair). pair.left < length self.old.items) pairs.now }
        requires right { All (λ (pair : Pair). pair.right < length right.items) pairs.now }
        ensures width { OnOk result (self.new.width ≡ self.old.width + right.entry.width) }
        ensures rows { OnOk result (self.new.items ≡ map (pair_of self.old.items right.entry.items) pairs.now) }
    {
        let Relation {
            mut parts,
            columns,
            periods: _,
            zero: _,
        } = right;
        let both = both_columns(alloc, &self.columns, &columns, self.parts.len())?;
        renumber(alloc, &mut parts, &right_rows(alloc, pairs)?)?;
        let left = left_rows(alloc, pairs)?;
        self.periods = Periods::Own(pair_periods(alloc, pairs)?);
        renumber(alloc, &mut self.parts, &left)?;
        self.parts.append(&mut parts)?;
        self.columns = both;
        Ok(())
    }

    /// One row for each pair: the values of its left row, then those of its right row, valid in the pair's period.
    /// `AllocError` if an allocation failed or there are 2^32 pairs or more.
    pub fn pair(
        alloc: Global,
        left: Relation<'a>,
        right: Relation<'a>,
        pairs: &[Pair],
    ) -> Result<Relation<'a>, AllocError>
        requires left { All (λ (pair : Pair). pair.left < length left.items) pairs.now }
        requires right { All (λ (pair : Pair). pair.right < length right.items) pairs.now }
        ensures width { IfOk result (λ out. out.width ≡ left.entry.width + right.entry.width) }
        ensures rows { IfOk result (λ out. out.items ≡ map (pair_of left.entry.items right.entry.items) pairs.now) }
    {
        if pairs.len() > MAX_ROWS {
            return Err(AllocError);
        }
        let mut out = left;
        out.set_pairs(alloc, right, pairs)?;
        Ok(out)
    }

    // Replaces the columns by those with these numbers. If an allocation failed, they have not changed.
    fn set_columns(&mut self, alloc: Global, columns: &[u32]) -> Result<(), AllocError>
        ensures width { OnOk result (self.new.width ≡ length columns.now) }
        ensures rows { OnOk result (self.new.items ≡ map (projected columns.now) self.old.items) }
    {
        self.columns = chosen_columns(alloc, &self.columns, columns)?;
        Ok(())
    }

    /// The given columns of each row, in this order; a column that the rows do not have is the number 0. The periods
    /// stay the same. `AllocError` if an allocation failed.
    pub fn project(self, alloc: Global, columns: &[u32]) -> Result<Relation<'a>, AllocError>
        ensures width { IfOk result (λ out. out.width ≡ length columns.now) }
        ensures rows { IfOk result (λ out. out.items ≡ map (projected columns.now) self.entry.items) }
    {
        let mut out = self;
        out.set_columns(alloc, columns)?;
        Ok(out)
    }

    fn column_views(&self, alloc: Global) -> Result<Vec<ColumnView<'_>>, AllocError>
        ensures { IfOk result (λ columns. columns.items ≡ map (column_of self.now.items) (range_with_len 0 self.now.width)) }
    {
        let mut columns = Vec::with_capacity(alloc, self.width())?;
        'columns: for column in 0..self.width() {
            columns.push(self.column(column))?;
        }
        Ok(columns)
    }

    // Copies of the values of all rows, one row after the other.
    fn copied_values(&self, alloc: Global) -> Result<Vec<Value>, AllocError>
        ensures { IfOk result (λ values. values.items ≡ flat_map (λ (row : Fragment). row.values) self.now.items) }
    {
        let columns = self.column_views(alloc)?;
        let Some(room) = self.len().checked_mul(self.width()) else {
            return Err(AllocError);
        };
        let mut values = Vec::with_capacity(alloc, room)?;
        'rows: for row in 0..self.len() {
            push_values(&columns, row, &mut values)?;
        }
        Ok(values)
    }

    /// A copy of the rows with their values. `AllocError` if an allocation failed.
    pub fn copied(&self, alloc: Global) -> Result<Rows, AllocError>
        ensures { IfOk result (λ rows. rows ≡ self.now) }
    {
        let _few = self.len();
        let values = self.copied_values(alloc)?;
        let periods = self.periods().to_vec(alloc)?;
        Ok(Rows::of_values(alloc, self.width(), values, periods))
    }

    /// A copy of the relation that owns its rows. `AllocError` if an allocation failed.
    pub fn to_owned<'b>(&self, alloc: Global) -> Result<Relation<'b>, AllocError>
        ensures { IfOk result (λ relation. relation ≡ self.now) }
    {
        Relation::owned(alloc, self.copied(alloc)?)
    }
}
