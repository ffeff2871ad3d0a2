//! Rows of one width, stored one after the other in one list of values, with a second list of their periods.

ghost use Rattle.std.specs.Prelude.{◌≡◌, ◌++◌, ◌∷◌, [], ◌<◌, ◌≤◌, ◌+◌, ◌*◌, ℕ, All, IfOk, OnErr, OnOk, drop, length, map, slice_index_or, take, vec_capacity, vec_len};
ghost use Rattle.tq_base.specs.declared.fragment.Fragment.{Fragment};
ghost use Rattle.tq_base.specs.RowLists.{rows_from};
ghost use Rattle.tq_base.specs.Slots.{kept_of, AreNumbered};

use crate::period::Period;
use crate::rows::Slot;
use crate::value::Value;
use std::alloc::{AllocError, Global};
use std::marker::Model;
use std::thread::Threads;
use std::{mem, thread};

/// The most rows of one list, so that a row's number has 32 bits.
pub(crate) const MAX_ROWS: usize = 4_294_967_295;

// Below this number of rows, one thread moves them faster than two.
const FEW_ROWS: usize = 8_192;

// Appends copies of the values; some of them if an allocation failed.
pub(crate) fn push_copies(values: &mut Vec<Value>, row: &[Value]) -> Result<(), AllocError>
    ensures added { OnOk result (values.new.items ≡ values.old.items ++ row.now) }
    ensures kept { take (length values.old.items) values.new.items ≡ values.old.items }
{
    'row: for value in row {
        values.push(value.try_copy()?)?;
    }
    Ok(())
}

// Appends copies of the values; none of them if an allocation failed.
fn add_copies(values: &mut Vec<Value>, row: &[Value]) -> Result<(), AllocError>
    ensures added { OnOk result (values.new.items ≡ values.old.items ++ row.now) }
    ensures err { OnErr result (values.new.items ≡ values.old.items) }
{
    let len = values.len();
    let added = push_copies(values, row);
    if added.is_err() {
        values.truncate(len);
    }
    added
}

// Appends the row's values in the stored columns to the list, which has room for them, and drops the others.
fn move_stored(slots: &[Slot], row: &mut Vec<Value>, values: &mut Vec<Value>)
    requires wide { length row.old.items ≡ length slots.now }
    requires room { vec_len values.old + length (kept_of slots.now row.old.items) ≤ vec_capacity values.old }
    ensures values { values.new.items ≡ values.old.items ++ kept_of slots.now row.old.items }
    ensures row { row.new.items ≡ [] }
{
    'slots: for (place, slot) in slots.iter().enumerate() {
        if let Slot::Stored(_) = slot {
            let value = mem::replace(&mut row[place], Value::int(0));
            values.push_reserved(value);
        }
    }
    row.clear();
}

fn joined<T: Drop>(list: Vec<T>, other: Vec<T>) -> Result<Vec<T>, AllocError>
    ensures { IfOk result (λ all. all.items ≡ list.items ++ other.items) }
{
    let mut all = list;
    let mut more = other;
    all.append(&mut more)?;
    Ok(all)
}

/// Rows of one width in the order of the pushes, each with its period. Contracts see their width and their list.
#[derive(Drop, Debug)]
pub(crate) struct DenseRows {
    width: usize,
    values: Vec<Value>,
    periods: Vec<Period>,
}

impl Model for DenseRows {
    ghost use Rattle.std.specs.Prelude.{◌≡◌, ◌≤◌, ◌*◌, length};
    ghost use Rattle.tq_base.specs.RowLists.{RowList, rows_from};

    ghost Value = { RowList };

    ghost view = { λ r. record { width = r.width; items = rows_from r.width r.values.items r.periods.items } };

    ghost invariant = { λ r. (length r.values.items ≡ length r.periods.items * r.width) × (length r.periods.items ≤ 4294967295) };
}

impl DenseRows {
    pub(crate) fn new(alloc: Global, width: usize) -> DenseRows
        ensures width { result.width ≡ width }
        ensures rows { result.items ≡ [] }
    {
        DenseRows {
            width,
            values: Vec::new(alloc),
            periods: Vec::new(alloc),
        }
    }

    // The rows that the values make, `width` values each, with these periods.
    pub(crate) fn of_values(width: usize, values: Vec<Value>, periods: Vec<Period>) -> DenseRows
        requires fill { length values.items ≡ length periods.items * width }
        requires few { length periods.items ≤ 4294967295 }
        ensures { result ≡ record { width = width; items = rows_from width values.items periods.items } }
    {
        DenseRows {
            width,
            values,
            periods,
        }
    }

    pub(crate) fn width(&self) -> usize
        ensures width { result ≡ self.now.width }
        ensures rows { All (λ (row : Fragment). length row.values ≡ self.now.width) self.now.items }
    {
        self.width
    }

    pub(crate) fn len(&self) -> usize
        ensures len { result ≡ length self.now.items }
        ensures few { result ≤ 4294967295 }
    {
        self.periods.len()
    }

    pub(crate) fn periods(&self) -> &[Period]
        ensures { result.now ≡ map (λ (row : Fragment). row.period) self.now.items }
    {
        self.periods.as_slice()
    }

    pub(crate) fn period(&self, row: usize) -> Period
        requires { row < length self.now.items }
        ensures { (d : Fragment) → result ≡ (slice_index_or self.now.items row d).period }
    {
        self.periods()[row]
    }

    pub(crate) fn values(&self, row: usize) -> &[Value]
        requires { row < length self.now.items }
        ensures { (d : Fragment) → result.now ≡ (slice_index_or self.now.items row d).values }
    {
        let values = self.values.as_slice();
        let start = row * self.width;
        &values[start..start + self.width]
    }

    // The values of all rows, one row after the other.
    pub(crate) fn all_values(&self) -> &[Value]
        ensures len { length result.now ≡ length self.now.items * self.now.width }
        ensures rows { (k : ℕ) (d : Fragment) → k < length self.now.items → (slice_index_or self.now.items k d).values ≡ take self.now.width (drop (k * self.now.width) result.now) }
    {
        self.values.as_slice()
    }

    /// Adds a row and moves the values out of `row`. `AllocError` if an allocation failed or there are 2^32 - 1 rows
    /// already: then nothing has changed.
    pub(crate) fn push(&mut self, row: &mut Vec<Value>, period: Period) -> Result<(), AllocError>
        requires { length row.old.items ≡ self.old.width }
        ensures width { self.new.width ≡ self.old.width }
        ensures pushed { OnOk result (self.new.items ≡ self.old.items ++ record { values = row.old.items; period = period } ∷ []) }
        ensures emptied { OnOk result (row.new.items ≡ []) }
        ensures err { OnErr result (self.new ≡ self.old) }
        ensures kept { OnErr result (row.new.items ≡ row.old.items) }
    {
        if self.periods.len() >= MAX_ROWS {
            return Err(AllocError);
        }
        self.periods.reserve(1)?;
        self.values.append(row)?;
        self.periods.push_reserved(period);
        Ok(())
    }

    /// Adds a row of the values in the stored columns, moved out of `row`; the other values are dropped. `AllocError`
    /// if an allocation failed or there are 2^32 - 1 rows already: then nothing has changed.
    pub(crate) fn push_stored(
        &mut self,
        slots: &[Slot],
        row: &mut Vec<Value>,
        period: Period,
    ) -> Result<(), AllocError>
        requires wide { length row.old.items ≡ length slots.now }
        requires numbered { AreNumbered 0 slots.now self.old.width }
        ensures width { self.new.width ≡ self.old.width }
        ensures pushed { OnOk result (self.new.items ≡ self.old.items ++ record { values = kept_of slots.now row.old.items; period = period } ∷ []) }
        ensures emptied { OnOk result (row.new.items ≡ []) }
        ensures err { OnErr result (self.new ≡ self.old) }
        ensures kept { OnErr result (row.new.items ≡ row.old.items) }
    {
        if self.periods.len() >= MAX_ROWS {
            return Err(AllocError);
        }
        self.periods.reserve(1)?;
        self.values.reserve(self.width)?;
        move_stored(slots, row, &mut self.values);
        self.periods.push_reserved(period);
        Ok(())
    }

    /// Adds a row of copies of the values. `AllocError` if an allocation failed or there are 2^32 - 1 rows already:
    /// then nothing has changed.
    pub(crate) fn push_copy(&mut self, row: &[Value], period: Period) -> Result<(), AllocError>
        requires { length row.now ≡ self.old.width }
        ensures width { self.new.width ≡ self.old.width }
        ensures pushed { OnOk result (self.new.items ≡ self.old.items ++ record { values = row.now; period = period } ∷ []) }
        ensures err { OnErr result (self.new ≡ self.old) }
    {
        if self.periods.len() >= MAX_ROWS {
            return Err(AllocError);
        }
        self.periods.reserve(1)?;
        add_copies(&mut self.values, row)?;
        self.periods.push_reserved(period);
        Ok(())
    }

    /// Keeps at most the first `len` rows.
    pub(crate) fn truncate(&mut self, len: usize)
        ensures width { self.new.width ≡ self.old.width }
        ensures rows { self.new.items ≡ take len self.old.items }
    {
        if len < self.periods.len() {
            self.periods.truncate(len);
            self.values.truncate(len * self.width);
        }
    }

    /// The rows, then those of `other`, which has the same width. Moves the values without copying them. `AllocError`
    /// if an allocation failed or there are 2^32 rows or more.
    pub(crate) fn followed_by(self, other: DenseRows) -> Result<DenseRows, AllocError>
        requires { other.width ≡ self.width }
        ensures width { IfOk result (λ rows. rows.width ≡ self.width) }
        ensures rows { IfOk result (λ rows. rows.items ≡ self.items ++ other.items) }
    {
        if other.periods.len() > MAX_ROWS - self.periods.len() {
            return Err(AllocError);
        }
        Ok(DenseRows {
            width: self.width,
            values: joined(self.values, other.values)?,
            periods: joined(self.periods, other.periods)?,
        })
    }

    /// These rows, then the others. With several workers and many rows in `other`, one thread moves the values while
    /// another moves the periods.
    pub(crate) fn followed_by_among<R: Threads>(
        self,
        rt: &R,
        workers: u32,
        other: DenseRows,
    ) -> Result<DenseRows, AllocError>
        requires { other.width ≡ self.width }
        ensures width { IfOk result (λ rows. rows.width ≡ self.width) }
        ensures rows { IfOk result (λ rows. rows.items ≡ self.items ++ other.items) }
    {
        if other.periods.len() > MAX_ROWS - self.periods.len() {
            return Err(AllocError);
        }
        if workers < 2 || other.periods.len() < FEW_ROWS {
            return self.followed_by(other);
        }
        let DenseRows {
            width,
            values,
            periods,
        } = self;
        let DenseRows {
            width: _,
            values: more_values,
            periods: more_periods,
        } = other;
        let move_values = || -> Result<Vec<Value>, AllocError>
            ensures { IfOk result (λ all. all.items ≡ values.items ++ more_values.items) }
        { joined(values, more_values) };
        let move_periods = || -> Result<Vec<Period>, AllocError>
            ensures { IfOk result (λ all. all.items ≡ periods.items ++ more_periods.items) }
        { joined(periods, more_periods) };
        let (periods, values) = thread::join(rt, move_periods, move_values);
        Ok(DenseRows {
            width,
            values: values?,
            periods: periods?,
        })
    }
}
