//! Access to one column of a relation in loops over rows: the part, the place and the step are looked up once.

ghost use Rattle.std.specs.Prelude.{◌≡◌, ◌+◌, ◌≤◌, ◌++◌, OnOk, length, map, pos, vec_capacity, vec_len};
ghost use Rattle.std.specs.List.{list_all, range_with_len};
ghost use Rattle.tq_base.specs.Contents.{Int};
ghost use Rattle.tq_base.specs.KeyRanges.{is_number_in};
ghost use Rattle.tq_base.specs.RowValues.{value_at};
ghost use Rattle.tq_base.specs.Parts.{column_cells, part_values, value_there, AreThere};

use crate::key_range::KeyRange;
use crate::parts::{Part, Place, number_in};
use crate::prefetch::{PREFETCHED, Prefetch};
use crate::short_text::SHORT;
use crate::value::Value;
use std::alloc::AllocError;
use std::marker::Model;

/// The borrowed values of one column, one for each row of a relation. Contracts see their list.
#[derive(Drop)]
pub struct ColumnView<'a> {
    values: &'a [Value],
    step: usize,
    place: usize,
    rows: usize,
    numbers: Option<&'a [u32]>,
    len: usize,
    zero: &'a Value,
}

impl<'a> Model for ColumnView<'a> {
    ghost use Rattle.std.specs.Prelude.{◌≡◌, List, pos};
    ghost use Rattle.std.specs.Option.{option_copied};
    ghost use Rattle.tq_base.specs.declared.value.Value.{Value as OneValue};
    ghost use Rattle.tq_base.specs.Contents.{Int};
    ghost use Rattle.tq_base.specs.Parts.{values_there, AreThere};

    ghost Value = { List OneValue };

    ghost view = { λ v. values_there v.rows v.values.now v.step v.place (option_copied v.numbers) v.len };

    ghost invariant = { λ v. (v.zero.now ≡ Int (pos 0)) × AreThere v.rows v.values.now v.step v.place };
}

// A column that the `len` rows do not have: each value is the number 0.
fn nowhere<'a>(len: usize, zero: &'a Value) -> ColumnView<'a>
    requires { zero.now ≡ Int (pos 0) }
    ensures { result ≡ map (λ _. Int (pos 0)) (range_with_len 0 len) }
{
    ColumnView {
        values: &[],
        step: 0,
        place: 0,
        rows: 0,
        numbers: None,
        len,
        zero,
    }
}

// The column in the first `len` rows of the part.
fn in_part<'a>(part: &'a Part<'a>, column: u32, len: usize, zero: &'a Value) -> ColumnView<'a>
    requires { zero.now ≡ Int (pos 0) }
    ensures { result ≡ map (λ place. value_at (part_values part.now place) column) (range_with_len 0 len) }
{
    let rows = part.source.rows();
    let Some(found) = rows.column(column) else {
        return nowhere(len, zero);
    };
    ColumnView {
        values: found.values,
        step: found.step,
        place: found.place,
        rows: rows.len(),
        numbers: part.numbers(),
        len,
        zero,
    }
}

// The value of row `number` in a column that begins at `place` and has one value every `step` values. The number 0 if
// there is no such row among the first `rows`. For loops over a column that was looked up once; `value_of` looks the
// column up for one value.
#[inline]
fn value_there<'a>(
    values: &'a [Value],
    rows: usize,
    step: usize,
    place: usize,
    number: usize,
    zero: &'a Value,
) -> &'a Value
    requires stand { AreThere rows values.now step place }
    requires zero { zero.now ≡ Int (pos 0) }
    ensures { result.now ≡ value_there rows values.now step place number }
{
    if number >= rows {
        return zero;
    }
    &values[number * step + place]
}

impl<'a> ColumnView<'a> {
    // The column in the first `len` rows of the parts; a column without a place is the number 0.
    pub(crate) fn of(
        parts: &'a [Part<'a>],
        column: Option<Place>,
        len: usize,
        zero: &'a Value,
    ) -> ColumnView<'a>
        requires { zero.now ≡ Int (pos 0) }
        ensures { result ≡ column_cells parts.now column len }
    {
        let Some(at) = column else {
            return nowhere(len, zero);
        };
        match parts.get(at.part as usize) {
            Some(part) => in_part(part, at.column, len, zero),
            None => nowhere(len, zero),
        }
    }

    /// How many rows there are.
    pub fn len(&self) -> usize
        ensures { result ≡ length self.now }
    {
        self.len
    }

    /// The value of the row; a row that does not exist counts as the number 0.
    #[inline]
    pub fn value(&self, row: usize) -> &'a Value
        ensures { result.now ≡ value_at self.now row }
    {
        if row >= self.len {
            return self.zero;
        }
        value_there(
            self.values,
            self.rows,
            self.step,
            self.place,
            number_in(self.numbers, row),
            self.zero,
        )
    }

    /// Whether each value is a number in the range. The loop reads every value, without an early exit, so that the
    /// processor overlaps many cache misses.
    pub fn are_numbers_in(&self, range: &KeyRange) -> bool
        ensures { result ≡ list_all (is_number_in range.now) self.now }
    {
        let mut are = true;
        'rows: for row in 0..self.len {
            let value = value_there(
                self.values,
                self.rows,
                self.step,
                self.place,
                number_in(self.numbers, row),
                self.zero,
            );
            are &= value.is_number_in(range);
        }
        are
    }

    // Whether a value of the rows from `from` up to and not including `end` is boxed.
    fn any_boxed(&self, from: usize, end: usize) -> bool {
        let mut any = false;
        'rows: for row in from..end {
            let value = value_there(
                self.values,
                self.rows,
                self.step,
                self.place,
                number_in(self.numbers, row),
                self.zero,
            );
            any |= value.is_boxed();
        }
        any
    }

    // Whether the next `PREFETCHED` rows may have boxed values in this column. Rows in another order than their values
    // are prefetched here; rows in the order of their values lie next to each other and need no prefetch.
    #[inline(never)]
    pub(crate) fn has_boxed(&self, from: u32) -> bool {
        if self.numbers.is_none() {
            return true;
        }
        let from = from as usize;
        let end = self.len.min(from + PREFETCHED);
        if !self.any_boxed(from, end) {
            return false;
        }
        let mut prefetch = Prefetch::new(self.value(from));
        'rows: for row in from..end {
            prefetch.push(self.value(row));
        }
        prefetch.longest() > SHORT
    }
}

// Appends copies of the row's values to the list, which has room for them.
pub(crate) fn push_values(
    columns: &[ColumnView<'_>],
    row: usize,
    values: &mut Vec<Value>,
) -> Result<(), AllocError>
    requires { vec_len values.old + length columns.now ≤ vec_capacity values.old }
    ensures values { OnOk result (values.new.items ≡ values.old.items ++ map (λ column. value_at column row) columns.now) }
    ensures len { OnOk result (vec_len values.new ≡ vec_len values.old + length columns.now) }
    ensures capacity { OnOk result (vec_capacity values.new ≡ vec_capacity values.old) }
{
    'columns: for column in columns {
        values.push_reserved(column.value(row).try_copy()?);
    }
    Ok(())
}
