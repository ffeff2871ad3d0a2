//! Sorting of rows by keys. A key has 32 bytes and stands for a row of one or two relations. Sorted keys are cut into
//! runs with equal values.

ghost use Rattle.std.specs.Prelude.{◌≡◌, ◌≢◌, ◌<◌, ◌≤◌, ◌++◌, ◌&&◌, ◌||◌, nat_eq, nat_lt, All, IsPermutation, IsSorted, OnErr, OnOk, drop, length, map, slice_index_or, take, true};
ghost use Rattle.std.specs.Bool.{OnTrue};
ghost use Rattle.std.specs.Option.{option_copied};
ghost use Rattle.tq_base.specs.RowValues.{value_at};
ghost use Rattle.tq_base.specs.declared.sort_input.SortKey.{SortKey};
ghost use Rattle.tq_base.specs.SortInputs.{state_of};
ghost use Rattle.tq_base.specs.Keys.{begins_run, columns_on, first_prefix, held, held_on, is_within, key_cmp, key_row, key_values, no_row, is_exact, rows_on, prefix_start_cmp, value_key_cmp, within, HaveRunStarts, AreExact, BeginsWithBytes, IsFresh, IsSortKey, Rises};
ghost use Rattle.tq_base.specs.PlaceViews.{first_in, IsFirstOn};
ghost use Rattle.tq_base.specs.ValueOrder.{value_cmp, values_cmp};

use crate::column_view::ColumnView;
use crate::packed::sort_packed;
use crate::period::{Bound, Instant, Period};
use crate::prefetch::PREFETCHED;
use crate::prefixes::{normalized_key, prefix_in_place};
use crate::relation::Relation;
use crate::row::Row;
use crate::short_text::TEXT_PREFIX;
use crate::sort_input::{RunStart, Side, SortInput, SortKey};
use std::alloc::AllocError;
use std::cmp::Ordering;

// The greatest prefix of a number of 64 signed bits. All greater numbers have the next one.
const WIDE_PREFIX: u128 = 1 << 64;

// The average length from which runs count as long.
const LONG_RUN: usize = 1024;

// Compares the values in the two columns; a column that a row does not have counts as the number 0.
fn compare_at(one: &Row<'_>, column: u32, other: &Row<'_>, other_column: u32) -> Ordering
    ensures { result ≡ value_cmp (value_at one.now column) (value_at other.now other_column) }
{
    one.value(column as usize)
        .compare(other.value(other_column as usize))
}

// The period of the first instant alone.
fn first_period() -> Period
    ensures { result ≡ no_row.period }
{
    let start = Instant::new(0).unwrap();
    let end = Bound::new(1).unwrap();
    Period { start, end }
}

// The period of a row; that of the first instant if there is no such row.
fn period_in(rows: &Relation<'_>, row: u32) -> Period
    ensures { result ≡ (slice_index_or rows.now.items row no_row).period }
{
    match rows.periods().get(row as usize) {
        Some(period) => *period,
        None => first_period(),
    }
}

// Whether the period overlaps the window; true if there is no window.
fn is_within(period: &Period, window: Option<&Period>) -> bool
    ensures { result ≡ is_within (option_copied window.entry) period.now }
{
    match window {
        Some(window) => {
            period.start.number() < window.end.number()
                && window.start.number() < period.end.number()
        }
        None => true,
    }
}

// The prefix of the row's value in the column; 0 if there is no column.
fn prefix_in(column: &Option<ColumnView<'_>>, row: u32, are_boxed: bool) -> u128
    ensures prefix { result ≡ first_prefix (first_in column.now row) }
    ensures bytes { BeginsWithBytes (first_in column.now row) }
{
    match column {
        Some(column) => {
            let value = column.value(row as usize);
            if are_boxed {
                normalized_key(value)
            } else {
                prefix_in_place(value)
            }
        }
        None => 0,
    }
}

// Whether the next `PREFETCHED` rows may have boxed values in the column.
fn has_boxed(column: &Option<ColumnView<'_>>, row: u32) -> bool {
    match column {
        Some(column) => column.has_boxed(row),
        None => false,
    }
}

/// Whether a prefix determines its value: two values with this prefix are equal.
pub fn is_exact(prefix: u128) -> bool
    ensures { result ≡ is_exact prefix }
{
    if prefix < TEXT_PREFIX {
        0 < prefix && prefix <= WIDE_PREFIX
    } else {
        prefix % 256 < 15
    }
}

fn are_prefixes_exact(keys: &[SortKey]) -> bool
    ensures { OnTrue result (All (λ k. is_exact k.prefix ≡ true) keys.now) }
{
    keys.iter().all(|key| is_exact(key.prefix))
}

// Compares the prefixes, then the starts. Both comparisons are always made, so that sorting, which calls this for most
// pairs of keys, has no branch to predict.
fn is_prefix_below(one: &SortKey, other: &SortKey) -> bool
    ensures { result ≡ (nat_lt one.now.prefix other.now.prefix || (nat_eq one.now.prefix other.now.prefix && nat_lt one.now.start other.now.start)) }
{
    (one.prefix < other.prefix) | ((one.prefix == other.prefix) & (one.start < other.start))
}

// Compares the prefixes, then the starts.
pub(crate) fn compare_prefix_start(one: &SortKey, other: &SortKey) -> Ordering
    ensures { result ≡ prefix_start_cmp one.now other.now }
{
    if is_prefix_below(one, other) {
        Ordering::Less
    } else if is_prefix_below(other, one) {
        Ordering::Greater
    } else {
        Ordering::Equal
    }
}

// Whether the keys rise and fall in long runs, as counts do over a time in which rows come and then go.
fn are_long_runs(keys: &[SortKey]) -> bool {
    let mut turns_left = keys.len() / LONG_RUN;
    let mut rises = true;
    'keys: for place in 1..keys.len() {
        if is_prefix_below(&keys[place], &keys[place - 1]) == rises {
            if turns_left == 0 {
                return false;
            }
            turns_left -= 1;
            rises = !rises;
        }
    }
    true
}

// Sorts keys whose prefixes determine all compared values; no row is read. The stable sort is fast on long runs. Other
// keys are packed for the sort if possible.
fn sort_exact(keys: &mut Vec<SortKey>) -> Result<(), AllocError>
    ensures same { OnOk result (IsPermutation keys.old.items keys.new.items) }
    ensures order { OnOk result (IsSorted prefix_start_cmp keys.new.items) }
    ensures kept { OnErr result (keys.new.items ≡ keys.old.items) }
{
    if are_long_runs(keys) {
        keys.sort_by(|one, other| compare_prefix_start(one, other))?;
    } else {
        let alloc = *keys.allocator();
        if !sort_packed(alloc, keys) {
            keys.sort_unstable_by(|one, other| compare_prefix_start(one, other));
        }
    }
    Ok(())
}

impl<'a> SortInput<'a> {
    /// The values of the key's row.
    pub fn row(&self, key: &SortKey) -> Row<'a>
        ensures { result ≡ (key_row (state_of self.now) key.now).values }
    {
        match key.side {
            Side::Left => self.left.row(key.row as usize),
            Side::Right => self.right.row(key.row as usize),
        }
    }

    /// The period of the key's row.
    pub fn period(&self, key: &SortKey) -> Period
        ensures { result ≡ (key_row (state_of self.now) key.now).period }
    {
        match key.side {
            Side::Left => period_in(self.left, key.row),
            Side::Right => period_in(self.right, key.row),
        }
    }

    fn rows(&self, side: Side) -> &Relation<'a>
        ensures { result.now.items ≡ rows_on (state_of self.now) side }
    {
        match side {
            Side::Left => self.left,
            Side::Right => self.right,
        }
    }

    // The columns of the side that are compared.
    pub(crate) fn columns(&self, side: Side) -> &[u32]
        ensures columns { result.now ≡ columns_on (state_of self.now) side }
        ensures same { length result.now ≡ length self.now.left_columns.now }
    {
        match side {
            Side::Left => self.left_columns,
            Side::Right => self.right_columns,
        }
    }

    // Compares the values in the columns from the place on. Not inlined, so that loops over keys that prefixes decide
    // stay short.
    #[inline(never)]
    fn compare_rows(&self, first: usize, one: &SortKey, other: &SortKey) -> Ordering
        ensures { result ≡ values_cmp (drop first (key_values (state_of self.now) one.now)) (drop first (key_values (state_of self.now) other.now)) }
    {
        let (row, columns) = (self.row(one), self.columns(one.side));
        let (other_row, other_columns) = (self.row(other), self.columns(other.side));
        'places: for place in first..columns.len() {
            let order = compare_at(&row, columns[place], &other_row, other_columns[place]);
            if order.is_ne() {
                return order;
            }
        }
        Ordering::Equal
    }

    // Compares the compared values from the place on. No row is read if none is left.
    #[inline]
    pub(crate) fn compare_from(&self, first: usize, one: &SortKey, other: &SortKey) -> Ordering
        ensures { result ≡ values_cmp (drop first (key_values (state_of self.now) one.now)) (drop first (key_values (state_of self.now) other.now)) }
    {
        if first >= self.left_columns.len() {
            return Ordering::Equal;
        }
        self.compare_rows(first, one, other)
    }

    /// Compares the prefixes, then the values that they do not decide.
    pub fn compare_values(&self, one: &SortKey, other: &SortKey) -> Ordering
        ensures { result ≡ value_key_cmp (state_of self.now) one.now other.now }
    {
        match one.prefix.cmp(&other.prefix) {
            Ordering::Equal => {
                let first = if is_exact(one.prefix) { 1 } else { 0 };
                self.compare_from(first, one, other)
            }
            order => order,
        }
    }

    /// Compares the prefixes, the values that they do not decide, then the starts.
    pub fn compare(&self, one: &SortKey, other: &SortKey) -> Ordering
        ensures { result ≡ key_cmp (state_of self.now) one.now other.now }
    {
        self.compare_values(one, other)
            .then(one.start.cmp(&other.start))
    }

    // The column that is compared first on the side, if any.
    fn first_column(&self, side: Side) -> Option<ColumnView<'_>>
        ensures { IsFirstOn (state_of self.now) side result }
    {
        match self.columns(side) {
            [first, ..] => Some(self.rows(side).column(*first as usize)),
            [] => None,
        }
    }

    // The key of the row, given the column that is compared first.
    fn key_of(
        &self,
        side: Side,
        row: u32,
        column: &Option<ColumnView<'_>>,
        are_boxed: bool,
        period: &Period,
    ) -> SortKey
        requires stands { row < length (rows_on (state_of self.now) side) }
        requires first { IsFirstOn (state_of self.now) side column.now }
        requires period { (slice_index_or (rows_on (state_of self.now) side) row no_row).period ≡ period.now }
        ensures key { IsFresh (state_of self.now) result }
        ensures side { result.side ≡ side }
        ensures row { result.row ≡ row }
    {
        SortKey {
            prefix: prefix_in(column, row, are_boxed),
            start: period.start.number(),
            row,
            side,
            run_start: RunStart::Unknown,
        }
    }

    /// Appends the keys of the side's rows, or of those that overlap the window if there is one. `AllocError` if an
    /// allocation failed: then the list has not changed.
    pub fn add_keys(
        &self,
        side: Side,
        window: Option<&Period>,
        keys: &mut Vec<SortKey>,
    ) -> Result<(), AllocError>
        ensures rows { OnOk result (map (held (state_of self.now)) keys.new.items
            ≡ map (held (state_of self.now)) keys.old.items ++ held_on side (within (option_copied window.entry) (rows_on (state_of self.now) side))) }
        ensures keys { OnOk result (All (IsFresh (state_of self.now)) keys.old.items → All (IsFresh (state_of self.now)) keys.new.items) }
        ensures kept { OnErr result (keys.new.items ≡ keys.old.items) }
    {
        let rows = self.rows(side);
        let len = rows.len();
        keys.reserve(len)?;
        let column = self.first_column(side);
        let mut are_boxed = true;
        'rows: for (row, period) in rows.periods().iter().enumerate() {
            if row % PREFETCHED == 0 {
                are_boxed = has_boxed(&column, row as u32);
            }
            if is_within(period, window) {
                keys.push_reserved(self.key_of(side, row as u32, &column, are_boxed, period));
            }
        }
        Ok(())
    }

    fn are_sorted(&self, keys: &[SortKey]) -> bool
        ensures { OnTrue result (IsSorted (key_cmp (state_of self.now)) keys.now) }
    {
        keys.is_sorted_by(|one, other| self.compare(one, other).is_le())
    }

    // Whether the prefixes determine all compared values. If false, they may still do so.
    fn are_exact(&self, keys: &[SortKey]) -> bool
        ensures { OnTrue result (AreExact (state_of self.now) keys.now) }
    {
        match self.left_columns.len() {
            0 => true,
            1 => are_prefixes_exact(keys),
            _ => false,
        }
    }

    /// Sorts the keys by the compared values, then by start, and sets the run starts that it learns. Keys that are in
    /// order already are left as they are. `AllocError` if an allocation failed: then the keys have not changed.
    pub fn sort(&self, keys: &mut Vec<SortKey>) -> Result<(), AllocError>
        requires keys { All (IsFresh (state_of self.now)) keys.old.items }
        ensures rows { OnOk result (IsPermutation (map (held (state_of self.now)) keys.old.items) (map (held (state_of self.now)) keys.new.items)) }
        ensures keys { OnOk result (All (IsSortKey (state_of self.now)) keys.new.items) }
        ensures run_starts { OnOk result (HaveRunStarts (state_of self.now) keys.new.items) }
        ensures order { OnOk result (IsSorted (key_cmp (state_of self.now)) keys.new.items) }
        ensures rises { OnOk result (Rises (state_of self.now) keys.new.items) }
        ensures kept { OnErr result (keys.new.items ≡ keys.old.items) }
    {
        if self.are_sorted(keys) {
            return Ok(());
        }
        if self.are_exact(keys) {
            sort_exact(keys)?;
        } else {
            self.break_ties(keys);
        }
        Ok(())
    }

    // Whether the key at the place has other values than `first`, which has those of all keys before it. No row is read
    // if the key's run start is known.
    fn begins_run(&self, place: usize, key: &SortKey, first: &SortKey) -> bool
        ensures { result ≡ begins_run (state_of self.now) place key.now first.now }
    {
        if place == 0 {
            return false;
        }
        match key.run_start {
            RunStart::Unknown => self.compare_values(key, first).is_ne(),
            RunStart::Begins => true,
            RunStart::GoesOn => false,
        }
    }

    /// The number of keys at the front that have the compared values of the first key.
    pub fn run_len(&self, keys: &[SortKey]) -> usize
        requires keys { All (IsSortKey (state_of self.now)) keys.now }
        requires run_starts { HaveRunStarts (state_of self.now) keys.now }
        ensures within { result ≤ length keys.now }
        ensures some { 0 < length keys.now → 0 < result }
        ensures alike { (d : SortKey) → All (λ k. key_values (state_of self.now) k ≡ key_values (state_of self.now) (slice_index_or keys.now 0 d)) (take result keys.now) }
        ensures ends { (d : SortKey) → result < length keys.now
            → key_values (state_of self.now) (slice_index_or keys.now result d) ≢ key_values (state_of self.now) (slice_index_or keys.now 0 d) }
    {
        let Some(first) = keys.first() else {
            return 0;
        };
        'keys: for (len, key) in keys.iter().enumerate() {
            if self.begins_run(len, key, first) {
                return len;
            }
        }
        keys.len()
    }
}
