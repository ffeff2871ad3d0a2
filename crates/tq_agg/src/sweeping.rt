//! The sweep: one pass over the bounds at which rows begin and end, in order of time, that adds a row to the result for each
//! period in which no total changes.

ghost use Rattle.std.specs.Prelude.{◌≡◌, ◌++◌, ◌+◌, ◌<◌, ◌≤◌, ◌^◌, ◌&&◌, ◌||◌, ℕ, ℤ, [], if◌then◌else◌, nat_le, nat_lt, drop, length, map, slice_get, List, OnOk};
ghost use Rattle.tq_base.specs.declared.value.Value.{Value};
ghost use Rattle.tq_base.specs.Contents.{Int};
ghost use Rattle.tq_base.specs.Fragments.{copies};
ghost use Rattle.tq_base.specs.Periods.{holds};
ghost use Rattle.tq_base.specs.Sweep.{upto};
ghost use Rattle.tq_condition.specs.Ordinary.{projection};
ghost use Rattle.tq_agg.specs.Endpoints.{earlier, AreInOrder, AreUpTo};
ghost use Rattle.tq_agg.specs.Totals.{has_rows, result_copies, row_copies};

use std::alloc::{AllocError, Global};
use std::mem;
use tq_base::{Bound, Instant, Period, Row, Rows, Value};

// How many starts and how many ends a sweep has passed.
#[derive(Clone, Copy)]
pub(crate) struct Place {
    pub(crate) begun: usize,
    pub(crate) ended: usize,
}

// Rows as a sweep sees them: the bounds at which they begin, those at which they end, each list in order of time, and totals
// over the rows that have begun and not ended.
pub(crate) trait Timeline {
    // the bounds at which rows begin
    ghost starts: { Self → List ℕ };

    // the bounds at which rows end
    ghost ends: { Self → List ℕ };

    // the totals after that many starts and ends; the first is the count of rows
    ghost totals: { Self → ℕ → ℕ → List ℤ };

    // what totals need to fit into 128 bits
    ghost fits: { Self → Type 0 };

    // The start at this place in the list, if there is one.
    fn start(&self, place: usize) -> Option<Bound>
        ensures { result ≡ slice_get (starts self.now) place };

    // The end at this place in the list, if there is one.
    fn end(&self, place: usize) -> Option<Bound>
        ensures { result ≡ slice_get (ends self.now) place };

    // Replaces the list by the totals before any row begins.
    fn first_totals(&self, next: &mut Vec<i128>) -> Result<(), AllocError>
        ensures { OnOk result (next.new.items ≡ totals self.now 0 0) };

    // Replaces the list by the totals at a later place, computed from those at the current one.
    fn next_totals(
        &self,
        from: Place,
        to: Place,
        current: &[i128],
        next: &mut Vec<i128>,
    ) -> Result<(), AllocError>
        requires fits { fits self.now }
        requires begun { from.begun ≤ to.begun }
        requires ended { from.ended ≤ to.ended }
        requires within { to.begun ≤ length (starts self.now) }
        requires ends_within { to.ended ≤ length (ends self.now) }
        requires short { length (starts self.now) < 2 ^ 63 }
        requires ends_short { length (ends self.now) < 2 ^ 63 }
        requires current { current.now ≡ totals self.now from.begun from.ended }
        ensures { OnOk result (next.new.items ≡ totals self.now to.begun to.ended) };
}

// The values that precede the totals in each result row of a group: those of one of its rows in the key columns.
#[derive(Clone, Copy)]
pub(crate) struct GroupKey<'a> {
    pub(crate) row: &'a Row<'a>,
    pub(crate) columns: &'a [u32],
    // Whether there is a result row, with the count 0, while no row is valid.
    pub(crate) shows_zero: bool,
}

// Memory of a sweep, which the next one reuses: the totals, the next totals, and the values of a result row.
#[derive(Drop)]
pub(crate) struct Scratch {
    pub(crate) totals: Vec<i128>,
    pub(crate) next: Vec<i128>,
    pub(crate) values: Vec<Value>,
}

impl Scratch {
    // Empty lists.
    pub(crate) fn new(alloc: Global) -> Scratch
        ensures { result.values.items ≡ [] }
    {
        Scratch {
            totals: Vec::new(alloc),
            next: Vec::new(alloc),
            values: Vec::new(alloc),
        }
    }
}

// The earlier of the next start and the next end.
fn earlier(start: Option<Bound>, end: Option<Bound>) -> Option<Bound>
    ensures { result ≡ earlier start end }
{
    match (start, end) {
        (Some(start), Some(end)) => Some(if end < start { end } else { start }),
        (Some(bound), None) | (None, Some(bound)) => Some(bound),
        (None, None) => None,
    }
}

// The number of starts, from place `begun` on, that are at or before the bound.
fn starts_by<T: Timeline>(timeline: &T, begun: usize, at: Bound) -> usize
    requires within { begun ≤ length (T.starts timeline.now) }
    requires short { length (T.starts timeline.now) < 2 ^ 63 }
    ensures { AreUpTo at (drop begun (T.starts timeline.now)) result }
{
    let mut len = 0;
    'starts: while let Some(start) = timeline.start(begun + len) {
        if start > at {
            return len;
        }
        len += 1;
    }
    len
}

// The number of ends, from place `ended` on, that are at or before the bound.
fn ends_by<T: Timeline>(timeline: &T, ended: usize, at: Bound) -> usize
    requires within { ended ≤ length (T.ends timeline.now) }
    requires short { length (T.ends timeline.now) < 2 ^ 63 }
    ensures { AreUpTo at (drop ended (T.ends timeline.now)) result }
{
    let mut len = 0;
    'ends: while let Some(end) = timeline.end(ended + len) {
        if end > at {
            return len;
        }
        len += 1;
    }
    len
}

// Appends the totals to the values.
fn push_totals(alloc: Global, totals: &[i128], values: &mut Vec<Value>) -> Result<(), AllocError>
    ensures { OnOk result (values.new.items ≡ values.old.items ++ map Int totals.now) }
{
    'totals: for total in totals {
        values.push(Value::number(alloc, *total)?)?;
    }
    Ok(())
}

// Whether the first of the totals, the count of rows, is not 0.
fn has_rows(totals: &[i128]) -> bool
    ensures { result ≡ has_rows totals.now }
{
    match totals.first() {
        Some(count) => *count != 0,
        None => false,
    }
}

// Whether the totals have a result row.
fn is_shown(key: &GroupKey<'_>, totals: &[i128]) -> bool
    ensures { result ≡ (key.now.shows_zero || has_rows totals.now) }
{
    key.shows_zero || has_rows(totals)
}

// Adds a result row of the values and the totals, valid from `since` to `until`, if there is an instant between. It takes the
// values out of their list.
fn add_totals(
    alloc: Global,
    totals: &[i128],
    since: Bound,
    until: Bound,
    values: &mut Vec<Value>,
    out: &mut Rows,
) -> Result<(), AllocError>
    requires { out.old.width ≡ length values.old.items + length totals.now }
    ensures emptied { OnOk result (values.new.items ≡ []) }
    ensures width { out.new.width ≡ out.old.width }
    ensures rows { OnOk result ((t : ℕ) (v : List Value) → copies out.new.items v t ≡ copies out.old.items v t
        + (if nat_le since t && nat_lt t until then row_copies values.old.items totals.now v else 0)) }
{
    let Some(start) = Instant::new(since.number()) else {
        values.clear();
        return Ok(());
    };
    let Some(period) = Period::new(start, until) else {
        values.clear();
        return Ok(());
    };
    push_totals(alloc, totals, values)?;
    out.push(values, period)
}

// Adds a result row of the key and the totals, valid from `since` to `until`, if there is an instant between and the totals
// have a row. The list of values is empty before and after.
fn add_row(
    alloc: Global,
    key: &GroupKey<'_>,
    totals: &[i128],
    since: Bound,
    until: Bound,
    values: &mut Vec<Value>,
    out: &mut Rows,
) -> Result<(), AllocError>
    requires empty { values.old.items ≡ [] }
    requires width { out.old.width ≡ length key.now.columns.now + length totals.now }
    ensures emptied { OnOk result (values.new.items ≡ []) }
    ensures width { out.new.width ≡ out.old.width }
    ensures rows { OnOk result ((t : ℕ) (v : List Value) → copies out.new.items v t ≡ copies out.old.items v t
        + (if nat_le since t && nat_lt t until then result_copies key.now.shows_zero (projection key.now.columns.now key.now.row.now) totals.now v else 0)) }
{
    if !is_shown(key, totals) {
        return Ok(());
    }
    key.row.show(key.columns, values)?;
    add_totals(alloc, totals, since, until, values, out)
}

// Adds the result rows of a group: at each instant of the window, the one of the key and of the totals over the rows that
// have begun by then and not ended, if these totals have a row.
pub(crate) fn sweep<T: Timeline>(
    alloc: Global,
    key: &GroupKey<'_>,
    timeline: &T,
    window: &Period,
    scratch: &mut Scratch,
    out: &mut Rows,
) -> Result<(), AllocError>
    requires starts { AreInOrder window.now (T.starts timeline.now) }
    requires ends { AreInOrder window.now (T.ends timeline.now) }
    requires short { length (T.starts timeline.now) < 2 ^ 63 }
    requires ends_short { length (T.ends timeline.now) < 2 ^ 63 }
    requires fits { T.fits timeline.now }
    requires empty { scratch.old.values.items ≡ [] }
    requires width { (begun ended : ℕ) → out.old.width ≡ length key.now.columns.now + length (T.totals timeline.now begun ended) }
    ensures emptied { OnOk result (scratch.new.values.items ≡ []) }
    ensures width { out.new.width ≡ out.old.width }
    ensures rows { OnOk result ((t : ℕ) (v : List Value) → copies out.new.items v t ≡ copies out.old.items v t
        + (if holds window.now t then result_copies key.now.shows_zero (projection key.now.columns.now key.now.row.now) (T.totals timeline.now (upto (T.starts timeline.now) t) (upto (T.ends timeline.now) t)) v else 0)) }
{
    timeline.first_totals(&mut scratch.totals)?;
    let mut since = Bound::at(window.start);
    let mut place = Place { begun: 0, ended: 0 };
    'bounds: while let Some(at) = earlier(timeline.start(place.begun), timeline.end(place.ended)) {
        let next = Place {
            begun: place.begun + starts_by(timeline, place.begun, at),
            ended: place.ended + ends_by(timeline, place.ended, at),
        };
        timeline.next_totals(place, next, &scratch.totals, &mut scratch.next)?;
        if scratch.next != scratch.totals {
            add_row(
                alloc,
                key,
                &scratch.totals,
                since,
                at,
                &mut scratch.values,
                out,
            )?;
            mem::swap(&mut scratch.totals, &mut scratch.next);
            since = at;
        }
        place = next;
    }
    add_row(
        alloc,
        key,
        &scratch.totals,
        since,
        window.end,
        &mut scratch.values,
        out,
    )
}
