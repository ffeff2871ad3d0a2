//! Reads of a history: the version of an instant, and the rows of tree keys.

ghost use Rattle.std.specs.Prelude.{◌≡◌, ◌≤◌, ◌<◌, ◌+◌, ◌-◌, length, map, All, IfOk, IsTrue, FitsSigned};
ghost use Rattle.std.specs.Int.{w64};
ghost use Rattle.std.specs.List.Sorted.{IsNonDecreasingBy};
ghost use Rattle.tq_base.specs.declared.period.TheConstants.{FOREVER};
ghost use Rattle.tq_base.specs.declared.relation.RowPeriod.{RowPeriod};
ghost use Rattle.tq_event.specs.History.{time_of};
ghost use Rattle.tq_event.specs.Versions.{version_at};
ghost use Rattle.tq_scan.specs.Windows.{whole_of};
ghost use Rattle.tq_store.specs.Rows.{whole_window};
ghost use Rattle.tq_store.specs.Stored.{IsLasting, IsMet, IsReadable, HaveSameValidity, row_period_for, times_of_row_period, row_of_key, row_view, times_of_key};

use crate::index::RowEvents;
use crate::key::{ROWS, shift_key};
use crate::log::Events;
use crate::row::Row;
use crate::stored::{period, read_row};
use std::alloc::{AllocError, Global};
use tq_base::{KeyRange, Period, RowPeriod};
use tq_scan::Window;

// Whether the period has only one instant.
fn is_instant(period: &Period) -> bool
    ensures { IsTrue result → period.now.end ≡ period.now.start + 1 }
{
    period.end.number() - 1 == period.start.number()
}

// The number of the first n events that are no later than the period's last instant; `first` is that number for its
// first one.
fn find_last(events: &Events<'_>, n: u32, period: &Period, first: u32) -> u32
    requires known { n ≤ length events.now }
    requires ordered { IsNonDecreasingBy time_of events.now }
    requires first { first ≡ version_at events.now n period.now.start }
    requires within { first ≤ n }
    ensures value { result ≡ version_at events.now n (period.now.end - 1) }
    ensures within { result ≤ n }
{
    if is_instant(period) {
        first
    } else {
        events.version_at(n, period.end.number() - 1)
    }
}

// The tree keys of the range at the versions of the period.
pub(crate) fn make_window(events: &Events<'_>, n: u32, range: &KeyRange, period: &Period) -> Window
    requires known { n ≤ length events.now }
    requires ordered { IsNonDecreasingBy time_of events.now }
    ensures window { whole_of result ≡ whole_window events.now n range.now period.now }
    ensures finite { period.now.start < FOREVER }
    ensures low { FitsSigned w64 range.now.low }
    ensures high { FitsSigned w64 range.now.high }
{
    let _count = events.len();
    let low = shift_key(range.low) * ROWS;
    let high = (shift_key(range.high) + 1) * ROWS;
    let first = events.version_at(n, period.start.number());
    let last = find_last(events, n, period, first);
    Window::new(low, high, first, last).unwrap()
}

// The rows of tree keys as of the first n events.
pub(crate) fn read_rows(
    alloc: Global,
    events: &Events<'_>,
    rows: &[RowEvents],
    keys: &[u128],
    n: u32,
) -> Result<Vec<Row>, AllocError>
    requires { All (IsReadable events.now rows.now) keys.now }
    ensures { IfOk result (λ found. map row_view found.items ≡ map (row_of_key events.now rows.now n) keys.now) }
{
    let mut found = Vec::with_capacity(alloc, keys.len())?;
    'keys: for key in keys {
        let number = (*key % ROWS) as u32;
        found.push(read_row(alloc, events, &rows[number as usize], number, n)?)?;
    }
    Ok(found)
}

// The row numbers of tree keys, each with the period of its row as of the first n events. The rows are far apart in
// memory. The loop does no more than this, so that the processor overlaps the cache misses.
pub(crate) fn read_row_periods(
    alloc: Global,
    rows: &[RowEvents],
    keys: &[u128],
    n: u32,
) -> Result<Vec<RowPeriod>, AllocError>
    requires { All (IsLasting rows.now) keys.now }
    ensures { IfOk result (λ row_periods. map times_of_row_period row_periods.items ≡ map (times_of_key rows.now n) keys.now) }
{
    let mut row_periods = Vec::with_capacity(alloc, keys.len())?;
    'keys: for key in keys {
        let number = (*key % ROWS) as u32;
        row_periods.push(RowPeriod {
            row: number,
            period: period(&rows[number as usize], n),
        })?;
    }
    Ok(row_periods)
}

// The row numbers of tree keys, each with the given period.
fn row_periods_at(
    alloc: Global,
    keys: &[u128],
    period: &Period,
) -> Result<Vec<RowPeriod>, AllocError>
    ensures { IfOk result (λ row_periods. row_periods.items ≡ map (row_period_for period.now) keys.now) }
{
    let mut row_periods = Vec::with_capacity(alloc, keys.len())?;
    'keys: for key in keys {
        row_periods.push_reserved(RowPeriod {
            row: (*key % ROWS) as u32,
            period: *period,
        });
    }
    Ok(row_periods)
}

// The row numbers of tree keys, each with a period that is right at the instants of the given one, as of the first n
// events. Each row must be valid at some instant of the given period. If that has one instant, it is the period of each
// row, and no row is read.
pub(crate) fn row_periods_of_keys(
    alloc: Global,
    rows: &[RowEvents],
    keys: &[u128],
    n: u32,
    period: &Period,
) -> Result<Vec<RowPeriod>, AllocError>
    requires lasting { All (IsLasting rows.now) keys.now }
    requires met { All (IsMet rows.now n period.now) keys.now }
    ensures { IfOk result (λ row_periods. HaveSameValidity rows.now n period.now keys.now row_periods.items) }
{
    if is_instant(period) {
        row_periods_at(alloc, keys, period)
    } else {
        read_row_periods(alloc, rows, keys, n)
    }
}
