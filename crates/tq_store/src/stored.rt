//! What is known of a row from the events that start and end it.

ghost use Rattle.std.specs.Prelude.{◌≡◌, ◌<◌, IfOk};
ghost use Rattle.tq_base.specs.declared.period.TheConstants.{FOREVER};
ghost use Rattle.tq_store.specs.Stored.{IsStored, end_as_of, row_view, stored_row};

use crate::index::RowEvents;
use crate::log::Events;
use crate::row::Row;
use std::alloc::{AllocError, Global};
use tq_base::{Bound, FOREVER, Instant, Period};

// All instants from this one on.
pub(crate) fn from_now_on(start: Instant) -> Period
    ensures start { result.start ≡ start }
    ensures end { result.end ≡ FOREVER }
{
    let _finite = start.number();
    Period::new(start, Bound::new(FOREVER).unwrap()).unwrap()
}

// The end of the row as of the first n events, or forever.
fn end(row: &RowEvents, n: u32) -> Bound
    ensures { result ≡ end_as_of n row.now.end row.now.to }
{
    match row.end {
        Some(event) if event < n => row.to,
        _ => Bound::new(FOREVER).unwrap(),
    }
}

/// The period of the row as of the first n events.
pub(crate) fn period(row: &RowEvents, n: u32) -> Period
    requires { row.now.from < row.now.to }
    ensures start { result.start ≡ row.now.from }
    ensures end { result.end ≡ end_as_of n row.now.end row.now.to }
{
    let _finite = row.from.number();
    Period::new(row.from, end(row, n)).unwrap()
}

// The row with this number as of the first n events.
pub(crate) fn read_row(
    alloc: Global,
    events: &Events<'_>,
    row: &RowEvents,
    number: u32,
    n: u32,
) -> Result<Row, AllocError>
    requires { IsStored events.now row.now }
    ensures { IfOk result (λ r. row_view r ≡ stored_row events.now n number row.now) }
{
    Ok(Row {
        row: number,
        values: events.values(alloc, row.start)?,
        period: period(row, n),
    })
}
