//! The events of a history, in 16 bytes each. The values of a row are stored once, in the index of its table.

ghost use Rattle.std.specs.Prelude.{◌≡◌, ◌↔◌, ◌-◌, ◌<◌, ◌≤◌, [], IfOk, IfSome, IsSomeAnd, IsTrue, None, Some, length, slice_get};
ghost use Rattle.std.specs.List.Sorted.{IsNonDecreasingBy};
ghost use Rattle.std.specs.Ordering.{eq_by_cmp};
ghost use Rattle.tq_base.specs.Relations.{values_at_number};
ghost use Rattle.tq_base.specs.RowValues.{value_at};
ghost use Rattle.tq_base.specs.ValueOrder.{value_cmp, values_cmp};
ghost use Rattle.tq_event.specs.History.{IsNotBefore, time_of};
ghost use Rattle.tq_event.specs.Versions.{version_at};
ghost use Rattle.tq_store.specs.Log.{AreLogged, logged, start_key};
ghost use Rattle.tq_store.specs.Stored.{IsStart, values_at};

use crate::index::Index;
use std::alloc::{AllocError, Global};
use std::marker::Model;
use tq_base::{Instant, Rows, Value, ValueRef, Values};
use tq_event::Event;

/// An event without values: the table, the number of the row that it starts or ends, and its time.
#[derive(Clone, Copy, Debug)]
pub struct LoggedEvent {
    pub at: Instant,
    pub row: u32,
    pub table: u8,
    pub is_end: bool,
}

/// The events of a `Db`, borrowed from it. Contracts see their list.
#[derive(Drop)]
pub struct Events<'d> {
    log: &'d [LoggedEvent],
    indexes: &'d [Index],
}

impl<'d> Model for Events<'d> {
    ghost use Rattle.std.specs.Prelude.{List};
    ghost use Rattle.tq_event.specs.declared.event.Event.{Event as AnEvent};
    ghost use Rattle.tq_store.specs.Log.{AreLogged, logged};
    ghost use Rattle.tq_store.specs.Stored.{IsStart, values_at};

    ghost Value = { List AnEvent };

    ghost view = { λ e. logged e.indexes.now e.log.now };

    ghost invariant = { λ e. AreLogged e.indexes.now e.log.now };
}

impl<'d> Events<'d> {
    /// No events.
    pub fn none() -> Events<'d>
        ensures { result ≡ [] }
    {
        Events {
            log: &[],
            indexes: &[],
        }
    }

    // The events of a history with these indexes.
    pub(crate) fn of(log: &'d [LoggedEvent], indexes: &'d [Index]) -> Events<'d>
        requires { AreLogged indexes.now log.now }
        ensures { result ≡ logged indexes.now log.now }
    {
        Events { log, indexes }
    }

    /// The number of events.
    pub fn len(&self) -> usize
        ensures len { result ≡ length self.now }
        ensures few { result ≤ 16777216 }
    {
        self.log.len()
    }

    /// The time of the event with this number.
    pub fn at(&self, number: u32) -> Instant
        requires { number < length self.now }
        ensures { IsSomeAnd (slice_get self.now number) (λ e. result ≡ time_of e) }
    {
        self.log[number as usize].at
    }

    /// The time of the last event.
    pub fn last_at(&self) -> Option<Instant>
        ensures some { IfSome result (λ at. IsSomeAnd (slice_get self.now (length self.now - 1)) (λ e. at ≡ time_of e)) }
        ensures none { result ≡ None → self.now ≡ [] }
    {
        match self.log.last() {
            Some(last) => Some(last.at),
            None => None,
        }
    }

    /// Whether the last event is not later than the instant; true if there are no events.
    pub fn is_not_before(&self, at: Instant) -> bool
        ensures { IsTrue result ↔ IsNotBefore self.now at }
    {
        match self.log.last() {
            Some(last) => last.at <= at,
            None => true,
        }
    }

    /// The number of the first n events that are no later than the instant with this number.
    pub fn version_at(&self, n: u32, at: u64) -> u32
        requires known { n ≤ length self.now }
        requires ordered { IsNonDecreasingBy time_of self.now }
        ensures value { result ≡ version_at self.now n at }
        ensures within { result ≤ n }
    {
        self.log[..n as usize].partition_point(|event| event.at.number() <= at) as u32
    }
}

impl<'d> Events<'d> {
    ghost use Rattle.tq_base.specs.declared.fragment.Fragment.{Fragment};

    // The list of rows that has the row which the event starts, and its place there.
    fn row_of(&self, number: u32) -> (&Rows, usize)
        requires { IsSomeAnd (slice_get self.now number) IsStart }
        ensures row { result.1 < length result.0.now.items }
        ensures values { values_at_number result.0.now.items result.1 ≡ values_at self.now number }
        ensures narrow { result.0.now.width ≤ 4294967295 }
    {
        let event = self.log[number as usize];
        (&self.indexes[event.table as usize].kept, event.row as usize)
    }

    /// The values of the row that the event with this number starts. `AllocError` if an allocation failed.
    pub fn values(&self, alloc: Global, number: u32) -> Result<Values, AllocError>
        requires { IsSomeAnd (slice_get self.now number) IsStart }
        ensures { IfOk result (λ values. values ≡ values_at self.now number) }
    {
        let (rows, row) = self.row_of(number);
        let mut values = Vec::new(alloc);
        rows.show(row, &mut values)?;
        Ok(Values::of(values))
    }

    /// A copy of the event with this number. `AllocError` if an allocation failed.
    fn event(&self, alloc: Global, number: u32) -> Result<Event, AllocError>
        requires { number < length self.now }
        ensures { IfOk result (λ event. slice_get self.now number ≡ Some event) }
    {
        let LoggedEvent {
            at,
            row,
            table,
            is_end,
        } = self.log[number as usize];
        let table = u32::from(table);
        if is_end {
            return Ok(Event::End { table, row, at });
        }
        let values = self.values(alloc, number)?;
        Ok(Event::Start { table, values, at })
    }

    /// Copies of all events. `AllocError` if an allocation failed.
    pub fn to_vec(&self, alloc: Global) -> Result<Vec<Event>, AllocError>
        ensures { IfOk result (λ events. events.items ≡ self.now) }
    {
        let mut events = Vec::with_capacity(alloc, self.len())?;
        'events: for number in 0..self.len() {
            events.push(self.event(alloc, number as u32)?)?;
        }
        Ok(events)
    }

    /// The key of the row that the event with this number starts, if it is one of the table.
    pub fn start_key(&self, number: u32, table: u32) -> Option<i128>
        requires { number < length self.now }
        ensures { IsSomeAnd (slice_get self.now number) (λ event. result ≡ start_key table event) }
    {
        let event = self.log[number as usize];
        if event.is_end || u32::from(event.table) != table {
            return None;
        }
        let (rows, row) = self.row_of(number);
        match rows.value(row, 0) {
            Some(value) => match value.as_ref() {
                ValueRef::Int(number) => Some(number),
                ValueRef::Text(_) => Some(0),
            },
            None => Some(0),
        }
    }

    /// Whether the row that the event with this number starts has these values.
    pub fn has_values(&self, number: u32, values: &Values) -> bool
        requires { IsSomeAnd (slice_get self.now number) IsStart }
        ensures { result ≡ eq_by_cmp values_cmp (values_at self.now number) values.now }
    {
        let (rows, row) = self.row_of(number);
        has_values(rows, row, values.get())
    }
}

// Whether the row has the value in the column.
fn has_value(rows: &Rows, row: usize, column: u32, value: &Value) -> bool
    requires { row < length rows.now.items }
    ensures { result ≡ eq_by_cmp value_cmp (value_at (values_at_number rows.now.items row) column) value.now }
{
    match rows.value(row, column) {
        Some(own) => own == value,
        None => Value::int(0) == *value,
    }
}

// Whether the row has these values.
fn has_values(rows: &Rows, row: usize, values: &[Value]) -> bool
    requires row { row < length rows.now.items }
    requires narrow { rows.now.width ≤ 4294967295 }
    ensures { result ≡ eq_by_cmp values_cmp (values_at_number rows.now.items row) values.now }
{
    if rows.width() != values.len() {
        return false;
    }
    'columns: for column in 0..values.len() {
        if !has_value(rows, row, column as u32, &values[column]) {
            return false;
        }
    }
    true
}
