//! The open rows of every table, found by their values. Their events are in two lists, published and pending, which
//! each call borrows.

ghost use Rattle.std.specs.Prelude.{All, ◌≡◌, ◌↔◌, ℕ, ◌+◌, ◌<◌, ◌≤◌, ◌||◌, ◌∷◌, ◌++◌, [], true, false, length, slice_get, None, Some, IsTrue, IfOk, IfSome, IsSomeAnd, MatchOption, OnOk, OnErr};
ghost use Rattle.std.specs.List.Sorted.{IsNonDecreasingBy};
ghost use Rattle.std.specs.Ordering.{eq_by_cmp, nat_cmp};
ghost use Rattle.tq_base.specs.ValueOrder.{values_cmp};
ghost use Rattle.tq_event.specs.declared.event.Event.{Event as Happening};
ghost use Rattle.tq_event.specs.History.{IsHistory, IsOpenBefore, time_of};
ghost use Rattle.tq_event.specs.Opening as opening;
ghost use Rattle.tq_event.specs.Recorded.{table_of};
ghost use Rattle.tq_event.specs.Versions.{Life, row_lives};
ghost use Rattle.tq_store.specs.Index.{CanTake, IsOpenAt};
ghost use Rattle.tq_snapshot.specs.OpenIndex.{AreTableRows, IsOpenIndex, MayFollow, is_open_at, next_row, table_count};
ghost use Rattle.tq_snapshot.specs.OpenRows.{HasSame, IsNear, has, index_key};
ghost use Rattle.tq_store.specs.Stored.{IsStart, values_at, values_in};

use crate::key::open_key;
use crate::open_rows::OpenRows;
use std::alloc::{AllocError, Global};
use std::collections::BTreeSet;
use tq_base::{Catalogue, Instant, Values};
use tq_event::Event;
use tq_store::{Events, ROWS};

/// The rows of a table: the numbers of the events that start them, and the keys of the open ones.
#[derive(Drop)]
pub struct TableRows {
    pub starts: Vec<u32>,
    pub opened: OpenRows,
}

// The values of the row that a pending event starts.
fn values_of(event: &Event) -> &Values
    requires { IsStart event.now }
    ensures { result.now ≡ values_in event.now }
{
    match event {
        Event::Start { values, .. } => values,
        Event::End { .. } => unreachable!(),
    }
}

// The pending event with this number in both lists together, unless the event is published.
fn pending_event<'a>(published: &Events<'_>, pending: &'a [Event], number: u32) -> Option<&'a Event>
    requires { number < length (published.now ++ pending.now) }
    ensures pending { IfSome result (λ event. slice_get (published.now ++ pending.now) number ≡ Some event.now) }
    ensures published { result ≡ None → number < length published.now }
    ensures same { result ≡ None → slice_get (published.now ++ pending.now) number ≡ slice_get published.now number }
{
    let published = published.len();
    let number = number as usize;
    if number < published {
        None
    } else {
        Some(&pending[number - published])
    }
}

// The time of the event with this number.
fn time(published: &Events<'_>, pending: &[Event], number: u32) -> Instant
    requires { number < length (published.now ++ pending.now) }
    ensures { IsSomeAnd (slice_get (published.now ++ pending.now) number) (λ event. result ≡ time_of event) }
{
    match pending_event(published, pending, number) {
        Some(event) => event.at(),
        None => published.at(number),
    }
}

// Whether the row that the event with this number starts has these values.
fn has_values(published: &Events<'_>, pending: &[Event], number: u32, values: &Values) -> bool
    requires { IsSomeAnd (slice_get (published.now ++ pending.now) number) IsStart }
    ensures { result ≡ eq_by_cmp values_cmp (values_at (published.now ++ pending.now) number) values.now }
{
    match pending_event(published, pending, number) {
        Some(event) => values_of(event) == values,
        None => published.has_values(number, values),
    }
}

// A copy of the values of the row that the event with this number starts.
fn copied_values(
    alloc: Global,
    published: &Events<'_>,
    pending: &[Event],
    number: u32,
) -> Result<Values, AllocError>
    requires { IsSomeAnd (slice_get (published.now ++ pending.now) number) IsStart }
    ensures { IfOk result (λ values. values ≡ values_at (published.now ++ pending.now) number) }
{
    match pending_event(published, pending, number) {
        Some(event) => values_of(event).try_copy(),
        None => published.values(alloc, number),
    }
}

impl TableRows {
    fn new(alloc: Global) -> TableRows
        ensures { (table : ℕ) → AreTableRows [] table result }
    {
        TableRows {
            starts: Vec::new(alloc),
            opened: OpenRows::new(alloc),
        }
    }

    // Adds a row with these values, started by the event with this number. Unchanged after an error.
    fn start(&mut self, number: u32, values: &Values) -> Result<(), AllocError>
        requires { length self.old.starts.items < 4294967296 }
        ensures starts { OnOk result (self.new.starts.items ≡ self.old.starts.items ++ number ∷ []) }
        ensures opened { OnOk result ((k : ℕ) → has self.new.opened k ≡ (has self.old.opened k || eq_by_cmp nat_cmp (index_key values.now (length self.old.starts.items)) k)) }
        ensures same_starts { OnErr result (self.new.starts.items ≡ self.old.starts.items) }
        ensures same_opened { OnErr result (HasSame self.old.opened self.new.opened) }
    {
        self.starts.reserve(1)?;
        let row = self.starts.len() as u32;
        self.opened.insert(open_key(values, row))?;
        self.starts.push_reserved(number);
        Ok(())
    }

    // The number of the event that starts the row, which must be one of the table.
    fn start_of(&self, published: &Events<'_>, pending: &[Event], table: u32, row: u32) -> u32
        requires rows { AreTableRows (published.now ++ pending.now) table self.now }
        requires row { row < length self.now.starts.items }
        ensures number { result < length (published.now ++ pending.now) }
        ensures start { IsSomeAnd (slice_get (published.now ++ pending.now) result) IsStart }
        ensures life { (life : Life) → slice_get (row_lives (published.now ++ pending.now) table) row ≡ Some life → slice_get (published.now ++ pending.now) result ≡ Some (Happening.Start table life.values life.from) }
    {
        self.starts[row as usize]
    }

    // Takes an event that starts or ends a row of the table. Unchanged after an error.
    fn take(
        &mut self,
        published: &Events<'_>,
        pending: &[Event],
        event: &Event,
    ) -> Result<(), AllocError>
        requires rows { AreTableRows (published.now ++ pending.now) (table_of event.now) self.old }
        requires few { length (published.now ++ pending.now) < 16777216 }
        requires can { CanTake (published.now ++ pending.now) event.now }
        ensures ok { OnOk result (AreTableRows ((published.now ++ pending.now) ++ event.now ∷ []) (table_of event.now) self.new) }
        ensures err { OnErr result (AreTableRows (published.now ++ pending.now) (table_of event.now) self.new) }
    {
        match event {
            Event::Start { values, .. } => {
                let number = (published.len() + pending.len()) as u32;
                self.start(number, values)
            }
            Event::End { table, row, .. } => {
                let start = self.start_of(published, pending, *table, *row);
                let alloc = *self.starts.allocator();
                let values = copied_values(alloc, published, pending, start)?;
                self.opened.remove(open_key(&values, *row));
                Ok(())
            }
        }
    }

    // Whether the row, which must be one of the table, has these values.
    fn is_like(
        &self,
        published: &Events<'_>,
        pending: &[Event],
        table: u32,
        row: u32,
        wanted: &Values,
    ) -> bool
        requires rows { AreTableRows (published.now ++ pending.now) table self.now }
        requires row { row < length self.now.starts.items }
        ensures { (life : Life) → slice_get (row_lives (published.now ++ pending.now) table) row ≡ Some life → result ≡ eq_by_cmp values_cmp life.values wanted.now }
    {
        let start = self.start_of(published, pending, table, row);
        has_values(published, pending, start, wanted)
    }

    // The number of the first open row with these values, if its key is among `keys`.
    fn find_first_in(
        &self,
        published: &Events<'_>,
        pending: &[Event],
        table: u32,
        wanted: &Values,
        keys: &BTreeSet<u128>,
    ) -> Option<u32>
        requires rows { AreTableRows (published.now ++ pending.now) table self.now }
        requires few { length (published.now ++ pending.now) ≤ 16777216 }
        requires near { IsNear self.now.opened wanted.now keys.now }
        ensures member { MatchOption result ((r : ℕ) → is_open_at (row_lives (published.now ++ pending.now) table) wanted.now r ≡ false) (λ first. is_open_at (row_lives (published.now ++ pending.now) table) wanted.now first ≡ true) }
        ensures least { MatchOption result ((r : ℕ) → is_open_at (row_lives (published.now ++ pending.now) table) wanted.now r ≡ false) (λ first. (r : ℕ) → is_open_at (row_lives (published.now ++ pending.now) table) wanted.now r ≡ true → first ≤ r) }
    {
        let least = open_key(wanted, 0);
        'keys: for key in keys.range(least..=least + (ROWS - 1)) {
            let row = (*key % ROWS) as u32;
            if self.is_like(published, pending, table, row, wanted) {
                return Some(row);
            }
        }
        None
    }

    // The number of the first open row with these values.
    fn first_like(
        &self,
        published: &Events<'_>,
        pending: &[Event],
        table: u32,
        wanted: &Values,
    ) -> Option<u32>
        requires rows { AreTableRows (published.now ++ pending.now) table self.now }
        requires few { length (published.now ++ pending.now) ≤ 16777216 }
        ensures member { MatchOption result ((r : ℕ) → is_open_at (row_lives (published.now ++ pending.now) table) wanted.now r ≡ false) (λ first. is_open_at (row_lives (published.now ++ pending.now) table) wanted.now first ≡ true) }
        ensures least { MatchOption result ((r : ℕ) → is_open_at (row_lives (published.now ++ pending.now) table) wanted.now r ≡ false) (λ first. (r : ℕ) → is_open_at (row_lives (published.now ++ pending.now) table) wanted.now r ≡ true → first ≤ r) }
    {
        match self.opened.near(open_key(wanted, 0)) {
            Some(keys) => self.find_first_in(published, pending, table, wanted, keys),
            None => None,
        }
    }

    // Whether the open row started before the instant.
    fn is_before(
        &self,
        published: &Events<'_>,
        pending: &[Event],
        table: u32,
        values: &Values,
        row: u32,
        at: Instant,
    ) -> bool
        requires rows { AreTableRows (published.now ++ pending.now) table self.now }
        requires opened { is_open_at (row_lives (published.now ++ pending.now) table) values.now row ≡ true }
        ensures { IsTrue result ↔ IsOpenAt (published.now ++ pending.now) table row at }
    {
        let start = self.start_of(published, pending, table, row);
        time(published, pending, start) < at
    }

    // The number of the first open row with these values, if it started before the instant.
    fn first_open(
        &self,
        published: &Events<'_>,
        pending: &[Event],
        table: u32,
        values: &Values,
        at: Instant,
    ) -> Option<u32>
        requires rows { AreTableRows (published.now ++ pending.now) table self.now }
        requires ordered { IsNonDecreasingBy time_of (published.now ++ pending.now) }
        requires few { length (published.now ++ pending.now) ≤ 16777216 }
        ensures row { result ≡ opening.open_row (published.now ++ pending.now) table values.now at }
        ensures opened { IfSome result (λ row. IsOpenBefore (published.now ++ pending.now) table row at) }
    {
        match self.first_like(published, pending, table, values) {
            Some(row) => {
                if self.is_before(published, pending, table, values, row, at) {
                    Some(row)
                } else {
                    None
                }
            }
            None => None,
        }
    }
}

/// The open rows of every table, found by their values. The events that start them are in two consecutive lists, which
/// each call borrows.
#[derive(Drop)]
pub struct OpenIndex {
    tables: Vec<TableRows>,
}

fn no_tables(alloc: Global, tables: usize) -> Result<Vec<TableRows>, AllocError>
    ensures len { IfOk result (λ none. length none.items ≡ tables) }
    ensures rows { IfOk result (λ none. All (λ rows. (table : ℕ) → AreTableRows [] table rows) none.items) }
{
    let mut none = Vec::with_capacity(alloc, tables)?;
    'tables: for _ in 0..tables {
        none.push(TableRows::new(alloc))?;
    }
    Ok(none)
}

impl OpenIndex {
    fn new(alloc: Global, tables: usize) -> Result<OpenIndex, AllocError>
        ensures tables { IfOk result (λ index. table_count index ≡ tables) }
        ensures index { IfOk result (IsOpenIndex []) }
    {
        Ok(OpenIndex {
            tables: no_tables(alloc, tables)?,
        })
    }

    /// The open rows by the events, which are a history over the catalogue. `AllocError` if an allocation failed.
    pub fn of(
        alloc: Global,
        catalogue: &Catalogue,
        events: &[Event],
    ) -> Result<OpenIndex, AllocError>
        requires history { IsHistory catalogue.now events.now }
        requires few { length events.now ≤ 16777216 }
        ensures tables { IfOk result (λ index. table_count index ≡ length catalogue.now.tables) }
        ensures index { IfOk result (IsOpenIndex events.now) }
    {
        let mut index = OpenIndex::new(alloc, catalogue.tables.get().len())?;
        'events: for place in 0..events.len() {
            index.take(&Events::none(), &events[..place], &events[place])?;
        }
        Ok(index)
    }

    /// Takes an event that may follow the other events. Unchanged after an `AllocError`.
    pub fn take(
        &mut self,
        published: &Events<'_>,
        pending: &[Event],
        event: &Event,
    ) -> Result<(), AllocError>
        requires index { IsOpenIndex (published.now ++ pending.now) self.old }
        requires room { length (published.now ++ pending.now) < 16777216 }
        requires follows { MayFollow (table_count self.old) (published.now ++ pending.now) event.now }
        ensures tables { table_count self.new ≡ table_count self.old }
        ensures ok { OnOk result (IsOpenIndex ((published.now ++ pending.now) ++ event.now ∷ []) self.new) }
        ensures err { OnErr result (IsOpenIndex (published.now ++ pending.now) self.new) }
    {
        let _finite = event.at().number();
        let rows = &mut self.tables[event.table() as usize];
        rows.take(published, pending, event)
    }

    /// The number of the table's next row: the number of its rows that the events start.
    pub fn next_row(&self, published: &Events<'_>, pending: &[Event], table: u32) -> u32
        requires index { IsOpenIndex (published.now ++ pending.now) self.now }
        requires table { table < table_count self.now }
        ensures { result ≡ next_row (published.now ++ pending.now) table }
    {
        let _count = published.len() + pending.len();
        self.tables[table as usize].starts.len() as u32
    }

    /// The number of the table's first open row with these values, if it started before the instant. Takes O(log n),
    /// and one comparison for each earlier open row with the same key and digest.
    pub fn open_row(
        &self,
        published: &Events<'_>,
        pending: &[Event],
        table: u32,
        values: &Values,
        at: Instant,
    ) -> Option<u32>
        requires index { IsOpenIndex (published.now ++ pending.now) self.now }
        requires table { table < table_count self.now }
        ensures row { result ≡ opening.open_row (published.now ++ pending.now) table values.now at }
        ensures opened { IfSome result (λ row. IsOpenBefore (published.now ++ pending.now) table row at) }
    {
        let rows = &self.tables[table as usize];
        rows.first_open(published, pending, table, values, at)
    }
}
