//! A history that is queried as of any number of its events.

ghost use Rattle.std.specs.Prelude.{All, ◌≡◌, ◌↔◌, ◌+◌, ◌*◌, ◌/◌, ◌<◌, ◌≤◌, ◌∷◌, ◌++◌, [], IsTrue, IfOk, OnErr, if◌then◌else◌, length, map, min};
ghost use Rattle.std.specs.List.Sorted.{IsNonDecreasingBy};
ghost use Rattle.tq_base.specs.declared.period.TheConstants.{FOREVER};
ghost use Rattle.tq_event.specs.History.{IsAdmissible, IsHistory, time_of};
ghost use Rattle.tq_event.specs.Versions.{version_at};
ghost use Rattle.tq_scan.specs.Windows.{whole_of};
ghost use Rattle.tq_store.specs.Index.{AreIndexes, CanEnd, stored_rows};
ghost use Rattle.tq_store.specs.Rows.{ArePartRows, HasPartRows, IsWithin, whole_window};
ghost use Rattle.tq_store.specs.Stored.{IsReadable, row_of_key, row_view};
ghost use Rattle.tq_store.specs.Valid.{ArePart, width_of};

use crate::index::{Index, logged_event, no_indexes, take};
use crate::log::{Events, LoggedEvent};
use crate::read::{make_window, read_rows, row_periods_of_keys};
use crate::row::Row;
use std::alloc::{AllocError, Global};
use std::marker::Model;
use tq_arena::Meter;
use tq_base::{Catalogue, Instant, KeyRange, Period, Relation, Rows};
use tq_event::{Event, can_start};
use tq_mvbt::trees_tile;
use tq_scan::{Found, Part, Window, scan, scan_unsorted};

/// A history: a catalogue, and the events that were applied, in order. It is queried as of its first n events.
#[derive(Drop)]
pub struct Db {
    alloc: Global,
    catalogue: Catalogue,
    log: Vec<LoggedEvent>,
    indexes: Vec<Index>,
}

impl Model for Db {
    ghost use Rattle.tq_event.specs.Recorded.{Recorded};
    ghost use Rattle.tq_store.specs.Log.{IsLoggedDb, logged};

    ghost Value = { Recorded };

    ghost view = { λ d. record { catalogue = d.catalogue; events = logged d.indexes.items d.log.items } };

    ghost invariant = { λ d. IsLoggedDb d.catalogue d.log.items d.indexes.items };
}

// Whether the row is open and started before the instant. A `History` of `tq_event` keeps a list of its open rows for
// this. A `Db` has no such list: its indexes know the open rows.
fn can_end(indexes: &[Index], events: &Events<'_>, table: u32, row: u32, at: Instant) -> bool
    requires { AreIndexes events.now indexes.now }
    ensures { IsTrue result ↔ CanEnd (length indexes.now) events.now table row at }
{
    match indexes.get(table as usize) {
        Some(index) => index.is_open_before(events, table, row, at),
        None => false,
    }
}

// Whether the event is admissible after the events.
fn is_admissible(
    catalogue: &Catalogue,
    events: &Events<'_>,
    indexes: &[Index],
    event: &Event,
) -> bool
    requires tables { length indexes.now ≡ length catalogue.now.tables }
    requires indexes { AreIndexes events.now indexes.now }
    ensures admissible { IsTrue result ↔ IsAdmissible catalogue.now events.now event.now }
    ensures finite { time_of event.now < FOREVER }
{
    let at = event.at();
    if !events.is_not_before(at) {
        return false;
    }
    match event {
        Event::Start { table, values, .. } => can_start(catalogue, *table, values),
        Event::End { table, row, at } => can_end(indexes, events, *table, *row, *at),
    }
}

impl Db {
    /// A history without events. It keeps the allocator.
    pub fn new(alloc: Global, catalogue: Catalogue) -> Result<Db, AllocError>
        ensures { IfOk result (λ db. db ≡ record { catalogue = catalogue; events = [] }) }
    {
        let indexes = no_indexes(alloc, catalogue.tables.get())?;
        Ok(Db {
            alloc,
            catalogue,
            log: Vec::new(alloc),
            indexes,
        })
    }

    /// The number of events, at most 16,777,216.
    pub fn count(&self) -> u32
        ensures count { result ≡ length self.now.events }
        ensures few { result ≤ 16777216 }
        ensures history { IsHistory self.now.catalogue self.now.events }
    {
        self.log.len() as u32
    }

    pub fn catalogue(&self) -> &Catalogue
        ensures { result.now ≡ self.now.catalogue }
    {
        &self.catalogue
    }

    /// The events, in order.
    pub fn events(&self) -> Events<'_>
        ensures value { result ≡ self.now.events }
        ensures ordered { IsNonDecreasingBy time_of self.now.events }
    {
        Events::of(self.log.as_slice(), self.indexes.as_slice())
    }

    /// Whether the event is admissible after the events of the history.
    pub fn admits(&self, event: &Event) -> bool
        ensures admissible { IsTrue result ↔ IsAdmissible self.now.catalogue self.now.events event.now }
        ensures finite { time_of event.now < FOREVER }
    {
        is_admissible(&self.catalogue, &self.events(), &self.indexes, event)
    }

    /// Appends a copy of the event if it is admissible, and returns whether it is. After `AllocError` the history is
    /// unchanged.
    pub fn apply(&mut self, event: &Event) -> Result<bool, AllocError>
        requires { length self.old.events < 16777216 }
        ensures admissible { IfOk result (λ taken. IsTrue taken ↔ IsAdmissible self.old.catalogue self.old.events event.now) }
        ensures events { IfOk result (λ taken. self.new ≡ record self.old { events = self.old.events ++ (if taken then event.now ∷ [] else []) }) }
        ensures err { OnErr result (self.new ≡ self.old) }
    {
        if !self.admits(event) {
            return Ok(false);
        }
        self.log.reserve(1)?;
        let next = logged_event(&self.indexes, event);
        take(&mut self.indexes, self.log.len() as u32, event)?;
        self.log.push_reserved(next);
        Ok(true)
    }

    /// The version of an instant: the number of the first n events that are no later.
    pub fn version_at(&self, n: u32, at: Instant) -> u32
        requires { n ≤ length self.now.events }
        ensures { result ≡ version_at self.now.events n at }
    {
        self.events().version_at(n, at.number())
    }

    /// The tree keys of the range, and the versions of the period as of the first n events. They are the same for each
    /// table.
    pub fn window(&self, n: u32, _table: u32, range: &KeyRange, period: &Period) -> Window
        requires { n ≤ length self.now.events }
        ensures { whole_of result ≡ whole_window self.now.events n range.now period.now }
    {
        make_window(&self.events(), n, range, period)
    }

    // The tree keys of the rows of the part of the window, in order. The meter counts reads of nodes, at least one.
    fn find(
        &self,
        n: u32,
        table: u32,
        range: &KeyRange,
        period: &Period,
        part: &Part,
        meter: &mut Meter,
    ) -> Result<Found, AllocError>
        requires known { n ≤ length self.now.events }
        requires table { table < length self.now.catalogue.tables }
        requires inside { IsWithin (whole_window self.now.events n range.now period.now) part.now }
        ensures readable { IfOk result (λ found. All (IsReadable self.now.events (stored_rows self.now.events table)) found.keys) }
        ensures rows { IfOk result (λ found. ArePartRows self.now.events n table range.now period.now part.now (map (row_of_key self.now.events (stored_rows self.now.events table) n) found.keys)) }
        ensures counted { IfOk result (λ found. min (meter.old + 1) u64.MAX ≤ meter.new) }
        ensures reads { IfOk result (λ found. period.now.end ≡ period.now.start + 1 → meter.new ≤ meter.old + 10 * (length found.keys / 5 + 2)) }
    {
        let window = make_window(&self.events(), n, range, period);
        let index = &self.indexes[table as usize];
        let _levels = index.tree.levels(part.last);
        let _version = index.tree.version();
        trees_tile();
        scan(self.alloc, &index.tree, &window, part, meter)
    }

    /// The rows of the table as of the first n events whose key lies in the range, whose period overlaps the given one,
    /// and whose reference point lies in the part of the window. They are in the order of their keys, then of their
    /// numbers. The meter counts reads of nodes, at least one. `AllocError` if an allocation failed.
    pub fn rows_part(
        &self,
        n: u32,
        table: u32,
        range: &KeyRange,
        period: &Period,
        part: &Part,
        meter: &mut Meter,
    ) -> Result<Vec<Row>, AllocError>
        requires known { n ≤ length self.now.events }
        requires table { table < length self.now.catalogue.tables }
        requires inside { IsWithin (whole_window self.now.events n range.now period.now) part.now }
        ensures rows { IfOk result (λ rows. ArePartRows self.now.events n table range.now period.now part.now (map row_view rows.items)) }
        ensures counted { IfOk result (λ rows. min (meter.old + 1) u64.MAX ≤ meter.new) }
        ensures reads { IfOk result (λ rows. period.now.end ≡ period.now.start + 1 → meter.new ≤ meter.old + 10 * (length rows.items / 5 + 2)) }
    {
        let found = self.find(n, table, range, period, part, meter)?;
        let index = &self.indexes[table as usize];
        read_rows(self.alloc, &self.events(), &index.rows, found.keys.get(), n)
    }

    // The tree keys of the rows of the part of the window, in any order: `find` without the work of ordering them, for
    // callers that need the rows only at the instants of the period.
    fn find_unsorted(
        &self,
        alloc: Global,
        n: u32,
        table: u32,
        range: &KeyRange,
        period: &Period,
        part: &Part,
    ) -> Result<Found, AllocError>
        requires known { n ≤ length self.now.events }
        requires table { table < length self.now.catalogue.tables }
        requires inside { IsWithin (whole_window self.now.events n range.now period.now) part.now }
        ensures readable { IfOk result (λ found. All (IsReadable self.now.events (stored_rows self.now.events table)) found.keys) }
        ensures rows { IfOk result (λ found. HasPartRows self.now.events n table range.now period.now part.now (map (row_of_key self.now.events (stored_rows self.now.events table) n) found.keys)) }
    {
        let window = make_window(&self.events(), n, range, period);
        let index = &self.indexes[table as usize];
        scan_unsorted(alloc, &index.tree, &window, part, &mut Meter::new())
    }

    /// The rows of the part of the window as of the first n events, each once, in any order. At the instants of the
    /// period they are valid exactly when those of `rows_part` are; at other instants nothing is promised. Their values
    /// are borrowed. A table that does not exist has no rows. `AllocError` if an allocation failed.
    pub fn rows_of_part(
        &self,
        alloc: Global,
        n: u32,
        table: u32,
        range: &KeyRange,
        period: &Period,
        part: &Part,
    ) -> Result<Relation<'_>, AllocError>
        requires known { n ≤ length self.now.events }
        requires inside { IsWithin (whole_window self.now.events n range.now period.now) part.now }
        ensures rows { IfOk result (λ rows. ArePart self.now.events n table range.now period.now part.now rows.items) }
        ensures width { IfOk result (λ rows. rows.width ≡ width_of self.now.catalogue table) }
    {
        if table as usize >= self.indexes.len() {
            return Relation::owned(alloc, Rows::new(alloc, 0));
        }
        let found = self.find_unsorted(alloc, n, table, range, period, part)?;
        let index = &self.indexes[table as usize];
        let row_periods = row_periods_of_keys(alloc, &index.rows, found.keys.get(), n, period)?;
        Relation::of(alloc, &index.kept)?.take_row_periods(alloc, &row_periods)
    }
}
