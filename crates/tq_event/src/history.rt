// A history that grows by admissible events.

ghost use Rattle.std.specs.Prelude.{◌≡◌, ◌↔◌, ◌<◌, ◌∷◌, ◌++◌, [], IsTrue, IfOk, OnOk, OnErr, if◌then◌else◌, length, replicate};
ghost use Rattle.tq_base.specs.declared.period.TheConstants.{FOREVER};
ghost use Rattle.tq_event.specs.History.{IsAdmissible, IsHistory, IsNotBefore, time_of};
ghost use Rattle.tq_event.specs.Recorded.{AreStarts, CanEnd, HasTable, after_event, noted, table_of};

use crate::event::Event;
use crate::starts::Starts;
use std::alloc::{AllocError, Global};
use std::marker::Model;
use tq_base::{Catalogue, Instant, Values};

/// A catalogue, and the events of a history over it, in order.
#[derive(Drop, Debug)]
pub struct History {
    catalogue: Catalogue,
    events: Vec<Event>,
    starts: Vec<Starts>,
}

impl Model for History {
    ghost use Rattle.tq_event.specs.Recorded.{Recorded, IsRecorded};

    ghost Value = { Recorded };

    ghost view = { λ h. record { catalogue = h.catalogue; events = h.events.items } };

    ghost invariant = { λ h. IsRecorded h.catalogue h.events.items h.starts.items };
}

/// Whether the last event is not later than the instant; true if there are no events.
pub fn is_not_before(events: &[Event], at: Instant) -> bool
    ensures { IsTrue result ↔ IsNotBefore events.now at }
{
    match events.last() {
        Some(last) => last.at() <= at,
        None => true,
    }
}

/// Whether the catalogue has the table and its columns accept the values.
pub fn can_start(catalogue: &Catalogue, table: u32, values: &Values) -> bool
    ensures { IsTrue result ↔ HasTable catalogue.now table values.now }
{
    match catalogue.tables.get().get(table as usize) {
        Some(schema) => schema.fits(values),
        None => false,
    }
}

// Whether the row is open and started before the instant.
fn can_end(starts: &[Starts], table: u32, row: u32, at: Instant) -> bool
    ensures { IsTrue result ↔ CanEnd starts.now table row at }
{
    match starts.get(table as usize) {
        Some(rows) => rows.is_open_before(row as usize, at),
        None => false,
    }
}

// Whether the event may follow the events.
fn is_admissible(catalogue: &Catalogue, events: &[Event], starts: &[Starts], event: &Event) -> bool
    requires { AreStarts (length catalogue.now.tables) events.now starts.now }
    ensures admissible { IsTrue result ↔ IsAdmissible catalogue.now events.now event.now }
    ensures finite { time_of event.now < FOREVER }
{
    let at = event.at();
    let _finite = at.number();
    if !is_not_before(events, at) {
        return false;
    }
    match event {
        Event::Start { table, values, .. } => can_start(catalogue, *table, values),
        Event::End { table, row, at } => can_end(starts, *table, *row, *at),
    }
}

// Changes the open rows of the event's table. If an allocation failed, they have not changed.
fn note_rows(rows: &mut Starts, event: &Event) -> Result<(), AllocError>
    ensures ok { OnOk result (rows.new ≡ after_event event.now rows.old) }
    ensures err { OnErr result (rows.new ≡ rows.old) }
{
    match event {
        Event::Start { at, .. } => rows.start(*at),
        Event::End { row, .. } => {
            rows.end(*row as usize);
            Ok(())
        }
    }
}

// Changes the open rows after the event. If an allocation failed, they have not changed.
fn note(starts: &mut Vec<Starts>, event: &Event) -> Result<(), AllocError>
    requires { table_of event.now < length starts.old.items }
    ensures ok { OnOk result (starts.new.items ≡ noted event.now starts.old.items) }
    ensures err { OnErr result (starts.new.items ≡ starts.old.items) }
{
    let rows = &mut starts[event.table() as usize];
    note_rows(rows, event)
}

// For each table, no row.
fn no_starts(alloc: Global, tables: usize) -> Result<Vec<Starts>, AllocError>
    ensures { IfOk result (λ starts. starts.items ≡ replicate tables []) }
{
    let mut starts = Vec::with_capacity(alloc, tables)?;
    'tables: for _ in 0..tables {
        starts.push(Starts::new(alloc))?;
    }
    Ok(starts)
}

impl History {
    /// A history without events. `AllocError` if an allocation failed.
    pub fn new(alloc: Global, catalogue: Catalogue) -> Result<History, AllocError>
        ensures { IfOk result (λ h. h ≡ record { catalogue = catalogue; events = [] }) }
    {
        let starts = no_starts(alloc, catalogue.tables.get().len())?;
        Ok(History {
            catalogue,
            events: Vec::new(alloc),
            starts,
        })
    }

    /// The catalogue, borrowed.
    pub fn catalogue(&self) -> &Catalogue
        ensures { result.now ≡ self.now.catalogue }
    {
        &self.catalogue
    }

    /// The events, borrowed.
    pub fn events(&self) -> &[Event]
        ensures events { result.now ≡ self.now.events }
        ensures history { IsHistory self.now.catalogue self.now.events }
    {
        self.events.as_slice()
    }

    /// Adds a copy of the event if it is admissible, and returns whether it is. `AllocError` if an allocation failed:
    /// then the history has not changed.
    pub fn append(&mut self, event: &Event) -> Result<bool, AllocError>
        ensures admissible { IfOk result (λ taken. IsTrue taken ↔ IsAdmissible self.old.catalogue self.old.events event.now) }
        ensures events { IfOk result (λ taken. self.new ≡ record self.old { events = self.old.events ++ (if taken then event.now ∷ [] else []) }) }
        ensures err { OnErr result (self.new ≡ self.old) }
    {
        if !is_admissible(&self.catalogue, &self.events, &self.starts, event) {
            return Ok(false);
        }
        let copy = event.try_copy()?;
        self.events.reserve(1)?;
        note(&mut self.starts, event)?;
        self.events.push_reserved(copy);
        Ok(true)
    }
}
