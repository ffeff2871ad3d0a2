// The writer.

ghost use Rattle.std.specs.Prelude.{◌≡◌, ◌-◌, ◌<◌, ◌∷◌, [], ◌++◌, length, None, Some, IfSome, OnOk, OnErr, MatchBool, MatchOption, MatchResult};
ghost use Rattle.tq_event.specs.declared.event.Event.{Event};
ghost use Rattle.tq_event.specs.History.{IsAdmissible, IsNotBefore, IsOpenBefore};
ghost use Rattle.tq_event.specs.Opening.{open_row};
ghost use Rattle.tq_event.specs.Recorded.{HasTable};
ghost use Rattle.tq_snapshot.specs.OpenIndex.{next_row};
ghost use Rattle.tq_snapshot.specs.Calls.{IsLater, CanEndRow, CanStart, IsPrecluded, IsEndRefusal, IsStartRefusal, IsTableRefusal, WriterState, all_of};

use crate::book::{Book, Prefix, StoreId};
use crate::faults::AppendFault;
use crate::note::Note;
use crate::open_index::OpenIndex;
use crate::staging::{SharedWriter, commit, show, stage};
use core::mem::ManuallyDrop;
use std::alloc::AllocError;
use std::marker::{Model, PhantomData};
use std::sync::Wait;
use tq_base::{Catalogue, Instant, Values};
use tq_event::Event;
use tq_store::Events;

/// The writer of the store. It appends events, which are pending until it publishes them. Contracts see it as its
/// published events, its pending events and its limit.
pub struct Writer<J: StoreId> {
    pub(crate) inner: SharedWriter<J>,
    pub(crate) book: Book,
    pub(crate) written: Prefix,
    pub(crate) pending: Vec<Event>,
    pub(crate) sent: usize,
    pub(crate) rows: OpenIndex,
    pub(crate) limit: usize,
}

impl<J: StoreId> Model for Writer<J> {
    ghost use Rattle.std.specs.Prelude.{◌≡◌, ◌++◌, drop, length};
    ghost use Rattle.tq_snapshot.specs.OpenIndex.{IsOpenIndex, table_count};
    ghost use Rattle.tq_snapshot.specs.Calls.{WriterState};
    ghost use Rattle.tq_snapshot.specs.Sound.{IsSound};

    ghost Value = { WriterState };

    ghost view = { λ w. record { published = w.inner.desk.shown.value.events; pending = w.pending.items; limit = w.limit } };

    ghost invariant = { λ w. (w.book.count.book ≡ J.book) × IsSound J.catalogue J.book w.inner.desk.shown.value (drop w.inner.behind w.inner.log.items) w.pending.items w.sent w.written w.limit × IsOpenIndex (w.inner.desk.shown.value.events ++ w.pending.items) w.rows × (table_count w.rows ≡ length J.catalogue.tables) };
}

impl<J: StoreId> Drop for Writer<J> {
    // Dropping waits for no reader, so both copies of the shared value stay in memory.
    fn drop(self) {
        let Self {
            inner,
            book: _book,
            written: _written,
            pending: _pending,
            sent: _,
            rows: _rows,
            limit: _,
        } = self;
        let _left = unsafe { ManuallyDrop::new_unchecked(inner) };
    }
}

// Fails if the table does not take the values. `can_start` of `tq_event` decides the same, but not which error it is.
fn fits(catalogue: &Catalogue, table: u32, values: &Values) -> Result<(), AppendFault>
    ensures { MatchResult result (λ _. HasTable catalogue.now table values.now) (IsTableRefusal catalogue.now table values.now) }
{
    match catalogue.tables.get().get(table as usize) {
        None => Err(AppendFault::UnknownTable),
        Some(schema) => {
            if schema.fits(values) {
                Ok(())
            } else {
                Err(AppendFault::BadValues)
            }
        }
    }
}

// The time of the last event of both lists if it is later than the instant, as the error reports it. `is_not_before` of
// `tq_event` only compares, and takes one list.
fn later(published: &Events<'_>, pending: &[Event], at: Instant) -> Option<Instant>
    ensures { MatchOption result (IsNotBefore (published.now ++ pending.now) at) (λ last. IsLater (published.now ++ pending.now) at last) }
{
    let last = match pending.last() {
        Some(last) => last.at(),
        None => published.last_at()?,
    };
    if at < last { Some(last) } else { None }
}

impl<J: StoreId> Writer<J> {
    /// The store's catalogue.
    pub fn catalogue(&self) -> &Catalogue
        ensures { result.now ≡ J.catalogue }
    {
        self.inner.published().catalogue()
    }

    /// The number of published events.
    pub fn published(&self) -> u32
        ensures { result ≡ length self.now.published }
    {
        self.inner.published().count() as u32
    }

    /// Starts a row with these values and returns its number in the table. The first of these errors that applies is
    /// returned, and changes nothing: `UnknownTable`, `BadValues`, `TooEarly`, `TooManyEvents`, `OutOfMemory`. Never
    /// waits.
    pub fn start(&mut self, table: u32, values: &Values, at: Instant) -> Result<u32, AppendFault>
        ensures { MatchResult result (λ row. CanStart J.catalogue self.old table values.now at × (row ≡ next_row (all_of self.old) table) × (self.new ≡ record self.old { pending = self.old.pending ++ Event.Start table values.now at ∷ [] })) (λ fault. (self.new ≡ self.old) × IsStartRefusal J.catalogue self.old table values.now at fault) }
    {
        self.may_append(table, values, at)?;
        if !self.has_room() {
            return Err(AppendFault::TooManyEvents);
        }
        let row = self.next_row(table);
        let Ok(values) = values.try_copy() else {
            return Err(AppendFault::OutOfMemory);
        };
        match self.append(Event::Start { table, values, at }) {
            Ok(()) => Ok(row),
            Err(_) => Err(AppendFault::OutOfMemory),
        }
    }

    /// Ends the first row with these values that is open by the published and pending events and started before the
    /// instant. Returns its number in the table. The first of these errors that applies is returned, and changes
    /// nothing: `UnknownTable`, `BadValues`, `TooEarly`, `NoOpenRow`, `TooManyEvents`, `OutOfMemory`. Never waits.
    pub fn end(&mut self, table: u32, values: &Values, at: Instant) -> Result<u32, AppendFault>
        ensures { MatchResult result (λ row. CanEndRow J.catalogue self.old table values.now at row × (self.new ≡ record self.old { pending = self.old.pending ++ Event.End table row at ∷ [] })) (λ fault. (self.new ≡ self.old) × IsEndRefusal J.catalogue self.old table values.now at fault) }
    {
        self.may_append(table, values, at)?;
        let Some(row) = self.open_row(table, values, at) else {
            return Err(AppendFault::NoOpenRow);
        };
        if !self.has_room() {
            return Err(AppendFault::TooManyEvents);
        }
        match self.append(Event::End { table, row, at }) {
            Ok(()) => Ok(row),
            Err(_) => Err(AppendFault::OutOfMemory),
        }
    }

    // Fails if the table does not take the values, or an event is later than the instant.
    fn may_append(&self, table: u32, values: &Values, at: Instant) -> Result<(), AppendFault>
        ensures { MatchResult result (λ _. HasTable J.catalogue table values.now × IsNotBefore (all_of self.now) at) (IsPrecluded J.catalogue (all_of self.now) table values.now at) }
    {
        fits(self.inner.published().catalogue(), table, values)?;
        match later(&self.inner.published().events(), &self.pending, at) {
            Some(last) => Err(AppendFault::TooEarly { last }),
            None => Ok(()),
        }
    }

    // Whether the limit allows one more event.
    fn has_room(&self) -> bool
        ensures { MatchBool result (length (all_of self.now) < self.now.limit) (length (all_of self.now) ≡ self.now.limit) }
    {
        self.inner.published().events().len() + self.pending.len() < self.limit
    }

    fn next_row(&self, table: u32) -> u32
        requires { table < length J.catalogue.tables }
        ensures { result ≡ next_row (all_of self.now) table }
    {
        let published = self.inner.published().events();
        self.rows.next_row(&published, &self.pending, table)
    }

    // The number of the table's first open row with these values, if it started before the instant.
    fn open_row(&self, table: u32, values: &Values, at: Instant) -> Option<u32>
        requires { table < length J.catalogue.tables }
        ensures row { result ≡ open_row (all_of self.now) table values.now at }
        ensures opened { IfSome result (λ row. IsOpenBefore (all_of self.now) table row at) }
    {
        let published = self.inner.published().events();
        self.rows
            .open_row(&published, &self.pending, table, values, at)
    }

    // Appends an event that may follow the others. Unchanged after an error.
    fn append(&mut self, event: Event) -> Result<(), AllocError>
        requires admissible { IsAdmissible J.catalogue (all_of self.old) event }
        requires room { length (all_of self.old) < self.old.limit }
        ensures ok { OnOk result (self.new ≡ record self.old { pending = self.old.pending ++ event ∷ [] }) }
        ensures err { OnErr result (self.new ≡ self.old) }
    {
        self.pending.reserve(1)?;
        let published = self.inner.published().events();
        self.rows.take(&published, &self.pending, &event)?;
        self.pending.push_reserved(event);
        Ok(())
    }

    /// Shows all pending events to readers and returns the number of published events. `AllocError` if an allocation
    /// failed: published and pending events are unchanged, and the next publishing continues from there. Waits for
    /// readers that are still in the older copy of the value.
    pub fn publish<R: Wait>(&mut self, rt: &R) -> Result<u32, AllocError>
        ensures { MatchResult result (λ n. (self.new ≡ record self.old { published = all_of self.old; pending = [] }) × (n ≡ length self.new.published)) (λ _. self.new ≡ self.old) }
    {
        let published = self.inner.published().events();
        if !commit(&self.book, &mut self.written, &published, &self.pending) {
            return Err(AllocError);
        }
        let (sent, handed) = stage(&mut self.inner, &self.written, &self.pending, self.sent);
        self.sent = sent;
        handed?;
        show(rt, &mut self.inner, &self.pending)?;
        self.pending.clear();
        self.sent = 0;
        Ok(self.written.len() as u32)
    }

    /// A note of the events that are published now. Allocates nothing.
    pub fn note(&self) -> Note<J>
        ensures { result ≡ self.now.published }
    {
        Note {
            prefix: self.inner.published().prefix().copy(),
            store: PhantomData,
        }
    }

    /// Closes the store: waits for the readers, then frees both copies of the shared value.
    pub fn close<R: Wait>(self, rt: &R) {
        let Self {
            inner,
            book: _book,
            written: _written,
            pending: _pending,
            sent: _,
            rows: _rows,
            limit: _,
        } = self;
        drop(inner.take(rt));
    }
}
