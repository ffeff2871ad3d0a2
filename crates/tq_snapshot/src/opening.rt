// Opening of a store.

ghost use Rattle.std.specs.Prelude.{◌≡◌, ◌<◌, ◌≤◌, [], length, All, IfOk, vec_capacity, vec_len};
ghost use Rattle.tq_event.specs.History.{IsHistory};

use crate::book::{Opened, StoreId};
use crate::entering::enter_first;
use crate::faults::{OpenFault, PlaceRefused};
use crate::open_index::OpenIndex;
use crate::reader::Reader;
use crate::shared::SharedStore;
use crate::staging::{SharedWriter, commit};
use crate::writer::Writer;
use std::alloc::{AllocError, Global};
use tq_base::Catalogue;
use tq_event::Event;
use tq_store::Events;

impl<J: StoreId> Writer<J> {
    // The writer of a store with these events.
    fn opened(
        alloc: Global,
        opened: Opened,
        catalogue: Catalogue,
        events: Vec<Event>,
        places: usize,
        limit: usize,
    ) -> Result<Writer<J>, AllocError>
        requires named { (opened ≡ J.book) × (catalogue ≡ J.catalogue) }
        requires places { (0 < places) × (places ≤ 8) }
        requires history { IsHistory J.catalogue events.items }
        requires limit { (length events.items ≤ limit) × (limit ≤ 16777216) }
        ensures { IfOk result (λ w. w ≡ record { published = events.items; pending = []; limit = limit }) }
    {
        let Opened {
            book,
            prefix: mut written,
        } = opened;
        if !commit(&book, &mut written, &Events::none(), &events) {
            return Err(AllocError);
        }
        let rows = OpenIndex::of(alloc, &catalogue, &events)?;
        let first = SharedStore::filled(
            alloc,
            catalogue.try_copy(alloc)?,
            &events,
            written.copy(),
        )?;
        let second = SharedStore::filled(alloc, catalogue, &events, written.copy())?;
        let inner = SharedWriter::new(alloc, first, second, places)?;
        Ok(Writer {
            inner,
            book,
            written,
            pending: Vec::new(alloc),
            sent: 0,
            rows,
            limit,
        })
    }

    // A reader that has observed the published events. It enters once, so that it has found these events itself.
    fn admit(&self) -> Result<Reader<J>, PlaceRefused>
        ensures { IfOk result (λ r. r ≡ self.now.published) }
    {
        let observed = self.inner.published().prefix().copy();
        let Ok(inner) = self.inner.factory().reader() else {
            return Err(PlaceRefused);
        };
        let (inner, own) = enter_first(inner, &observed);
        Ok(Reader {
            inner: Some(inner),
            observed,
            own,
        })
    }

    // Makes `count` readers, for which `room` has space. Allocates nothing.
    fn admit_all(&self, room: Vec<Reader<J>>, count: u32) -> Result<Vec<Reader<J>>, PlaceRefused>
        requires none { (room.items ≡ []) × (vec_len room ≡ 0) }
        requires room { count ≤ vec_capacity room }
        ensures count { IfOk result (λ v. length v.items ≡ count) }
        ensures readers { IfOk result (λ v. All (λ t. t ≡ self.now.published) v.items) }
    {
        let mut readers = room;
        for _ in 0..count {
            readers.push_reserved(self.admit()?);
        }
        Ok(readers)
    }
}

/// Opens a store with these events, a history over the catalogue, and returns a writer and 1 to 8 readers. The store
/// takes at most `limit` events in all, at most 16,777,216. `opened` is `Opened::new()`, a new one for each store.
///
/// `OutOfMemory` if an allocation failed. `NoPlace` if all places exist and one was refused to a reader; giving a place
/// allocates nothing.
pub fn open<J: StoreId>(
    alloc: Global,
    opened: Opened,
    catalogue: Catalogue,
    events: Vec<Event>,
    readers: u32,
    limit: u32,
) -> Result<(Writer<J>, Vec<Reader<J>>), OpenFault>
    requires named { (opened ≡ J.book) × (catalogue ≡ J.catalogue) }
    requires readers { (0 < readers) × (readers ≤ 8) }
    requires history { IsHistory J.catalogue events.items }
    requires limit { (length events.items ≤ limit) × (limit ≤ 16777216) }
    ensures writer { IfOk result (λ r. r.0 ≡ record { published = events.items; pending = []; limit = limit }) }
    ensures count { IfOk result (λ r. length r.1.items ≡ readers) }
    ensures readers { IfOk result (λ r. All (λ t. t ≡ events.items) r.1.items) }
{
    let room = Vec::with_capacity(alloc, readers as usize)?;
    let writer = Writer::opened(
        alloc,
        opened,
        catalogue,
        events,
        readers as usize,
        limit as usize,
    )?;
    let admitted = writer.admit_all(room, readers)?;
    Ok((writer, admitted))
}
