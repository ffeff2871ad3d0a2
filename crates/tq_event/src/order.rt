// The events of entries, in order.

ghost use Rattle.std.specs.Prelude.{◌≡◌, ◌+◌, ◌<◌, ◌≤◌, All, IfOk, IsPermutation, IsSorted, length, map, vec_len};
ghost use Rattle.tq_event.specs.Entries.{entry_in};
ghost use Rattle.tq_event.specs.Loading.{AreEventsOf, HaveEvents, endpoint_cmp, endpoints_from};

use crate::endpoint::Endpoint;
use crate::entry::Entry;
use crate::event::Event;
use std::alloc::{AllocError, Global};
use std::mem;
use tq_base::{Instant, Values};

// The start of each entry, and its end unless that is `forever`.
fn endpoints_of(alloc: Global, entries: &[Entry]) -> Result<Vec<Endpoint>, AllocError>
    requires { length entries.now ≤ 16777216 }
    ensures { IfOk result (λ marks. marks.items ≡ endpoints_from 0 (map entry_in entries.now)) }
{
    let mut marks = Vec::new(alloc);
    'entries: for (place, item) in entries.iter().enumerate() {
        let entry = place as u32;
        let at = item.1.from;
        marks.push(Endpoint {
            at,
            starts: true,
            entry,
        })?;
        if let Some(at) = Instant::new(item.1.to.number()) {
            marks.push(Endpoint {
                at,
                starts: false,
                entry,
            })?;
        }
    }
    Ok(marks)
}

// The event that starts an entry of the table: the row gets the next number, and the values are moved into the event.
fn start_entry(
    alloc: Global,
    table: u32,
    values: &mut Values,
    row: &mut u32,
    next_row: &mut u32,
    at: Instant,
) -> Event
    requires { next_row.old < 4294967295 }
    ensures event { result ≡ Event.Start table values.old at }
    ensures row { row.new ≡ next_row.old }
    ensures next { next_row.new ≡ next_row.old + 1 }
{
    *row = *next_row;
    *next_row += 1;
    let values = mem::replace(values, Values::of(Vec::new(alloc)));
    Event::Start { table, values, at }
}

// The table of an entry, and the number of its row there; 0 until the row starts.
#[derive(Clone, Copy)]
struct RowId {
    table: u32,
    row: u32,
}

// A `RowId` for each entry, in one list: an endpoint reads or writes only one of them.
fn row_ids(alloc: Global, entries: &[Entry]) -> Result<Vec<RowId>, AllocError>
    ensures { IfOk result (λ v. v.items ≡ map (λ e. record { table = e.1.table; row = 0 }) entries.now) }
{
    let mut places = Vec::with_capacity(alloc, entries.len())?;
    for entry in entries {
        let table = entry.1.table;
        places.push(RowId { table, row: 0 })?;
    }
    Ok(places)
}

// The events of sorted endpoints.
fn place_events(
    alloc: Global,
    tables: usize,
    mut entries: Vec<Entry>,
    marks: &[Endpoint],
) -> Result<Vec<Event>, AllocError>
    requires all { IsPermutation (endpoints_from 0 (map entry_in entries.items)) marks.now }
    requires ordered { IsSorted endpoint_cmp marks.now }
    requires periods { All (λ e. e.from < e.to) (map entry_in entries.items) }
    requires tables { All (λ e. e.table < tables) (map entry_in entries.items) }
    requires few { length marks.now < 4294967296 }
    ensures { IfOk result (λ events. HaveEvents (map entry_in entries.items) marks.now events.items) }
{
    let mut places = row_ids(alloc, &entries)?;
    let mut next_rows = vec![in alloc; 0u32; tables]?;
    let mut events = Vec::with_capacity(alloc, marks.len())?;
    'marks: for endpoint in marks {
        let number = endpoint.entry as usize;
        let table = places[number].table;
        let event = if endpoint.starts {
            start_entry(
                alloc,
                table,
                &mut entries[number].0,
                &mut places[number].row,
                &mut next_rows[table as usize],
                endpoint.at,
            )
        } else {
            Event::End {
                table,
                row: places[number].row,
                at: endpoint.at,
            }
        };
        events.push(event)?;
    }
    Ok(events)
}

/// The events of the entries, in order: by time, ends before starts, then by entry. `AllocError` if an allocation
/// failed.
pub fn order_events(
    alloc: Global,
    tables: usize,
    entries: Vec<Entry>,
) -> Result<Vec<Event>, AllocError>
    requires few { vec_len entries ≤ 16777216 }
    requires periods { All (λ e. e.from < e.to) (map entry_in entries.items) }
    requires tables { All (λ e. e.table < tables) (map entry_in entries.items) }
    ensures { IfOk result (λ events. AreEventsOf (map entry_in entries.items) events.items) }
{
    let mut marks = endpoints_of(alloc, &entries)?;
    marks.sort_unstable();
    place_events(alloc, tables, entries, &marks)
}
