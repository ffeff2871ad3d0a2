//! The first open row with given values, found in the events.

ghost use Rattle.std.specs.Prelude.{◌≡◌, ◌≤◌, ◌<◌, ◌==◌, ◌&&◌, length};
ghost use Rattle.tq_base.specs.declared.period.TheConstants.{FOREVER};
ghost use Rattle.tq_event.specs.History.{end_of, time_of};
ghost use Rattle.tq_event.specs.Opening as opening;
ghost use Rattle.tq_store.specs.Stored.{ends_row, starts_like, starts_of};

use tq_base::{Instant, Values};
use tq_event::Event;

fn starts(event: &Event, table: u32) -> bool
    ensures { result ≡ starts_of table event.now }
{
    match event {
        Event::Start { table: of, .. } => *of == table,
        Event::End { .. } => false,
    }
}

// Whether the event starts a row of these values before the instant.
fn is_like(event: &Event, values: &Values, at: Instant) -> bool
    ensures { result ≡ starts_like values.now at event.now }
{
    match event {
        Event::Start {
            values: own,
            at: from,
            ..
        } => *from < at && own == values,
        Event::End { .. } => false,
    }
}

fn ends(event: &Event, table: u32, row: u32) -> bool
    ensures ends { result ≡ ends_row table row event.now }
    ensures finite { time_of event.now < FOREVER }
{
    let _time = event.at().number();
    match event {
        Event::Start { .. } => false,
        Event::End {
            table: of,
            row: ended,
            ..
        } => *of == table && *ended == row,
    }
}

fn is_open(events: &[Event], table: u32, row: u32) -> bool
    ensures { result ≡ (end_of table row events.now == FOREVER) }
{
    'events: for place in 0..events.len() {
        if ends(&events[place], table, row) {
            return false;
        }
    }
    true
}

// Whether the event starts a row of these values before the instant, and no later event ends it.
fn opens(event: &Event, later: &[Event], table: u32, row: u32, values: &Values, at: Instant) -> bool
    ensures { result ≡ (starts_like values.now at event.now && end_of table row later.now == FOREVER) }
{
    is_like(event, values, at) && is_open(later, table, row)
}

/// The number of the table's first row with these values that is open after all events and started before the instant.
/// It reads all events once, and for each row with these values those up to its end.
pub fn open_row(events: &[Event], table: u32, values: &Values, at: Instant) -> Option<u32>
    requires { length events.now ≤ 16777216 }
    ensures { result ≡ opening.open_row events.now table values.now at }
{
    let mut row = 0;
    'events: for place in 0..events.len() {
        let event = &events[place];
        if starts(event, table) {
            if opens(event, &events[place + 1..], table, row, values, at) {
                return Some(row);
            }
            row += 1;
        }
    }
    None
}
