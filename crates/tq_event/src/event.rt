// Events that start or end a row.

ghost use Rattle.std.specs.Prelude.{◌≡◌, IfOk};
ghost use Rattle.tq_event.specs.History.{time_of};
ghost use Rattle.tq_event.specs.Recorded.{table_of};

use std::alloc::AllocError;
use tq_base::{Instant, Values};

/// An event: a row with these values starts, or the row with this number ends. Tables are numbered from 0, and so are
/// the rows of each table, in the order of their starts.
#[derive(Drop, Debug)]
pub enum Event {
    Start {
        table: u32,
        values: Values,
        at: Instant,
    },
    End {
        table: u32,
        row: u32,
        at: Instant,
    },
}

impl Event {
    /// The time at which the row starts or ends.
    pub fn at(&self) -> Instant
        ensures { result ≡ time_of self.now }
    {
        match self {
            Event::Start { at, .. } => *at,
            Event::End { at, .. } => *at,
        }
    }

    /// The number of the row's table.
    pub fn table(&self) -> u32
        ensures { result ≡ table_of self.now }
    {
        match self {
            Event::Start { table, .. } => *table,
            Event::End { table, .. } => *table,
        }
    }

    /// An equal event. `AllocError` if an allocation failed.
    pub fn try_copy(&self) -> Result<Event, AllocError>
        ensures { IfOk result (λ event. event ≡ self.now) }
    {
        match self {
            Event::Start { table, values, at } => Ok(Event::Start {
                table: *table,
                values: values.try_copy()?,
                at: *at,
            }),
            Event::End { table, row, at } => Ok(Event::End {
                table: *table,
                row: *row,
                at: *at,
            }),
        }
    }
}
