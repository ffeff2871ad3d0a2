//! A history, compared with a plain list of its rows.

use std::alloc::{AllocError, Global};
use std::fmt::Write;
use tq_base::{Catalogue, Form, Instant, List, Value, Values};
use tq_event::{Event, FileBytes, MAX_EVENTS, TableFile, load};
use tq_store::Db;

/// A row by its events.
#[derive(Drop)]
pub(crate) struct Plain {
    pub(crate) table: u32,
    pub(crate) row: u32,
    pub(crate) key: i64,
    pub(crate) from: u64,
    pub(crate) start: u32,
    pub(crate) end: Option<(u32, u64)>,
}

/// A history, its rows, the time of its last event, and whether all results were those of the rows.
#[derive(Drop)]
pub(crate) struct Known {
    pub(crate) db: Db,
    pub(crate) rows: Vec<Plain>,
    pub(crate) last: u64,
    is_right: bool,
}

// Two tables with one column of numbers.
fn two_tables(alloc: Global) -> Result<Option<Catalogue>, AllocError> {
    let mut files = Vec::new(alloc);
    for name in [b"a", b"b"] {
        files.push(TableFile {
            name: List::of(name.to_vec(alloc)?),
            bytes: FileBytes::of(b"k:int,from,to\n".to_vec(alloc)?),
        })?;
    }
    Ok(
        load(alloc, files, 0, Form::Numbers)
            .ok()
            .map(|loaded| loaded.catalogue),
    )
}

impl Known {
    /// Two tables without rows.
    pub(crate) fn new(alloc: Global) -> Result<Option<Known>, AllocError> {
        let Some(catalogue) = two_tables(alloc)? else {
            return Ok(None);
        };
        Ok(Some(Known {
            db: Db::new(alloc, catalogue)?,
            rows: Vec::new(alloc),
            last: 0,
            is_right: true,
        }))
    }

    /// Notes whether an expectation holds.
    pub(crate) fn expect(&mut self, holds: bool) {
        self.is_right = self.is_right && holds;
    }

    // Applies the event, which is taken or not, as expected; whether it was taken.
    fn take(&mut self, event: &Event, expected: bool) -> Result<bool, AllocError> {
        let taken = self.db.count() < MAX_EVENTS && self.db.apply(event)?;
        self.expect(taken == expected);
        Ok(taken)
    }

    // The number of the next row of the table.
    fn next_row(&self, table: u32) -> u32 {
        let rows = self.rows.iter().filter(|row| row.table == table).count();
        u32::try_from(rows).unwrap_or(u32::MAX)
    }

    /// Starts a row: it is taken if the instant is not before that of the last event.
    pub(crate) fn start(
        &mut self,
        alloc: Global,
        table: u32,
        key: i64,
        at: u64,
    ) -> Result<(), AllocError> {
        let Some(instant) = Instant::new(at) else {
            self.expect(false);
            return Ok(());
        };
        let mut values = Vec::new(alloc);
        values.push(Value::int(key))?;
        let event = Event::Start {
            table,
            values: Values::of(values),
            at: instant,
        };
        let start = self.db.count();
        if self.take(&event, self.last <= at)? {
            let row = self.next_row(table);
            self.rows.push(Plain {
                table,
                row,
                key,
                from: at,
                start,
                end: None,
            })?;
            self.last = at;
        }
        Ok(())
    }

    /// Ends the row at this place: it is taken if the row is open and started before.
    pub(crate) fn end(&mut self, place: usize, at: u64) -> Result<(), AllocError> {
        let (Some(row), Some(instant)) = (self.rows.get(place), Instant::new(at)) else {
            self.expect(false);
            return Ok(());
        };
        let event = Event::End {
            table: row.table,
            row: row.row,
            at: instant,
        };
        let admissible = self.last <= at && row.end.is_none() && row.from < at;
        let number = self.db.count();
        if self.take(&event, admissible)? {
            if let Some(row) = self.rows.get_mut(place) {
                row.end = Some((number, at));
            }
            self.last = at;
        }
        Ok(())
    }

    /// Prints whether all results were those of the rows, and whether there were a thousand events.
    pub(crate) fn print(&self, out: &mut String) -> Result<(), AllocError> {
        let many = self.db.count() >= 1000;
        writeln!(out, "as a list of rows says: {}", self.is_right)?;
        writeln!(out, "a thousand events: {many}")
    }
}
