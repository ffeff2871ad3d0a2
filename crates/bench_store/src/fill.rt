//! A history of rows of a table; each key has four, one after the other.

use std::alloc::Global;
use tq_base::{Form, Instant, List, Value, Values};
use tq_event::{Event, FileBytes, TableFile, load};
use tq_store::Db;

/// The number of rows of a key.
pub const ROWS_OF_A_KEY: u32 = 4;

/// The distance between the keys of consecutive changes.
const STEP: u64 = 7919;

// The key of the change with this number, among `keys` keys.
fn turn(number: u32, keys: u32) -> u32 {
    (u64::from(number) * STEP % u64::from(keys.max(1))) as u32
}

/// A history that is filled event by event, each at an instant of its own.
#[derive(Drop)]
struct Filled {
    db: Db,
    last: u64,
    rows: u32,
}

impl Filled {
    // The instant of the next event.
    fn next(&mut self) -> Option<Instant> {
        self.last = self.last.saturating_add(1);
        Instant::new(self.last)
    }

    // Starts a row of the key and returns its number.
    fn start(&mut self, alloc: Global, key: u32) -> anyhow::Result<u32> {
        let mut values = Vec::new(alloc);
        values.push(Value::int(i64::from(key)))?;
        values.push(Value::int(i64::from(self.rows)))?;
        if let Some(at) = self.next()
            && self.db.count() < 16777216
        {
            let values = Values::of(values);
            let _taken = self.db.apply(&Event::Start {
                table: 0,
                values,
                at,
            })?;
        }
        let row = self.rows;
        self.rows = self.rows.saturating_add(1);
        Ok(row)
    }

    // Ends the row.
    fn end(&mut self, row: u32) -> anyhow::Result<()> {
        if let Some(at) = self.next()
            && self.db.count() < 16777216
        {
            let _taken = self.db.apply(&Event::End { table: 0, row, at })?;
        }
        Ok(())
    }
}

// A table with two columns of numbers, without rows.
fn no_rows(alloc: Global) -> anyhow::Result<Db> {
    let mut files = Vec::new(alloc);
    files.push(TableFile {
        name: List::of(b"rows".to_vec(alloc)?),
        bytes: FileBytes::of(b"key:int,number:int,from,to\n".to_vec(alloc)?),
    })?;
    let loaded = load(alloc, files, 0, Form::Numbers)?;
    Ok(Db::new(alloc, loaded.catalogue)?)
}

/// The history: a row of each key starts, the rows of the keys are replaced in turn, and the last rows end.
pub fn fill(alloc: Global, count: u32) -> anyhow::Result<Db> {
    let keys = count / ROWS_OF_A_KEY;
    let mut filled = Filled {
        db: no_rows(alloc)?,
        last: 0,
        rows: 0,
    };
    let mut current = Vec::new(alloc);
    for key in 0..keys {
        current.push(filled.start(alloc, key)?)?;
    }
    for number in 0..count.saturating_sub(keys) {
        let key = turn(number, keys);
        if let Some(row) = current.get_mut(key as usize) {
            filled.end(*row)?;
            *row = filled.start(alloc, key)?;
        }
    }
    for row in &current {
        filled.end(*row)?;
    }
    Ok(filled.db)
}
