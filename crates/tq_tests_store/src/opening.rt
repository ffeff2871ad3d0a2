//! The first open row of some values, compared with a plain list of rows.

use crate::asking::instant_of;
use crate::history::Known;
use std::alloc::{AllocError, Global};
use std::fmt::Write;
use tq_base::{Instant, Value, Values};
use tq_store::{Db, open_row};
use tq_tests_script::{Draws, print_nothing};

// The row by a walk over the history's events.
fn open(
    alloc: Global,
    db: &Db,
    table: u32,
    key: i64,
    at: Instant,
) -> Result<Option<u32>, AllocError> {
    let mut values = Vec::new(alloc);
    values.push(Value::int(key))?;
    let _few = db.count();
    let events = db.events().to_vec(alloc)?;
    Ok(open_row(&events, table, &Values::of(values), at))
}

/// Prints the number of the first open row of the table and the key that started before the instant.
pub(crate) fn print_open(
    alloc: Global,
    db: &Db,
    [table, key, at]: [i64; 3],
    out: &mut String,
) -> Result<(), AllocError> {
    let (Ok(table), Some(at)) = (u32::try_from(table), instant_of(at)) else {
        return print_nothing(out);
    };
    match open(alloc, db, table, key, at)? {
        Some(row) => writeln!(out, "row {row}"),
        None => writeln!(out, "none"),
    }
}

// The row by the plain list of rows.
fn expected(known: &Known, table: u32, key: i64, at: u64) -> Option<u32> {
    for row in &known.rows {
        let same = row.table == table && row.key == key;
        if same && row.end.is_none() && row.from < at {
            return Some(row.row);
        }
    }
    None
}

// Starts a row with one of three keys, or ends one of the rows.
fn step(alloc: Global, known: &mut Known, draws: &mut Draws) -> Result<(), AllocError> {
    let at = known.last.saturating_add(draws.below(4) / 3);
    if known.rows.is_empty() || draws.below(16) < 9 {
        let table = draws.below(2) as u32;
        let key = draws.below(3) as i64;
        known.start(alloc, table, key, at)
    } else {
        let place = draws.below(known.rows.len() as u64) as usize;
        known.end(place, at)
    }
}

// Searches a random row that started before one of the last instants; how many were found.
fn ask(alloc: Global, known: &mut Known, draws: &mut Draws, back: u64) -> Result<u32, AllocError> {
    let at = known.last.saturating_add(1).saturating_sub(back);
    let table = draws.below(2) as u32;
    let key = draws.below(4) as i64;
    let row = expected(known, table, key, at);
    let same = match Instant::new(at) {
        Some(at) => open(alloc, &known.db, table, key, at)? == row,
        None => false,
    };
    known.expect(same);
    Ok(u32::from(row.is_some()))
}

/// Random events with few keys, and three random searches after each. Prints whether all results were those of a list of
/// rows, and whether there were a thousand events. Prints also whether 2,000 to 5,000 of 6,000 searches found a row.
pub(crate) fn random_open(
    alloc: Global,
    seed: u64,
    rounds: u64,
    out: &mut String,
) -> Result<(), AllocError> {
    let mut draws = Draws::new(seed);
    let Some(mut known) = Known::new(alloc)? else {
        return print_nothing(out);
    };
    let mut found: u32 = 0;
    for _ in 0..rounds {
        step(alloc, &mut known, &mut draws)?;
        for back in 0..3 {
            found = found.saturating_add(ask(alloc, &mut known, &mut draws, back)?);
        }
    }
    known.print(out)?;
    let some = 2000 < found && found < 5000;
    writeln!(out, "2,000 to 5,000 rows found: {some}")
}
